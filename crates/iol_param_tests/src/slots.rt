//! Contents in two slots, and cuts of the power behind any octet.
use iol_slots::{RamSlots, Slot, Slots, Store, has_size, load, save};
use std::alloc::{AllocError, Global};
use std::process::Abort;
use std::test::Fail;

const SIZE: usize = 5;

type Content = [u8; SIZE - 2];

/// Stores an octet, if the slot has its place.
fn put(slots: &mut RamSlots, slot: Slot, at: usize, octet: u8) {
    if at < slots.octets(slot).len() {
        slots.store(Store { slot, at, octet });
    }
}

/// Stores the first octets of a slot into the same slot of others.
fn put_first(from: &RamSlots, to: &mut RamSlots, slot: Slot, count: usize) {
    for (at, octet) in from.octets(slot).iter().take(count).enumerate() {
        put(to, slot, at, *octet);
    }
}

/// Slots in memory that are a copy of these.
fn copy_of(alloc: Global, slots: &RamSlots) -> Result<RamSlots, AllocError> {
    let mut copy = RamSlots::open(alloc, SIZE)?;
    put_first(slots, &mut copy, Slot::First, SIZE);
    put_first(slots, &mut copy, Slot::Second, SIZE);
    Ok(copy)
}

/// Saves a content. Answers whether the slots have their size.
fn is_saved(slots: &mut RamSlots, content: &Content) -> bool {
    if !has_size(slots, SIZE) {
        return false;
    }
    save(slots, content);
    true
}

/// Whether a content is saved, and is what is loaded then.
fn is_retained(slots: &mut RamSlots, content: &Content) -> bool {
    is_saved(slots, content) && load(slots) == Some(&content[..])
}

/// Whether a content is saved, and a slot has these octets then.
fn stores(slots: &mut RamSlots, content: &Content, slot: Slot, octets: &[u8; SIZE]) -> bool {
    is_saved(slots, content) && slots.octets(slot) == &octets[..]
}

/// The slots take turns, with marks that go on, and what was saved last is stored no more.
fn take_turns(slots: &mut RamSlots) -> bool {
    stores(slots, &[1, 2, 3], Slot::First, &[1, 1, 2, 3, 1])
        && load(slots) == Some(&[1, 2, 3][..])
        && stores(slots, &[4, 5, 6], Slot::Second, &[2, 4, 5, 6, 2])
        && load(slots) == Some(&[4, 5, 6][..])
        && stores(slots, &[4, 5, 6], Slot::First, &[1, 1, 2, 3, 1])
        && stores(slots, &[7, 8, 9], Slot::First, &[3, 7, 8, 9, 3])
}

#[test]
fn what_is_saved_is_loaded(rt: HostRuntime) -> Result<(), Fail> {
    let mut slots = RamSlots::open(rt.alloc(), SIZE)?;
    assert_eq!(rt; load(&slots), None);
    assert!(rt; take_turns(&mut slots));
    Ok(())
}

#[test]
fn marks_go_round(rt: HostRuntime) -> Result<(), Fail> {
    let mut slots = RamSlots::open(rt.alloc(), SIZE)?;
    for round in 0..600u16 {
        let [high, low] = round.to_be_bytes();
        assert!(rt; is_retained(&mut slots, &[high, low, 0]));
    }
    Ok(())
}

/// The slot into which a content was saved.
fn stored(before: &RamSlots, after: &RamSlots) -> Slot {
    if before.octets(Slot::First) == after.octets(Slot::First) {
        Slot::Second
    } else {
        Slot::First
    }
}

/// Whether the new content is loaded once all of it was stored, and else the old one, where the
/// power is cut behind so many octets of a save.
fn is_whole(
    alloc: Global,
    slots: &RamSlots,
    done: &RamSlots,
    new: &Content,
    count: usize,
) -> Result<bool, AllocError> {
    let mut torn = copy_of(alloc, slots)?;
    put_first(done, &mut torn, stored(slots, done), count);
    let is_new = load(&torn) == Some(&new[..]);
    Ok(is_new == (count == SIZE) && (is_new || load(&torn) == load(slots)))
}

/// A save, whose power is cut behind each count of octets, and then not.
fn survives<R: Abort>(
    rt: &R,
    alloc: Global,
    slots: &mut RamSlots,
    new: &Content,
) -> Result<(), AllocError> {
    let mut done = copy_of(alloc, slots)?;
    assert!(rt; is_saved(&mut done, new));
    for count in 0..=SIZE {
        assert!(rt; is_whole(alloc, slots, &done, new, count)?);
    }
    assert!(rt; is_saved(slots, new));
    Ok(())
}

#[test]
fn a_power_cut_behind_any_octet_leaves_a_whole_content(rt: HostRuntime) -> Result<(), Fail> {
    let mut slots = RamSlots::open(rt.alloc(), SIZE)?;
    assert!(rt; is_saved(&mut slots, &[1, 2, 3]));
    for round in 4..9u8 {
        survives(&rt, rt.alloc(), &mut slots, &[round, round, round])?;
    }
    Ok(())
}
