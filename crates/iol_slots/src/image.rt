//! Images of a content in slots: how one is saved, and how the newest whole one is found.
ghost use Rattle.std.specs.Prelude.{◌≡◌, ◌≤◌, ◌<◌, ◌+◌, ◌^◌, Some, None, length, option_map};
ghost use Rattle.iol_slots.specs.Memory.{slot_octets, after_stores, AreStored, stores_of};
ghost use Rattle.iol_slots.specs.Images.{is_mark, is_whole_image, next_mark, is_newer, newest, newest_content, free_slot, newest_mark, fresh_mark, last_octet, image, saving, keeping, is_loaded, has_size, FitsIn};

use crate::slots::{Slot, Slots, Store};

/// The highest mark. The octets 0x00 and 0xFF, which erased memory has, are none.
const LAST_MARK: u8 = 254;

/// Whether both slots have this size: two octets more than the content that they keep.
pub fn has_size<S: Slots>(slots: &S, size: usize) -> bool
    ensures { result ≡ has_size (S.memory slots.now) size }
{
    slots.octets(Slot::First).len() == size && slots.octets(Slot::Second).len() == size
}

/// The content that was saved last, whole; none where none was.
///
/// Rule SLOT-4.
pub fn load<S: Slots>(slots: &S) -> Option<&[u8]>
    ensures { option_map (λ octets. octets.now) result ≡ newest_content (S.memory slots.now) }
{
    let slot = newest(slots)?;
    let octets = slots.octets(slot);
    Some(&octets[1..octets.len() - 1])
}

/// Saves a content, whose slots have two octets more: an octet at a time into the slot that isn't
/// the newest, its last mark last. Where it is the newest content already, nothing is stored.
///
/// Rules SLOT-2, SLOT-3.
pub fn save<S: Slots>(slots: &mut S, content: &[u8])
    requires { FitsIn (S.memory slots.old) content.now }
    ensures stores { AreStored S.store_gives slots.old
        (keeping (S.memory slots.old) content.now) slots.new }
    ensures holds { S.memory slots.new
        ≡ after_stores (S.memory slots.old) (keeping (S.memory slots.old) content.now) }
    ensures loads { newest_content (S.memory slots.new) ≡ Some content.now }
    ensures fits { FitsIn (S.memory slots.new) content.now }
{
    if is_loaded(slots, content) {
        return;
    }
    save_anew(slots, content);
}

/// Whether a content is what is loaded.
fn is_loaded<S: Slots>(slots: &S, content: &[u8]) -> bool
    ensures { result ≡ is_loaded (newest_content (S.memory slots.now)) content.now }
{
    match load(slots) {
        Some(loaded) => loaded == content,
        None => false,
    }
}

fn save_anew<S: Slots>(slots: &mut S, content: &[u8])
    requires { FitsIn (S.memory slots.old) content.now }
    ensures stores { AreStored S.store_gives slots.old
        (saving (S.memory slots.old) content.now) slots.new }
    ensures holds { S.memory slots.new
        ≡ after_stores (S.memory slots.old) (saving (S.memory slots.old) content.now) }
{
    let newest = newest(slots);
    let slot = free_slot(newest);
    let mark = fresh_mark(newest_mark(slots, newest), last_octet(slots.octets(slot)));
    store_image(slots, slot, mark, content);
}

/// Stores a content between two marks.
fn store_image<S: Slots>(slots: &mut S, slot: Slot, mark: u8, content: &[u8])
    requires room { length content.now + 2 ≤ length (slot_octets (S.memory slots.old) slot) }
    requires few { length content.now + 2 < 2 ^ 63 }
    ensures stores { AreStored S.store_gives slots.old
        (stores_of slot 0 (image mark content.now)) slots.new }
    ensures holds { S.memory slots.new
        ≡ after_stores (S.memory slots.old) (stores_of slot 0 (image mark content.now)) }
{
    store_all(slots, slot, 0, &[mark]);
    store_all(slots, slot, 1, content);
    store_all(slots, slot, 1 + content.len(), &[mark]);
}

/// Stores octets one after the other, from a place on.
fn store_all<S: Slots>(slots: &mut S, slot: Slot, from: usize, octets: &[u8])
    requires room { from + length octets.now ≤ length (slot_octets (S.memory slots.old) slot) }
    requires few { from + length octets.now < 2 ^ 63 }
    ensures stores { AreStored S.store_gives slots.old (stores_of slot from octets.now) slots.new }
    ensures holds { S.memory slots.new
        ≡ after_stores (S.memory slots.old) (stores_of slot from octets.now) }
{
    let mut at = from;
    for octet in octets {
        slots.store(Store {
            slot,
            at,
            octet: *octet,
        });
        at += 1;
    }
}

/// The slot with the newest whole image, if one has any.
fn newest<S: Slots>(slots: &S) -> Option<Slot>
    ensures { result ≡ newest (S.memory slots.now) }
{
    let first = slots.octets(Slot::First);
    let second = slots.octets(Slot::Second);
    match (is_whole_image(first), is_whole_image(second)) {
        (false, false) => None,
        (true, false) => Some(Slot::First),
        (false, true) => Some(Slot::Second),
        (true, true) => {
            if is_newer(first[0], second[0]) {
                Some(Slot::Second)
            } else {
                Some(Slot::First)
            }
        }
    }
}

/// Whether octets are a whole image: they stand between two equal marks.
fn is_whole_image(octets: &[u8]) -> bool
    ensures { result ≡ is_whole_image octets.now }
{
    2 <= octets.len() && is_mark(octets[0]) && octets[0] == octets[octets.len() - 1]
}

/// Whether an octet is a mark.
fn is_mark(octet: u8) -> bool
    ensures { result ≡ is_mark octet }
{
    1 <= octet && octet <= LAST_MARK
}

/// The mark behind this one.
fn next_mark(mark: u8) -> u8
    ensures { result ≡ next_mark mark }
{
    if mark < LAST_MARK { mark + 1 } else { 1 }
}

/// Whether a mark is one or two behind another.
fn is_newer(old: u8, new: u8) -> bool
    ensures { result ≡ is_newer old new }
{
    new == next_mark(old) || new == next_mark(next_mark(old))
}

/// The slot that the next image goes to.
fn free_slot(newest: Option<Slot>) -> Slot
    ensures { result ≡ free_slot newest }
{
    match newest {
        None | Some(Slot::Second) => Slot::First,
        Some(Slot::First) => Slot::Second,
    }
}

/// The mark of the newest image, 0 where there is none.
fn newest_mark<S: Slots>(slots: &S, newest: Option<Slot>) -> u8
    ensures { result ≡ newest_mark (S.memory slots.now) newest }
{
    match newest {
        None => 0,
        Some(slot) => slots.octets(slot).first().copied().unwrap_or(0),
    }
}

/// The last octet of a slot, 0 where it has none.
fn last_octet(octets: &[u8]) -> u8
    ensures { result ≡ last_octet octets.now }
{
    octets.last().copied().unwrap_or(0)
}

/// The mark of the next image. It differs from the octet where it will stand last: so an image
/// that isn't finished has two different ones.
fn fresh_mark(mark: u8, last: u8) -> u8
    ensures { result ≡ fresh_mark mark last }
{
    let next = next_mark(mark);
    if next == last { next_mark(next) } else { next }
}
