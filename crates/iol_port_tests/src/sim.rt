//! Tests of wires: memory that is refused, devices that are exchanged, and a wire of messages that
//! are given.

use crate::device::{Parameter, open_device};
use iol_cell::Handle;
use iol_device::{App, Device, FullRecord};
use iol_image::Image;
use iol_link::{Rate, Wire};
use iol_mseq::Message;
use iol_peers::{ONE_OCTET, PLAIN};
use iol_sim::{Fate, Raw, Sim, SimFault, Step};
use refusing_alloc::{Refusal, RefusingAlloc};
use std::alloc::AllocError;
use std::test::Fail;

/// The application of each device here.
const AS_OPENED: Parameter = Parameter(7);

/// What is handed back with a script where there is no memory for a wire. It has no clauses, so
/// the tests below are proved without what a device promises.
trait Back {
    /// Whether it is a device of this page, as it was opened.
    fn is_granted(&self, page: &[u8; 10]) -> bool;
}

impl<A: Handle> Back for Device<Parameter, FullRecord<A>> {
    fn is_granted(&self, page: &[u8; 10]) -> bool {
        self.page() == page && self.app() == &AS_OPENED
    }
}

/// Whether no wire was made for want of memory, and the device and the script are back.
fn is_back<S: Drop, D: Back + Drop, A: Handle>(
    made: Result<S, (SimFault, D, Vec<Step, A>)>,
    steps: &[Step],
) -> bool {
    match made {
        Ok(_) => false,
        Err((fault, device, back)) => {
            let is_script = back.as_slice() == steps;
            (fault == SimFault::OutOfMemory) & device.is_granted(&PLAIN) & is_script
        }
    }
}

/// Whether this order leaves no memory for a wire, and the device and the script come back.
fn is_refused<A: Handle>(
    alloc: A,
    refusing: &RefusingAlloc,
    steps: &[Step],
    refusal: Refusal,
) -> bool {
    refusing.order(Refusal::Never);
    let Ok(script) = Vec::from_clones(alloc, steps) else {
        return false;
    };
    let Some(device) = open_device(alloc, AS_OPENED, &PLAIN) else {
        return false;
    };
    refusing.order(refusal);
    let made = Sim::new(alloc, device, script);
    refusing.has_refused() && is_back(made, steps)
}

/// Whether a wire is made under this order, which refuses nothing then, and answers a wake.
fn is_granted<A: Handle>(
    alloc: A,
    refusing: &RefusingAlloc,
    steps: &[Step],
    refusal: Refusal,
) -> bool {
    refusing.order(Refusal::Never);
    let Ok(script) = Vec::from_clones(alloc, steps) else {
        return false;
    };
    let Some(device) = open_device(alloc, AS_OPENED, &PLAIN) else {
        return false;
    };
    refusing.order(refusal);
    match Sim::new(alloc, device, script) {
        Ok(mut sim) => !refusing.has_refused() && sim.wake() == Some(Rate::Com2),
        Err(_) => false,
    }
}

/// A simulated wire asks for memory once, for its device.
#[test]
fn a_simulated_wire_asks_for_memory_once(rt: HostRuntime) -> Result<(), Fail> {
    let refusing = RefusingAlloc::new(rt.alloc());
    let steps = [Step::Fate(Fate::Clean), Step::Input(Image::new(&[1])?)];
    for refusal in [Refusal::Only(0), Refusal::From(0)] {
        assert!(rt; is_refused(&refusing, &refusing, &steps, refusal));
    }
    assert!(rt; is_granted(&refusing, &refusing, &steps, Refusal::From(1)));
    Ok(())
}

/// Whether no wire was made for want of memory, and both devices and the script are back.
fn are_back<S: Drop, D: Back + Drop, A: Handle>(
    made: Result<S, (SimFault, D, D, Vec<Step, A>)>,
    steps: &[Step],
) -> bool {
    match made {
        Ok(_) => false,
        Err((fault, device, other, back)) => {
            let is_script = back.as_slice() == steps;
            let are_granted = device.is_granted(&PLAIN) & other.is_granted(&ONE_OCTET);
            (fault == SimFault::OutOfMemory) & are_granted & is_script
        }
    }
}

/// Whether this order leaves no memory for a wire of two devices, and they and the script come
/// back.
fn are_refused<A: Handle>(
    alloc: A,
    refusing: &RefusingAlloc,
    steps: &[Step],
    refusal: Refusal,
) -> bool {
    refusing.order(Refusal::Never);
    let Ok(script) = Vec::from_clones(alloc, steps) else {
        return false;
    };
    let Some(device) = open_device(alloc, AS_OPENED, &PLAIN) else {
        return false;
    };
    let Some(other) = open_device(alloc, AS_OPENED, &ONE_OCTET) else {
        return false;
    };
    refusing.order(refusal);
    let made = Sim::with_other(alloc, device, other, script);
    refusing.has_refused() && are_back(made, steps)
}

/// A wire of two devices and this script, under this order.
fn wire_of_two<A: Handle>(
    alloc: A,
    refusing: &RefusingAlloc,
    steps: &[Step],
    refusal: Refusal,
) -> Option<Sim<Parameter, A>> {
    refusing.order(Refusal::Never);
    let script = Vec::from_clones(alloc, steps).ok()?;
    let device = open_device(alloc, AS_OPENED, &PLAIN)?;
    let other = open_device(alloc, AS_OPENED, &ONE_OCTET)?;
    refusing.order(refusal);
    Sim::with_other(alloc, device, other, script).ok()
}

/// A wire of two devices asks for memory twice, and hands both back where it is refused.
#[test]
fn a_wire_of_two_devices_asks_for_memory_twice(rt: HostRuntime) -> Result<(), Fail> {
    let refusing = RefusingAlloc::new(rt.alloc());
    let steps = [Step::Fate(Fate::Clean)];
    for refusal in [
        Refusal::Only(0),
        Refusal::From(0),
        Refusal::Only(1),
        Refusal::From(1),
    ] {
        assert!(rt; are_refused(&refusing, &refusing, &steps, refusal));
    }
    let Some(mut sim) = wire_of_two(&refusing, &refusing, &steps, Refusal::From(2)) else {
        return Err("memory was refused")?;
    };
    assert!(rt; !refusing.has_refused());
    assert!(rt; sim.wake() == Some(Rate::Com2));
    Ok(())
}

/// A script in which so many wakes are lost.
fn lost_wakes<A: Handle>(alloc: A, count: usize) -> Result<Vec<Step, A>, AllocError> {
    let mut steps = Vec::new(alloc);
    for _ in 0..count {
        steps.push(Step::Fate(Fate::NoWake))?;
    }
    Ok(steps)
}

/// Whether a wire of two devices answers no wake that such a script loses, and the next one.
fn has_steps<A: Handle>(alloc: A, refusing: &RefusingAlloc, count: usize) -> bool {
    let Ok(steps) = lost_wakes(alloc, count) else {
        return false;
    };
    let Some(mut sim) = wire_of_two(alloc, refusing, &steps, Refusal::Never) else {
        return false;
    };
    for _ in 0..count {
        if sim.wake().is_some() {
            return false;
        }
    }
    sim.wake() == Some(Rate::Com2)
}

/// Refuses a wire of two devices that has no memory for a long script.
#[test]
fn a_wire_of_two_devices_has_each_step(rt: HostRuntime) {
    let refusing = RefusingAlloc::new(rt.alloc());
    for &count in &[0, 1, 2, 255, 256, 257, 1_000, 1_001, 65_537] {
        assert!(rt; has_steps(&refusing, &refusing, count));
    }
}

/// Whether a device of this page is plugged in, and one of that page is away.
fn has_pages<P: App, A: Handle>(sim: &Sim<P, A>, page: &[u8; 10], away: &[u8; 10]) -> bool {
    let is_away = match sim.away() {
        Some(device) => device.page() == away,
        None => false,
    };
    is_away && sim.device().page() == page
}

/// Whether the devices are exchanged in the second call of a wire, and again in the third.
fn swaps<P: App, A: Handle>(sim: &mut Sim<P, A>) -> bool {
    let mut is_right = has_pages(sim, &PLAIN, &ONE_OCTET);
    for (page, away) in [
        (&PLAIN, &ONE_OCTET),
        (&ONE_OCTET, &PLAIN),
        (&PLAIN, &ONE_OCTET),
    ] {
        let _ = sim.wake();
        is_right &= has_pages(sim, page, away);
    }
    is_right
}

/// A swap is made in its turn, and a second one brings the first device back.
#[test]
fn a_swap_exchanges_the_devices(rt: HostRuntime) -> Result<(), Fail> {
    let refusing = RefusingAlloc::new(rt.alloc());
    let steps = [
        Step::Fate(Fate::Clean),
        Step::Swap,
        Step::Fate(Fate::Clean),
        Step::Swap,
    ];
    let Some(mut sim) = wire_of_two(&refusing, &refusing, &steps, Refusal::Never) else {
        return Err("memory was refused")?;
    };
    assert!(rt; swaps(&mut sim));
    Ok(())
}

/// Whether a wire of these messages is refused memory under this order.
fn is_raw_refused(refusing: &RefusingAlloc, messages: &[Message], refusal: Refusal) -> bool {
    refusing.order(refusal);
    let refused = Raw::new(refusing, messages).err();
    refusing.has_refused() && refused == Some(SimFault::OutOfMemory)
}

/// Whether a wire answers these messages in order, a wake between them, and then none.
fn answers<W: Wire>(wire: &mut W, first: &Message, second: &Message) -> bool {
    wire.exchange(&[]).as_ref() == Some(first)
        && wire.wake() == Some(Rate::Com2)
        && wire.exchange(&[]).as_ref() == Some(second)
        && wire.exchange(&[]).is_none()
}

/// A wire of given messages answers them in order. No program has such a wire: this test alone
/// refuses a `new` that answers 24 where memory is there.
#[test]
fn a_raw_wire_answers_in_order(rt: HostRuntime) -> Result<(), Fail> {
    let refusing = RefusingAlloc::new(rt.alloc());
    let mut reply = Message::new();
    reply.push(0x17);
    reply.push(0x1B);
    let messages = [reply, Message::new()];
    for refusal in [Refusal::Only(0), Refusal::From(0)] {
        assert!(rt; is_raw_refused(&refusing, &messages, refusal));
    }
    refusing.order(Refusal::From(1));
    let mut raw = Raw::new(&refusing, &messages)?;
    assert!(rt; answers(&mut raw, &messages[0], &messages[1]));
    assert!(rt; !refusing.has_refused());
    Ok(())
}
