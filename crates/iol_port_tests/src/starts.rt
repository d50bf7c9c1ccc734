//! A port that starts over a device in use: another master was given up while the device held a
//! request of it.
use crate::device::{Parameter, octets_of, open_device};
use crate::ports::{Calls, read, turn};
use iol_app::{Mode, Status};
use iol_book::{Limits, Outcome, Ticket};
use iol_device::App;
use iol_far::Carried;
use iol_isdu::{Answer, Place, Request};
use iol_link::Wire;
use iol_mode::Devices;
use iol_peers::PLAIN;
use iol_port::{Answered, Call, Port};
use iol_sim::{Fate, Sim, Step};
use std::alloc::Global;
use std::test::Fail;

/// What the other master asked for.
fn before() -> Request {
    Request::read(Place { index: 17, sub: 0 })
}

/// In this turn the device is handed the other master's request, and that master is given up.
const HANDED: u32 = 17;

/// Whether a request is entered.
fn is_entered<P: Calls>(port: &mut P, request: Request) -> bool {
    port.call(&Call::Submit(request)) == Answered::Ticket(Ticket(1))
}

/// The wire of a master that is given up while the device has its request.
fn returned<W: Wire + Drop>(alloc: Global, wire: W) -> Option<W> {
    let mut port = Port::open(alloc, wire, &Limits::default()).ok()?;
    let is_entered = is_entered(&mut port, before());
    turn(&mut port, HANDED);
    is_entered.then_some(port.into_wire())
}

/// A port for any device, to which a read was submitted, in STARTUP after two turns.
fn started<W: Wire + Drop>(alloc: Global, wire: W) -> Option<Port<W>> {
    let mut port = Port::open_for(alloc, wire, &Limits::default(), Devices::Any).ok()?;
    let is_entered = is_entered(&mut port, read());
    turn(&mut port, 2);
    let starting = Answered::Status(Status {
        mode: Mode::Startup,
        why: None,
        event_form: false,
    });
    (is_entered && port.call(&Call::Status) == starting).then_some(port)
}

/// Its wire, once the read was answered so; none where it wasn't.
fn answered<W: Wire + Drop>(mut port: Port<W>, done: Outcome) -> Option<W> {
    turn(&mut port, 30);
    let is_done = port.call(&Call::Collect(Ticket(1))) == Answered::Outcome(done);
    is_done.then_some(port.into_wire())
}

/// Whether the record has so many pairs, and the first one is that of before if there are two.
fn has_pairs(carried: &[Carried], count: usize) -> bool {
    let is_right = match carried {
        [first, _] => first.request == before(),
        _ => true,
    };
    is_right && carried.len() == count
}

/// Whether the record has so many pairs of before in STARTUP, and at the end one more: that of
/// the port's own read.
fn has_first<P: App>(alloc: Global, wire: Sim<P>, before: usize, done: Outcome) -> Option<bool> {
    let wire = returned(alloc, wire)?;
    let is_new = has_pairs(wire.device().carried(), 0);
    let port = started(alloc, wire)?;
    let is_first = has_pairs(port.wire().device().carried(), before);
    let wire = answered(port, done)?;
    let is_last = has_pairs(wire.device().carried(), before.saturating_add(1));
    Some(is_new && is_first && is_last)
}

/// The device misses the pulse of the second wake-up request. The application carries out nothing
/// by itself until the device was reset, but for this step behind that request.
fn script(alloc: Global, in_startup: Option<Step>) -> Result<Vec<Step>, Fail> {
    let mut steps = Vec::new(alloc);
    steps.push(Step::Auto(false))?;
    for _ in 0..HANDED {
        steps.push(Step::Fate(Fate::Clean))?;
    }
    steps.push(Step::Fate(Fate::NoWake))?;
    if let Some(step) = in_startup {
        steps.push(step)?;
    }
    for _ in 0..8 {
        steps.push(Step::Fate(Fate::Clean))?;
    }
    steps.push(Step::Auto(true))?;
    Ok(steps)
}

/// A wire to a device that may miss the pulse of a wake-up request.
fn wire_to(alloc: Global, steps: Vec<Step>) -> Result<Sim<Parameter>, Fail> {
    let Some(mut device) = open_device(alloc, Parameter(0x41), &PLAIN) else {
        return Err("no device")?;
    };
    device.may_miss_pulses();
    match Sim::new(alloc, device, steps) {
        Ok(wire) => Ok(wire),
        Err(_) => Err("no wire")?,
    }
}

/// The device carries out what it was handed before in STARTUP, before its reset, or never; the
/// port's own read is right both times, and is the last pair.
#[test]
fn a_port_starts_over_a_device_in_use(rt: HostRuntime) -> Result<(), Fail> {
    let done = Outcome::Done(Answer::Read(octets_of(0x41)));
    let late = script(rt.alloc(), Some(Step::Work))?;
    let wire = wire_to(rt.alloc(), late)?;
    assert!(rt; has_first(rt.alloc(), wire, 1, done.clone()?) == Some(true));
    let never = script(rt.alloc(), None)?;
    let wire = wire_to(rt.alloc(), never)?;
    assert!(rt; has_first(rt.alloc(), wire, 0, done) == Some(true));
    Ok(())
}
