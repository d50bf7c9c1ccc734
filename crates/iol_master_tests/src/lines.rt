//! Lines of a port: its calls under the lock, while a worker makes the turns.
use crate::calls::{Expected, Noted, are_noted, check, is_expected};
use crate::opening::wired;
use crate::scripts::{
    Call, ENOUGH, Script, Stage, Tested, UNDER_WAY, VALUE_PLACE, Waits, lets_in, lets_in_at_wire,
    run, start_up,
};
use crate::seats::is_image;
use crate::slow::{ALARM, Flags, INPUT, START_UP, VALUE, sending};
use iol_app::Mode;
use iol_book::{Limits, Outcome, Ticket};
use iol_event::Event;
use iol_image::Image;
use iol_isdu::{Cause, Request};
use iol_link::Wire;
use iol_master::LinePort;
use iol_peers::PROCESS_DATA;
use iol_port::{PortCore, PortFault};
use iol_sim::{Params, Sim, Step};
use std::alloc::Global;
use std::marker::Brand;
use std::sync::ledger::{Blank, Ledger};
use std::test::Fail;

impl Tested for PortCore {
    fn answers<K: Ledger>(port: &mut LinePort<K>, call: Call) -> bool {
        match call {
            Call::Submit(place, number) => {
                port.submit(Request::read(place)) == Ok(Ticket(number))
            }
            Call::Urgent(place, number) => {
                port.submit_urgent(Request::read(place)) == Ok(Ticket(number))
            }
            Call::Withdraw(number) => port.withdraw(Ticket(number)) == Ok(()),
            Call::Abandon(number) => port.abandon(Ticket(number)) == Ok(()),
            Call::Cancel(number) => port.cancel(Ticket(number)) == Ok(()),
            _ => hands_out(port, call),
        }
    }
}

/// The calls that hand something out.
fn hands_out<K: Ledger>(port: &mut LinePort<K>, call: Call) -> bool {
    match call {
        Call::Collect(number, expected) => is_expected(&port.collect(Ticket(number)), expected),
        Call::CollectInto(number, expected) => collects_into(port, number, expected),
        Call::Event(event) => port.take_event() == event,
        Call::Journal(noted) => archives_as(port, noted),
        Call::Archive(count) => archives(port, count),
        Call::Drain(count) => drains(port, count),
        _ => is_set(port, call),
    }
}

fn collects_into<K: Ledger>(port: &mut LinePort<K>, number: u64, expected: Expected) -> bool {
    let mut outcome = Outcome::Withdrawn;
    match port.collect_into(Ticket(number), &mut outcome) {
        Ok(()) => is_expected(&Ok(outcome), expected),
        Err(_) => false,
    }
}

fn archives_as<K: Ledger>(port: &mut LinePort<K>, noted: &[Noted]) -> bool {
    match port.archive() {
        Ok(archived) => are_noted(&archived, noted),
        Err(_) => false,
    }
}

fn archives<K: Ledger>(port: &mut LinePort<K>, count: usize) -> bool {
    match port.archive() {
        Ok(archived) => archived.len() == count,
        Err(_) => false,
    }
}

fn drains<K: Ledger>(port: &mut LinePort<K>, count: usize) -> bool {
    match port.drain() {
        Ok(drained) => drained.len() == count,
        Err(_) => false,
    }
}

/// The calls that set something.
fn is_set<K: Ledger>(port: &mut LinePort<K>, call: Call) -> bool {
    match call {
        Call::SetOutput(octet) => sets_output(port, octet),
        Call::ClearOutput => {
            port.clear_output();
            true
        }
        Call::Restart => {
            port.restart();
            true
        }
        _ => is_observed(port, call),
    }
}

fn sets_output<K: Ledger>(port: &mut LinePort<K>, octet: u8) -> bool {
    match Image::new(&[octet]) {
        Ok(image) => port.set_output(&image) == Ok(()),
        Err(_) => false,
    }
}

/// Those that only look.
fn is_observed<K: Ledger>(port: &LinePort<K>, call: Call) -> bool {
    match call {
        Call::RestartWaits(waits) => port.is_restart_waiting() == waits,
        Call::Mode(mode) => port.status().mode == mode,
        Call::Image(octets) => is_image(port.image(), octets),
        Call::Restated(count) => port.restated() == count,
        _ => false,
    }
}

/// What the port is to have as its output.
const OUTPUT: u8 = 0x99;

/// Every call of a port: between turns, up to one request that is answered, and then up to one that
/// is cancelled and a restart.
const EACH_CALL: Script = Script {
    stages: &[
        Stage::Calls(&[
            Call::Submit(VALUE_PLACE, 1),
            Call::Withdraw(1),
            Call::Collect(1, Expected::Withdrawn),
        ]),
        Stage::Turns(START_UP),
        Stage::Calls(&[
            Call::Mode(Mode::Operate),
            Call::Image(&INPUT),
            Call::SetOutput(OUTPUT),
            Call::Urgent(VALUE_PLACE, 2),
        ]),
        Stage::Turns(ENOUGH),
        Stage::Calls(&[
            Call::Collect(2, Expected::Reads(&VALUE)),
            Call::Event(Ok(ALARM)),
        ]),
        Stage::Calls(&HANDED_OUT),
        Stage::Turns(UNDER_WAY),
        Stage::Calls(&[Call::Cancel(3)]),
        Stage::Turns(ENOUGH),
        Stage::Calls(&[Call::CollectInto(3, Expected::CutOff(Cause::Cancelled))]),
        Stage::Calls(&[
            Call::Restart,
            Call::RestartWaits(false),
            Call::Mode(Mode::Down),
        ]),
    ],
    last: &[Call::Mode(Mode::Down)],
};

/// The journal is handed out; then the one entry of the request that waits, which stays. One more
/// request is abandoned while it waits, and is unknown then.
const HANDED_OUT: [Call; 10] = [
    Call::Archive(7),
    Call::ClearOutput,
    Call::Submit(VALUE_PLACE, 3),
    Call::Restated(0),
    Call::Drain(1),
    Call::Drain(1),
    Call::Restated(1),
    Call::Submit(VALUE_PLACE, 4),
    Call::Abandon(4),
    Call::Collect(4, Expected::Unknown),
];

#[test]
fn a_line_makes_each_call(rt: HostRuntime) -> Result<(), Fail> {
    let wire = sending(rt.alloc())?;
    let core = PortCore::open(rt.alloc(), &Limits::default())?;
    let wire = run(&rt, core, wire, EACH_CALL);
    check(&rt, wire.device().handed().is_none());
    Ok(())
}

#[test]
fn a_client_is_let_in_while_an_exchange_is_under_way(rt: HostRuntime) -> Result<(), Fail> {
    let core = PortCore::open(rt.alloc(), &Limits::default())?;
    lets_in_at_wire(&rt, rt.alloc(), core, Waits::Exchange)
}

#[test]
fn a_client_is_let_in_while_a_wake_is_under_way(rt: HostRuntime) -> Result<(), Fail> {
    let core = PortCore::open(rt.alloc(), &Limits::default())?;
    lets_in_at_wire(&rt, rt.alloc(), core, Waits::Wake)
}

#[test]
fn a_client_is_let_in_while_the_gate_is_asked(rt: HostRuntime) -> Result<(), Fail> {
    let wire = sending(rt.alloc())?;
    let core = PortCore::open(rt.alloc(), &Limits::default())?;
    let gate = Flags::new();
    let hands = Blank::new(1);
    lets_in::<_, Brand, _, HostRuntime>(&rt, core, wire, hands, Waits::Gate, &gate);
    Ok(())
}

/// A port in OPERATE with this output, whose next message is out.
fn sent_core<W: Wire>(alloc: Global, wire: &mut W, output: &Image) -> Result<PortCore, PortFault> {
    let mut core = PortCore::open(alloc, &Limits::default())?;
    start_up(&mut core, wire);
    core.set_output(output)?;
    let _ = core.send();
    Ok(core)
}

/// A restart waits where a message was out when the line was opened. The line is looked at, and
/// then makes it.
const RESTARTS_LATER: Script = Script {
    stages: &[
        Stage::Calls(&[Call::Restart]),
        Stage::Calls(&[Call::RestartWaits(true), Call::Mode(Mode::Operate)]),
        Stage::Turn,
        Stage::Calls(&[Call::Mode(Mode::Down)]),
        Stage::Turns(ENOUGH),
    ],
    last: &[],
};

/// Refuses a `lock` that forgets a restart that waits.
#[test]
fn an_output_is_kept_while_a_restart_waits(rt: HostRuntime) -> Result<(), Fail> {
    let output = Image::new(&[OUTPUT])?;
    let mut wire = sending(rt.alloc())?;
    let core = sent_core(rt.alloc(), &mut wire, &output)?;
    let wire = run(&rt, core, wire, RESTARTS_LATER);
    check(&rt, wire.device().output() == Some(&output));
    Ok(())
}

/// A restart waits where a message was out when the line was opened, and the line is ended.
const ENDS_BEFORE: Script = Script {
    stages: &[Stage::Calls(&[Call::Restart])],
    last: &[Call::RestartWaits(true), Call::Mode(Mode::Operate)],
};

/// Refuses an `into_inner` that forgets a restart that waits.
#[test]
fn a_restart_waits_behind_the_end_of_its_line(rt: HostRuntime) -> Result<(), Fail> {
    let output = Image::new(&[OUTPUT])?;
    let mut wire = sending(rt.alloc())?;
    let core = sent_core(rt.alloc(), &mut wire, &output)?;
    let _ = run(&rt, core, wire, ENDS_BEFORE);
    Ok(())
}

/// What the device reports next.
const NOTICE: Event = Event {
    qualifier: 0xF4,
    code: 0x8CA1,
};

/// A wire to a device that has two events to report.
fn reporting(alloc: Global) -> Result<Sim<Params>, Fail> {
    let mut steps = Vec::new(alloc);
    steps.push(Step::Raise(ALARM))?;
    steps.push(Step::Raise(NOTICE))?;
    wired(alloc, &PROCESS_DATA, &VALUE, steps)
}

/// Two events are kept through a restart, and the start-up behind it.
const KEEPS_EVENTS: Script = Script {
    stages: &[
        Stage::Turns(START_UP + ENOUGH),
        Stage::Calls(&[Call::Restart]),
        Stage::Turns(START_UP),
        Stage::Calls(&[Call::Mode(Mode::Operate)]),
        Stage::Calls(&[
            Call::Event(Ok(ALARM)),
            Call::Event(Ok(NOTICE)),
            Call::Event(Err(PortFault::NoEvent)),
        ]),
    ],
    last: &[],
};

/// Refuses a worker that restarts the link where it woke the device.
#[test]
fn events_are_kept_through_a_wake(rt: HostRuntime) -> Result<(), Fail> {
    let wire = reporting(rt.alloc())?;
    let core = PortCore::open(rt.alloc(), &Limits::default())?;
    let _ = run(&rt, core, wire, KEEPS_EVENTS);
    Ok(())
}
