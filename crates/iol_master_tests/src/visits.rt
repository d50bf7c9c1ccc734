//! What tests ask of masters, as tables: what clients do at their desks, and calls of a port under
//! its lock.
//!
//! The prover's work grows with the calls of a function. One function makes each call of a master,
//! and these go through the tables.
use crate::calls::{Noted, are_noted, is_expected, read};
use crate::scripts::{Call, VALUE_PLACE};
use iol_book::Ticket;
use iol_image::Image;
use iol_isdu::{Place, Request};
use iol_link::Wire;
use iol_master::{Desk, Held, Master, MasterFault, MasterPort, Settled};
use iol_port::Port;
use std::alloc::Global;
use std::sync::Wait;
use std::sync::ledger::Ledger;

/// A port that a master of these tests has.
pub trait Visited<W: Wire>: MasterPort {
    /// Whether a port under its lock answers a call so.
    fn answers<K: Ledger, R: Wait>(rt: &R, held: &mut Held<W, K, Global, Self>, call: Call) -> bool;
}

impl<W: Wire> Visited<W> for Port<W> {
    fn answers<K: Ledger, R: Wait>(rt: &R, held: &mut Held<W, K>, call: Call) -> bool {
        match call {
            Call::Turns(count) => turns(rt, held, count),
            Call::Cancel(number) => held.cancel(Ticket(number)) == Ok(()),
            Call::CancelFails(number, fault) => held.cancel(Ticket(number)) == Err(fault),
            Call::SetOutput(octet) => sets_output(held, octet),
            _ => hands_out(held, call),
        }
    }
}

fn turns<W: Wire, K: Ledger, R: Wait>(rt: &R, held: &mut Held<W, K>, count: u64) -> bool {
    for _ in 0..count {
        held.turn(rt);
    }
    true
}

fn sets_output<W: Wire, K: Ledger>(held: &mut Held<W, K>, octet: u8) -> bool {
    match Image::new(&[octet]) {
        Ok(image) => held.set_output(&image) == Ok(()),
        Err(_) => false,
    }
}

/// The calls that hand something out, and those that only look.
fn hands_out<W: Wire, K: Ledger>(held: &mut Held<W, K>, call: Call) -> bool {
    match call {
        Call::Collect(number, expected) => is_expected(&held.collect(Ticket(number)), expected),
        Call::Event(event) => held.take_event() == event,
        Call::Journal(noted) => archives(held, noted),
        Call::ArchiveAny => held.archive().is_ok(),
        Call::ArchiveFails => held.archive().is_err(),
        Call::Mode(mode) => held.status().mode == mode,
        Call::EventForm(is_odd) => held.status().event_form == is_odd,
        _ => false,
    }
}

fn archives<W: Wire, K: Ledger>(held: &mut Held<W, K>, noted: &[Noted]) -> bool {
    match held.archive() {
        Ok(archived) => are_noted(&archived, noted),
        Err(_) => false,
    }
}

/// One of two clients.
#[derive(Clone, Copy)]
pub enum Who {
    One,
    Other,
}

/// What a client does at a master, or what is asked of a port there, by its number.
#[derive(Clone, Copy)]
pub enum Step {
    /// A desk at this port.
    Open(Who, u32),
    /// None is opened there, for this reason.
    NoDesk(u32, MasterFault),
    /// Its port, and how many submits it has counted.
    Counts(Who, u32, u64),
    /// A read, which is given this ticket.
    Submit(Who, Place, u64),
    Urgent(Who, Place, u64),
    /// Reads of the value that each device has, every other one urgent, whose tickets are these.
    SubmitMany(Who, u64, u64),
    /// One more is refused.
    Refused(Who, MasterFault),
    /// A write at the Index of Data Storage is.
    NoWrite(Who, MasterFault),
    Settle(Who, Settled),
    /// One call under a port's lock.
    Call(u32, Call),
    /// Several under one lock.
    Calls(u32, &'static [Call]),
}

/// The desks of the two, where they have one.
#[derive(Drop)]
pub struct Desks<L: Ledger> {
    one: Option<Desk<L>>,
    other: Option<Desk<L>>,
}

impl<L: Ledger> Desks<L> {
    pub fn new() -> Desks<L> {
        Desks {
            one: None,
            other: None,
        }
    }

    fn of(&mut self, who: Who) -> &mut Option<Desk<L>> {
        match who {
            Who::One => &mut self.one,
            Who::Other => &mut self.other,
        }
    }
}

fn answers_all<W: Wire, K: Ledger, P: Visited<W>, R: Wait>(
    rt: &R,
    held: &mut Held<W, K, Global, P>,
    calls: &[Call],
) -> bool {
    for call in calls {
        if !P::answers(rt, held, *call) {
            return false;
        }
    }
    true
}

/// Whether each of these calls is answered so, under one lock.
pub fn answers_locked<W: Wire, L: Ledger, K: Ledger, P: Visited<W>, R: Wait>(
    rt: &R,
    master: &Master<W, L, K, Global, P>,
    port: u32,
    calls: &[Call],
) -> bool {
    match master.lock(rt, port) {
        Ok(mut held) => answers_all(rt, &mut *held, calls),
        Err(_) => false,
    }
}

/// Whether this step goes as it is to.
fn passes<W: Wire, L: Ledger, K: Ledger, P: Visited<W>, R: Wait>(
    rt: &R,
    master: &Master<W, L, K, Global, P>,
    desks: &mut Desks<L>,
    step: Step,
) -> bool {
    match step {
        Step::Call(port, call) => answers_locked(rt, master, port, &[call]),
        Step::Calls(port, calls) => answers_locked(rt, master, port, calls),
        Step::NoDesk(port, fault) => master.desk(rt, port).err() == Some(fault),
        Step::Open(who, port) => opens(rt, master, desks.of(who), port),
        Step::Settle(who, expected) => settles(rt, master, desks.of(who), expected),
        Step::Counts(who, _, _)
        | Step::Submit(who, _, _)
        | Step::Urgent(who, _, _)
        | Step::SubmitMany(who, _, _)
        | Step::Refused(who, _)
        | Step::NoWrite(who, _) => match desks.of(who) {
            Some(desk) => passes_at(rt, master, desk, step),
            None => false,
        },
    }
}

fn opens<W: Wire, L: Ledger, K: Ledger, P: MasterPort, R: Wait>(
    rt: &R,
    master: &Master<W, L, K, Global, P>,
    desk: &mut Option<Desk<L>>,
    port: u32,
) -> bool {
    *desk = master.desk(rt, port).ok();
    desk.is_some()
}

fn settles<W: Wire, L: Ledger, K: Ledger, P: MasterPort, R: Wait>(
    rt: &R,
    master: &Master<W, L, K, Global, P>,
    desk: &mut Option<Desk<L>>,
    expected: Settled,
) -> bool {
    match desk.take() {
        Some(desk) => master.settle(rt, desk) == expected,
        None => false,
    }
}

/// A write at the Index of Data Storage.
const OWNED: Place = Place { index: 3, sub: 1 };

/// Whether a step at a desk goes as it is to.
fn passes_at<W: Wire, L: Ledger, K: Ledger, P: MasterPort, R: Wait>(
    rt: &R,
    master: &Master<W, L, K, Global, P>,
    desk: &mut Desk<L>,
    step: Step,
) -> bool {
    match step {
        Step::Counts(_, port, accepted) => desk.port() == port && desk.accepted() == accepted,
        Step::Submit(_, place, number) => submits(rt, master, desk, place, number),
        Step::Urgent(_, place, number) => submits_urgent(rt, master, desk, place, number),
        Step::SubmitMany(_, first, last) => submits_many(rt, master, desk, first, last),
        Step::Refused(_, fault) => master.submit(rt, desk, read()) == Err(fault),
        Step::NoWrite(_, fault) => match Request::write(OWNED, &[1]) {
            Ok(owned) => master.submit(rt, desk, owned) == Err(fault),
            Err(_) => false,
        },
        _ => false,
    }
}

fn submits<W: Wire, L: Ledger, K: Ledger, P: MasterPort, R: Wait>(
    rt: &R,
    master: &Master<W, L, K, Global, P>,
    desk: &mut Desk<L>,
    place: Place,
    number: u64,
) -> bool {
    master.submit(rt, desk, Request::read(place)) == Ok(Ticket(number))
}

fn submits_urgent<W: Wire, L: Ledger, K: Ledger, P: MasterPort, R: Wait>(
    rt: &R,
    master: &Master<W, L, K, Global, P>,
    desk: &mut Desk<L>,
    place: Place,
    number: u64,
) -> bool {
    master.submit_urgent(rt, desk, Request::read(place)) == Ok(Ticket(number))
}

fn submits_many<W: Wire, L: Ledger, K: Ledger, P: MasterPort, R: Wait>(
    rt: &R,
    master: &Master<W, L, K, Global, P>,
    desk: &mut Desk<L>,
    first: u64,
    last: u64,
) -> bool {
    for number in first..=last {
        let is_submitted = if number % 2 == 0 {
            submits_urgent(rt, master, desk, VALUE_PLACE, number)
        } else {
            submits(rt, master, desk, VALUE_PLACE, number)
        };
        if !is_submitted {
            return false;
        }
    }
    true
}

/// Whether each of these steps goes as it is to, with desks that are open before and behind them.
pub fn goes_on<W: Wire, L: Ledger, K: Ledger, P: Visited<W>, R: Wait>(
    rt: &R,
    master: &Master<W, L, K, Global, P>,
    desks: &mut Desks<L>,
    steps: &[Step],
) -> bool {
    for step in steps {
        if !passes(rt, master, desks, *step) {
            return false;
        }
    }
    true
}

/// Whether each of these steps goes as it is to.
pub fn passes_all<W: Wire, L: Ledger, K: Ledger, P: Visited<W>, R: Wait>(
    rt: &R,
    master: &Master<W, L, K, Global, P>,
    steps: &[Step],
) -> bool {
    goes_on(rt, master, &mut Desks::new(), steps)
}
