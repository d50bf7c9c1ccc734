//! Calls of a port under its lock in a master, and what they are to answer.
ghost use Rattle.std.specs.Sync.Mutex.{mutex_guard_value};
ghost use Rattle.iol_port.specs.declared.call.Call.TheVariants as call;
ghost use Rattle.iol_port.specs.CorePort.{CoreDoes};
ghost use Rattle.iol_port.specs.Replies.{outcome_reply};

use iol_book::{BookFault, Entry, Journal, Outcome, Ticket};
use iol_cell::Handle;
use iol_isdu::{Answer, Cause, Octets, Place, Request};
use iol_link::Wire;
use iol_master::{Gate, Held, Master, MasterFault};
use iol_port::PortFault;
use std::alloc::Allocator;
use std::process::Abort;
use std::sync::ledger::Ledger;
use std::sync::{MutexGuard, Wait};
use std::test::Fail;
use std::thread::Threads;

/// Ends the test where a fact doesn't hold. See the head of this crate.
pub fn check<R: Abort>(rt: &R, holds: bool) {
    assert!(rt; holds);
}

/// A read of the value that each device has.
pub fn read() -> Request {
    Request::read(Place { index: 16, sub: 0 })
}

/// The outcome of a read that was answered with these octets.
pub fn answer(octets: &[u8]) -> Result<Outcome, Fail> {
    Ok(Outcome::Done(Answer::Read(Octets::try_from(octets)?)))
}

/// What is told of a ticket.
#[derive(Clone, Copy)]
pub enum Expected {
    /// Its request was a read, and was answered with these octets.
    Reads(&'static [u8]),
    /// The device refused it.
    Refused(u8, u8),
    Withdrawn,
    /// It was cut off.
    CutOff(Cause),
    NotYet,
    /// No client may see the ticket, or may see it any more.
    Unknown,
}

/// Whether this is what is told of a ticket.
pub fn is_expected(received: &Result<Outcome, PortFault>, expected: Expected) -> bool {
    match (received, expected) {
        (Err(PortFault::Book(BookFault::NotYet)), Expected::NotYet) => true,
        (Err(PortFault::Book(BookFault::UnknownTicket)), Expected::Unknown) => true,
        (Ok(outcome), _) => is_outcome(outcome, expected),
        _ => false,
    }
}

fn is_outcome(outcome: &Outcome, expected: Expected) -> bool {
    match (outcome, expected) {
        (Outcome::Done(Answer::Read(octets)), Expected::Reads(wanted)) => octets.as_slice()
            == wanted,
        (Outcome::Done(Answer::Refused(error, code)), Expected::Refused(first, second)) => {
            *error == first && *code == second
        }
        (Outcome::Withdrawn, Expected::Withdrawn) => true,
        (Outcome::Unknown(cause), Expected::CutOff(wanted)) => *cause == wanted,
        _ => false,
    }
}

/// An entry of a journal. The ticket is named by its number.
#[derive(Clone, Copy)]
pub enum Noted {
    /// A read of this place.
    Submitted(u64, Place),
    Urgent(u64, Place),
    Taken(u64),
    Answered(u64, Expected),
    Collected(u64),
}

/// Whether a journal has these entries, and nothing else.
pub fn are_noted<A: Allocator + Copy>(journal: &Journal<A>, wanted: &[Noted]) -> bool {
    let mut is_same = journal.len() == wanted.len();
    for (place, noted) in wanted.iter().enumerate() {
        is_same &= journal
            .get(place)
            .is_some_and(|entry| is_noted(&entry, *noted));
    }
    is_same
}

fn is_noted(entry: &Entry, noted: Noted) -> bool {
    match (entry, noted) {
        (Entry::Submitted(ticket, request), Noted::Submitted(number, place)) => {
            *ticket == Ticket(number) && *request == Request::read(place)
        }
        (Entry::Urgent(ticket, request), Noted::Urgent(number, place)) => {
            *ticket == Ticket(number) && *request == Request::read(place)
        }
        (Entry::Taken(ticket), Noted::Taken(number)) => *ticket == Ticket(number),
        (Entry::Answered(ticket, outcome), Noted::Answered(number, expected)) => {
            *ticket == Ticket(number) && is_outcome(outcome, expected)
        }
        (Entry::Collected(ticket), Noted::Collected(number)) => *ticket == Ticket(number),
        _ => false,
    }
}

/// How a master hands on what a book refused.
pub fn of_book(fault: BookFault) -> MasterFault {
    MasterFault::Port(PortFault::Book(fault))
}

/// Whether a look for the outcome of a ticket gives this.
pub fn gives<W: Wire, L: Ledger, K: Ledger, A: Handle, R: Wait>(
    rt: &R,
    master: &Master<W, L, K, A>,
    number: u32,
    ticket: Ticket,
    wanted: &Result<Outcome, PortFault>,
) -> bool {
    match master.lock(rt, number) {
        Ok(mut held) => through(&mut held, ticket) == *wanted,
        Err(_) => false,
    }
}

/// A call through the guard is the port's call.
fn through<W: Wire, K: Ledger, A: Handle>(
    guard: &mut MutexGuard<'_, Held<W, K, A>>,
    ticket: Ticket,
) -> Result<Outcome, PortFault>
    ensures { CoreDoes (mutex_guard_value guard.old).parts
        (call.Collect ticket) (outcome_reply result) (mutex_guard_value guard.new).parts }
{
    guard.collect(ticket)
}

/// Makes so many turns of a port, under one lock. Answers whether there is that port.
pub fn turns<W: Wire, L: Ledger, K: Ledger, A: Handle, R: Wait>(
    rt: &R,
    master: &Master<W, L, K, A>,
    number: u32,
    count: u64,
) -> bool {
    let Ok(mut held) = master.lock(rt, number) else {
        return false;
    };
    for _ in 0..count {
        held.turn(rt);
    }
    true
}

/// The workers make so many turns of each port, as far as the gate lets them.
pub fn serves<W: Wire + Send, L: Ledger, K: Ledger + Sync, G: Gate + Sync, R>(
    rt: &R,
    master: &Master<W, L, K>,
    gate: &G,
    turns: u64,
) -> bool
where
    R: Threads + Wait + Sync,
{
    master.serve(rt, gate, turns) == Ok(())
}
