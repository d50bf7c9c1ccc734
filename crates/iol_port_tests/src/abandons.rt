//! A request that is abandoned while there is no memory.
use crate::device::{Parameter, device};
use crate::journals::is_journal;
use crate::ports::{Calls, read, turn};
use iol_book::{BookFault, Entry, Limits, Ticket};
use iol_cell::Handle;
use iol_link::Wire;
use iol_peers::ONE_OCTET;
use iol_port::{Answered, Call, Port, PortCore, PortFault};
use refusing_alloc::{Refusal, RefusingAlloc};
use std::test::Fail;

/// The last turn of start-up; the next one takes the request.
const START_UP: u32 = 15;

/// Turns that a request takes at most.
const REQUEST: u32 = 8;

const TAKEN: Ticket = Ticket(1);

const WAITING: Ticket = Ticket(2);

const UNKNOWN_TICKET: Answered = Answered::Refused(PortFault::Book(BookFault::UnknownTicket));

/// Whether every call about the ticket is refused.
fn is_unknown<P: Calls>(port: &mut P, ticket: Ticket) -> bool {
    port.call(&Call::Collect(ticket)) == UNKNOWN_TICKET
        && port.call(&Call::Withdraw(ticket)) == UNKNOWN_TICKET
        && port.call(&Call::Cancel(ticket)) == UNKNOWN_TICKET
        && port.call(&Call::Abandon(ticket)) == UNKNOWN_TICKET
}

/// Whether two requests are abandoned, one of them under way, and both stay unknown; the journal is
/// archived once the one under way was answered.
fn are_abandoned<P: Calls>(port: &mut P) -> bool {
    let is_waiting = port.call(&Call::Abandon(WAITING)) == Answered::Nothing;
    let is_taken = port.call(&Call::Abandon(TAKEN)) == Answered::Nothing;
    let is_unknown_at_once = is_unknown(port, TAKEN) && is_unknown(port, WAITING);
    turn(port, REQUEST);
    is_waiting && is_taken && is_unknown_at_once && is_unknown(port, TAKEN)
}

/// Whether that is so where all memory is refused from the turn on that takes the first.
fn takes_no_memory<W: Wire + Drop, A: Handle>(alloc: A, refusing: &RefusingAlloc, wire: W) -> bool {
    let Ok(mut port) = Port::open(alloc, wire, &Limits::default()) else {
        return false;
    };
    let are_submitted = port.call(&Call::Submit(read())) == Answered::Ticket(TAKEN)
        && port.call(&Call::Submit(read())) == Answered::Ticket(WAITING);
    turn(&mut port, START_UP + 1);
    refusing.order(Refusal::From(0));
    let is_done = are_submitted && are_abandoned(&mut port) && !refusing.has_refused();
    // submitted, taken, abandoned, answered; submitted, abandoned
    is_done && port.call(&Call::Archive) == Answered::Archived(6)
}

/// An abandon takes no memory, nor does the turn that ends the request.
#[test]
fn an_abandon_takes_no_memory(rt: HostRuntime) -> Result<(), Fail> {
    let refusing = RefusingAlloc::new(rt.alloc());
    let wire = device(
        rt.alloc(),
        Parameter(0x41),
        &ONE_OCTET,
        Vec::new(rt.alloc()),
    )?;
    assert!(rt; takes_no_memory(&refusing, &refusing, wire));
    Ok(())
}

/// What was abandoned while it waited leaves its place and two entries.
fn leaves_its_place<A: Handle>(port: &mut PortCore<A>) -> bool {
    let is_submitted = port.submit(read()) == Ok(TAKEN) && port.abandon(TAKEN) == Ok(());
    let entries = match port.archive() {
        Ok(entries) => entries,
        Err(_) => return false,
    };
    let wanted = [Entry::Submitted(TAKEN, read()), Entry::Abandoned(TAKEN)];
    is_submitted && is_journal(&entries, wanted.as_slice())
}

#[test]
fn an_abandoned_request_is_in_the_journal(rt: HostRuntime) {
    let is_left = match PortCore::open(rt.alloc(), &Limits::default()) {
        Ok(mut port) => leaves_its_place(&mut port),
        Err(_) => false,
    };
    assert!(rt; is_left);
}
