//! A request that is cancelled while there is no memory.
use crate::device::{Parameter, device};
use crate::ports::{Calls, read, turn};
use iol_book::{BookFault, Limits, Outcome, Ticket};
use iol_cell::Handle;
use iol_isdu::Cause;
use iol_link::Wire;
use iol_peers::ONE_OCTET;
use iol_port::{Answered, Call, Port, PortFault};
use refusing_alloc::{Refusal, RefusingAlloc};
use std::test::Fail;

/// The last turn of start-up; the next one takes the request.
const START_UP: u32 = 15;

const WAITING: Ticket = Ticket(1);

const URGENT: Ticket = Ticket(2);

const UNKNOWN_TICKET: Answered = Answered::Refused(PortFault::Book(BookFault::UnknownTicket));

const NOT_IN_FLIGHT: Answered = Answered::Refused(PortFault::Book(BookFault::NotInFlight));

const CANCELLED: Answered = Answered::Outcome(Outcome::Unknown(Cause::Cancelled));

/// Whether two requests get their tickets, of which the urgent one is taken later.
fn are_submitted<P: Calls>(port: &mut P) -> bool {
    let is_waiting = port.call(&Call::Submit(read())) == Answered::Ticket(WAITING);
    let is_urgent = port.call(&Call::SubmitUrgent(read())) == Answered::Ticket(URGENT);
    turn(port, START_UP);
    is_waiting && is_urgent
}

/// Whether the urgent request alone is cancelled, once it is taken.
fn is_cancelled<P: Calls>(port: &mut P) -> bool {
    turn(port, 1);
    let is_cancelled = port.call(&Call::Cancel(Ticket(3))) == UNKNOWN_TICKET
        && port.call(&Call::Cancel(WAITING)) == NOT_IN_FLIGHT
        && port.call(&Call::Cancel(URGENT)) == Answered::Nothing
        && port.call(&Call::Cancel(URGENT)) == Answered::Nothing;
    turn(port, 1);
    is_cancelled && port.call(&Call::Collect(URGENT)) == CANCELLED
}

/// Whether a request is cancelled where all memory is refused from its turn on.
fn takes_no_memory<W: Wire + Drop, A: Handle>(alloc: A, refusing: &RefusingAlloc, wire: W) -> bool {
    let Ok(mut port) = Port::open(alloc, wire, &Limits::default()) else {
        return false;
    };
    let is_submitted = are_submitted(&mut port);
    refusing.order(Refusal::From(0));
    is_submitted && is_cancelled(&mut port) && !refusing.has_refused()
}

/// Nor does one that is refused, nor the turn that ends the request; a cancel again is answered as
/// the first was. Clauses say what memory stays, and not what is asked for and let go: this test
/// alone refuses a cancel that does so.
#[test]
fn a_cancel_takes_no_memory(rt: HostRuntime) -> Result<(), Fail> {
    let refusing = RefusingAlloc::new(rt.alloc());
    let wire = device(
        rt.alloc(),
        Parameter(0x41),
        &ONE_OCTET,
        Vec::new(rt.alloc()),
    )?;
    assert!(rt; takes_no_memory(&refusing, &refusing, wire));
    Ok(())
}
