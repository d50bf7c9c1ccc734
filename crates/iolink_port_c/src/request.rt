//! Requests: entered, collected, taken back and cut off.
ghost use Rattle.std.specs.Prelude.{◌≡◌, ◌≤◌, ◌<◌, length, IsTrue};
ghost use Rattle.std.specs.Prelude.{IfOk, IfErr};
ghost use Rattle.iol_isdu.specs.Fault.{isdu_fault_number};
ghost use Rattle.iolink_port_forms.specs.declared.request.Urgency.{Urgency};
ghost use Rattle.iolink_port_c.specs.RequestCalls.{HandleEnters, HandleCollects, HandleWithdraws, HandleCancels, HandleAbandons};
ghost use Rattle.iolink_port_forms.specs.Arguments.{read_at, write_at};
ghost use Rattle.iolink_port_c.specs.Calls.{GuardsPort, GuardsOut};

use crate::held::IolPort;
use iol_book::Ticket;
use iol_isdu::{IsduFault, Place, Request};
use iolink_handle::CLOSED;
use iolink_port_forms::{IolOutcome, Urgency, code_of, show_outcome};
use std::alloc::Global;

fn enter(
    alloc: Global,
    handle: &mut IolPort,
    request: Result<Request, IsduFault>,
    urgency: Urgency,
    ticket: &mut u64,
) -> u8
    ensures guards { GuardsOut result handle.old handle.new ticket.old ticket.new }
    ensures refused { IsTrue handle.old.is_open → IfErr request (λ why.
        (result ≡ isdu_fault_number why) × (ticket.new ≡ 0) × (handle.new ≡ handle.old)) }
    ensures enters { IsTrue handle.old.is_open → IfOk request (λ request.
        HandleEnters urgency request handle.old result ticket.new handle.new) }
{
    if !handle.is_open {
        return CLOSED;
    }
    *ticket = 0;
    let request = match request {
        Ok(request) => request,
        Err(fault) => return fault.code(),
    };
    let answer = handle.with(alloc, |master| match urgency {
        Urgency::Ordinary => master.port.submit(request),
        Urgency::Urgent => master.port.submit_urgent(request),
    });
    match answer {
        Some(Ok(Ticket(number))) => {
            *ticket = number;
            0
        }
        Some(Err(fault)) => fault.code(),
        None => CLOSED,
    }
}

/// Enters a read: 0 and its ticket, or the first of 252 where the handle is closed,
/// and 21 to 24 as the library refuses it. A closed handle leaves the ticket as it
/// is; each other refusal makes it 0.
#[unsafe(no_mangle)]
pub extern "C" fn iol_port_read(
    alloc: Global,
    handle: &mut IolPort,
    index: u16,
    sub: u8,
    ticket: &mut u64,
) -> u8
    ensures guards { GuardsOut result handle.old handle.new ticket.old ticket.new }
    ensures enters { IsTrue handle.old.is_open →
        HandleEnters Urgency.Ordinary (read_at index sub) handle.old result ticket.new handle.new }
{
    let read = Ok(Request::read(Place { index, sub }));
    enter(alloc, handle, read, Urgency::Ordinary, ticket)
}

/// Enters an urgent read, before all requests that wait and aren't urgent. Answers
/// as `iol_port_read` does.
#[unsafe(no_mangle)]
pub extern "C" fn iol_port_read_urgent(
    alloc: Global,
    handle: &mut IolPort,
    index: u16,
    sub: u8,
    ticket: &mut u64,
) -> u8
    ensures guards { GuardsOut result handle.old handle.new ticket.old ticket.new }
    ensures enters { IsTrue handle.old.is_open →
        HandleEnters Urgency.Urgent (read_at index sub) handle.old result ticket.new handle.new }
{
    let read = Ok(Request::read(Place { index, sub }));
    enter(alloc, handle, read, Urgency::Urgent, ticket)
}

/// Enters a write: 0 and its ticket, or the first of 252 where the handle is
/// closed, 9 for more than 232 octets, and 21 to 24 as the library refuses it. A
/// closed handle leaves the ticket as it is; each other refusal makes it 0.
#[unsafe(no_mangle)]
pub extern "C" fn iol_port_write(
    alloc: Global,
    handle: &mut IolPort,
    index: u16,
    sub: u8,
    octets: &[u8],
    ticket: &mut u64,
) -> u8
    ensures guards { GuardsOut result handle.old handle.new ticket.old ticket.new }
    ensures long { IsTrue handle.old.is_open → 232 < length octets.now →
        (result ≡ 9) × (ticket.new ≡ 0) × (handle.new ≡ handle.old) }
    ensures enters { IsTrue handle.old.is_open → length octets.now ≤ 232 →
        HandleEnters Urgency.Ordinary (write_at index sub octets.now)
        handle.old result ticket.new handle.new }
{
    let write = Request::write(Place { index, sub }, octets);
    enter(alloc, handle, write, Urgency::Ordinary, ticket)
}

/// Enters an urgent write, before all requests that wait and aren't urgent. Answers
/// as `iol_port_write` does.
#[unsafe(no_mangle)]
pub extern "C" fn iol_port_write_urgent(
    alloc: Global,
    handle: &mut IolPort,
    index: u16,
    sub: u8,
    octets: &[u8],
    ticket: &mut u64,
) -> u8
    ensures guards { GuardsOut result handle.old handle.new ticket.old ticket.new }
    ensures long { IsTrue handle.old.is_open → 232 < length octets.now →
        (result ≡ 9) × (ticket.new ≡ 0) × (handle.new ≡ handle.old) }
    ensures enters { IsTrue handle.old.is_open → length octets.now ≤ 232 →
        HandleEnters Urgency.Urgent (write_at index sub octets.now)
        handle.old result ticket.new handle.new }
{
    let write = Request::write(Place { index, sub }, octets);
    enter(alloc, handle, write, Urgency::Urgent, ticket)
}

/// Hands out the outcome of a ticket: 0, or the first of 252 where the handle is
/// closed, 25 where no such ticket is outstanding, and 26 where it has no outcome
/// yet. Where it is refused, `out` stays as it is.
#[unsafe(no_mangle)]
pub extern "C" fn iol_port_collect(
    alloc: Global,
    handle: &mut IolPort,
    ticket: u64,
    out: &mut IolOutcome,
) -> u8
    ensures guards { GuardsOut result handle.old handle.new out.old out.new }
    ensures collects { IsTrue handle.old.is_open →
        HandleCollects ticket handle.old result out.old out.new handle.new }
{
    match handle.with(alloc, |master| master.port.collect(Ticket(ticket))) {
        Some(Ok(outcome)) => {
            show_outcome(&outcome, out);
            0
        }
        Some(Err(fault)) => fault.code(),
        None => CLOSED,
    }
}

/// Takes back a request that waits.
///
/// 0, or the first of 252 where the handle is closed, 25 where no such ticket is
/// outstanding, and 27 where it waits no longer.
#[unsafe(no_mangle)]
pub extern "C" fn iol_port_withdraw(alloc: Global, handle: &mut IolPort, ticket: u64) -> u8
    ensures guards { GuardsPort result handle.old handle.new }
    ensures withdraws { IsTrue handle.old.is_open →
        HandleWithdraws ticket handle.old result handle.new }
{
    code_of(handle.with(alloc, |master| master.port.withdraw(Ticket(ticket))))
}

/// Asks to cut off the request under way: 0, or the first of 252 where the handle is
/// closed, 25 where no such ticket is outstanding, and 36 where it waits or has an outcome.
#[unsafe(no_mangle)]
pub extern "C" fn iol_port_cancel(alloc: Global, handle: &mut IolPort, ticket: u64) -> u8
    ensures guards { GuardsPort result handle.old handle.new }
    ensures cancels { IsTrue handle.old.is_open →
        HandleCancels ticket handle.old result handle.new }
{
    code_of(handle.with(alloc, |master| master.port.cancel(Ticket(ticket))))
}

/// Gives up the outcome of a ticket, as for a client that is gone: whatever comes of the request is
/// dropped. 0, or the first of 252 where the handle is closed, and 25 where no such ticket is
/// outstanding.
#[unsafe(no_mangle)]
pub extern "C" fn iol_port_abandon(alloc: Global, handle: &mut IolPort, ticket: u64) -> u8
    ensures guards { GuardsPort result handle.old handle.new }
    ensures abandons { IsTrue handle.old.is_open →
        HandleAbandons ticket handle.old result handle.new }
{
    code_of(handle.with(alloc, |master| master.port.abandon(Ticket(ticket))))
}
