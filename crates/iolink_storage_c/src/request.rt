//! Clients' requests: entered, collected, taken back and cut off.
ghost use Rattle.std.specs.Prelude.{◌≡◌, ◌≤◌, ◌<◌, length, Err, IfOk, IfErr, IfSome, IfNone, IsTrue};
ghost use Rattle.iol_isdu.specs.Fault.{isdu_fault_number};
ghost use Rattle.iol_storage.specs.StoredPort.{client_refusal, tickets_behind_submit, PortAnswers};
ghost use Rattle.iolink_port_forms.specs.declared.request.Urgency.{Urgency};
ghost use Rattle.iolink_port_forms.specs.Arguments.{read_at, write_at};
ghost use Rattle.iolink_storage_c.specs.Calls.{store_parts, GuardsStore, GuardsStoreOut};
ghost use Rattle.iolink_storage_c.specs.RequestCalls.{EntersWithin, StoreEnters, StoreCollects, StoreWithdraws, StoreCancels, StoreAbandons};

use crate::held::{HeldStore, IolStore};
use iol_book::Ticket;
use iol_isdu::{IsduFault, Place, Request};
use iol_storage::StoredFault;
use iolink_handle::CLOSED;
use iolink_port_forms::{IolOutcome, Urgency, code_of, show_outcome};
use std::alloc::Global;

impl HeldStore {
    /// Submits a client's request at the port.
    fn submit(&mut self, request: Request, urgency: Urgency) -> Result<Ticket, StoredFault>
        ensures denied { IfSome (client_refusal self.old.port request) (λ why.
            (result ≡ Err why) × (self.new ≡ self.old)) }
        ensures enters { IfNone (client_refusal self.old.port request)
            (PortAnswers result (EntersWithin urgency request self.old.port self.new.port)) }
        ensures tickets { self.new.port.tickets
            ≡ tickets_behind_submit self.old.port.tickets result }
        ensures rest { self.new ≡ record self.old { port = self.new.port } }
    {
        match urgency {
            Urgency::Ordinary => self.port.submit(request),
            Urgency::Urgent => self.port.submit_urgent(request),
        }
    }
}

fn enter(
    alloc: Global,
    handle: &mut IolStore,
    request: Result<Request, IsduFault>,
    urgency: Urgency,
    ticket: &mut u64,
) -> u8
    ensures guards { GuardsStoreOut result handle.old handle.new ticket.old ticket.new }
    ensures refused { IsTrue handle.old.is_open → IfErr request (λ why.
        (result ≡ isdu_fault_number why) × (ticket.new ≡ 0) × (handle.new ≡ handle.old)) }
    ensures enters { IsTrue handle.old.is_open → IfOk request (λ request.
        StoreEnters urgency request (store_parts handle.old) result ticket.new
        (store_parts handle.new)) }
{
    if !handle.is_open {
        return CLOSED;
    }
    *ticket = 0;
    let request = match request {
        Ok(request) => request,
        Err(fault) => return fault.code(),
    };
    let mut store = handle.take_box(alloc);
    let answer = store.submit(request, urgency);
    *handle = IolStore::of(store);
    match answer {
        Ok(Ticket(number)) => {
            *ticket = number;
            0
        }
        Err(fault) => fault.code(),
    }
}

/// Enters a read: 0 and its ticket, or the first of 252 where the handle is closed, and 21 to 24 as
/// the library refuses it. A closed handle leaves the ticket as it is; each other refusal makes it
/// 0.
#[unsafe(no_mangle)]
pub extern "C" fn iol_store_read(
    alloc: Global,
    handle: &mut IolStore,
    index: u16,
    sub: u8,
    ticket: &mut u64,
) -> u8
    ensures guards { GuardsStoreOut result handle.old handle.new ticket.old ticket.new }
    ensures enters { IsTrue handle.old.is_open →
        StoreEnters Urgency.Ordinary (read_at index sub) (store_parts handle.old) result ticket.new
        (store_parts handle.new) }
{
    let read = Ok(Request::read(Place { index, sub }));
    enter(alloc, handle, read, Urgency::Ordinary, ticket)
}

/// Enters an urgent read, before all requests that wait and aren't urgent. Answers as
/// `iol_store_read` does.
#[unsafe(no_mangle)]
pub extern "C" fn iol_store_read_urgent(
    alloc: Global,
    handle: &mut IolStore,
    index: u16,
    sub: u8,
    ticket: &mut u64,
) -> u8
    ensures guards { GuardsStoreOut result handle.old handle.new ticket.old ticket.new }
    ensures enters { IsTrue handle.old.is_open →
        StoreEnters Urgency.Urgent (read_at index sub) (store_parts handle.old) result ticket.new
        (store_parts handle.new) }
{
    let read = Ok(Request::read(Place { index, sub }));
    enter(alloc, handle, read, Urgency::Urgent, ticket)
}

/// Enters a write: 0 and its ticket, or the first of 252 where the handle is closed, 9 for more
/// than 232 octets, 41 at the Index of Data Storage, and 21 to 24 as the library refuses it. A
/// closed handle leaves the ticket as it is; each other refusal makes it 0.
#[unsafe(no_mangle)]
pub extern "C" fn iol_store_write(
    alloc: Global,
    handle: &mut IolStore,
    index: u16,
    sub: u8,
    octets: &[u8],
    ticket: &mut u64,
) -> u8
    ensures guards { GuardsStoreOut result handle.old handle.new ticket.old ticket.new }
    ensures long { IsTrue handle.old.is_open → 232 < length octets.now →
        (result ≡ 9) × (ticket.new ≡ 0) × (handle.new ≡ handle.old) }
    ensures enters { IsTrue handle.old.is_open → length octets.now ≤ 232 →
        StoreEnters Urgency.Ordinary (write_at index sub octets.now) (store_parts handle.old)
        result ticket.new (store_parts handle.new) }
{
    let write = Request::write(Place { index, sub }, octets);
    enter(alloc, handle, write, Urgency::Ordinary, ticket)
}

/// Enters an urgent write, before all requests that wait and aren't urgent. Answers as
/// `iol_store_write` does.
#[unsafe(no_mangle)]
pub extern "C" fn iol_store_write_urgent(
    alloc: Global,
    handle: &mut IolStore,
    index: u16,
    sub: u8,
    octets: &[u8],
    ticket: &mut u64,
) -> u8
    ensures guards { GuardsStoreOut result handle.old handle.new ticket.old ticket.new }
    ensures long { IsTrue handle.old.is_open → 232 < length octets.now →
        (result ≡ 9) × (ticket.new ≡ 0) × (handle.new ≡ handle.old) }
    ensures enters { IsTrue handle.old.is_open → length octets.now ≤ 232 →
        StoreEnters Urgency.Urgent (write_at index sub octets.now) (store_parts handle.old) result
        ticket.new (store_parts handle.new) }
{
    let write = Request::write(Place { index, sub }, octets);
    enter(alloc, handle, write, Urgency::Urgent, ticket)
}

/// Hands out the outcome of a ticket: 0, or the first of 252 where the handle is closed, 25 where
/// no such ticket of a client is outstanding, and 26 where it has no outcome yet. Where it is
/// refused, `out` stays as it is.
#[unsafe(no_mangle)]
pub extern "C" fn iol_store_collect(
    alloc: Global,
    handle: &mut IolStore,
    ticket: u64,
    out: &mut IolOutcome,
) -> u8
    ensures guards { GuardsStoreOut result handle.old handle.new out.old out.new }
    ensures collects { IsTrue handle.old.is_open →
        StoreCollects ticket (store_parts handle.old) result out.old out.new
        (store_parts handle.new) }
{
    if !handle.is_open {
        return CLOSED;
    }
    let mut store = handle.take_box(alloc);
    let answer = store.port.collect(Ticket(ticket));
    *handle = IolStore::of(store);
    match answer {
        Ok(outcome) => {
            show_outcome(&outcome, out);
            0
        }
        Err(fault) => fault.code(),
    }
}

/// Takes back a request that waits.
///
/// 0, or the first of 252 where the handle is closed, 25 where no such ticket of a client is
/// outstanding, and 27 where it waits no longer.
#[unsafe(no_mangle)]
pub extern "C" fn iol_store_withdraw(alloc: Global, handle: &mut IolStore, ticket: u64) -> u8
    ensures guards { GuardsStore result handle.old handle.new }
    ensures withdraws { IsTrue handle.old.is_open →
        StoreWithdraws ticket (store_parts handle.old) result (store_parts handle.new) }
{
    if !handle.is_open {
        return CLOSED;
    }
    let mut store = handle.take_box(alloc);
    let answer = store.port.withdraw(Ticket(ticket));
    *handle = IolStore::of(store);
    code_of(Some(answer))
}

/// Asks to cut off the request under way: 0, or the first of 252 where the handle is closed, 25
/// where no such ticket of a client is outstanding, and 36 where it waits or has an outcome.
#[unsafe(no_mangle)]
pub extern "C" fn iol_store_cancel(alloc: Global, handle: &mut IolStore, ticket: u64) -> u8
    ensures guards { GuardsStore result handle.old handle.new }
    ensures cancels { IsTrue handle.old.is_open →
        StoreCancels ticket (store_parts handle.old) result (store_parts handle.new) }
{
    if !handle.is_open {
        return CLOSED;
    }
    let mut store = handle.take_box(alloc);
    let answer = store.port.cancel(Ticket(ticket));
    *handle = IolStore::of(store);
    code_of(Some(answer))
}

/// Gives up the outcome of a ticket, as for a client that is gone. 0, or the first of 252 where the
/// handle is closed, and 25 where no such ticket of a client is outstanding.
#[unsafe(no_mangle)]
pub extern "C" fn iol_store_abandon(alloc: Global, handle: &mut IolStore, ticket: u64) -> u8
    ensures guards { GuardsStore result handle.old handle.new }
    ensures abandons { IsTrue handle.old.is_open →
        StoreAbandons ticket (store_parts handle.old) result (store_parts handle.new) }
{
    if !handle.is_open {
        return CLOSED;
    }
    let mut store = handle.take_box(alloc);
    let answer = store.port.abandon(Ticket(ticket));
    *handle = IolStore::of(store);
    code_of(Some(answer))
}
