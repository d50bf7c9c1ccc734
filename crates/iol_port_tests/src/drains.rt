//! Drains of a port: what they hand out and leave, and memory that is refused.

use crate::journals::is_journal;
use crate::ports::read;
use iol_book::{BookFault, Entry, Journal, Limits, Outcome, Ticket};
use iol_cell::Handle;
use iol_link::Rate;
use iol_mseq::Message;
use iol_peers::{AnyWire, Peer};
use iol_port::{Answered, Call, DrainCounts, Port, PortCore, PortFault};
use refusing_alloc::{Refusal, RefusingAlloc};

/// A peer that answers nothing.
#[derive(Drop)]
struct Nobody;

impl Peer for Nobody {
    fn wake(&mut self) -> Option<Rate> {
        None
    }

    fn exchange(&mut self, _sent: &[u8]) -> Option<Message> {
        None
    }
}

const OUT_OF_MEMORY: PortFault = PortFault::Book(BookFault::OutOfMemory);

/// Whether a drain puts just these entries into the list, so many of them restated.
fn is_drained<A: Handle>(
    port: &mut PortCore<A>,
    list: &mut Journal<A>,
    wanted: &[Entry],
    restated: usize,
) -> bool {
    list.clear();
    let is_counted = port.restated() == restated && port.drain_into(list) == Ok(restated);
    is_counted && is_journal(list, wanted)
}

/// Whether a drain is refused, and neither list nor port has changed.
fn is_refused<A: Handle>(port: &mut PortCore<A>, list: &mut Journal<A>) -> bool {
    port.drain_into(list) == Err(OUT_OF_MEMORY) && list.is_empty() && port.restated() == 0
}

/// A request that is withdrawn while another one waits: its entries leave with the next drain, and
/// those of the other stay.
fn leaves_what_waits<A: Handle>(port: &mut PortCore<A>, list: &mut Journal<A>) -> bool {
    let waits = Entry::Submitted(Ticket(1), read());
    let withdrawn = [
        Entry::Submitted(Ticket(1), read()),
        Entry::Submitted(Ticket(2), read()),
        Entry::Withdrawn(Ticket(2)),
        Entry::Collected(Ticket(2)),
    ];
    let is_withdrawn = port.submit(read()) == Ok(Ticket(2))
        && port.withdraw(Ticket(2)) == Ok(())
        && port.collect(Ticket(2)) == Ok(Outcome::Withdrawn);
    is_withdrawn && is_drained(port, list, &withdrawn, 1) && is_drained(port, list, &[waits], 1)
}

/// A list without room waits for memory, and one that has room takes none.
fn drains<A: Handle>(alloc: A, refusing: &RefusingAlloc) -> bool {
    refusing.order(Refusal::Never);
    let Ok(mut port) = PortCore::open(alloc, &Limits::default()) else {
        return false;
    };
    let mut list = Journal::new(alloc);
    let is_submitted = port.submit(read()) == Ok(Ticket(1));
    refusing.order(Refusal::From(0));
    let is_refused = is_refused(&mut port, &mut list) && refusing.has_refused();
    refusing.order(Refusal::Never);
    let first = [Entry::Submitted(Ticket(1), read())];
    let is_first = is_drained(&mut port, &mut list, &first, 0);
    let is_second = leaves_what_waits(&mut port, &mut list);
    refusing.order(Refusal::From(0));
    let is_third = is_drained(&mut port, &mut list, &first, 1);
    is_submitted && is_refused && is_first && is_second && is_third && !refusing.has_refused()
}

#[test]
fn a_drain_takes_memory_for_its_list_alone(rt: HostRuntime) {
    let refusing = RefusingAlloc::new(rt.alloc());
    assert!(rt; drains(&refusing, &refusing));
}

/// A drain among the calls of a port is refused for want of memory, and answers its counts once
/// there is some.
fn is_counted<A: Handle>(alloc: A, refusing: &RefusingAlloc) -> bool {
    refusing.order(Refusal::Never);
    let Ok(mut port) = Port::open(alloc, AnyWire(Nobody), &Limits::default()) else {
        return false;
    };
    let is_submitted = port.submit(read()) == Ok(Ticket(1));
    refusing.order(Refusal::From(0));
    let is_refused = port.call(&Call::Drain) == Answered::Refused(OUT_OF_MEMORY);
    let has_refused = refusing.has_refused();
    refusing.order(Refusal::Never);
    let first = DrainCounts {
        entries: 1,
        restated: 0,
    };
    let second = DrainCounts {
        entries: 1,
        restated: 1,
    };
    is_submitted
        && is_refused
        && has_refused
        && port.call(&Call::Drain) == Answered::Drained(first)
        && port.call(&Call::Drain) == Answered::Drained(second)
}

#[test]
fn a_drain_among_calls_waits_for_memory(rt: HostRuntime) {
    let refusing = RefusingAlloc::new(rt.alloc());
    assert!(rt; is_counted(&refusing, &refusing));
}
