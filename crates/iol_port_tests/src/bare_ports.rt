//! Ports over a wire that answers nothing: memory that is refused, and laws.

use crate::ports::{Calls, read};
use iol_app::Mode;
use iol_book::{BookFault, Limits, Ticket};
use iol_cell::Handle;
use iol_link::{Rate, Wire};
use iol_mseq::Message;
use iol_peers::{AnyWire, Peer};
use iol_port::{
    Answered, Call, Port, PortFault, cancelled_requests_were_asked, denied_requests_stay_out,
    each_done_has_its_pair, late_requests_end, pieces_are_turns, record_fits_journal, runs_join,
    turns_rule_out,
};
use refusing_alloc::{Refusal, RefusingAlloc};

/// A peer that answers nothing.
#[derive(PartialEq, Drop)]
struct Bare {
    number: u8,
}

impl Peer for Bare {
    fn wake(&mut self) -> Option<Rate> {
        None
    }

    fn exchange(&mut self, _sent: &[u8]) -> Option<Message> {
        None
    }
}

/// A wire to that peer.
fn bare_wire(number: u8) -> AnyWire<Bare> {
    AnyWire(Bare { number })
}

/// Each needs no port: it holds of all of them.
#[test]
fn laws_of_all_ports_need_none() {
    cancelled_requests_were_asked();
    denied_requests_stay_out();
    each_done_has_its_pair();
    late_requests_end();
    pieces_are_turns();
    record_fits_journal();
    runs_join();
    turns_rule_out();
}

/// Whether this order leaves no memory for a port, and its wire comes back.
fn is_port_refused<W: Wire + PartialEq + Drop, A: Handle>(
    alloc: A,
    refusing: &RefusingAlloc,
    wire: W,
    wanted: &W,
    refusal: Refusal,
) -> bool {
    refusing.order(refusal);
    match Port::open(alloc, wire, &Limits::default()) {
        Ok(_) => false,
        Err((fault, back)) => {
            refusing.has_refused()
                && fault == PortFault::Book(BookFault::OutOfMemory)
                && back == *wanted
        }
    }
}

/// Whether a port over this wire is opened, down, and hands the wire back.
fn is_returned<W: Wire + PartialEq + Drop, A: Handle>(alloc: A, wire: W, wanted: &W) -> bool {
    let Ok(port) = Port::open(alloc, wire, &Limits::default()) else {
        return false;
    };
    let is_down = port.status().mode == Mode::Down;
    port.keeps_record();
    is_down && port.into_wire() == *wanted
}

/// A port asks for memory twice, for both queues of its book.
#[test]
fn a_port_opens_or_hands_its_wire_back(rt: HostRuntime) {
    let refusing = RefusingAlloc::new(rt.alloc());
    let wire = bare_wire(7);
    for refusal in [Refusal::Only(0), Refusal::Only(1)] {
        assert!(rt; is_port_refused(&refusing, &refusing, bare_wire(7), &wire, refusal));
    }
    refusing.order(Refusal::From(2));
    assert!(rt; is_returned(&refusing, bare_wire(7), &wire));
    assert!(rt; !refusing.has_refused());
}

/// How many requests for memory the first submit makes.
const AT_SUBMIT: u64 = 3;

const OUT_OF_MEMORY: PortFault = PortFault::Book(BookFault::OutOfMemory);

/// Whether a submit at a new port is refused under this order, changes nothing, and goes through
/// once memory is there.
fn is_refused<P: Calls>(
    port: &mut P,
    refusing: &RefusingAlloc,
    submit: &Call,
    refusal: Refusal,
) -> bool {
    refusing.order(refusal);
    let is_refused = port.call(submit) == Answered::Refused(OUT_OF_MEMORY);
    let has_refused = refusing.has_refused();
    refusing.order(Refusal::Never);
    is_refused
        && has_refused
        && port.call(&Call::Archive) == Answered::Archived(0)
        && port.call(submit) == Answered::Ticket(Ticket(1))
}

/// The same of a port over this wire.
fn is_refused_at<W: Wire + Drop, A: Handle>(
    alloc: A,
    refusing: &RefusingAlloc,
    wire: W,
    submit: &Call,
    refusal: Refusal,
) -> bool {
    refusing.order(Refusal::Never);
    match Port::open(alloc, wire, &Limits::default()) {
        Ok(mut port) => is_refused(&mut port, refusing, submit, refusal),
        Err(_) => false,
    }
}

/// Whether a submit at a new port over this wire goes through under this order.
fn is_granted_at<W: Wire + Drop, A: Handle>(
    alloc: A,
    refusing: &RefusingAlloc,
    wire: W,
    refusal: Refusal,
) -> bool {
    refusing.order(Refusal::Never);
    let Ok(mut port) = Port::open(alloc, wire, &Limits::default()) else {
        return false;
    };
    refusing.order(refusal);
    port.submit(read()) == Ok(Ticket(1))
}

#[test]
fn a_refused_request_changes_nothing(rt: HostRuntime) {
    let refusing = RefusingAlloc::new(rt.alloc());
    for number in 0..AT_SUBMIT {
        for refusal in [Refusal::Only(number), Refusal::From(number)] {
            for submit in [Call::Submit(read()), Call::SubmitUrgent(read())] {
                assert!(rt; is_refused_at(&refusing, &refusing, bare_wire(7), &submit, refusal));
            }
        }
    }
    assert!(rt; is_granted_at(&refusing, &refusing, bare_wire(7), Refusal::From(AT_SUBMIT)));
}

/// Whether a run is refused for memory under this order.
fn is_run_refused<W: Wire, A: Handle>(
    port: &mut Port<W, A>,
    refusing: &RefusingAlloc,
    calls: &[Call],
    refusal: Refusal,
) -> bool {
    refusing.order(refusal);
    let refused = port.run(refusing, calls).err();
    refusing.has_refused() && refused == Some(OUT_OF_MEMORY)
}

/// Whether a run of these calls answers this.
fn answers<W: Wire, A: Handle>(
    port: &mut Port<W, A>,
    refusing: &RefusingAlloc,
    calls: &[Call],
    wanted: &[Answered],
) -> bool {
    refusing.order(Refusal::Never);
    match port.run(refusing, calls) {
        Ok(received) => received.as_slice() == wanted,
        Err(_) => false,
    }
}

/// Whether two runs that are refused leave a port over this wire new, and a third one makes its
/// calls.
fn runs_once<W: Wire + Drop, A: Handle>(alloc: A, refusing: &RefusingAlloc, wire: W) -> bool {
    let calls = [Call::Submit(read()), Call::Turn, Call::Collect(Ticket(1))];
    let wanted = [
        Answered::Ticket(Ticket(1)),
        Answered::Nothing,
        Answered::Refused(PortFault::Book(BookFault::NotYet)),
    ];
    let Ok(mut port) = Port::open(alloc, wire, &Limits::default()) else {
        return false;
    };
    is_run_refused(&mut port, refusing, &calls, Refusal::From(0))
        && is_run_refused(&mut port, refusing, &calls, Refusal::Only(0))
        && answers(&mut port, refusing, &calls, &wanted)
        && port.submit(read()) == Ok(Ticket(2))
}

#[test]
fn a_refused_run_makes_no_call(rt: HostRuntime) {
    let refusing = RefusingAlloc::new(rt.alloc());
    assert!(rt; runs_once(&refusing, &refusing, bare_wire(7)));
}
