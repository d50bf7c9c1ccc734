//! Desks and memory of a master run out, why a submit is refused, and what one counts,
//! urgent or not.
ghost use Rattle.std.specs.Prelude.{IfOk};
ghost use Rattle.iol_master.specs.Tickets.{HasIssued};
ghost use Rattle.iol_master.specs.Ledgers.{IsBlankFor};

use crate::calls::{check, gives, of_book, read, serves, turns};
use crate::opening::{alone, open_one};
use crate::scripts::{Call, VALUE_PLACE};
use crate::visits::{Step, Who, passes_all};
use iol_book::{BookFault, JournalLimit, Limits, Ticket};
use iol_cell::Handle;
use iol_link::{Rate, Wire};
use iol_master::{Desk, Gate, Master, MasterFault, Settled, Tally};
use iol_mseq::Message;
use iol_peers::{AnyWire, Peer};
use iol_port::{Port, PortFault};
use refusing_alloc::{Refusal, RefusingAlloc};
use std::alloc::{AllocError, Global};
use std::marker::Brand;
use std::process::Abort;
use std::sync::Wait;
use std::sync::ledger::{Blank, Ledger};
use std::test::Fail;
use std::thread::Threads;

/// A peer that answers nothing.
#[derive(Drop)]
struct Nobody;

impl Peer for Nobody {
    fn wake(&mut self) -> Option<Rate> {
        None
    }

    fn exchange(&mut self, _sent: &[u8]) -> Option<Message> {
        None
    }
}

/// A master of one port that nobody answers.
type Unanswered<L, K, A> = Master<AnyWire<Nobody>, L, K, A>;

/// A gate that is open.
pub struct Open;

impl Gate for Open {
    fn pass(&self, _port: u32, _turn: u64) -> bool {
        true
    }
}

/// What a port is opened with: its first ticket is 8.
fn limits() -> Limits {
    Limits {
        given: 7,
        ..Limits::default()
    }
}

fn opened_port<A: Handle>(alloc: A, limits: &Limits) -> Result<Port<AnyWire<Nobody>, A>, Fail>
    ensures { IfOk result (λ p. HasIssued p 0) }
{
    match Port::open(alloc, AnyWire(Nobody), limits) {
        Ok(port) => Ok(port),
        Err((fault, _)) => Err(Fail::from(fault)),
    }
}

fn opened<L: Ledger, K: Ledger, A: Handle, R: Abort>(
    rt: &R,
    alloc: A,
    limits: &Limits,
    clients: Blank,
    tickets: Blank,
) -> Result<Unanswered<L, K, A>, Fail>
    requires clients { IsBlankFor clients L.name L.parts 1025 }
    requires tickets { IsBlankFor tickets K.name K.parts 1 }
{
    let port = opened_port(alloc, limits)?;
    Ok(open_one(rt, alloc, port, clients, tickets)?)
}

/// Opens all desks of a master but one. One that is dropped keeps its place.
fn take_most<W: Wire, L: Ledger, K: Ledger, R: Wait>(
    rt: &R,
    master: &Master<W, L, K>,
) -> Result<(), MasterFault> {
    for _ in 1..1024 {
        drop(master.desk(rt, 1)?);
    }
    Ok(())
}

/// Where all desks are open a further one is refused, and opened once another is settled.
const NO_MORE: [Step; 5] = [
    Step::Open(Who::One, 1),
    Step::NoDesk(1, MasterFault::DesksFull),
    Step::Settle(Who::One, Settled::Part(0)),
    Step::Open(Who::One, 1),
    Step::Counts(Who::One, 1, 0),
];

/// Two desks at one port, of which one submits an urgent request. The port refuses to cut off a
/// request that waits, and one that it doesn't know.
const BOTH: [Step; 8] = [
    Step::Open(Who::One, 1),
    Step::Open(Who::Other, 1),
    Step::Submit(Who::One, VALUE_PLACE, 8),
    Step::Urgent(Who::Other, VALUE_PLACE, 9),
    Step::Call(
        1,
        Call::CancelFails(9, PortFault::Book(BookFault::NotInFlight)),
    ),
    Step::Call(
        1,
        Call::CancelFails(7, PortFault::Book(BookFault::UnknownTicket)),
    ),
    Step::Settle(Who::One, Settled::Part(1)),
    Step::Settle(Who::Other, Settled::Last(1, 2)),
];

/// The desks of one master are counted, and then run out.
fn run_out<L: Ledger, K: Ledger + Sync, R: Threads + Wait + Abort + Sync>(
    rt: &R,
    alloc: Global,
    clients: Blank,
    tickets: Blank,
) -> Result<(), Fail>
    requires clients { IsBlankFor clients L.name L.parts 1025 }
    requires tickets { IsBlankFor tickets K.name K.parts 1 }
{
    let master = opened::<L, K, Global, R>(rt, alloc, &limits(), clients, tickets)?;
    check(rt, passes_all(rt, &master, &BOTH));
    check(rt, take_most(rt, &master) == Ok(()));
    check(rt, passes_all(rt, &master, &NO_MORE));
    check(rt, serves(rt, &master, &Open, 1));
    Ok(())
}

#[test]
fn desks_count_and_run_out(rt: HostRuntime) -> Result<(), Fail> {
    run_out::<Brand, Brand, HostRuntime>(&rt, rt.alloc(), Blank::new(1025), Blank::new(1))
}

/// Opens a master of one port under an order to refuse memory, and says whether it comes as it is
/// to: refused, or not.
fn opens_as<W: Wire + Drop, A: Handle, L: Ledger, K: Ledger>(
    alloc: A,
    refusing: &RefusingAlloc,
    order: (Refusal, bool),
    port: Port<W, A>,
    clients: Blank,
    tickets: Blank,
) -> Result<bool, AllocError>
    requires clients { IsBlankFor clients L.name L.parts 1025 }
    requires tickets { IsBlankFor tickets K.name K.parts 1 }
    requires fresh { HasIssued port 0 }
{
    let (refusal, is_refused) = order;
    let ports = alone(alloc, port)?;
    refusing.order(refusal);
    let opened = Master::<W, L, K, A>::open(alloc, ports, clients, tickets);
    let comes = comes_as(opened, is_refused);
    Ok(comes && refusing.has_refused() == is_refused)
}

fn comes_as<W: Wire + Drop, L: Ledger, K: Ledger, A: Handle>(
    opened: Result<Master<W, L, K, A>, (MasterFault, Vec<Port<W, A>, A>)>,
    is_refused: bool,
) -> bool {
    match opened {
        Ok(_) => !is_refused,
        Err((fault, ports)) => is_refused && fault == MasterFault::OutOfMemory && ports.len() == 1,
    }
}

/// Which of the two submits.
#[derive(Clone, Copy)]
enum Kind {
    Ordinary,
    Urgent,
}

/// Submits a read at a desk.
fn submit<W: Wire, L: Ledger, K: Ledger, A: Handle, R: Wait>(
    rt: &R,
    master: &Master<W, L, K, A>,
    desk: &mut Desk<L>,
    kind: Kind,
) -> Result<Ticket, MasterFault> {
    match kind {
        Kind::Ordinary => master.submit(rt, desk, read()),
        Kind::Urgent => master.submit_urgent(rt, desk, read()),
    }
}

/// Whether a submit at a desk is given the ticket of this number.
fn takes<W: Wire, L: Ledger, K: Ledger, A: Handle, R: Wait>(
    rt: &R,
    master: &Master<W, L, K, A>,
    desk: &mut Desk<L>,
    kind: Kind,
    number: u64,
) -> bool {
    submit(rt, master, desk, kind) == Ok(Ticket(number))
}

/// Submits at a desk without submits under an order to refuse memory, and says
/// whether a request was refused.
fn submit_refusing<W: Wire, L: Ledger, K: Ledger, A: Handle, R: Wait + Abort>(
    rt: &R,
    refusing: &RefusingAlloc,
    refusal: Refusal,
    master: &Master<W, L, K, A>,
    desk: &mut Desk<L>,
    kind: Kind,
) -> bool {
    refusing.order(refusal);
    let answer = submit(rt, master, desk, kind);
    let refused = refusing.has_refused();
    let wanted = if refused {
        Err(of_book(BookFault::OutOfMemory))
    } else {
        Ok(Ticket(8))
    };
    check(
        rt,
        answer == wanted && desk.accepted() == u64::from(!refused),
    );
    refused
}

/// Refuses each request of a submit in turn, with all that follow and alone, until it makes no
/// further one.
fn refuse_each<W: Wire, L: Ledger, K: Ledger, A: Handle, R: Wait + Abort>(
    rt: &R,
    refusing: &RefusingAlloc,
    master: &Master<W, L, K, A>,
    desk: &mut Desk<L>,
    kind: Kind,
) {
    for number in 0..64 {
        for &refusal in &[Refusal::From(number), Refusal::Only(number)] {
            if !submit_refusing(rt, refusing, refusal, master, desk, kind) {
                check(rt, number > 0);
                return;
            }
        }
    }
}

/// The tally of one request at a desk that was settled.
const ONE: Tally = Tally {
    desks: 0,
    settled: 1,
    tickets: 1,
};

/// The one request that was taken waits, and its desk is settled.
fn waits<W: Wire, L: Ledger, K: Ledger, A: Handle, R: Wait>(
    rt: &R,
    master: &Master<W, L, K, A>,
    desk: Desk<L>,
) -> bool {
    let not_yet = Err(PortFault::Book(BookFault::NotYet));
    let is_accepted = desk.accepted() == 1;
    let is_waiting = turns(rt, master, 1, 1) && gives(rt, master, 1, Ticket(8), &not_yet);
    let settled = master.settle(rt, desk);
    is_accepted && is_waiting && settled == Settled::Last(1, 1)
}

/// Submits while each request for memory is refused in turn; no other call makes one.
fn submits_once<W: Wire, L: Ledger, K: Ledger, A: Handle, R: Wait + Abort>(
    rt: &R,
    refusing: &RefusingAlloc,
    master: &Master<W, L, K, A>,
    kind: Kind,
) -> Result<bool, MasterFault> {
    refusing.order(Refusal::Only(0));
    let mut desk = master.desk(rt, 1)?;
    refuse_each(rt, refusing, master, &mut desk, kind);
    refusing.order(Refusal::Never);
    Ok(waits(rt, master, desk) && refusing.requests() == 0)
}

/// The same at a new master.
fn submit_is_refused<L: Ledger, K: Ledger, R: Wait + Abort>(
    rt: &R,
    refusing: &RefusingAlloc,
    kind: Kind,
    clients: Blank,
    tickets: Blank,
) -> Result<(), Fail>
    requires clients { IsBlankFor clients L.name L.parts 1025 }
    requires tickets { IsBlankFor tickets K.name K.parts 1 }
{
    refusing.order(Refusal::Never);
    let master = opened::<L, K, &RefusingAlloc, R>(rt, refusing, &limits(), clients, tickets)?;
    check(rt, submits_once(rt, refusing, &master, kind) == Ok(true));
    check(rt, master.close() == ONE);
    Ok(())
}

#[test]
fn refused_memory_changes_nothing(rt: HostRuntime) -> Result<(), Fail> {
    let refusing = RefusingAlloc::new(rt.alloc());
    for &order in &[
        (Refusal::Only(0), true),
        (Refusal::From(0), true),
        (Refusal::From(1), false),
        (Refusal::Only(1), false),
    ] {
        refusing.order(Refusal::Never);
        let port = opened_port(&refusing, &limits())?;
        let comes = opens_as::<_, &RefusingAlloc, Brand, Brand>(
            &refusing,
            &refusing,
            order,
            port,
            Blank::new(1025),
            Blank::new(1),
        )?;
        check(&rt, comes);
    }
    for &kind in &[Kind::Ordinary, Kind::Urgent] {
        submit_is_refused::<Brand, Brand, HostRuntime>(
            &rt,
            &refusing,
            kind,
            Blank::new(1025),
            Blank::new(1),
        )?;
    }
    Ok(())
}

/// The limits of a port, and how many submits it takes until the next one is refused for
/// this and for all that comes behind it. A request that waits takes 4 entries of the
/// journal, one now and three that are owed, and one more needs room for 4 besides.
fn limits_for(fault: BookFault) -> (Limits, u32) {
    let usual = limits();
    let (journal, given, taken) = match fault {
        BookFault::Full => (JournalLimit::new(256).unwrap(), u64::MAX - 64, 64),
        BookFault::JournalFull => (JournalLimit::new(8).unwrap(), u64::MAX - 2, 2),
        BookFault::TicketsSpent => (usual.journal, u64::MAX - 2, 2),
        _ => (usual.journal, usual.given, 0),
    };
    let limits = Limits {
        journal,
        given,
        ..usual
    };
    (limits, taken)
}

/// Submits so often at a desk; the tickets follow this one.
fn submit_many<W: Wire, L: Ledger, K: Ledger, A: Handle, R: Wait + Abort>(
    rt: &R,
    master: &Master<W, L, K, A>,
    desk: &mut Desk<L>,
    kind: Kind,
    given: u64,
    count: u32,
) {
    for number in 1..=u64::from(count) {
        let next = given.saturating_add(number);
        check(rt, takes(rt, master, desk, kind, next));
    }
}

/// So many submits are taken at a desk of a master, whose tickets follow this one. The next is
/// refused for this, also where memory is refused too.
fn refuses_for<W: Wire, L: Ledger, K: Ledger, A: Handle, R: Wait + Abort>(
    rt: &R,
    refusing: &RefusingAlloc,
    master: &Master<W, L, K, A>,
    kind: Kind,
    fault: BookFault,
    given: u64,
    taken: u32,
) -> Result<bool, MasterFault> {
    let mut desk = master.desk(rt, 1)?;
    submit_many(rt, master, &mut desk, kind, given, taken);
    refusing.order(Refusal::From(0));
    Ok(
        submit(rt, master, &mut desk, kind) == Err(of_book(fault))
            && desk.accepted() == u64::from(taken),
    )
}

/// Submits at a master of one port until this is why a submit is refused: where memory is
/// refused too, it is still refused for this.
fn refused_first<L: Ledger, K: Ledger, R: Wait + Abort>(
    rt: &R,
    refusing: &RefusingAlloc,
    kind: Kind,
    fault: BookFault,
    clients: Blank,
    tickets: Blank,
) -> Result<(), Fail>
    requires clients { IsBlankFor clients L.name L.parts 1025 }
    requires tickets { IsBlankFor tickets K.name K.parts 1 }
{
    let (limits, taken) = limits_for(fault);
    refusing.order(Refusal::Never);
    let master = opened::<L, K, &RefusingAlloc, R>(rt, refusing, &limits, clients, tickets)?;
    let is_refused = refuses_for(rt, refusing, &master, kind, fault, limits.given, taken);
    check(rt, is_refused == Ok(true));
    Ok(())
}

#[test]
fn submits_are_refused_in_order(rt: HostRuntime) -> Result<(), Fail> {
    let refusing = RefusingAlloc::new(rt.alloc());
    for &fault in &[
        BookFault::Full,
        BookFault::JournalFull,
        BookFault::TicketsSpent,
        BookFault::OutOfMemory,
    ] {
        for &kind in &[Kind::Ordinary, Kind::Urgent] {
            refused_first::<Brand, Brand, HostRuntime>(
                &rt,
                &refusing,
                kind,
                fault,
                Blank::new(1025),
                Blank::new(1),
            )?;
        }
    }
    Ok(())
}
