//! Clients that are gone: what became of their tickets once their desks are settled.
ghost use Rattle.std.specs.Prelude.{◌≤◌, All, vec_len};
ghost use Rattle.iol_master.specs.Tickets.{HasIssued};
ghost use Rattle.iol_master.specs.Ledgers.{IsBlankFor};

use crate::calls::{Expected, check};
use crate::opening::{numbered, numbered_port, open_master, open_one};
use crate::scripts::Call;
use crate::visits::{Desks, Step, Who, answers_locked, goes_on, passes_all};
use iol_book::BookFault;
use iol_link::Wire;
use iol_master::{Master, MasterFault, Settled};
use iol_port::{Port, PortFault};
use std::alloc::Global;
use std::marker::Brand;
use std::process::Abort;
use std::sync::Wait;
use std::sync::ledger::{Blank, Ledger};
use std::test::Fail;

/// How many tickets a port has outstanding at most.
const ALL: u64 = 64;

/// The turns of a start-up and of one read, behind which the next one is under way.
const TURNS: u64 = 20;

/// Why a submit is refused where there is no place.
const FULL: MasterFault = MasterFault::Port(PortFault::Book(BookFault::Full));

/// What a read of the first port's device comes to.
const VALUE: Expected = Expected::Reads(&[0x42, 0]);

/// A client that is gone has all tickets of the port: one has its outcome, one is under way, and
/// the others wait. Another client has no place, and has one once the first one's desk is settled.
const STOPS_NO_PORT: [Step; 8] = [
    Step::Open(Who::One, 1),
    Step::Open(Who::Other, 1),
    Step::SubmitMany(Who::One, 1, ALL),
    Step::Call(1, Call::Turns(TURNS)),
    Step::Refused(Who::Other, FULL),
    Step::Refused(Who::One, FULL),
    Step::Settle(Who::One, Settled::Part(ALL)),
    Step::SubmitMany(Who::Other, ALL + 1, ALL + 1),
];

/// Then the one that waited is answered.
const IS_ANSWERED: [Step; 3] = [
    Step::Call(1, Call::Turns(TURNS)),
    Step::Call(1, Call::Collect(ALL + 1, VALUE)),
    Step::Settle(Who::Other, Settled::Last(1, ALL + 1)),
];

/// Two desks have tickets in turn. What the one leaves, once it is settled, is the other's.
const LEAVES_THE_OTHERS: [Step; 16] = [
    Step::Open(Who::One, 1),
    Step::Open(Who::Other, 1),
    Step::SubmitMany(Who::Other, 1, 1),
    Step::SubmitMany(Who::One, 2, 3),
    Step::SubmitMany(Who::Other, 4, 4),
    Step::SubmitMany(Who::One, 5, 5),
    Step::Settle(Who::One, Settled::Part(3)),
    Step::Call(1, Call::Collect(2, Expected::Unknown)),
    Step::Call(1, Call::Collect(3, Expected::Unknown)),
    Step::Call(1, Call::Collect(5, Expected::Unknown)),
    Step::Call(1, Call::Collect(1, Expected::NotYet)),
    Step::Call(1, Call::Collect(4, Expected::NotYet)),
    Step::Call(1, Call::Turns(2 * TURNS)),
    Step::Call(1, Call::Collect(1, VALUE)),
    Step::Call(1, Call::Collect(4, VALUE)),
    Step::Settle(Who::Other, Settled::Last(2, 5)),
];

/// A desk has more tickets than a port has at a time, of which all are collected but its first one
/// and its last one.
const FIRST: [Step; 3] = [
    Step::Open(Who::One, 1),
    Step::SubmitMany(Who::One, 1, 1),
    Step::Call(1, Call::Turns(TURNS)),
];

/// These are gone with it. By then the journal isn't handed out.
const LAST: [Step; 2] = [
    Step::Call(1, Call::ArchiveFails),
    Step::Settle(Who::One, Settled::Last(2 * ALL, 2 * ALL)),
];

/// Desks at two ports have tickets of the same numbers. Those of the one that is settled are gone
/// at its own port, and the other port's stay.
const LEAVES_OTHER_PORTS: [Step; 10] = [
    Step::Open(Who::Other, 1),
    Step::Open(Who::One, 2),
    Step::SubmitMany(Who::Other, 1, 2),
    Step::SubmitMany(Who::One, 1, 2),
    Step::Settle(Who::One, Settled::Part(2)),
    Step::Call(2, Call::Collect(1, Expected::Unknown)),
    Step::Call(2, Call::Collect(2, Expected::Unknown)),
    Step::Call(1, Call::Collect(1, Expected::NotYet)),
    Step::Call(1, Call::Collect(2, Expected::NotYet)),
    Step::Settle(Who::Other, Settled::Last(2, 4)),
];

/// Whether none of the tickets up to this one is known at the port.
fn are_unknown<W: Wire, L: Ledger, K: Ledger, R: Wait>(
    rt: &R,
    master: &Master<W, L, K>,
    last: u64,
) -> bool {
    for number in 1..=last {
        if !answers_locked(rt, master, 1, &[Call::Collect(number, Expected::Unknown)]) {
            return false;
        }
    }
    true
}

fn stops_no_port<W: Wire, L: Ledger, K: Ledger, R: Wait>(rt: &R, master: &Master<W, L, K>) -> bool {
    let mut desks = Desks::new();
    goes_on(rt, master, &mut desks, &STOPS_NO_PORT)
        && are_unknown(rt, master, ALL)
        && goes_on(rt, master, &mut desks, &IS_ANSWERED)
}

/// A further read is submitted, and collected where that is wanted.
fn reads<W: Wire, L: Ledger, K: Ledger, R: Wait>(
    rt: &R,
    master: &Master<W, L, K>,
    desks: &mut Desks<L>,
    number: u64,
    is_collected: bool,
) -> bool {
    let submits = [
        Step::SubmitMany(Who::One, number, number),
        Step::Call(1, Call::Turns(TURNS)),
    ];
    goes_on(rt, master, desks, &submits)
        && (!is_collected || answers_locked(rt, master, 1, &[Call::Collect(number, VALUE)]))
}

fn reads_many<W: Wire, L: Ledger, K: Ledger, R: Wait>(
    rt: &R,
    master: &Master<W, L, K>,
    desks: &mut Desks<L>,
) -> bool {
    for number in 2..=2 * ALL {
        if !reads(rt, master, desks, number, number < 2 * ALL) {
            return false;
        }
    }
    true
}

fn keeps_its_first<W: Wire, L: Ledger, K: Ledger, R: Wait>(
    rt: &R,
    master: &Master<W, L, K>,
) -> bool {
    let mut desks = Desks::new();
    goes_on(rt, master, &mut desks, &FIRST)
        && reads_many(rt, master, &mut desks)
        && goes_on(rt, master, &mut desks, &LAST)
        && are_unknown(rt, master, 2 * ALL)
        && answers_locked(rt, master, 1, &[Call::ArchiveAny])
}

/// The same of a master of these ports.
fn holds_at_two<W: Wire + Drop, L: Ledger, K: Ledger, R: Wait + Abort>(
    rt: &R,
    alloc: Global,
    ports: Vec<Port<W>>,
    clients: Blank,
    tickets: Blank,
)
    requires clients { IsBlankFor clients L.name L.parts 1025 }
    requires tickets { IsBlankFor tickets K.name K.parts (vec_len ports) }
    requires count { (1 ≤ vec_len ports) × (vec_len ports ≤ 32) }
    requires fresh { All (λ p. HasIssued p 0) ports.items }
{
    let master = open_master::<W, L, K, Global, R>(rt, alloc, ports, clients, tickets);
    check(rt, passes_all(rt, &master, &LEAVES_OTHER_PORTS));
}

/// Refuses a `settle` that abandons tickets at another port.
#[test]
fn tickets_at_another_port_stay(rt: HostRuntime) -> Result<(), Fail> {
    let ports = numbered(rt.alloc(), 2)?;
    let (clients, tickets) = (Blank::new(1025), Blank::new(2));
    holds_at_two::<_, Brand, Brand, HostRuntime>(&rt, rt.alloc(), ports, clients, tickets);
    Ok(())
}

/// What is asked of a master of one port.
#[derive(Clone, Copy)]
enum Case {
    StopsNoPort,
    LeavesTheOthers,
    KeepsItsFirst,
}

fn holds<W: Wire + Drop, L: Ledger, K: Ledger, R: Wait + Abort>(
    rt: &R,
    alloc: Global,
    case: Case,
    port: Port<W>,
    clients: Blank,
    tickets: Blank,
) -> Result<(), Fail>
    requires clients { IsBlankFor clients L.name L.parts 1025 }
    requires tickets { IsBlankFor tickets K.name K.parts 1 }
    requires fresh { HasIssued port 0 }
{
    let master = open_one::<W, L, K, Global, R>(rt, alloc, port, clients, tickets)?;
    let holds = match case {
        Case::StopsNoPort => stops_no_port(rt, &master),
        Case::LeavesTheOthers => passes_all(rt, &master, &LEAVES_THE_OTHERS),
        Case::KeepsItsFirst => keeps_its_first(rt, &master),
    };
    check(rt, holds);
    Ok(())
}

/// Refuses a `settle` that leaves tickets outstanding, or that abandons another desk's.
#[test]
fn tickets_of_a_client_that_is_gone_are_abandoned(rt: HostRuntime) -> Result<(), Fail> {
    for &case in &[
        Case::StopsNoPort,
        Case::LeavesTheOthers,
        Case::KeepsItsFirst,
    ] {
        let port = numbered_port(rt.alloc(), 0)?;
        let (clients, tickets) = (Blank::new(1025), Blank::new(1));
        holds::<_, Brand, Brand, HostRuntime>(&rt, rt.alloc(), case, port, clients, tickets)?;
    }
    Ok(())
}
