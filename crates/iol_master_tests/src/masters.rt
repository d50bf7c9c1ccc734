//! Masters over the simulated wire: workers and clients at once.
ghost use Rattle.std.specs.Prelude.{◌≤◌, All, vec_len};
ghost use Rattle.iol_master.specs.Tickets.{HasIssued};
ghost use Rattle.iol_master.specs.Ledgers.{IsBlankFor};

use crate::calls::{Expected, check, read, serves};
use crate::opening::{numbered, open_master};
use crate::scripts::{Call, VALUE_PLACE};
use crate::slow::is_set;
use crate::visits::{Step, Who, passes_all};
use iol_book::{BookFault, Ticket};
use iol_isdu::Cause;
use iol_link::Wire;
use iol_master::{Desk, Gate, Master, MasterFault, Settled, Tally};
use iol_port::{Port, PortFault};
use std::alloc::Global;
use std::marker::Brand;
use std::process::Abort;
use std::sync::Wait;
use std::sync::atomic::{AtomicBool, Ordering};
use std::sync::ledger::{Blank, Ledger};
use std::test::Fail;
use std::thread;
use std::thread::Threads;

/// Each port sets its flag at turn 20, and looks for the other's.
#[derive(Drop)]
struct Meet {
    here: [AtomicBool; 2],
    met: [AtomicBool; 2],
}

impl Meet {
    fn new() -> Meet {
        Meet {
            here: [AtomicBool::new(false), AtomicBool::new(false)],
            met: [AtomicBool::new(false), AtomicBool::new(false)],
        }
    }

    /// Whether each port saw the other's flag.
    fn have_met(&self) -> bool {
        self.met[0].load(Ordering::SeqCst) && self.met[1].load(Ordering::SeqCst)
    }
}

impl Gate for Meet {
    fn pass(&self, port: u32, turn: u64) -> bool {
        if turn != 20 || port == 0 || port > 2 {
            return true;
        }
        let me = port as usize - 1;
        self.here[me].store(true, Ordering::SeqCst);
        let met = is_set(&self.here[1 - me]);
        self.met[me].store(met, Ordering::SeqCst);
        true
    }
}

/// A client's desk, and the ticket that it got there.
type Done<L> = (Desk<L>, Ticket);

type Two<T> = (T, T);

/// What came of a thread's client at each port.
type Visits<L> = Result<Two<Done<L>>, MasterFault>;

/// A client of a port submits one request at a desk of its own.
fn client<W: Wire, L: Ledger, K: Ledger, R: Wait>(
    rt: &R,
    master: &Master<W, L, K>,
    number: u32,
) -> Result<Done<L>, MasterFault> {
    let mut desk = master.desk(rt, number)?;
    let ticket = master.submit(rt, &mut desk, read())?;
    Ok((desk, ticket))
}

/// A client at one port, and then one at another.
fn visits<W: Wire, L: Ledger, K: Ledger, R: Wait>(
    rt: &R,
    master: &Master<W, L, K>,
    here: u32,
    there: u32,
) -> Visits<L> {
    let one = client(rt, master, here)?;
    let two = client(rt, master, there)?;
    Ok((one, two))
}

/// Two threads, each with a client at each port.
fn both<W: Wire + Send, L: Ledger + Sync, K: Ledger + Sync, R: Threads + Wait + Sync>(
    rt: &R,
    master: &Master<W, L, K>,
) -> Two<Visits<L>> {
    thread::join(
        rt,
        move || visits(rt, master, 1, 2),
        move || visits(rt, master, 2, 1),
    )
}

/// Two clients at each port, and the workers beside them.
fn beside_workers<W: Wire + Send, L: Ledger + Sync, K: Ledger + Sync, R>(
    rt: &R,
    master: &Master<W, L, K>,
    gate: &Meet,
) -> (Two<Visits<L>>, bool)
where
    R: Threads + Wait + Sync,
{
    thread::join(
        rt,
        move || both(rt, master),
        move || serves(rt, master, gate, 100),
    )
}

/// A port's first two tickets, in either order.
fn are_firsts(one: Ticket, two: Ticket) -> bool {
    matches!((one, two), (Ticket(1), Ticket(2)) | (Ticket(2), Ticket(1)))
}

/// Settles two desks at each of two ports, of which each submitted one request.
fn are_settled<W: Wire, L: Ledger, K: Ledger, R: Wait>(
    rt: &R,
    master: &Master<W, L, K>,
    first: Two<Desk<L>>,
    second: Two<Desk<L>>,
) -> bool {
    let first = settled(rt, master, first);
    let second = settled(rt, master, second);
    first == (Settled::Part(1), Settled::Part(1))
        && second == (Settled::Part(1), Settled::Last(1, 4))
}

fn settled<W: Wire, L: Ledger, K: Ledger, R: Wait>(
    rt: &R,
    master: &Master<W, L, K>,
    desks: Two<Desk<L>>,
) -> Two<Settled> {
    let (one, two) = desks;
    (master.settle(rt, one), master.settle(rt, two))
}

/// The two threads' clients got the first tickets of each port, which answers them.
fn met<W: Wire, L: Ledger, K: Ledger, R: Wait>(
    rt: &R,
    master: &Master<W, L, K>,
    visits: Two<Two<Done<L>>>,
) -> bool {
    let (((one, a), (two, b)), ((three, c), (four, d))) = visits;
    let are_issued = are_firsts(a, d) && are_firsts(b, c);
    let are_answered = passes_all(rt, master, &ANSWERED);
    let are_settled = are_settled(rt, master, (one, four), (two, three));
    are_issued && are_answered && are_settled
}

/// Each port gave its value for both of its tickets, and knows no third.
const ANSWERED: [Step; 6] = [
    Step::Call(1, Call::Collect(1, Expected::Reads(&[0x42, 0]))),
    Step::Call(1, Call::Collect(2, Expected::Reads(&[0x42, 0]))),
    Step::Call(1, Call::Collect(3, Expected::Unknown)),
    Step::Call(2, Call::Collect(1, Expected::Reads(&[0x42, 1]))),
    Step::Call(2, Call::Collect(2, Expected::Reads(&[0x42, 1]))),
    Step::Call(2, Call::Collect(3, Expected::Unknown)),
];

const TWO_PORTS: [Step; 2] = [
    Step::NoDesk(0, MasterFault::NoSuchPort),
    Step::NoDesk(3, MasterFault::NoSuchPort),
];

/// The tally of four requests at desks that were settled.
const FOUR: Tally = Tally {
    desks: 0,
    settled: 4,
    tickets: 4,
};

/// Clients submit while the workers meet, and all is served.
fn serves_both<W: Wire + Send, L: Ledger + Sync, K: Ledger + Sync, R: Threads + Wait + Sync>(
    rt: &R,
    master: &Master<W, L, K>,
) -> Result<bool, MasterFault> {
    let gate = Meet::new();
    let ((one, two), is_served) = beside_workers(rt, master, &gate);
    let have_met = is_served && gate.have_met();
    let visits = (one?, two?);
    let goes_on = serves(rt, master, &gate, 100);
    Ok(have_met && goes_on && met(rt, master, visits))
}

/// Two ports are served, with two clients at each.
fn serves_two<W: Wire + Send + Drop, L: Ledger + Sync, K: Ledger + Sync, R>(
    rt: &R,
    alloc: Global,
    ports: Vec<Port<W>>,
    clients: Blank,
    tickets: Blank,
)
where
    R: Threads + Wait + Abort + Sync,
    requires clients { IsBlankFor clients L.name L.parts 1025 }
    requires tickets { IsBlankFor tickets K.name K.parts (vec_len ports) }
    requires count { (1 ≤ vec_len ports) × (vec_len ports ≤ 32) }
    requires fresh { All (λ p. HasIssued p 0) ports.items }
{
    let master = open_master::<W, L, K, Global, R>(rt, alloc, ports, clients, tickets);
    check(rt, passes_all(rt, &master, &TWO_PORTS));
    check(rt, serves_both(rt, &master) == Ok(true));
    check(rt, master.close() == FOUR);
}

#[test]
fn two_ports_are_served(rt: HostRuntime) -> Result<(), Fail> {
    let ports = numbered(rt.alloc(), 2)?;
    let (clients, tickets) = (Blank::new(1025), Blank::new(2));
    serves_two::<_, Brand, Brand, HostRuntime>(&rt, rt.alloc(), ports, clients, tickets);
    Ok(())
}

/// Why a request that waits isn't cut off.
const NOT_IN_FLIGHT: PortFault = PortFault::Book(BookFault::NotInFlight);

/// The port at which a request is cancelled.
const SECOND: u32 = 2;

/// Two desks submit at a port. The second one's urgent request goes before the other's, and is
/// cancelled under the port's lock while it is under way.
const CANCELS: [Step; 13] = [
    Step::Open(Who::One, SECOND),
    Step::Open(Who::Other, SECOND),
    Step::Submit(Who::One, VALUE_PLACE, 1),
    Step::Urgent(Who::Other, VALUE_PLACE, 2),
    Step::Call(SECOND, Call::Turns(16)),
    Step::Call(SECOND, Call::CancelFails(1, NOT_IN_FLIGHT)),
    Step::Call(SECOND, Call::Cancel(2)),
    Step::Call(SECOND, Call::Turns(1)),
    Step::Call(SECOND, Call::Collect(2, Expected::CutOff(Cause::Cancelled))),
    Step::Call(SECOND, Call::Turns(3)),
    Step::Call(SECOND, Call::Collect(1, Expected::Reads(&[0x42, 1]))),
    Step::Settle(Who::One, Settled::Part(1)),
    Step::Settle(Who::Other, Settled::Last(1, 2)),
];

fn cancels_at_two<W: Wire + Drop, L: Ledger, K: Ledger, R: Wait + Abort>(
    rt: &R,
    alloc: Global,
    ports: Vec<Port<W>>,
    clients: Blank,
    tickets: Blank,
)
    requires clients { IsBlankFor clients L.name L.parts 1025 }
    requires tickets { IsBlankFor tickets K.name K.parts (vec_len ports) }
    requires count { (1 ≤ vec_len ports) × (vec_len ports ≤ 32) }
    requires fresh { All (λ p. HasIssued p 0) ports.items }
{
    let master = open_master::<W, L, K, Global, R>(rt, alloc, ports, clients, tickets);
    check(rt, passes_all(rt, &master, &CANCELS));
}

#[test]
fn an_urgent_request_is_cancelled(rt: HostRuntime) -> Result<(), Fail> {
    let ports = numbered(rt.alloc(), 2)?;
    let (clients, tickets) = (Blank::new(1025), Blank::new(2));
    cancels_at_two::<_, Brand, Brand, HostRuntime>(&rt, rt.alloc(), ports, clients, tickets);
    Ok(())
}
