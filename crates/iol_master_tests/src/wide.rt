//! A master of 32 ports with unequal answers, whose gate says no to each at a turn of its own, and
//! a desk with more than a thousand submits.
ghost use Rattle.std.specs.Prelude.{◌≤◌, All, vec_len};
ghost use Rattle.iol_master.specs.Tickets.{HasIssued};
ghost use Rattle.iol_master.specs.Ledgers.{IsBlankFor};

use crate::calls::{Expected, answer, check, gives, is_expected, read, serves};
use crate::opening::{numbered, numbered_port, open_master, open_one};
use iol_book::{BookFault, Entry, Journal, Ticket};
use iol_isdu::{Place, Request};
use iol_link::Wire;
use iol_master::{Desk, Gate, Held, Master, MasterFault, Settled, Tally};
use iol_port::{Port, PortFault};
use std::alloc::Global;
use std::marker::Brand;
use std::process::Abort;
use std::sync::Wait;
use std::sync::atomic::{AtomicU64, Ordering};
use std::sync::ledger::{Blank, Ledger};
use std::test::Fail;
use std::thread::Threads;

/// How many ports there are.
const PORTS: u8 = 32;

/// The turn before which the gate says no to port 1; to each further port a turn later.
const CLOSING: u64 = 1_500;

/// Says no to each port at a turn of its own, and keeps the turn of which each was asked last.
#[derive(Drop)]
struct Closing {
    asked: Vec<AtomicU64, Global>,
}

impl Closing {
    fn new(alloc: Global) -> Result<Closing, Fail> {
        let mut asked = Vec::new(alloc);
        for _ in 0..PORTS {
            asked.push(AtomicU64::new(0))?;
        }
        Ok(Closing { asked })
    }

    /// The turn of which a port was asked last.
    fn last_asked(&self, index: u8) -> Option<u64> {
        let asked = self.asked.as_slice().get(usize::from(index))?;
        Some(asked.load(Ordering::SeqCst))
    }
}

impl Gate for Closing {
    fn pass(&self, port: u32, turn: u64) -> bool {
        if let Some(asked) = self.asked.as_slice().get((port - 1) as usize) {
            asked.store(turn, Ordering::SeqCst);
        }
        turn < CLOSING.saturating_add(u64::from(port))
    }
}

/// A client of the port of this number submits a read.
fn client<W: Wire, L: Ledger, K: Ledger, R: Wait + Abort>(
    rt: &R,
    master: &Master<W, L, K>,
    number: u8,
) -> Result<Desk<L>, MasterFault> {
    let mut desk = master.desk(rt, u32::from(number))?;
    check(rt, desk.port() == u32::from(number));
    check(rt, master.submit(rt, &mut desk, read()) == Ok(Ticket(1)));
    Ok(desk)
}

/// Settles desks of one submit each. The last one is told what all counted.
fn settle_all<W: Wire, L: Ledger, K: Ledger, R: Wait>(
    rt: &R,
    master: &Master<W, L, K>,
    desks: Vec<Desk<L>>,
) -> bool {
    let mut total = 0;
    for desk in desks {
        match master.settle(rt, desk) {
            Settled::Part(1) => {}
            Settled::Last(1, all) => total = all,
            _ => return false,
        }
    }
    total == u64::from(PORTS)
}

/// The port of this index was served up to its own turn, and has its own answer.
fn was_served<W: Wire, L: Ledger, K: Ledger, R: Wait>(
    rt: &R,
    master: &Master<W, L, K>,
    gate: &Closing,
    index: u8,
) -> Result<bool, Fail> {
    let port = u32::from(index) + 1;
    let last = CLOSING.saturating_add(u64::from(port));
    let wanted = Ok(answer(&[0x42, index])?);
    Ok(gate.last_asked(index) == Some(last) && gives(rt, master, port, Ticket(1), &wanted))
}

/// Submits at each port, serves all of them, looks at each and settles.
fn serve_all<W: Wire + Send, L: Ledger, K: Ledger + Sync, R: Threads + Wait + Abort + Sync>(
    rt: &R,
    alloc: Global,
    master: &Master<W, L, K>,
    gate: &Closing,
) -> Result<(), Fail> {
    let mut desks = Vec::new(alloc);
    for index in 0..PORTS {
        desks.push(client(rt, master, index + 1)?)?;
    }
    check(rt, serves(rt, master, gate, 2_000));
    for index in 0..PORTS {
        check(rt, was_served(rt, master, gate, index)?);
    }
    check(rt, settle_all(rt, master, desks));
    Ok(())
}

/// The tally of a request at each port, and of a desk that is open.
const WIDE: Tally = Tally {
    desks: 1,
    settled: 32,
    tickets: 32,
};

/// All ports are served, and a tally counts what was settled and a desk that is open.
fn is_wide<W: Wire + Send + Drop, L: Ledger + Sync, K: Ledger + Sync, R>(
    rt: &R,
    alloc: Global,
    ports: Vec<Port<W>>,
    gate: &Closing,
    clients: Blank,
    tickets: Blank,
) -> Result<(), Fail>
where
    R: Threads + Wait + Abort + Sync,
    requires clients { IsBlankFor clients L.name L.parts 1025 }
    requires tickets { IsBlankFor tickets K.name K.parts (vec_len ports) }
    requires count { (1 ≤ vec_len ports) × (vec_len ports ≤ 32) }
    requires fresh { All (λ p. HasIssued p 0) ports.items }
{
    let master = open_master::<W, L, K, Global, R>(rt, alloc, ports, clients, tickets);
    serve_all(rt, alloc, &master, gate)?;
    let open = master.desk(rt, u32::from(PORTS))?;
    check(rt, master.close() == WIDE);
    drop(open);
    Ok(())
}

/// Refuses workers that end after a thousand turns, that ask the gate for another port or that
/// make turns of another, and a tally that leaves out desks or ports.
#[test]
fn thirty_two_ports_are_served(rt: HostRuntime) -> Result<(), Fail> {
    let gate = Closing::new(rt.alloc())?;
    let ports = numbered(rt.alloc(), PORTS)?;
    let (clients, tickets) = (Blank::new(1025), Blank::new(32));
    is_wide::<_, Brand, Brand, HostRuntime>(&rt, rt.alloc(), ports, &gate, clients, tickets)
}

/// The longest write.
fn write() -> Result<Request, Fail> {
    let place = Place { index: 16, sub: 0 };
    Ok(Request::write(place, [7u8; 232].as_slice())?)
}

/// The journal of a write that was taken back.
fn entries(ticket: Ticket) -> Result<[Entry; 3], Fail> {
    Ok([
        Entry::Submitted(ticket, write()?),
        Entry::Withdrawn(ticket),
        Entry::Collected(ticket),
    ])
}

/// Withdraws the request of a ticket and collects it; the journal has that and nothing else.
fn takes_back<W: Wire, L: Ledger, K: Ledger, R: Wait>(
    rt: &R,
    master: &Master<W, L, K>,
    ticket: Ticket,
) -> Result<bool, Fail> {
    let wanted = entries(ticket)?;
    match master.lock(rt, 1) {
        Ok(mut held) => Ok(is_taken_back(&mut *held, ticket, wanted.as_slice())),
        Err(_) => Ok(false),
    }
}

/// Whether these are the first entries of a journal, so many of them.
fn begins_with(journal: &Journal, entries: &[Entry], count: usize) -> bool {
    let mut is_same = journal.len() == count;
    for (place, entry) in entries.iter().take(count).enumerate() {
        is_same &= journal.get(place).is_some_and(|own| own == *entry);
    }
    is_same
}

/// Two entries are drained while the ticket is outstanding, and stand in the next journal.
fn is_drained<W: Wire, K: Ledger>(held: &mut Held<W, K>, wanted: &[Entry]) -> bool {
    match held.drain() {
        Ok(drained) => held.restated() == 2 && begins_with(&drained, wanted, 2),
        Err(_) => false,
    }
}

fn is_archived<W: Wire, K: Ledger>(held: &mut Held<W, K>, wanted: &[Entry]) -> bool {
    match held.archive() {
        Ok(archived) => begins_with(&archived, wanted, wanted.len()),
        Err(_) => false,
    }
}

fn is_taken_back<W: Wire, K: Ledger>(
    held: &mut Held<W, K>,
    ticket: Ticket,
    wanted: &[Entry],
) -> bool {
    held.withdraw(ticket) == Ok(())
        && is_drained(held, wanted)
        && is_expected(&held.collect(ticket), Expected::Withdrawn)
        && held.abandon(ticket) == Err(PortFault::Book(BookFault::UnknownTicket))
        && is_archived(held, wanted)
}

/// Submits so many writes at a desk, each of which is taken back.
fn submit_many<W: Wire, L: Ledger, K: Ledger, R: Wait + Abort>(
    rt: &R,
    master: &Master<W, L, K>,
    desk: &mut Desk<L>,
    count: u64,
) -> Result<(), Fail> {
    for number in 1..=count {
        let request = write()?;
        check(rt, master.submit(rt, desk, request) == Ok(Ticket(number)));
        check(rt, takes_back(rt, master, Ticket(number))?);
    }
    Ok(())
}

/// The tally of so many submits at a desk that was settled.
const FAR: Tally = Tally {
    desks: 0,
    settled: 1_100,
    tickets: 1_100,
};

/// A desk counts each of its submits, and so does the tally.
fn counts_far<W: Wire + Drop, L: Ledger, K: Ledger, R: Wait + Abort>(
    rt: &R,
    alloc: Global,
    port: Port<W>,
    clients: Blank,
    tickets: Blank,
) -> Result<(), Fail>
    requires clients { IsBlankFor clients L.name L.parts 1025 }
    requires tickets { IsBlankFor tickets K.name K.parts 1 }
    requires fresh { HasIssued port 0 }
{
    let master = open_one::<W, L, K, Global, R>(rt, alloc, port, clients, tickets)?;
    let mut desk = master.desk(rt, 1)?;
    submit_many(rt, &master, &mut desk, 1_100)?;
    check(rt, master.settle(rt, desk) == Settled::Last(1_100, 1_100));
    check(rt, master.close() == FAR);
    Ok(())
}

/// Refuses a desk that counts in ten bits, and a submit that enters another or a shorter request.
#[test]
fn a_desk_counts_far(rt: HostRuntime) -> Result<(), Fail> {
    let port = numbered_port(rt.alloc(), 0)?;
    let (clients, tickets) = (Blank::new(1025), Blank::new(1));
    counts_far::<_, Brand, Brand, HostRuntime>(&rt, rt.alloc(), port, clients, tickets)
}
