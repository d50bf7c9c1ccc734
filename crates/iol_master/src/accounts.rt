//! The tally of a master: what its desks and its ports count, kept as one total.
//!
//! Two ledgers have that total: one of 1,025 parts, of the accepted submits, in which each open
//! desk holds a part and the tally the rest; and one with a part for each port, of the tickets that
//! were given. Each submit that is accepted adds one in both, so the sum over all desks that there
//! ever were is the sum over all ports.
ghost use Rattle.std.specs.Prelude.{◌≡◌, ◌+◌, ◌<◌, ◌^◌, true, false};
ghost use Rattle.iol_master.specs.Counts.{Opens, Settles, IsClosed};
ghost use Rattle.iol_master.specs.Ledgers.{IsBlankFor};

use crate::tickets::Tickets;
use std::marker::Model;
use std::sync::ledger::{Blank, Book, Ledger, Share};

/// The most desks that are open at one time: the parts of their ledger but one.
const MOST_DESKS: u32 = 1024;

/// A client's place at a port, with its share of the accepted submits, and those of its tickets
/// that may be outstanding.
///
/// It may go to the client's thread and needs no lock to be read. One that is dropped, and not
/// settled, stays open: its place is lost, what it counted is in the total and in no settled sum,
/// and its tickets stay outstanding until they are collected or abandoned.
#[derive(Drop)]
pub struct Desk<L: Ledger> {
    port: u32,
    accepted: u64,
    share: Share<L>,
    tickets: Tickets,
}

impl<L: Ledger> Model for Desk<L> {
    ghost use Rattle.std.specs.Prelude.{◌≡◌};
    ghost use Rattle.iol_master.specs.Counts.{DeskState};

    ghost Value = { DeskState };

    ghost view = { λ d. record {
      port = d.port;
      accepted = d.share.amount;
      tickets = d.tickets;
    } };

    ghost invariant = { λ d. (d.share.parts ≡ 1) × (d.share.amount ≡ d.accepted) };
}

impl<L: Ledger> Desk<L> {
    /// The port's number.
    pub fn port(&self) -> u32
        ensures { result ≡ self.now.port }
    {
        self.port
    }

    /// How many submits were accepted.
    pub fn accepted(&self) -> u64
        ensures { result ≡ self.now.accepted }
    {
        self.accepted
    }

    /// The tickets that it was given and that may be outstanding.
    pub(crate) fn tickets(&self) -> &Tickets
        ensures { result.now ≡ self.now.tickets }
    {
        &self.tickets
    }

    /// Has these tickets from now on.
    pub(crate) fn keep(&mut self, tickets: Tickets)
        ensures { self.new ≡ record self.old { tickets = tickets } }
    {
        self.tickets = tickets;
    }
}

/// What is told of a desk when it is settled.
#[derive(Clone, Copy, PartialEq, Eq, Debug)]
pub enum Settled {
    /// Its accepted submits; other desks are open.
    Part(u64),
    /// Its accepted submits, and those of all desks that there ever were; no other desk is open.
    Last(u64, u64),
}

/// What a master had counted when it was closed.
#[derive(Clone, Copy, PartialEq, Eq, Debug)]
pub struct Tally {
    /// The desks that were opened and not settled, at most 1,024.
    pub desks: u32,
    /// The accepted submits of all desks that were settled.
    pub settled: u64,
    /// The tickets that all ports gave since the master was opened.
    pub tickets: u64,
}

/// The books of both ledgers, with one total. It lies under the tally's lock.
///
/// Its calls have the exact clauses: what is opened, counted and settled, and what the tally is
/// then. Outside, the lock hides it, and the master's calls say of it what each caller can see.
#[derive(Drop)]
pub(crate) struct Accounts<L: Ledger, K: Ledger> {
    submits: Book<L>,
    tickets: Book<K>,
    /// The parts of the desks that are not open, with what the settled ones had.
    spare: Share<L>,
    total: u64,
    settled: u64,
    desks: u32,
}

impl<L: Ledger, K: Ledger> Model for Accounts<L, K> {
    ghost use Rattle.std.specs.Prelude.{◌≡◌, ◌+◌, ◌<◌};
    ghost use Rattle.iol_master.specs.Counts.{AccountState};

    ghost Value = { AccountState };

    ghost view = { λ a. record { desks = a.desks; settled = a.settled; total = a.total } };

    ghost invariant = { λ a. (a.submits.total ≡ a.total) × (a.tickets.total ≡ a.total)
        × (a.spare.amount ≡ a.settled) × (a.spare.parts + a.desks ≡ 1025) × (0 < a.spare.parts)
        × (L.parts ≡ 1025) };
}

impl<L: Ledger, K: Ledger> Accounts<L, K> {
    /// Both ledgers anew, and the share of all ports.
    pub(crate) fn open(clients: Blank, ports: Blank) -> (Accounts<L, K>, Share<K>)
        requires clients { IsBlankFor clients L.name L.parts 1025 }
        requires ports { (ports.name ≡ K.name) × (ports.parts ≡ K.parts) }
        ensures empty { result.0 ≡ record { desks = 0; settled = 0; total = 0 } }
        ensures share { (result.1.parts ≡ K.parts) × (result.1.amount ≡ 0) }
    {
        let (submits, spare) = clients.open::<L>();
        let (tickets, all) = ports.open::<K>();
        let accounts = Accounts {
            submits,
            tickets,
            spare,
            total: 0,
            settled: 0,
            desks: 0,
        };
        (accounts, all)
    }

    /// A desk at this port, with no submit, where fewer than 1,024 are open; else none.
    pub(crate) fn desk(&mut self, port: u32) -> Option<Desk<L>>
        ensures { Opens self.old port result self.new }
    {
        if self.desks >= MOST_DESKS {
            return None;
        }
        let share = self.spare.split_off(1, 0);
        self.desks += 1;
        Some(Desk {
            port,
            accepted: 0,
            share,
            tickets: Tickets::none(),
        })
    }

    /// Whether the total is 2^64 - 1, the most that it can be.
    pub(crate) fn is_spent(&self) -> bool
        ensures spent { result ≡ true → self.now.total + 1 ≡ 2 ^ 64 }
        ensures room { result ≡ false → self.now.total + 1 < 2 ^ 64 }
    {
        self.total == u64::MAX
    }

    /// Counts a ticket for a desk and for the share of its port.
    pub(crate) fn count(&mut self, desk: &mut Desk<L>, port: &mut Share<K>)
        requires room { self.old.total + 1 < 2 ^ 64 }
        requires port { 0 < port.old.parts }
        ensures accounts { self.new ≡ record self.old { total = self.old.total + 1 } }
        ensures desk { desk.new ≡ record desk.old { accepted = desk.old.accepted + 1 } }
        ensures port { (port.new.parts ≡ port.old.parts) × (port.new.amount ≡ port.old.amount + 1) }
        ensures fits { port.new.amount < 2 ^ 64 }
    {
        let Accounts {
            submits,
            tickets,
            spare: _,
            total,
            settled: _,
            desks: _,
        } = self;
        let Desk {
            port: _,
            accepted,
            share,
            tickets: _,
        } = desk;
        submits.audit(share);
        submits.add(share, 1);
        tickets.audit(port);
        tickets.add(port, 1);
        *total += 1;
        *accepted += 1;
    }

    /// Takes a desk back, with its part and what it counted.
    pub(crate) fn settle(&mut self, desk: Desk<L>) -> Settled
        ensures { Settles self.old desk result self.new }
    {
        let Desk {
            port: _,
            accepted,
            share,
            tickets: _,
        } = desk;
        let Accounts {
            submits,
            tickets: _,
            spare,
            total,
            settled,
            desks,
        } = self;
        spare.merge(share);
        submits.audit(spare);
        *settled += accepted;
        *desks -= 1;
        if *desks == 0 {
            Settled::Last(accepted, *total)
        } else {
            Settled::Part(accepted)
        }
    }

    /// Puts a port's share to those of the others. What they have together is no more than the
    /// total.
    pub(crate) fn gather(&mut self, whole: &mut Share<K>, share: Share<K>)
        ensures same { self.new ≡ self.old }
        ensures parts { whole.new.parts ≡ whole.old.parts + share.parts }
        ensures amount { whole.new.amount ≡ whole.old.amount + share.amount }
        ensures fits { whole.new.amount < 2 ^ 64 }
    {
        let Accounts {
            submits: _,
            tickets,
            spare: _,
            total: _,
            settled: _,
            desks: _,
        } = self;
        whole.merge(share);
        tickets.audit(whole);
    }

    /// The tally, from the shares of all ports and the tickets that these gave.
    pub(crate) fn close(self, whole: Share<K>, issued: u64) -> Tally
        requires parts { whole.parts ≡ K.parts }
        requires amount { whole.amount ≡ issued }
        ensures desks { result.desks ≡ self.desks }
        ensures settled { result.settled ≡ self.settled }
        ensures tickets { (result.tickets ≡ issued) × (issued ≡ self.total) }
        ensures closed { IsClosed result }
    {
        let Accounts {
            mut submits,
            mut tickets,
            mut spare,
            total: _,
            settled,
            desks,
        } = self;
        let mut whole = whole;
        submits.audit(&mut spare);
        tickets.audit(&mut whole);
        Tally {
            desks,
            settled,
            tickets: issued,
        }
    }
}
