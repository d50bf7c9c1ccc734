//! The tickets of a desk, and what becomes of them at their port.
ghost use Rattle.std.specs.Prelude.{◌≡◌, ◌<◌, ◌≤◌, ◌==◌, ◌∷◌, ◌++◌, [], filter, length};
ghost use Rattle.iol_master.specs.Ports.{awaits_client};
ghost use Rattle.iol_master.specs.Left.{LeavesNone};

use crate::ports::MasterPort;
use iol_book::Ticket;
use std::marker::Model;

/// The most tickets of a desk: as many as a port may have outstanding.
const MOST_TICKETS: usize = 64;

/// At most 64 tickets, in the order in which they were given.
#[derive(Drop)]
pub(crate) struct Tickets {
    places: [Ticket; MOST_TICKETS],
    count: usize,
}

impl Model for Tickets {
    ghost use Rattle.std.specs.Prelude.{◌≤◌, List, take};
    ghost use Rattle.iol_book.specs.declared.entries.Ticket.{Ticket};

    ghost Value = { List Ticket };

    ghost view = { λ t. take t.count t.places };

    ghost invariant = { λ t. t.count ≤ 64 };
}

impl Tickets {
    /// No ticket.
    pub(crate) fn none() -> Tickets
        ensures { result ≡ [] }
    {
        Tickets {
            places: [Ticket(0); MOST_TICKETS],
            count: 0,
        }
    }

    /// Whether there are 64.
    pub(crate) fn is_full(&self) -> bool
        ensures value { result ≡ (length self.now == 64) }
        ensures few { length self.now ≤ 64 }
    {
        self.as_slice().len() == MOST_TICKETS
    }

    /// Puts one behind the others.
    pub(crate) fn push(&mut self, ticket: Ticket)
        requires { length self.old < 64 }
        ensures { self.new ≡ self.old ++ ticket ∷ [] }
    {
        self.places[self.count] = ticket;
        self.count += 1;
    }

    pub(crate) fn as_slice(&self) -> &[Ticket]
        ensures value { result.now ≡ self.now }
        ensures few { length result.now ≤ 64 }
    {
        &self.places[..self.count]
    }
}

/// Those of these tickets that are outstanding at a port.
pub(crate) fn outstanding_of<P: MasterPort>(port: &P, tickets: &Tickets) -> Tickets
    ensures { result ≡ filter (awaits_client P.facts port.now) tickets.now }
{
    let mut outstanding = Tickets::none();
    for ticket in tickets.as_slice() {
        if port.has(*ticket) {
            outstanding.push(*ticket);
        }
    }
    outstanding
}

/// Abandons a ticket, where it is outstanding.
///
/// Once is enough, as each ticket of a port names one request. No clause of a port says so.
fn abandon<P: MasterPort>(port: &mut P, ticket: Ticket)
    ensures { LeavesNone P.facts port.old (ticket ∷ []) port.new }
{
    while port.has(ticket) {
        port.give_up(ticket);
    }
}

/// Abandons those of these tickets that are outstanding.
pub(crate) fn abandon_each<P: MasterPort>(port: &mut P, tickets: &[Ticket])
    ensures { LeavesNone P.facts port.old tickets.now port.new }
{
    for ticket in tickets {
        abandon(port, *ticket);
    }
}
