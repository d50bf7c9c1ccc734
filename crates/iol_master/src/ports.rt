//! What a master needs of each of its ports.
ghost use Rattle.std.specs.Prelude.{◌≡◌, ◌≤◌, ◌+◌, ℕ, true, IfOk, IfErr};
ghost use Rattle.iol_book.specs.declared.entries.Ticket.{Ticket};
ghost use Rattle.iol_book.specs.declared.entries.Entry.TheVariants as entry;
ghost use Rattle.iol_book.specs.Replay.{standing_after};
ghost use Rattle.iol_master.specs.Ports.{awaits_client, port_facts};

use crate::fault::MasterFault;
use iol_book::Ticket;
use iol_cell::Handle;
use iol_isdu::Request;
use iol_link::Wire;
use iol_port::Port;
use std::sync::Wait;

/// Before which requests one waits.
#[derive(Clone, Copy, PartialEq, Eq, Debug)]
pub enum DeskUrgency {
    /// Behind all others.
    Ordinary,
    /// Before all but the urgent ones.
    Urgent,
}

/// What a master needs of each of its ports: the calls that it makes itself, each with the port's
/// lock held.
///
/// A [`Port`] has it, and so has a [`StoredPort`](iol_storage::StoredPort) with its wire,
/// [`Wired`](crate::Wired).
pub trait MasterPort {
    ghost use Rattle.iol_master.specs.Ports.{PortFacts};

    /// What it is to a contract: what stands of it under its lock, and what each of these calls
    /// gives.
    ghost facts: { PortFacts Self };

    /// Submits a client's request. Refused, with nothing changed, as the port refuses it.
    fn enter(&mut self, urgency: DeskUrgency, request: Request) -> Result<Ticket, MasterFault>
        ensures is { facts.submits self.old urgency request result self.new }
        ensures refused { IfErr result facts.refuses }
        ensures numbered { IfOk result (λ ticket. 1 ≤ ticket.0) }
        ensures counts { IfOk result (λ _. (count : ℕ) → facts.holds self.old count
            → facts.holds self.new (count + 1)) }
        ensures same { IfErr result (λ _. (count : ℕ) → facts.holds self.old count
            → facts.holds self.new count) };

    /// Whether a ticket of a client is outstanding.
    fn has(&self, ticket: Ticket) -> bool
        ensures { result ≡ awaits_client facts self.now ticket };

    /// Abandons a ticket of a client that is outstanding.
    fn give_up(&mut self, ticket: Ticket)
        requires { awaits_client facts self.old ticket ≡ true }
        ensures is { facts.abandons self.old ticket self.new }
        ensures standing { facts.standing self.new
            ≡ standing_after (facts.standing self.old) (entry.Abandoned ticket) }
        ensures own { (other : Ticket) → facts.own self.new other ≡ facts.own self.old other }
        ensures counts { (count : ℕ) → facts.holds self.old count → facts.holds self.new count };

    /// One turn, by which no submit is accepted.
    fn make_turn<R: Wait>(&mut self, rt: &R)
        requires { (count : ℕ) × facts.holds self.old count }
        ensures is { facts.turns self.old self.new }
        ensures counts { (count : ℕ) → facts.holds self.old count → facts.holds self.new count };
}

impl<W: Wire, A: Handle> MasterPort for Port<W, A> {
    ghost use Rattle.iol_master.specs.Ports.{port_facts};

    ghost facts = { port_facts W.facts };

    fn enter(&mut self, urgency: DeskUrgency, request: Request) -> Result<Ticket, MasterFault> {
        let answer = match urgency {
            DeskUrgency::Ordinary => self.submit(request),
            DeskUrgency::Urgent => self.submit_urgent(request),
        };
        answer.map_err(MasterFault::Port)
    }

    fn has(&self, ticket: Ticket) -> bool {
        self.is_outstanding(ticket)
    }

    fn give_up(&mut self, ticket: Ticket) {
        // It is outstanding, so it isn't refused.
        let _ = self.abandon(ticket);
    }

    fn make_turn<R: Wait>(&mut self, rt: &R) {
        self.turn_shown(rt);
    }
}
