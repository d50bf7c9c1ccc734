//! A port and its wire, as they lie under a master's lock.
ghost use Rattle.std.specs.Prelude.{◌≡◌, ◌≤◌, IfOk, IfErr};
ghost use Rattle.iol_port.specs.CorePort.{awaited_answer};
ghost use Rattle.iol_port.specs.declared.awaited.AwaitedAnswer.TheVariants as AwaitedAnswer;
ghost use Rattle.iol_master.specs.Wired.{IsWiredTurn, StoredSubmits, WiredRefuses, as_master};

use crate::fault::MasterFault;
use crate::line::LineCore;
use crate::ports::{DeskUrgency, MasterPort};
use iol_app::Transmission;
use iol_book::Ticket;
use iol_isdu::Request;
use iol_link::Wire;
use iol_storage::{StoredFault, StoredPort};
use std::alloc::Allocator;
use std::marker::Model;
use std::sync::Wait;

/// A port without a wire, and the wire to its device.
///
/// So a [`StoredPort`] can be one of a master's ports, whose sensors are exchanged without a tool.
#[derive(Drop)]
pub struct Wired<W: Wire, P: LineCore> {
    pub(crate) port: P,
    pub(crate) wire: W,
}

impl<W: Wire, P: LineCore> Model for Wired<W, P> {
    ghost use Rattle.iol_master.specs.Wired.{WiredParts};

    ghost Value = { WiredParts W P };

    ghost view = { λ w. record { port = w.port; wire = w.wire } };
}

impl<W: Wire, P: LineCore> Wired<W, P> {
    /// This port at this wire.
    pub fn new(port: P, wire: W) -> Wired<W, P>
        ensures { result ≡ record { port = port; wire = wire } }
    {
        Wired { port, wire }
    }

    /// One wake-up request where the link is down, else one exchange with the device.
    pub fn turn(&mut self)
        requires { P.facts.awaits self.old.port ≡ AwaitedAnswer.Nothing }
        ensures is { IsWiredTurn W.facts P.facts self.old self.new }
        ensures rests { P.facts.awaits self.new.port ≡ AwaitedAnswer.Nothing }
    {
        match self.port.send() {
            Transmission::Wake => {
                let rate = self.wire.wake();
                self.port.receive_wake(rate);
            }
            Transmission::Exchange(out) => {
                let received = self.wire.exchange(out.octets.as_slice());
                self.port.receive(&received);
            }
        }
    }
}

/// The port's submit, or its urgent one.
fn submit_as<A: Allocator + Copy>(
    port: &mut StoredPort<A>,
    urgency: DeskUrgency,
    request: Request,
) -> Result<Ticket, StoredFault>
    ensures is { StoredSubmits port.old urgency request result port.new }
    ensures refused { IfErr result (λ why. WiredRefuses (as_master why)) }
    ensures numbered { IfOk result (λ ticket. 1 ≤ ticket.0) }
    ensures rests { awaited_answer port.old.port ≡ AwaitedAnswer.Nothing
        → awaited_answer port.new.port ≡ AwaitedAnswer.Nothing }
{
    match urgency {
        DeskUrgency::Ordinary => port.submit(request),
        DeskUrgency::Urgent => port.submit_urgent(request),
    }
}

/// The refusal of a port with Data Storage as its master's.
fn refusal(fault: StoredFault) -> MasterFault
    ensures { result ≡ as_master fault }
{
    match fault {
        StoredFault::Port(why) => MasterFault::Port(why),
        other => MasterFault::Stored(other),
    }
}

impl<W: Wire, A: Allocator + Copy> MasterPort for Wired<W, StoredPort<A>> {
    ghost use Rattle.iol_master.specs.Wired.{wired_facts};

    ghost facts = { wired_facts W.facts };

    fn enter(&mut self, urgency: DeskUrgency, request: Request) -> Result<Ticket, MasterFault> {
        submit_as(&mut self.port, urgency, request).map_err(refusal)
    }

    fn has(&self, ticket: Ticket) -> bool {
        self.port.is_outstanding(ticket)
    }

    fn give_up(&mut self, ticket: Ticket) {
        // It is outstanding, so it isn't refused.
        let _ = self.port.abandon(ticket);
    }

    fn make_turn<R: Wait>(&mut self, _: &R) {
        self.turn();
    }
}
