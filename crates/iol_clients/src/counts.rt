//! What is counted at each port.
ghost use Rattle.std.specs.Prelude.{◌≡◌, ◌+◌, ◌<◌, ◌^◌};

use iol_book::Outcome;
use iol_port::{Counters, PortFault};
use std::alloc::Global;

/// What became of the requests of one port.
#[derive(Clone, Copy, Debug, PartialEq, Eq)]
pub struct RequestCounts {
    /// The submits that a ticket answered.
    pub tickets: u64,
    /// The tickets whose request the device answered.
    pub done: u64,
    /// The tickets whose request was cut off, so that nobody knows whether the
    /// device carried it out.
    pub unknown: u64,
    /// The other tickets: their requests wait, or are under way. None is withdrawn
    /// here, and each device has ISDU.
    pub waiting: u64,
}

/// What there is to tell of one port.
#[derive(Clone, Copy, Debug, PartialEq, Eq)]
pub struct PortCounts {
    /// What became of its requests.
    pub requests: RequestCounts,
    /// What it had counted since its opening, once the tickets were collected.
    pub counters: Counters,
}

/// What there is to tell of all ports.
#[derive(Debug, PartialEq, Eq, Drop)]
pub struct MasterCounts {
    /// The ports in their order, from port 1.
    pub ports: Vec<PortCounts, Global>,
    /// The accepted submits of all desks, as the last desk was told when it was settled.
    pub total: u64,
}

impl RequestCounts {
    ghost use Rattle.iol_clients.specs.Counts.{AddsUp, counts_with_ticket};

    /// No ticket.
    pub(crate) fn none() -> RequestCounts
        ensures { result ≡ record { tickets = 0; done = 0; unknown = 0; waiting = 0 } }
    {
        RequestCounts {
            tickets: 0,
            done: 0,
            unknown: 0,
            waiting: 0,
        }
    }

    /// Counts a ticket by what its `collect` answered.
    pub(crate) fn note(&mut self, answer: &Result<Outcome, PortFault>)
        requires up { AddsUp self.old }
        requires room { self.old.tickets + 1 < 2 ^ 64 }
        ensures noted { self.new ≡ counts_with_ticket self.old answer.now }
        ensures up { AddsUp self.new }
    {
        self.tickets += 1;
        match answer {
            Ok(Outcome::Done(_)) => self.done += 1,
            Ok(Outcome::Unknown(_)) => self.unknown += 1,
            Ok(Outcome::Withdrawn | Outcome::NoIsdu) | Err(_) => self.waiting += 1,
        }
    }
}
