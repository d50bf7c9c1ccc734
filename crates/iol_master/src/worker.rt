//! The worker of a port.
ghost use Rattle.std.specs.Prelude.{◌≡◌, ◌+◌, ◌<◌, ◌^◌};
ghost use Rattle.iol_master.specs.Served.{PortTurn};

use crate::held::Held;
use crate::ports::MasterPort;
use iol_cell::Handle;
use iol_link::Wire;
use std::marker::Model;
use std::sync::ledger::Ledger;
use std::sync::{Mutex, Wait};

/// The worker of a port, which counts the turns that it makes.
///
/// Contracts see that count. Nothing else of a worker reaches the port, so what makes turns by it
/// makes as many as it counts.
#[derive(Drop)]
pub(crate) struct Worker<'m, W: Wire, K: Ledger, A: Handle, P: MasterPort> {
    port: &'m Mutex<Held<W, K, A, P>>,
    made: u64,
}

impl<'m, W: Wire, K: Ledger, A: Handle, P: MasterPort> Model for Worker<'m, W, K, A, P> {
    ghost use Rattle.std.specs.Prelude.{ℕ};

    ghost Value = { ℕ };

    ghost view = { λ w. w.made };
}

impl<'m, W: Wire, K: Ledger, A: Handle, P: MasterPort> Worker<'m, W, K, A, P> {
    /// A worker that made no turn yet.
    pub(crate) fn new(port: &'m Mutex<Held<W, K, A, P>>) -> Worker<'m, W, K, A, P>
        ensures { result ≡ 0 }
    {
        Worker { port, made: 0 }
    }

    /// How many turns it made.
    pub(crate) fn made(&self) -> u64
        ensures { result ≡ self.now }
    {
        self.made
    }

    /// One turn, with the port's lock held.
    ///
    /// The clause says that there was such a turn. That there was no more, and at which port, the
    /// lock hides: row `clients/many_some_wait` of tests/rows holds the one, and test
    /// `two_ports_are_served` of crate iol_master_tests the other.
    pub(crate) fn turn<R: Wait>(&mut self, rt: &R)
        requires { self.old + 1 < 2 ^ 64 }
        ensures counted { self.new ≡ self.old + 1 }
        ensures turned { PortTurn P.facts }
    {
        self.port.lock(rt).make_turn(rt);
        self.made += 1;
    }
}
