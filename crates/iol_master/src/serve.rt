//! Workers in threads of their own, one for each port.
ghost use Rattle.std.specs.Prelude.{◌≡◌, ◌+◌, ◌≤◌, ℕ, Bool, IfOk, IfErr, length};
ghost use Rattle.iol_master.specs.declared.fault.MasterFault.TheVariants as fault;
ghost use Rattle.iol_master.specs.Served.{IsWorked, Works};

use crate::fault::MasterFault;
use crate::held::Held;
use crate::master::Master;
use crate::ports::MasterPort;
use crate::worker::Worker;
use iol_cell::Handle;
use iol_link::Wire;
use std::alloc::Global;
use std::marker::PhantomData;
use std::snapshot::Snapshot;
use std::sync::ledger::Ledger;
use std::sync::{Mutex, Wait};
use std::thread;
use std::thread::{Promise, PromisedHandle, Scope, Threads};

/// What a worker asks before each turn.
pub trait Gate {
    /// What a call gives, where a gate says it: the gate, the port, the turn, the answer.
    ghost pass_gives: { Self → ℕ → ℕ → Bool → Type 0 } = { λ _ _ _ _. Unit {0} };

    /// Whether the worker of this port goes on to this turn.
    ///
    /// Ports are numbered from 1, and so are turns in each `serve`. The worker holds no lock while
    /// it asks.
    fn pass(&self, port: u32, turn: u64) -> bool
        requires port { (1 ≤ port) × (port ≤ 32) }
        requires turn { 1 ≤ turn }
        ensures { pass_gives self.now port turn result };
}

/// Makes the turns of one port, up to one at which the gate says no. Answers how many it made. The
/// lock is held for one turn at a time.
fn work<W: Wire, K: Ledger, A: Handle, P: MasterPort, G: Gate, R: Wait>(
    rt: &R,
    port: &Mutex<Held<W, K, A, P>>,
    number: u32,
    gate: &G,
    turns: u64,
) -> u64
    requires { (1 ≤ number) × (number ≤ 32) }
    ensures { IsWorked P.facts G.pass_gives gate.now number turns result }
{
    let mut worker = Worker::new(port);
    for turn in 0..turns {
        if !gate.pass(number, turn + 1) {
            break;
        }
        worker.turn(rt);
    }
    worker.made()
}

/// What is promised of a worker's thread: which turns it makes.
#[derive(Drop)]
struct Shift<P, G> {
    port: PhantomData<P>,
    gate: Snapshot<G>,
    number: u32,
    turns: u64,
}

impl<P: MasterPort, G: Gate> Promise<u64> for Shift<P, G> {
    ghost kept_by = { λ shift made.
        IsWorked P.facts G.pass_gives shift.gate.value shift.number shift.turns made };
}

impl<W: Wire + Send, L: Ledger, K: Ledger + Sync, P> Master<W, L, K, Global, P>
where
    P: MasterPort + Send,
{
    /// Makes so many turns of each port, by a worker thread for each, and returns when the workers
    /// have ended.
    ///
    /// Before each turn the worker asks the gate, and ends where it says no; for the turn it takes
    /// its port's lock. Other threads may call the master meanwhile. Refused by 32 where a worker
    /// can't be started, for want of a thread or of memory for one; those already started make
    /// their turns.
    pub fn serve<G: Gate + Sync, R: Threads + Wait + Sync>(
        &self,
        rt: &R,
        gate: &G,
        turns: u64,
    ) -> Result<(), MasterFault>
        ensures refused { IfErr result (λ e. e ≡ fault.NoThread) }
        ensures works { Works P.facts G.pass_gives gate.now 1 (1 + self.now) turns result }
    {
        let ports = self.ports.as_slice();
        thread::scope(
            thread::scope_env(),
            rt,
            |scope| -> Result<(), MasterFault>
                requires { length ports.now ≤ 32 }
                ensures refused { IfErr result (λ e. e ≡ fault.NoThread) }
                ensures works { Works P.facts G.pass_gives gate.entry.now
                    1 (1 + length ports.entry.now) turns result }
            { work_all(scope, rt, ports, 1, gate, turns) },
        )
    }
}

/// Starts the worker of a port.
fn start<
    's,
    E,
    W: Wire + Send,
    K: Ledger + Sync,
    P: MasterPort + Send,
    G: Gate + Sync,
    R: Threads + Wait + Sync,
>(
    scope: &Scope<'s, E>,
    rt: &'s R,
    port: &'s Mutex<Held<W, K, Global, P>>,
    number: u32,
    gate: &'s G,
    turns: u64,
) -> Result<PromisedHandle<u64, Shift<P, G>>, MasterFault>
    requires { (1 ≤ number) × (number ≤ 32) }
    ensures refused { IfErr result (λ e. e ≡ fault.NoThread) }
    ensures shift { IfOk result (λ worker. (worker.promise.gate.value ≡ gate.now)
        × (worker.promise.number ≡ number) × (worker.promise.turns ≡ turns)) }
{
    let shift = Shift {
        port: PhantomData,
        gate: Snapshot::of(gate),
        number,
        turns,
    };
    scope
        .spawn_with(
            shift,
            move || -> u64
                requires { (1 ≤ number) × (number ≤ 32) }
                ensures { IsWorked P.facts G.pass_gives gate.entry.now number turns result }
            { work(rt, port, number, gate, turns) },
        )
        .map_err(|_| MasterFault::NoThread)
}

/// Starts the workers of these ports, of which the first has this number, up to one that can't be
/// started; and waits until they have ended.
fn work_all<
    's,
    E,
    W: Wire + Send,
    K: Ledger + Sync,
    P: MasterPort + Send,
    G: Gate + Sync,
    R: Threads + Wait + Sync,
>(
    scope: &Scope<'s, E>,
    rt: &'s R,
    ports: &'s [Mutex<Held<W, K, Global, P>>],
    first: u32,
    gate: &'s G,
    turns: u64,
) -> Result<(), MasterFault>
    requires { (1 ≤ first) × (first + length ports.now ≤ 33) }
    ensures refused { IfErr result (λ e. e ≡ fault.NoThread) }
    ensures works { Works P.facts G.pass_gives gate.now
        first (first + length ports.now) turns result }
{
    let [port, others @ ..] = ports else {
        return Ok(());
    };
    let worker = start(scope, rt, port, first, gate, turns)?;
    let all = work_all(scope, rt, others, first + 1, gate, turns);
    worker.join(rt);
    all
}
