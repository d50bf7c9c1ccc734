//! Clients and workers in threads: who submits while turns are made.
ghost use Rattle.std.specs.Prelude.{◌≡◌, ◌≤◌, true, All, IfErr, IfOk, OnOk, map};
ghost use Rattle.std.specs.List.{AllZip};
ghost use Rattle.iol_script.specs.Plan.{numbers_of};
ghost use Rattle.iol_master.specs.Master.{IsPortNumber};
ghost use Rattle.iol_master.specs.Ports.{port_facts};
ghost use Rattle.iol_clients.specs.declared.fault.ClientsFault.TheVariants.{NoThread};
ghost use Rattle.iol_clients.specs.Counts.{client_state};
ghost use Rattle.iol_clients.specs.Submitted.{ArePlansClients, HasSubmitted, HaveTurned};
ghost use Rattle.iol_clients.specs.Submitted.{client_ports, new_client};

use crate::client::Client;
use crate::fault::ClientsFault;
use iol_link::Wire;
use iol_master::{Gate, Master};
use iol_script::Plan;
use std::alloc::{AllocError, Global};
use std::marker::PhantomData;
use std::sync::Wait;
use std::sync::ledger::Ledger;
use std::thread;
use std::thread::{Promise, PromisedHandle, Scope, Threads};

/// A gate that is open: each worker makes all its turns.
struct OpenGate;

impl Gate for OpenGate {
    ghost pass_gives = { λ _ _ _ answer. answer ≡ true };

    fn pass(&self, _port: u32, _turn: u64) -> bool {
        true
    }
}

/// What is promised of a client's thread: at which port it submits, and how often.
#[derive(Drop)]
struct Submitting<W> {
    wire: PhantomData<W>,
    port: u32,
    each: u32,
}

impl<W: Wire, L: Ledger> Promise<Result<Client<L>, AllocError>> for Submitting<W> {
    ghost kept_by = { λ it result. IfOk result (λ client. (client.desk.port ≡ it.port)
        × HasSubmitted (port_facts W.facts) it.each
        (client_state client.desk client.tickets.items)) };
}

/// A client in a thread of its own.
type ClientThread<W, L> = PromisedHandle<Result<Client<L>, AllocError>, Submitting<W>>;

/// Starts the thread of a client at a port, which submits its requests.
fn start<'s, E, W: Wire + Send, L: Ledger + Sync, K: Ledger + Sync, R: Wait + Sync>(
    scope: &Scope<'s, E>,
    rt: &'s R,
    master: &'s Master<W, L, K>,
    client: Client<L>,
    port: u32,
    each: u32,
) -> Result<ClientThread<W, L>, ClientsFault>
    requires port { IsPortNumber master.now port }
    requires new { client_state client.desk client.tickets.items ≡ new_client port }
    requires few { each ≤ 64 }
    ensures refused { IfErr result (λ e. e ≡ NoThread) }
    ensures submits { IfOk result (λ thread. (thread.promise.port ≡ port)
        × (thread.promise.each ≡ each)) }
{
    let submitting = Submitting {
        wire: PhantomData,
        port,
        each,
    };
    scope
        .spawn_with(
            submitting,
            move || -> Result<Client<L>, AllocError>
                requires port { IsPortNumber master.now client.desk.port }
                requires new { client_state client.desk client.tickets.items
                    ≡ new_client client.desk.port }
                requires few { each ≤ 64 }
                ensures { IfOk result (λ it. (it.desk.port ≡ client.desk.port)
                    × HasSubmitted (port_facts W.facts) each
                    (client_state it.desk it.tickets.items)) }
            { client.submit(rt, master, each) },
        )
        .map_err(|_| ClientsFault::NoThread)
}

/// Starts the threads of all clients.
fn start_all<'s, E, W: Wire + Send, L: Ledger + Sync, K: Ledger + Sync, R: Wait + Sync>(
    scope: &Scope<'s, E>,
    rt: &'s R,
    alloc: Global,
    master: &'s Master<W, L, K>,
    plan: Plan,
) -> Result<Vec<ClientThread<W, L>>, ClientsFault>
    requires { plan.ports ≡ master.now }
    ensures ports { IfOk result (λ threads. map (λ thread. thread.promise.port) threads.items
        ≡ client_ports plan.ports plan.clients) }
    ensures each { IfOk result (λ threads.
        All (λ thread. thread.promise.each ≡ plan.each) threads.items) }
{
    let mut threads = Vec::new(alloc);
    for port in 0..plan.ports {
        for _ in 0..plan.clients {
            let client = Client::open(rt, alloc, master, port + 1)?;
            let thread = start(scope, rt, master, client, port + 1, plan.each)?;
            threads.push(thread)?;
        }
    }
    Ok(threads)
}

/// Waits for all clients.
fn join_all<W: Wire, L: Ledger, R: Threads>(
    rt: &R,
    alloc: Global,
    threads: Vec<ClientThread<W, L>>,
) -> Result<Vec<Client<L>>, AllocError>
    ensures { IfOk result (λ clients. AllZip
        (λ thread client. (client.desk.port ≡ thread.promise.port)
        × HasSubmitted (port_facts W.facts) thread.promise.each
        (client_state client.desk client.tickets.items))
        threads.items clients.items) }
{
    let mut clients = Vec::new(alloc);
    for thread in threads {
        clients.push(thread.join(rt)?)?;
    }
    Ok(clients)
}

/// All clients submit while the workers make their turns.
fn submit_beside<
    's,
    E,
    W: Wire + Send,
    L: Ledger + Sync,
    K: Ledger + Sync,
    R: Threads + Wait + Sync,
>(
    scope: &Scope<'s, E>,
    rt: &'s R,
    alloc: Global,
    master: &'s Master<W, L, K>,
    plan: Plan,
) -> Result<Vec<Client<L>>, ClientsFault>
    requires { plan.ports ≡ master.now }
    ensures { IfOk result (λ clients. ArePlansClients (port_facts W.facts) (numbers_of plan)
        (map (λ client. client_state client.desk client.tickets.items) clients.items)) }
{
    let threads = start_all(scope, rt, alloc, master, plan)?;
    make_turns(rt, master, plan)?;
    Ok(join_all(rt, alloc, threads)?)
}

/// The workers make their turns, as many of each port as the plan says.
pub(crate) fn make_turns<W: Wire + Send, L: Ledger, K: Ledger + Sync, R: Threads + Wait + Sync>(
    rt: &R,
    master: &Master<W, L, K>,
    plan: Plan,
) -> Result<(), ClientsFault>
    ensures refused { IfErr result (λ e. e ≡ NoThread) }
    ensures turned { OnOk result
        (HaveTurned (port_facts W.facts) master.now plan.turns) }
{
    master
        .serve(rt, &OpenGate, u64::from(plan.turns))
        .map_err(|_| ClientsFault::NoThread)
}

/// The clients, once all have submitted.
pub(crate) fn submit_all<
    W: Wire + Send,
    L: Ledger + Sync,
    K: Ledger + Sync,
    R: Threads + Wait + Sync,
>(
    rt: &R,
    alloc: Global,
    master: &Master<W, L, K>,
    plan: Plan,
) -> Result<Vec<Client<L>>, ClientsFault>
    requires { plan.ports ≡ master.now }
    ensures { IfOk result (λ clients. ArePlansClients (port_facts W.facts) (numbers_of plan)
        (map (λ client. client_state client.desk client.tickets.items) clients.items)) }
{
    thread::scope(
        thread::scope_env(),
        rt,
        move |scope| -> Result<Vec<Client<L>>, ClientsFault>
            requires { plan.ports ≡ master.now }
            ensures { IfOk result (λ clients. ArePlansClients (port_facts W.facts)
                (numbers_of plan)
                (map (λ client. client_state client.desk client.tickets.items) clients.items)) }
        { submit_beside(scope, rt, alloc, master, plan) },
    )
}
