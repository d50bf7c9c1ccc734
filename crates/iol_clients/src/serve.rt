//! A plan from its ports to its counts.
ghost use Rattle.std.specs.Prelude.{◌≡◌, All, IfOk, vec_len};
ghost use Rattle.iol_clients.specs.Counts.{AddsUp};
ghost use Rattle.iol_clients.specs.Served.{ClientsAreServed};
ghost use Rattle.iol_master.specs.Ledgers.{IsBlankFor};
ghost use Rattle.iol_script.specs.Plan.{numbers_of};
ghost use Rattle.iol_sim.specs.Beside.{plain_facts};
ghost use Rattle.iol_sim.specs.Params.{Stores};
ghost use Rattle.iol_sim.specs.Sim.{sim_facts};

use crate::collect::{count_ports, settle_all};
use crate::counts::MasterCounts;
use crate::fault::ClientsFault;
use crate::ports::open_ports;
use crate::run::{make_turns, submit_all};
use iol_link::Wire;
use iol_master::Master;
use iol_script::Plan;
use iol_sim::{Params, Sim};
use std::alloc::Global;
use std::marker::Brand;
use std::sync::Wait;
use std::sync::ledger::{Blank, Ledger};
use std::thread::Threads;

/// Serves the clients of a plan, and counts what became of their requests.
///
/// Each port stands over a clean wire, at whose far end is a device with the page `17 2D
/// 11 00 00 12 34 00 01 07` and one parameter, 16/0, which is read and has the octets
/// `41 42`. The clients submit their reads of it, each in a thread of its own, while a
/// worker for each port makes the plan's turns; when all have submitted, the workers
/// make as many again. Then each client's tickets are collected, each port tells what it
/// counted, and each desk is settled.
///
/// An `Ok` tells of all clients: so many at each port as the plan says, each of which submitted so
/// often, whether a ticket was answered or not. The clause says of the turns that each port made so
/// many. That it made them twice, it can't say, since a lock hides which ones they were: row
/// `clients/many_some_wait` of tests/rows holds it.
///
/// Refused by 24 where a request for memory is refused, a submit's too, by 32 where a thread
/// can't be started, and by 33 where a client gets no desk. Threads that were started have then
/// ended.
pub fn serve_clients<R: Threads + Wait + Sync>(
    rt: &R,
    alloc: Global,
    plan: &Plan,
) -> Result<MasterCounts, ClientsFault>
    ensures ports { IfOk result (λ counts. vec_len counts.ports ≡ plan.now.ports) }
    ensures up { IfOk result (λ counts.
        All (λ port. AddsUp port.requests) counts.ports.items) }
    ensures served { IfOk result
        (ClientsAreServed (sim_facts (plain_facts Stores)) (numbers_of plan.now)) }
{
    let ports = u64::from(plan.ports);
    with_ledgers::<Brand, Brand, R>(rt, alloc, plan, Blank::new(1025), Blank::new(ports))
}

/// The same, where the blanks name the ledgers: of the desks, and of the ports.
fn with_ledgers<L: Ledger + Sync, K: Ledger + Sync, R: Threads + Wait + Sync>(
    rt: &R,
    alloc: Global,
    plan: &Plan,
    clients: Blank,
    tickets: Blank,
) -> Result<MasterCounts, ClientsFault>
    requires clients { IsBlankFor clients L.name L.parts 1025 }
    requires tickets { IsBlankFor tickets K.name K.parts plan.now.ports }
    ensures ports { IfOk result (λ counts. vec_len counts.ports ≡ plan.now.ports) }
    ensures up { IfOk result (λ counts.
        All (λ port. AddsUp port.requests) counts.ports.items) }
    ensures served { IfOk result
        (ClientsAreServed (sim_facts (plain_facts Stores)) (numbers_of plan.now)) }
{
    let ports = open_ports(alloc, plan.ports)?;
    let opened: Result<Master<Sim<Params>, L, K>, _> = Master::open(alloc, ports, clients, tickets);
    let Ok(master) = opened else {
        return Err(ClientsFault::OutOfMemory);
    };
    let clients = submit_all(rt, alloc, &master, *plan)?;
    make_turns(rt, &master, *plan)?;
    let ports = count_ports(rt, alloc, &master, plan.ports, clients.as_slice())?;
    let total = settle_all(rt, &master, clients);
    let _ = master.close();
    Ok(MasterCounts { ports, total })
}
