//! Tickets are collected and counted, and desks settled.
ghost use Rattle.std.specs.Prelude.{◌≡◌, ◌≤◌, All, IfOk, length, map, vec_len};
ghost use Rattle.std.specs.List.{sum_by};
ghost use Rattle.iol_clients.specs.Counts.{AddsUp, accepted_at};
ghost use Rattle.iol_clients.specs.Counts.{client_state, WasCounted, AreCounted, AreSettled};

use crate::client::Client;
use crate::counts::{PortCounts, RequestCounts};
use iol_link::Wire;
use iol_master::{Master, Settled};
use std::alloc::{AllocError, Global};
use std::sync::Wait;
use std::sync::ledger::Ledger;

/// Collects the tickets of one port's clients, and counts what is answered. Then the port tells
/// what it counted.
///
/// The clause says that this was so at some port. At which one the lock hides: row
/// `clients/many_three_ports` of tests/rows holds it.
fn count_port<W: Wire, L: Ledger, K: Ledger, R: Wait>(
    rt: &R,
    master: &Master<W, L, K>,
    port: u32,
    clients: &[Client<L>],
) -> PortCounts
    requires port { (1 ≤ port) × (port ≤ master.now) }
    requires few { length clients.now ≤ 512 }
    ensures up { AddsUp result.requests }
    ensures tickets { result.requests.tickets
        ≡ sum_by (λ client. accepted_at port client.desk) clients.now }
    ensures counted { WasCounted W port
        (map (λ client. client_state client.desk client.tickets.items) clients.now) result }
{
    let Ok(mut held) = master.lock(rt, port) else {
        unreachable!()
    };
    let mut requests = RequestCounts::none();
    for client in clients {
        client.collect(port, &mut held, &mut requests);
    }
    PortCounts {
        requests,
        counters: *held.counters(),
    }
}

/// Collects all tickets, and counts them by ports. Each port tells what it counted.
pub(crate) fn count_ports<W: Wire, L: Ledger, K: Ledger, R: Wait>(
    rt: &R,
    alloc: Global,
    master: &Master<W, L, K>,
    ports: u32,
    clients: &[Client<L>],
) -> Result<Vec<PortCounts>, AllocError>
    requires ports { ports ≡ master.now }
    requires few { length clients.now ≤ 512 }
    ensures count { IfOk result (λ counts. vec_len counts ≡ ports) }
    ensures up { IfOk result (λ counts. All (λ port. AddsUp port.requests) counts.items) }
    ensures counted { IfOk result (λ counts. AreCounted W 1
        (map (λ client. client_state client.desk client.tickets.items) clients.now) counts.items) }
{
    let mut counts = Vec::new(alloc);
    for port in 0..ports {
        counts.push(count_port(rt, master, port + 1, clients))?;
    }
    Ok(counts)
}

/// Settles all desks. Answers the accepted submits of all, as the last one is told.
pub(crate) fn settle_all<W: Wire, L: Ledger, K: Ledger, R: Wait>(
    rt: &R,
    master: &Master<W, L, K>,
    clients: Vec<Client<L>>,
) -> u64
    ensures { AreSettled
        (map (λ client. client_state client.desk client.tickets.items) clients.items) result }
{
    let mut total = 0;
    for client in clients {
        if let Settled::Last(_, all) = client.settle(rt, master) {
            total = all;
        }
    }
    total
}
