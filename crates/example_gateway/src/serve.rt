//! The master: its clients, its workers, and the reader of process data.
ghost use Rattle.iol_master.specs.Ledgers.{IsBlankFor};

use crate::ports::{PLACE, open_port};
use anyhow::{Result, bail};
use iol_book::Ticket;
use iol_cell::image_cell;
use iol_isdu::Request;
use iol_link::Wire;
use iol_master::{Desk, Gate, Master, MasterFault};
use iol_sim::{Params, Sim};
use std::alloc::Global;
use std::sync::Wait;
use std::sync::ledger::{Blank, Ledger};
use std::thread;
use std::thread::{Scope, Threads};

/// How many turns each port makes: more than the 15 of a start-up and the 3 of a read.
const TURNS: u64 = 25;

/// A gate that is open: each worker makes all its turns.
struct Open;

impl Gate for Open {
    fn pass(&self, _port: u32, _turn: u64) -> bool {
        true
    }
}

/// A client: its desk at a port, and the ticket of its read there.
type Client<L> = (Desk<L>, Ticket);

/// A client opens a desk at a port, and submits a read there.
fn submit<W: Wire, L: Ledger, K: Ledger, R: Wait>(
    rt: &R,
    master: &Master<W, L, K>,
    port: u32,
) -> Result<Client<L>, MasterFault> {
    let mut desk = master.desk(rt, port)?;
    let ticket = master.submit(rt, &mut desk, Request::read(PLACE))?;
    Ok((desk, ticket))
}

/// A client collects and prints what it read, and closes its desk: a ticket that it left would be
/// abandoned then.
fn finish<W: Wire, L: Ledger, K: Ledger, R: Print + Wait>(
    rt: &R,
    master: &Master<W, L, K>,
    client: Client<L>,
) -> Result<()> {
    let (desk, ticket) = client;
    let port = desk.port();
    let outcome = master.lock(rt, port)?.collect(ticket)?;
    println!(rt; "port {port}: {outcome:?}")?;
    master.settle(rt, desk);
    Ok(())
}

/// The threads of two clients submit, while the workers make their turns.
fn submit_beside<
    's,
    E,
    W: Wire + Send,
    L: Ledger + Sync,
    K: Ledger + Sync,
    R: Threads + Wait + Sync,
>(scope: &Scope<'s, E>, rt: &'s R, master: &'s Master<W, L, K>) -> Result<(Client<L>, Client<L>)> {
    let Ok(first) = scope.spawn(move || submit(rt, master, 1)) else {
        bail!("no thread");
    };
    let Ok(second) = scope.spawn(move || submit(rt, master, 2)) else {
        bail!("no thread");
    };
    master.serve(rt, &Open, TURNS)?;
    Ok((first.join(rt)?, second.join(rt)?))
}

/// Two clients, each of which submitted in a thread of its own.
fn submit_both<W: Wire + Send, L: Ledger + Sync, K: Ledger + Sync, R: Threads + Wait + Sync>(
    rt: &R,
    master: &Master<W, L, K>,
) -> Result<(Client<L>, Client<L>)> {
    thread::scope(
        thread::scope_env(),
        rt,
        move |scope| -> Result<(Client<L>, Client<L>)> { submit_beside(scope, rt, master) },
    )
}

/// Serves two clients, and prints what they read, and the process data of the first
/// port. The blanks name the ledgers of the master: of its desks, and of its ports.
pub fn serve<L: Ledger + Sync, K: Ledger + Sync, R: Print + Threads + Wait + Sync>(
    rt: &R,
    alloc: Global,
    clients: Blank,
    tickets: Blank,
) -> Result<()>
    requires clients { IsBlankFor clients L.name L.parts 1025 }
    requires tickets { IsBlankFor tickets K.name K.parts 2 }
{
    let (writer, seats) = image_cell(rt, alloc, 1)?;
    let mut first = open_port(alloc, 215)?;
    first.publish_to(writer);
    let ports = vec![in alloc; first, open_port(alloc, 198)?]?;
    let opened: Result<Master<Sim<Params>, L, K>, _> = Master::open(alloc, ports, clients, tickets);
    let Ok(master) = opened else {
        bail!("no memory");
    };
    let (one, two) = submit_both(rt, &master)?;
    master.serve(rt, &Open, TURNS)?;
    finish(rt, &master, one)?;
    finish(rt, &master, two)?;
    for mut seat in seats {
        println!(rt; "process data of port 1: {:?}", seat.read(rt))?;
    }
    Ok(())
}
