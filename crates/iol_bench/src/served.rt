//! Several ports, each served by a worker of its own.
ghost use Rattle.std.specs.Prelude.{◌≡◌, ◌≤◌, ◌<◌, All, IfOk, vec_len};
ghost use Rattle.iol_master.specs.Tickets.{HasIssued};
ghost use Rattle.iol_master.specs.Ledgers.{IsBlankFor};

use crate::check_word::CheckWord;
use crate::devices::{PLAIN, STARTUP, opened};
use crate::fault::BenchFault;
use iol_app::Mode;
use iol_master::{Gate, Master};
use iol_page::Page;
use iol_port::Port;
use iol_sim::{Params, Sim};
use std::alloc::Global;
use std::marker::Brand;
use std::sync::Wait;
use std::sync::ledger::{Blank, Ledger};
use std::thread::Threads;

/// A gate that is open: each worker makes all its turns.
struct Open;

impl Gate for Open {
    fn pass(&self, _port: u32, _turn: u64) -> bool {
        true
    }
}

/// So many turns of each port, made by workers, once all links are in OPERATE.
#[inline(never)]
pub(crate) fn ports<R: Threads + Wait + Sync>(
    rt: &R,
    alloc: Global,
    ports: u32,
    count: u64,
) -> Result<CheckWord, BenchFault>
    requires { (1 ≤ ports) × (ports ≤ 32) }
{
    let tickets = Blank::new(u64::from(ports));
    with_ledgers::<Brand, Brand, R>(rt, alloc, ports, count, Blank::new(1025), tickets)
}

/// The same, where the blanks name the ledgers: of the desks, and of the ports.
fn with_ledgers<L: Ledger + Sync, K: Ledger + Sync, R: Threads + Wait + Sync>(
    rt: &R,
    alloc: Global,
    ports: u32,
    count: u64,
    clients: Blank,
    tickets: Blank,
) -> Result<CheckWord, BenchFault>
    requires count { (1 ≤ ports) × (ports ≤ 32) }
    requires clients { IsBlankFor clients L.name L.parts 1025 }
    requires tickets { IsBlankFor tickets K.name K.parts ports }
{
    let opened = opened_ports(alloc, ports)?;
    let master: Result<Master<Sim<Params>, L, K>, _> = Master::open(
        alloc, opened, clients, tickets,
    );
    let Ok(master) = master else {
        return Err(BenchFault::OutOfMemory);
    };
    master.serve(rt, &Open, u64::from(STARTUP))?;
    master.serve(rt, &Open, count)?;
    let mut word = CheckWord::new();
    for port in 1..=ports {
        if master.lock(rt, port)?.status().mode != Mode::Operate {
            return Err(BenchFault::Unexpected);
        }
        word.add(u64::from(port));
    }
    word.add(master.close().tickets);
    Ok(word)
}

/// So many ports, which gave no ticket yet.
fn opened_ports(alloc: Global, count: u32) -> Result<Vec<Port<Sim<Params>>>, BenchFault>
    ensures count { IfOk result (λ v. vec_len v ≡ count) }
    ensures fresh { IfOk result (λ v. All (λ p. HasIssued p 0) v.items) }
{
    let mut ports = Vec::new(alloc);
    for _ in 0..count {
        let page = Page::from_octets(&PLAIN);
        let port = opened(alloc, page, None, Vec::new(alloc))?;
        ports.push(port)?;
    }
    Ok(ports)
}
