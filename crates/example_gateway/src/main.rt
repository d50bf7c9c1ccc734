//! A gateway: a master of two ports, a client for each in a thread of its own, and a reader of
//! process data who takes no port's lock. Then a third port, with Data Storage, at whose line a
//! sensor is exchanged. The lines are simulated.
//!
//! Of its input the program takes the last line `set ..`: the set that it saved before. A set that
//! the third port has fetched is saved as a line `set ..`.
#![tactic(auto)]

mod cable;
mod exchange;
mod ports;
mod serve;

use crate::exchange::serve_third;
use crate::serve::serve;
use anyhow::Result;
use example_kept::read_backup;
use std::alloc::Global;
use std::marker::Brand;
use std::rt::Runtime;
use std::sync::Wait;
use std::sync::ledger::Blank;
use std::thread::Threads;

/// How many desks a master's ledger has parts for, as `Master::open` wants it.
const DESK_PARTS: u64 = 1025;

/// How many ports there are, as the ledger of their tickets is told.
const PORTS: u64 = 2;

/// The same for each kind of machine: it has threads, and may wait.
fn run<R: Runtime<A = Global> + Threads + Wait + Sync>(rt: &R) -> Result<()> {
    let backup = read_backup(rt)?;
    serve::<Brand, Brand, R>(rt, rt.alloc(), Blank::new(DESK_PARTS), Blank::new(PORTS))?;
    serve_third::<Brand, R>(rt, rt.alloc(), backup, Blank::new(1))
}

fn main(rt: HostRuntime) -> Result<()> {
    run(&rt)
}
