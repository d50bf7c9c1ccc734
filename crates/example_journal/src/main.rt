//! A gateway of one port whose journal outlives its process.
//!
//! Each entry is printed, as a line `journal ..`, before the next message goes out: so whoever
//! keeps these lines knows of each request that may have been begun. In place of a UART the line is
//! input and output, as in `example_line`: `wake` or `send A2 00` is answered by `came COM2`,
//! `came 17 1B`, or `came` alone where nothing came. Before it answers, whoever stands there may
//! ask for requests, as `read 40 0` or `write 40 0 01`. `refused 21` is what comes of one that the
//! port refuses. An outcome is printed as `told TICKET ..`.
//!
//! At its start the program reads the lines that were kept, then `start`. What they leave open it
//! tells first: a request that was begun ends as `unknown Restarted`, one that was never begun as
//! `withdrawn`. Then it goes on, with the tickets that follow.
//!
//! `example_journal device` is a device for the far end, a process of its own.
#![tactic(auto)]

mod device;
mod gateway;
mod lines;
mod past;
mod text;

use crate::device::serve_device;
use crate::gateway::serve_gateway;
use anyhow::Result;
use std::alloc::Global;
use std::env;
use std::rt::Runtime;

/// The same for each kind of machine.
fn run<R: Runtime<A = Global>>(rt: &R) -> Result<()> {
    let mut words = env::args(rt)?;
    let _program = words.next();
    match words.next() {
        Some(word) if word.as_str() == "device" => serve_device(rt),
        _ => serve_gateway(rt),
    }
}

fn main(rt: HostRuntime) -> Result<()> {
    run(&rt)
}
