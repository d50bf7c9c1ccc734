//! The program `iol_long`: two clients that never stop, at one port over a line that loses.
//!
//! `iol_long COUNT SEED` has them submit so many requests, by chances that the seed decides. The
//! journal is drained now and then. A plain list stands beside the port: of each request what the
//! device answered, what its client was told, and what the drained journals say. Once all of a
//! request is told its row is dropped, so the list is short however long it lasts. What isn't as it
//! has to be ends the program; else it prints how much came of what, and ends with its input, so
//! that its memory can be looked at. Without words it does nothing.
//!
//! `iol_long COUNT SEED unkept` does the same at a port that keeps no journal.
#![tactic(auto)]

mod chance;
mod client;
mod counts;
mod did;
mod fault;
mod line;
mod plain;
mod row;
mod station;

use crate::fault::LongFault;
use crate::station::{Keeps, Station};
use std::alloc::Global;
use std::rt::Runtime;
use std::{env, io};

/// Reads the command line, and does what it says.
fn work<R: Runtime<A = Global>>(rt: &R) -> Result<(), LongFault> {
    let mut words = env::args(rt)?;
    let _program = words.next();
    let Some(count) = words.next() else {
        return Ok(());
    };
    let count = number_of(Some(count))?;
    let seed = number_of(words.next())?;
    let keeps = match words.next() {
        Some(word) if word.as_str() == "unkept" => Keeps::Nothing,
        _ => Keeps::Journal,
    };
    let mut station = Station::open(rt.alloc(), seed, keeps)?;
    station.serve(count)?;
    println!(rt; "{}", station.counts())?;
    let _ = rt.read_line(&mut String::new(rt.alloc()))?;
    Ok(())
}

/// The number that a word says.
fn number_of(word: Option<String>) -> Result<u64, LongFault> {
    let Some(word) = word else {
        return Err(LongFault::BadNumber);
    };
    match word.as_str().parse::<u64>() {
        Ok(number) => Ok(number),
        Err(_) => Err(LongFault::BadNumber),
    }
}

fn main(rt: HostRuntime) -> Result<(), LongFault> {
    work(&rt)
}
