//! The program `iol_bench`: the work of the stack, done so often that it can be timed from outside.
//!
//! `iol_bench CASE COUNT` does the work of a case so many times, and prints a word
//! that everything which came out of it has a part in. Without words it does nothing,
//! and prints nothing. A plain Rust program of the same rules, with the same cases
//! and words, stands in `tests/bench/plain`; docs/speed.md has what the two need.
#![tactic(auto)]

mod case;
mod check_word;
mod devices;
mod fault;
mod messages;
mod requests;
mod scripts;
mod seats;
mod served;
mod turns;

use crate::case::Case;
use crate::fault::BenchFault;
use std::alloc::Global;
use std::rt::Runtime;
use std::sync::Wait;
use std::thread::Threads;
use std::{env, io};

/// Reads the command line, and does what it says.
fn work<R: Runtime<A = Global> + Threads + Wait + Sync>(rt: &R) -> Result<(), BenchFault> {
    let mut words = env::args(rt)?;
    let _program = words.next();
    let Some(name) = words.next() else {
        return Ok(());
    };
    let case = name.as_str().parse::<Case>()?;
    let count = count_of(words.next())?;
    report(rt, name.as_str(), case, count)
}

/// How often the second word says.
fn count_of(word: Option<String>) -> Result<u64, BenchFault> {
    let Some(word) = word else {
        return Err(BenchFault::BadCount);
    };
    match word.as_str().parse::<u64>() {
        Ok(count) => Ok(count),
        Err(_) => Err(BenchFault::BadCount),
    }
}

/// Does the work of a case so many times, and prints what came out of it.
fn report<R: Runtime<A = Global> + Threads + Wait + Sync>(
    rt: &R,
    name: &str,
    case: Case,
    count: u64,
) -> Result<(), BenchFault> {
    let word = case.run(rt, count)?;
    println!(rt; "{name} {count} {word}")?;
    Ok(())
}

fn main(rt: HostRuntime) -> Result<(), BenchFault> {
    work(&rt)
}
