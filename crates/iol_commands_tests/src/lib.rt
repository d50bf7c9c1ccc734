//! What only a Rust caller can do with the program's commands, as tests: readers and writers that
//! fail at each read or write, an allocator that refuses each request in turn, and the numbers
//! and names of faults. What an input prints is a row of `tests/rows`.
#![tactic(auto)]

#[cfg(test)]
mod faults;
#[cfg(test)]
mod memory;
#[cfg(test)]
mod streams;
