//! Tests of ports, of their parts and of lines, as far as only a Rust caller can say it: memory
//! that is refused, a wire that is handed back, types that have a mode, seats that read while
//! another thread writes, a line that is claimed to be honest.
//!
//! What a port answers to what goes in is in `tests/rows`. Beside the tests this crate has
//! the laws of a port over a simulated wire that need both: whose application answered the
//! record's requests. And the law that a wake may be answered without a reset.
//!
//! A test makes a wire, and hands it to functions that are generic over it: what is asked of a port
//! over a known wire takes the prover longer.
#![tactic(auto)]

mod laws;

pub use laws::{
    first_app_follows_record, ports_show_what_devices_had, pulses_are_missed,
    record_is_answered_by_the_first_params,
};

#[cfg(test)]
mod abandons;
#[cfg(test)]
mod answers;
#[cfg(test)]
mod bare_ports;
#[cfg(test)]
mod book;
#[cfg(test)]
mod cancels;
#[cfg(test)]
mod cell;
#[cfg(test)]
mod device;
#[cfg(test)]
mod drains;
#[cfg(test)]
mod honest;
#[cfg(test)]
mod journals;
#[cfg(test)]
mod links;
#[cfg(test)]
mod parameters;
#[cfg(test)]
mod ports;
#[cfg(test)]
mod serves;
#[cfg(test)]
mod sim;
#[cfg(test)]
mod small;
#[cfg(test)]
mod starts;
#[cfg(test)]
mod stations;
#[cfg(test)]
mod tap;
