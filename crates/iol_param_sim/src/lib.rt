//! A table of parameters beside a simulated device.
//!
//! [`Parameters`] stands beside the device of a [`Sim`](iol_sim::Sim): it answers requests by a
//! `Manager` of a table, raises the event that Data Storage waits for, ends an activity where the
//! device goes back, and has what was saved last behind a power cycle.
//!
//! Definitions: `specs/Parameters`.
#![tactic(auto)]

mod parameters;

pub use parameters::Parameters;
