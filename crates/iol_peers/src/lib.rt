//! Test vectors and test wires, for tests alone: pages of devices, a start-up as a table
//! of octets, and wires of which nothing is promised.
#![tactic(auto)]

mod pages;
mod tables;
mod wires;

pub use pages::{ONE_OCTET, PLAIN, PROCESS_DATA};
pub use tables::{Exchange, STARTUP};
pub use wires::{AnyWire, Peer, Table};
