//! Many ports, clients and workers over the simulated wire.
//!
//! [`serve_clients`] opens a master whose ports stand over clean wires, lets clients in threads
//! of their own submit while its workers make turns, counts what became of the tickets, and tells
//! what the ports counted.
//!
//! Its definitions begin in `specs/Served`: which clients there are, what each of them submits
//! (`Submitted`), and what is counted (`Counts`).
#![tactic(auto)]

mod client;
mod collect;
mod counts;
mod fault;
mod ports;
mod run;
mod serve;

pub use counts::{MasterCounts, PortCounts, RequestCounts};
pub use fault::ClientsFault;
pub use serve::serve_clients;
