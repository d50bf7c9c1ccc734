//! A master: several ports, each under a lock of its own, and the clients that submit requests
//! there.
//!
//! A client has a [`Desk`] at a port, which counts its accepted submits. A worker for each port
//! makes its turns ([`Master::serve`]). Each call on a port, while its lock is held, is one call of
//! the abstract port that it stands for (crate iol_port), and the lock's type keeps that the port's
//! record fits its journal. A port may have Data Storage ([`Master::open_stored`]): then a
//! [`StoredPort`](iol_storage::StoredPort) and its wire lie under its lock.
//!
//! A worker of a master holds its port's lock for a whole turn, as the wire lies under it too. On a
//! line whose exchanges take their time a [`Line`] serves better: its [`LineWorker`] owns the wire
//! and calls it without the lock, so that no client waits for an exchange. Under its lock lies a
//! [`PortCore`](iol_port::PortCore), or a [`StoredPort`](iol_storage::StoredPort), by which a
//! device is exchanged without a tool.
#![tactic(auto)]

mod accounts;
mod fault;
mod held;
mod line;
mod master;
mod ports;
mod serve;
mod tickets;
mod wired;
mod worker;

pub use accounts::{Desk, Settled, Tally};
pub use fault::MasterFault;
pub use held::Held;
pub use line::{Line, LineCore, LinePort, LineWorker};
pub use master::Master;
pub use ports::{DeskUrgency, MasterPort};
pub use serve::Gate;
pub use wired::Wired;
