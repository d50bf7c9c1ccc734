//! Data Storage and blocks at a port.
mod fault;
mod port;
mod standing;
mod storage;

pub use fault::StoredFault;
pub use port::StoredPort;
pub use standing::{Agreement, StorageStanding, Trouble};
pub use storage::{BlockTicket, Retry, SetNumber, Storage, StorageJob};
