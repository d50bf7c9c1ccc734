//! A port of an IO-Link master with Data Storage for C: a static library, with one export for each
//! call.
//!
//! Each export is the call of [`iol_storage::StoredPort`] that it names. C saves the sets that the
//! port has fetched, as octets, and gives the last one back at the next opening. The writes of a
//! block gather behind the handle until they are submitted.
//!
//! A handle is a struct of C's own, as that of `iolink_port_c`. Each export answers the number of a
//! refusal, or 0. The numbers are those of the library, 1 to 62, and four of its own
//! ([`iolink_handle`]).
#![tactic(auto)]

mod block;
mod device;
mod held;
mod journal;
mod line;
mod open;
mod request;
mod shown;
mod state;
mod storage;
