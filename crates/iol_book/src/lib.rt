//! The book of a port: each request that a program submitted, from its ticket to
//! its outcome, and the journal of it all.
//!
//! A request waits in a queue until it is taken, is then carried out or cut off,
//! and has an outcome, which the program collects. Each of these steps is an entry
//! of the journal, and the journal alone says where every ticket stands.
//!
//! A request that can't wait for the others is submitted as urgent. There is a queue of urgent
//! requests and one of the others, each in the order of its submits, and the next request is
//! the first urgent one, or the first of the others where no urgent one waits. So the order in
//! which requests are taken is that of the `Taken` entries, and no longer that of the tickets
//! once an urgent request overtook another. One that is taken is never overtaken. A layer above may
//! have a single ticket served for a time, or nobody: what waits then waits on. IEC 61131-9
//! leaves it to the master how requests are queued: all of this is this project's profile.
//!
//! Definitions begin in `specs/Replay`; then `BookModel`, `Drained` and `Takings`. A book is the
//! replay of its journal, and each call answers and leaves exactly what its definition says.
#![tactic(auto)]

mod book;
mod compacting;
mod entries;
mod fault;
mod forgotten;
mod forms;
mod journal;
mod laws;
mod limits;
mod lines;
mod octets;

pub use book::Book;
pub use entries::{Entry, Outcome, Serve, Ticket};
pub use fault::BookFault;
pub use journal::{Entries, Journal};
pub use laws::{abandons_hold, drains_join};
pub use limits::{BusyLimit, JournalLimit, Limits, QueueLimit};
