//! The parameters of a device, as its maker's table lists them.
//!
//! A [`Manager`] keeps their values, and answers each request of the master: reads and writes
//! with every refusal, blocks that are applied whole or not at all, the device's half of Data
//! Storage, access locks and resets (IEC 61131-9, 10.3, 10.4 and B.2, cited from memory). It
//! stands wholly above a device: `carry` of `specs/Carry` says what it answers and becomes.
//!
//! Definitions: `specs/Members`, `Values`, `Table`, `State`, `Carry`, `Image`; the theorems in
//! `Laws`.
#![tactic(auto)]

mod carry;
mod cells;
mod error_type;
mod image;
mod laws;
mod manager;
mod member;
mod owned;
mod parts;
mod state;
mod storage;
mod table;

pub use error_type::ErrorType;
pub use laws::{
    cut_offs_stay_out, downloads_are_whole, flag_stays, sets_fit, stays_consistent,
    uploads_are_one_moment,
};
pub use manager::Manager;
pub use member::{Access, DataType, IntegerWidth, Member};
pub use owned::{OwnedManager, OwnedTable};
pub use state::{Activity, Command, Locks, Restart, Scope, WritesSoFar};
pub use table::{Flaw, OrderRule, Table, TableFault};
