//! A device with parameters: a table in, a whole device out.
//!
//! A [`SavedManager`] is a `Manager` whose values, locks and flag outlive the power: each change
//! stands in its [`Slots`](iol_slots::Slots) before it is answered. A [`ParamDevice`] hears the
//! line, carries requests out by it, and raises the event that Data Storage waits for.
//!
//! Definitions: `specs/Saved`, `Device`; the theorem in `Laws`.
#![tactic(auto)]

mod device;
mod fault;
mod laws;
mod saved;

pub use device::{ParamDevice, UPLOAD_REQUEST, goes_back};
pub use fault::OpenFault;
pub use laws::cut_changes_are_whole;
pub use saved::{SavedManager, slot_size};
