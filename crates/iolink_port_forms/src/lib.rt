//! What the libraries for C of a port have in common: what C gives by numbers, and what it is shown
//! of what goes out, of outcomes, of the link, of what was counted, and of a journal.
//!
//! Definitions stand in `specs/Arguments`, `specs/Shown`, `specs/Answers` and `specs/Journal`.
#![tactic(auto)]

mod counters;
mod device;
mod journal;
mod loss;
mod message;
mod opening;
mod outcome;
mod request;
mod state;

pub use counters::{IolCounters, counters_of};
pub use device::{IolPage, cycle_of, identity_of, show_counting, show_page};
pub use journal::{IolEntry, RetainedJournal};
pub use loss::{IolLoss, loss_of};
pub use message::{IolMessage, show_message};
pub use opening::{devices_of, limits_of};
pub use outcome::{IolOutcome, cause_number, show_outcome};
pub use request::{Urgency, code_of};
pub use state::{IolEvent, IolStatus, show_event, show_status};
