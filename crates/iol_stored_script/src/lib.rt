//! What the lines of a script say that sets up a port with Data Storage, beside those of `run`.
//!
//! The line `store MODE` stands among the settings. Behind it lines may make the calls that such a
//! port has and a plain one hasn't: a [`StorageCall`]. All other lines are those of `run` (crate
//! iol_script): [`plain_text`] is the text that is read as they are. This is this project's own
//! format (profile).
//!
//! Definitions begin in `specs/StorageLines`; then `PlainText`.
#![tactic(auto)]

mod as_plain;
mod storage_line;

pub use as_plain::{StoreLine, mode_of, plain_text};
pub use storage_line::{LoadOctets, StorageCall, StorageLine};
