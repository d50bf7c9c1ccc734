//! The wire as a master sees it, and one message that is sent over it until a good reply comes.
//!
//! A [`Wire`] makes one exchange at a time: octets go out, and the octets of a
//! reply come back or nothing does. Its contract speaks of the device at its far
//! end, as far as the wire is honest. A [`Handler`] holds the message that is out,
//! and sends it up to three times in a row (IEC 61131-9, 7.3.3).
//!
//! Definitions begin in `specs/WireFacts` and `specs/Honest`: what a wire is to a contract, and
//! what an honest one may do. An attempt makes one exchange of the message's octets and is judged
//! by what came back alone.
#![tactic(auto)]

mod handler;
mod laws;
mod wire;

pub use handler::{Attempt, AttemptView, Handler, MAX_RETRY};
pub use laws::{damaged_replies_are_unread, exchanges_keep_ends_level};
pub use wire::{Rate, Wire};
