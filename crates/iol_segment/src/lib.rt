//! The texts of the ISDU channel of IO-Link, cut into segments and joined again
//! (IEC 61131-9, 7.3.6).
//!
//! A text, of a request of the master or of the device's answer, goes in as many messages
//! as it takes, one segment each, under START and then COUNT 1, 2 and on. [`Cutter`]
//! gives the segments of a text, of which it keeps no copy; [`Joiner`] takes them, tells
//! a repeated one from the next, and gives the request or the answer. Nothing allocates.
//!
//! Definitions begin in `specs/Cut` and `specs/Join`. The segments of a text, joined, give that
//! text; a repeated segment changes nothing, and every other flow is refused.
#![tactic(auto)]

mod append;
mod cutter;
mod joiner;
mod laws;
mod source;
mod took;

pub use cutter::{Cutter, Segment};
pub use joiner::Joiner;
pub use laws::{cut_is_whole, segments_join, sources_are_texts, texts_join};
pub use source::{Reaction, Source};
pub use took::{JoinFault, Took};
