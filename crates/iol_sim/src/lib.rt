//! A wire that is simulated: a device stands at its far end, and a script says what
//! happens to it and to each call.
//!
//! A [`Sim`] loses and damages messages as its script says. With one device it is an honest wire
//! whatever the script; with two, which the script exchanges, it is not.
//! A [`Raw`] answers given messages in order, and is not honest.
//! [`Params`] is an application for the device: parameters that are read and written.
//! A [`Tap`] stands round any wire, is as honest as that, and keeps a note of its last call: so a
//! trace of any length takes no memory.
//!
//! Definitions begin in `specs/Script` and `specs/Sim`. A script whose steps have ended is a clean
//! wire. `specs/Tapped`: the wire within, with the note.
#![tactic(auto)]

mod beside;
mod fault;
mod params;
mod raw;
mod script;
mod sim;
mod stand;
mod tap;

pub use beside::{Beside, Nothing};
pub use fault::SimFault;
pub use params::{ParameterEntry, Params};
pub use raw::Raw;
pub use script::{ChangeOctets, Fate, Step};
pub use sim::Sim;
pub use tap::{Tap, TapNote};
