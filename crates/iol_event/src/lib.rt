//! Events: the event memory of a device, the octets that it shows on the diagnosis
//! channel, and the master's reader of them.
//!
//! A device freezes up to six events where the master can read them, and keeps up
//! to 32 more waiting until the master confirms. The master reads the StatusCode,
//! then the octets of each place that it marks (IEC 61131-9, A.6 and 7.3.8).
//!
//! Definitions begin in `specs/Memory`; then `Reading`. Reading a memory's octets gives its frozen
//! list after 1 + 3n octets, in the order of the places.
#![tactic(auto)]

mod event;
mod faults;
mod laws;
mod list;
mod memory;
mod reader;
mod status;

pub use event::Event;
pub use faults::{EventForm, MemoryFull};
pub use laws::{
    memory_stays_valid, reading_gives_the_frozen_list, reading_gives_the_marked_places,
};
pub use list::EventList;
pub use memory::EventMemory;
pub use reader::EventReader;
