//! Direct parameter page 1: what a device says of itself before it is used, and the commands that a
//! master writes there (IEC 61131-9, B.1).
//!
//! Definitions stand in `specs/Page` and `specs/Commands`, those of `specs/Identity` and
//! `specs/Cycle` beside them. A page gives its layouts, or the first of its faults; what it gives
//! are layouts that exist. It says who the device is, and which cycle time it needs.
#![tactic(auto)]

mod capability;
mod cycle;
mod fault;
mod identity;
mod laws;
mod lengths;
mod master_command;
mod page;

pub use capability::Capability;
pub use cycle::{CycleFault, CycleTime};
pub use fault::PageFault;
pub use identity::Identity;
pub use laws::{cycles_are_ordered, pages_ask_for_layouts};
pub use lengths::PdLength;
pub use master_command::MasterCommand;
pub use page::{Layouts, Page};
