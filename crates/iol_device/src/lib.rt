//! The device's end of the line: it hears master messages, and answers them.
//!
//! A [`Device`] holds direct parameter page 1, the state of one ISDU, the event memory, the
//! process data of both directions and the record of the requests that its [`App`] carried out.
//! What it does with octets is the definition `hear`, for all octets whatever (IEC 61131-9, 7.3
//! and Annexes A and B; the behaviour that the standard leaves open is a profile of this project).
//!
//! Definitions: `hear` of iol_far; here `specs/Device`, `Hearing`, `Number`, `Silence` and `App`.
//! Of all octets a device answers and becomes exactly what `hear` says; each pair of its record is
//! one call of its application.
#![tactic(auto)]

mod app;
mod data;
mod device;
mod far_end;
mod fault;
mod isdu;
mod record;

pub use app::{Apart, App};
pub use device::Device;
pub use fault::DeviceFault;
pub use iol_far::{Carried, DeviceMode};
pub use record::{FullRecord, NoRecord, Record};
