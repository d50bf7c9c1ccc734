//! The far end of the line as a value: what a device does with octets and by
//! itself, and how level both ends are.
//!
//! Little code runs here: what a message says to a device, as [`command_in`]. The definitions are
//! in `specs/`, and each law of them is carried by a function that does nothing. The master's
//! crates and the device's stand on them alike (IEC 61131-9, 7.3 and Annexes A and B; the
//! behaviour that the standard leaves open is a profile of this project).
//!
//! Definitions begin in `specs/Far`, with `hear`; then `Isdu`, `Local` and `Record`, and `Level`:
//! how far a request has come between both ends, whatever the kind of device. The laws say what
//! hearing, repeating and losing leave.
#![tactic(auto)]

mod carried;
mod hearing;
mod kind;
mod laws;
mod mode;
mod mode_command;

pub use carried::Carried;
pub use hearing::{command_in, flow_of, is_confirm, message_in, mode_asked};
pub use kind::{HandsOver, Kind, Recalls};
pub use laws::{
    devices_leave_their_mode, ends_stay_level, events_stay_until_confirmed,
    hearing_again_changes_nothing, links_stay_level, messages_are_heard, modes_have_layouts,
    page_and_room_stay, parts_stay_regular, replies_are_read, requests_are_received,
    texts_are_heard,
};
pub use mode::DeviceMode;
pub use mode_command::ModeCommand;
