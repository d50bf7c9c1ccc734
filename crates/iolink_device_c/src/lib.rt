//! An IO-Link device for C: a static library, with one export for each call. What carries
//! requests out is C: it sees the request that was handed over, and brings the answer.
//!
//! A handle is a struct of C's own, all zero before it is opened. It says itself
//! whether it is open, so that a call of a closed one is refused, and so is a
//! second close. Each export is the call of [`iol_device::Device`] that it names,
//! of a device that keeps no record, so that it takes no memory once it is open.
//!
//! Each export answers the number of a refusal, or 0. The numbers are those of the
//! library, 1 to 40, and four of its own ([`iolink_handle`]).
//!
//! Definitions stand in `specs/Calls`, `specs/LineCalls` and `specs/Shown`. Each export says of
//! the handle what the call of its name says of the device, with numbers for answers.
#![tactic(auto)]

mod device;
mod held;
mod line;
mod message;
mod process;
mod request;
mod state;
mod trace_line;
