//! An IO-Link device with parameters for C: a static library, with one export for each call.
//!
//! C gives a table, and what it saved before. A request is carried out by the table: what changes
//! what outlives the power waits until C has saved it, and has its answer then. No call goes back
//! to C.
//!
//! A handle is a struct of C's own, as that of `iolink_device_c`. What a call makes of what lies
//! behind it is in `specs/Work`; each export says so of its handle, in `specs/Calls`, with numbers
//! for answers. The numbers are those of the library, 1 to 59, six of its own, and 1 where an image
//! is to be saved.
#![tactic(auto)]

mod device;
mod held;
mod line;
mod open;
mod parameters;
mod process;
mod rows;
mod saving;
mod sensor;
