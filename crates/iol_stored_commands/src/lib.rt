//! The commands `run` and `trace`, for a script of a port with Data Storage and for one of a plain
//! port.
//!
//! A [`WiredPort`] is a port with Data Storage at a wire. A script's calls are made on it one after
//! the other, and each prints what it answers. A script without a line `store` is what crate
//! iol_commands makes of it.
//!
//! Definitions begin in `specs/Wired`; then `StoredPrinted` and `StoredPlayed`.
#![tactic(auto)]

mod script_run;
mod script_trace;
mod storage_answer;
mod stored_playing;
mod stored_printing;
mod stored_run;
mod stored_trace;
mod stored_tracing;
mod wired_port;

pub use script_run::run_script;
pub use script_trace::trace_script;
pub use storage_answer::StorageAnswer;
pub use wired_port::WiredPort;
