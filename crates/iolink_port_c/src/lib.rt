//! A port of an IO-Link master for C: a static library, with one export for each call.
//!
//! A handle is a struct of C's own, all zero before it is opened. It says itself whether it
//! is open, so that a call of a closed one is refused, and so is a second close. Each export
//! is the call of [`iol_port::PortCore`] that it names: C asks what goes out, uses its line, and
//! brings what came. Between the two every other call may come, but a restart. Nothing is asked
//! of what came.
//!
//! Each export answers the number of a refusal, or 0. The numbers are those of the
//! library, 1 to 40, and four of its own ([`iolink_handle`]).
#![tactic(auto)]

mod archive;
mod counters;
mod device;
mod held;
mod line;
mod loss;
mod port;
mod request;
mod state;
mod trace_line;
