//! A port's messages are by the rules: a watch that is told them blames none.
//!
//! The watch is that of `iol_judge`, the port `PortCore` of `iol_port`.
//!
//! Definitions stand in `specs/Line`: what is done at a port with a line of one's own, and what
//! the watch is told of it.
#![tactic(auto)]

mod laws;

pub use laws::ports_are_by_the_rules;
