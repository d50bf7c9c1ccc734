//! Tests of downloads, uploads and attempts at a device's own parameters, as its maker's table has
//! them, and of a port with Data Storage at which units are exchanged.
//!
//! A stage of a test answers whether all of its facts hold, and `sensor::check` asserts that. The
//! prover's work grows with the square of a function's branches and borrows: so a test opens what
//! it needs and checks, and what lives only for a stage, as a set, is opened by the stage.
#![tactic(auto)]

#[cfg(test)]
mod attempts;
#[cfg(test)]
mod exchange;
#[cfg(test)]
mod jobs;
#[cfg(test)]
mod sensor;
