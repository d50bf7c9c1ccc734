//! What a turn of the abstract port may be, by examples.
//!
//! For who reads the claim: what it says of runs isn't said of nothing. Each of these turns is one,
//! and none is one any more once some words of it are others, as `must-fail` tries.
//!
//! The abstract port is that of `iol_app`, the examples stand in `specs/Admitted`.
#![tactic(auto)]

mod laws;

pub use laws::turns_admit;
