//! Tests of a device and of its parts, as far as only a Rust caller can say it: memory that is
//! refused, laws that are called, texts of each length. What a device answers is in `tests/rows`.
//! Beside them are those of the allocator that refuses.
//!
//! They stand here, and not beside the code that they call, since a crate with
//! tests of its own is proved twice.
#![tactic(auto)]

#[cfg(test)]
mod device;
#[cfg(test)]
mod event;
#[cfg(test)]
mod number;
#[cfg(test)]
mod refusing;
#[cfg(test)]
mod segment;
