//! Both ends of Data Storage together: what a master fetches of a device, and restores at another.
//!
//! The jobs are those of `iol_storage`, the device is that of `iol_params`.
//!
//! Definitions stand in `specs/Exchange`: a device that carries out what a job asks, and nothing
//! else.
#![tactic(auto)]

mod laws;

pub use laws::{fetched_sets_are_the_devices, restored_sets_are_in_force, sets_move};
