//! What outlives the power: two slots of memory, of which one always has a whole content.
//!
//! The maker's driver says how octets are read and stored, by [`Slots`]. [`save`] puts a content
//! into the slot that isn't the newest, octet by octet, between two marks. Wherever the power
//! fails, [`load`] then finds the content before it, or this one whole, and never a mixture.
//!
//! Definitions: `specs/Memory`, `Images`; the theorems in `Laws`.
#![tactic(auto)]

mod image;
mod laws;
mod ram;
mod slots;

pub use image::{has_size, load, save};
pub use laws::{each_save_is_whole_or_nothing, saves_outlive_power_cuts};
pub use ram::RamSlots;
pub use slots::{Slot, Slots, Store};
