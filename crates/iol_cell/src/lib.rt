//! Process data for readers without the lock, whole or none.
//!
//! A cell (profile) hands the last published [`Image`](iol_image::Image), or none, from
//! one `ImageWriter` to up to 16 readers, each with an `ImageSeat` of its own. The image
//! is kept in five words, its length and its octets, which are read and written as one: no
//! reader sees a mix of two images, and none takes the lock of the port that publishes.
//!
//! Definitions begin in `specs/Published`; then `Packing` and `Steps`. What a seat reads was
//! published, and never goes back to an older image.
#![tactic(auto)]

mod cell;
mod fault;
mod handle;
mod laws;
mod packing;
mod steps;

pub use cell::{ImageSeat, ImageWriter, image_cell};
pub use fault::CellFault;
pub use handle::Handle;
pub use laws::each_step_keeps_the_rule;
