//! Process data of one direction, whole: an [`Image`] has all its octets (IEC 61131-9, 7.3.4).
//!
//! Its definition is `specs/Image`: 1 to 32 octets, and no image of another length can be made.
#![tactic(auto)]

mod fault;
mod image;

pub use fault::ImageFault;
pub use image::Image;
