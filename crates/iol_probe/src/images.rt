//! The line of an image.
use crate::printing::{print_named, print_refused};
use iol_image::Image;
use std::alloc::AllocError;

/// Octets, and the image that they are.
pub(crate) fn answer_image(output: &mut String, octets: &[u8]) -> Result<(), AllocError> {
    match Image::new(octets) {
        Ok(image) => print_named(output, "image", image.octets()),
        Err(fault) => print_refused(output, fault.code(), &fault),
    }
}
