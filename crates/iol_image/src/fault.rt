//! The refusal of an image, and its number.
ghost use Rattle.std.specs.Prelude.{◌≡◌};

use thiserror::Error;

// The numbers of the refusals: their one table, which the definitions cite.
const WRONG_IMAGE_LENGTH: u8 = 29;

/// Why there is no image.
#[derive(Clone, Copy, Debug, PartialEq, Eq, Error)]
pub enum ImageFault {
    /// 29: an image of no octet, or of more than 32.
    #[error("WrongImageLength")]
    WrongImageLength,
}

impl ImageFault {
    ghost use Rattle.iol_image.specs.Fault.{image_fault_number};

    /// Its number (profile): 29 WrongImageLength.
    pub fn code(&self) -> u8
        ensures { result ≡ image_fault_number self.now }
    {
        match self {
            ImageFault::WrongImageLength => WRONG_IMAGE_LENGTH,
        }
    }
}
