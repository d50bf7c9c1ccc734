//! An image: 1 to 32 octets of process data.
ghost use Rattle.std.specs.Prelude.{◌≡◌, ◌↔◌, ℕ, List, IfOk, IsOk, IfErr};
ghost use Rattle.iol_image.specs.Image.{IsImage};
ghost use Rattle.iol_image.specs.declared.fault.ImageFault.TheVariants.{WrongImageLength};

use crate::fault::ImageFault;
use arrayvec::ArrayVec;
use std::marker::Model;

/// Process data of one direction, whole: 1 to 32 octets, as the lengths on direct
/// parameter page 1 allow (B.1).
///
/// A clause sees the list of the octets in the order of the wire. No valid process
/// data is no image: where that is possible there is an `Option<Image>`.
#[derive(Clone, Debug, Drop, PartialEq, Eq)]
pub struct Image {
    octets: ArrayVec<u8, 32>,
}

impl Model for Image {
    ghost Value = { List ℕ };

    ghost view = { λ image. image.octets.items };

    ghost invariant = { λ image. IsImage image.octets.items };

    ghost inverse = { λ octets. record { octets = record { items = octets } } };
}

impl Image {
    /// The image of these octets.
    ///
    /// 29 WrongImageLength: there is no octet, or there are more than 32.
    ///
    /// Rule PD-3.
    pub fn new(octets: &[u8]) -> Result<Image, ImageFault>
        ensures octets { IfOk result (λ image. image ≡ octets.now) }
        ensures length { IsOk result ↔ IsImage octets.now }
        ensures fault { IfErr result (λ fault. fault ≡ WrongImageLength) }
    {
        let octets = ArrayVec::try_from(octets).map_err(|_| ImageFault::WrongImageLength)?;
        Image::of(octets)
    }

    /// The image of these octets, which are not copied.
    ///
    /// 29 WrongImageLength: there is no octet.
    pub fn of(octets: ArrayVec<u8, 32>) -> Result<Image, ImageFault>
        ensures octets { IfOk result (λ image. image ≡ octets.items) }
        ensures length { IsOk result ↔ IsImage octets.items }
        ensures fault { IfErr result (λ fault. fault ≡ WrongImageLength) }
    {
        if octets.is_empty() {
            return Err(ImageFault::WrongImageLength);
        }
        Ok(Image { octets })
    }

    /// Its octets, 1 to 32.
    pub fn octets(&self) -> &[u8]
        ensures octets { result.now ≡ self.now }
        ensures length { IsImage result.now }
    {
        self.octets.as_slice()
    }
}
