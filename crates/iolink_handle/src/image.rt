//! Process data, as C sees it.
ghost use Rattle.std.specs.Prelude.{unwrap_or, []};
ghost use Rattle.iolink_handle.specs.Shown.{AreShown};

use crate::octets::put;
use iol_image::Image;

/// Process data: `length` octets, none where that is 0.
#[repr(C)]
pub struct IolImage {
    pub length: u8,
    pub octets: [u8; 32],
}

/// Shows C process data, no octet where there is none.
pub fn show_image(image: Option<Image>, out: &mut IolImage)
    ensures { AreShown (unwrap_or image []) out.new.length out.new.octets }
{
    match image {
        Some(image) => {
            out.length = image.octets().len() as u8;
            put(image.octets(), &mut out.octets);
        }
        None => out.length = 0,
    }
}
