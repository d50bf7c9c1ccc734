//! Copies that take no memory, since what is copied holds its octets in place.
ghost use Rattle.std.specs.Prelude.{◌≡◌};
ghost use Rattle.std.specs.Option.{option_copied};

use iol_image::Image;
use iol_isdu::Request;

pub(crate) fn request_copy(request: &Request) -> Request
    ensures { result ≡ request.now }
{
    request.clone().unwrap()
}

pub(crate) fn copy_of_image(image: Option<&Image>) -> Option<Image>
    ensures { result ≡ option_copied image.entry }
{
    match image {
        Some(image) => Some(image.clone().unwrap()),
        None => None,
    }
}
