//! A request, as C sees it.
ghost use Rattle.std.specs.Prelude.{◌≡◌};
ghost use Rattle.iolink_handle.specs.Shown.{RequestIsShown};

use crate::octets::put;
use iol_isdu::{Place, Request};

const READ: u8 = 1;

const WRITE: u8 = 2;

/// A request: a read, or a write of `length` octets.
#[repr(C)]
pub struct IolRequest {
    /// 1 read, 2 write; 0 where there is none.
    pub kind: u8,
    pub sub: u8,
    pub index: u16,
    pub length: u8,
    pub octets: [u8; 232],
}

/// Shows C a request.
pub fn show_request(request: &Request, out: &mut IolRequest)
    ensures { RequestIsShown request.now out.new }
{
    match request {
        Request::Read(place) => {
            out.kind = READ;
            show_place(*place, out);
            out.length = 0;
        }
        Request::Write(place, octets) => {
            out.kind = WRITE;
            show_place(*place, out);
            out.length = octets.len() as u8;
            put(octets.as_slice(), &mut out.octets);
        }
    }
}

fn show_place(place: Place, out: &mut IolRequest)
    ensures { out.new ≡ record out.old { index = place.index; sub = place.sub } }
{
    out.index = place.index;
    out.sub = place.sub;
}
