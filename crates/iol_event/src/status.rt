//! The StatusCode of the diagnosis channel.
ghost use Rattle.std.specs.Prelude.{◌≡◌, ◌+◌, ◌-◌, ◌^◌, ◌<◌, ◌≤◌, ◌==◌, EachIndex, slice_index};
ghost use Rattle.std.specs.Int.{bit_at};
ghost use Rattle.iol_event.specs.Reading.{marked_places, is_readable};

use arrayvec::ArrayVec;

/// Where the StatusCode is read.
pub(crate) const STATUS_CODE: u8 = 0x00;

/// The bit of a StatusCode with details.
const DETAILS: u8 = 7;

/// The places of the event memory.
const PLACES: [u8; 6] = [1, 2, 3, 4, 5, 6];

/// Places, in rising order.
pub(crate) type Places = ArrayVec<u8, 6>;

/// The StatusCode that marks the first `count` places.
///
/// Rule EVT-4.
#[tactic(auto, using(crate::proofs::Places::bit_or_status))]
pub(crate) fn status_with(count: usize) -> u8
    requires { count ≤ 6 }
    ensures { result ≡ 128 + (2 ^ count - 1) }
{
    0x80 | ((1 << count) - 1)
}

/// The places that the StatusCode marks.
pub(crate) fn marked_places(status: u8) -> Places
    ensures value { result.items ≡ marked_places status }
    ensures range { EachIndex result.items (λ k. (1 ≤ slice_index result.items k)
        × (slice_index result.items k ≤ 6)) }
{
    let mut places = Places::new();
    for place in &PLACES {
        if has_bit(status, *place - 1) {
            places.push(*place);
        }
    }
    places
}

/// Whether the StatusCode is one with details, and marks a place.
///
/// Rule EVT-7.
pub(crate) fn is_readable(status: u8) -> bool
    ensures { result ≡ is_readable status }
{
    has_bit(status, DETAILS) && !marked_places(status).is_empty()
}

fn has_bit(octet: u8, bit: u8) -> bool
    requires { bit < 8 }
    ensures { result ≡ (bit_at octet bit == 1) }
{
    (octet >> bit) & 1 == 1
}
