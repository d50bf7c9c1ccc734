//! Which segment of its text a segment is (IEC 61131-9, 7.3.6).
ghost use Rattle.std.specs.Prelude.{◌≡◌};
ghost use Rattle.iol_octets.specs.SegmentNumber.{segment_number, IsSegmentNumber};

/// How many segments have numbers of their own.
const NUMBERS: usize = 16;

/// The number of the segment of this place in its text, the first one's being 0: that of its COUNT,
/// where 15 is followed by 0 (IEC 61131-9, 7.3.6).
pub fn segment_number(place: usize) -> u8
    ensures value { result ≡ segment_number place }
    ensures range { IsSegmentNumber result }
{
    (place % NUMBERS) as u8
}
