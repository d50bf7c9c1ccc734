//! The buffers of messages and of their parts.
ghost use Rattle.std.specs.Prelude.{◌≡◌, ◌+◌, ◌<◌, ◌≤◌, ◌%◌, length, replicate, slice_index, slice_set, [], ◌∷◌, ◌++◌, IsTrue};
ghost use Rattle.arrayvec.specs.ArrayVec.{array_vec_len};
ghost use Rattle.iol_octets.specs.Checksum.{checksum_of, has_checksum, with_checksum};
ghost use Rattle.iol_mseq.specs.Parts.{first_of_zeros};
ghost use Rattle.iol_mseq.specs.Texts.{closed_by};

use arrayvec::ArrayVec;
use iol_octets::{OdLength, checksum6};

/// The octets of a master message, at most 66, or of a reply, at most 65.
pub type Message = ArrayVec<u8, 66>;

/// The octets of one part of a message: on-request data, or process data in or out.
pub type Part = ArrayVec<u8, 32>;

/// As many zeros as the longest message has octets.
const ZEROS: [u8; 66] = [0; 66];

/// A part with these octets, at most 32.
pub fn part_of(octets: &[u8]) -> Part
    requires { length octets.now ≤ 32 }
    ensures { result.items ≡ octets.now }
{
    let mut part = Part::new();
    fill(&mut part, octets);
    part
}

/// Puts these octets, at most 32, into a part that is empty.
pub(crate) fn fill(part: &mut Part, octets: &[u8])
    requires empty { part.old.items ≡ [] }
    requires most { length octets.now ≤ 32 }
    ensures { part.new.items ≡ octets.now }
{
    // Many a part has no octet.
    if !octets.is_empty() {
        part.try_extend_from_slice(octets).unwrap();
    }
}

/// So many zeros, at most 32.
pub fn zeros(size: u8) -> Part
    requires { size ≤ 32 }
    ensures { result.items ≡ replicate size 0 }
{
    part_of(&ZEROS[..size as usize])
}

/// The on-request data of the page and diagnosis channels: the first octet is meant, the others
/// are 0 (profile).
///
/// Rule MSG-6.
pub fn first_of_zeros(size: OdLength, octet: u8) -> Part
    ensures { result.items ≡ first_of_zeros size octet }
{
    let mut part = zeros(size.get());
    part[0] = octet;
    part
}

/// The octet that is meant on the page and diagnosis channels: the first, 0 where there is none.
///
/// Rule MSG-6.
pub fn first(octets: &[u8]) -> u8
    ensures { result ≡ slice_index octets.now 0 }
{
    match octets {
        [octet, ..] => *octet,
        [] => 0,
    }
}

/// Puts a part at the end.
pub fn append(message: &mut Message, part: &[u8])
    requires { array_vec_len message.old + length part.now ≤ 66 }
    ensures { message.new.items ≡ message.old.items ++ part.now }
{
    // Many a part has no octet.
    if !part.is_empty() {
        message.try_extend_from_slice(part).unwrap();
    }
}

/// Puts so many zeros at the end.
pub fn append_zeros(message: &mut Message, size: u8)
    requires { array_vec_len message.old + size ≤ 66 }
    ensures { message.new.items ≡ message.old.items ++ replicate size 0 }
{
    append(message, &ZEROS[..size as usize]);
}

/// Puts the on-request data of the page and diagnosis channels at the end: the
/// first octet is meant, the others are 0.
pub fn append_first(message: &mut Message, size: OdLength, octet: u8)
    requires { array_vec_len message.old + size ≤ 66 }
    ensures { message.new.items ≡ message.old.items ++ first_of_zeros size octet }
{
    message.push(octet);
    append_zeros(message, size.get() - 1);
}

/// Puts an octet into a place.
fn write_octet(message: &mut Message, place: usize, octet: u8)
    requires { place < array_vec_len message.old }
    ensures { message.new.items ≡ slice_set message.old.items place octet }
{
    message[place] = octet;
}

/// Puts the checksum into the octet at a place, whose low six bits are 0.
#[tactic(auto, using(crate::proofs::Masks::or_low))]
pub(crate) fn seal(octets: &mut Message, place: usize)
    requires place { place < array_vec_len octets.old }
    requires clear { slice_index octets.old.items place % 64 ≡ 0 }
    ensures value { octets.new.items ≡ with_checksum place octets.old.items }
    ensures small { checksum_of octets.old.items < 64 }
    ensures sealed { IsTrue (has_checksum place octets.new.items) }
{
    let octet = octets[place] | checksum6(octets);
    write_octet(octets, place, octet);
}

/// Puts the last octet of a reply at the end: these bits, and the checksum of all.
pub(crate) fn push_sealed(octets: &mut Message, bits: u8)
    requires room { array_vec_len octets.old < 66 }
    requires clear { bits % 64 ≡ 0 }
    ensures value { octets.new.items ≡ closed_by octets.old.items bits }
    ensures small { checksum_of (octets.old.items ++ bits ∷ []) < 64 }
    ensures sealed { IsTrue (has_checksum (array_vec_len octets.old) octets.new.items) }
{
    let place = octets.len();
    octets.push(bits);
    seal(octets, place);
}
