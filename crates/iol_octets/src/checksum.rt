//! The checksum of a message (IEC 61131-9, A.1.6).
ghost use Rattle.std.specs.Prelude.{◌≡◌, ◌<◌, length};
ghost use Rattle.iol_octets.specs.Checksum.{checksum_of, six_bits_of, seeded_xor, has_checksum, ChecksumFits};

/// What the fold over the octets starts with.
const SEED: u8 = 0x52;

/// The checksum, 0 to 63, of a message or a reply (IEC 61131-9, A.1.6).
///
/// `octets` is the whole of it, with the six bits where the checksum goes as 0. One
/// pass, nothing copied.
///
/// Rule CHK-1.
#[tactic(auto, unfolding(crate::specs::Checksum::checksum_of))]
pub fn checksum6(octets: &[u8]) -> u8
    ensures value { result ≡ checksum_of octets.now }
    ensures small { result < 64 }
    ensures fits { ChecksumFits octets.now }
{
    compress(fold(octets))
}

/// Whether the low six bits of the octet at `place` are the checksum of the octets
/// (IEC 61131-9, A.1.6).
///
/// `octets` is a whole message or reply as it came. One pass, nothing copied.
///
/// Rule CHK-2.
pub fn has_checksum6(octets: &[u8], place: usize) -> bool
    requires { place < length octets.now }
    ensures { result ≡ has_checksum place octets.now }
{
    let sum = octets[place] & 63;
    // A second XOR takes the six bits out of the fold again.
    sum == compress(fold(octets) ^ sum)
}

/// The XOR of the seed and all octets.
fn fold(octets: &[u8]) -> u8
    ensures { result ≡ seeded_xor octets.now }
{
    octets.iter().fold(SEED, |sum, octet| sum ^ *octet)
}

/// The six bits that each eight become (IEC 61131-9, A.1.6).
#[rattlefmt::skip]
static SIX_BITS: [u8; 256] = [
    0, 17, 33, 48, 18, 3, 51, 34, 34, 51, 3, 18, 48, 33, 17, 0,
    20, 5, 53, 36, 6, 23, 39, 54, 54, 39, 23, 6, 36, 53, 5, 20,
    36, 53, 5, 20, 54, 39, 23, 6, 6, 23, 39, 54, 20, 5, 53, 36,
    48, 33, 17, 0, 34, 51, 3, 18, 18, 3, 51, 34, 0, 17, 33, 48,
    24, 9, 57, 40, 10, 27, 43, 58, 58, 43, 27, 10, 40, 57, 9, 24,
    12, 29, 45, 60, 30, 15, 63, 46, 46, 63, 15, 30, 60, 45, 29, 12,
    60, 45, 29, 12, 46, 63, 15, 30, 30, 15, 63, 46, 12, 29, 45, 60,
    40, 57, 9, 24, 58, 43, 27, 10, 10, 27, 43, 58, 24, 9, 57, 40,
    40, 57, 9, 24, 58, 43, 27, 10, 10, 27, 43, 58, 24, 9, 57, 40,
    60, 45, 29, 12, 46, 63, 15, 30, 30, 15, 63, 46, 12, 29, 45, 60,
    12, 29, 45, 60, 30, 15, 63, 46, 46, 63, 15, 30, 60, 45, 29, 12,
    24, 9, 57, 40, 10, 27, 43, 58, 58, 43, 27, 10, 40, 57, 9, 24,
    48, 33, 17, 0, 34, 51, 3, 18, 18, 3, 51, 34, 0, 17, 33, 48,
    36, 53, 5, 20, 54, 39, 23, 6, 6, 23, 39, 54, 20, 5, 53, 36,
    20, 5, 53, 36, 6, 23, 39, 54, 54, 39, 23, 6, 36, 53, 5, 20,
    0, 17, 33, 48, 18, 3, 51, 34, 34, 51, 3, 18, 48, 33, 17, 0,
];

/// Eight bits to six, each the parity of some of the eight.
///
/// Rule CHK-1.
fn compress(sum: u8) -> u8
    ensures value { result ≡ six_bits_of sum }
    ensures small { result < 64 }
{
    SIX_BITS[usize::from(sum)]
}
