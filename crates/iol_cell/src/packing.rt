//! An image as five words, and back.
ghost use Rattle.std.specs.Prelude.{◌≡◌, ◌+◌, ◌≤◌, ◌++◌, length, drop, take, option_map};
ghost use Rattle.std.specs.Int.{to_le_bytes, w64};
ghost use Rattle.iol_cell.specs.Packing.{image_of, packed_octets, with_padding};

use arrayvec::ArrayVec;
use iol_image::Image;

/// The eight octets from `start` on as a word, the first octet lowest.
fn word_at(octets: &[u8; 32], start: usize) -> u64
    requires { start + 8 ≤ 32 }
    ensures { to_le_bytes w64 result ≡ take 8 (drop start octets.now) }
{
    u64::from_le_bytes([
        octets[start],
        octets[start + 1],
        octets[start + 2],
        octets[start + 3],
        octets[start + 4],
        octets[start + 5],
        octets[start + 6],
        octets[start + 7],
    ])
}

/// The octets of an image, and zeros behind them.
fn padded_octets(image: &Image) -> [u8; 32]
    ensures { result ≡ with_padding image.now }
{
    let octets = image.octets();
    let mut whole = [0u8; 32];
    whole[..octets.len()].copy_from_slice(octets);
    whole
}

/// An image, or none, as the words of a cell.
pub fn words_of(image: Option<&Image>) -> [u64; 5]
    ensures { image_of result ≡ option_map (λ image. image.now) image.entry }
{
    let Some(image) = image else {
        return [0; 5];
    };
    let octets = padded_octets(image);
    [
        image.octets().len() as u64,
        word_at(&octets, 0),
        word_at(&octets, 8),
        word_at(&octets, 16),
        word_at(&octets, 24),
    ]
}

/// Puts the eight octets of a word behind the others, the lowest first.
fn push_word(octets: &mut ArrayVec<u8, 32>, word: u64)
    requires { length octets.old.items + 8 ≤ 32 }
    ensures { octets.new.items ≡ octets.old.items ++ to_le_bytes w64 word }
{
    let _fits = octets.try_extend_from_slice(&word.to_le_bytes());
}

#[tactic(auto, unfolding(crate::specs::Packing::packed_octets))]
/// The 32 octets in the words behind the first.
fn octets_in(words: &[u64; 5]) -> ArrayVec<u8, 32>
    ensures { result.items ≡ packed_octets words.now }
{
    let mut octets = ArrayVec::new();
    push_word(&mut octets, words[1]);
    push_word(&mut octets, words[2]);
    push_word(&mut octets, words[3]);
    push_word(&mut octets, words[4]);
    octets
}

/// The image, or none, that the words of a cell stand for.
pub fn image_in(words: &[u64; 5]) -> Option<Image>
    ensures { result ≡ image_of words.now }
{
    let mut octets = octets_in(words);
    octets.truncate(words[0].min(32) as usize);
    Image::of(octets).ok()
}
