//! What several lines of `run` have.
ghost use Rattle.std.specs.Prelude.{◌≡◌, ◌∷◌, ℕ, List, [], is_some, option_map, option_and_then, MatchOption};
ghost use Rattle.std.specs.Str.{bytes_eq};
ghost use Rattle.iol_script.specs.Numerals.{number_in, octets_within, word_octets};
ghost use Rattle.iol_script.specs.RunLines.{image_form, place_of_words, parameter_octets};
ghost use Rattle.iol_script.specs.Text.{words_left};

use crate::numerals::{decimal_number, fits_octets, hexadecimal_octets};
use crate::parts::Words;
use arrayvec::ArrayVec;
use iol_image::Image;
use iol_isdu::{Octets, Place};

/// Whether a word is this name. Names are short, so octets are compared one by one.
pub(crate) fn is(word: &[u8], name: &[u8]) -> bool
    ensures { result ≡ bytes_eq word.now name.now }
{
    word.len() == name.len() && word.iter().zip(name).all(|(octet, wanted)| octet == wanted)
}

/// No word is left.
pub(crate) fn end_of(mut words: Words) -> Option<()>
    ensures { MatchOption result ((word : List ℕ) × (rest : List (List ℕ))
        × (words_left words.entry ≡ word ∷ rest)) (λ _. words_left words.entry ≡ []) }
{
    match words.next() {
        None => Some(()),
        Some(_) => None,
    }
}

/// An index and a subindex.
pub(crate) fn place_of(index: &[u8], sub: &[u8]) -> Option<Place>
    ensures { result ≡ place_of_words index.now sub.now }
{
    let index = decimal_number(index, 0, 65_535)? as u16;
    let sub = decimal_number(sub, 0, 255)? as u8;
    Some(Place { index, sub })
}

/// The octets of a parameter, up to 232.
pub(crate) fn value_of(word: &[u8]) -> Option<Octets>
    ensures { option_map (λ octets. octets.items) result ≡ parameter_octets word.now }
{
    hexadecimal_octets(word)
}

/// 1 to 100,000.
pub(crate) fn count_of(word: &[u8]) -> Option<u32>
    ensures { result ≡ number_in 1 100000 word.now }
{
    Some(decimal_number(word, 1, 100_000)? as u32)
}

/// An image, or `none` for none.
pub(crate) fn parse_image(mut words: Words) -> Option<Option<Image>>
    ensures { result ≡ image_form (words_left words.entry) }
{
    let word = words.next()?;
    end_of(words)?;
    if is(word, b"none") {
        Some(None)
    } else {
        Some(Some(image_of(word)?))
    }
}

/// The image of a word, 1 to 32 octets.
fn image_of(word: &[u8]) -> Option<Image>
    ensures { result ≡ option_and_then (octets_within 1 32) (word_octets word.now) }
{
    let octets: ArrayVec<u8, 32> = hexadecimal_octets(word)?;
    Image::new(octets.as_slice()).ok()
}

/// Whether a word gives the octets of a parameter.
pub(crate) fn fits_value(word: &[u8]) -> bool
    ensures { result ≡ is_some (parameter_octets word.now) }
{
    fits_octets(word, 0, 232)
}

/// Whether the words give an image, or `none`.
#[tactic(auto, using(iol_sim::proofs::Scripts::mapped_some))]
pub(crate) fn fits_image(mut words: Words) -> bool
    ensures { result ≡ is_some (image_form (words_left words.entry)) }
{
    match words.next() {
        Some(word) => end_of(words).is_some() && (is(word, b"none") || fits_octets(word, 1, 32)),
        None => false,
    }
}
