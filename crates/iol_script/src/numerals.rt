//! Numbers and octets as words: hexadecimal octets, and decimal numbers.
ghost use Rattle.std.specs.Prelude.{◌≡◌, ◌+◌, ◌*◌, ◌<◌, ◌≤◌, ◌^◌, ◌↔◌, ℕ, Some, IfSome, is_some, option_map, option_and_then};
ghost use Rattle.std.specs.List.{list_all};
ghost use Rattle.std.specs.Char.{digit_value};
ghost use Rattle.std.specs.Fmt.{decimal};
ghost use Rattle.std.specs.Option.{SomeIff};
ghost use Rattle.std.specs.Str.Parse.{AllDigits, digits_value};
ghost use Rattle.iol_script.specs.Numerals.{digit_of, octet_of_digits, word_octet, word_code, octets_of_pairs, word_octets, octets_of_words, octets_within, number_in, is_plain_of};
ghost use Rattle.iol_script.specs.Text.{words_left};

use crate::parts::Words;
use arrayvec::ArrayVec;

/// The value of a hexadecimal digit, in both cases.
fn digit(c: u8) -> Option<u8>
    ensures value { result ≡ digit_of c }
    ensures small { IfSome result (λ d. d < 16) }
{
    match c {
        b'0'..=b'9' => Some(c - b'0'),
        b'A'..=b'F' => Some(c - b'A' + 10),
        b'a'..=b'f' => Some(c - b'a' + 10),
        _ => None,
    }
}

/// The octet of two hexadecimal digits, in both cases.
fn octet_of(high: u8, low: u8) -> Option<u8>
    ensures { result ≡ octet_of_digits high low }
{
    Some(digit(high)? * 16 + digit(low)?)
}

/// The octet of a word of two hexadecimal digits, in both cases.
pub fn hexadecimal_octet(word: &[u8]) -> Option<u8>
    ensures { result ≡ word_octet word.now }
{
    match word {
        [high, low] => octet_of(*high, *low),
        _ => None,
    }
}

/// The number of a word of four hexadecimal digits, in both cases.
pub fn hexadecimal_code(word: &[u8]) -> Option<u16>
    ensures { result ≡ word_code word.now }
{
    match word {
        [a, b, c, d] => Some(u16::from(octet_of(*a, *b)?) * 256 + u16::from(octet_of(*c, *d)?)),
        _ => None,
    }
}

/// The octets of pairs of hexadecimal digits, up to `N`.
#[tactic(auto, using(crate::proofs::OctetsLemmas::behind_whole))]
fn pairs_of<const N: usize>(word: &[u8]) -> Option<ArrayVec<u8, N>>
    ensures { option_map (λ octets. octets.items) result
        ≡ option_and_then (octets_within 0 N) (octets_of_pairs word.now) }
{
    let mut octets = ArrayVec::new();
    let mut left = word;
    while let [high, low, later @ ..] = left {
        if octets.is_full() {
            return None;
        }
        octets.push(octet_of(*high, *low)?);
        left = later;
    }
    if left.is_empty() { Some(octets) } else { None }
}

/// The octets of one word of pairs of hexadecimal digits, in both cases, up to `N`;
/// `-` stands for none.
pub fn hexadecimal_octets<const N: usize>(word: &[u8]) -> Option<ArrayVec<u8, N>>
    ensures { option_map (λ octets. octets.items) result
        ≡ option_and_then (octets_within 0 N) (word_octets word.now) }
{
    match word {
        [] => None,
        b"-" => Some(ArrayVec::new()),
        _ => pairs_of(word),
    }
}

/// Whether a word gives octets in pairs of digits, or none by `-`, and how many is
/// from `least` to `most`.
pub(crate) fn fits_octets(word: &[u8], least: usize, most: usize) -> bool
    ensures { result ≡ is_some (option_and_then (octets_within least most) (word_octets word.now)) }
{
    match word {
        [] => false,
        b"-" => least == 0,
        _ => are_pairs(word, least, most),
    }
}

/// Whether they are pairs of hexadecimal digits, from `least` to `most` of them.
fn are_pairs(word: &[u8], least: usize, most: usize) -> bool
    ensures { result
        ≡ is_some (option_and_then (octets_within least most) (octets_of_pairs word.now)) }
{
    let count = word.len() / 2;
    if word.len() > 2 * count {
        return false;
    }
    if count < least || count > most {
        return false;
    }
    are_digits(word)
}

/// Whether all are hexadecimal digits.
fn are_digits(word: &[u8]) -> bool
    ensures { result ≡ list_all (λ c. is_some (digit_of c)) word.now }
{
    word.iter().all(|c| digit(*c).is_some())
}

/// The octets of words of two hexadecimal digits each, up to `N`.
#[tactic(auto, using(crate::proofs::OctetsLemmas::behind_whole))]
pub fn parted_octets<const N: usize>(words: Words) -> Option<ArrayVec<u8, N>>
    ensures { option_map (λ octets. octets.items) result
        ≡ option_and_then (octets_within 0 N) (octets_of_words (words_left words.entry)) }
{
    let mut octets = ArrayVec::new();
    for word in words {
        if octets.is_full() {
            return None;
        }
        octets.push(hexadecimal_octet(word)?);
    }
    Some(octets)
}

/// Whether a word has no sign, and no zero before another digit.
fn is_plain(word: &[u8]) -> bool
    ensures { result ≡ is_plain_of word.now }
{
    match word {
        [] | [b'+', ..] | [b'0', _, ..] => false,
        _ => true,
    }
}

/// The number with one more decimal digit behind its own.
fn with_digit(number: u64, digit: u8) -> Option<u64>
    ensures { SomeIff result ((digit_value digit < 10)
        × (number * 10 + digit_value digit < 2 ^ 64)) (number * 10 + digit_value digit) }
{
    if !digit.is_ascii_digit() {
        return None;
    }
    number.checked_mul(10)?.checked_add(u64::from(digit - b'0'))
}

/// The number that decimal digits write.
fn number_of_digits(word: &[u8]) -> Option<u64>
    ensures { SomeIff result (AllDigits 10 word.now × (digits_value 10 word.now < 2 ^ 64))
        (digits_value 10 word.now) }
{
    let mut number = 0;
    for digit in word {
        number = with_digit(number, *digit)?;
    }
    Some(number)
}

/// The number whose decimal text is the word, without leading zeros.
fn plain_number(word: &[u8]) -> Option<u64>
    ensures { (n : ℕ) → n < 2 ^ 64 → (result ≡ Some n) ↔ (word.now ≡ decimal n) }
{
    if !is_plain(word) {
        return None;
    }
    number_of_digits(word)
}

/// A decimal number without leading zeros, from `least` to `most`.
pub fn decimal_number(word: &[u8], least: u64, most: u64) -> Option<u64>
    ensures value { result ≡ number_in least most word.now }
    ensures least { IfSome result (λ n. least ≤ n) }
    ensures most { IfSome result (λ n. n ≤ most) }
{
    let number = plain_number(word)?;
    if number < least || number > most {
        return None;
    }
    Some(number)
}
