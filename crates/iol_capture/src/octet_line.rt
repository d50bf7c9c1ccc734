//! What a line of a decoder's export says.
ghost use Rattle.std.specs.Prelude.{◌≡◌, ◌==◌, Some};
ghost use Rattle.std.specs.List.{position};
ghost use Rattle.iol_capture.specs.OctetLines.{digit_behind, digits_behind, nanoseconds, octet_form, octet_of, parts_form, time_form, word_form};

use crate::export::ExportForm;

/// The digits behind the point down to nanoseconds.
pub(crate) const PLACES: usize = 9;

const ZEROS: [u8; PLACES] = [b'0'; PLACES];

/// What a line says.
#[derive(Clone, Copy, Debug, PartialEq, Eq)]
pub enum OctetLine {
    /// Nothing: it is blank, or a comment, which begins with `#`.
    Other,
    /// Something else than octets.
    Skipped,
    /// How the lines behind it are written.
    Form(ExportForm),
    /// An octet, and the time in nanoseconds at which it begins.
    Octet(u64, u8),
    /// An octet with a framing or parity error that begins at this time.
    Damaged(u64),
    /// The octet before has such an error.
    DamagedBefore,
    /// A wake-up request, and its time in nanoseconds.
    Wake(u64),
    /// In front: the capture begins while a device with this page is in OPERATE. The octets are
    /// those of addresses 0x02 to 0x0B.
    Page([u8; 10]),
    /// An annotation with the numbers of its samples, of which it isn't known how many are taken in
    /// a second.
    Unsampled,
    /// An annotation without a time.
    Untimed,
}

impl OctetLine {
    ghost use Rattle.iol_capture.specs.OctetLines.{line_form};

    /// What a line says, where it fits a form: seconds, a space, and an octet or `wake`.
    pub fn parse(line: &[u8]) -> Option<OctetLine>
        ensures { result ≡ line_form line.now }
    {
        match line {
            [] => Some(OctetLine::Other),
            [b'#', ..] => Some(OctetLine::Other),
            _ => parse_parts(line),
        }
    }
}

/// Where an octet stands first.
pub(crate) fn place_of(text: &[u8], mark: u8) -> Option<usize>
    ensures { result ≡ position (λ b. b == mark) text.now }
{
    text.iter().position(|octet| *octet == mark)
}

/// The parts before and behind the first space.
pub(crate) fn parse_parts(line: &[u8]) -> Option<OctetLine>
    ensures { result ≡ parts_form line.now (position (λ b. b == 32) line.now) }
{
    match place_of(line, b' ') {
        Some(place) => parse_word(&line[place + 1..], parse_time(&line[..place])?),
        None => None,
    }
}

/// An octet, or `wake`.
fn parse_word(word: &[u8], time: u64) -> Option<OctetLine>
    ensures { result ≡ word_form word.now time }
{
    if word == b"wake".as_slice() {
        Some(OctetLine::Wake(time))
    } else {
        Some(OctetLine::Octet(time, parse_octet(word)?))
    }
}

/// Two hexadecimal digits, in both cases, with or without `0x`.
pub(crate) fn parse_octet(word: &[u8]) -> Option<u8>
    ensures { result ≡ octet_form word.now }
{
    match word {
        [high, low] => octet_of(*high, *low),
        [b'0', b'x', high, low] => octet_of(*high, *low),
        _ => None,
    }
}

pub(crate) fn octet_of(high: u8, low: u8) -> Option<u8>
    ensures { result ≡ octet_of high low }
{
    let high = char::from(high).to_digit(16)?;
    let low = char::from(low).to_digit(16)?;
    Some((high * 16 + low) as u8)
}

/// Seconds, with up to nine digits behind the point, as nanoseconds.
pub(crate) fn parse_time(word: &[u8]) -> Option<u64>
    ensures { result ≡ time_form word.now (position (λ b. b == 46) word.now) }
{
    match place_of(word, b'.') {
        Some(place) if place + 1 == word.len() => None,
        Some(place) => nanoseconds(&word[..place], &word[place + 1..]),
        None => nanoseconds(word, &[]),
    }
}

/// The nanoseconds that digits before and behind a point mean.
fn nanoseconds(whole: &[u8], fraction: &[u8]) -> Option<u64>
    ensures { result ≡ nanoseconds whole.now fraction.now }
{
    if whole.is_empty() || fraction.len() > PLACES {
        return None;
    }
    let seconds = digits_behind(0, whole)?;
    let number = digits_behind(seconds, fraction)?;
    digits_behind(number, &ZEROS[fraction.len()..])
}

/// The number with more decimal digits behind its own, below 2^64.
#[tactic(auto, using(crate::proofs::Digits::bad_ends))]
pub(crate) fn digits_behind(number: u64, digits: &[u8]) -> Option<u64>
    ensures { result ≡ digits_behind (Some number) digits.now }
{
    let mut number = number;
    for digit in digits {
        number = digit_behind(number, *digit)?;
    }
    Some(number)
}

/// The number with one more decimal digit behind its own.
fn digit_behind(number: u64, digit: u8) -> Option<u64>
    ensures { result ≡ digit_behind (Some number) digit }
{
    if !digit.is_ascii_digit() {
        return None;
    }
    number.checked_mul(10)?.checked_add(u64::from(digit - b'0'))
}
