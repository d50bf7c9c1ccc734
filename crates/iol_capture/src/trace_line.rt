//! What a line of a trace says.
ghost use Rattle.std.specs.Prelude.{◌≡◌, ◌<◌, ◌≤◌, ◌∷◌, IfSome, MatchOption, if◌then◌else◌, length, option_and_then, option_copied, option_map};
ghost use Rattle.std.specs.List.{position};
ghost use Rattle.iol_script.specs.Numerals.{before, octet_of_digits, octets_of_words};
ghost use Rattle.iol_capture.specs.TraceLines.{are_none, received_form, colon_words, ends_word, octets_after, octets_form, octets_read, page_form, rate_form, ten_of, trace_call_form, trace_form, trace_words_form, words_behind};

use arrayvec::ArrayVec;
use iol_judge::Wake;
use iol_script::{LineOctets, decimal_number, hexadecimal_octet};

/// The most bytes of a line, its line feed not counted.
pub(crate) const LONGEST: usize = 1024;

/// What a line of a trace says.
#[derive(Debug, Drop)]
pub enum TraceLine {
    /// Nothing: it is blank, a comment, which begins with `#`, or `page none`.
    Other,
    /// Something else than what went over the line.
    Skipped,
    /// The octets of the page's addresses 0x02 to 0x0B.
    Page([u8; 10]),
    /// A wake-up request, with the number of the call, and whether it was answered.
    Wake(u64, Wake),
    /// What the master sent in the call of this number.
    Sent(u64, LineOctets),
    /// What came back in that call, if anything did.
    Received(u64, Option<LineOctets>),
}

/// The same, where octets are still words: those that stand behind the words before them.
#[derive(Clone, Copy, Debug)]
pub(crate) enum WordedLine<'a> {
    Other,
    Skipped,
    Page([u8; 10]),
    Wake(u64, Wake),
    Sent(u64, Option<&'a [u8]>),
    Received(u64, Option<&'a [u8]>),
}

impl TraceLine {
    /// What a line of at most 1,024 bytes says, where it fits a form. What stands behind a colon
    /// isn't read.
    pub fn parse(line: &[u8]) -> Option<TraceLine>
        ensures { result ≡ trace_form line.now }
    {
        Some(match WordedLine::parse(line)? {
            WordedLine::Other => TraceLine::Other,
            WordedLine::Skipped => TraceLine::Skipped,
            WordedLine::Page(octets) => TraceLine::Page(octets),
            WordedLine::Wake(number, answer) => TraceLine::Wake(number, answer),
            WordedLine::Sent(number, words) => TraceLine::Sent(number, parse_octets(words)?),
            WordedLine::Received(number, words) => TraceLine::Received(
                number,
                parse_received(words)?,
            ),
        })
    }
}

impl<'a> WordedLine<'a> {
    /// What a line of at most 1,024 bytes says, where the words before its octets fit a form. What
    /// stands behind a colon isn't read.
    pub fn parse(line: &'a [u8]) -> Option<WordedLine<'a>>
        ensures { option_and_then octets_read result ≡ trace_form line.now }
    {
        if line.len() > LONGEST {
            return None;
        }
        match line {
            [] | [b'#' | b':', ..] => Some(WordedLine::Other),
            _ => parse_words(line),
        }
    }
}

/// Where the first word of a text ends: at a space, or at a colon, which ends the text.
fn word_end(text: &[u8]) -> Option<usize>
    ensures { result ≡ position ends_word text.now }
{
    text.iter()
        .position(|octet| *octet == b' ' || *octet == b':')
}

/// The first word of a text, and what stands behind the space after it if there is one.
fn first_word(text: &[u8]) -> (&[u8], Option<&[u8]>)
    ensures { colon_words text.now ≡ result.0.now ∷ words_behind (option_copied result.1) }
{
    match word_end(text) {
        Some(place) if text[place] == b' ' => (&text[..place], Some(&text[place + 1..])),
        Some(place) => (&text[..place], None),
        None => (text, None),
    }
}

fn parse_words(text: &[u8]) -> Option<WordedLine<'_>>
    ensures { option_and_then octets_read result ≡ trace_words_form (colon_words text.now) }
{
    let (name, behind) = first_word(text);
    match name {
        b"page" => parse_page(behind),
        [b'0'..=b'9', ..] => parse_call(decimal_number(name, 1, u64::MAX)?, behind),
        _ => Some(WordedLine::Skipped),
    }
}

/// The words behind `page`: ten octets, or `none`.
fn parse_page(words: Option<&[u8]>) -> Option<WordedLine<'_>>
    ensures { option_and_then octets_read result
        ≡ page_form (words_behind (option_copied words.entry)) }
{
    if are_none(words) {
        return Some(WordedLine::Other);
    }
    let octets = parse_octets(words)?;
    Some(WordedLine::Page(ten_of(octets.as_slice())?))
}

/// Octets, where there are ten.
pub(crate) fn ten_of(octets: &[u8]) -> Option<[u8; 10]>
    ensures { result ≡ ten_of octets.now }
{
    <[u8; 10]>::try_from(octets).ok()
}

/// The words behind the number of a call.
fn parse_call(number: u64, words: Option<&[u8]>) -> Option<WordedLine<'_>>
    ensures { option_and_then octets_read result
        ≡ trace_call_form number (words_behind (option_copied words.entry)) }
{
    let (way, behind) = first_word(words?);
    match way {
        b"wake" => Some(WordedLine::Wake(number, parse_rate(behind)?)),
        b">" => Some(WordedLine::Sent(number, behind)),
        b"<" => Some(WordedLine::Received(number, behind)),
        _ => None,
    }
}

/// Whether a wake-up request was answered, by the rate.
#[tactic(auto, using(crate::proofs::WordLemmas::no_rate))]
fn parse_rate(words: Option<&[u8]>) -> Option<Wake>
    ensures { result ≡ rate_form (words_behind (option_copied words.entry)) }
{
    let (rate, None) = first_word(words?) else {
        return None;
    };
    match rate {
        b"none" => Some(Wake::Unanswered),
        b"COM1" | b"COM2" | b"COM3" => Some(Wake::Answered),
        _ => None,
    }
}

/// Whether they are the one word `none`.
#[tactic(auto, using(crate::proofs::WordLemmas::not_none))]
pub(crate) fn are_none(words: Option<&[u8]>) -> bool
    ensures { result ≡ are_none (words_behind (option_copied words.entry)) }
{
    match words {
        Some(text) => match first_word(text) {
            (word, None) => word == b"none".as_slice(),
            (_, Some(_)) => false,
        },
        None => false,
    }
}

/// Words of two digits each, up to 128.
fn parse_octets(words: Option<&[u8]>) -> Option<LineOctets>
    ensures { result ≡ octets_form (words_behind (option_copied words.entry)) }
{
    let mut octets = LineOctets::new();
    read_octets(words, &mut octets)?;
    Some(octets)
}

/// The same, or `none`.
fn parse_received(words: Option<&[u8]>) -> Option<Option<LineOctets>>
    ensures { result ≡ received_form (words_behind (option_copied words.entry)) }
{
    let mut octets = LineOctets::new();
    Some(if read_received(words, &mut octets)? {
        Some(octets)
    } else {
        None
    })
}

/// Whether anything came back: octets, which are put in the place of others, or `none`.
pub(crate) fn read_received(words: Option<&[u8]>, octets: &mut LineOctets) -> Option<bool>
    ensures { option_map (λ any. if any then Some octets.new else None) result
        ≡ received_form (words_behind (option_copied words.entry)) }
{
    if are_none(words) {
        return Some(false);
    }
    read_octets(words, octets)?;
    Some(true)
}

/// Words of two digits each, up to 128: the octets are put in the place of others.
pub(crate) fn read_octets(words: Option<&[u8]>, octets: &mut LineOctets) -> Option<()>
    ensures { option_map (λ done. octets.new) result
        ≡ octets_form (words_behind (option_copied words.entry)) }
{
    octets.clear();
    let mut left = words;
    while let Some(text) = left {
        let Some((octet, behind)) = first_octet(text) else {
            return None;
        };
        if octets.is_full() {
            return None;
        }
        octets.push(octet);
        left = behind;
    }
    Some(())
}

/// The octet of a text's first word, and what stands behind the space after it if there is one.
fn first_octet(text: &[u8]) -> Option<(u8, Option<&[u8]>)>
    ensures octet { MatchOption result (octets_of_words (colon_words text.now) ≡ None)
        (λ first. octets_of_words (colon_words text.now) ≡ before (Some first.0)
        (octets_of_words (words_behind (option_copied first.1)))) }
    ensures shorter { IfSome result (λ first. IfSome first.1 (λ later. length later.now
        < length text.now)) }
{
    let [high, low, later @ ..] = text else {
        return None;
    };
    let octet = octet_of(*high, *low)?;
    Some((octet, behind_digits(later)?))
}

/// What stands behind the space after a word's two digits, if there is one.
fn behind_digits(later: &[u8]) -> Option<Option<&[u8]>>
    ensures octets { MatchOption result (octets_after later.now ≡ None) (λ behind.
        octets_after later.now ≡ octets_of_words (words_behind (option_copied behind))) }
    ensures shorter { IfSome result (λ behind. IfSome behind (λ words. length words.now
        ≤ length later.now)) }
{
    match later {
        [] => Some(None),
        [mark, words @ ..] => match *mark {
            b':' => Some(None),
            b' ' => Some(Some(words)),
            _ => None,
        },
    }
}

/// The octet of two digits.
fn octet_of(high: u8, low: u8) -> Option<u8>
    ensures { result ≡ octet_of_digits high low }
{
    hexadecimal_octet(&[high, low])
}
