//! The trace events that sigrok-cli writes, each in a line of JSON.
ghost use Rattle.std.specs.Prelude.{◌≡◌, ◌==◌, ◌≤◌, length, Some};
ghost use Rattle.std.specs.List.{position};
ghost use Rattle.iol_capture.specs.declared.trace_event.TheConstants.{EVENT_BEGIN};
ghost use Rattle.iol_capture.specs.Exports.{begun_event_form, trace_event_form, event_shows, event_time, micro_time, micro_word, named_octet};

use crate::cells::without_end;
use crate::export::{begins_as, ends_as};
use crate::octet_line::{OctetLine, digits_behind, octet_of, place_of};

/// The line in front of all.
pub(crate) const EVENTS: [u8; 17] = *b"{\"traceEvents\": [";

/// The line behind all.
const EVENTS_END: [u8; 2] = *b"]}";

/// An annotation begins, and so does its time.
const EVENT_BEGIN: [u8; 18] = *b"{\"ph\": \"B\", \"ts\": ";

/// An annotation ends.
const EVENT_END: [u8; 12] = *b"{\"ph\": \"E\", ";

const FRAME_ERROR: [u8; 14] = *b"\"Frame error\"}";

const PARITY_ERROR: [u8; 15] = *b"\"Parity error\"}";

/// The digits of a time in microseconds down to nanoseconds.
const PLACES: usize = 3;

/// An event. That an annotation ends, or all of them, says nothing.
pub(crate) fn parse_event(line: &[u8]) -> Option<OctetLine>
    ensures { result ≡ trace_event_form line.now }
{
    if begins_as(line, &EVENT_BEGIN) {
        parse_begun(line)
    } else if begins_as(line, &EVENT_END) || line == EVENTS_END.as_slice() {
        Some(OctetLine::Other)
    } else {
        None
    }
}

/// An annotation begins.
fn parse_begun(line: &[u8]) -> Option<OctetLine>
    requires { length EVENT_BEGIN ≤ length line.now }
    ensures { result ≡ begun_event_form line.now }
{
    let time = event_time(&line[EVENT_BEGIN.len()..])?;
    Some(event_shows(time, without_end(line, b',')))
}

/// The time before the comma.
fn event_time(text: &[u8]) -> Option<u64>
    ensures { result ≡ event_time text.now }
{
    match place_of(text, b',') {
        Some(comma) => micro_word(&text[..comma]),
        None => None,
    }
}

/// Microseconds as nanoseconds.
fn micro_word(word: &[u8]) -> Option<u64>
    ensures { result ≡ micro_word word.now }
{
    match place_of(word, b'.') {
        Some(place) => micro_time(word, place),
        None => None,
    }
}

/// The same, where the point stands at this place. Digits behind the third aren't read.
fn micro_time(word: &[u8], place: usize) -> Option<u64>
    requires { position (λ b. b == 46) word.now ≡ Some place }
    ensures { result ≡ micro_time word.now place }
{
    if place == 0 || word.len() < place + 1 + PLACES {
        return None;
    }
    let whole = digits_behind(0, &word[..place])?;
    let fraction = &word[place + 1..];
    digits_behind(whole, &fraction[..PLACES])
}

/// What an annotation shows that begins at this time.
fn event_shows(time: u64, event: &[u8]) -> OctetLine
    ensures { result ≡ event_shows time event.now }
{
    if ends_as(event, &FRAME_ERROR) || ends_as(event, &PARITY_ERROR) {
        return OctetLine::DamagedBefore;
    }
    match named_octet(event) {
        Some(octet) => OctetLine::Octet(time, octet),
        None => OctetLine::Skipped,
    }
}

/// The octet that is the name with which an event ends.
fn named_octet(event: &[u8]) -> Option<u8>
    ensures { result ≡ named_octet event.now }
{
    let begin = event.len().checked_sub(5)?;
    match &event[begin..] {
        [b'"', high, low, b'"', b'}'] => octet_of(*high, *low),
        _ => None,
    }
}
