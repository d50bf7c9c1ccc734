//! Why a line of a capture that fits a form is refused in its place.
use crate::retained::RetainedText;
use iol_capture::{LineFault, SplitFault, TraceLine};
use iol_script::TextLines;
use std::fmt;

/// Why a line of a capture is refused in its place. Numbers are those of calls of the wire; what is
/// wanted isn't known where no call stands near above.
#[derive(Clone, Copy, Debug, PartialEq, Eq)]
pub enum CallFault {
    /// Its number isn't that of the next call, which is wanted.
    NotNext(Option<u64>),
    /// Its number isn't that of the message that waits for a reply, which is wanted.
    NotOfTheMessage(Option<u64>),
    /// The message before, of this number, has no line for its reply.
    ReplyMissing(Option<u64>),
    /// It is a reply, and no message waits for one.
    MessageMissing,
    /// It is an annotation without a time.
    NoTime,
    /// It has the numbers of samples, and no line above says how many are taken in a second.
    NoSampleRate,
    /// What it shows can't be split into messages and replies.
    Split(SplitFault),
}

impl fmt::Display for CallFault {
    fn fmt<W: fmt::Write>(&self, f: &mut fmt::Formatter<W>) -> fmt::Result {
        match self {
            CallFault::NotNext(Some(call)) => {
                write!(f, "not the number of the next call; wanted: {call}")
            }
            CallFault::NotNext(None) => f.write_str("not the number of the next call"),
            CallFault::NotOfTheMessage(Some(call)) => {
                write!(f, "not the number of the message before; wanted: {call}")
            }
            CallFault::NotOfTheMessage(None) => {
                f.write_str("not the number of the message before")
            }
            CallFault::ReplyMissing(Some(call)) => {
                write!(
                    f,
                    "the message before has no reply line; wanted: {call} < .."
                )
            }
            CallFault::ReplyMissing(None) => f.write_str("the message before has no reply line"),
            CallFault::MessageMissing => {
                f.write_str("a reply, and no message before it waits for one; wanted: N > ..")
            }
            CallFault::NoTime => f.write_str(
                "an octet without its time; wanted: what sigrok-cli --protocol-decoder-samplenum prints",
            ),
            CallFault::NoSampleRate => {
                f.write_str("sample numbers, and no samples a second; wanted above: Samplerate: HZ")
            }
            CallFault::Split(fault) => f.write_str(wanted_in_place_of(fault)),
        }
    }
}

/// What would be split.
fn wanted_in_place_of(fault: &SplitFault) -> &'static str {
    match fault {
        SplitFault::TimeBack => "a time before that of the line above; wanted: a later one",
        SplitFault::Overlap => {
            "too soon behind the octet above; wanted: a time behind its frame, or the line's rate"
        }
        SplitFault::NoLayout(_) => {
            "in a mode whose layout isn't known; wanted above: the reads of page addresses 02 to 06"
        }
    }
}

/// Why a line of this fault is refused, behind what is kept of the lines above it. None of a line
/// that fits no form.
pub(crate) fn call_fault_of(
    retained: &RetainedText,
    number: u64,
    line: &[u8],
    fault: LineFault,
) -> Option<CallFault> {
    let call = last_call(retained, number);
    Some(match fault {
        LineFault::BadForm => return None,
        LineFault::WrongNumber => match TraceLine::parse(line)? {
            TraceLine::Received(..) => CallFault::NotOfTheMessage(call),
            _ => CallFault::NotNext(call.and_then(|call| call.checked_add(1))),
        },
        LineFault::ReplyMissing => CallFault::ReplyMissing(call),
        LineFault::MessageMissing => CallFault::MessageMissing,
        LineFault::NoTime => CallFault::NoTime,
        LineFault::NoSampleRate => CallFault::NoSampleRate,
        LineFault::Split(fault) => CallFault::Split(fault),
    })
}

/// The number of the last call above the line of this number.
fn last_call(retained: &RetainedText, bad: u64) -> Option<u64> {
    let mut call = None;
    let above = retained.lines_above(bad);
    for (number, line) in TextLines::of(retained.octets()) {
        if number > above {
            break;
        }
        match TraceLine::parse(line) {
            Some(TraceLine::Wake(this, _)) => call = Some(this),
            Some(TraceLine::Sent(this, _)) | Some(TraceLine::Received(this, _)) => call = Some(
                this,
            ),
            _ => {}
        }
    }
    call
}
