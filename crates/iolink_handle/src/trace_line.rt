//! The lines of one call of the line in a trace, as C sees them.
ghost use Rattle.std.specs.Prelude.{◌≡◌, IfSome, IfNone};
ghost use Rattle.iolink_handle.specs.Shown.{AreShown};
ghost use Rattle.iolink_handle.specs.TraceLines.{IsLineOf};

use crate::octets::put;
use crate::refusal::NOT_ASKED;
use iol_mseq::Message;
use iol_print::{LineCall, LineText, MOST_TRACE_LINE};

/// The lines of one call: `length` bytes of text, each line with its line feed.
#[repr(C)]
pub struct IolTraceLine {
    pub length: u16,
    pub text: [u8; MOST_TRACE_LINE],
}

/// The lines of the call that was noted, as the call of this number; none where none was.
pub fn line_of(noted: &Option<LineCall>, number: u64) -> Option<LineText>
    ensures { IsLineOf number noted.now result }
{
    match noted {
        Some(call) => Some(call.text(number)),
        None => None,
    }
}

/// Shows C those lines: 0, or 255 where there are none, with `out` as it was.
pub fn show_line(line: Option<LineText>, out: &mut IolTraceLine) -> u8
    ensures none { IfNone line ((result ≡ 255) × (out.new ≡ out.old)) }
    ensures shown { IfSome line (λ text. (result ≡ 0)
        × AreShown text.bytes out.new.length out.new.text) }
{
    let Some(line) = line else {
        return NOT_ASKED;
    };
    out.length = line.len() as u16;
    put(line.as_str().as_bytes(), &mut out.text);
    0
}

/// A copy of what came or is sent back, which takes no memory.
pub fn copy_of(message: &Option<Message>) -> Option<Message>
    ensures { result ≡ message.now }
{
    message.as_ref().map(|octets| octets.clone().unwrap())
}
