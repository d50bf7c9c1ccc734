//! One call of a line, and its lines in a trace.
ghost use Rattle.std.specs.Prelude.{◌≡◌, Some, None};
ghost use Rattle.iol_print.specs.Sink.{PutsWithin, PutsSome};
ghost use Rattle.iol_print.specs.LineCalls.{PrintsCall, rate_of};

use crate::passing::{print_exchange, print_wake};
use crate::sink::TextSink;
use arrayvec::ArrayString;
use iol_link::Rate;
use iol_mseq::{Layout, Message};

/// No call has lines of more bytes in a trace.
pub const MOST_TRACE_LINE: usize = 896;

/// The lines of one call.
pub type LineText = ArrayString<MOST_TRACE_LINE>;

/// One call of a line.
#[derive(Clone, Debug, PartialEq, Eq, Drop)]
pub enum LineCall {
    /// A wake-up request, and the rate that was answered, if any.
    Wake(Option<Rate>),
    /// The octets of a message in this layout, and those that came back, if any.
    Exchange(Layout, Message, Option<Message>),
}

impl LineCall {
    /// What `trace` prints for it, as the call of this number.
    pub fn text(&self, number: u64) -> LineText
        ensures { PrintsCall number self.now result.bytes }
    {
        let mut text = LineText::new();
        let printed = self.print(&mut text, number);
        printed.unwrap();
        text
    }

    fn print<S: TextSink>(&self, output: &mut S, number: u64) -> Result<(), S::Error>
        ensures text { PutsSome result (S.text output.old) (S.text output.new)
            (PrintsCall number self.now) }
        ensures fits { PutsWithin result S.limit (S.text output.old) MOST_TRACE_LINE }
    {
        match self {
            LineCall::Wake(rate) => print_wake(output, number, *rate),
            LineCall::Exchange(layout, sent, answer) => {
                print_exchange(output, number, layout, sent.as_slice(), answer)
            }
        }
    }
}

/// A rate by its number: 1 to 3 for COM1 to COM3, none for any other.
pub fn rate_numbered(number: u8) -> Option<Rate>
    ensures { result ≡ rate_of number }
{
    match number {
        1 => Some(Rate::Com1),
        2 => Some(Rate::Com2),
        3 => Some(Rate::Com3),
        _ => None,
    }
}
