//! What is printed for one call of a line.
ghost use Rattle.std.specs.Prelude.{◌≡◌, ◌+◌, ◌++◌, length, codes, decimal};
ghost use Rattle.iol_far.specs.Octets.{octets_in};
ghost use Rattle.iol_print.specs.Sink.{PutsWithin, Puts, PutsSome};
ghost use Rattle.iol_print.specs.Passing.{rate_name, wake_text, line_front, asks_read, line_room, most_line, PrintsSent, PrintsReceived, PrintsExchange};

use crate::meaning::{print_message_of, print_reply_of};
use crate::printing::{print_number, print_octets};
use crate::sink::TextSink;
use iol_link::Rate;
use iol_mseq::{Layout, Message};

/// The first octet of a message to read something has this bit.
const READ: u8 = 0x80;

/// A message and what came back, as messages of this layout, in the call of this number.
pub fn print_exchange<S: TextSink>(
    output: &mut S,
    number: u64,
    layout: &Layout,
    sent: &[u8],
    answer: &Option<Message>,
) -> Result<(), S::Error>
    ensures text { PutsSome result (S.text output.old) (S.text output.new)
        (PrintsExchange number layout.now sent.now (octets_in answer.now)) }
    ensures fits { PutsWithin result S.limit (S.text output.old)
        (line_room sent.now + most_line) }
{
    print_sent(output, number, layout, sent)?;
    print_received(output, number, layout, asks_read(sent), answer)
}

/// The name of a rate.
fn rate_name(rate: Option<Rate>) -> &'static str
    ensures { result.now ≡ rate_name rate }
{
    match rate {
        None => "none",
        Some(Rate::Com1) => "COM1",
        Some(Rate::Com2) => "COM2",
        Some(Rate::Com3) => "COM3",
    }
}

/// A wake-up request, and the rate that was answered, if any, in the call of this number.
#[tactic(auto, using(crate::proofs::PrintedLemmas::fitting))]
pub fn print_wake<S: TextSink>(
    output: &mut S,
    number: u64,
    rate: Option<Rate>,
) -> Result<(), S::Error>
    ensures text { Puts result (S.text output.old) (S.text output.new) (wake_text number rate) }
    ensures fits { PutsWithin result S.limit (S.text output.old) (length (wake_text number rate)) }
{
    print_number(output, number)?;
    output.put(" wake ")?;
    output.put(rate_name(rate))?;
    output.put("\n")
}

/// The number of a call, the way that octets went, and they themselves.
#[tactic(auto, using(crate::proofs::PrintedLemmas::fitting))]
fn print_front<S: TextSink>(
    output: &mut S,
    number: u64,
    way: &str,
    octets: &[u8],
) -> Result<(), S::Error>
    ensures text { Puts result (S.text output.old) (S.text output.new)
        (line_front number way.now octets.now) }
    ensures fits { PutsWithin result S.limit (S.text output.old)
        (length (line_front number way.now octets.now)) }
{
    print_number(output, number)?;
    output.put(" ")?;
    output.put(way)?;
    print_octets(output, octets)?;
    output.put(": ")
}

/// Whether a message asks to read, by its first octet.
fn asks_read(octets: &[u8]) -> bool
    ensures { result ≡ asks_read octets.now }
{
    octets.first().is_some_and(|octet| *octet >= READ)
}

/// A message, as the master sent it.
fn print_sent<S: TextSink>(
    output: &mut S,
    number: u64,
    layout: &Layout,
    octets: &[u8],
) -> Result<(), S::Error>
    ensures text { PutsSome result (S.text output.old) (S.text output.new)
        (PrintsSent number layout.now octets.now) }
    ensures fits { PutsWithin result S.limit (S.text output.old) (line_room octets.now) }
{
    print_front(output, number, ">", octets)?;
    print_message_of(output, layout, octets)
}

/// That nothing came back.
#[tactic(auto, using(crate::proofs::PrintedLemmas::fitting))]
fn print_none<S: TextSink>(output: &mut S, number: u64) -> Result<(), S::Error>
    ensures text { Puts result (S.text output.old) (S.text output.new)
        (decimal number ++ codes " < none\n") }
    ensures fits { PutsWithin result S.limit (S.text output.old)
        (length (decimal number ++ codes " < none\n")) }
{
    print_number(output, number)?;
    output.put(" < none\n")
}

/// What came back to a message that reads or writes.
fn print_received<S: TextSink>(
    output: &mut S,
    number: u64,
    layout: &Layout,
    read: bool,
    answer: &Option<Message>,
) -> Result<(), S::Error>
    ensures text { PutsSome result (S.text output.old) (S.text output.new)
        (PrintsReceived number layout.now read (octets_in answer.now)) }
    ensures fits { PutsWithin result S.limit (S.text output.old) most_line }
{
    let Some(octets) = answer else {
        return print_none(output, number);
    };
    print_front(output, number, "<", octets.as_slice())?;
    print_reply_of(output, layout, read, octets.as_slice())
}
