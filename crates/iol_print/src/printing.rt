//! What is printed of the octets of messages and replies.
ghost use Rattle.std.specs.Prelude.{◌≡◌, ◌<◌, ◌∷◌, [], true, length, decimal};
ghost use Rattle.std.specs.Fmt.{digit_glyph};
ghost use Rattle.iol_print.specs.Sink.{PutsWithin, Puts};
ghost use Rattle.iol_print.specs.Printed.{hexadecimal, control_text, written_text, answered_text, status_text, octets_text, part_text, fault_name, channel_text, refusal_text, message_text, printed_reply};

use crate::sink::TextSink;
use iol_mseq::{MasterMsg, MseqFault, Reply};
use iol_octets::{Channel, Mc};
use itoa::Buffer;

/// A number below 16 as a hexadecimal digit.
fn digit_of(value: u8) -> &'static str
    requires { value < 16 }
    ensures { result.now ≡ digit_glyph true value ∷ [] }
{
    match value {
        0 => "0",
        1 => "1",
        2 => "2",
        3 => "3",
        4 => "4",
        5 => "5",
        6 => "6",
        7 => "7",
        8 => "8",
        9 => "9",
        10 => "A",
        11 => "B",
        12 => "C",
        13 => "D",
        14 => "E",
        _ => "F",
    }
}

/// An octet in two hexadecimal digits.
#[tactic(auto, using(crate::proofs::PrintedLemmas::fitting))]
pub fn print_hexadecimal<S: TextSink>(output: &mut S, octet: u8) -> Result<(), S::Error>
    ensures text { Puts result (S.text output.old) (S.text output.new) (hexadecimal octet) }
    ensures fits { PutsWithin result S.limit (S.text output.old) 2 }
{
    output.put(digit_of(octet / 16))?;
    output.put(digit_of(octet % 16))
}

/// The octets, each behind a space.
#[tactic(auto, using(crate::proofs::PrintedLemmas::fitting))]
pub fn print_octets<S: TextSink>(output: &mut S, octets: &[u8]) -> Result<(), S::Error>
    ensures text { Puts result (S.text output.old) (S.text output.new) (octets_text octets.now) }
    ensures fits { PutsWithin result S.limit (S.text output.old) (length (octets_text octets.now)) }
{
    for octet in octets {
        output.put(" ")?;
        print_hexadecimal(output, *octet)?;
    }
    Ok(())
}

/// The name of a part and its octets, where it has any.
#[tactic(auto, using(crate::proofs::PrintedLemmas::fitting))]
fn print_part<S: TextSink>(output: &mut S, name: &str, octets: &[u8]) -> Result<(), S::Error>
    ensures text { Puts result (S.text output.old) (S.text output.new)
        (part_text name.now octets.now) }
    ensures fits { PutsWithin result S.limit (S.text output.old)
        (length (part_text name.now octets.now)) }
{
    if octets.is_empty() {
        return Ok(());
    }
    output.put(name)?;
    print_octets(output, octets)
}

/// A decimal number.
pub fn print_number<S: TextSink>(output: &mut S, number: u64) -> Result<(), S::Error>
    ensures text { Puts result (S.text output.old) (S.text output.new) (decimal number) }
    ensures fits { PutsWithin result S.limit (S.text output.old) (length (decimal number)) }
{
    output.put(Buffer::new().format(number))
}

/// The name of a refusal.
fn name_of(fault: &MseqFault) -> &'static str
    ensures { result.now ≡ fault_name fault.now }
{
    match fault {
        MseqFault::UnsupportedCode => "UnsupportedCode",
        MseqFault::BadLength => "BadLength",
        MseqFault::WrongLength => "WrongLength",
        MseqFault::WrongType => "WrongType",
        MseqFault::BadChecksum => "BadChecksum",
    }
}

/// The number and the name of a refusal.
#[tactic(auto, using(crate::proofs::PrintedLemmas::fitting))]
pub fn print_refusal<S: TextSink>(output: &mut S, fault: &MseqFault) -> Result<(), S::Error>
    ensures text { Puts result (S.text output.old) (S.text output.new) (refusal_text fault.now) }
    ensures fits { PutsWithin result S.limit (S.text output.old) (length (refusal_text fault.now)) }
{
    output.put("refused ")?;
    print_number(output, fault.code() as u64)?;
    output.put(" ")?;
    output.put(name_of(fault))?;
    output.put("\n")
}

/// The name of a channel.
fn channel_name(channel: Channel) -> &'static str
    ensures { result.now ≡ channel_text channel }
{
    match channel {
        Channel::Process => "process",
        Channel::Page => "page",
        Channel::Diagnosis => "diagnosis",
        Channel::Isdu => "isdu",
    }
}

/// The direction, the channel and the address.
#[tactic(auto, using(crate::proofs::PrintedLemmas::fitting))]
fn print_control<S: TextSink>(output: &mut S, mc: &Mc) -> Result<(), S::Error>
    ensures text { Puts result (S.text output.old) (S.text output.new) (control_text mc.now) }
    ensures fits { PutsWithin result S.limit (S.text output.old) (length (control_text mc.now)) }
{
    output.put(if mc.read { "read " } else { "write " })?;
    output.put(channel_name(mc.channel))?;
    output.put(" ")?;
    print_hexadecimal(output, mc.address)
}

/// The on-request data of a write.
#[tactic(auto, using(crate::proofs::PrintedLemmas::fitting))]
fn print_written<S: TextSink>(output: &mut S, message: &MasterMsg) -> Result<(), S::Error>
    ensures text { Puts result (S.text output.old) (S.text output.new)
        (written_text message.now) }
    ensures fits { PutsWithin result S.limit (S.text output.old)
        (length (written_text message.now)) }
{
    if message.mc.read {
        return Ok(());
    }
    output.put(" od")?;
    print_octets(output, message.od.as_slice())
}

/// A master message.
#[tactic(auto, using(crate::proofs::PrintedLemmas::fitting))]
pub(crate) fn print_message<S: TextSink>(
    output: &mut S,
    message: &MasterMsg,
) -> Result<(), S::Error>
    ensures text { Puts result (S.text output.old) (S.text output.new)
        (message_text message.now) }
    ensures fits { PutsWithin result S.limit (S.text output.old)
        (length (message_text message.now)) }
{
    print_control(output, &message.mc)?;
    print_part(output, " out", message.out.as_slice())?;
    print_written(output, message)?;
    output.put("\n")
}

/// The on-request data of the reply to a read; the reply to a write has none.
#[tactic(auto, using(crate::proofs::PrintedLemmas::fitting))]
fn print_answered<S: TextSink>(output: &mut S, read: bool, reply: &Reply) -> Result<(), S::Error>
    ensures text { Puts result (S.text output.old) (S.text output.new)
        (answered_text read reply.now) }
    ensures fits { PutsWithin result S.limit (S.text output.old)
        (length (answered_text read reply.now)) }
{
    if !read {
        return output.put("ack");
    }
    output.put("od")?;
    print_octets(output, reply.od.as_slice())
}

/// The Event flag and the process data status.
#[tactic(auto, using(crate::proofs::PrintedLemmas::fitting))]
fn print_status<S: TextSink>(output: &mut S, reply: &Reply) -> Result<(), S::Error>
    ensures text { Puts result (S.text output.old) (S.text output.new) (status_text reply.now) }
    ensures fits { PutsWithin result S.limit (S.text output.old) (length (status_text reply.now)) }
{
    output.put(if reply.event { " event 1" } else { " event 0" })?;
    output.put(if reply.invalid {
        " pd invalid"
    } else {
        " pd valid"
    })
}

/// The reply to a read or to a write.
#[tactic(auto, using(crate::proofs::PrintedLemmas::fitting))]
pub(crate) fn print_reply<S: TextSink>(
    output: &mut S,
    read: bool,
    reply: &Reply,
) -> Result<(), S::Error>
    ensures text { Puts result (S.text output.old) (S.text output.new)
        (printed_reply read reply.now) }
    ensures fits { PutsWithin result S.limit (S.text output.old)
        (length (printed_reply read reply.now)) }
{
    print_answered(output, read, reply)?;
    print_part(output, " in", reply.input.as_slice())?;
    print_status(output, reply)?;
    output.put("\n")
}
