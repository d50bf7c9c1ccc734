//! What octets spell in a layout.
ghost use Rattle.iol_print.specs.Sink.{PutsWithin, PutsSome};
ghost use Rattle.iol_print.specs.Meanings.{PrintsMessage, PrintsReply, meaning_room};

use crate::printing::{print_message, print_refusal, print_reply};
use crate::sink::TextSink;
use iol_mseq::{Layout, read_master, read_reply};

/// What the octets of a master message spell.
pub fn print_message_of<S: TextSink>(
    output: &mut S,
    layout: &Layout,
    octets: &[u8],
) -> Result<(), S::Error>
    ensures text { PutsSome result (S.text output.old) (S.text output.new)
        (PrintsMessage layout.now octets.now) }
    ensures fits { PutsWithin result S.limit (S.text output.old) (meaning_room octets.now) }
{
    match read_master(layout, octets) {
        Ok(message) => print_message(output, &message),
        Err(fault) => print_refusal(output, &fault),
    }
}

/// What the octets of the reply to a read or to a write spell.
pub fn print_reply_of<S: TextSink>(
    output: &mut S,
    layout: &Layout,
    read: bool,
    octets: &[u8],
) -> Result<(), S::Error>
    ensures text { PutsSome result (S.text output.old) (S.text output.new)
        (PrintsReply layout.now read octets.now) }
    ensures fits { PutsWithin result S.limit (S.text output.old) (meaning_room octets.now) }
{
    match read_reply(layout, read, octets) {
        Ok(reply) => print_reply(output, read, &reply),
        Err(fault) => print_refusal(output, &fault),
    }
}
