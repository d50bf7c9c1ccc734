//! The line: what goes out, and what came.
ghost use Rattle.std.specs.Prelude.{◌≡◌, ◌≤◌, ◌<◌, length, IsTrue};
ghost use Rattle.iol_port.specs.declared.awaited.AwaitedAnswer.{AwaitedAnswer};
ghost use Rattle.iol_port.specs.CorePort.{awaited_answer};
ghost use Rattle.iol_octets.specs.Checksum.{checksum_of};
ghost use Rattle.iolink_port_c.specs.Calls.{held_parts, IsNotAsked, GuardsLine, GuardsOut};
ghost use Rattle.iol_far.specs.Octets.{octets_in};
ghost use Rattle.iol_port.specs.Asks.{asks_of};
ghost use Rattle.iol_print.specs.LineCalls.{rate_of};
ghost use Rattle.iolink_port_forms.specs.Arguments.{answer_of};
ghost use Rattle.iolink_port_c.specs.LineCalls.{HandleSends, HandleReceives, HandleWakes, NotesExchange};

use crate::held::IolPort;
use iol_app::Transmission;
use iol_mseq::Message;
use iol_octets::checksum6;
use iol_port::{AwaitedAnswer, PortCore};
use iol_print::{LineCall, rate_numbered};
use iolink_handle::{CLOSED, NOT_ASKED, OUT_OF_RANGE, copy_of};
use iolink_port_forms::{IolMessage, show_message};
use std::alloc::Global;

/// What goes out, which waits for its answer from now on: 0, or 252 where the handle is closed,
/// which leaves `out` as it is.
///
/// Until [`iol_port_turn_woken`] answers a wake, or [`iol_port_turn_answered`] a message, each
/// further call gives the same again and changes nothing, whatever other calls came between.
#[unsafe(no_mangle)]
pub extern "C" fn iol_port_asks(alloc: Global, handle: &mut IolPort, out: &mut IolMessage) -> u8
    ensures guards { GuardsOut result handle.old handle.new out.old out.new }
    ensures sends { IsTrue handle.old.is_open → HandleSends handle.old result out.new handle.new }
{
    match handle.with(alloc, |master| master.port.send()) {
        Some(asked) => show_message(asked, out),
        None => return CLOSED,
    }
    0
}

/// Takes what came of the wake that was asked for: `rate` is 1 to 3 for the device that answered
/// at COM1 to COM3, 0 where none did.
///
/// 0, or the first of 252 where the handle is closed, 254 for a rate above 3, and 255 where no
/// wake waits for its answer; nothing changed then.
#[unsafe(no_mangle)]
pub extern "C" fn iol_port_turn_woken(alloc: Global, handle: &mut IolPort, rate: u8) -> u8
    ensures guards { GuardsLine result handle.old handle.new }
    ensures range { IsTrue handle.old.is_open → 3 < rate →
        (result ≡ 254) × (handle.new ≡ handle.old) }
    ensures refused { IsTrue handle.old.is_open → rate ≤ 3 →
        ¬ (awaited_answer (held_parts handle.old) ≡ AwaitedAnswer.Wake) →
        IsNotAsked result handle.old handle.new }
    ensures wakes { IsTrue handle.old.is_open → rate ≤ 3 →
        awaited_answer (held_parts handle.old) ≡ AwaitedAnswer.Wake →
        HandleWakes (rate_of rate) handle.old result handle.new }
{
    if !handle.is_open {
        return CLOSED;
    }
    if rate > 3 {
        return OUT_OF_RANGE;
    }
    let rate = rate_numbered(rate);
    let code = handle.with(alloc, |master| match master.port.awaits() {
        AwaitedAnswer::Wake => {
            master.port.receive_wake(rate);
            master.passed = Some(LineCall::Wake(rate));
            0
        }
        AwaitedAnswer::Nothing | AwaitedAnswer::Reply => NOT_ASKED,
    });
    code.unwrap_or(CLOSED)
}

/// Takes what came back, in the time of a reply, to the octets that were asked for; nothing did
/// where `octets` is empty. Of more than 66 octets give the first 66: a reply of a wrong length
/// as it is.
///
/// 0, or the first of 252 where the handle is closed, 254 for more than 66 octets, and 255 where
/// no message waits for its answer; nothing changed then.
#[unsafe(no_mangle)]
pub extern "C" fn iol_port_turn_answered(alloc: Global, handle: &mut IolPort, octets: &[u8]) -> u8
    ensures guards { GuardsLine result handle.old handle.new }
    ensures long { IsTrue handle.old.is_open → 66 < length octets.now →
        (result ≡ 254) × (handle.new ≡ handle.old) }
    ensures refused { IsTrue handle.old.is_open → length octets.now ≤ 66 →
        ¬ (awaited_answer (held_parts handle.old) ≡ AwaitedAnswer.Reply) →
        IsNotAsked result handle.old handle.new }
    ensures receives { IsTrue handle.old.is_open → length octets.now ≤ 66 →
        awaited_answer (held_parts handle.old) ≡ AwaitedAnswer.Reply →
        HandleReceives (answer_of octets.now) handle.old result handle.new }
{
    if !handle.is_open {
        return CLOSED;
    }
    let Ok(received) = Message::try_from(octets) else {
        return OUT_OF_RANGE;
    };
    let answer = if received.is_empty() {
        None
    } else {
        Some(received)
    };
    let code = handle.with(alloc, |master| match master.port.awaits() {
        AwaitedAnswer::Reply => {
            master.passed = exchange_noted(&mut master.port, &answer);
            master.port.receive(&answer);
            0
        }
        AwaitedAnswer::Nothing | AwaitedAnswer::Wake => NOT_ASKED,
    });
    code.unwrap_or(CLOSED)
}

/// The message that is out, with what came back.
fn exchange_noted(port: &mut PortCore<Global>, received: &Option<Message>) -> Option<LineCall>
    requires { awaited_answer port.old ≡ AwaitedAnswer.Reply }
    ensures same { port.new ≡ port.old }
    ensures noted { NotesExchange (asks_of port.old) (octets_in received.now) result }
{
    match port.send() {
        Transmission::Exchange(sent) => {
            Some(LineCall::Exchange(sent.layout, sent.octets, copy_of(received)))
        }
        Transmission::Wake => None,
    }
}

/// The checksum, 0 to 63, of a message or a reply whose own six bits of it are 0. It answers that
/// in the place of a refusal.
#[unsafe(no_mangle)]
pub extern "C" fn iol_port_checksum(octets: &[u8]) -> u8
    ensures value { result ≡ checksum_of octets.now }
{
    checksum6(octets)
}
