//! The link, process data and events.
ghost use Rattle.std.specs.Prelude.{◌≡◌, unwrap_or, [], IsTrue};
ghost use Rattle.iol_port.specs.declared.call.Call.TheVariants as call;
ghost use Rattle.iol_port.specs.declared.call.Answered.TheVariants as answered;
ghost use Rattle.iol_image.specs.Image.{IsImage};
ghost use Rattle.iol_port.specs.declared.awaited.AwaitedAnswer.{AwaitedAnswer};
ghost use Rattle.iol_port.specs.CorePort.{awaited_answer};
ghost use Rattle.iol_port.specs.View.{status_of};
ghost use Rattle.iolink_handle.specs.Shown.{AreShown};
ghost use Rattle.iolink_port_forms.specs.Shown.{StatusIsShown};
ghost use Rattle.iolink_port_c.specs.Calls.{held_parts, LeavesClosed, IsNotAsked, CallDoes, GuardsPort, GuardsOut};
ghost use Rattle.iolink_port_c.specs.StateCalls.{HandleRestarts, HandleSetsOutput, HandleClearsOutput, HandleTakesEvent};

use crate::held::IolPort;
use iol_image::Image;
use iol_port::AwaitedAnswer;
use iolink_handle::{CLOSED, IolImage, NOT_ASKED, show_image};
use iolink_port_forms::{IolEvent, IolStatus, code_of, show_event, show_status};
use std::alloc::Global;

/// Cuts off the request under way, if any, and leaves the link in down.
///
/// 0, or the first of 252 where the handle is closed, and 255 where what was asked for waits for
/// its answer; nothing changed then. Bring the answer first: it may be that nothing came.
#[unsafe(no_mangle)]
pub extern "C" fn iol_port_restart(alloc: Global, handle: &mut IolPort) -> u8
    ensures guards { GuardsPort result handle.old handle.new }
    ensures refused { IsTrue handle.old.is_open →
        ¬ (awaited_answer (held_parts handle.old) ≡ AwaitedAnswer.Nothing) →
        IsNotAsked result handle.old handle.new }
    ensures restarts { IsTrue handle.old.is_open →
        awaited_answer (held_parts handle.old) ≡ AwaitedAnswer.Nothing →
        HandleRestarts handle.old result handle.new }
{
    let code = handle.with(alloc, |master| match master.port.awaits() {
        AwaitedAnswer::Nothing => {
            master.port.restart();
            0
        }
        AwaitedAnswer::Wake | AwaitedAnswer::Reply => NOT_ASKED,
    });
    code.unwrap_or(CLOSED)
}

/// Wants this output of the device.
///
/// 0, or the first of 252 where the handle is closed, 29 where it isn't 1 to 32 octets, 34 where
/// no start-up has told the lengths yet, and 29 for another number of octets than the device has.
#[unsafe(no_mangle)]
pub extern "C" fn iol_port_set_output(alloc: Global, handle: &mut IolPort, octets: &[u8]) -> u8
    ensures guards { GuardsPort result handle.old handle.new }
    ensures sized { IsTrue handle.old.is_open → ¬ IsImage octets.now →
        (result ≡ 29) × (handle.new ≡ handle.old) }
    ensures sets { IsTrue handle.old.is_open → IsImage octets.now →
        HandleSetsOutput octets.now handle.old result handle.new }
{
    if !handle.is_open {
        return CLOSED;
    }
    let image = match Image::new(octets) {
        Ok(image) => image,
        Err(fault) => return fault.code(),
    };
    code_of(handle.with(alloc, |master| master.port.set_output(&image)))
}

/// Wants no output of the device: 0, or 252 where the handle is closed.
#[unsafe(no_mangle)]
pub extern "C" fn iol_port_clear_output(alloc: Global, handle: &mut IolPort) -> u8
    ensures guards { GuardsPort result handle.old handle.new }
    ensures clears { IsTrue handle.old.is_open → HandleClearsOutput handle.old result handle.new }
{
    match handle.with(alloc, |master| master.port.clear_output()) {
        Some(()) => 0,
        None => CLOSED,
    }
}

/// The device's input: 0, or 252 where the handle is closed, which leaves `out` as it is.
#[unsafe(no_mangle)]
pub extern "C" fn iol_port_image(alloc: Global, handle: &mut IolPort, out: &mut IolImage) -> u8
    ensures closed { LeavesClosed result handle.old handle.new out.old out.new }
    ensures stays { handle.new.is_open ≡ handle.old.is_open }
    ensures same { handle.new.held.value ≡ handle.old.held.value }
    ensures image { IsTrue handle.old.is_open → (result ≡ 0)
        × AreShown (unwrap_or (held_parts handle.old).core.session.image [])
        out.new.length out.new.octets }
    ensures does { IsTrue handle.old.is_open → CallDoes handle.old
        call.Look (answered.Image (held_parts handle.old).core.session.image) handle.new }
{
    let image = handle.with(alloc, |master| match master.port.image() {
        Some(image) => Some(image.clone().unwrap()),
        None => None,
    });
    match image {
        Some(image) => show_image(image, out),
        None => return CLOSED,
    }
    0
}

/// Hands out the event that was kept longest: 0, or the first of 252 where the handle
/// is closed, and 30 where none is kept. Where it is refused, `out` stays as it is.
#[unsafe(no_mangle)]
pub extern "C" fn iol_port_take_event(alloc: Global, handle: &mut IolPort, out: &mut IolEvent) -> u8
    ensures guards { GuardsOut result handle.old handle.new out.old out.new }
    ensures takes { IsTrue handle.old.is_open →
        HandleTakesEvent handle.old result out.old out.new handle.new }
{
    match handle.with(alloc, |master| master.port.take_event()) {
        Some(Ok(event)) => {
            show_event(event, out);
            0
        }
        Some(Err(fault)) => fault.code(),
        None => CLOSED,
    }
}

/// The mode of the link, and why it is down: 0, or 252 where the handle is closed,
/// which leaves `out` as it is.
#[unsafe(no_mangle)]
pub extern "C" fn iol_port_status(alloc: Global, handle: &mut IolPort, out: &mut IolStatus) -> u8
    ensures closed { LeavesClosed result handle.old handle.new out.old out.new }
    ensures stays { handle.new.is_open ≡ handle.old.is_open }
    ensures same { handle.new.held.value ≡ handle.old.held.value }
    ensures status { IsTrue handle.old.is_open →
        (result ≡ 0) × StatusIsShown (status_of (held_parts handle.old).core) out.new }
    ensures does { IsTrue handle.old.is_open → CallDoes handle.old
        call.Status (answered.Status (status_of (held_parts handle.old).core)) handle.new }
{
    match handle.with(alloc, |master| master.port.status()) {
        Some(status) => show_status(&status, out),
        None => return CLOSED,
    }
    0
}
