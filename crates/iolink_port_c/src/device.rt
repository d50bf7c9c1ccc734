//! Which device is expected, its page, and the cycle time that it is given.
ghost use Rattle.std.specs.Prelude.{◌≡◌, ◌≤◌, ◌<◌, Some, None, unwrap_or, [], IsTrue, IsFalse};
ghost use Rattle.std.specs.Prelude.{IfSome, IfNone};
ghost use Rattle.iol_page.specs.Cycle.{longest_cycle, cycle_fault, cycle_fault_number, micros_of};
ghost use Rattle.iol_port.specs.declared.call.Call.TheVariants as call;
ghost use Rattle.iol_port.specs.declared.call.Answered.TheVariants as answered;
ghost use Rattle.iol_port.specs.EveryWire.{page_shown};
ghost use Rattle.iolink_handle.specs.Shown.{AreShown};
ghost use Rattle.iolink_port_c.specs.Calls.{held_parts, LeavesClosed, CallDoes, GuardsPort, GuardsOut};
ghost use Rattle.iolink_port_forms.specs.Arguments.{identity_at, largest_device};
ghost use Rattle.iolink_port_c.specs.DeviceCalls.{HandleExpects, Paces};

use crate::held::IolPort;
use iolink_handle::{CLOSED, OUT_OF_RANGE, show_micros};
use iolink_port_forms::{IolPage, cycle_of, identity_of, show_counting, show_page};
use std::alloc::Global;

/// Expects this device: a link to another one goes down.
///
/// 0, or the first of 252 where the handle is closed, and 254 for a DeviceID above 24 bits. With 0
/// `counts` is 1 for now, or 2 for later: the page of the present session was checked already.
/// Where it is refused, nothing changed, and `counts` stays as it is.
#[unsafe(no_mangle)]
pub extern "C" fn iol_port_expect(
    alloc: Global,
    handle: &mut IolPort,
    vendor: u16,
    device: u32,
    counts: &mut u8,
) -> u8
    ensures guards { GuardsPort result handle.old handle.new }
    ensures unwritten { ¬ (result ≡ 0) → counts.new ≡ counts.old }
    ensures range { IsTrue handle.old.is_open → largest_device < device →
        (result ≡ 254) × (handle.new ≡ handle.old) }
    ensures expects { IsTrue handle.old.is_open → device ≤ largest_device →
        HandleExpects (Some (identity_at vendor device)) handle.old result counts.new handle.new }
{
    let Some(identity) = identity_of(vendor, device) else {
        return refusal_by(handle, OUT_OF_RANGE);
    };
    let answer = handle.with(alloc, |master| master.port.expect(identity));
    show_counting(answer, counts)
}

/// Expects any device again: 0, or 252 where the handle is closed, which leaves `counts` as it
/// is. With 0 `counts` is as of `iol_port_expect`.
#[unsafe(no_mangle)]
pub extern "C" fn iol_port_expect_any(alloc: Global, handle: &mut IolPort, counts: &mut u8) -> u8
    ensures guards { GuardsOut result handle.old handle.new counts.old counts.new }
    ensures expects { IsTrue handle.old.is_open →
        HandleExpects None handle.old result counts.new handle.new }
{
    let answer = handle.with(alloc, |master| master.port.expect_any());
    show_counting(answer, counts)
}

/// Has start-ups write the shortest cycle time that takes at least so many microseconds, where
/// the device allows it; else, and for 0, the device's least one.
///
/// 0, or the first of 252 where the handle is closed, and 39 above 132,800. With 0 `counts` is as
/// of `iol_port_expect`. Where it is refused, nothing changed, and `counts` stays as it is.
#[unsafe(no_mangle)]
pub extern "C" fn iol_port_set_cycle(
    alloc: Global,
    handle: &mut IolPort,
    micros: u32,
    counts: &mut u8,
) -> u8
    ensures guards { GuardsPort result handle.old handle.new }
    ensures unwritten { ¬ (result ≡ 0) → counts.new ≡ counts.old }
    ensures range { IsTrue handle.old.is_open → longest_cycle < micros →
        (result ≡ 39) × (handle.new ≡ handle.old) }
    ensures paces { IsTrue handle.old.is_open → micros ≤ longest_cycle →
        Paces micros handle.old result counts.new handle.new }
{
    let cycle = match cycle_of(micros) {
        Ok(cycle) => cycle,
        Err(fault) => return refusal_by(handle, fault.code()),
    };
    let answer = handle.with(alloc, |master| master.port.set_cycle(cycle));
    show_counting(answer, counts)
}

/// The number of a refusal: 252 where the handle is closed, which is tested first, else this one.
fn refusal_by(handle: &IolPort, number: u8) -> u8
    ensures closed { IsFalse handle.now.is_open → result ≡ 252 }
    ensures open { IsTrue handle.now.is_open → result ≡ number }
{
    if handle.is_open { number } else { CLOSED }
}

/// The microseconds that an octet of MinCycleTime or MasterCycleTime means: 0, or 39 where its
/// time base is reserved, with `out` as it was.
#[unsafe(no_mangle)]
pub extern "C" fn iol_port_cycle_micros(octet: u8, out: &mut u32) -> u8
    ensures shown { IfNone (cycle_fault octet) ((result ≡ 0) × (out.new ≡ micros_of octet)) }
    ensures refused { IfSome (cycle_fault octet) (λ fault.
        (result ≡ cycle_fault_number fault) × (out.new ≡ out.old)) }
{
    show_micros(octet, out)
}

/// The page of the device of the present session: 0, or 252 where the handle is closed, which
/// leaves `out` as it is. It has no octet in down and before a start-up has checked it.
#[unsafe(no_mangle)]
pub extern "C" fn iol_port_page(alloc: Global, handle: &mut IolPort, out: &mut IolPage) -> u8
    ensures closed { LeavesClosed result handle.old handle.new out.old out.new }
    ensures stays { handle.new.is_open ≡ handle.old.is_open }
    ensures same { handle.new.held.value ≡ handle.old.held.value }
    ensures page { IsTrue handle.old.is_open → (result ≡ 0)
        × AreShown (unwrap_or (page_shown (held_parts handle.old)) []) out.new.length
        out.new.octets }
    ensures does { IsTrue handle.old.is_open → CallDoes handle.old
        call.Page (answered.Page (page_shown (held_parts handle.old))) handle.new }
{
    match handle.with(alloc, |master| master.port.page()) {
        Some(page) => show_page(page, out),
        None => return CLOSED,
    }
    0
}
