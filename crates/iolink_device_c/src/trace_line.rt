//! The log of a device: its line, call by call, as `iolink trace` prints it.
ghost use Rattle.std.specs.Prelude.{◌≡◌, ◌≤◌, ◌<◌, IsTrue, IsFalse};
ghost use Rattle.iol_print.specs.LineCalls.{rate_of};
ghost use Rattle.iolink_handle.specs.TraceLines.{IsLineOf, ShowsLine};
ghost use Rattle.iolink_device_c.specs.Calls.{call_heard, Guards};
ghost use Rattle.iolink_device_c.specs.LineCalls.{heard_at_rate};

use crate::held::IolDevice;
use core::mem::replace_with;
use iol_link::Rate;
use iol_print::{LineCall, LineText, rate_numbered};
use iolink_handle::{CLOSED, IolTraceLine, OUT_OF_RANGE, line_of, show_line};
use std::alloc::Global;

/// The number of the fastest rate, COM3.
const FASTEST: u8 = 3;

/// What `iolink trace` prints for the last call of the line, as the call of this number: a wake-up
/// request, or what came with what was sent back. A device doesn't know its `rate`: it is 1 to 3
/// for COM1 to COM3, or 0 for a wake-up request that isn't answered.
///
/// 0, or the first of 252 where the handle is closed, 254 for a rate above 3, and 255 where nothing
/// came yet, with `out` as it was. It changes nothing.
#[unsafe(no_mangle)]
pub extern "C" fn iol_device_trace_line(
    alloc: Global,
    handle: &mut IolDevice,
    number: u64,
    rate: u8,
    out: &mut IolTraceLine,
) -> u8
    ensures guards { Guards result handle.old handle.new }
    ensures untouched { IsFalse handle.old.is_open → out.new ≡ out.old }
    ensures same { handle.new.held.value ≡ handle.old.held.value }
    ensures range { IsTrue handle.old.is_open → 3 < rate → (result ≡ 254) × (out.new ≡ out.old) }
    ensures shows { IsTrue handle.old.is_open → rate ≤ 3 → ShowsLine number
        (heard_at_rate (rate_of rate) (call_heard handle.old)) result out.old out.new }
{
    if !handle.is_open {
        return CLOSED;
    }
    if rate > FASTEST {
        return OUT_OF_RANGE;
    }
    let rate = rate_numbered(rate);
    let line = replace_with(
        handle,
        (alloc, number, rate),
        |handle, (alloc, number, rate)| {
            let sensor = handle.into_box(alloc);
            let line = line_at(&sensor.passed, number, rate);
            (IolDevice::of(sensor), line)
        },
    );
    show_line(line, out)
}

/// The lines of the call that was noted, a wake-up request being answered at this rate.
fn line_at(noted: &Option<LineCall>, number: u64, rate: Option<Rate>) -> Option<LineText>
    ensures { IsLineOf number (heard_at_rate rate noted.now) result }
{
    match noted {
        Some(LineCall::Wake(_)) => line_of(&Some(LineCall::Wake(rate)), number),
        _ => line_of(noted, number),
    }
}
