//! The log of a port: its line, call by call, as `iolink trace` prints it.
ghost use Rattle.std.specs.Prelude.{◌≡◌, IsTrue};
ghost use Rattle.iolink_handle.specs.TraceLines.{ShowsLine};
ghost use Rattle.iolink_port_c.specs.Calls.{call_taken, LeavesClosed};

use crate::held::IolPort;
use iolink_handle::{CLOSED, IolTraceLine, line_of, show_line};
use std::alloc::Global;

/// What `iolink trace` prints for the last call of the line, as the call of this number: a wake-up
/// request, or a message with what came back, as it was brought.
///
/// 0, or the first of 252 where the handle is closed, and 255 where nothing was brought yet, with
/// `out` as it was. It changes nothing.
#[unsafe(no_mangle)]
pub extern "C" fn iol_port_trace_line(
    alloc: Global,
    handle: &mut IolPort,
    number: u64,
    out: &mut IolTraceLine,
) -> u8
    ensures closed { LeavesClosed result handle.old handle.new out.old out.new }
    ensures stays { handle.new.is_open ≡ handle.old.is_open }
    ensures same { handle.new.held.value ≡ handle.old.held.value }
    ensures shows { IsTrue handle.old.is_open →
        ShowsLine number (call_taken handle.old) result out.old out.new }
{
    match handle.with(alloc, |master| line_of(&master.passed, number)) {
        Some(line) => show_line(line, out),
        None => CLOSED,
    }
}
