//! What a port has counted.
ghost use Rattle.std.specs.Prelude.{◌≡◌, IsTrue};
ghost use Rattle.iol_port.specs.declared.call.Call.TheVariants as call;
ghost use Rattle.iol_port.specs.declared.call.Answered.TheVariants as answered;
ghost use Rattle.iolink_port_c.specs.Calls.{held_parts, LeavesClosed, CallDoes};
ghost use Rattle.iolink_port_forms.specs.Shown.{counters_shown};

use crate::held::IolPort;
use iolink_handle::CLOSED;
use iolink_port_forms::{IolCounters, counters_of};
use std::alloc::Global;

/// What was counted since the opening: 0, or 252 where the handle is closed, which leaves `out` as
/// it is. A message that is out counts once it is answered.
#[unsafe(no_mangle)]
pub extern "C" fn iol_port_counters(
    alloc: Global,
    handle: &mut IolPort,
    out: &mut IolCounters,
) -> u8
    ensures closed { LeavesClosed result handle.old handle.new out.old out.new }
    ensures stays { handle.new.is_open ≡ handle.old.is_open }
    ensures same { handle.new.held.value ≡ handle.old.held.value }
    ensures counters { IsTrue handle.old.is_open →
        (result ≡ 0) × (out.new ≡ counters_shown (held_parts handle.old).counters) }
    ensures does { IsTrue handle.old.is_open → CallDoes handle.old
        call.Counters (answered.Counters (held_parts handle.old).counters) handle.new }
{
    match handle.with(alloc, |master| *master.port.counters()) {
        Some(counters) => *out = counters_of(&counters),
        None => return CLOSED,
    }
    0
}
