//! Why a port's last session ended.
ghost use Rattle.std.specs.Prelude.{◌≡◌, IsTrue};
ghost use Rattle.iol_port.specs.declared.call.Call.TheVariants as call;
ghost use Rattle.iol_port.specs.declared.call.Answered.TheVariants as answered;
ghost use Rattle.iolink_port_c.specs.Calls.{held_parts, LeavesClosed, CallDoes};
ghost use Rattle.iolink_port_forms.specs.Shown.{loss_shown};

use crate::held::IolPort;
use iolink_handle::CLOSED;
use iolink_port_forms::{IolLoss, loss_of};
use std::alloc::Global;

/// Why the last session ended: 0, or 252 where the handle is closed, which leaves `out` as it is.
/// It stays so until OPERATE is reached.
#[unsafe(no_mangle)]
pub extern "C" fn iol_port_last_loss(alloc: Global, handle: &mut IolPort, out: &mut IolLoss) -> u8
    ensures closed { LeavesClosed result handle.old handle.new out.old out.new }
    ensures stays { handle.new.is_open ≡ handle.old.is_open }
    ensures same { handle.new.held.value ≡ handle.old.held.value }
    ensures loss { IsTrue handle.old.is_open →
        (result ≡ 0) × (out.new ≡ loss_shown (held_parts handle.old).last_loss) }
    ensures does { IsTrue handle.old.is_open → CallDoes handle.old
        call.LastLoss (answered.LastLoss (held_parts handle.old).last_loss) handle.new }
{
    match handle.with(alloc, |master| master.port.last_loss()) {
        Some(loss) => *out = loss_of(loss),
        None => return CLOSED,
    }
    0
}
