//! Why a port's last session ended.
ghost use Rattle.std.specs.Prelude.{◌≡◌};
ghost use Rattle.iol_port.specs.LastLoss.{loss_after};

use iol_app::{Mode, Status};
use iol_mode::Why;

/// What is known of it behind a call that began in this mode and ends with this status.
///
/// Rule PORT-13.
pub(crate) fn loss_after(began: Mode, ended: Status, last: Option<Why>) -> Option<Why>
    ensures { result ≡ loss_after began ended.mode ended.why last }
{
    match (began, ended.mode) {
        (Mode::Down, _) => last,
        (_, Mode::Down) => ended.why,
        (_, Mode::Operate) => None,
        (_, Mode::Startup | Mode::Preoperate) => last,
    }
}
