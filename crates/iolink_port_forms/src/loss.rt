//! Why a port's last session ended, as C sees it.
ghost use Rattle.std.specs.Prelude.{◌≡◌};
ghost use Rattle.iolink_port_forms.specs.Shown.{loss_shown};

use iol_mode::Why;

/// Why the last session ended.
#[derive(Clone, Copy)]
#[repr(C)]
pub struct IolLoss {
    /// The number of the fault, 0 where there was none.
    pub why: u8,
    /// The VendorID of the device that was found, where `why` is 38, else 0.
    pub vendor: u16,
    /// Its DeviceID, likewise.
    pub device: u32,
}

/// Shows C why it ended.
pub fn loss_of(loss: Option<Why>) -> IolLoss
    ensures { result ≡ loss_shown loss }
{
    let found = match loss {
        Some(Why::WrongDevice(found)) => Some(found),
        _ => None,
    };
    IolLoss {
        why: loss.map_or(0, |why| why.code()),
        vendor: found.map_or(0, |found| found.vendor),
        device: found.map_or(0, |found| found.device),
    }
}
