//! What a driver asks of a message that comes: how long it is, and its checksum.
ghost use Rattle.std.specs.Prelude.{◌≡◌, IsTrue, IsFalse};
ghost use Rattle.iol_octets.specs.Checksum.{checksum_of};
ghost use Rattle.iol_device.specs.Awaited.{awaited_length};
ghost use Rattle.iolink_device_c.specs.Calls.{far_of, Guards};

use crate::held::IolDevice;
use core::mem::replace_with;
use iol_octets::checksum6;
use iolink_handle::CLOSED;
use std::alloc::Global;

/// How many octets the message has that begins with these, 2 to 66: 1 where there are none yet, 0
/// while the device is asleep. Once as many came, C asks again.
///
/// 0, or 252 where the handle is closed, with `out` as it was. It changes nothing.
#[unsafe(no_mangle)]
pub extern "C" fn iol_device_expects(
    alloc: Global,
    handle: &mut IolDevice,
    octets: &[u8],
    out: &mut u8,
) -> u8
    ensures guards { Guards result handle.old handle.new }
    ensures untouched { IsFalse handle.old.is_open → out.new ≡ out.old }
    ensures same { handle.new.held.value ≡ handle.old.held.value }
    ensures length { IsTrue handle.old.is_open → (result ≡ 0)
        × (out.new ≡ awaited_length (far_of handle.old) octets.now) }
{
    if !handle.is_open {
        return CLOSED;
    }
    let length = replace_with(handle, (alloc, octets), |handle, (alloc, octets)| {
        let sensor = handle.into_box(alloc);
        let length = sensor.device.expects(octets);
        (IolDevice::of(sensor), length)
    });
    *out = length;
    0
}

/// The checksum, 0 to 63, of a message or a reply whose own six bits of it are 0. It answers that
/// in the place of a refusal.
#[unsafe(no_mangle)]
pub extern "C" fn iol_device_checksum(octets: &[u8]) -> u8
    ensures value { result ≡ checksum_of octets.now }
{
    checksum6(octets)
}
