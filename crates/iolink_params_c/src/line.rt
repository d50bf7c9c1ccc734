//! The line: what came, and what is sent back.
ghost use Rattle.std.specs.Prelude.{◌≡◌, length, take, unwrap_or, [], true, false, IsTrue, IsFalse};
ghost use Rattle.iol_far.specs.Far.{hear};
ghost use Rattle.iol_device.specs.Awaited.{awaited_length};
ghost use Rattle.iolink_params_c.specs.Line.{sensor_after_octets, sensor_after_wake, sensor_after_silence};
ghost use Rattle.iolink_params_c.specs.Calls.{params_sensor, params_far, GuardsParams, Makes};

use crate::held::IolParams;
use iolink_handle::{CLOSED, put};
use std::alloc::Global;

/// A reply: `length` octets, none where that is 0.
#[repr(C)]
pub struct IolParamsReply {
    pub length: u8,
    pub octets: [u8; 66],
}

/// These octets came: 0 and what is sent back, or 252 where the handle is closed, with `out` as it
/// was. Where the device goes back, an activity ends.
#[unsafe(no_mangle)]
pub extern "C" fn iol_params_hear(
    alloc: Global,
    handle: &mut IolParams,
    octets: &[u8],
    out: &mut IolParamsReply,
) -> u8
    ensures guards { GuardsParams result handle.old handle.new }
    ensures untouched { IsFalse handle.old.is_open → out.new ≡ out.old }
    ensures makes { Makes (sensor_after_octets octets.now) handle.old handle.new }
    ensures done { IsTrue handle.old.is_open → result ≡ 0 }
    ensures length { IsTrue handle.old.is_open → out.new.length
        ≡ length (unwrap_or (hear (params_far handle.old) octets.now).reply []) }
    ensures reply { IsTrue handle.old.is_open → take out.new.length out.new.octets
        ≡ unwrap_or (hear (params_far handle.old) octets.now).reply [] }
{
    if !handle.is_open {
        return CLOSED;
    }
    let mut sensor = handle.take_box(alloc);
    let reply = sensor.hear(octets);
    *handle = IolParams::of(sensor);
    match reply {
        Some(reply) => {
            out.length = reply.len() as u8;
            put(reply.as_slice(), &mut out.octets);
        }
        None => out.length = 0,
    }
    0
}

/// How many octets the message has that begins with these, as `iol_device_expects` says: 0, or 252
/// where the handle is closed, with `out` as it was. It changes nothing.
#[unsafe(no_mangle)]
pub extern "C" fn iol_params_expects(
    alloc: Global,
    handle: &mut IolParams,
    octets: &[u8],
    out: &mut u8,
) -> u8
    ensures guards { GuardsParams result handle.old handle.new }
    ensures untouched { IsFalse handle.old.is_open → out.new ≡ out.old }
    ensures same { params_sensor handle.new ≡ params_sensor handle.old }
    ensures length { IsTrue handle.old.is_open → (result ≡ 0)
        × (out.new ≡ awaited_length (params_far handle.old) octets.now) }
{
    if !handle.is_open {
        return CLOSED;
    }
    let sensor = handle.take_box(alloc);
    *out = sensor.device.expects(octets);
    *handle = IolParams::of(sensor);
    0
}

/// A wake-up request came; an activity ends. 0, or 252 where the handle is closed.
#[unsafe(no_mangle)]
pub extern "C" fn iol_params_wake(alloc: Global, handle: &mut IolParams) -> u8
    ensures guards { GuardsParams result handle.old handle.new }
    ensures makes { Makes sensor_after_wake handle.old handle.new }
    ensures done { IsTrue handle.old.is_open → result ≡ 0 }
{
    if !handle.is_open {
        return CLOSED;
    }
    let mut sensor = handle.take_box(alloc);
    sensor.wake();
    *handle = IolParams::of(sensor);
    0
}

/// No message came for longer than C allows; an activity ends, and what the master still writes of
/// a block is refused. 0, or 252 where the handle is closed.
#[unsafe(no_mangle)]
pub extern "C" fn iol_params_silence(alloc: Global, handle: &mut IolParams) -> u8
    ensures guards { GuardsParams result handle.old handle.new }
    ensures makes { Makes sensor_after_silence handle.old handle.new }
    ensures done { IsTrue handle.old.is_open → result ≡ 0 }
{
    if !handle.is_open {
        return CLOSED;
    }
    let mut sensor = handle.take_box(alloc);
    sensor.silence();
    *handle = IolParams::of(sensor);
    0
}
