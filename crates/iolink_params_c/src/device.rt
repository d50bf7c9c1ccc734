//! How a device stands, and its events.
ghost use Rattle.std.specs.Prelude.{◌≡◌, true, false, IsTrue, IsFalse};
ghost use Rattle.iol_event.specs.Memory.{is_full};
ghost use Rattle.iol_far.specs.Local.{local, LocalStep};
ghost use Rattle.iolink_params_c.specs.Process.{with_far, mode_shown};
ghost use Rattle.iolink_params_c.specs.Calls.{params_sensor, params_far, GuardsParams, Makes};

use crate::held::IolParams;
use iol_device::{Apart, Device, DeviceMode, NoRecord};
use iol_event::Event;
use iolink_handle::CLOSED;
use std::alloc::Global;

const ASLEEP: u8 = 1;

/// The mode: 1 asleep, 2 startup, 3 preoperate, 4 operate. 0, or 252 where the handle is closed,
/// with `out` as it was. It changes nothing.
#[unsafe(no_mangle)]
pub extern "C" fn iol_params_mode(alloc: Global, handle: &mut IolParams, out: &mut u8) -> u8
    ensures guards { GuardsParams result handle.old handle.new }
    ensures untouched { IsFalse handle.old.is_open → out.new ≡ out.old }
    ensures same { params_sensor handle.new ≡ params_sensor handle.old }
    ensures mode { IsTrue handle.old.is_open → (result ≡ 0)
        × (out.new ≡ mode_shown (params_far handle.old)) }
{
    if !handle.is_open {
        return CLOSED;
    }
    let sensor = handle.take_box(alloc);
    *out = shown_mode(&sensor.device);
    *handle = IolParams::of(sensor);
    0
}

fn shown_mode(device: &Device<Apart, NoRecord>) -> u8
    ensures { result ≡ mode_shown device.now.far }
{
    if !device.is_awake() {
        return ASLEEP;
    }
    match device.mode() {
        DeviceMode::Startup => 2,
        DeviceMode::Preoperate => 3,
        DeviceMode::Operate => 4,
    }
}

/// MasterCycleTime, as the master wrote it last, 0 before: 0, or 252 where the handle is closed,
/// with `out` as it was. It changes nothing.
#[unsafe(no_mangle)]
pub extern "C" fn iol_params_cycle_time(alloc: Global, handle: &mut IolParams, out: &mut u8) -> u8
    ensures guards { GuardsParams result handle.old handle.new }
    ensures untouched { IsFalse handle.old.is_open → out.new ≡ out.old }
    ensures same { params_sensor handle.new ≡ params_sensor handle.old }
    ensures octet { IsTrue handle.old.is_open → (result ≡ 0)
        × (out.new ≡ (params_far handle.old).cycle_time) }
{
    if !handle.is_open {
        return CLOSED;
    }
    let sensor = handle.take_box(alloc);
    *out = sensor.device.cycle_time();
    *handle = IolParams::of(sensor);
    0
}

/// Raises an event: 0, or 252 where the handle is closed, and then 16, with nothing changed, where
/// the event memory is full.
#[unsafe(no_mangle)]
pub extern "C" fn iol_params_raise(
    alloc: Global,
    handle: &mut IolParams,
    qualifier: u8,
    code: u16,
) -> u8
    ensures guards { GuardsParams result handle.old handle.new }
    ensures makes { Makes (with_far (LocalStep.Raise
        (record { qualifier = qualifier; code = code }))) handle.old handle.new }
    ensures full { IsTrue handle.old.is_open → IsTrue (is_full (params_far handle.old).events) →
        (result ≡ 16) × (params_sensor handle.new ≡ params_sensor handle.old) }
    ensures done { IsTrue handle.old.is_open → IsFalse (is_full (params_far handle.old).events) →
        result ≡ 0 }
{
    if !handle.is_open {
        return CLOSED;
    }
    let event = Event { qualifier, code };
    let mut sensor = handle.take_box(alloc);
    let raised = sensor.device.raise(event);
    *handle = IolParams::of(sensor);
    match raised {
        Ok(()) => 0,
        Err(fault) => fault.code(),
    }
}
