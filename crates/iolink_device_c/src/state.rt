//! How a device stands.
ghost use Rattle.std.specs.Prelude.{◌≡◌, IfNone, IfSome, IsTrue, IsFalse};
ghost use Rattle.iol_page.specs.Cycle.{cycle_fault, cycle_fault_number, micros_of};
ghost use Rattle.iolink_device_c.specs.Calls.{far_of, Guards};
ghost use Rattle.iolink_device_c.specs.Shown.{shown_mode};

use crate::held::IolDevice;
use core::mem::replace_with;
use iol_device::{Apart, Device, DeviceMode, NoRecord};
use iolink_handle::{CLOSED, show_micros};
use std::alloc::Global;

const ASLEEP: u8 = 1;

/// The mode: 1 asleep, 2 startup, 3 preoperate, 4 operate. 0, or 252 where the handle is
/// closed, with `out` as it was. It changes nothing.
#[unsafe(no_mangle)]
pub extern "C" fn iol_device_mode(alloc: Global, handle: &mut IolDevice, out: &mut u8) -> u8
    ensures guards { Guards result handle.old handle.new }
    ensures untouched { IsFalse handle.old.is_open → out.new ≡ out.old }
    ensures same { handle.new.held.value ≡ handle.old.held.value }
    ensures mode { IsTrue handle.old.is_open → (result ≡ 0)
        × (out.new ≡ shown_mode (far_of handle.old)) }
{
    if !handle.is_open {
        return CLOSED;
    }
    let shown = replace_with(handle, alloc, |handle, alloc| {
        let sensor = handle.into_box(alloc);
        let shown = shown_mode(&sensor.device);
        (IolDevice::of(sensor), shown)
    });
    *out = shown;
    0
}

fn shown_mode(device: &Device<Apart, NoRecord>) -> u8
    ensures { result ≡ shown_mode device.now.far }
{
    if !device.is_awake() {
        return ASLEEP;
    }
    match device.mode() {
        DeviceMode::Startup => 2,
        DeviceMode::Preoperate => 3,
        DeviceMode::Operate => 4,
    }
}

/// MasterCycleTime, the octet of page address 0x01 as the master wrote it last, 0 before: 0, or
/// 252 where the handle is closed, with `out` as it was. It changes nothing.
#[unsafe(no_mangle)]
pub extern "C" fn iol_device_cycle_time(alloc: Global, handle: &mut IolDevice, out: &mut u8) -> u8
    ensures guards { Guards result handle.old handle.new }
    ensures untouched { IsFalse handle.old.is_open → out.new ≡ out.old }
    ensures same { handle.new.held.value ≡ handle.old.held.value }
    ensures octet { IsTrue handle.old.is_open → (result ≡ 0)
        × (out.new ≡ (far_of handle.old).cycle_time) }
{
    if !handle.is_open {
        return CLOSED;
    }
    let octet = replace_with(handle, alloc, |handle, alloc| {
        let sensor = handle.into_box(alloc);
        let octet = sensor.device.cycle_time();
        (IolDevice::of(sensor), octet)
    });
    *out = octet;
    0
}

/// The microseconds that an octet of MasterCycleTime means: 0, or 39 where its time base is
/// reserved, with `out` as it was.
#[unsafe(no_mangle)]
pub extern "C" fn iol_device_cycle_micros(octet: u8, out: &mut u32) -> u8
    ensures shown { IfNone (cycle_fault octet) ((result ≡ 0) × (out.new ≡ micros_of octet)) }
    ensures refused { IfSome (cycle_fault octet) (λ fault.
        (result ≡ cycle_fault_number fault) × (out.new ≡ out.old)) }
{
    show_micros(octet, out)
}
