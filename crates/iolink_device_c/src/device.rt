//! Opening and closing, and what comes to pass at a device by itself.
ghost use Rattle.std.specs.Prelude.{◌≡◌, true, false, Some, None, IsTrue, IsFalse};
ghost use Rattle.iol_event.specs.Memory.{is_full};
ghost use Rattle.iol_far.specs.Local.{local, far_after_wake, LocalStep};
ghost use Rattle.iol_print.specs.declared.line_call.LineCall.TheVariants as line;
ghost use Rattle.iolink_device_c.specs.Calls.{device_of, far_of, number_of, silent_of, call_heard, IsRefused, Guards, GuardsFar, HandleOpensDevice};

use crate::held::{IolDevice, Sensor};
use core::mem::replace_with;
use iol_device::{Apart, Device};
use iol_event::Event;
use iol_page::Page;
use iol_print::LineCall;
use iolink_handle::{CLOSED, IS_OPEN, OUT_OF_MEMORY};
use std::alloc::Global;

/// Opens a device with this direct parameter page 1, asleep. It takes no memory after this. Its
/// first request has number 1.
///
/// 0, or the first of these that holds, with the handle as it was: 253 it is open
/// already; 8, 7 or 2 the page is refused, as by `Page::layouts`; 24 there is no memory.
#[unsafe(no_mangle)]
pub extern "C" fn iol_device_open(alloc: Global, handle: &mut IolDevice, page: &[u8; 10]) -> u8
    ensures { HandleOpensDevice page.now 0 handle.old result handle.new }
{
    iol_device_open_from(alloc, handle, page, 0)
}

/// The same, whose first request has the number behind `given`: that of the last request of an
/// earlier handle, so that an answer that is late for that one is refused by this one.
#[unsafe(no_mangle)]
pub extern "C" fn iol_device_open_from(
    alloc: Global,
    handle: &mut IolDevice,
    page: &[u8; 10],
    given: u64,
) -> u8
    ensures { HandleOpensDevice page.now given handle.old result handle.new }
{
    if handle.is_open {
        return IS_OPEN;
    }
    let page = Page::from_octets(page);
    if let Err(fault) = page.layouts() {
        return fault.code();
    }
    let device = Device::new_from(Apart, page, given);
    match Box::new(
        alloc,
        Sensor {
            device,
            passed: None,
        },
    ) {
        Ok(sensor) => {
            *handle = IolDevice::of(sensor);
            0
        }
        Err(_) => OUT_OF_MEMORY,
    }
}

/// Ends the device and gives its memory back: 0, or 252 where the handle is closed.
#[unsafe(no_mangle)]
pub extern "C" fn iol_device_close(alloc: Global, handle: &mut IolDevice) -> u8
    ensures shut { handle.new.is_open ≡ false }
    ensures closed { IsFalse handle.old.is_open → IsRefused result handle.old handle.new }
    ensures done { IsTrue handle.old.is_open → result ≡ 0 }
{
    if !handle.is_open {
        return CLOSED;
    }
    replace_with(handle, alloc, |handle, alloc| {
        let (closed, sensor) = handle.take(alloc);
        drop(sensor);
        (closed, ())
    });
    0
}

/// A wake-up request came: 0, or 252 where the handle is closed.
#[unsafe(no_mangle)]
pub extern "C" fn iol_device_wake(alloc: Global, handle: &mut IolDevice) -> u8
    ensures guards { Guards result handle.old handle.new }
    ensures number { number_of handle.new ≡ number_of handle.old }
    ensures silent { silent_of handle.new ≡ silent_of handle.old }
    ensures far { IsTrue handle.old.is_open → (result ≡ 0)
        × (far_of handle.new ≡ far_after_wake (far_of handle.old)) }
    ensures passed { IsTrue handle.old.is_open → call_heard handle.new ≡ Some (line.Wake None) }
{
    if !handle.is_open {
        return CLOSED;
    }
    replace_with(handle, alloc, |handle, alloc| {
        let mut sensor = handle.into_box(alloc);
        sensor.device.wake();
        sensor.passed = Some(LineCall::Wake(None));
        (IolDevice::of(sensor), ())
    });
    0
}

/// The power failed and came back: 0, or 252 where the handle is closed.
#[unsafe(no_mangle)]
pub extern "C" fn iol_device_power_cycle(alloc: Global, handle: &mut IolDevice) -> u8
    ensures guards { GuardsFar result handle.old handle.new }
    ensures far { IsTrue handle.old.is_open →
        (result ≡ 0) × (far_of handle.new ≡ local (far_of handle.old) LocalStep.Power) }
{
    if !handle.is_open {
        return CLOSED;
    }
    replace_with(handle, alloc, |handle, alloc| {
        let mut sensor = handle.into_box(alloc);
        sensor.device.power_cycle();
        (IolDevice::of(sensor), ())
    });
    0
}

/// No message came for longer than C allows: no process data out is shown from now on, until
/// ProcessDataOutputOperate is accepted in OPERATE. 0, or 252 where the handle is closed.
#[unsafe(no_mangle)]
pub extern "C" fn iol_device_silence(alloc: Global, handle: &mut IolDevice) -> u8
    ensures guards { Guards result handle.old handle.new }
    ensures silent { IsTrue handle.old.is_open → (result ≡ 0)
        × (device_of handle.new ≡ record (device_of handle.old) { silent = true }) }
    ensures passed { call_heard handle.new ≡ call_heard handle.old }
{
    if !handle.is_open {
        return CLOSED;
    }
    replace_with(handle, alloc, |handle, alloc| {
        let mut sensor = handle.into_box(alloc);
        sensor.device.silence();
        (IolDevice::of(sensor), ())
    });
    0
}

/// Raises an event: 0, or 252 where the handle is closed, and then 16, with nothing
/// changed, where the event memory is full.
#[unsafe(no_mangle)]
pub extern "C" fn iol_device_raise(
    alloc: Global,
    handle: &mut IolDevice,
    qualifier: u8,
    code: u16,
) -> u8
    ensures guards { GuardsFar result handle.old handle.new }
    ensures far { IsTrue handle.old.is_open → far_of handle.new ≡ local (far_of handle.old)
        (LocalStep.Raise (record { qualifier = qualifier; code = code })) }
    ensures full { IsTrue handle.old.is_open → IsTrue (is_full (far_of handle.old).events) →
        (result ≡ 16) × (far_of handle.new ≡ far_of handle.old) }
    ensures done { IsTrue handle.old.is_open → IsFalse (is_full (far_of handle.old).events) →
        result ≡ 0 }
{
    if !handle.is_open {
        return CLOSED;
    }
    let event = Event { qualifier, code };
    replace_with(handle, (alloc, event), |handle, (alloc, event)| {
        let mut sensor = handle.into_box(alloc);
        let code = match sensor.device.raise(event) {
            Ok(()) => 0,
            Err(fault) => fault.code(),
        };
        (IolDevice::of(sensor), code)
    })
}
