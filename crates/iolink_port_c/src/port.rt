//! Opening and closing.
ghost use Rattle.std.specs.Prelude.{◌≡◌, Some, false, IsTrue, IsFalse};
ghost use Rattle.iol_mode.specs.declared.configuration.Devices.TheVariants.{Any};
ghost use Rattle.iolink_port_c.specs.Calls.{ClosedPortIsRefused};
ghost use Rattle.iolink_port_forms.specs.Arguments.{devices_of, limits_of};
ghost use Rattle.iolink_port_c.specs.Opening.{HandleOpens};

use crate::held::{IolPort, PortWithJournal};
use core::mem::replace_with;
use iol_mode::Devices;
use iol_port::PortCore;
use iolink_handle::{CLOSED, IS_OPEN, OUT_OF_MEMORY, OUT_OF_RANGE};
use iolink_port_forms::{RetainedJournal, devices_of, limits_of};
use std::alloc::Global;

/// Opens a port for any device by the standard, whose link is down. The first ticket is
/// `given` + 1.
///
/// 0, or the first of 253 where the handle is open already, 254 where the journal
/// isn't 4 to 1,000,000 entries, the busy limit isn't 2 to 65,535 or the limit of
/// outstanding tickets isn't 1 to 64, and 24 where there is no memory. Where it is
/// refused, nothing changed.
#[unsafe(no_mangle)]
pub extern "C" fn iol_port_open(
    alloc: Global,
    handle: &mut IolPort,
    journal: u32,
    busy: u16,
    queue: u8,
    given: u64,
) -> u8
    ensures { HandleOpens (Some Any) (limits_of journal busy queue given) handle.old result
        handle.new }
{
    open_for(alloc, handle, Devices::Any, journal, busy, queue, given)
}

/// The same, for these devices: 0 for those of our own kind, 1 for any by the standard. 254 also
/// where it is another number.
#[unsafe(no_mangle)]
pub extern "C" fn iol_port_open_for(
    alloc: Global,
    handle: &mut IolPort,
    devices: u8,
    journal: u32,
    busy: u16,
    queue: u8,
    given: u64,
) -> u8
    ensures { HandleOpens (devices_of devices) (limits_of journal busy queue given)
        handle.old result handle.new }
{
    if handle.is_open {
        return IS_OPEN;
    }
    let Some(devices) = devices_of(devices) else {
        return OUT_OF_RANGE;
    };
    open_for(alloc, handle, devices, journal, busy, queue, given)
}

/// A port for these devices, with the refusals of an opening.
fn open_for(
    alloc: Global,
    handle: &mut IolPort,
    devices: Devices,
    journal: u32,
    busy: u16,
    queue: u8,
    given: u64,
) -> u8
    ensures { HandleOpens (Some devices) (limits_of journal busy queue given)
        handle.old result handle.new }
{
    if handle.is_open {
        return IS_OPEN;
    }
    let Some(limits) = limits_of(journal, busy, queue, given) else {
        return OUT_OF_RANGE;
    };
    let port = match PortCore::open_for(alloc, &limits, devices) {
        Ok(port) => port,
        Err(fault) => return fault.code(),
    };
    let master = PortWithJournal {
        port,
        journal: RetainedJournal::new(alloc),
        passed: None,
    };
    match Box::new(alloc, master) {
        Ok(master) => {
            *handle = IolPort::of(master);
            0
        }
        Err(_) => OUT_OF_MEMORY,
    }
}

/// Ends the port and gives its memory back: 0, or 252 where the handle is closed.
#[unsafe(no_mangle)]
pub extern "C" fn iol_port_close(alloc: Global, handle: &mut IolPort) -> u8
    ensures shut { handle.new.is_open ≡ false }
    ensures once { IsFalse handle.old.is_open → ClosedPortIsRefused result handle.old handle.new }
    ensures done { IsTrue handle.old.is_open → result ≡ 0 }
{
    if !handle.is_open {
        return CLOSED;
    }
    replace_with(handle, alloc, |handle, alloc| {
        let (closed, master) = handle.take(alloc);
        drop(master);
        (closed, ())
    });
    0
}
