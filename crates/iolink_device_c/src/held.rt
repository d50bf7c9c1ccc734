//! What a handle of C holds.
ghost use Rattle.std.specs.Prelude.{◌≡◌, Bool, true, false};
ghost use Rattle.iolink_device_c.specs.declared.held.Sensor.{Sensor};

use iol_device::{Apart, Device, NoRecord};
use iol_print::LineCall;
use iolink_handle::Loose;
use std::alloc::Global;
use std::marker::Model;
use std::ptr::null_mut;

/// What lies behind the pointer: the device, whose answers C brings, and the last call of the line.
#[derive(Drop)]
pub struct Sensor {
    pub device: Device<Apart, NoRecord>,
    pub passed: Option<LineCall>,
}

/// A pointer, with the box behind it where it holds one.
#[derive(Drop)]
#[repr(C)]
pub struct DevicePointer {
    at: *mut (),
    pub ghost is_held: { Bool },
    pub ghost value: { Sensor },
}

impl Model for DevicePointer {
    ghost use Rattle.iolink_handle.specs.Heap.{handle_owns};
    ghost use Rattle.iolink_device_c.specs.contracts.held.Sensor.{the_row};

    ghost also_owns = { λ h. handle_owns the_row h.is_held h.at h.value };
}

impl DevicePointer {
    fn of_loose(loose: Loose<Sensor>) -> DevicePointer
        ensures value { result.value ≡ loose.value }
        ensures holds { result.is_held ≡ true }
    {
        let Loose { at } = loose;
        DevicePointer { at: at as *mut () }
    }

    /// The box, beside the pointer to nothing that is left.
    fn take(self) -> (DevicePointer, Loose<Sensor>)
        requires { self.is_held ≡ true }
        ensures last { result.0.value ≡ self.value }
        ensures shut { result.0.is_held ≡ false }
        ensures value { result.1.value ≡ self.value }
    {
        let DevicePointer { at } = self;
        (
            DevicePointer { at: null_mut() },
            Loose {
                at: at as *mut Sensor,
            },
        )
    }
}

/// A device, as C holds it. All zero it is closed.
#[derive(Drop)]
#[repr(C)]
pub struct IolDevice {
    pub held: DevicePointer,
    pub is_open: bool,
    pub ghost same: { held.is_held ≡ is_open },
}

impl IolDevice {
    pub(crate) fn of(sensor: Box<Sensor>) -> IolDevice
        ensures value { result.held.value ≡ sensor.value }
        ensures opened { result.is_open ≡ true }
    {
        IolDevice {
            held: DevicePointer::of_loose(Loose::of(sensor)),
            is_open: true,
        }
    }

    /// The box, beside the closed handle that is left.
    pub(crate) fn take(self, alloc: Global) -> (IolDevice, Box<Sensor>)
        requires { self.is_open ≡ true }
        ensures last { result.0.held.value ≡ self.held.value }
        ensures shut { result.0.is_open ≡ false }
        ensures value { result.1.value ≡ self.held.value }
    {
        let IolDevice { held, is_open: _ } = self;
        let (held, loose) = held.take();
        let closed = IolDevice {
            held,
            is_open: false,
        };
        (closed, loose.into_box(alloc))
    }

    pub(crate) fn into_box(self, alloc: Global) -> Box<Sensor>
        requires { self.is_open ≡ true }
        ensures { result.value ≡ self.held.value }
    {
        let (_, sensor) = self.take(alloc);
        sensor
    }
}
