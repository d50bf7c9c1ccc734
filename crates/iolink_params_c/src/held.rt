//! What a handle of C holds.
ghost use Rattle.std.specs.Prelude.{◌≡◌, Bool, true, false};
ghost use Rattle.iolink_params_c.specs.declared.sensor.ParamSensor.{ParamSensor};

use crate::sensor::ParamSensor;
use core::mem::replace_with;
use iolink_handle::Loose;
use std::alloc::Global;
use std::marker::Model;
use std::ptr::null_mut;

/// A pointer, with the box behind it where it holds one.
#[derive(Drop)]
#[repr(C)]
pub struct ParamsPointer {
    at: *mut (),
    pub ghost is_held: { Bool },
    pub ghost value: { ParamSensor },
}

impl Model for ParamsPointer {
    ghost use Rattle.iolink_handle.specs.Heap.{handle_owns};
    ghost use Rattle.iolink_params_c.specs.contracts.sensor.ParamSensor.{the_row};

    ghost also_owns = { λ h. handle_owns the_row h.is_held h.at h.value };
}

impl ParamsPointer {
    fn of_loose(loose: Loose<ParamSensor>) -> ParamsPointer
        ensures value { result.value ≡ loose.value }
        ensures holds { result.is_held ≡ true }
    {
        let Loose { at } = loose;
        ParamsPointer { at: at as *mut () }
    }

    /// The box, beside the pointer to nothing that is left.
    fn take(self) -> (ParamsPointer, Loose<ParamSensor>)
        requires { self.is_held ≡ true }
        ensures last { result.0.value ≡ self.value }
        ensures shut { result.0.is_held ≡ false }
        ensures value { result.1.value ≡ self.value }
    {
        let ParamsPointer { at } = self;
        (
            ParamsPointer { at: null_mut() },
            Loose {
                at: at as *mut ParamSensor,
            },
        )
    }
}

/// A device with parameters, as C holds it. All zero it is closed.
#[derive(Drop)]
#[repr(C)]
pub struct IolParams {
    pub held: ParamsPointer,
    pub is_open: bool,
    pub ghost same: { held.is_held ≡ is_open },
}

impl IolParams {
    pub(crate) fn of(sensor: Box<ParamSensor>) -> IolParams
        ensures value { result.held.value ≡ sensor.value }
        ensures opened { result.is_open ≡ true }
    {
        IolParams {
            held: ParamsPointer::of_loose(Loose::of(sensor)),
            is_open: true,
        }
    }

    /// The box, beside the closed handle that is left.
    fn take(self, alloc: Global) -> (IolParams, Box<ParamSensor>)
        requires { self.is_open ≡ true }
        ensures last { result.0.held.value ≡ self.held.value }
        ensures shut { result.0.is_open ≡ false }
        ensures value { result.1.value ≡ self.held.value }
    {
        let IolParams { held, is_open: _ } = self;
        let (held, loose) = held.take();
        let closed = IolParams {
            held,
            is_open: false,
        };
        (closed, loose.into_box(alloc))
    }

    /// The box of an open handle, which is closed behind this.
    pub(crate) fn take_box(&mut self, alloc: Global) -> Box<ParamSensor>
        requires { self.old.is_open ≡ true }
        ensures shut { self.new.is_open ≡ false }
        ensures value { result.value ≡ self.old.held.value }
    {
        replace_with(self, alloc, |handle, alloc| handle.take(alloc))
    }
}
