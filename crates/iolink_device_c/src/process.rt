//! Process data.
ghost use Rattle.std.specs.Prelude.{◌≡◌, length, take, unwrap_or, [], IsTrue, IsFalse};
ghost use Rattle.iol_image.specs.Image.{IsImage};
ghost use Rattle.iol_far.specs.Local.{local, is_input, LocalStep};
ghost use Rattle.iol_device.specs.Silence.{device_output};
ghost use Rattle.iolink_device_c.specs.Calls.{device_of, far_of, Guards, GuardsFar};

use crate::held::IolDevice;
use core::mem::replace_with;
use iol_image::Image;
use iolink_handle::{CLOSED, IolImage, show_image};
use std::alloc::Global;

/// The process data in from now on: 0, or 252 where the handle is closed, and then 29, with
/// nothing changed, for another number of octets than the page has, or where it has none.
#[unsafe(no_mangle)]
pub extern "C" fn iol_device_set_input(alloc: Global, handle: &mut IolDevice, octets: &[u8]) -> u8
    ensures guards { GuardsFar result handle.old handle.new }
    ensures far { IsTrue handle.old.is_open → IsImage octets.now →
        far_of handle.new ≡ local (far_of handle.old) (LocalStep.Input octets.now) }
    ensures done { IsTrue handle.old.is_open → IsImage octets.now →
        IsTrue (is_input (far_of handle.old) octets.now) → result ≡ 0 }
    ensures refused { IsTrue handle.old.is_open → IsImage octets.now →
        IsFalse (is_input (far_of handle.old) octets.now) →
        (result ≡ 29) × (far_of handle.new ≡ far_of handle.old) }
    ensures sized { IsTrue handle.old.is_open → ¬ IsImage octets.now →
        (result ≡ 29) × (handle.new ≡ handle.old) }
{
    if !handle.is_open {
        return CLOSED;
    }
    let image = match Image::new(octets) {
        Ok(image) => image,
        Err(fault) => return fault.code(),
    };
    replace_with(handle, (alloc, image), |handle, (alloc, image)| {
        let mut sensor = handle.into_box(alloc);
        let code = match sensor.device.set_input(&image) {
            Ok(()) => 0,
            Err(fault) => fault.code(),
        };
        (IolDevice::of(sensor), code)
    })
}

/// No valid process data in from now on: 0, or 252 where the handle is closed.
#[unsafe(no_mangle)]
pub extern "C" fn iol_device_clear_input(alloc: Global, handle: &mut IolDevice) -> u8
    ensures guards { GuardsFar result handle.old handle.new }
    ensures far { IsTrue handle.old.is_open →
        (result ≡ 0) × (far_of handle.new ≡ local (far_of handle.old) LocalStep.NoInput) }
{
    if !handle.is_open {
        return CLOSED;
    }
    replace_with(handle, alloc, |handle, alloc| {
        let mut sensor = handle.into_box(alloc);
        sensor.device.clear_input();
        (IolDevice::of(sensor), ())
    });
    0
}

/// The process data out, none while none is valid or the master is silent: 0, or 252
/// where the handle is closed, with `out` as it was.
#[unsafe(no_mangle)]
pub extern "C" fn iol_device_output(alloc: Global, handle: &mut IolDevice, out: &mut IolImage) -> u8
    ensures guards { Guards result handle.old handle.new }
    ensures untouched { IsFalse handle.old.is_open → out.new ≡ out.old }
    ensures same { handle.new.held.value ≡ handle.old.held.value }
    ensures length { IsTrue handle.old.is_open → out.new.length
        ≡ length (unwrap_or (device_output (device_of handle.old)) []) }
    ensures image { IsTrue handle.old.is_open → (result ≡ 0)
        × (take out.new.length out.new.octets
        ≡ unwrap_or (device_output (device_of handle.old)) []) }
{
    if !handle.is_open {
        return CLOSED;
    }
    let image = replace_with(handle, alloc, |handle, alloc| {
        let sensor = handle.into_box(alloc);
        let image = match sensor.device.output() {
            Some(image) => Some(image.clone().unwrap()),
            None => None,
        };
        (IolDevice::of(sensor), image)
    });
    show_image(image, out);
    0
}
