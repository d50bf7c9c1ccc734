//! Process data.
ghost use Rattle.std.specs.Prelude.{◌≡◌, unwrap_or, [], true, false, IsTrue, IsFalse};
ghost use Rattle.iol_image.specs.Image.{IsImage};
ghost use Rattle.iol_far.specs.Local.{is_input, LocalStep};
ghost use Rattle.iol_device.specs.Silence.{device_output};
ghost use Rattle.iolink_handle.specs.Shown.{AreShown};
ghost use Rattle.iolink_params_c.specs.Process.{with_far};
ghost use Rattle.iolink_params_c.specs.Calls.{params_sensor, params_far, GuardsParams, Makes};

use crate::held::IolParams;
use iol_image::Image;
use iolink_handle::{CLOSED, IolImage, show_image};
use std::alloc::Global;

/// The process data in from now on: 0, or 252 where the handle is closed, and then 29, with nothing
/// changed, for another number of octets than the page has, or where it has none.
#[unsafe(no_mangle)]
pub extern "C" fn iol_params_set_input(alloc: Global, handle: &mut IolParams, octets: &[u8]) -> u8
    ensures guards { GuardsParams result handle.old handle.new }
    ensures makes { IsImage octets.now →
        Makes (with_far (LocalStep.Input octets.now)) handle.old handle.new }
    ensures done { IsTrue handle.old.is_open → IsImage octets.now →
        IsTrue (is_input (params_far handle.old) octets.now) → result ≡ 0 }
    ensures refused { IsTrue handle.old.is_open → IsImage octets.now →
        IsFalse (is_input (params_far handle.old) octets.now) →
        (result ≡ 29) × (params_sensor handle.new ≡ params_sensor handle.old) }
    ensures sized { IsTrue handle.old.is_open → ¬ IsImage octets.now →
        (result ≡ 29) × (handle.new ≡ handle.old) }
{
    if !handle.is_open {
        return CLOSED;
    }
    let image = match Image::new(octets) {
        Ok(image) => image,
        Err(fault) => return fault.code(),
    };
    let mut sensor = handle.take_box(alloc);
    let done = sensor.device.set_input(&image);
    *handle = IolParams::of(sensor);
    match done {
        Ok(()) => 0,
        Err(fault) => fault.code(),
    }
}

/// No valid process data in from now on: 0, or 252 where the handle is closed.
#[unsafe(no_mangle)]
pub extern "C" fn iol_params_clear_input(alloc: Global, handle: &mut IolParams) -> u8
    ensures guards { GuardsParams result handle.old handle.new }
    ensures makes { Makes (with_far LocalStep.NoInput) handle.old handle.new }
    ensures done { IsTrue handle.old.is_open → result ≡ 0 }
{
    if !handle.is_open {
        return CLOSED;
    }
    let mut sensor = handle.take_box(alloc);
    sensor.device.clear_input();
    *handle = IolParams::of(sensor);
    0
}

/// The process data out, none while none is valid or the master is silent: 0, or 252 where the
/// handle is closed, with `out` as it was.
#[unsafe(no_mangle)]
pub extern "C" fn iol_params_output(alloc: Global, handle: &mut IolParams, out: &mut IolImage) -> u8
    ensures guards { GuardsParams result handle.old handle.new }
    ensures untouched { IsFalse handle.old.is_open → out.new ≡ out.old }
    ensures same { params_sensor handle.new ≡ params_sensor handle.old }
    ensures image { IsTrue handle.old.is_open → (result ≡ 0)
        × AreShown (unwrap_or (device_output (params_sensor handle.old).device) [])
        out.new.length out.new.octets }
{
    if !handle.is_open {
        return CLOSED;
    }
    let sensor = handle.take_box(alloc);
    let image = match sensor.device.output() {
        Some(image) => Some(image.clone().unwrap()),
        None => None,
    };
    *handle = IolParams::of(sensor);
    show_image(image, out);
    0
}
