//! The parameters: requests, what is saved of them, and changes at the device itself.
ghost use Rattle.std.specs.Prelude.{◌≡◌, length, true, false, Some, IsTrue, IsFalse};
ghost use Rattle.std.specs.Result.{result_err};
ghost use Rattle.iol_params.specs.State.{locks_octet};
ghost use Rattle.iol_params.specs.Image.{lasting_of, lasting_in, image_size};
ghost use Rattle.iol_params.specs.Manager.{read_answer};
ghost use Rattle.iol_params.specs.Carry.{local_change, local_reset};
ghost use Rattle.iolink_params_c.specs.Work.{sensor_after_work, sensor_after_save, sensor_after_change, is_nothing};
ghost use Rattle.iolink_params_c.specs.Calls.{params_sensor, params_manager, unsaved_number, restart_number, GuardsParams, Makes, place_at, IsChangeOf, IsValueOf};

use crate::held::IolParams;
use iol_isdu::{Answer, Place};
use iol_params::{ErrorType, OwnedManager, Restart};
use iolink_handle::{CLOSED, NOT_ASKED, OUT_OF_RANGE, put};
use std::alloc::Global;

/// An image is to be saved, and then said to be.
const TO_SAVE: u8 = 1;

/// Refused with an ErrorType, whose AdditionalCode is told.
const WITH_ERROR_TYPE: u8 = 249;

/// First what is to be saved has to be.
const NOT_SAVED: u8 = 250;

/// The value of a parameter: `length` octets.
#[repr(C)]
pub struct IolValue {
    pub length: u8,
    pub octets: [u8; 232],
}

/// Carries out the request that is handed over, and answers it, unless what it changed is to be
/// saved first. Raises the event that is due. Does nothing, while something is to be saved.
///
/// 1 where an image is to be saved behind this, else 0; or 252 where the handle is closed. Behind
/// a 0 what outlives the power is as it was: no answer goes out to a write before what it changed
/// is saved.
#[unsafe(no_mangle)]
pub extern "C" fn iol_params_work(alloc: Global, handle: &mut IolParams) -> u8
    ensures guards { GuardsParams result handle.old handle.new }
    ensures makes { Makes sensor_after_work handle.old handle.new }
    ensures reported { IsTrue handle.old.is_open →
        result ≡ unsaved_number (is_nothing (params_sensor handle.new).unsaved) }
    ensures lasting { IsTrue handle.old.is_open → result ≡ 0 →
        lasting_of (params_manager handle.new).state
        ≡ lasting_of (params_manager handle.old).state }
{
    if !handle.is_open {
        return CLOSED;
    }
    let mut sensor = handle.take_box(alloc);
    sensor.work();
    let is_saved = sensor.unsaved.is_nothing();
    *handle = IolParams::of(sensor);
    if is_saved { 0 } else { TO_SAVE }
}

/// How many octets an image has: 0, or 252 where the handle is closed, with `out` as it was. It
/// changes nothing.
#[unsafe(no_mangle)]
pub extern "C" fn iol_params_image_size(
    alloc: Global,
    handle: &mut IolParams,
    out: &mut usize,
) -> u8
    ensures guards { GuardsParams result handle.old handle.new }
    ensures untouched { IsFalse handle.old.is_open → out.new ≡ out.old }
    ensures same { params_sensor handle.new ≡ params_sensor handle.old }
    ensures size { IsTrue handle.old.is_open → (result ≡ 0)
        × (out.new ≡ image_size (params_manager handle.old).table) }
{
    if !handle.is_open {
        return CLOSED;
    }
    let sensor = handle.take_box(alloc);
    *out = sensor.manager.image_size();
    *handle = IolParams::of(sensor);
    0
}

/// Writes the image of what outlives the power: 0, or the first of 252 where the handle is closed,
/// and 254 where the room hasn't as many octets as an image has, with `out` as it was. It changes
/// nothing.
#[unsafe(no_mangle)]
pub extern "C" fn iol_params_image(alloc: Global, handle: &mut IolParams, out: &mut [u8]) -> u8
    ensures guards { GuardsParams result handle.old handle.new }
    ensures untouched { IsFalse handle.old.is_open → out.new ≡ out.old }
    ensures same { params_sensor handle.new ≡ params_sensor handle.old }
    ensures size { IsTrue handle.old.is_open →
        ¬ (length out.old ≡ image_size (params_manager handle.old).table) →
        (result ≡ 254) × (out.new ≡ out.old) }
    ensures image { IsTrue handle.old.is_open →
        length out.old ≡ image_size (params_manager handle.old).table → (result ≡ 0)
        × (lasting_in (params_manager handle.old).table out.new
        ≡ Some (lasting_of (params_manager handle.old).state)) }
{
    if !handle.is_open {
        return CLOSED;
    }
    let mut sensor = handle.take_box(alloc);
    let code = show_lasting(&mut sensor.manager, out);
    *handle = IolParams::of(sensor);
    code
}

/// Writes the image into a room that has as many octets: 0, else 254, with the room as it was.
fn show_lasting(manager: &mut OwnedManager<Global>, out: &mut [u8]) -> u8
    ensures same { manager.new ≡ manager.old }
    ensures size { ¬ (length out.old ≡ image_size manager.old.table) →
        (result ≡ 254) × (out.new ≡ out.old) }
    ensures image { length out.old ≡ image_size manager.old.table → (result ≡ 0)
        × (lasting_in manager.old.table out.new ≡ Some (lasting_of manager.old.state)) }
{
    if out.len() != manager.image_size() {
        return OUT_OF_RANGE;
    }
    manager.image_into(out);
    0
}

/// What was to be saved is saved: the write that waits for it has its answer.
///
/// 0, or the first of 252 where the handle is closed, and 255 where nothing is to be saved, with
/// nothing changed.
#[unsafe(no_mangle)]
pub extern "C" fn iol_params_saved(alloc: Global, handle: &mut IolParams) -> u8
    ensures guards { GuardsParams result handle.old handle.new }
    ensures makes { Makes (λ s. sensor_after_save s.unsaved s) handle.old handle.new }
    ensures asked { IsTrue handle.old.is_open →
        IsFalse (is_nothing (params_sensor handle.old).unsaved) → result ≡ 0 }
    ensures unasked { IsTrue handle.old.is_open →
        IsTrue (is_nothing (params_sensor handle.old).unsaved) → result ≡ 255 }
{
    if !handle.is_open {
        return CLOSED;
    }
    let mut sensor = handle.take_box(alloc);
    let was_saved = sensor.unsaved.is_nothing();
    sensor.saved();
    *handle = IolParams::of(sensor);
    if was_saved { NOT_ASKED } else { 0 }
}

/// A change at the device itself, as by its buttons: an image is to be saved then.
///
/// 0, or the first of these, with nothing changed: 252 the handle is closed; 250 an image is to be
/// saved first; 249 it is refused, and `error` is the AdditionalCode of the ErrorType, whose
/// ErrorCode is 0x80.
#[unsafe(no_mangle)]
pub extern "C" fn iol_params_set(
    alloc: Global,
    handle: &mut IolParams,
    index: u16,
    sub: u8,
    octets: &[u8],
    error: &mut u8,
) -> u8
    ensures guards { GuardsParams result handle.old handle.new }
    ensures untouched { IsFalse handle.old.is_open → error.new ≡ error.old }
    ensures waits { IsTrue handle.old.is_open →
        IsFalse (is_nothing (params_sensor handle.old).unsaved) → (result ≡ 250)
        × (params_sensor handle.new ≡ params_sensor handle.old) × (error.new ≡ error.old) }
    ensures makes { IsTrue handle.old.is_open →
        IsTrue (is_nothing (params_sensor handle.old).unsaved) →
        let s = params_manager handle.old in
        params_sensor handle.new ≡ sensor_after_change
        (local_change s.table s.state (place_at index sub) octets.now) (params_sensor handle.old) }
    ensures reported { IsTrue handle.old.is_open →
        IsTrue (is_nothing (params_sensor handle.old).unsaved) →
        let s = params_manager handle.old in
        IsChangeOf (local_change s.table s.state (place_at index sub) octets.now).0 result
        error.old error.new }
{
    if !handle.is_open {
        return CLOSED;
    }
    let place = Place { index, sub };
    let mut sensor = handle.take_box(alloc);
    let outcome = if sensor.unsaved.is_nothing() {
        Some(sensor.set(place, octets))
    } else {
        None
    };
    *handle = IolParams::of(sensor);
    match outcome {
        Some(outcome) => show_change(outcome, error),
        None => NOT_SAVED,
    }
}

/// Shows C what a change came to.
fn show_change(outcome: Result<(), ErrorType>, error: &mut u8) -> u8
    ensures { IsChangeOf (result_err outcome) result error.old error.new }
{
    match outcome {
        Ok(()) => 0,
        Err(why) => {
            *error = why.additional();
            WITH_ERROR_TYPE
        }
    }
}

/// A factory reset at the device itself, as SystemCommand `82` makes it: an image is to be saved
/// then. Refused as `iol_params_set`: with 252, 250, and 249 while an activity is under way.
#[unsafe(no_mangle)]
pub extern "C" fn iol_params_reset(alloc: Global, handle: &mut IolParams, error: &mut u8) -> u8
    ensures guards { GuardsParams result handle.old handle.new }
    ensures untouched { IsFalse handle.old.is_open → error.new ≡ error.old }
    ensures waits { IsTrue handle.old.is_open →
        IsFalse (is_nothing (params_sensor handle.old).unsaved) → (result ≡ 250)
        × (params_sensor handle.new ≡ params_sensor handle.old) × (error.new ≡ error.old) }
    ensures makes { IsTrue handle.old.is_open →
        IsTrue (is_nothing (params_sensor handle.old).unsaved) →
        let s = params_manager handle.old in params_sensor handle.new
        ≡ sensor_after_change (local_reset s.table s.state) (params_sensor handle.old) }
    ensures reported { IsTrue handle.old.is_open →
        IsTrue (is_nothing (params_sensor handle.old).unsaved) →
        let s = params_manager handle.old in
        IsChangeOf (local_reset s.table s.state).0 result error.old error.new }
{
    if !handle.is_open {
        return CLOSED;
    }
    let mut sensor = handle.take_box(alloc);
    let outcome = if sensor.unsaved.is_nothing() {
        Some(sensor.reset())
    } else {
        None
    };
    *handle = IolParams::of(sensor);
    match outcome {
        Some(outcome) => show_change(outcome, error),
        None => NOT_SAVED,
    }
}

/// The value in force at a place of the table.
///
/// 0, or the first of 252 where the handle is closed, and 249 where there is no such place: `error`
/// is the AdditionalCode then. It changes nothing.
#[unsafe(no_mangle)]
pub extern "C" fn iol_params_value(
    alloc: Global,
    handle: &mut IolParams,
    index: u16,
    sub: u8,
    out: &mut IolValue,
    error: &mut u8,
) -> u8
    ensures guards { GuardsParams result handle.old handle.new }
    ensures untouched { IsFalse handle.old.is_open →
        (out.new ≡ out.old) × (error.new ≡ error.old) }
    ensures same { params_sensor handle.new ≡ params_sensor handle.old }
    ensures value { IsTrue handle.old.is_open → let s = params_manager handle.old in
        IsValueOf (read_answer s.table s.state (place_at index sub)) result out.old out.new
        error.old error.new }
{
    if !handle.is_open {
        return CLOSED;
    }
    let place = Place { index, sub };
    let mut sensor = handle.take_box(alloc);
    let answer = sensor.manager.read(place);
    *handle = IolParams::of(sensor);
    show_value(answer, out, error)
}

/// Shows C a value, or why there is none.
fn show_value(answer: Answer, out: &mut IolValue, error: &mut u8) -> u8
    ensures { IsValueOf answer result out.old out.new error.old error.new }
{
    match answer {
        Answer::Read(octets) => {
            out.length = octets.len() as u8;
            put(octets.as_slice(), &mut out.octets);
            0
        }
        Answer::Refused(_, additional) => {
            *error = additional;
            WITH_ERROR_TYPE
        }
        Answer::Written => 0,
    }
}

/// What the program itself has to do since a reset that the master asked for, once the answer was
/// sent: 0 nothing, 1 begin anew, as after a power cycle, 2 send nothing more until the power is
/// back. 0, or 252 where the handle is closed, with `out` as it was. It changes nothing.
#[unsafe(no_mangle)]
pub extern "C" fn iol_params_restart(alloc: Global, handle: &mut IolParams, out: &mut u8) -> u8
    ensures guards { GuardsParams result handle.old handle.new }
    ensures untouched { IsFalse handle.old.is_open → out.new ≡ out.old }
    ensures same { params_sensor handle.new ≡ params_sensor handle.old }
    ensures restart { IsTrue handle.old.is_open → (result ≡ 0)
        × (out.new ≡ restart_number (params_manager handle.old).state.restart) }
{
    if !handle.is_open {
        return CLOSED;
    }
    let sensor = handle.take_box(alloc);
    *out = restart_number(sensor.manager.restart());
    *handle = IolParams::of(sensor);
    0
}

fn restart_number(restart: Restart) -> u8
    ensures { result ≡ restart_number restart }
{
    match restart {
        Restart::NotDue => 0,
        Restart::Warm => 1,
        Restart::Silent => 2,
    }
}

/// The Device access locks, the low octet of Index 12; of its bits the program obeys bit 3, which
/// locks the user interface. 0, or 252 where the handle is closed, with `out` as it was. It changes
/// nothing.
#[unsafe(no_mangle)]
pub extern "C" fn iol_params_locks(alloc: Global, handle: &mut IolParams, out: &mut u8) -> u8
    ensures guards { GuardsParams result handle.old handle.new }
    ensures untouched { IsFalse handle.old.is_open → out.new ≡ out.old }
    ensures same { params_sensor handle.new ≡ params_sensor handle.old }
    ensures octet { IsTrue handle.old.is_open → (result ≡ 0)
        × (out.new ≡ locks_octet (params_manager handle.old).state.locks) }
{
    if !handle.is_open {
        return CLOSED;
    }
    let sensor = handle.take_box(alloc);
    *out = sensor.manager.locks().octet();
    *handle = IolParams::of(sensor);
    0
}
