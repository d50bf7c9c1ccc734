//! Requests: the one that is handed over, and its answer.
ghost use Rattle.std.specs.Prelude.{◌≡◌, ◌≤◌, ◌<◌, length, unwrap_or, IsTrue, IsFalse};
ghost use Rattle.iol_far.specs.Isdu.{handed_request};
ghost use Rattle.iol_isdu.specs.declared.values.Answer.TheVariants as answer;
ghost use Rattle.iol_device.specs.Number.{handed_number};
ghost use Rattle.iolink_device_c.specs.Calls.{device_of, far_of, number_of, silent_of, call_heard, Answers, read_of, Guards};
ghost use Rattle.iolink_device_c.specs.Shown.{IsShown};

use crate::held::IolDevice;
use core::mem::replace_with;
use iol_isdu::{Answer, Octets};
use iolink_handle::{CLOSED, IolRequest, show_request};
use std::alloc::Global;

const NONE: u8 = 0;

const DATA_TOO_LONG: u8 = 9;

/// The request that is handed over and has no answer yet, of kind 0 where there is none, and
/// its number: 0, or 252 where the handle is closed, with `number` and `out` as they were. It
/// changes nothing.
#[unsafe(no_mangle)]
pub extern "C" fn iol_device_handed(
    alloc: Global,
    handle: &mut IolDevice,
    number: &mut u64,
    out: &mut IolRequest,
) -> u8
    ensures guards { Guards result handle.old handle.new }
    ensures untouched { IsFalse handle.old.is_open →
        (number.new ≡ number.old) × (out.new ≡ out.old) }
    ensures same { handle.new.held.value ≡ handle.old.held.value }
    ensures done { IsTrue handle.old.is_open → result ≡ 0 }
    ensures number { IsTrue handle.old.is_open →
        number.new ≡ unwrap_or (handed_number (device_of handle.old)) 0 }
    ensures shown { IsTrue handle.old.is_open
        → IsShown (handed_request (far_of handle.old).isdu) out.new }
{
    if !handle.is_open {
        return CLOSED;
    }
    let (handed, request) = replace_with(handle, alloc, |handle, alloc| {
        let sensor = handle.into_box(alloc);
        let handed = sensor.device.handed_number().unwrap_or(0);
        let request = match sensor.device.handed() {
            Some(request) => Some(request.clone().unwrap()),
            None => None,
        };
        (IolDevice::of(sensor), (handed, request))
    });
    *number = handed;
    match request {
        Some(request) => show_request(&request, out),
        None => out.kind = NONE,
    }
    0
}

fn answered(alloc: Global, handle: &mut IolDevice, number: u64, answer: Answer) -> u8
    requires { IsTrue handle.old.is_open }
    ensures stays { handle.new.is_open ≡ handle.old.is_open }
    ensures answer { Answers number answer handle.old result handle.new }
    ensures number { number_of handle.new ≡ number_of handle.old }
    ensures silent { silent_of handle.new ≡ silent_of handle.old }
    ensures passed { call_heard handle.new ≡ call_heard handle.old }
{
    replace_with(
        handle,
        (alloc, number, answer),
        |handle, (alloc, number, answer)| {
            let mut sensor = handle.into_box(alloc);
            let code = match sensor.device.answer(number, answer) {
                Ok(()) => 0,
                Err(fault) => fault.code(),
            };
            (IolDevice::of(sensor), code)
        },
    )
}

/// The read that is handed over under this number gave these octets.
///
/// 0, or the first of these that holds, with nothing changed: 252 the handle is closed; 9 more
/// than 232 octets; 37 another request is handed over, or none; 14 it is a write.
#[unsafe(no_mangle)]
pub extern "C" fn iol_device_answer_read(
    alloc: Global,
    handle: &mut IolDevice,
    number: u64,
    octets: &[u8],
) -> u8
    ensures guards { Guards result handle.old handle.new }
    ensures long { IsTrue handle.old.is_open → 232 < length octets.now → (result ≡ 9)
        × (handle.new ≡ handle.old) }
    ensures answer { IsTrue handle.old.is_open → length octets.now ≤ 232 →
        Answers number (read_of octets.now) handle.old result handle.new }
    ensures number { number_of handle.new ≡ number_of handle.old }
    ensures silent { silent_of handle.new ≡ silent_of handle.old }
    ensures passed { call_heard handle.new ≡ call_heard handle.old }
{
    if !handle.is_open {
        return CLOSED;
    }
    match Octets::try_from(octets) {
        Ok(octets) => answered(alloc, handle, number, Answer::Read(octets)),
        Err(_) => DATA_TOO_LONG,
    }
}

/// The write that is handed over under this number is done.
///
/// 0, or the first of these that holds, with nothing changed: 252 the handle is closed; 37
/// another request is handed over, or none; 14 it is a read.
#[unsafe(no_mangle)]
pub extern "C" fn iol_device_answer_written(
    alloc: Global,
    handle: &mut IolDevice,
    number: u64,
) -> u8
    ensures guards { Guards result handle.old handle.new }
    ensures answer { IsTrue handle.old.is_open
        → Answers number answer.Written handle.old result handle.new }
    ensures number { number_of handle.new ≡ number_of handle.old }
    ensures silent { silent_of handle.new ≡ silent_of handle.old }
    ensures passed { call_heard handle.new ≡ call_heard handle.old }
{
    if !handle.is_open {
        return CLOSED;
    }
    answered(alloc, handle, number, Answer::Written)
}

/// The request that is handed over under this number is refused, with ErrorCode and
/// AdditionalCode.
///
/// 0, or the first of these that holds, with nothing changed: 252 the handle is closed; 37
/// another request is handed over, or none.
#[unsafe(no_mangle)]
pub extern "C" fn iol_device_answer_refused(
    alloc: Global,
    handle: &mut IolDevice,
    number: u64,
    code: u8,
    additional: u8,
) -> u8
    ensures guards { Guards result handle.old handle.new }
    ensures answer { IsTrue handle.old.is_open →
        Answers number (answer.Refused code additional) handle.old result handle.new }
    ensures number { number_of handle.new ≡ number_of handle.old }
    ensures silent { silent_of handle.new ≡ silent_of handle.old }
    ensures passed { call_heard handle.new ≡ call_heard handle.old }
{
    if !handle.is_open {
        return CLOSED;
    }
    answered(alloc, handle, number, Answer::Refused(code, additional))
}
