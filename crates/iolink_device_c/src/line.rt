//! The line: what came, and what is sent back.
ghost use Rattle.std.specs.Prelude.{◌≡◌, length, take, unwrap_or, [], Some, IsTrue, IsFalse};
ghost use Rattle.iol_far.specs.Far.{hear, layout_of};
ghost use Rattle.iol_far.specs.Octets.{octets_in};
ghost use Rattle.iol_device.specs.Number.{number_after};
ghost use Rattle.iol_device.specs.Silence.{silent_after};
ghost use Rattle.iolink_device_c.specs.Calls.{far_of, number_of, silent_of, call_heard, Guards};
ghost use Rattle.iolink_device_c.specs.LineCalls.{NotesHeard};

use crate::held::IolDevice;
use core::mem::replace_with;
use iol_device::{Apart, Device, DeviceMode, NoRecord};
use iol_mseq::{Layout, Message};
use iol_page::Page;
use iol_print::LineCall;
use iolink_handle::{CLOSED, copy_of, put};
use std::alloc::Global;

/// The most octets of a message that are noted: no master sends more.
const LONGEST: usize = 66;

/// A reply: `length` octets, none where that is 0.
#[repr(C)]
pub struct IolReply {
    pub length: u8,
    pub octets: [u8; 66],
}

/// These octets came: 0 and what is sent back, or 252 where the handle is closed,
/// with `out` as it was.
#[unsafe(no_mangle)]
pub extern "C" fn iol_device_hear(
    alloc: Global,
    handle: &mut IolDevice,
    octets: &[u8],
    out: &mut IolReply,
) -> u8
    ensures guards { Guards result handle.old handle.new }
    ensures untouched { IsFalse handle.old.is_open → out.new ≡ out.old }
    ensures far { IsTrue handle.old.is_open →
        (result ≡ 0) × (far_of handle.new ≡ (hear (far_of handle.old) octets.now).far) }
    ensures number { IsTrue handle.old.is_open → number_of handle.new
        ≡ number_after (number_of handle.old) (far_of handle.old) octets.now }
    ensures silent { IsTrue handle.old.is_open → silent_of handle.new
        ≡ silent_after (silent_of handle.old) (far_of handle.old) octets.now }
    ensures length { IsTrue handle.old.is_open → out.new.length
        ≡ length (unwrap_or (hear (far_of handle.old) octets.now).reply []) }
    ensures passed { IsTrue handle.old.is_open → NotesHeard (layout_of (far_of handle.new))
        octets.now (hear (far_of handle.old) octets.now).reply (call_heard handle.new) }
    ensures reply { IsTrue handle.old.is_open → take out.new.length out.new.octets
        ≡ unwrap_or (hear (far_of handle.old) octets.now).reply [] }
{
    if !handle.is_open {
        return CLOSED;
    }
    let reply = replace_with(handle, (alloc, octets), |handle, (alloc, octets)| {
        let mut sensor = handle.into_box(alloc);
        let reply = sensor.device.hear(octets);
        sensor.passed = Some(heard(&sensor.device, octets, &reply));
        (IolDevice::of(sensor), reply)
    });
    match reply {
        Some(reply) => {
            out.length = reply.len() as u8;
            put(reply.as_slice(), &mut out.octets);
        }
        None => out.length = 0,
    }
    0
}

/// What came, in the layout that the device speaks by now, and what it sends back.
fn heard(device: &Device<Apart, NoRecord>, octets: &[u8], reply: &Option<Message>) -> LineCall
    ensures { NotesHeard (layout_of device.now.far) octets.now (octets_in reply.now) (Some result) }
{
    LineCall::Exchange(layout_of(device), first_of(octets), copy_of(reply))
}

/// The first octets, as many as are noted.
#[tactic(auto, using(std::proofs::lemmas::List::take_min))]
fn first_of(octets: &[u8]) -> Message
    ensures { result.items ≡ take LONGEST octets.now }
{
    let count = LONGEST.min(octets.len());
    Message::try_from(&octets[..count]).unwrap()
}

/// The layout of the mode.
#[tactic(auto, unfolding(iol_far::specs::Codec::layout_in))]
fn layout_of(device: &Device<Apart, NoRecord>) -> Layout
    ensures { result ≡ layout_of device.now.far }
{
    let Ok(layouts) = Page::from_octets(device.page()).layouts() else {
        return Layout::startup();
    };
    match device.mode() {
        DeviceMode::Startup => Layout::startup(),
        DeviceMode::Preoperate => layouts.pre.unwrap_or(Layout::startup()),
        DeviceMode::Operate => layouts.run,
    }
}
