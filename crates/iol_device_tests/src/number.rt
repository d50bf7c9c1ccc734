//! Tests of the numbers of requests, at a device of each kind. `tests/rows/probe` has those of a
//! device of our own alone.
ghost use Rattle.std.specs.Prelude.{◌≡◌};

use iol_device::{Apart, Device, DeviceFault};
use iol_far::{HandsOver, Kind, Recalls};
use iol_isdu::Answer;
use iol_page::Page;
use iol_peers::PLAIN;
use std::alloc::Global;
use std::process::Abort;
use std::test::Fail;

/// DevicePreoperate in STARTUP, and DeviceOperate in PREOPERATE.
const INTO_PREOPERATE: &[u8] = &[0x20, 0x36, 0x9A];

const INTO_OPERATE: &[u8] = &[0x20, 0x5E, 0x99, 0, 0, 0, 0, 0, 0, 0];

/// A START write of the whole read of parameter 16, and of parameter 17.
const READ_16: &[u8] = &[0x70, 0x5D, 0x93, 0x10, 0x83, 0, 0, 0, 0, 0];

const READ_17: &[u8] = &[0x70, 0x5D, 0x93, 0x11, 0x82, 0, 0, 0, 0, 0];

/// A write of six octets to parameter 16: the START write, and the last segment under COUNT 1.
const WRITE_16: &[u8] = &[0x70, 0x4C, 0x19, 0x10, 1, 2, 3, 4, 5, 6];

const LAST_OF_WRITE_16: &[u8] = &[0x61, 0x49, 0x0E, 0, 0, 0, 0, 0, 0, 0];

const START_READ: &[u8] = &[0xF0, 0x75];

/// Each kind that there is.
fn kinds() -> [Kind; 4] {
    let kind = |hands_over, recalls| Kind {
        hands_over,
        recalls,
    };
    [
        kind(HandsOver::FirstRead, Recalls::UntilLeft),
        kind(HandsOver::FirstRead, Recalls::UntilSent),
        kind(HandsOver::LastSegment, Recalls::UntilLeft),
        kind(HandsOver::LastSegment, Recalls::UntilSent),
    ]
}

/// A message, and the number of the request that is handed over behind it, if one is.
#[derive(Clone, Copy)]
struct Step {
    message: &'static [u8],
    /// At a device that hands over at the first START read.
    first_read: Option<u64>,
    /// At a device that hands over with the last segment.
    last_segment: Option<u64>,
}

impl Step {
    fn new(message: &'static [u8], first_read: Option<u64>, last_segment: Option<u64>) -> Step {
        Step {
            message,
            first_read,
            last_segment,
        }
    }

    fn number_at(&self, kind: Kind) -> Option<u64> {
        match kind.hands_over {
            HandsOver::FirstRead => self.first_read,
            HandsOver::LastSegment => self.last_segment,
        }
    }
}

/// A device of this kind, whose answers come from elsewhere, with DevicePreoperate heard.
fn opened(alloc: Global, kind: Kind) -> Result<Device<Apart>, Fail> {
    let page = Page::from_octets(&PLAIN);
    let mut device = Device::open_as(alloc, kind, Apart, page, 4).map_err(|refused| refused.0)?;
    device.wake();
    device.hear(INTO_PREOPERATE);
    Ok(device)
}

/// At a device of each kind, the numbers behind these messages are as the steps say.
fn check_numbers(rt: &impl Abort, alloc: Global, steps: &[Step]) -> Result<(), Fail> {
    for kind in kinds() {
        let mut device = opened(alloc, kind)?;
        for step in steps {
            device.hear(step.message);
            assert_eq!(rt; device.handed_number(), step.number_at(kind), "{kind:?}");
        }
    }
    Ok(())
}

/// A read is written, the same one anew, and another one. Behind each the device is asked twice.
#[test]
fn each_hand_over_takes_the_next_number(rt: HostRuntime) -> Result<(), Fail> {
    let steps = [
        Step::new(READ_16, None, Some(1)),
        Step::new(START_READ, Some(1), Some(1)),
        Step::new(START_READ, Some(1), Some(1)),
        Step::new(READ_16, None, Some(2)),
        Step::new(READ_16, None, Some(3)),
        Step::new(START_READ, Some(2), Some(3)),
        Step::new(READ_17, None, Some(4)),
        Step::new(START_READ, Some(3), Some(4)),
        Step::new(START_READ, Some(3), Some(4)),
    ];
    check_numbers(&rt, rt.alloc(), &steps)
}

/// The last segment of a request that has several hands it over once, however often it comes.
#[test]
fn a_repeated_last_segment_keeps_the_number(rt: HostRuntime) -> Result<(), Fail> {
    let steps = [
        Step::new(WRITE_16, None, None),
        Step::new(LAST_OF_WRITE_16, None, Some(1)),
        Step::new(LAST_OF_WRITE_16, None, Some(1)),
        Step::new(START_READ, Some(1), Some(1)),
        Step::new(WRITE_16, None, None),
        Step::new(WRITE_16, None, None),
        Step::new(LAST_OF_WRITE_16, None, Some(2)),
        Step::new(LAST_OF_WRITE_16, None, Some(2)),
        Step::new(START_READ, Some(2), Some(2)),
    ];
    check_numbers(&rt, rt.alloc(), &steps)
}

/// The first message of another mode drops the request, and may hand the next one over.
#[test]
fn another_mode_takes_the_next_number(rt: HostRuntime) -> Result<(), Fail> {
    let steps = [
        Step::new(READ_16, None, Some(1)),
        Step::new(START_READ, Some(1), Some(1)),
        Step::new(INTO_OPERATE, Some(1), Some(1)),
        Step::new(READ_16, None, Some(2)),
        Step::new(START_READ, Some(2), Some(2)),
    ];
    check_numbers(&rt, rt.alloc(), &steps)
}

/// An answer that was brought for a request is never that of the same request, written anew.
#[test]
fn an_answer_for_the_request_before_is_refused(rt: HostRuntime) -> Result<(), Fail> {
    let refused = Answer::Refused(0x80, 0x11);
    for kind in kinds() {
        let mut device = opened(rt.alloc(), kind)?;
        for message in [READ_16, START_READ, READ_16, START_READ] {
            device.hear(message);
        }
        assert_eq!(rt;
            device.answer(1, refused.clone()?),
            Err(DeviceFault::OtherRequest)
        );
        assert_eq!(rt;
            device.answer(3, refused.clone()?),
            Err(DeviceFault::OtherRequest)
        );
        assert_eq!(rt; device.answer(2, refused.clone()?), Ok(()));
        assert_eq!(rt;
            device.answer(2, refused.clone()?),
            Err(DeviceFault::OtherRequest)
        );
        assert_eq!(rt; device.carried().len(), 1, "{kind:?}");
    }
    Ok(())
}

/// Numbers go on behind the one that is given.
#[test]
fn numbers_go_on(rt: HostRuntime) {
    for (last, first) in [(0, 1), (41, 42), (u64::MAX, 0)] {
        let mut device = Device::new_from(Apart, Page::from_octets(&PLAIN), last);
        device.wake();
        device.hear(INTO_PREOPERATE);
        device.hear(READ_16);
        device.hear(START_READ);
        assert_eq!(rt; device.handed_number(), Some(first));
    }
}
