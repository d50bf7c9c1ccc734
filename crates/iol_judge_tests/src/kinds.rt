//! Which kind of device it must be shows on the line of each.
ghost use Rattle.std.specs.Prelude.{◌≡◌};

use iol_device::{App, Device, Record};
use iol_far::{HandsOver, Kind, Recalls};
use iol_isdu::{Answer, Request};
use iol_judge::{Judge, Kinds, Odd, Reason, Verdict, Wake};
use iol_mseq::Message;
use iol_octets::checksum6;
use iol_page::Page;
use iol_peers::PLAIN;
use std::alloc::Global;

/// Refuses each request: index not available. The answer has four octets, none of which is 0.
#[derive(Clone, Copy)]
pub(crate) struct Refuses;

impl App for Refuses {
    ghost carry_out_gives = { λ app request answer next. next ≡ app };

    fn carry_out(&mut self, _request: &Request) -> Answer {
        Answer::Refused(0x80, 0x11)
    }
}

/// The four kinds of device.
pub(crate) const KINDS: [Kind; 4] = [
    Kind {
        hands_over: HandsOver::FirstRead,
        recalls: Recalls::UntilLeft,
    },
    Kind {
        hands_over: HandsOver::FirstRead,
        recalls: Recalls::UntilSent,
    },
    Kind {
        hands_over: HandsOver::LastSegment,
        recalls: Recalls::UntilLeft,
    },
    Kind {
        hands_over: HandsOver::LastSegment,
        recalls: Recalls::UntilSent,
    },
];

/// The room of a record: more than a test's requests need.
pub(crate) const ROOM: u32 = 1000;

/// The segments of the request to read Index 16, in the layout of STARTUP: the control octet, and
/// the octet of the text.
const REQUEST: [(u8, u8); 3] = [(0x70, 0x93), (0x61, 0x10), (0x62, 0x83)];

/// The last of them.
const LAST: (u8, u8) = (0x62, 0x83);

/// A read of the answer's first segment, and those of the others; the last is read twice.
const START: u8 = 0xF0;

const BEHIND: [u8; 4] = [0xE1, 0xE2, 0xE3, 0xE3];

/// A message in the layout of STARTUP.
fn message(control: u8, octet: Option<u8>) -> Message {
    let mut sent = Message::new();
    sent.push(control);
    sent.push(0);
    if let Some(octet) = octet {
        sent.push(octet);
    }
    let sum = checksum6(&sent);
    sent[1] |= sum;
    sent
}

/// What a device makes of a message comes to its judge.
fn pass<R: Record>(device: &mut Device<Refuses, R>, judge: &mut Judge, sent: &Message) {
    match device.hear(sent) {
        Some(reply) => judge.exchange(sent, Some(&reply)),
        None => judge.exchange(sent, None),
    }
}

fn read<R: Record>(device: &mut Device<Refuses, R>, judge: &mut Judge, control: u8) {
    pass(device, judge, &message(control, None));
}

fn write<R: Record>(device: &mut Device<Refuses, R>, judge: &mut Judge, part: (u8, u8)) {
    pass(device, judge, &message(part.0, Some(part.1)));
}

/// A judge of the line of this device, whose application had a request that was answered, with all
/// segments read, and one of which the last segment was written again behind the first read.
fn judge_of<R: Record>(device: &mut Device<Refuses, R>) -> Judge {
    let mut judge = Judge::new(Odd::Blamed);
    judge.page(&PLAIN);
    device.wake();
    judge.wake(Wake::Answered);
    for part in &REQUEST {
        write(device, &mut judge, *part);
    }
    device.work();
    read(device, &mut judge, START);
    device.work();
    read(device, &mut judge, START);
    for control in &BEHIND {
        read(device, &mut judge, *control);
    }
    for part in &REQUEST {
        write(device, &mut judge, *part);
    }
    read(device, &mut judge, START);
    write(device, &mut judge, LAST);
    read(device, &mut judge, START);
    judge
}

/// Whether a judge finds nothing against a device, and that it is of this kind.
fn is_only(judge: &Judge, kind: Kind) -> bool {
    judge.verdict() == Verdict::Honest
        && judge.kinds() == Kinds::only(kind)
        && judge.kinds().has(kind)
}

/// Whether the kind of a device shows, and stays over wake-up requests, lost or not, and a power
/// cycle.
fn shows<R: Record>(device: &mut Device<Refuses, R>, kind: Kind) -> bool {
    let mut judge = judge_of(device);
    let is_shown = is_only(&judge, kind);
    judge.wake(Wake::Unanswered);
    device.power_cycle();
    device.wake();
    judge.wake(Wake::Answered);
    read(device, &mut judge, 0xA2);
    is_shown && is_only(&judge, kind)
}

fn kind_shows(alloc: Global, kind: Kind) -> bool {
    match Device::open_as(alloc, kind, Refuses, Page::from_octets(&PLAIN), ROOM) {
        Ok(mut device) => shows(&mut device, kind),
        Err(_) => false,
    }
}

#[test]
fn the_kind_of_a_device_shows(rt: HostRuntime) {
    for kind in &KINDS {
        assert!(rt; kind_shows(rt.alloc(), *kind));
    }
}

/// Which of the kinds are left, in the order of `KINDS`.
pub(crate) fn left(judge: &Judge) -> [bool; 4] {
    let kinds = judge.kinds();
    [
        kinds.has(KINDS[0]),
        kinds.has(KINDS[1]),
        kinds.has(KINDS[2]),
        kinds.has(KINDS[3]),
    ]
}

/// Replies to START reads behind a whole request, in the layout of STARTUP: none that can be read,
/// zero, busy, and the first octet of an answer.
const NONE: Option<&[u8]> = None;

const ZERO: Option<&[u8]> = Some(&[0x00, 0x2D]);

const BUSY: Option<&[u8]> = Some(&[0x01, 0x3C]);

const ANSWER: Option<&[u8]> = Some(&[0xC4, 0x0F]);

/// The reply to a write.
const DONE: Option<&[u8]> = Some(&[0x2D]);

/// A judge that was told a request, and no more.
fn judge_behind() -> Judge {
    let mut judge = Judge::new(Odd::Blamed);
    judge.page(&PLAIN);
    judge.wake(Wake::Answered);
    for part in &REQUEST {
        judge.exchange(&message(part.0, Some(part.1)), DONE);
    }
    judge
}

/// A judge that was told a request, and these replies to START reads.
fn judge_of_reads(replies: &[Option<&[u8]>]) -> Judge {
    let mut judge = judge_behind();
    for reply in replies {
        judge.exchange(&message(START, None), *reply);
    }
    judge
}

/// All kinds are left where nothing tells them apart, and none where no device is.
#[test]
fn all_kinds_are_left_or_none(rt: HostRuntime) {
    assert!(rt; Judge::new(Odd::Blamed).kinds() == Kinds::all());
    let mut judge = judge_of_reads(&[BUSY, NONE, BUSY]);
    assert!(rt; left(&judge) == [true, true, true, true]);
    judge.exchange(&message(0xF1, None), BUSY);
    assert!(rt; judge.verdict() == Verdict::NotHonest(7, Reason::NoAnswerDue));
    assert!(rt; judge.kinds() == Kinds::none());
}

/// No device forgets an answer of which it sent one octet, since the shortest has two.
#[test]
fn an_octet_is_no_answer(rt: HostRuntime) {
    assert!(rt; judge_of_reads(&[BUSY, NONE]).verdict() == Verdict::Honest);
    assert!(rt; judge_of_reads(&[BUSY, NONE, ZERO]).kinds() == Kinds::none());
}

/// Which kinds are left where the last segment of a request comes again behind a START read with
/// the first reply, and another START read has the second.
fn left_by(first: Option<&[u8]>, second: Option<&[u8]>) -> [bool; 4] {
    let mut judge = judge_behind();
    judge.exchange(&message(START, None), first);
    judge.exchange(&message(LAST.0, Some(LAST.1)), DONE);
    judge.exchange(&message(START, None), second);
    left(&judge)
}

/// The two replies, and the kinds that are left.
type Case = (Option<&'static [u8]>, Option<&'static [u8]>, [bool; 4]);

const CASES: [Case; 6] = [
    (BUSY, BUSY, [false, false, true, true]),
    (BUSY, ZERO, [true, true, false, false]),
    (NONE, BUSY, [true, true, true, true]),
    (NONE, ZERO, [true, true, true, true]),
    (ANSWER, ZERO, [false, false, true, true]),
    (NONE, ANSWER, [false, false, true, true]),
];

/// A device that hands over at the last segment takes that again, unless an answer was sent; any
/// other drops the request, if it heard the read.
#[test]
fn a_segment_again_tells_kinds_apart(rt: HostRuntime) {
    for (first, second, kinds) in &CASES {
        assert!(rt; left_by(*first, *second) == *kinds);
    }
}
