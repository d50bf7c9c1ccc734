//! The watch on lists of calls: a run by the rules, and the shortest list for each fault.

use iol_judge::{Blame, MasterVerdict, Wake, Watch};
use std::test::Fail;

/// The octets that were sent, and those that came back, if any did.
type Exchange = (&'static [u8], Option<&'static [u8]>);

/// Two octets of process data in and one out, one octet of on-request data, ISDU; MinCycleTime is
/// 2.3 ms.
const PAGE: [u8; 10] = [0x17, 0x01, 0x11, 0x10, 0x08, 0x12, 0x34, 0x00, 0x01, 0x07];

/// The reads of the page.
const READS: [Exchange; 10] = [
    (&[0xA2, 0x00], Some(&[0x17, 0x1B])),
    (&[0xA3, 0x11], Some(&[0x01, 0x3C])),
    (&[0xA4, 0x33], Some(&[0x11, 0x28])),
    (&[0xA5, 0x22], Some(&[0x10, 0x39])),
    (&[0xA6, 0x12], Some(&[0x08, 0x0F])),
    (&[0xA7, 0x03], Some(&[0x12, 0x18])),
    (&[0xA8, 0x03], Some(&[0x34, 0x0F])),
    (&[0xA9, 0x12], Some(&[0x00, 0x2D])),
    (&[0xAA, 0x22], Some(&[0x01, 0x3C])),
    (&[0xAB, 0x33], Some(&[0x07, 0x0F])),
];

/// MasterIdent, DevicePreoperate, MasterCycleTime, DeviceOperate.
const MODES: [Exchange; 4] = [
    (&[0x20, 0x36, 0x95], Some(&[0x2D])),
    (&[0x20, 0x36, 0x9A], Some(&[0x2D])),
    (&[0x21, 0x2E, 0x17], Some(&[0x2D])),
    (&[0x20, 0x06, 0x99], Some(&[0x2D])),
];

/// A read of 16/0: a reply is lost, it is busy, the answer comes in four segments.
const READING: [Exchange; 12] = [
    (&[0x70, 0xA1, 0x00, 0x93], Some(&[0x12, 0x34, 0x3A])),
    (&[0x61, 0xBC, 0x00, 0x10], None),
    (&[0x61, 0xBC, 0x00, 0x10], Some(&[0x12, 0x34])),
    (&[0x61, 0xBC, 0x00, 0x10], Some(&[0x12, 0x34, 0x3A])),
    (&[0x62, 0x80, 0x00, 0x83], Some(&[0x12, 0x34, 0x3A])),
    (&[0xF0, 0x85, 0x00], Some(&[0x01, 0x12, 0x34, 0x2B])),
    (&[0xF0, 0x85, 0x00], Some(&[0x01, 0x12, 0x34, 0x2B])),
    (&[0xF0, 0x85, 0x00], Some(&[0xD4, 0x12, 0x34, 0x0C])),
    (&[0xE1, 0x80, 0x00], Some(&[0x41, 0x12, 0x34, 0x33])),
    (&[0xE2, 0xB0, 0x00], Some(&[0x42, 0x12, 0x34, 0x03])),
    (&[0xE3, 0xA1, 0x00], Some(&[0xD7, 0x12, 0x34, 0x3C])),
    (&[0xF1, 0x94, 0x00], Some(&[0x00, 0x12, 0x34, 0x3A])),
];

/// A write of 24/0: its text has 20 octets, so that COUNT goes on behind 15.
const WRITING: [Exchange; 22] = [
    (&[0x70, 0xA8, 0x00, 0x11], Some(&[0x12, 0x34, 0x3A])),
    (&[0x61, 0xAE, 0x00, 0x14], Some(&[0x12, 0x34, 0x3A])),
    (&[0x62, 0xAE, 0x00, 0x18], Some(&[0x12, 0x34, 0x3A])),
    (&[0x63, 0x89, 0x00, 0x00], Some(&[0x12, 0x34, 0x3A])),
    (&[0x64, 0xBA, 0x00, 0x01], Some(&[0x12, 0x34, 0x3A])),
    (&[0x65, 0x9B, 0x00, 0x02], Some(&[0x12, 0x34, 0x3A])),
    (&[0x66, 0xBA, 0x00, 0x03], Some(&[0x12, 0x34, 0x3A])),
    (&[0x67, 0x89, 0x00, 0x04], Some(&[0x12, 0x34, 0x3A])),
    (&[0x68, 0x98, 0x00, 0x05], Some(&[0x12, 0x34, 0x3A])),
    (&[0x69, 0xB9, 0x00, 0x06], Some(&[0x12, 0x34, 0x3A])),
    (&[0x6A, 0x98, 0x00, 0x07], Some(&[0x12, 0x34, 0x3A])),
    (&[0x6B, 0x89, 0x00, 0x08], Some(&[0x12, 0x34, 0x3A])),
    (&[0x6C, 0xBA, 0x00, 0x09], Some(&[0x12, 0x34, 0x3A])),
    (&[0x6D, 0x9B, 0x00, 0x0A], Some(&[0x12, 0x34, 0x3A])),
    (&[0x6E, 0xBA, 0x00, 0x0B], Some(&[0x12, 0x34, 0x3A])),
    (&[0x6F, 0x89, 0x00, 0x0C], Some(&[0x12, 0x34, 0x3A])),
    (&[0x60, 0x98, 0x00, 0x0D], Some(&[0x12, 0x34, 0x3A])),
    (&[0x61, 0xB9, 0x00, 0x0E], Some(&[0x12, 0x34, 0x3A])),
    (&[0x62, 0x98, 0x00, 0x0F], Some(&[0x12, 0x34, 0x3A])),
    (&[0x63, 0xBC, 0x00, 0x1D], Some(&[0x12, 0x34, 0x3A])),
    (&[0xF0, 0x85, 0x00], Some(&[0x52, 0x12, 0x34, 0x17])),
    (&[0xE1, 0x80, 0x00], Some(&[0x52, 0x12, 0x34, 0x17])),
];

/// One event: the StatusCode, three octets, the confirm.
const EVENTS: [Exchange; 7] = [
    (&[0xF1, 0x94, 0x00], Some(&[0x00, 0x12, 0x34, 0x92])),
    (&[0xC0, 0xB5, 0x00], Some(&[0x81, 0x12, 0x34, 0xAB])),
    (&[0xC1, 0xA4, 0x00], Some(&[0x54, 0x12, 0x34, 0x8C])),
    (&[0xC2, 0x94, 0x00], Some(&[0x18, 0x12, 0x34, 0xA4])),
    (&[0xC3, 0x85, 0x00], Some(&[0x01, 0x12, 0x34, 0x83])),
    (&[0x40, 0x9D, 0x00, 0x00], Some(&[0x12, 0x34, 0x3A])),
    (&[0xF1, 0x94, 0x00], Some(&[0x00, 0x12, 0x34, 0x3A])),
];

/// Answers that are none: no service, and a wrong CHKPDU. An ABORT goes out for each.
const ABORTS: [Exchange; 11] = [
    (&[0x70, 0xA1, 0x00, 0x93], Some(&[0x12, 0x34, 0x3A])),
    (&[0x61, 0xBC, 0x00, 0x10], Some(&[0x12, 0x34, 0x3A])),
    (&[0x62, 0x80, 0x00, 0x83], Some(&[0x12, 0x34, 0x3A])),
    (&[0xF0, 0x85, 0x00], Some(&[0x00, 0x12, 0x34, 0x3A])),
    (&[0xFF, 0x85, 0x00], Some(&[0x00, 0x12, 0x34, 0x3A])),
    (&[0x70, 0xA1, 0x00, 0x93], Some(&[0x12, 0x34, 0x3A])),
    (&[0x61, 0xBC, 0x00, 0x10], Some(&[0x12, 0x34, 0x3A])),
    (&[0x62, 0x80, 0x00, 0x83], Some(&[0x12, 0x34, 0x3A])),
    (&[0xF0, 0x85, 0x00], Some(&[0xD2, 0x12, 0x34, 0x3F])),
    (&[0xE1, 0x80, 0x00], Some(&[0xD3, 0x12, 0x34, 0x2E])),
    (&[0xFF, 0x85, 0x00], Some(&[0x00, 0x12, 0x34, 0x3A])),
];

/// Process data out, valid and changed, then invalid again with the last octets.
const OUTPUTS: [Exchange; 4] = [
    (&[0x20, 0xB0, 0x5A, 0x98], Some(&[0x12, 0x34, 0x3A])),
    (&[0xF1, 0x8A, 0x5B], Some(&[0x00, 0x12, 0x34, 0x3A])),
    (&[0x20, 0xB0, 0x5B, 0x99], Some(&[0x12, 0x34, 0x3A])),
    (&[0xF1, 0x8A, 0x5B], Some(&[0x00, 0x12, 0x34, 0x3A])),
];

/// A fourth attempt.
const LOST: [Exchange; 4] = [
    (&[0xF1, 0x94, 0x00], None),
    (&[0xF1, 0x94, 0x00], None),
    (&[0xF1, 0x94, 0x00], None),
    (&[0xF1, 0x94, 0x00], None),
];

/// Other octets than those that had no good reply.
const ANOTHER: [Exchange; 2] = [
    (&[0xF1, 0x94, 0x00], Some(&[0xFF])),
    (&[0xC0, 0xB5, 0x00], None),
];

/// DeviceStartup in OPERATE.
const STARTUP_COMMAND: [Exchange; 1] = [(&[0x20, 0xBF, 0x00, 0x97], None)];

/// MasterCycleTime shorter than MinCycleTime.
const SHORT_CYCLE: [Exchange; 1] = [(&[0x21, 0x97, 0x00, 0x16], None)];

/// A message of STARTUP, in OPERATE.
const SHORT: [Exchange; 1] = [(&[0xA2, 0x00], None)];

/// A wrong checksum.
const DAMAGED: [Exchange; 1] = [(&[0xF1, 0x95, 0x00], None)];

/// Another octet, and nobody said that it is valid.
const CHANGED: [Exchange; 2] = [
    (&[0xF1, 0x94, 0x00], Some(&[0x00, 0x12, 0x34, 0x3A])),
    (&[0xF1, 0x9B, 0x5A], None),
];

/// COUNT without START.
const NO_START: [Exchange; 1] = [(&[0x61, 0xBC, 0x00, 0x10], None)];

/// START while a request is under way.
const SECOND_START: [Exchange; 2] = [
    (&[0x70, 0xA1, 0x00, 0x93], Some(&[0x12, 0x34, 0x3A])),
    (&[0x70, 0xA1, 0x00, 0x93], None),
];

/// An answer is asked for, and the request isn't whole.
const TOO_EARLY: [Exchange; 2] = [
    (&[0x70, 0xA1, 0x00, 0x93], Some(&[0x12, 0x34, 0x3A])),
    (&[0xF0, 0x85, 0x00], None),
];

/// COUNT of an answer that hasn't begun.
const NO_ANSWER: [Exchange; 4] = [
    (&[0x70, 0xA1, 0x00, 0x93], Some(&[0x12, 0x34, 0x3A])),
    (&[0x61, 0xBC, 0x00, 0x10], Some(&[0x12, 0x34, 0x3A])),
    (&[0x62, 0x80, 0x00, 0x83], Some(&[0x12, 0x34, 0x3A])),
    (&[0xE1, 0x80, 0x00], None),
];

/// IDLE while a request is under way.
const IDLE: [Exchange; 2] = [
    (&[0x70, 0xA1, 0x00, 0x93], Some(&[0x12, 0x34, 0x3A])),
    (&[0xF1, 0x94, 0x00], None),
];

/// ABORT of nothing.
const NO_REQUEST: [Exchange; 1] = [(&[0xFF, 0x85, 0x00], None)];

/// The first octets of an answer of three, of which the last is 0. The COUNT read for it gets no
/// reply.
const UP_TO_ZERO: [Exchange; 6] = [
    (&[0x70, 0xA1, 0x00, 0x93], Some(&[0x12, 0x34, 0x3A])),
    (&[0x61, 0xBC, 0x00, 0x10], Some(&[0x12, 0x34, 0x3A])),
    (&[0x62, 0x80, 0x00, 0x83], Some(&[0x12, 0x34, 0x3A])),
    (&[0xF0, 0x85, 0x00], Some(&[0xD3, 0x12, 0x34, 0x2E])),
    (&[0xE1, 0x80, 0x00], Some(&[0xD3, 0x12, 0x34, 0x2E])),
    (&[0xE2, 0xB0, 0x00], None),
];

/// 0 comes to the repeated COUNT read: the answer, or what a device sends that forgot it.
const ZERO: Exchange = (&[0xE2, 0xB0, 0x00], Some(&[0x00, 0x12, 0x34, 0x3A]));

/// A request begins, IDLE goes out, and ABORT.
const BEGINS: Exchange = (&[0x70, 0xA1, 0x00, 0x93], None);

const IDLES: Exchange = (&[0xF1, 0x94, 0x00], Some(&[0x00, 0x12, 0x34, 0x3A]));

const GIVES_UP: Exchange = (&[0xFF, 0x85, 0x00], Some(&[0x00, 0x12, 0x34, 0x3A]));

/// The same answer, while ProcessDataOutputOperate goes out twice between its segments, and the
/// last octet comes at once.
const ZERO_AT_ONCE: [Exchange; 8] = [
    (&[0x70, 0xA1, 0x00, 0x93], Some(&[0x12, 0x34, 0x3A])),
    (&[0x61, 0xBC, 0x00, 0x10], Some(&[0x12, 0x34, 0x3A])),
    (&[0x62, 0x80, 0x00, 0x83], Some(&[0x12, 0x34, 0x3A])),
    (&[0xF0, 0x85, 0x00], Some(&[0xD3, 0x12, 0x34, 0x2E])),
    (&[0xE1, 0x80, 0x00], Some(&[0xD3, 0x12, 0x34, 0x2E])),
    (&[0x20, 0xBF, 0x00, 0x98], None),
    (&[0x20, 0xBF, 0x00, 0x98], Some(&[0x12, 0x34, 0x3A])),
    ZERO,
];

/// An answer of five octets: the third is 0, and comes to a repeated COUNT read.
const ZERO_INSIDE: [Exchange; 7] = [
    (&[0x70, 0xA1, 0x00, 0x93], Some(&[0x12, 0x34, 0x3A])),
    (&[0x61, 0xBC, 0x00, 0x10], Some(&[0x12, 0x34, 0x3A])),
    (&[0x62, 0x80, 0x00, 0x83], Some(&[0x12, 0x34, 0x3A])),
    (&[0xF0, 0x85, 0x00], Some(&[0xD5, 0x12, 0x34, 0x1D])),
    (&[0xE1, 0x80, 0x00], Some(&[0xD5, 0x12, 0x34, 0x1D])),
    (&[0xE2, 0xB0, 0x00], None),
    ZERO,
];

/// More is asked for where no service was answered.
const GOES_ON: [Exchange; 5] = [
    (&[0x70, 0xA1, 0x00, 0x93], Some(&[0x12, 0x34, 0x3A])),
    (&[0x61, 0xBC, 0x00, 0x10], Some(&[0x12, 0x34, 0x3A])),
    (&[0x62, 0x80, 0x00, 0x83], Some(&[0x12, 0x34, 0x3A])),
    (&[0xF0, 0x85, 0x00], Some(&[0x00, 0x12, 0x34, 0x3A])),
    (&[0xF0, 0x85, 0x00], None),
];

/// A flow that is reserved.
const RESERVED: [Exchange; 1] = [(&[0xF3, 0xB5, 0x00], None)];

/// Events are read, and the flag is 0.
const NO_FLAG: [Exchange; 2] = [
    (&[0xF1, 0x94, 0x00], Some(&[0x00, 0x12, 0x34, 0x3A])),
    (&[0xC0, 0xB5, 0x00], None),
];

/// The second octet of an event before the first.
const WRONG_PLACE: [Exchange; 3] = [
    (&[0xF1, 0x94, 0x00], Some(&[0x00, 0x12, 0x34, 0x92])),
    (&[0xC0, 0xB5, 0x00], Some(&[0x81, 0x12, 0x34, 0xAB])),
    (&[0xC2, 0x94, 0x00], None),
];

/// The confirm before the events were read.
const CONFIRM: [Exchange; 3] = [
    (&[0xF1, 0x94, 0x00], Some(&[0x00, 0x12, 0x34, 0x92])),
    (&[0xC0, 0xB5, 0x00], Some(&[0x81, 0x12, 0x34, 0xAB])),
    (&[0x40, 0x9D, 0x00, 0x00], None),
];

/// A length that no text has.
const NO_LENGTH: [Exchange; 1] = [(&[0x70, 0x91, 0x00, 0x90], None)];

/// A wrong CHKPDU.
const NO_REQUEST_TEXT: [Exchange; 3] = [
    (&[0x70, 0xA1, 0x00, 0x93], Some(&[0x12, 0x34, 0x3A])),
    (&[0x61, 0xBC, 0x00, 0x10], Some(&[0x12, 0x34, 0x3A])),
    (&[0x62, 0x91, 0x00, 0x82], None),
];

/// A segment behind the request.
const BEHIND: [Exchange; 4] = [
    (&[0x70, 0xA1, 0x00, 0x93], Some(&[0x12, 0x34, 0x3A])),
    (&[0x61, 0xBC, 0x00, 0x10], Some(&[0x12, 0x34, 0x3A])),
    (&[0x62, 0x80, 0x00, 0x83], Some(&[0x12, 0x34, 0x3A])),
    (&[0x63, 0x89, 0x00, 0x00], None),
];

/// COUNT 2 behind START.
const SKIPPED: [Exchange; 2] = [
    (&[0x70, 0xA1, 0x00, 0x93], Some(&[0x12, 0x34, 0x3A])),
    (&[0x62, 0x8C, 0x00, 0x10], None),
];

/// COUNT 1 again, though it had a good reply.
const TWICE: [Exchange; 3] = [
    (&[0x70, 0xA1, 0x00, 0x93], Some(&[0x12, 0x34, 0x3A])),
    (&[0x61, 0xBC, 0x00, 0x10], Some(&[0x12, 0x34, 0x3A])),
    (&[0x61, 0xBC, 0x00, 0x10], None),
];

/// COUNT 2 is asked for behind the first segment.
const ASKED_LATER: [Exchange; 5] = [
    (&[0x70, 0xA1, 0x00, 0x93], Some(&[0x12, 0x34, 0x3A])),
    (&[0x61, 0xBC, 0x00, 0x10], Some(&[0x12, 0x34, 0x3A])),
    (&[0x62, 0x80, 0x00, 0x83], Some(&[0x12, 0x34, 0x3A])),
    (&[0xF0, 0x85, 0x00], Some(&[0xD4, 0x12, 0x34, 0x0C])),
    (&[0xE2, 0xB0, 0x00], None),
];

fn submit(watch: &mut Watch, exchanges: &[Exchange]) {
    for (sent, answer) in exchanges {
        watch.exchange(sent, *answer);
    }
}

/// A watch of a capture in which OPERATE was just entered.
fn operating() -> Watch {
    let mut watch = Watch::new();
    watch.page(&PAGE);
    watch.wake(Wake::Answered);
    submit(&mut watch, &MODES);
    watch
}

/// Whether in OPERATE the last of these is the first fault, and this one.
fn is_blamed(exchanges: &[Exchange], fault: Blame) -> bool {
    let mut watch = operating();
    let Some((last, before)) = exchanges.split_last() else {
        return false;
    };
    submit(&mut watch, before);
    let fair = watch.verdict() == MasterVerdict::ByTheRules;
    watch.exchange(last.0, last.1);
    let number = 4 + exchanges.len() as u64;
    fair && watch.verdict() == MasterVerdict::NotByTheRules(number, fault)
}

/// Whether in OPERATE the last of each list is the first fault, and this one.
fn are_blamed(lists: &[&[Exchange]], fault: Blame) -> bool {
    for exchanges in lists {
        if !is_blamed(exchanges, fault) {
            return false;
        }
    }
    true
}

/// A start-up that reads the page, and each kind of work in OPERATE.
fn works(watch: &mut Watch) {
    watch.wake(Wake::Unanswered);
    watch.wake(Wake::Answered);
    submit(watch, &READS);
    submit(watch, &MODES);
    submit(watch, &READING);
    submit(watch, &WRITING);
    submit(watch, &EVENTS);
    submit(watch, &ABORTS);
}

/// Another start-up, behind which the process data out goes on with other octets.
fn puts_out(watch: &mut Watch) {
    watch.wake(Wake::Answered);
    submit(watch, &READS);
    submit(watch, &MODES);
    submit(watch, &OUTPUTS);
}

/// A start-up, all work, and a restart.
#[test]
fn work_is_by_the_rules(rt: HostRuntime) {
    let mut watch = Watch::new();
    watch.exchange(&[0xFF], None);
    assert!(rt; watch.verdict() == MasterVerdict::Unjudged);
    for _ in 0..2 {
        works(&mut watch);
        puts_out(&mut watch);
        assert!(rt; watch.verdict() == MasterVerdict::ByTheRules);
    }
}

/// Whether a wake-up request is called due that got no answer, and nothing is said of what comes
/// behind.
fn is_due_at_once() -> bool {
    let mut watch = Watch::new();
    watch.wake(Wake::Unanswered);
    submit(&mut watch, &READS[..1]);
    let due = MasterVerdict::NotByTheRules(1, Blame::WakeDue);
    let is_due = watch.verdict() == due;
    watch.wake(Wake::Answered);
    submit(&mut watch, &SKIPPED);
    is_due && watch.verdict() == due
}

#[test]
fn wakes_are_due(rt: HostRuntime) {
    assert!(rt; is_blamed(&LOST, Blame::WakeDue));
    assert!(rt; is_due_at_once());
}

#[test]
fn messages_are_repeated(rt: HostRuntime) {
    assert!(rt; is_blamed(&ANOTHER, Blame::NotRepeated));
}

/// Whether a start-up is blamed at this exchange, that makes so many reads and leaves so many of
/// the modes' messages out.
fn is_no_start_up(reads: usize, left_out: usize, number: u64) -> bool {
    let mut watch = Watch::new();
    watch.wake(Wake::Answered);
    let (Some(reads), Some(modes)) = (READS.get(..reads), MODES.get(left_out..)) else {
        return false;
    };
    submit(&mut watch, reads);
    submit(&mut watch, modes);
    watch.verdict() == MasterVerdict::NotByTheRules(number, Blame::NotStartUp)
}

const NOT_START_UP: [&[Exchange]; 2] = [&STARTUP_COMMAND, &SHORT_CYCLE];

/// The modes are entered in their order, by what was read of the page.
#[test]
fn start_ups_have_an_order(rt: HostRuntime) {
    assert!(rt; are_blamed(&NOT_START_UP, Blame::NotStartUp));
    assert!(rt; is_no_start_up(10, 1, 11));
    assert!(rt; is_no_start_up(4, 0, 6));
    assert!(rt; is_no_start_up(10, 3, 11));
}

const NOT_WELL_FORMED: [&[Exchange]; 2] = [&SHORT, &DAMAGED];

#[test]
fn messages_are_well_formed(rt: HostRuntime) {
    assert!(rt; are_blamed(&NOT_WELL_FORMED, Blame::NotWellFormed));
}

#[test]
fn outputs_change_while_they_are_valid(rt: HostRuntime) {
    assert!(rt; is_blamed(&CHANGED, Blame::OutputOctets));
}

const NOT_DUE: [&[Exchange]; 8] = [
    &NO_START,
    &SECOND_START,
    &TOO_EARLY,
    &NO_ANSWER,
    &IDLE,
    &NO_REQUEST,
    &GOES_ON,
    &RESERVED,
];

#[test]
fn messages_are_due(rt: HostRuntime) {
    assert!(rt; are_blamed(&NOT_DUE, Blame::NotDue));
}

/// Whether in OPERATE this is by the rules behind those.
fn is_fair(before: &[Exchange], next: &[Exchange]) -> bool {
    let mut watch = operating();
    submit(&mut watch, before);
    submit(&mut watch, next);
    watch.verdict() == MasterVerdict::ByTheRules
}

/// Whether it is called not due, where those before are by the rules.
fn is_not_due(before: &[Exchange], next: &[Exchange]) -> bool {
    let mut watch = operating();
    submit(&mut watch, before);
    let fair = watch.verdict() == MasterVerdict::ByTheRules;
    submit(&mut watch, next);
    fair && matches!(
        watch.verdict(),
        MasterVerdict::NotByTheRules(_, Blame::NotDue)
    )
}

/// What may come behind zeros that end an answer at a repeated COUNT read.
const FAIR: [(&[Exchange], &[Exchange]); 4] = [
    (&UP_TO_ZERO, &[ZERO, BEGINS]),
    (&UP_TO_ZERO, &[ZERO, IDLES]),
    (&UP_TO_ZERO, &[ZERO, GIVES_UP]),
    (&ZERO_INSIDE, &[GIVES_UP]),
];

const UNFAIR: [(&[Exchange], &[Exchange]); 5] = [
    (&UP_TO_ZERO, &[ZERO, IDLES, GIVES_UP]),
    (&UP_TO_ZERO, &[ZERO, GIVES_UP, GIVES_UP]),
    (&ZERO_AT_ONCE, &[GIVES_UP]),
    (&ZERO_INSIDE, &[BEGINS]),
    (&ZERO_INSIDE, &[IDLES]),
];

/// Zeros that end an answer at a repeated COUNT read end the request, or it is given up.
/// Any other end of an answer ends it, and zeros inside of one don't.
#[test]
fn zeros_at_a_repeat_end_it_either_way(rt: HostRuntime) {
    for (before, next) in &FAIR {
        assert!(rt; is_fair(before, next));
    }
    for (before, next) in &UNFAIR {
        assert!(rt; is_not_due(before, next));
    }
}

const UNREAD: [&[Exchange]; 3] = [&NO_FLAG, &WRONG_PLACE, &CONFIRM];

#[test]
fn events_are_read_in_order(rt: HostRuntime) {
    assert!(rt; are_blamed(&UNREAD, Blame::NotDue));
}

const NO_TEXTS: [&[Exchange]; 3] = [&NO_LENGTH, &NO_REQUEST_TEXT, &BEHIND];

#[test]
fn requests_are_texts(rt: HostRuntime) {
    assert!(rt; are_blamed(&NO_TEXTS, Blame::RequestText));
}

const NOT_IN_LINE: [&[Exchange]; 3] = [&SKIPPED, &TWICE, &ASKED_LATER];

#[test]
fn counts_are_in_line(rt: HostRuntime) {
    assert!(rt; are_blamed(&NOT_IN_LINE, Blame::NotInLine));
}

/// The numbers and names are those of the documents.
#[test]
fn faults_have_numbers(rt: HostRuntime) -> Result<(), Fail> {
    assert!(rt; Blame::RequestText.code() == 7);
    let name = format!(in rt.alloc(); "{}", Blame::OutputOctets)?;
    assert!(rt; name.as_str() == "OutputOctets");
    Ok(())
}
