//! Lies about ISDU transfers: each exchange before it is one that a device by the rules brings.

use crate::kinds::left;
use crate::lies::verdict_of;
use iol_judge::{Judge, Odd, Reason, Verdict, Wake};
use iol_peers::{Exchange, PLAIN};

/// The first octet of a request to read.
const START_WRITE: [u8; 3] = [0x70, 0x09, 0x93];

const START_READ: [u8; 2] = [0xF0, 0x2D];

const IDLE_READ: [u8; 2] = [0xF1, 0x3C];

/// Busy, where no request was begun.
const NO_ANSWER: [Exchange; 2] = [(&START_READ, &[0x00, 0x2D]), (&START_READ, &[0x01, 0x3C])];

/// The same behind an IDLE, which ends the request.
const ENDED: [Exchange; 4] = [
    (&START_WRITE, &[0x2D]),
    (&START_READ, &[0x01, 0x3C]),
    (&IDLE_READ, &[0x00, 0x2D]),
    (&START_READ, &[0x01, 0x3C]),
];

/// Where nobody knows whether the device has ISDU, only an answer to nothing is found.
#[test]
fn answers_to_nothing_are_found(rt: HostRuntime) {
    assert!(rt; verdict_of(None, &NO_ANSWER) == Verdict::NotHonest(2, Reason::NoAnswerDue));
    assert!(rt; verdict_of(None, &ENDED) == Verdict::NotHonest(4, Reason::NoAnswerDue));
}

/// The move to PREOPERATE, where a segment has eight octets.
const MOVE: Exchange = (&[0x20, 0x36, 0x9A], &[0x2D]);

/// The whole request to read Index 16.
const REQUEST: Exchange = (&[0x70, 0x5D, 0x93, 0x10, 0x83, 0, 0, 0, 0, 0], &[0x2D]);

/// A START read, and COUNT 1.
const START: [u8; 2] = [0xF0, 0x75];

const COUNT: [u8; 2] = [0xE1, 0x70];

const BUSY: [u8; 9] = [1, 0, 0, 0, 0, 0, 0, 0, 0x3C];

const ZEROS: [u8; 9] = [0, 0, 0, 0, 0, 0, 0, 0, 0x2D];

/// An answer of one octet, and another.
const ANSWER: [u8; 9] = [0xD3, 0x41, 0x92, 0, 0, 0, 0, 0, 0x2D];

const OTHER: [u8; 9] = [0xD3, 0x42, 0x91, 0, 0, 0, 0, 0, 0x2D];

/// The two segments of a longer answer, and the second with another octet.
const FIRST: [u8; 9] = [0xDC, 1, 2, 3, 4, 5, 6, 7, 0x39];

const SECOND: [u8; 9] = [8, 9, 10, 0xD7, 0, 0, 0, 0, 0x39];

const CHANGED: [u8; 9] = [0x55, 9, 10, 0xD7, 0, 0, 0, 0, 0x14];

/// No answer: to a write, of an unknown service, of a length that no text has, with a wrong CHKPDU,
/// and with an octet behind it.
const WRITTEN: [u8; 9] = [0x52, 0x52, 0, 0, 0, 0, 0, 0, 0x2D];

const UNKNOWN: [u8; 9] = [0x22, 0x22, 0, 0, 0, 0, 0, 0, 0x2D];

const LENGTH: [u8; 9] = [0xD1, 0x10, 0, 0, 0, 0, 0, 0, 0x0C];

const SUM: [u8; 9] = [0xD3, 0x41, 0x93, 0, 0, 0, 0, 0, 0x3C];

const PADDING: [u8; 9] = [0xD3, 0x41, 0x92, 0, 0, 0, 0, 7, 0x0F];

/// A judge of these replies in PREOPERATE.
fn judge_of(replies: &[Exchange]) -> Judge {
    let mut judge = Judge::new(Odd::Blamed);
    judge.page(&PLAIN);
    judge.wake(Wake::Answered);
    judge.exchange(MOVE.0, Some(MOVE.1));
    for (sent, reply) in replies {
        judge.exchange(sent, Some(*reply));
    }
    judge
}

/// One of these replies to START reads and COUNTs behind a whole request.
fn judge_behind(replies: &[Exchange]) -> Judge {
    let mut judge = judge_of(&[REQUEST]);
    for (sent, reply) in replies {
        judge.exchange(sent, Some(*reply));
    }
    judge
}

/// What it says of them.
fn verdict_behind(replies: &[Exchange]) -> Verdict {
    judge_behind(replies).verdict()
}

/// A write of two segments, of which the last comes again behind a START read: the device drops it,
/// so that it hands over at the first read. Then a whole request.
const AT_FIRST_READ: [Exchange; 6] = [
    (&[0x70, 0x7C, 0x1A, 0x10, 1, 2, 3, 4, 5, 6], &[0x2D]),
    (&[0x61, 0x79, 7, 0x0A, 0, 0, 0, 0, 0, 0], &[0x2D]),
    (&START, &BUSY),
    (&[0x61, 0x79, 7, 0x0A, 0, 0, 0, 0, 0, 0], &[0x2D]),
    (&START, &ZEROS),
    REQUEST,
];

/// Whether these kinds are left behind those replies.
fn leaves(replies: &[Exchange], kinds: [bool; 4]) -> bool {
    left(&judge_behind(replies)) == kinds
}

/// An answer at the first read.
const AT_ONCE: [Exchange; 1] = [(&START, &ANSWER)];

/// Only a device that hands over at the last segment may answer at once.
#[test]
fn an_answer_at_once_tells_kinds_apart(rt: HostRuntime) {
    assert!(rt; verdict_behind(&AT_ONCE) == Verdict::Honest);
    assert!(rt; leaves(&AT_ONCE, [false, false, true, true]));
    let mut other = judge_of(&AT_FIRST_READ);
    assert!(rt; left(&other) == [true, true, false, false]);
    other.exchange(&START, Some(&ANSWER));
    assert!(rt; other.verdict() == Verdict::NotHonest(8, Reason::NotBusy));
}

/// An answer of one segment is read again: a device has it still, or has forgotten it.
const REPEATED: [Exchange; 3] = [(&START, &BUSY), (&START, &ANSWER), (&START, &ANSWER)];

const GONE: [Exchange; 3] = [(&START, &BUSY), (&START, &ANSWER), (&START, &ZEROS)];

/// The first of two segments is known as long as the second wasn't sent.
const FIRST_REPEATED: [Exchange; 3] = [(&START, &BUSY), (&START, &FIRST), (&START, &FIRST)];

const SECOND_GONE: [Exchange; 4] = [
    (&START, &BUSY),
    (&START, &FIRST),
    (&COUNT, &SECOND),
    (&COUNT, &ZEROS),
];

/// A device that forgot an answer of which the reply was lost.
fn forgets_a_lost_one() -> bool {
    let mut lost = judge_behind(&[(&START, &BUSY)]);
    lost.exchange(&START, None);
    lost.exchange(&START, Some(&ZEROS));
    lost.verdict() == Verdict::Honest && left(&lost) == [false, true, false, true]
}

#[test]
fn an_answer_again_tells_kinds_apart(rt: HostRuntime) {
    assert!(rt; leaves(&REPEATED, [true, false, true, false]));
    assert!(rt; leaves(&GONE, [false, true, false, true]));
    assert!(rt; forgets_a_lost_one());
    assert!(rt; leaves(&FIRST_REPEATED, [true, true, true, true]));
    assert!(rt; leaves(&SECOND_GONE, [false, true, false, true]));
}

/// Replies behind a whole request, and what is said of them.
type Case = (&'static [Exchange], Verdict);

/// Whether this is said of each.
fn are_judged(cases: &[Case]) -> bool {
    for (replies, verdict) in cases {
        if verdict_behind(*replies) != *verdict {
            return false;
        }
    }
    true
}

/// Busy behind the answer; the first segment read again, and the second; a segment behind the last.
const LIES: [Case; 4] = [
    (
        &[(&START, &BUSY), (&START, &ANSWER), (&START, &BUSY)],
        Verdict::NotHonest(5, Reason::BusyAgain),
    ),
    (
        &[(&START, &BUSY), (&START, &ANSWER), (&START, &OTHER)],
        Verdict::NotHonest(5, Reason::SegmentChanged),
    ),
    (
        &[
            (&START, &BUSY),
            (&START, &FIRST),
            (&COUNT, &SECOND),
            (&COUNT, &CHANGED),
        ],
        Verdict::NotHonest(6, Reason::SegmentChanged),
    ),
    (
        &[(&START, &BUSY), (&START, &ANSWER), (&COUNT, &SECOND)],
        Verdict::NotHonest(5, Reason::NoAnswerDue),
    ),
];

/// Each lie is found at its exchange, for its reason.
#[test]
fn lies_about_transfers_are_found(rt: HostRuntime) {
    assert!(rt; are_judged(&LIES));
}

/// Answers that are none to a read, the last two in the second of two segments.
const NO_ANSWERS: [Case; 7] = [
    (
        &[(&START, &BUSY), (&START, &WRITTEN)],
        Verdict::NotHonest(4, Reason::AnswerKind),
    ),
    (
        &[(&START, &BUSY), (&START, &UNKNOWN)],
        Verdict::NotHonest(4, Reason::AnswerKind),
    ),
    (
        &[(&START, &BUSY), (&START, &LENGTH)],
        Verdict::NotHonest(4, Reason::AnswerLength),
    ),
    (
        &[(&START, &BUSY), (&START, &SUM)],
        Verdict::NotHonest(4, Reason::AnswerSum),
    ),
    (
        &[(&START, &BUSY), (&START, &PADDING)],
        Verdict::NotHonest(4, Reason::AnswerPadding),
    ),
    (
        &[(&START, &BUSY), (&START, &FIRST), (&COUNT, &CHANGED)],
        Verdict::NotHonest(5, Reason::AnswerSum),
    ),
    (
        &[(&START, &BUSY), (&START, &FIRST), (&COUNT, &ZEROS)],
        Verdict::NotHonest(5, Reason::AnswerSum),
    ),
];

/// So is an answer that is none to a read.
#[test]
fn lies_about_answers_are_found(rt: HostRuntime) {
    assert!(rt; are_judged(&NO_ANSWERS));
}

/// Segments that are read again from any, while they stay; behind the last one there is none.
const READ_REPEATED: [Case; 2] = [
    (
        &[
            (&START, &BUSY),
            (&START, &BUSY),
            (&START, &FIRST),
            (&COUNT, &SECOND),
            (&COUNT, &SECOND),
            (&START, &FIRST),
            (&COUNT, &SECOND),
            (&START, &FIRST),
        ],
        Verdict::Honest,
    ),
    (
        &[
            (&START, &BUSY),
            (&START, &ANSWER),
            (&COUNT, &ZEROS),
            (&START, &ZEROS),
        ],
        Verdict::Honest,
    ),
];

#[test]
fn answers_may_be_read_again(rt: HostRuntime) {
    assert!(rt; are_judged(&READ_REPEATED));
}
