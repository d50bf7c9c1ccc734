//! One lie for each reason: each exchange before it is one that a device by the rules brings.

use iol_judge::{Judge, Odd, Open, Reason, Verdict, Wake};
use iol_peers::{Exchange, PLAIN, PROCESS_DATA};
use std::test::Fail;

/// A judge, told these exchanges, right behind an answered wake-up request, where the page is told
/// first.
fn judge_of(odd: Odd, page: Option<&[u8; 10]>, exchanges: &[Exchange]) -> Judge {
    let mut judge = Judge::new(odd);
    if let Some(octets) = page {
        judge.page(octets);
    }
    judge.wake(Wake::Answered);
    for (sent, reply) in exchanges {
        judge.exchange(sent, Some(*reply));
    }
    judge
}

/// What a judge says of them, that blames odd replies.
pub(crate) fn verdict_of(page: Option<&[u8; 10]>, exchanges: &[Exchange]) -> Verdict {
    judge_of(Odd::Blamed, page, exchanges).verdict()
}

/// A message of PREOPERATE's layout, while the device is in STARTUP.
const NOT_TAKEN: [Exchange; 1] = [(&[0xF1, 0x64], &[0, 0, 0, 0, 0, 0, 0, 0, 0x2D])];

/// The page of a device with two octets of on-request data in PREOPERATE, and eight in OPERATE.
const TWO_THEN_EIGHT: [u8; 10] = [0x17, 0x1D, 0x11, 0, 0, 0x12, 0x34, 0, 0x01, 0x07];

/// The reply of OPERATE, while the device is in PREOPERATE.
const REPLY_LENGTH: [Exchange; 2] = [
    (&[0x20, 0x36, 0x9A], &[0x2D]),
    (&[0xF1, 0x64], &[0, 0, 0, 0, 0, 0, 0, 0, 0x2D]),
];

/// PD status 1 in STARTUP.
const STATUS: [Exchange; 1] = [(&[0xA2, 0x00], &[0x17, 0x43])];

/// PD status 1 with process data that isn't zero, behind one with zeros.
const INVALID: [Exchange; 3] = [
    (&[0x20, 0x06, 0x99], &[0x2D]),
    (&[0xA2, 0xA7, 0x5A], &[0x17, 0x00, 0x00, 0x43]),
    (&[0xA2, 0xA7, 0x5A], &[0x17, 0x12, 0x34, 0x54]),
];

/// The Event flag in the reply to a confirm.
const FLAG: [Exchange; 1] = [(&[0x40, 0x35, 0x00], &[0x85])];

/// No Event flag, and no confirm since the one before.
const GONE: [Exchange; 2] = [
    (&[0xA2, 0x00], &[0x17, 0xB3]),
    (&[0xA2, 0x00], &[0x17, 0x1B]),
];

/// A StatusCode that marks no place, with the Event flag.
const UNMARKED: [Exchange; 1] = [(&[0xC0, 0x1D], &[0x80, 0xAD])];

/// Another StatusCode, and no confirm between.
const MARKED: [Exchange; 2] = [
    (&[0xC0, 0x1D], &[0x81, 0xBC]),
    (&[0xC0, 0x1D], &[0x83, 0x9D]),
];

/// Another EventQualifier, and no confirm between.
const QUALIFIER: [Exchange; 2] = [
    (&[0xC1, 0x0C], &[0x54, 0x9B]),
    (&[0xC1, 0x0C], &[0x55, 0x8A]),
];

/// An octet in a place that isn't marked.
const UNFILLED: [Exchange; 2] = [
    (&[0xC0, 0x1D], &[0x81, 0xBC]),
    (&[0xC4, 0x0F], &[0x54, 0x9B]),
];

/// A StatusCode that doesn't mark the place of which an octet was read.
const FEWER: [Exchange; 2] = [
    (&[0xC4, 0x0F], &[0x54, 0x9B]),
    (&[0xC0, 0x1D], &[0x81, 0xBC]),
];

/// Another MinCycleTime, with the same checksum.
const CHANGED: [Exchange; 2] = [
    (&[0xA2, 0x00], &[0x17, 0x1B]),
    (&[0xA2, 0x00], &[0x18, 0x1B]),
];

/// An octet behind the page.
const ZERO: [Exchange; 2] = [
    (&[0xAC, 0x11], &[0x00, 0x2D]),
    (&[0xAC, 0x11], &[0x01, 0x3C]),
];

/// Another cycle time than was written.
const CYCLE: [Exchange; 3] = [
    (&[0x21, 0x2E, 0x17], &[0x2D]),
    (&[0xA1, 0x30], &[0x17, 0x1B]),
    (&[0xA1, 0x30], &[0x18, 0x1B]),
];

/// A read of the process channel.
const PROCESS: [Exchange; 2] = [
    (&[0x80, 0x05], &[0x00, 0x2D]),
    (&[0x80, 0x05], &[0x01, 0x3C]),
];

/// An octet behind the one that is meant, in PREOPERATE.
const REST: [Exchange; 3] = [
    (&[0x20, 0x36, 0x9A], &[0x2D]),
    (&[0xA2, 0x58], &[0x17, 0, 0, 0, 0, 0, 0, 0, 0x1B]),
    (&[0xA2, 0x58], &[0x17, 1, 0, 0, 0, 0, 0, 0, 0x0A]),
];

/// Exchanges, the page that is told first, if any, and what is said of them.
type Case = (Option<&'static [u8; 10]>, &'static [Exchange], Verdict);

const LIES: [Case; 10] = [
    (
        Some(&PLAIN),
        &NOT_TAKEN,
        Verdict::NotHonest(1, Reason::NotTaken),
    ),
    (
        Some(&TWO_THEN_EIGHT),
        &REPLY_LENGTH,
        Verdict::NotHonest(2, Reason::ReplyLength),
    ),
    (
        None,
        &STATUS,
        Verdict::NotHonest(1, Reason::StatusWithoutData),
    ),
    (
        Some(&PROCESS_DATA),
        &INVALID,
        Verdict::NotHonest(3, Reason::InvalidNotZero),
    ),
    (None, &FLAG, Verdict::NotHonest(1, Reason::FlagAtConfirm)),
    (None, &CHANGED, Verdict::NotHonest(2, Reason::PageChanged)),
    (None, &ZERO, Verdict::NotHonest(2, Reason::PageZero)),
    (None, &CYCLE, Verdict::NotHonest(3, Reason::CycleTime)),
    (
        None,
        &PROCESS,
        Verdict::NotHonest(2, Reason::ProcessNotZero),
    ),
    (
        Some(&PLAIN),
        &REST,
        Verdict::NotHonest(3, Reason::RestNotZero),
    ),
];

/// Whether this is said of each.
fn are_judged(odd: Odd, cases: &[Case]) -> bool {
    for (page, exchanges, verdict) in cases {
        if judge_of(odd, *page, *exchanges).verdict() != *verdict {
            return false;
        }
    }
    true
}

/// Each lie is found at its exchange, for its reason.
#[test]
fn lies_are_found(rt: HostRuntime) {
    assert!(rt; are_judged(Odd::Blamed, &LIES));
}

/// Those whose last reply is odd.
const ODD: [(Option<&[u8; 10]>, &[Exchange], Reason); 5] = [
    (Some(&PROCESS_DATA), &INVALID, Reason::InvalidNotZero),
    (None, &ZERO, Reason::PageZero),
    (None, &CYCLE, Reason::CycleTime),
    (None, &PROCESS, Reason::ProcessNotZero),
    (Some(&PLAIN), &REST, Reason::RestNotZero),
];

const NOT_ODD: [Case; 2] = [
    (
        None,
        &STATUS,
        Verdict::NotHonest(1, Reason::StatusWithoutData),
    ),
    (None, &CHANGED, Verdict::NotHonest(2, Reason::PageChanged)),
];

/// Whether the last reply is passed over for this reason, and is the only one.
fn is_passed_over(page: Option<&[u8; 10]>, exchanges: &[Exchange], reason: Reason) -> bool {
    let judge = judge_of(Odd::PassedOver, page, exchanges);
    judge.verdict() == Verdict::Honest && judge.oddity() == Some(reason) && judge.oddities() == 1
}

/// Where odd replies are passed over they are counted, and each other lie is found.
#[test]
fn odd_replies_are_passed_over(rt: HostRuntime) {
    for (page, exchanges, reason) in &ODD {
        assert!(rt; is_passed_over(*page, *exchanges, *reason));
    }
    assert!(rt; are_judged(Odd::PassedOver, &NOT_ODD));
}

/// Whether an odd reply is passed over for its cycle time, as the second one.
fn is_second_oddity(judge: &Judge) -> bool {
    judge.oddity() == Some(Reason::CycleTime)
        && judge.oddities() == 2
        && judge.verdict() == Verdict::Honest
}

/// A cycle time that was passed over isn't taken for the device's.
#[test]
fn odd_cycle_times_stay_odd(rt: HostRuntime) {
    let mut judge = judge_of(Odd::PassedOver, None, &CYCLE);
    judge.exchange(&[0xA1, 0x30], Some(&[0x17, 0x1B]));
    assert!(rt; judge.oddity().is_none());
    judge.exchange(&[0xA1, 0x30], Some(&[0x18, 0x1B]));
    assert!(rt; is_second_oddity(&judge));
}

const EVENT_LIES: [Case; 6] = [
    (None, &GONE, Verdict::NotHonest(2, Reason::FlagGone)),
    (None, &UNMARKED, Verdict::NotHonest(1, Reason::StatusCode)),
    (None, &MARKED, Verdict::NotHonest(2, Reason::StatusCode)),
    (None, &QUALIFIER, Verdict::NotHonest(2, Reason::EventOctet)),
    (None, &UNFILLED, Verdict::NotHonest(2, Reason::EventOctet)),
    (None, &FEWER, Verdict::NotHonest(2, Reason::StatusCode)),
];

/// So are those about events.
#[test]
fn lies_about_events_are_found(rt: HostRuntime) {
    assert!(rt; are_judged(Odd::Blamed, &EVENT_LIES));
}

/// The octets that were sent, and those that came back, if any did.
type Observed = (&'static [u8], Option<&'static [u8]>);

fn submit(judge: &mut Judge, observed: &[Observed]) {
    for (sent, answer) in observed {
        judge.exchange(sent, *answer);
    }
}

/// What is said of these, right behind a wake-up request.
fn verdict_behind(wake: Wake, observed: &[Observed]) -> Verdict {
    let mut judge = Judge::new(Odd::Blamed);
    judge.wake(wake);
    submit(&mut judge, observed);
    judge.verdict()
}

/// Other events behind confirms that may have come.
const CONFIRMED: [Observed; 8] = [
    (&[0xC1, 0x0C], Some(&[0x54, 0x9B])),
    (&[0x40, 0x35, 0x00], None),
    (&[0xC1, 0x0C], Some(&[0x55, 0x8A])),
    (&[0x40, 0x35, 0x00], Some(&[0x2D])),
    (&[0xC0, 0x1D], Some(&[0x83, 0x9D])),
    (&[0x40, 0x35, 0x00], None),
    (&[0xA2, 0x00], Some(&[0x17, 0x1B])),
    (&[0xC0, 0x1D], Some(&[0x81, 0xBC])),
];

/// Two where none was shown: one is raised at a time.
const RAISED: [Observed; 2] = [
    (&[0xA2, 0x00], Some(&[0x17, 0x1B])),
    (&[0xC0, 0x1D], Some(&[0x83, 0x9D])),
];

/// Once a confirm may have come, other events may be shown, or none.
#[test]
fn confirmed_events_may_change(rt: HostRuntime) {
    assert!(rt; verdict_behind(Wake::Answered, &CONFIRMED) == Verdict::Honest);
    let raised = verdict_behind(Wake::Answered, &RAISED);
    assert!(rt; raised == Verdict::NotHonest(2, Reason::StatusCode));
}

/// A mode was asked for before the page was read.
const UNREAD: [Exchange; 1] = [(&[0x20, 0x36, 0x9A], &[0x2D])];

/// PLAIN, of a revision that there isn't.
const REFUSED: [u8; 10] = [0x17, 0x2D, 0x12, 0x00, 0x00, 0x12, 0x34, 0x00, 0x01, 0x07];

const UNKNOWN: [Case; 2] = [
    (None, &UNREAD, Verdict::CantSay(1, Open::PageUnread)),
    (
        Some(&REFUSED),
        &UNREAD,
        Verdict::CantSay(1, Open::PageRefused),
    ),
];

/// A lie where no wake-up request was answered.
const UNJUDGED: [Observed; 1] = [(&[0xA2, 0x00], Some(&[0x17, 0x43]))];

/// Nothing is said where the layouts aren't known, and nothing before a wake-up request.
#[test]
fn what_is_unknown_is_open(rt: HostRuntime) {
    assert!(rt; are_judged(Odd::Blamed, &UNKNOWN));
    assert!(rt; verdict_behind(Wake::Unanswered, &UNJUDGED) == Verdict::Unjudged);
}

/// A reply that doesn't come, and one with a wrong checksum; then an octet 00 was lost, and six.
const LOST: [Observed; 5] = [
    (&[0x20, 0x36, 0x9A], None),
    (&[0x20, 0x36, 0x9A], Some(&[0x2C])),
    (&[0xF1, 0x64], Some(&[0, 0, 0, 0, 0, 0, 0, 0x2D])),
    (&[0xF1, 0x64], Some(&[0, 0, 0x2D])),
    (&[0xF1, 0x64], Some(&[0, 0, 0, 0, 0, 0, 0, 0, 0x2D])),
];

/// A reply that is none in the layouts of the device is lost, and so is one that doesn't come.
#[test]
fn losses_are_honest(rt: HostRuntime) {
    let mut judge = judge_of(Odd::Blamed, Some(&PLAIN), &[]);
    submit(&mut judge, &LOST);
    assert!(rt; judge.verdict() == Verdict::Honest);
    // Once it is in PREOPERATE it doesn't take a message of STARTUP.
    judge.exchange(&[0xA2, 0x00], Some(&[0x17, 0x1B]));
    assert!(rt; judge.verdict() == Verdict::NotHonest(6, Reason::NotTaken));
    assert!(rt; judge.verdict() != Verdict::CantSay(6, Open::TooManyStates));
}

/// Before the page is known, only the layout of STARTUP can be: a good reply of another one is
/// lost.
#[test]
fn other_layouts_are_unknown(rt: HostRuntime) {
    assert!(rt; verdict_of(None, &NOT_TAKEN) == Verdict::Honest);
}

/// The numbers and names are those of the documents.
#[test]
fn reasons_have_numbers(rt: HostRuntime) -> Result<(), Fail> {
    assert!(rt; Reason::RestNotZero.code() == 13);
    assert!(rt; Open::TooManyStates.code() == 3);
    let name = format!(in rt.alloc(); "{}, {}", Reason::PageChanged, Open::PageUnread)?;
    assert!(rt; name.as_str() == "PageChanged, PageUnread");
    Ok(())
}
