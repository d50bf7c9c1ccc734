//! Cases of what a decoder shows.

use iol_capture::{ExportForm, OctetLine, SplitFault, SplitItem, Splitter, bit_time};
use iol_far::DeviceMode;
use iol_judge::{Judge, Odd, Open, Reason, Verdict, Wake};
use iol_link::Rate;
use std::test::Fail;

/// The message to which each octet of page addresses 0x03 to 0x06 is the reply, with the reply:
/// 8 octets of on-request data, 2 of process data in and 1 of process data out.
const PAGE: [([u8; 2], [u8; 2]); 4] = [
    ([0xA3, 0x11], [0x2D, 0x28]),
    ([0xA4, 0x33], [0x11, 0x28]),
    ([0xA5, 0x22], [0x10, 0x39]),
    ([0xA6, 0x12], [0x08, 0x0F]),
];

const TEST_READ: [u8; 2] = [0xA2, 0x00];

const TEST_REPLY: [u8; 2] = [0x17, 0x1B];

const TO_PREOPERATE: [u8; 3] = [0x20, 0x36, 0x9A];

const TO_OPERATE: [u8; 10] = [0x20, 0x5E, 0x99, 0, 0, 0, 0, 0, 0, 0];

const WRITTEN: [u8; 1] = [0x2D];

const IDLE: [u8; 3] = [0xF1, 0x9B, 0x5A];

const IDLE_REPLY: [u8; 11] = [0, 0, 0, 0, 0, 0, 0, 0, 0x01, 0x02, 0x1D];

/// A splitter, and when the last frame began.
#[derive(Drop)]
struct Line {
    splitter: Splitter,
    time: u64,
}

/// T_BIT behind which a message begins, and a reply.
const PAUSE: u8 = 100;

const RESPONSE: u8 = 5;

impl Line {
    /// A line whose decoder shows the wake-up request, which was answered.
    fn woken() -> Result<Line, Fail> {
        let mut line = Line {
            splitter: Splitter::new(Rate::Com3),
            time: 0,
        };
        let _ = line.splitter.wake(0)?;
        let _ = line.exchange(&TEST_READ, &TEST_REPLY)?;
        Ok(line)
    }

    /// The same in OPERATE.
    fn operating() -> Result<Line, Fail> {
        let mut line = Line::woken()?;
        for (sent, reply) in PAGE.iter() {
            let _ = line.exchange(sent, reply)?;
        }
        let _ = line.exchange(&TO_PREOPERATE, &WRITTEN)?;
        let _ = line.exchange(&TO_OPERATE, &WRITTEN)?;
        Ok(line)
    }

    /// Octets one behind another, the first so many T_BIT behind the frame before: the last that
    /// is told.
    fn hear(&mut self, bits: u8, octets: &[u8]) -> Result<Option<SplitItem>, SplitFault> {
        let mut last = None;
        let mut gap = bits;
        for octet in octets {
            self.time = self.time.saturating_add(behind_frame(gap));
            if let Some(passed) = self.splitter.octet(self.time, *octet)? {
                last = Some(passed);
            }
            gap = 0;
        }
        Ok(last)
    }

    /// A message and its reply, where it has one: what is told of them, told to a judge.
    fn submit(&mut self, sent: &[u8], reply: &[u8], judge: &mut Judge) -> Result<(), SplitFault> {
        if let Some(passed) = self.hear(PAUSE, sent)? {
            passed.submit(judge);
        }
        if let Some(passed) = self.hear(RESPONSE, reply)? {
            passed.submit(judge);
        }
        Ok(())
    }

    /// A message and its reply.
    fn exchange(&mut self, sent: &[u8], reply: &[u8]) -> Result<Option<SplitItem>, SplitFault> {
        let _ = self.hear(PAUSE, sent)?;
        self.hear(RESPONSE, reply)
    }
}

/// The nanoseconds from the begin of a frame to so many T_BIT behind it.
fn behind_frame(bits: u8) -> u64 {
    (11 + u64::from(bits)) * bit_time(Rate::Com3)
}

fn is_exchange(passed: &Option<SplitItem>, sent: &[u8], answer: &[u8]) -> bool {
    match passed {
        Some(SplitItem::Exchange(exchange)) => match &exchange.answer {
            Some(octets) => exchange.sent.as_slice() == sent && octets.as_slice() == answer,
            None => exchange.sent.as_slice() == sent && answer.is_empty(),
        },
        _ => false,
    }
}

fn is_wake(passed: &Option<SplitItem>, answer: Wake) -> bool {
    match passed {
        Some(SplitItem::Wake(wake)) => *wake == answer,
        _ => false,
    }
}

#[test]
fn wakes_are_told(rt: HostRuntime) -> Result<(), Fail> {
    let mut splitter = Splitter::new(Rate::Com3);
    assert!(rt; splitter.wake(1_000)?.is_none());
    assert!(rt; is_wake(&splitter.wake(2_000)?, Wake::Unanswered));
    let mut line = Line {
        splitter,
        time: 2_000,
    };
    // A test read at another rate comes as any octets.
    assert!(rt; line.hear(PAUSE, &[0x00, 0xFF, 0xA2])?.is_none());
    assert!(rt; is_wake(&line.exchange(&TEST_READ, &TEST_REPLY)?, Wake::Answered));
    assert!(rt;
        is_exchange(
            &line.exchange(&TEST_READ, &TEST_REPLY)?,
            &TEST_READ,
            &TEST_REPLY
        )
    );
    Ok(())
}

#[test]
fn wakes_that_arent_shown_are_told(rt: HostRuntime) -> Result<(), Fail> {
    let mut line = Line {
        splitter: Splitter::new(Rate::Com3),
        time: 0,
    };
    assert!(rt; is_wake(&line.exchange(&TEST_READ, &TEST_REPLY)?, Wake::Answered));
    // In STARTUP a read of the same address may be one.
    assert!(rt; is_wake(&line.hear(PAUSE, &TEST_READ)?, Wake::Unanswered));
    assert!(rt; is_exchange(&line.hear(RESPONSE, &TEST_REPLY)?, &TEST_READ, &TEST_REPLY));

    let mut line = Line::operating()?;
    assert!(rt; line.hear(PAUSE, &TEST_READ)?.is_none());
    assert!(rt; is_wake(&line.hear(RESPONSE, &TEST_REPLY)?, Wake::Answered));
    assert!(rt;
        is_exchange(
            &line.exchange(&[0xA3, 0x11], &[0x2D, 0x28])?,
            &[0xA3, 0x11],
            &[0x2D, 0x28]
        )
    );
    Ok(())
}

#[test]
fn pauses_are_missing_replies(rt: HostRuntime) -> Result<(), Fail> {
    let mut line = Line::operating()?;
    assert!(rt; is_exchange(&line.exchange(&IDLE, &IDLE_REPLY)?, &IDLE, &IDLE_REPLY));
    assert!(rt; line.hear(PAUSE, &IDLE)?.is_none());
    assert!(rt; is_exchange(&line.hear(PAUSE, &IDLE)?, &IDLE, &[]));
    assert!(rt; line.hear(RESPONSE, &IDLE_REPLY[..9])?.is_none());
    assert!(rt; is_exchange(&line.hear(PAUSE, &IDLE)?, &IDLE, &IDLE_REPLY[..9]));
    assert!(rt; is_exchange(&line.splitter.end(), &IDLE, &[]));
    Ok(())
}

#[test]
fn a_command_without_a_reply_changes_nothing(rt: HostRuntime) -> Result<(), Fail> {
    let mut line = Line::woken()?;
    for (sent, reply) in PAGE.iter() {
        let _ = line.exchange(sent, reply)?;
    }
    assert!(rt; line.hear(PAUSE, &TO_PREOPERATE)?.is_none());
    assert!(rt; is_exchange(&line.hear(PAUSE, &TO_PREOPERATE)?, &TO_PREOPERATE, &[]));
    assert!(rt; is_exchange(&line.hear(RESPONSE, &WRITTEN)?, &TO_PREOPERATE, &WRITTEN));
    // The same again is in the old layout, others are in the new one.
    assert!(rt;
        is_exchange(
            &line.exchange(&TO_PREOPERATE, &WRITTEN)?,
            &TO_PREOPERATE,
            &WRITTEN
        )
    );
    assert!(rt;
        is_exchange(
            &line.exchange(&TO_OPERATE, &WRITTEN)?,
            &TO_OPERATE,
            &WRITTEN
        )
    );
    assert!(rt; is_exchange(&line.exchange(&IDLE, &IDLE_REPLY)?, &IDLE, &IDLE_REPLY));
    Ok(())
}

/// Whether the device goes on in OPERATE behind octets that were passed over.
fn is_resumed(passed: &Option<SplitItem>) -> bool {
    matches!(passed, Some(SplitItem::Resumed(DeviceMode::Operate)))
}

#[test]
fn octets_too_many_or_too_few_are_passed_over(rt: HostRuntime) -> Result<(), Fail> {
    let mut line = Line::operating()?;
    let _ = line.hear(PAUSE, &IDLE)?;
    assert!(rt; line.hear(0, &[0x5A])?.is_none());
    assert_eq!(rt; line.splitter.passed_over(), 4);
    // Octets that are no message are none of the device's mode.
    assert!(rt; line.hear(PAUSE, &[0xF1, 0x9C, 0x5A])?.is_none());
    assert_eq!(rt; line.splitter.passed_over(), 7);
    assert!(rt; is_resumed(&line.hear(PAUSE, &IDLE)?));
    assert!(rt; is_exchange(&line.hear(RESPONSE, &IDLE_REPLY)?, &IDLE, &IDLE_REPLY));
    assert_eq!(rt; line.splitter.passed_over(), 7);

    let mut line = Line::operating()?;
    let _ = line.hear(PAUSE, &IDLE[..2])?;
    assert!(rt; line.hear(2, &[0x5A])?.is_none());
    assert_eq!(rt; line.splitter.passed_over(), 3);
    assert!(rt; is_resumed(&line.hear(PAUSE, &IDLE)?));

    let mut line = Line::operating()?;
    let _ = line.hear(PAUSE, &IDLE[..2])?;
    assert!(rt; is_resumed(&line.hear(PAUSE, &IDLE)?));
    assert_eq!(rt; line.splitter.passed_over(), 2);

    let mut line = Line::operating()?;
    let _ = line.exchange(&IDLE, &IDLE_REPLY)?;
    assert!(rt; line.hear(3, &[0x00])?.is_none());
    assert_eq!(rt; line.splitter.passed_over(), 1);
    assert!(rt; is_resumed(&line.hear(PAUSE, &IDLE)?));
    Ok(())
}

#[test]
fn a_damaged_reply_is_lost(rt: HostRuntime) -> Result<(), Fail> {
    let mut line = Line::operating()?;
    let _ = line.exchange(&IDLE, &IDLE_REPLY[..9])?;
    assert!(rt; is_exchange(&line.hear(4, &[0x00])?, &IDLE, &[]));
    assert_eq!(rt; line.splitter.passed_over(), 10);
    assert!(rt; line.hear(PAUSE, &IDLE)?.is_none());
    assert!(rt; is_exchange(&line.hear(RESPONSE, &IDLE_REPLY)?, &IDLE, &IDLE_REPLY));

    let mut line = Line::operating()?;
    let _ = line.exchange(&IDLE, &IDLE_REPLY[..2])?;
    assert!(rt; is_exchange(&line.splitter.damaged_before(), &IDLE, &[]));
    assert_eq!(rt; line.splitter.passed_over(), 2);

    let mut line = Line::operating()?;
    let _ = line.exchange(&IDLE, &IDLE_REPLY[..2])?;
    line.time = line.time.saturating_add(behind_frame(0));
    assert!(rt; is_exchange(&line.splitter.damaged(line.time)?, &IDLE, &[]));
    assert_eq!(rt; line.splitter.passed_over(), 3);
    Ok(())
}

#[test]
fn a_damaged_message_is_passed_over(rt: HostRuntime) -> Result<(), Fail> {
    let mut line = Line::operating()?;
    let _ = line.hear(PAUSE, &IDLE)?;
    assert!(rt; line.splitter.damaged_before().is_none());
    assert_eq!(rt; line.splitter.passed_over(), 3);
    assert!(rt; is_resumed(&line.hear(PAUSE, &IDLE)?));

    let mut line = Line::operating()?;
    line.time = line.time.saturating_add(behind_frame(PAUSE));
    assert!(rt; line.splitter.damaged(line.time)?.is_none());
    assert_eq!(rt; line.splitter.damaged(0).err(), Some(SplitFault::TimeBack));
    assert!(rt; matches!(line.splitter.wake(line.time)?, Some(SplitItem::Resumed(_))));
    Ok(())
}

#[test]
fn times_and_layouts_have_to_be_known(rt: HostRuntime) -> Result<(), Fail> {
    let mut line = Line::woken()?;
    assert_eq!(rt;
        line.splitter.octet(line.time.saturating_sub(1), 0xA2).err(),
        Some(SplitFault::TimeBack)
    );
    assert_eq!(rt;
        line.splitter.octet(line.time.saturating_add(1), 0xA2).err(),
        Some(SplitFault::Overlap)
    );

    let mut line = Line::woken()?;
    let _ = line.exchange(&TO_PREOPERATE, &WRITTEN)?;
    let why = SplitFault::NoLayout(Open::PageUnread);
    assert_eq!(rt; line.hear(PAUSE, &[0xF1, 0x64]).err(), Some(why));
    assert_eq!(rt; why.code(), 7);

    let mut line = Line::woken()?;
    line.splitter
        .page(&[0x17, 0x2D, 0x11, 0x10, 0x08, 0, 0, 0, 0, 0]);
    let _ = line.exchange(&TO_PREOPERATE, &WRITTEN)?;
    assert!(rt;
        is_exchange(
            &line.exchange(&TO_OPERATE, &WRITTEN)?,
            &TO_OPERATE,
            &WRITTEN
        )
    );
    Ok(())
}

#[test]
fn lines_are_read(rt: HostRuntime) {
    assert_eq!(rt;
        OctetLine::parse(b"0.000000001 A2"),
        Some(OctetLine::Octet(1, 0xA2))
    );
    assert_eq!(rt;
        OctetLine::parse(b"12.5 0xfF"),
        Some(OctetLine::Octet(12_500_000_000, 0xFF))
    );
    assert_eq!(rt;
        OctetLine::parse(b"3 wake"),
        Some(OctetLine::Wake(3_000_000_000))
    );
    assert_eq!(rt;
        OctetLine::parse(b"18446744073.709551615 00"),
        Some(OctetLine::Octet(u64::MAX, 0))
    );
    assert_eq!(rt; OctetLine::parse(b"# time octet"), Some(OctetLine::Other));
    assert_eq!(rt; OctetLine::parse(b""), Some(OctetLine::Other));
}

#[test]
fn bad_lines_are_refused(rt: HostRuntime) {
    assert_eq!(rt; OctetLine::parse(b"1. A2"), None);
    assert_eq!(rt; OctetLine::parse(b".5 A2"), None);
    assert_eq!(rt; OctetLine::parse(b"1.0000000001 A2"), None);
    assert_eq!(rt; OctetLine::parse(b"18446744073.709551616 00"), None);
    assert_eq!(rt; OctetLine::parse(b"1 A"), None);
    assert_eq!(rt; OctetLine::parse(b"1 0xA"), None);
    assert_eq!(rt; OctetLine::parse(b"1  A2"), None);
    assert_eq!(rt; OctetLine::parse(b"-1 A2"), None);
    assert_eq!(rt; OctetLine::parse(b"1"), None);
}

#[test]
fn exports_of_sigrok_are_read(rt: HostRuntime) {
    let timed = ExportForm::Timed;
    assert_eq!(rt;
        OctetLine::parse_in(timed, b"\xEF\xBB\xBF3 wake\r"),
        Some(OctetLine::Wake(3_000_000_000))
    );
    let sampled = ExportForm::Sampled(1_000_000);
    assert_eq!(rt;
        OctetLine::parse_in(timed, b"Samplerate: 1000000"),
        Some(OctetLine::Form(sampled))
    );
    assert_eq!(rt;
        OctetLine::parse_in(timed, b"2010-2090 uart-1: 00"),
        Some(OctetLine::Unsampled)
    );
    assert_eq!(rt;
        OctetLine::parse_in(sampled, b"2010-2090 uart-1: 1B"),
        Some(OctetLine::Octet(2_010_000, 0x1B))
    );
    assert_eq!(rt;
        OctetLine::parse_in(sampled, b"2010-2090 uart-1: Stop bit"),
        Some(OctetLine::Skipped)
    );
    assert_eq!(rt;
        OctetLine::parse_in(sampled, b"2010-2090 UART: RX warnings: Frame error"),
        Some(OctetLine::DamagedBefore)
    );
}

#[test]
fn exports_of_saleae_are_read(rt: HostRuntime) {
    let timed = ExportForm::Timed;
    let logic1 = ExportForm::Logic1;
    assert_eq!(rt;
        OctetLine::parse_in(timed, b"Time [s],Value,Parity Error,Framing Error"),
        Some(OctetLine::Form(logic1))
    );
    assert_eq!(rt;
        OctetLine::parse_in(logic1, b"0.003170000000000,0xA2,,"),
        Some(OctetLine::Octet(3_170_000, 0xA2))
    );
    assert_eq!(rt;
        OctetLine::parse_in(logic1, b"0.003170000000000,0xA2,,Error"),
        Some(OctetLine::Damaged(3_170_000))
    );
    let logic2 = ExportForm::Logic2;
    assert_eq!(rt;
        OctetLine::parse_in(timed, b"name,type,start_time,duration,\"data\",\"error\""),
        Some(OctetLine::Form(logic2))
    );
    assert_eq!(rt;
        OctetLine::parse_in(logic2, b"\"Async Serial\",\"data\",0.00317,4.34e-05,0xA2,"),
        Some(OctetLine::Octet(3_170_000, 0xA2))
    );
    assert_eq!(rt;
        OctetLine::parse_in(logic2, b"\"I2C\",\"start\",0.00317,4.34e-05,,"),
        Some(OctetLine::Skipped)
    );
}

#[test]
fn judges_are_told(rt: HostRuntime) -> Result<(), Fail> {
    let mut judge = Judge::new(Odd::Blamed);
    let mut line = Line {
        splitter: Splitter::new(Rate::Com3),
        time: 0,
    };
    line.submit(&TEST_READ, &TEST_REPLY, &mut judge)?;
    assert_eq!(rt; judge.verdict(), Verdict::Honest);
    for (sent, reply) in PAGE.iter() {
        line.submit(sent, reply, &mut judge)?;
    }
    line.submit(&TO_PREOPERATE, &WRITTEN, &mut judge)?;
    line.submit(&TO_OPERATE, &WRITTEN, &mut judge)?;
    line.submit(&IDLE, &[], &mut judge)?;
    line.submit(&IDLE, &IDLE_REPLY, &mut judge)?;
    assert_eq!(rt; judge.verdict(), Verdict::Honest);
    // No request is under way, and so nothing else than zeros is the answer.
    line.submit(
        &IDLE,
        &[1, 0, 0, 0, 0, 0, 0, 0, 0x01, 0x02, 0x0C],
        &mut judge,
    )?;
    assert_eq!(rt; judge.verdict(), Verdict::NotHonest(9, Reason::NoAnswerDue));
    Ok(())
}
