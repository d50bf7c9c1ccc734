//! Why no device by the rules could have sent a reply.
ghost use Rattle.std.specs.Prelude.{◌≡◌};

use thiserror::Error;

// The numbers: their one table, which the definitions cite.
const NOT_TAKEN: u8 = 1;

const REPLY_LENGTH: u8 = 2;

const STATUS_WITHOUT_DATA: u8 = 3;

const INVALID_NOT_ZERO: u8 = 4;

const FLAG_AT_CONFIRM: u8 = 5;

const FLAG_GONE: u8 = 6;

const STATUS_CODE: u8 = 7;

const EVENT_OCTET: u8 = 8;

const PAGE_CHANGED: u8 = 9;

const PAGE_ZERO: u8 = 10;

const CYCLE_TIME: u8 = 11;

const PROCESS_NOT_ZERO: u8 = 12;

const REST_NOT_ZERO: u8 = 13;

const NO_ANSWER_DUE: u8 = 14;

const NOT_BUSY: u8 = 15;

const BUSY_AGAIN: u8 = 16;

const ANSWER_KIND: u8 = 17;

const ANSWER_LENGTH: u8 = 18;

const ANSWER_SUM: u8 = 19;

const ANSWER_PADDING: u8 = 20;

const SEGMENT_CHANGED: u8 = 21;

/// Why no device by the rules could have sent a reply.
#[derive(Clone, Copy, Debug, PartialEq, Eq, Error)]
pub enum Reason {
    /// 1: the device doesn't take such a message in its mode, and answers nothing.
    #[error("NotTaken")]
    NotTaken,
    /// 2: the reply hasn't the length that the layout of the device's mode gives.
    #[error("ReplyLength")]
    ReplyLength,
    /// 3: the PD status is 1 in a layout without process data in.
    #[error("StatusWithoutData")]
    StatusWithoutData,
    /// 4: the PD status is 1, and the process data in isn't all zeros.
    #[error("InvalidNotZero")]
    InvalidNotZero,
    /// 5: the Event flag is 1 in the reply to the confirm of events.
    #[error("FlagAtConfirm")]
    FlagAtConfirm,
    /// 6: the Event flag is 0, and the events weren't confirmed.
    #[error("FlagGone")]
    FlagGone,
    /// 7: the StatusCode doesn't mark as many places as the device shows.
    #[error("StatusCode")]
    StatusCode,
    /// 8: an octet of an event isn't the one that was read before, or of an empty place isn't 0.
    #[error("EventOctet")]
    EventOctet,
    /// 9: an octet of the page isn't the one that was read before.
    #[error("PageChanged")]
    PageChanged,
    /// 10: a page address outside 0x01 to 0x0B doesn't read as 0.
    #[error("PageZero")]
    PageZero,
    /// 11: page address 0x01 doesn't read as what was written there, or read before.
    #[error("CycleTime")]
    CycleTime,
    /// 12: a read of the process channel doesn't bring zeros.
    #[error("ProcessNotZero")]
    ProcessNotZero,
    /// 13: the octets behind the first, of a page or diagnosis read, aren't zeros.
    #[error("RestNotZero")]
    RestNotZero,
    /// 14: a read of the ISDU channel doesn't bring zeros, and no request was begun.
    #[error("NoAnswerDue")]
    NoAnswerDue,
    /// 15: the first read behind a whole request doesn't bring busy.
    #[error("NotBusy")]
    NotBusy,
    /// 16: busy, though the answer's first segment was had before.
    #[error("BusyAgain")]
    BusyAgain,
    /// 17: an answer that is none to such a request: its service, or the length of its text.
    #[error("AnswerKind")]
    AnswerKind,
    /// 18: the total length in an answer is one that no text has.
    #[error("AnswerLength")]
    AnswerLength,
    /// 19: the XOR of all octets of an answer isn't 0.
    #[error("AnswerSum")]
    AnswerSum,
    /// 20: the octets behind an answer, in its last segment, aren't zeros.
    #[error("AnswerPadding")]
    AnswerPadding,
    /// 21: a segment of an answer isn't the one that was read before.
    #[error("SegmentChanged")]
    SegmentChanged,
}

impl Reason {
    ghost use Rattle.iol_judge.specs.Numbers.{reason_number};

    /// The number of the reason.
    pub fn code(&self) -> u8
        ensures { result ≡ reason_number self.now }
    {
        match self {
            Reason::NotTaken => NOT_TAKEN,
            Reason::ReplyLength => REPLY_LENGTH,
            Reason::StatusWithoutData => STATUS_WITHOUT_DATA,
            Reason::InvalidNotZero => INVALID_NOT_ZERO,
            Reason::FlagAtConfirm => FLAG_AT_CONFIRM,
            Reason::FlagGone => FLAG_GONE,
            Reason::StatusCode => STATUS_CODE,
            Reason::EventOctet => EVENT_OCTET,
            Reason::PageChanged => PAGE_CHANGED,
            Reason::PageZero => PAGE_ZERO,
            Reason::CycleTime => CYCLE_TIME,
            Reason::ProcessNotZero => PROCESS_NOT_ZERO,
            Reason::RestNotZero => REST_NOT_ZERO,
            Reason::NoAnswerDue => NO_ANSWER_DUE,
            Reason::NotBusy => NOT_BUSY,
            Reason::BusyAgain => BUSY_AGAIN,
            Reason::AnswerKind => ANSWER_KIND,
            Reason::AnswerLength => ANSWER_LENGTH,
            Reason::AnswerSum => ANSWER_SUM,
            Reason::AnswerPadding => ANSWER_PADDING,
            Reason::SegmentChanged => SEGMENT_CHANGED,
        }
    }

    /// Of two reasons the one that came of the later look at a reply.
    pub(crate) fn or_later(self, other: Reason) -> Reason
        ensures { result ≡ later self other }
    {
        if self.code() < other.code() {
            other
        } else {
            self
        }
    }

    ghost use Rattle.iol_judge.specs.Numbers.{later};

    /// Of two reasons the one that came of the earlier look at a reply.
    pub(crate) fn or_earlier(self, other: Reason) -> Reason
        ensures { result ≡ earlier self other }
    {
        if other.code() < self.code() {
            other
        } else {
            self
        }
    }

    ghost use Rattle.iol_judge.specs.Numbers.{earlier};
}
