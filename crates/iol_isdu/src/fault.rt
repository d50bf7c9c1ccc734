//! The refusals of a text, and their numbers.
ghost use Rattle.std.specs.Prelude.{◌≡◌};

use thiserror::Error;

// The numbers of the refusals: their one table, which the definitions cite.
const DATA_TOO_LONG: u8 = 9;

const TRUNCATED: u8 = 10;

const BAD_ISDU_LENGTH: u8 = 11;

const BAD_SERVICE: u8 = 12;

const BAD_CHKPDU: u8 = 13;

const WRONG_ANSWER_KIND: u8 = 14;

/// Why octets are no request or no answer.
#[derive(Clone, Copy, Debug, PartialEq, Eq, Error)]
pub enum IsduFault {
    /// 9: more than 232 octets are to be written.
    #[error("DataTooLong")]
    DataTooLong,
    /// 10: there are fewer octets than the total length that they begin with, or
    /// too few to hold one.
    #[error("Truncated")]
    Truncated,
    /// 11: the total length is one that no text has.
    #[error("BadIsduLength")]
    BadIsduLength,
    /// 12: the service is none of this direction, or its texts don't have this total length.
    #[error("BadService")]
    BadService,
    /// 13: the XOR of all octets of the text is not 0.
    #[error("BadChkpdu")]
    BadChkpdu,
    /// 14: the answer to a write where a read was sent, or the other way round.
    #[error("WrongAnswerKind")]
    WrongAnswerKind,
}

impl IsduFault {
    ghost use Rattle.iol_isdu.specs.Fault.{isdu_fault_number};

    /// The number of the refusal, 9 to 14 (profile).
    pub fn code(&self) -> u8
        ensures { result ≡ isdu_fault_number self.now }
    {
        match self {
            IsduFault::DataTooLong => DATA_TOO_LONG,
            IsduFault::Truncated => TRUNCATED,
            IsduFault::BadIsduLength => BAD_ISDU_LENGTH,
            IsduFault::BadService => BAD_SERVICE,
            IsduFault::BadChkpdu => BAD_CHKPDU,
            IsduFault::WrongAnswerKind => WRONG_ANSWER_KIND,
        }
    }
}
