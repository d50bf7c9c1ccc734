//! Why a request is refused.
ghost use Rattle.std.specs.Prelude.{◌≡◌};

use iol_isdu::Answer;

/// Why a request is refused: an ErrorType of Annex C (C.2), which two octets carry.
#[derive(Clone, Copy, Debug, PartialEq, Eq)]
pub enum ErrorType {
    /// 0x80 0x11: the table has no such Index.
    IndexNotAvailable,
    /// 0x80 0x12: the parameter has no such Subindex.
    SubindexNotAvailable,
    /// 0x80 0x23: it can't be read, or it can't be written, or a lock forbids it.
    AccessDenied,
    /// 0x80 0x30: a number is out of its range.
    ValueOutOfRange,
    /// 0x80 0x33: more octets than the parameter has.
    TooLong,
    /// 0x80 0x34: fewer octets than the parameter has.
    TooShort,
    /// 0x80 0x35: no such SystemCommand.
    FunctionNotAvailable,
    /// 0x80 0x36: not now, as another activity is under way, or none is.
    FunctionUnavailable,
    /// 0x80 0x40: alone it would break an order rule.
    InvalidSet,
    /// 0x80 0x41: the block isn't whole, or it breaks an order rule.
    InconsistentSet,
}

impl ErrorType {
    ghost use Rattle.iol_params.specs.Errors.{additional_code, refusal_answer};

    /// The AdditionalCode, the second of the two octets.
    pub fn additional(self) -> u8
        ensures { result ≡ additional_code self }
    {
        match self {
            ErrorType::IndexNotAvailable => 0x11,
            ErrorType::SubindexNotAvailable => 0x12,
            ErrorType::AccessDenied => 0x23,
            ErrorType::ValueOutOfRange => 0x30,
            ErrorType::TooLong => 0x33,
            ErrorType::TooShort => 0x34,
            ErrorType::FunctionNotAvailable => 0x35,
            ErrorType::FunctionUnavailable => 0x36,
            ErrorType::InvalidSet => 0x40,
            ErrorType::InconsistentSet => 0x41,
        }
    }

    /// The answer that refuses a request so.
    pub fn answer(self) -> Answer
        ensures { result ≡ refusal_answer self }
    {
        Answer::Refused(0x80, self.additional())
    }
}
