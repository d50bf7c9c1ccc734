//! What a joiner says of a segment.
ghost use Rattle.std.specs.Prelude.{◌≡◌};

use thiserror::Error;

// The numbers of the refusals: their one table, which the definitions cite.
const BAD_ISDU_LENGTH: u8 = 11;

const WRONG_COUNT: u8 = 15;

/// What became of a segment that a [`Joiner`](crate::Joiner) was given.
#[derive(Clone, Copy, Debug, PartialEq, Eq)]
pub enum Took {
    /// It has the COUNT of the last one taken, so it is that one again: it was not taken.
    Repeat,
    /// It was taken, and the text goes on.
    More,
    /// It was taken, and the text is whole.
    Whole,
}

/// Why a segment was refused. The joiner is empty then.
#[derive(Clone, Copy, Debug, PartialEq, Eq, Error)]
pub enum JoinFault {
    /// 11: the segments hold a total length that no text has.
    #[error("BadIsduLength")]
    BadIsduLength,
    /// 15: the flow is none that may come now.
    #[error("WrongCount")]
    WrongCount,
}

impl JoinFault {
    ghost use Rattle.iol_segment.specs.Fault.{join_fault_number};

    /// The number of the refusal, 11 or 15 (profile).
    pub fn code(&self) -> u8
        ensures { result ≡ join_fault_number self.now }
    {
        match self {
            JoinFault::BadIsduLength => BAD_ISDU_LENGTH,
            JoinFault::WrongCount => WRONG_COUNT,
        }
    }
}
