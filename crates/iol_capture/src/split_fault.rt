//! Why octets can't be split.
ghost use Rattle.std.specs.Prelude.{◌≡◌};

use iol_judge::Open;
use thiserror::Error;

// The numbers of the refusals: their one table, which the definitions cite.
const TIME_BACK: u8 = 1;

const OVERLAP: u8 = 2;

const NO_LAYOUT: u8 = 7;

/// Why an octet is none of a message or a reply.
#[derive(Clone, Copy, Debug, PartialEq, Eq, Error)]
pub enum SplitFault {
    /// 1: its time is before that of the octet or the wake-up request before it.
    #[error("TimeBack: its time is before that of the line before")]
    TimeBack,
    /// 2: it begins before the frame of the octet before has ended. The rate may be another.
    #[error("Overlap: it begins before the octet before has ended, or the rate is another")]
    Overlap,
    /// 7: the layout of the device's mode isn't known.
    #[error("NoLayout: the layout of the device's mode isn't known ({0})")]
    NoLayout(Open),
}

impl SplitFault {
    ghost use Rattle.iol_capture.specs.SplitNumbers.{split_fault_number};

    /// The number of the refusal.
    pub fn code(&self) -> u8
        ensures { result ≡ split_fault_number self.now }
    {
        match self {
            SplitFault::TimeBack => TIME_BACK,
            SplitFault::Overlap => OVERLAP,
            SplitFault::NoLayout(_) => NO_LAYOUT,
        }
    }
}
