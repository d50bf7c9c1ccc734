//! The refusals of layouts and messages, and their numbers.
ghost use Rattle.std.specs.Prelude.{◌≡◌};

use thiserror::Error;

// The numbers of the refusals: their one table, which the definitions cite.
const UNSUPPORTED_CODE: u8 = 2;

const BAD_LENGTH: u8 = 3;

const WRONG_LENGTH: u8 = 4;

const WRONG_TYPE: u8 = 5;

const BAD_CHECKSUM: u8 = 6;

/// Why a code, a length or octets were refused.
#[derive(Clone, Copy, Debug, PartialEq, Eq, Error)]
pub enum MseqFault {
    /// 2: no layout has this M-sequence code.
    #[error("UnsupportedCode")]
    UnsupportedCode,
    /// 3: a process data length is above 32 octets.
    #[error("BadLength")]
    BadLength,
    /// 4: there are more or fewer octets than the layout has.
    #[error("WrongLength")]
    WrongLength,
    /// 5: the M-sequence type isn't the layout's.
    #[error("WrongType")]
    WrongType,
    /// 6: the six checksum bits aren't the checksum of the octets.
    #[error("BadChecksum")]
    BadChecksum,
}

impl MseqFault {
    ghost use Rattle.iol_mseq.specs.Fault.{mseq_fault_number};

    /// The number of the refusal.
    pub fn code(&self) -> u8
        ensures { result ≡ mseq_fault_number self.now }
    {
        match self {
            MseqFault::UnsupportedCode => UNSUPPORTED_CODE,
            MseqFault::BadLength => BAD_LENGTH,
            MseqFault::WrongLength => WRONG_LENGTH,
            MseqFault::WrongType => WRONG_TYPE,
            MseqFault::BadChecksum => BAD_CHECKSUM,
        }
    }
}
