//! The refusals of a device, and their numbers.
ghost use Rattle.std.specs.Prelude.{◌≡◌};

use thiserror::Error;

// The numbers of the refusals: their one table, which the definitions cite.
const WRONG_ANSWER_KIND: u8 = 14;

const MEMORY_FULL: u8 = 16;

const OUT_OF_MEMORY: u8 = 24;

const WRONG_IMAGE_LENGTH: u8 = 29;

const OTHER_REQUEST: u8 = 37;

/// Why a call of a device was refused.
#[derive(Clone, Copy, Debug, PartialEq, Eq, Error)]
pub enum DeviceFault {
    /// 14: an answer to a read for a write, or reversed.
    #[error("WrongAnswerKind")]
    WrongAnswerKind,
    /// 16: the event memory takes no further event.
    #[error("MemoryFull")]
    MemoryFull,
    /// 24: there is no memory for the record, or its room is used up.
    #[error("OutOfMemory")]
    OutOfMemory,
    /// 29: an input of another length than the page gives, or of any length where it gives none.
    #[error("WrongImageLength")]
    WrongImageLength,
    /// 37: an answer for a request other than the one that is handed over, or none is.
    #[error("OtherRequest")]
    OtherRequest,
}

impl DeviceFault {
    ghost use Rattle.iol_device.specs.Faults.{device_fault_number};

    /// The number of the refusal.
    pub fn code(&self) -> u8
        ensures { result ≡ device_fault_number self.now }
    {
        match self {
            DeviceFault::WrongAnswerKind => WRONG_ANSWER_KIND,
            DeviceFault::MemoryFull => MEMORY_FULL,
            DeviceFault::OutOfMemory => OUT_OF_MEMORY,
            DeviceFault::WrongImageLength => WRONG_IMAGE_LENGTH,
            DeviceFault::OtherRequest => OTHER_REQUEST,
        }
    }
}
