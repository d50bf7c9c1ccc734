//! The refusals of an opening, and their numbers.
ghost use Rattle.std.specs.Prelude.{◌≡◌};

use thiserror::Error;

// The numbers of the refusals: their one table, which the definitions cite.
const OUT_OF_MEMORY: u8 = 24;

const WRONG_SLOT_SIZE: u8 = 59;

/// Why a device with parameters wasn't opened.
#[derive(Clone, Copy, Debug, PartialEq, Eq, Error)]
pub enum OpenFault {
    /// 24: there is no memory for the values.
    #[error("OutOfMemory")]
    OutOfMemory,
    /// 59: a slot has another size than the table asks for.
    #[error("WrongSlotSize")]
    WrongSlotSize,
}

impl OpenFault {
    ghost use Rattle.iol_param_device.specs.Faults.{open_fault_number};

    /// The number of the refusal.
    pub fn code(&self) -> u8
        ensures { result ≡ open_fault_number self.now }
    {
        match self {
            OpenFault::OutOfMemory => OUT_OF_MEMORY,
            OpenFault::WrongSlotSize => WRONG_SLOT_SIZE,
        }
    }
}
