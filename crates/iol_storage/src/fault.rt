//! Why a call is refused.
ghost use Rattle.std.specs.Prelude.{◌≡◌};
ghost use Rattle.iol_storage.specs.Faults.{storage_fault_number};

use thiserror::Error;

// The numbers of the refusals: their one table, which the definitions cite.
const TOO_LARGE: u8 = 43;

const NO_SET: u8 = 44;

/// Why a call is refused, which then changed nothing.
#[derive(Clone, Copy, Debug, PartialEq, Eq, Error)]
pub enum StorageFault {
    /// 43: more than 76 parameters, 232 octets of one, or 2,048 octets of all.
    #[error("TooLarge")]
    TooLarge,
    /// 44: the octets are no set's.
    #[error("NoSet")]
    NoSet,
}

impl StorageFault {
    /// The number of the refusal.
    pub fn code(self) -> u8
        ensures { result ≡ storage_fault_number self }
    {
        match self {
            StorageFault::TooLarge => TOO_LARGE,
            StorageFault::NoSet => NO_SET,
        }
    }
}
