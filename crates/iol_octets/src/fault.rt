//! The refusal of an octet, and its number.
ghost use Rattle.std.specs.Prelude.{◌≡◌};

use thiserror::Error;

// The numbers of the refusals: their one table, which the definitions cite.
const RESERVED_TYPE: u8 = 1;

/// Why an octet was refused.
#[derive(Clone, Copy, Debug, PartialEq, Eq, Error)]
pub enum OctetFault {
    /// 1: the M-sequence type is 3, which the standard reserves.
    #[error("ReservedType")]
    ReservedType,
}

impl OctetFault {
    /// The number of the refusal.
    pub fn code(&self) -> u8
        ensures { result ≡ RESERVED_TYPE }
    {
        match self {
            OctetFault::ReservedType => RESERVED_TYPE,
        }
    }
}
