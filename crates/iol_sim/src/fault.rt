//! The refusals of simulated wires and parameters, and their numbers.
ghost use Rattle.std.specs.Prelude.{◌≡◌};

use thiserror::Error;

// The numbers of the refusals: their one table, which the definitions cite.
const OUT_OF_MEMORY: u8 = 24;

const BAD_PARAM: u8 = 35;

/// Why a call was refused.
#[derive(Clone, Copy, Debug, PartialEq, Eq, Error)]
pub enum SimFault {
    /// 24: there is no memory for the script or the messages.
    #[error("OutOfMemory")]
    OutOfMemory,
    /// 35: a parameter too many, one at a place that is taken, or one of more than 232 octets.
    #[error("BadParam")]
    BadParam,
}

impl SimFault {
    ghost use Rattle.iol_sim.specs.Faults.{sim_fault_number};

    /// The number of the refusal.
    pub fn code(&self) -> u8
        ensures { result ≡ sim_fault_number self.now }
    {
        match self {
            SimFault::OutOfMemory => OUT_OF_MEMORY,
            SimFault::BadParam => BAD_PARAM,
        }
    }
}
