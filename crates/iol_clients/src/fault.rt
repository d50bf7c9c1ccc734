//! Why a plan was not carried out.
ghost use Rattle.std.specs.Prelude.{◌≡◌};
ghost use Rattle.iol_clients.specs.declared.fault.ClientsFault.TheVariants.{OutOfMemory};

use std::alloc::{AllocError, AllocFailed};
use thiserror::Error;

// The numbers of the refusals: their one table, which the definitions cite.
const OUT_OF_MEMORY: u8 = 24;

const NO_THREAD: u8 = 32;

const DESKS_FULL: u8 = 33;

/// Why a run of many clients is refused.
#[derive(Clone, Copy, Debug, PartialEq, Eq, Error)]
pub enum ClientsFault {
    /// 24: a request for memory was refused.
    #[error("OutOfMemory")]
    OutOfMemory,
    /// 32: a thread can't be started.
    #[error("NoThread")]
    NoThread,
    /// 33: a client gets no desk, since 1,024 are open.
    #[error("DesksFull")]
    DesksFull,
}

impl ClientsFault {
    ghost use Rattle.iol_clients.specs.Faults.{clients_fault_number};

    /// Its number among the refusals.
    pub fn code(&self) -> u8
        ensures { result ≡ clients_fault_number self.now }
    {
        match self {
            ClientsFault::OutOfMemory => OUT_OF_MEMORY,
            ClientsFault::NoThread => NO_THREAD,
            ClientsFault::DesksFull => DESKS_FULL,
        }
    }
}

impl From<AllocError> for ClientsFault {
    ghost from_gives = { λ _ fault. fault ≡ OutOfMemory };

    fn from(_: AllocError) -> ClientsFault {
        ClientsFault::OutOfMemory
    }
}

impl<T: Drop> From<AllocFailed<T>> for ClientsFault {
    ghost from_gives = { λ _ fault. fault ≡ OutOfMemory };

    fn from(_: AllocFailed<T>) -> ClientsFault {
        ClientsFault::OutOfMemory
    }
}
