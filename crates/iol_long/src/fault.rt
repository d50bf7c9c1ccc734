//! What ends the program.
use iol_isdu::IsduFault;
use iol_port::PortFault;
use std::alloc::{AllocError, AllocFailed};
use std::io;
use thiserror::Error;

/// Why the program ends early.
#[derive(Debug, Drop, Error)]
pub(crate) enum LongFault {
    /// A word isn't there, or is no number below 2^64.
    #[error("no number")]
    BadNumber,
    /// A request for memory was refused.
    #[error("out of memory")]
    OutOfMemory,
    /// It isn't as the plain list says.
    #[error("ticket {ticket}: {wrong}")]
    Wrong { ticket: u64, wrong: Wrong },
    /// A port refuses a call that it has to take.
    #[error(transparent)]
    Port(#[from] PortFault),
    /// A request is refused.
    #[error(transparent)]
    Request(#[from] IsduFault),
    /// The device refuses the answer to the request that it handed over.
    #[error("no answer is taken")]
    Refused,
    /// The command line can't be read, or the counts can't be written.
    #[error(transparent)]
    Io(#[from] io::Error),
}

/// What isn't as the plain list says.
#[derive(Clone, Copy, Debug, PartialEq, Eq, Error)]
pub(crate) enum Wrong {
    #[error("it isn't the next one")]
    Number,
    #[error("carried out twice")]
    CarriedTwice,
    #[error("carried out once it could be no more")]
    CarriedLate,
    #[error("carried out in other octets")]
    CarriedOther,
    #[error("carried out in another order")]
    CarriedInDisorder,
    #[error("another answer than the device's is told")]
    OtherAnswer,
    #[error("carried out, and told otherwise")]
    CarriedAndDenied,
    #[error("no row has it any more")]
    Gone,
    #[error("an entry stands where it can't stand")]
    Misplaced,
    #[error("an entry isn't the one of the call that was made")]
    OtherCall,
    #[error("a call has no entry")]
    NoEntry,
    #[error("the entries that are restated are others than those that are open")]
    Restated,
    #[error("it never ended")]
    NeverEnded,
}

impl Wrong {
    /// What is wrong with this ticket.
    pub(crate) fn of(self, ticket: u64) -> LongFault {
        LongFault::Wrong {
            ticket,
            wrong: self,
        }
    }
}

impl From<AllocError> for LongFault {
    fn from(_: AllocError) -> LongFault {
        LongFault::OutOfMemory
    }
}

impl<T: Drop> From<AllocFailed<T>> for LongFault {
    fn from(_: AllocFailed<T>) -> LongFault {
        LongFault::OutOfMemory
    }
}
