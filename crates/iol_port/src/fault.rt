//! The refusals of a port, and their numbers.
ghost use Rattle.std.specs.Prelude.{◌≡◌};

use iol_app::OutputFault;
use iol_book::BookFault;
use thiserror::Error;

// The numbers of the refusals: their one table, which the definitions cite.
const NO_EVENT: u8 = 30;

/// Why a port refuses a call.
#[derive(Clone, Copy, Debug, PartialEq, Eq, Error)]
pub enum PortFault {
    /// 21 to 28, 36 and 63: the book of the port's requests refuses it.
    #[error(transparent)]
    Book(BookFault),
    /// 34 and 29: an output is refused.
    #[error(transparent)]
    Output(OutputFault),
    /// 30: no event is kept.
    #[error("NoEvent")]
    NoEvent,
}

impl PortFault {
    ghost use Rattle.iol_port.specs.Faults.{port_fault_number};

    /// Its number among the refusals.
    pub fn code(&self) -> u8
        ensures { result ≡ port_fault_number self.now }
    {
        match self {
            PortFault::Book(fault) => fault.code(),
            PortFault::Output(fault) => fault.code(),
            PortFault::NoEvent => NO_EVENT,
        }
    }
}
