//! How a command fails.
ghost use Rattle.std.specs.Prelude.{◌≡◌};
ghost use Rattle.iol_commands.specs.declared.fault.ProgramFault.TheVariants.{OutOfMemory};

use iol_clients::ClientsFault;
use iol_params::{Flaw, TableFault};
use iol_script::ScriptFault;
use std::alloc::{AllocError, AllocFailed};
use std::fmt;
use thiserror::Error;

/// Why a command failed. Its text is what stands on standard error behind `iolink: `.
#[derive(Clone, Copy, Debug, PartialEq, Eq, Error)]
pub enum ProgramFault {
    /// The line of this number, counted from 1, fits no form of the command.
    #[error("line {0}: bad line")]
    Line(u64),
    /// The parameters of the script make no table: of one with this flaw no device can be opened.
    #[error("table: {flaw}", flaw = InTable(.0))]
    Table(TableFault),
    /// The input has more than 1,048,576 bytes.
    #[error("input too long")]
    TooLong,
    /// A read of the input failed.
    #[error("read failed")]
    ReadFailed,
    /// A write of the output failed. Part of the output may be written.
    #[error("write failed")]
    WriteFailed,
    /// No memory was left.
    #[error("out of memory")]
    OutOfMemory,
    /// A thread couldn't be started: only `many` says it, which works in threads.
    #[error("no thread")]
    NoThread,
    /// A client got no desk, which `many` alone says too.
    #[error("no desk")]
    NoDesk,
}

/// A flaw, and among the lines of its kind, counted from 1, the one that has it.
#[derive(Clone, Copy, Debug)]
struct InTable<'a>(&'a TableFault);

impl fmt::Display for InTable<'_> {
    fn fmt<W: fmt::Write>(&self, f: &mut fmt::Formatter<W>) -> fmt::Result {
        let TableFault { row, flaw } = *self.0;
        let number = row.saturating_add(1);
        match flaw {
            Flaw::TooMuchStored => write!(f, "{flaw}"),
            Flaw::NoStoredNumber | Flaw::BrokenAtFirst => { write!(f, "{flaw} in atmost {number}") }
            _ => write!(f, "{flaw} in param {number}"),
        }
    }
}

impl From<AllocError> for ProgramFault {
    ghost from_gives = { λ _ e. e ≡ OutOfMemory };

    fn from(_error: AllocError) -> ProgramFault {
        ProgramFault::OutOfMemory
    }
}

impl<T: Drop> From<AllocFailed<T>> for ProgramFault {
    ghost from_gives = { λ _ e. e ≡ OutOfMemory };

    fn from(_error: AllocFailed<T>) -> ProgramFault {
        ProgramFault::OutOfMemory
    }
}

impl From<ScriptFault> for ProgramFault {
    ghost use Rattle.iol_commands.specs.Faults.{fault_of};

    ghost from_gives = { λ fault e. e ≡ fault_of fault };

    fn from(fault: ScriptFault) -> ProgramFault {
        match fault {
            ScriptFault::Line(number) => ProgramFault::Line(number),
            ScriptFault::OutOfMemory => ProgramFault::OutOfMemory,
        }
    }
}

impl From<ClientsFault> for ProgramFault {
    ghost use Rattle.iol_commands.specs.Faults.{clients_fault_of};

    ghost from_gives = { λ fault e. e ≡ clients_fault_of fault };

    fn from(fault: ClientsFault) -> ProgramFault {
        match fault {
            ClientsFault::OutOfMemory => ProgramFault::OutOfMemory,
            ClientsFault::NoThread => ProgramFault::NoThread,
            ClientsFault::DesksFull => ProgramFault::NoDesk,
        }
    }
}
