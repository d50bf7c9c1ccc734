//! How the program ends where a command isn't carried out: its status, and its text
//! on standard error.
ghost use Rattle.std.specs.Prelude.{◌≡◌};
ghost use Rattle.std.specs.Process.{exit_status};
ghost use Rattle.iolink.specs.Ending.{status_after};

use clap::Error;
use clap::error::ErrorKind;
use iol_commands::{JudgeFault, ProgramFault};
use std::fmt;
use std::process::ExitCode;

/// Why the program ends with a status other than 0.
#[derive(Debug, Drop)]
pub(crate) enum Ending {
    /// The command failed.
    Failed(ProgramFault),
    /// The capture isn't honest, or nothing can be said. What was found is printed.
    NotHonest,
    /// The capture is honest, and its master isn't by the rules. What was found is printed.
    MasterAtFault,
    /// The capture isn't judged.
    NotJudged(JudgeFault),
    /// The command line is refused, or asks for help.
    Refused(Error),
    /// A word of the command line is no text.
    NoText,
}

impl Ending {
    ghost use Rattle.iolink.specs.Ending.{ending_status};

    /// The exit status of this ending.
    pub(crate) fn status(&self) -> u8
        ensures { result ≡ ending_status self.now }
    {
        match self {
            Ending::Failed(_) | Ending::NotHonest => 1,
            Ending::NotJudged(_) | Ending::Refused(_) | Ending::NoText => 2,
            Ending::MasterAtFault => 3,
        }
    }
}

impl fmt::Display for Ending {
    fn fmt<W: fmt::Write>(&self, f: &mut fmt::Formatter<W>) -> fmt::Result {
        match self {
            Ending::Failed(fault) => writeln!(f, "iolink: {fault}"),
            Ending::NotHonest | Ending::MasterAtFault => Ok(()),
            Ending::NotJudged(fault) => writeln!(f, "iolink: {fault}"),
            Ending::Refused(error) => write!(f, "{error}"),
            Ending::NoText => writeln!(f, "error: an argument is no text"),
        }
    }
}

impl From<ProgramFault> for Ending {
    ghost use Rattle.iolink.specs.declared.ending.Ending.TheVariants.{Failed};

    ghost from_gives = { λ fault ending. ending ≡ Failed fault };

    fn from(fault: ProgramFault) -> Ending {
        Ending::Failed(fault)
    }
}

impl From<JudgeFault> for Ending {
    ghost use Rattle.iolink.specs.declared.ending.Ending.TheVariants.{NotJudged};

    ghost from_gives = { λ fault ending. ending ≡ NotJudged fault };

    fn from(fault: JudgeFault) -> Ending {
        Ending::NotJudged(fault)
    }
}

impl From<Error> for Ending {
    ghost use Rattle.iolink.specs.Ending.{EndsBy};

    ghost from_gives = { EndsBy };

    fn from(error: Error) -> Ending {
        match error.kind() {
            ErrorKind::OutOfMemory => Ending::Failed(ProgramFault::OutOfMemory),
            _ => Ending::Refused(error),
        }
    }
}

/// The exit status of the program: 0, or that of its ending.
pub(crate) fn exit_of(outcome: &Result<(), Ending>) -> ExitCode
    ensures { exit_status result ≡ status_after outcome.now }
{
    match outcome {
        Ok(()) => ExitCode::from(0),
        Err(ending) => ExitCode::from(ending.status()),
    }
}
