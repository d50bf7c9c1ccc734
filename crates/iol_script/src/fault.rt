//! Why a text is no script and no plan.
use std::alloc::{AllocError, AllocFailed};
use thiserror::Error;

/// Why the lines of `run` are no script.
#[derive(Clone, Copy, Debug, PartialEq, Eq, Error)]
pub enum ScriptFault {
    /// The line of this number, counted from 1, fits no form or is refused in its place.
    #[error("line {0}: bad line")]
    Line(u64),
    /// A growth was refused.
    #[error("out of memory")]
    OutOfMemory,
}

impl From<AllocError> for ScriptFault {
    ghost use Rattle.std.specs.Prelude.{◌≡◌};
    ghost use Rattle.iol_script.specs.declared.fault.ScriptFault.TheVariants.{OutOfMemory};

    ghost from_gives = { λ _ fault. fault ≡ OutOfMemory };

    fn from(_: AllocError) -> ScriptFault {
        ScriptFault::OutOfMemory
    }
}

impl<T: Drop> From<AllocFailed<T>> for ScriptFault {
    ghost use Rattle.std.specs.Prelude.{◌≡◌};
    ghost use Rattle.iol_script.specs.declared.fault.ScriptFault.TheVariants.{OutOfMemory};

    ghost from_gives = { λ _ fault. fault ≡ OutOfMemory };

    fn from(_: AllocFailed<T>) -> ScriptFault {
        ScriptFault::OutOfMemory
    }
}
