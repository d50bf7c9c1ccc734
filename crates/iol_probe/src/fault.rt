//! How the program fails.
use std::alloc::AllocError;
use thiserror::Error;

/// Why the program ends with status 1. Its text is what stands on standard error.
#[derive(Debug, Drop, Error)]
pub(crate) enum ProbeFault {
    /// The line of this number, counted from 1, fits no form, or has no place where it stands.
    #[error("line {0}: bad line")]
    Line(u64),
    /// A read of the input failed.
    #[error("read failed")]
    ReadFailed,
    /// A write of the output failed.
    #[error("write failed")]
    WriteFailed,
    /// No memory was left.
    #[error("out of memory")]
    OutOfMemory,
}

impl From<AllocError> for ProbeFault {
    fn from(_error: AllocError) -> ProbeFault {
        ProbeFault::OutOfMemory
    }
}
