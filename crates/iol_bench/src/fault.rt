//! Why a case was not done.
use iol_cell::CellFault;
use iol_image::ImageFault;
use iol_isdu::IsduFault;
use iol_master::MasterFault;
use iol_mseq::MseqFault;
use iol_port::PortFault;
use iol_script::ScriptFault;
use iol_sim::SimFault;
use std::alloc::{AllocError, AllocFailed};
use std::io;
use thiserror::Error;

/// Why a case isn't done.
#[derive(Debug, Drop, Error)]
pub(crate) enum BenchFault {
    /// The first word names no case.
    #[error("no such case")]
    UnknownCase,
    /// The second word isn't there, or is no number below 2^64.
    #[error("no count")]
    BadCount,
    /// A request for memory was refused.
    #[error("out of memory")]
    OutOfMemory,
    /// What came out isn't what the case is for, as a link that isn't in OPERATE.
    #[error("something else came out")]
    Unexpected,
    /// A port refuses a call.
    #[error(transparent)]
    Port(#[from] PortFault),
    /// The simulated device refuses a parameter.
    #[error(transparent)]
    Sim(#[from] SimFault),
    /// There is no cell.
    #[error(transparent)]
    Cell(#[from] CellFault),
    /// An image is refused.
    #[error(transparent)]
    Image(#[from] ImageFault),
    /// A layout or a message is refused.
    #[error(transparent)]
    Message(#[from] MseqFault),
    /// A request is refused.
    #[error(transparent)]
    Request(#[from] IsduFault),
    /// A script is refused.
    #[error(transparent)]
    Script(#[from] ScriptFault),
    /// A master refuses a call.
    #[error(transparent)]
    Master(#[from] MasterFault),
    /// The command line can't be read, or the word can't be written.
    #[error(transparent)]
    Io(#[from] io::Error),
}

impl From<AllocError> for BenchFault {
    fn from(_: AllocError) -> BenchFault {
        BenchFault::OutOfMemory
    }
}

impl<T: Drop> From<AllocFailed<T>> for BenchFault {
    fn from(_: AllocFailed<T>) -> BenchFault {
        BenchFault::OutOfMemory
    }
}
