//! Why a call of a stored port is refused.
ghost use Rattle.std.specs.Prelude.{◌≡◌};
ghost use Rattle.iol_storage.specs.StoredFaults.{stored_fault_number};

use iol_port::PortFault;
use thiserror::Error;

// The numbers of the refusals: their one table, which the definitions cite.
const OWNED_INDEX: u8 = 41;

const STORING: u8 = 45;

const UNKNOWN_BLOCK: u8 = 46;

const BLOCK_NOT_OVER: u8 = 47;

const SMALL_QUEUE: u8 = 48;

const NO_STANDING: u8 = 60;

const UNCOLLECTED: u8 = 61;

const OTHER_SET: u8 = 62;

/// Why a call of a stored port is refused, which then changed nothing.
#[derive(Clone, Copy, Debug, PartialEq, Eq, Error)]
pub enum StoredFault {
    /// 21 to 28, 30, 34, 36 and 63: the port within refuses it.
    #[error(transparent)]
    Port(PortFault),
    /// 41: no client may write at the Index of Data Storage, nor has a block or a set a value
    /// there, or a SystemCommand.
    #[error("OwnedIndex")]
    OwnedIndex,
    /// 45: a check or a block is under way.
    #[error("Storing")]
    Storing,
    /// 46: the block isn't the last one, or its outcome was collected.
    #[error("UnknownBlock")]
    UnknownBlock,
    /// 47: the block isn't over.
    #[error("BlockNotOver")]
    BlockNotOver,
    /// 48: fewer than three tickets may be outstanding, or a journal that is kept has fewer than 12
    /// entries.
    #[error("SmallQueue")]
    SmallQueue,
    /// 60: there is no session, or Data Storage hasn't come to its end in it.
    #[error("NoStanding")]
    NoStanding,
    /// 61: the outcome of the block before was not collected.
    #[error("Uncollected")]
    Uncollected,
    /// 62: another set waits to be saved, or none does.
    #[error("OtherSet")]
    OtherSet,
}

impl StoredFault {
    /// The number of the refusal.
    pub fn code(&self) -> u8
        ensures { result ≡ stored_fault_number self.now }
    {
        match self {
            StoredFault::Port(fault) => fault.code(),
            StoredFault::OwnedIndex => OWNED_INDEX,
            StoredFault::Storing => STORING,
            StoredFault::UnknownBlock => UNKNOWN_BLOCK,
            StoredFault::BlockNotOver => BLOCK_NOT_OVER,
            StoredFault::SmallQueue => SMALL_QUEUE,
            StoredFault::NoStanding => NO_STANDING,
            StoredFault::Uncollected => UNCOLLECTED,
            StoredFault::OtherSet => OTHER_SET,
        }
    }
}
