//! Why there is no cell.
ghost use Rattle.std.specs.Prelude.{◌≡◌};

use thiserror::Error;

// The numbers of the refusals: their one table, which the definitions cite.
const OUT_OF_MEMORY: u8 = 24;

/// Why there is no cell for images.
#[derive(Clone, Copy, Debug, PartialEq, Eq, Error)]
pub enum CellFault {
    /// 24: there is no memory for the cell, or for one of its seats.
    #[error("OutOfMemory")]
    OutOfMemory,
}

impl CellFault {
    ghost use Rattle.iol_cell.specs.Fault.{cell_fault_number};

    /// Its number (profile): 24 OutOfMemory.
    pub fn code(&self) -> u8
        ensures { result ≡ cell_fault_number self.now }
    {
        match self {
            CellFault::OutOfMemory => OUT_OF_MEMORY,
        }
    }
}
