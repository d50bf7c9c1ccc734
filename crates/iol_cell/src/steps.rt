//! The kinds of atomic step at a cell, and the rule that they keep.
use atomic_table::Split;
use crossbeam_utils::atomic::seq_cell::RuledSeqCell;
use crossbeam_utils::rule::{Outcome, Protocol};
use iol_image::Image;
use std::alloc::Global;
use std::collections::LinkedList;

/// What one user of a cell knows: whether it is the writer, and the published
/// images that it has seen. No value of it is made: contracts alone speak of it.
pub struct Sight {
    pub writes: bool,
    pub observed: LinkedList<Option<Image>>,
}

/// The rule of a cell: it shows the last published image, and each user has seen the first of them.
pub struct CellProtocol;

impl Protocol<[u64; 5], Sight> for CellProtocol {
    ghost use Rattle.iol_cell.specs.Published.{CellRule};
    ghost use Rattle.iol_cell.specs.Steps.{first_writer};

    ghost holds = { CellRule };

    ghost first = { first_writer };
}

/// A seat catches up with what was published.
pub struct CatchUp;

impl Outcome<[u64; 5], Sight> for CatchUp {
    ghost use Rattle.iol_cell.specs.Steps.{Reads};

    ghost then = { Reads };
}

/// The writer adds an image, or none, to what was published.
pub struct Publish;

impl Outcome<[u64; 5], Sight> for Publish {
    ghost use Rattle.iol_cell.specs.Steps.{Publishes};

    ghost then = { Publishes };
}

/// A new seat, which has seen what the writer published.
pub struct NewSeat;

impl Split<Sight> for NewSeat {
    ghost use Rattle.iol_cell.specs.Steps.{seat_beside};

    ghost left = { λ sight. sight };

    ghost right = { seat_beside };
}

/// Five words that are read and written as one.
pub type Cell<A = Global> = RuledSeqCell<[u64; 5], Sight, CellProtocol, 5, A>;
