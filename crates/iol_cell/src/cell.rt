//! The cell of one image: its writer, and the seats of its readers.
ghost use Rattle.std.specs.Prelude.{◌≡◌, ◌≤◌, ◌++◌, [], ◌∷◌, IfOk, IfErr, All, vec_len, option_map};
ghost use Rattle.iol_cell.specs.declared.fault.CellFault.TheVariants.{OutOfMemory};

use crate::fault::CellFault;
use crate::handle::Handle;
use crate::packing::{image_in, words_of};
use crate::steps::{CatchUp, Cell, NewSeat, Publish, Sight};
use crossbeam_utils::atomic::seq_cell::Pass;
use iol_image::Image;
use std::alloc::{AllocError, Global};
use std::marker::Model;
use std::sync::{Arc, Wait};

/// The one that publishes images in a cell.
///
/// A clause sees the cell that it is of, and the list of all that it published.
pub struct ImageWriter<A: Handle = Global> {
    cell: Arc<Cell<A>, A>,
    pass: Pass<[u64; 5], Sight>,
}

impl<A: Handle> Model for ImageWriter<A> {
    ghost use Rattle.std.specs.Prelude.{◌≡◌, true};
    ghost use Rattle.std.specs.Arc.{arc_value};
    ghost use Rattle.crossbeam_utils.specs.Seq.{cell_view};
    ghost use Rattle.iol_cell.specs.Published.{CellImages};

    ghost Value = { CellImages };

    ghost view = { λ writer. record {
      cell = writer.pass.table_id;
      images = (cell_view writer.pass).observed;
    } };

    ghost invariant = { λ writer.
        (writer.pass.table_id ≡ (arc_value writer.cell).table.shared.table_id)
        × ((cell_view writer.pass).writes ≡ true) };
}

impl<A: Handle> Drop for ImageWriter<A> {
    fn drop(self) {
        let Self { cell: _, pass: _ } = self;
    }
}

/// One reader of a cell.
///
/// A clause sees the cell that it is of, and the list of the published images that it has seen.
pub struct ImageSeat<A: Handle = Global> {
    cell: Arc<Cell<A>, A>,
    pass: Pass<[u64; 5], Sight>,
}

impl<A: Handle> Model for ImageSeat<A> {
    ghost use Rattle.std.specs.Prelude.{◌≡◌};
    ghost use Rattle.std.specs.Arc.{arc_value};
    ghost use Rattle.crossbeam_utils.specs.Seq.{cell_view};
    ghost use Rattle.iol_cell.specs.Published.{CellImages};

    ghost Value = { CellImages };

    ghost view = { λ seat. record {
      cell = seat.pass.table_id;
      images = (cell_view seat.pass).observed;
    } };

    ghost invariant = { λ seat. seat.pass.table_id ≡ (arc_value seat.cell).table.shared.table_id };
}

impl<A: Handle> Drop for ImageSeat<A> {
    fn drop(self) {
        let Self { cell: _, pass: _ } = self;
    }
}

impl<A: Handle> ImageWriter<A> {
    /// Puts an image, or none, in place of the one that the cell has.
    ///
    /// A seat that reads later finds it whole. The call may wait for another one on
    /// this cell, and takes no lock of a port.
    pub fn publish<R: Wait>(&mut self, rt: &R, image: Option<&Image>)
        ensures cell { self.new.cell ≡ self.old.cell }
        ensures appended { self.new.images
            ≡ self.old.images ++ option_map (λ image. image.now) image.entry ∷ [] }
    {
        self.cell
            .swap_as::<Publish, R>(rt, &mut self.pass, words_of(image));
    }
}

impl<A: Handle> ImageSeat<A> {
    ghost use Rattle.std.specs.Prelude.{◌≡◌};
    ghost use Rattle.iol_cell.specs.Packing.{image_of};
    ghost use Rattle.iol_cell.specs.Published.{StartsWith, last_image};

    /// The last published image, whole, or none.
    ///
    /// A seat never goes back: what it reads later was published no earlier. The
    /// call may wait while the writer is publishing, and takes no lock of a port.
    pub fn read<R: Wait>(&mut self, rt: &R) -> Option<Image>
        ensures cell { self.new.cell ≡ self.old.cell }
        ensures last { result ≡ last_image self.new.images }
        ensures later { StartsWith self.new.images self.old.images }
    {
        let words = self.load(rt);
        image_in(&words)
    }

    /// The five words of the last published image, all of one moment.
    fn load<R: Wait>(&mut self, rt: &R) -> [u64; 5]
        ensures cell { self.new.cell ≡ self.old.cell }
        ensures last { image_of result ≡ last_image self.new.images }
        ensures later { StartsWith self.new.images self.old.images }
    {
        self.cell.load_as::<CatchUp, R>(rt, &mut self.pass)
    }
}

/// Seats of the writer's cell, which have seen what it published.
fn seats_of<A: Handle>(
    alloc: A,
    writer: &mut ImageWriter<A>,
    readers: usize,
) -> Result<Vec<ImageSeat<A>, A>, AllocError>
    ensures writer { writer.new ≡ writer.old }
    ensures count { IfOk result (λ seats. vec_len seats ≡ readers) }
    ensures seats { IfOk result (λ seats. All (λ seat. seat ≡ writer.old) seats.items) }
{
    let mut seats = Vec::with_capacity(alloc, readers)?;
    for _ in 0..readers {
        let cell = Arc::try_clone(&writer.cell)?;
        let pass = writer.cell.split_pass::<NewSeat>(&mut writer.pass);
        seats.push(ImageSeat { cell, pass })?;
    }
    Ok(seats)
}

fn new_writer<A: Handle>(alloc: A) -> Result<ImageWriter<A>, AllocError>
    ensures { IfOk result (λ writer. writer.images ≡ []) }
{
    let (cell, pass) = Cell::ruled(alloc, [0; 5])?;
    let cell = Arc::new(alloc, cell)?;
    Ok(ImageWriter { cell, pass })
}

fn open_cell<A: Handle>(
    alloc: A,
    readers: usize,
) -> Result<(ImageWriter<A>, Vec<ImageSeat<A>, A>), AllocError>
    ensures writer { IfOk result (λ opened. opened.0.images ≡ []) }
    ensures count { IfOk result (λ opened. vec_len opened.1 ≡ readers) }
    ensures seats { IfOk result (λ opened. All (λ seat. seat ≡ opened.0) opened.1.items) }
{
    let mut writer = new_writer(alloc)?;
    let seats = seats_of(alloc, &mut writer, readers)?;
    Ok((writer, seats))
}

/// A new cell, which opens with no image: its writer, and as many seats as `readers` says, 1 to 16.
///
/// 24 OutOfMemory: there is no memory for the cell, or for a seat. Nothing of a
/// refused cell is left.
pub fn image_cell<R: Wait, A: Handle>(
    _rt: &R,
    alloc: A,
    readers: usize,
) -> Result<(ImageWriter<A>, Vec<ImageSeat<A>, A>), CellFault>
    requires { (1 ≤ readers) × (readers ≤ 16) }
    ensures writer { IfOk result (λ opened. opened.0.images ≡ []) }
    ensures count { IfOk result (λ opened. vec_len opened.1 ≡ readers) }
    // each seat is of the writer's cell, and has seen nothing yet
    ensures seats { IfOk result (λ opened. All (λ seat. seat ≡ opened.0) opened.1.items) }
    ensures fault { IfErr result (λ fault. fault ≡ OutOfMemory) }
{
    open_cell(alloc, readers).map_err(|_| CellFault::OutOfMemory)
}
