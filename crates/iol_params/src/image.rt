//! The image of what outlives the power: the values, the locks and the flag.
ghost use Rattle.std.specs.Prelude.{◌≡◌, ◌≤◌, Some, length};
ghost use Rattle.iol_params.specs.Image.{lasting_of, lasting_octet, image_size, is_image, lasting_in, with_lasting};

use crate::cells;
use crate::manager::Manager;
use crate::state::Locks;
use crate::table::Table;
use std::alloc::Allocator;

/// The bit of the first octet that is the flag; those below are the locks.
const FLAG: u8 = 16;

impl Table<'_> {
    /// How many octets an image has: one, and for each member one more than its longest value.
    pub fn image_size(&self) -> usize
        ensures value { result ≡ image_size self.now }
        ensures bound { result ≤ 256001 }
    {
        self.is_sound();
        1 + cells::room_for(self.members())
    }
}

impl<'a, A: Allocator + Copy> Manager<'a, A> {
    /// Writes the image: what outlives the power.
    ///
    /// Rule SAVE-1.
    pub fn image_into(&self, image: &mut [u8])
        requires { length image.old ≡ image_size self.now.table }
        ensures { lasting_in self.now.table image.new ≡ Some (lasting_of self.now.state) }
    {
        image[0] = self.lasting_octet();
        image[1..].copy_from_slice(self.cells());
    }

    /// The first octet of an image: the locks and the flag.
    fn lasting_octet(&self) -> u8
        ensures { result ≡ lasting_octet self.now.state.locks self.now.state.flag }
    {
        self.locks().octet() + FLAG * u8::from(self.flag())
    }

    /// The power is back: what an image keeps is in force. Octets that are no image of values that
    /// the table allows change nothing.
    ///
    /// Rule SAVE-2.
    pub fn restore(&mut self, image: &[u8])
        ensures { self.new ≡ record self.old {
          state = with_lasting self.old.state (lasting_in self.old.table image.now);
        } }
    {
        if self.is_image(image) {
            self.set_lasting(&image[1..], Locks::of(image[0]), image[0] >= FLAG);
        }
    }

    /// Whether octets are an image of values that the table allows.
    fn is_image(&self, image: &[u8]) -> bool
        ensures { result ≡ is_image self.now.table image.now }
    {
        let table = self.table();
        image.len() == table.image_size()
            && image[0] < 2 * FLAG
            && cells::all_fit(table.members(), &image[1..])
            && cells::are_consistent(table, &image[1..])
    }
}
