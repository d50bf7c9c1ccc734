//! Entries that a book has no memory of any more: contracts alone know them.
ghost use Rattle.std.specs.Prelude.{◌≡◌, ◌++◌, [], List};
ghost use Rattle.iol_book.specs.declared.entries.Entry.{Entry};
ghost use base.Fml.{ftrue};

use std::marker::{Model, PhantomData, Send, Sync};

// The entries, at no cost of memory.
pub(crate) struct Forgotten {
    marker: PhantomData<u8>,
    pub ghost entries: { List Entry },
}

impl Model for Forgotten {
    ghost also_owns = { λ _. ftrue };
}

impl Forgotten {
    // What the caller says; it may speak of `near`.
    fn of<T>(near: &T) -> Forgotten
        ghost entries: { List Entry }
        ensures { result.entries ≡ entries }
    {
        let _ = near;
        Forgotten {
            marker: PhantomData,
        }
    }

    // None.
    pub(crate) fn none() -> Forgotten
        ensures { result.entries ≡ [] }
    {
        Forgotten::of(&())
    }

    // These, and more, of which the caller says what they are: some of `near`, from a place on.
    pub(crate) fn and<T>(&self, near: &T, from: usize) -> Forgotten
        ghost more: { List Entry }
        ensures { result.entries ≡ self.now.entries ++ more }
    {
        let _ = from;
        Forgotten::of(&(self, near))
    }
}

impl Drop for Forgotten {
    fn drop(self) {
        let Self { marker: _ } = self;
    }
}

// It owns nothing, so it may go to any thread, and any thread may share it.
unsafe impl Send for Forgotten {}

unsafe impl Sync for Forgotten {}
