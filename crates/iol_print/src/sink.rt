//! Where text goes.
ghost use Rattle.std.specs.Prelude.{◌≡◌, ℕ, ◌+◌, List, OnOk, ◌++◌, length};
ghost use Rattle.std.specs.String.{string_bytes};
ghost use Rattle.iol_print.specs.Sink.{PutsWithin};

use arrayvec::ArrayString;
use std::alloc::{AllocError, Allocator};
use std::fmt;

/// What text is added to.
pub trait TextSink {
    /// Why a text isn't added.
    type Error;

    /// The text so far.
    ghost text: { Self → List ℕ };

    /// A text of fewer bytes is surely added: 0 where it may be refused whatever it is.
    ghost limit: { ℕ };

    /// Adds a text behind the text so far.
    fn put(&mut self, added: &str) -> Result<(), Self::Error>
        ensures text { OnOk result (text self.new ≡ text self.old ++ added.now) }
        ensures fits { PutsWithin result limit (text self.old) (length added.now) };
}

/// It grows; a growth may be refused.
impl<A: Allocator> TextSink for String<A> {
    type Error = AllocError;

    ghost text = { λ s. string_bytes s };

    ghost limit = { 0 };

    fn put(&mut self, added: &str) -> Result<(), AllocError> {
        self.push_str(added)
    }
}

/// It takes what fits.
impl<const CAP: usize> TextSink for ArrayString<CAP> {
    type Error = fmt::Error;

    ghost text = { λ s. s.bytes };

    ghost limit = { CAP + 1 };

    fn put(&mut self, added: &str) -> Result<(), fmt::Error> {
        match self.try_push_str(added) {
            Ok(()) => Ok(()),
            Err(_) => Err(fmt::Error),
        }
    }
}
