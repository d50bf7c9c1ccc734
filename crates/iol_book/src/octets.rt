//! The octets of a journal's entries.
#![tactic(auto, using(std::proofs::lemmas::Grind::common_steps))]

ghost use Rattle.std.specs.Prelude.{◌≡◌, ◌<◌, ◌≤◌, ◌+◌, ◌++◌, [], true, false, length, OnOk, OnErr};

use std::alloc::{AllocError, Allocator};
use std::marker::Model;

// A list that grows gets room for a part of its length at least, so that it grows seldom.
pub(crate) const GROWTH: usize = 8;

/// A list of octets, which are added many at a time, with no more memory than it is told to take.
///
/// Contracts see them, and for how many there is memory.
#[derive(Drop)]
pub(crate) struct OctetList<A: Allocator + Copy> {
    // all that there is memory for, of which so many are used
    room: Vec<u8, A>,
    used: usize,
}

impl<A: Allocator + Copy> Model for OctetList<A> {
    ghost use Rattle.iol_book.specs.OctetList.{OctetListValue, octet_list_view, AreUsedThere};

    ghost Value = { OctetListValue };

    ghost view = { octet_list_view };

    ghost invariant = { AreUsedThere };
}

impl<A: Allocator + Copy> OctetList<A> {
    pub(crate) fn new(alloc: A) -> OctetList<A>
        ensures { result ≡ record { items = []; places = 0 } }
    {
        OctetList {
            room: Vec::new(alloc),
            used: 0,
        }
    }

    pub(crate) fn len(&self) -> usize
        ensures { result ≡ length self.now.items }
    {
        self.used
    }

    pub(crate) fn as_slice(&self) -> &[u8]
        ensures { result.now ≡ self.now.items }
    {
        &self.room[..self.used]
    }

    // Takes all of them out, and keeps the memory.
    pub(crate) fn clear(&mut self)
        ensures { self.new ≡ record self.old { items = [] } }
    {
        self.used = 0;
    }

    // These at the end, for which there is memory.
    pub(crate) fn append(&mut self, octets: &[u8])
        requires { length self.old.items + length octets.now ≤ self.old.places }
        ensures { self.new ≡ record self.old { items = self.old.items ++ octets.now } }
    {
        let end = self.used + octets.len();
        self.room[self.used..end].copy_from_slice(octets);
        self.used = end;
    }

    // Whether there is room for so many more.
    pub(crate) fn has_room(&self, more: usize) -> bool
        ensures yes { result ≡ true → length self.now.items + more ≤ self.now.places }
        ensures no { result ≡ false → self.now.places < length self.now.items + more }
    {
        more <= self.room.len() - self.used
    }

    // Room for so many more.
    pub(crate) fn reserve(&mut self, more: usize) -> Result<(), AllocError>
        ensures items { self.new.items ≡ self.old.items }
        ensures ok { OnOk result (length self.new.items + more ≤ self.new.places) }
        ensures grows { self.old.places ≤ self.new.places }
        ensures full { OnErr result (self.old.places < length self.old.items + more) }
    {
        if usize::MAX - self.used < more {
            return Err(AllocError);
        }
        self.grow(more, usize::MAX)
    }

    // Room for so many more, of a list of so many at most.
    pub(crate) fn grow(&mut self, more: usize, most: usize) -> Result<(), AllocError>
        requires fits { length self.old.items + more ≤ most }
        requires within { self.old.places ≤ most }
        ensures items { self.new.items ≡ self.old.items }
        ensures ok { OnOk result (length self.new.items + more ≤ self.new.places) }
        ensures grows { self.old.places ≤ self.new.places }
        ensures within { self.new.places ≤ most }
        ensures full { OnErr result (self.old.places < length self.old.items + more) }
    {
        if self.has_room(more) {
            return Ok(());
        }
        let places = self.used + more.max(self.used / GROWTH).min(most - self.used);
        self.room.reserve_exact(places - self.room.len())?;
        self.room.resize(places, 0)
    }
}
