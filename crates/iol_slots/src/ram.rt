//! Slots in memory: for simulations and tests, and where a driver saves them itself.
ghost use Rattle.std.specs.Prelude.{◌≡◌, ⊤, IfOk, replicate};
ghost use Rattle.iol_slots.specs.Memory.{Memory};

use crate::slots::{Slot, Slots, Store};
use std::alloc::{AllocError, Allocator, Global};
use std::marker::Model;

/// What memory has where it was erased.
const ERASED: u8 = 0xFF;

/// Two slots in memory.
#[derive(Drop)]
pub struct RamSlots<A: Allocator + Copy = Global> {
    first: Vec<u8, A>,
    second: Vec<u8, A>,
}

impl<A: Allocator + Copy> Model for RamSlots<A> {
    ghost Value = { Memory };

    ghost view = { λ s. record { first = s.first.items; second = s.second.items } };
}

impl<A: Allocator + Copy> RamSlots<A> {
    /// Erased slots of so many octets each. An AllocError where there is no memory for them.
    pub fn open(alloc: A, size: usize) -> Result<RamSlots<A>, AllocError>
        ensures { IfOk result (λ s. s
            ≡ record { first = replicate size 255; second = replicate size 255 }) }
    {
        let mut first = Vec::with_capacity(alloc, size)?;
        first.resize(size, ERASED)?;
        let mut second = Vec::with_capacity(alloc, size)?;
        second.resize(size, ERASED)?;
        Ok(RamSlots { first, second })
    }
}

impl<A: Allocator + Copy> Slots for RamSlots<A> {
    ghost memory = { λ s. s };

    ghost store_gives = { λ old store new. ⊤ };

    fn octets(&self, slot: Slot) -> &[u8] {
        match slot {
            Slot::First => &self.first,
            Slot::Second => &self.second,
        }
    }

    fn store(&mut self, store: Store) {
        match store.slot {
            Slot::First => self.first[store.at] = store.octet,
            Slot::Second => self.second[store.at] = store.octet,
        }
    }
}
