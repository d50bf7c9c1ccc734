//! Slots in memory that count what is stored, and look at its order.
ghost use Rattle.std.specs.Prelude.{◌≡◌, ⊤};

use iol_slots::{RamSlots, Slot, Slots, Store};
use std::alloc::{AllocError, Global};

/// Slots in memory, and what was stored in them.
#[derive(Drop)]
pub struct LoggedSlots {
    slots: RamSlots,
    /// How many octets were stored.
    count: u32,
    last: Option<Store>,
    is_in_order: bool,
}

impl LoggedSlots {
    /// Erased slots of so many octets each.
    pub fn open(alloc: Global, size: usize) -> Result<LoggedSlots, AllocError> {
        Ok(LoggedSlots {
            slots: RamSlots::open(alloc, size)?,
            count: 0,
            last: None,
            is_in_order: true,
        })
    }

    /// Puts octets into a slot, as many as there is room for, and logs nothing.
    pub fn fill(&mut self, slot: Slot, octets: &[u8]) {
        for (at, octet) in octets.iter().enumerate() {
            if at < self.slots.octets(slot).len() {
                self.slots.store(Store {
                    slot,
                    at,
                    octet: *octet,
                });
            }
        }
    }

    pub fn count(&self) -> u32 {
        self.count
    }

    /// Whether each octet was the first of a slot, or stood behind the one before.
    pub fn is_in_order(&self) -> bool {
        self.is_in_order
    }

    fn log(&mut self, store: Store)
        ensures { self.new.slots ≡ self.old.slots }
    {
        let follows = match self.last {
            Some(last) => last.slot == store.slot && last.at.wrapping_add(1) == store.at,
            None => false,
        };
        self.is_in_order = self.is_in_order && (store.at == 0 || follows);
        self.count = self.count.wrapping_add(1);
        self.last = Some(store);
    }
}

impl Slots for LoggedSlots {
    ghost memory = { λ s. s.slots };

    ghost store_gives = { λ old store new. ⊤ };

    fn octets(&self, slot: Slot) -> &[u8] {
        self.slots.octets(slot)
    }

    fn store(&mut self, store: Store) {
        self.slots.store(store);
        self.log(store);
    }
}
