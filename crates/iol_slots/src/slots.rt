//! The memory, as its driver gives it.
ghost use Rattle.std.specs.Prelude.{◌≡◌, ◌<◌, length};
ghost use Rattle.iol_slots.specs.Memory.{Memory, slot_octets, after_store};
ghost use Rattle.iol_slots.specs.declared.slots.Store.{Store};

/// One of the two slots.
#[derive(Clone, Copy, Debug, PartialEq, Eq)]
pub enum Slot {
    First,
    Second,
}

/// An octet that is stored.
#[derive(Clone, Copy, Debug, PartialEq, Eq)]
pub struct Store {
    pub slot: Slot,
    /// Its place in the slot, 0 first.
    pub at: usize,
    pub octet: u8,
}

/// Memory that outlives the power: two slots of octets.
///
/// An octet is stored, or it isn't: a driver whose octet may be left half stored keeps another
/// memory than these rules are about.
///
/// Rule SLOT-1.
pub trait Slots: Drop {
    /// What they hold.
    ghost memory: { Self → Memory };

    /// What storing an octet gives: the slots before it, what is stored, the slots after it.
    ghost store_gives: { Self → Store → Self → Type 0 };

    /// The octets of a slot.
    fn octets(&self, slot: Slot) -> &[u8]
        ensures { result.now ≡ slot_octets (memory self.now) slot };

    /// Stores an octet, before it returns.
    fn store(&mut self, store: Store)
        requires { store.at < length (slot_octets (memory self.old) store.slot) }
        ensures gives { store_gives self.old store self.new }
        ensures holds { memory self.new ≡ after_store (memory self.old) store };
}
