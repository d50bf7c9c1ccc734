//! What a handle of C holds.
ghost use Rattle.std.specs.Prelude.{◌≡◌, Bool, true, false};
ghost use Rattle.iolink_storage_c.specs.declared.held.HeldStore.{HeldStore};

use core::mem::replace_with;
use iol_storage::{Objects, StoredPort};
use iolink_handle::Loose;
use iolink_port_forms::RetainedJournal;
use std::alloc::Global;
use std::marker::Model;
use std::ptr::null_mut;

/// What lies behind the pointer: the port, the journal that was handed out last, and the writes of
/// a block that was begun.
#[derive(Drop)]
pub struct HeldStore {
    pub port: StoredPort<Global>,
    pub journal: RetainedJournal,
    /// None where no block was begun: the memory is there only meanwhile.
    pub writes: Option<Box<Objects>>,
}

/// A pointer, with the box behind it where it holds one.
#[derive(Drop)]
#[repr(C)]
pub struct StorePointer {
    at: *mut (),
    pub ghost is_held: { Bool },
    pub ghost value: { HeldStore },
}

impl Model for StorePointer {
    ghost use Rattle.iolink_handle.specs.Heap.{handle_owns};
    ghost use Rattle.iolink_storage_c.specs.contracts.held.HeldStore.{the_row};

    ghost also_owns = { λ h. handle_owns the_row h.is_held h.at h.value };
}

impl StorePointer {
    fn of_loose(loose: Loose<HeldStore>) -> StorePointer
        ensures value { result.value ≡ loose.value }
        ensures holds { result.is_held ≡ true }
    {
        let Loose { at } = loose;
        StorePointer { at: at as *mut () }
    }

    /// The box, beside the pointer to nothing that is left.
    fn take(self) -> (StorePointer, Loose<HeldStore>)
        requires { self.is_held ≡ true }
        ensures last { result.0.value ≡ self.value }
        ensures shut { result.0.is_held ≡ false }
        ensures value { result.1.value ≡ self.value }
    {
        let StorePointer { at } = self;
        (
            StorePointer { at: null_mut() },
            Loose {
                at: at as *mut HeldStore,
            },
        )
    }
}

/// A port with Data Storage, as C holds it. All zero it is closed.
#[derive(Drop)]
#[repr(C)]
pub struct IolStore {
    pub held: StorePointer,
    pub is_open: bool,
    pub ghost same: { held.is_held ≡ is_open },
}

impl IolStore {
    pub(crate) fn of(store: Box<HeldStore>) -> IolStore
        ensures value { result.held.value ≡ store.value }
        ensures opened { result.is_open ≡ true }
    {
        IolStore {
            held: StorePointer::of_loose(Loose::of(store)),
            is_open: true,
        }
    }

    /// The box, beside the closed handle that is left.
    fn take(self, alloc: Global) -> (IolStore, Box<HeldStore>)
        requires { self.is_open ≡ true }
        ensures last { result.0.held.value ≡ self.held.value }
        ensures shut { result.0.is_open ≡ false }
        ensures value { result.1.value ≡ self.held.value }
    {
        let IolStore { held, is_open: _ } = self;
        let (held, loose) = held.take();
        let closed = IolStore {
            held,
            is_open: false,
        };
        (closed, loose.into_box(alloc))
    }

    /// The box of an open handle, which is closed behind this.
    pub(crate) fn take_box(&mut self, alloc: Global) -> Box<HeldStore>
        requires { self.old.is_open ≡ true }
        ensures shut { self.new.is_open ≡ false }
        ensures value { result.value ≡ self.old.held.value }
    {
        replace_with(self, alloc, |handle, alloc| handle.take(alloc))
    }
}
