//! What a handle of C holds.
ghost use Rattle.std.specs.Prelude.{◌≡◌, Bool, true, false, is_some, IfSome, IfNone};
ghost use Rattle.std.specs.Fn.{FnOnceReturnsAtMut};
ghost use Rattle.iolink_port_c.specs.declared.held.PortWithJournal.{PortWithJournal};

use core::mem::replace_with;
use iol_port::PortCore;
use iol_print::LineCall;
use iolink_handle::Loose;
use iolink_port_forms::RetainedJournal;
use std::alloc::Global;
use std::marker::Model;
use std::ptr::null_mut;

/// What lies behind the pointer: the port, the journal that was handed out last, and the last call
/// of the line.
#[derive(Drop)]
pub struct PortWithJournal {
    pub port: PortCore<Global>,
    pub journal: RetainedJournal,
    pub passed: Option<LineCall>,
}

/// A pointer, with the box behind it where it holds one.
#[derive(Drop)]
#[repr(C)]
pub struct PortPointer {
    at: *mut (),
    pub ghost is_held: { Bool },
    pub ghost value: { PortWithJournal },
}

impl Model for PortPointer {
    ghost use Rattle.iolink_handle.specs.Heap.{handle_owns};
    ghost use Rattle.iolink_port_c.specs.contracts.held.PortWithJournal.{the_row};

    ghost also_owns = { λ h. handle_owns the_row h.is_held h.at h.value };
}

impl PortPointer {
    fn of_loose(loose: Loose<PortWithJournal>) -> PortPointer
        ensures value { result.value ≡ loose.value }
        ensures holds { result.is_held ≡ true }
    {
        let Loose { at } = loose;
        PortPointer { at: at as *mut () }
    }

    /// The box, beside the pointer to nothing that is left.
    fn take(self) -> (PortPointer, Loose<PortWithJournal>)
        requires { self.is_held ≡ true }
        ensures last { result.0.value ≡ self.value }
        ensures shut { result.0.is_held ≡ false }
        ensures value { result.1.value ≡ self.value }
    {
        let PortPointer { at } = self;
        (
            PortPointer { at: null_mut() },
            Loose {
                at: at as *mut PortWithJournal,
            },
        )
    }
}

/// A port, as C holds it. All zero it is closed.
#[derive(Drop)]
#[repr(C)]
pub struct IolPort {
    pub held: PortPointer,
    pub is_open: bool,
    pub ghost same: { held.is_held ≡ is_open },
}

impl IolPort {
    pub(crate) fn of(master: Box<PortWithJournal>) -> IolPort
        ensures value { result.held.value ≡ master.value }
        ensures opened { result.is_open ≡ true }
    {
        IolPort {
            held: PortPointer::of_loose(Loose::of(master)),
            is_open: true,
        }
    }

    /// The box, beside the closed handle that is left.
    pub(crate) fn take(self, alloc: Global) -> (IolPort, Box<PortWithJournal>)
        requires { self.is_open ≡ true }
        ensures last { result.0.held.value ≡ self.held.value }
        ensures shut { result.0.is_open ≡ false }
        ensures value { result.1.value ≡ self.held.value }
    {
        let IolPort { held, is_open: _ } = self;
        let (held, loose) = held.take();
        let closed = IolPort {
            held,
            is_open: false,
        };
        (closed, loose.into_box(alloc))
    }

    /// The box of an open handle, which is closed behind this.
    pub(crate) fn take_box(&mut self, alloc: Global) -> Box<PortWithJournal>
        requires { self.old.is_open ≡ true }
        ensures shut { self.new.is_open ≡ false }
        ensures value { result.value ≡ self.old.held.value }
    {
        replace_with(self, alloc, |handle, alloc| handle.take(alloc))
    }

    /// What `f` makes of the port behind the handle, none where the handle is closed.
    pub(crate) fn with<R, F: FnOnce(&mut PortWithJournal) -> R>(
        &mut self,
        alloc: Global,
        f: F,
    ) -> Option<R>
        requires { F.IsAlwaysCallable f }
        ensures open { is_some result ≡ self.old.is_open }
        ensures stays { self.new.is_open ≡ self.old.is_open }
        ensures closed { IfNone result (self.new ≡ self.old) }
        ensures made { IfSome result (λ made. FnOnceReturnsAtMut F.FnOnce f
            self.old.held.value made self.new.held.value) }
    {
        if !self.is_open {
            return None;
        }
        let made = replace_with(
            self,
            (),
            move |handle, ()|
                requires open { handle.is_open ≡ true }
                requires callable { F.IsAlwaysCallable f }
                ensures stays { result.0.is_open ≡ true }
                ensures made { FnOnceReturnsAtMut F.FnOnce f
                    handle.held.value result.1 result.0.held.value }
            {
                let (_, mut master) = handle.take(alloc);
                let made = f(&mut master);
                (IolPort::of(master), made)
            },
        );
        Some(made)
    }
}
