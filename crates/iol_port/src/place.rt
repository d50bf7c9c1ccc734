//! Where a line stands, as clauses alone know it: the device at its far end is in no memory.
ghost use Rattle.std.specs.Prelude.{◌≡◌};
ghost use Rattle.iol_port.specs.Standing.{LinePosition};
ghost use base.Fml.{ftrue};

use std::marker::{Model, PhantomData, Send, Sync};

/// Where a line stands. It has no octets: clauses alone know it.
pub(crate) struct GhostPlace {
    marker: PhantomData<u8>,
    pub ghost at: { LinePosition },
}

impl Model for GhostPlace {
    ghost also_owns = { λ _. ftrue };
}

impl GhostPlace {
    /// The place that the caller names; its name may speak of `near`.
    pub(crate) fn of<T>(near: &T) -> GhostPlace
        ghost at: { LinePosition }
        ensures { result.at ≡ at }
    {
        let _ = near;
        GhostPlace {
            marker: PhantomData,
        }
    }
}

impl Drop for GhostPlace {
    fn drop(self) {
        let Self { marker: _ } = self;
    }
}

// It owns nothing, so it may go to any thread, and any thread may share it.
unsafe impl Send for GhostPlace {}

unsafe impl Sync for GhostPlace {}
