//! A manager without its table.
use crate::state::{Activity, Locks, Restart};
use std::alloc::{Allocator, Global};

/// What a manager has beside its table. It is kept where no reference to a table can be.
#[derive(Drop)]
pub(crate) struct ManagerParts<A: Allocator + Copy = Global> {
    pub(crate) values: Vec<u8, A>,
    pub(crate) copy: Vec<u8, A>,
    pub(crate) activity: Activity,
    pub(crate) locks: Locks,
    pub(crate) flag: bool,
    pub(crate) event_due: bool,
    pub(crate) restart: Restart,
}

impl<A: Allocator + Copy> ManagerParts<A> {
    /// No parts, where those of a manager are taken for a while.
    pub(crate) fn none(alloc: A) -> ManagerParts<A> {
        ManagerParts {
            values: Vec::new(alloc),
            copy: Vec::new(alloc),
            activity: Activity::Idle,
            locks: Locks::none(),
            flag: false,
            event_due: false,
            restart: Restart::NotDue,
        }
    }
}
