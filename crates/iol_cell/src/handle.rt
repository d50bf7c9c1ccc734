//! The allocators whose handles may cross threads.
ghost use Rattle.std.proofs.Common.{rules};
ghost use Rattle.iol_cell.specs.Handle.{IsSmall};

use std::alloc::{Allocator, Global};

/// An allocator that is handed on by value: `Global`, or a `&` to any allocator.
///
/// A cell keeps it beside its words, so its value is empty or as large as one address.
pub trait Handle: Allocator + Copy {
    ghost is_small: { IsSmall Self.row };
}

impl Handle for Global {
    ghost is_small = { Prim.search rules };
}

impl<B: Allocator> Handle for &B {
    ghost is_small = { Prim.search rules };
}
