//! Whether a journal is the one that is wanted.

use iol_book::{Entry, Journal};
use std::alloc::Allocator;

/// Whether it has these entries, and no others.
pub(crate) fn is_journal<A: Allocator + Copy>(journal: &Journal<A>, wanted: &[Entry]) -> bool {
    let mut is_same = journal.len() == wanted.len();
    for (place, entry) in wanted.iter().enumerate() {
        is_same &= journal.get(place).is_some_and(|own| own == *entry);
    }
    is_same
}
