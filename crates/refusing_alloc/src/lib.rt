//! An allocator for tests: it refuses chosen requests for memory, and passes the
//! others on to another allocator.
//!
//! A collection takes a `&RefusingAlloc`, which is `Copy`, so several can share one. A test sets up
//! its values under [`Refusal::Never`], gives an order, makes the one call that it looks at,
//! and asks by [`RefusingAlloc::has_refused`] whether that call was refused memory. Counting the
//! order's number up from 0 until nothing is refused shows the call at each of its requests.
//!
//! ```text
//! refusing.order(Refusal::Never);
//! let mut book = Book::open(&refusing, &limits)?;
//! refusing.order(Refusal::Only(number));
//! let result = book.submit(request);
//! ```
//!
//! A growth in place is a request too: it is an allocation, a copy and a release. A
//! release is never refused. Where several threads ask at once, the numbers follow
//! the order in which their requests come.
#![tactic(auto)]

use std::alloc::{AllocError, Allocator, Global};
use std::sync::atomic::{AtomicU64, Ordering};

mod refusal;

use crate::refusal::Numbers;
pub use refusal::Refusal;

/// The requests since the order, and the numbers that the order refuses.
#[derive(Drop)]
struct Tally {
    made: AtomicU64,
    first: AtomicU64,
    end: AtomicU64,
}

/// An allocator that refuses what its last order says, and asks another, by default
/// `Global`, for the rest.
///
/// What a request gives is what the other allocator gives, so all that is proved of
/// a collection over that allocator holds over this one. Which requests are refused
/// is tested, not proved: no contract can say what an atomic number holds.
pub struct RefusingAlloc<B: Allocator = Global> {
    inner: B,
    tally: Tally,
}

impl Tally {
    fn new() -> Tally {
        Tally {
            made: AtomicU64::new(0),
            first: AtomicU64::new(0),
            end: AtomicU64::new(0),
        }
    }

    fn numbers(&self) -> Numbers {
        Numbers {
            first: self.first.load(Ordering::SeqCst),
            end: self.end.load(Ordering::SeqCst),
        }
    }

    /// Counts a request, and says whether it is refused.
    fn refuses(&self) -> bool {
        let number = self.made.fetch_add(1, Ordering::SeqCst);
        self.numbers().contains(number)
    }
}

impl<B: Allocator> RefusingAlloc<B> {
    /// Grants each request until an order is given.
    pub fn new(inner: B) -> RefusingAlloc<B> {
        RefusingAlloc {
            inner,
            tally: Tally::new(),
        }
    }

    /// Counts the requests anew, from 0, and refuses from now on as `refusal` says.
    ///
    /// No other thread should ask for memory in the meantime.
    pub fn order(&self, refusal: Refusal) {
        let numbers = Numbers::of(refusal);
        self.tally.first.store(numbers.first, Ordering::SeqCst);
        self.tally.end.store(numbers.end, Ordering::SeqCst);
        self.tally.made.store(0, Ordering::SeqCst);
    }

    /// How many requests came since the last order, the refused ones with them.
    pub fn requests(&self) -> u64 {
        self.tally.made.load(Ordering::SeqCst)
    }

    /// Whether a request was refused since the last order.
    pub fn has_refused(&self) -> bool {
        self.tally.numbers().has_one_below(self.requests())
    }
}

impl<B: Allocator> Drop for RefusingAlloc<B> {
    fn drop(self) {
        let Self { inner: _, tally: _ } = self;
    }
}

unsafe impl<B: Allocator> Allocator for RefusingAlloc<B> {
    ghost dealloc_token = { λ heap ty ptr. B.dealloc_token heap.inner ty ptr };

    fn allocate(&self, size: usize, align: usize) -> Result<*mut u8, AllocError> {
        if self.tally.refuses() {
            return Err(AllocError);
        }
        self.inner.allocate(size, align)
    }

    unsafe fn deallocate(&self, ptr: *mut u8, size: usize, align: usize) {
        self.inner.deallocate(ptr, size, align);
    }
}
