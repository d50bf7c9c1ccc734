//! Which requests are refused, as numbers.
ghost use Rattle.std.specs.Prelude.{◌≤◌, ◌<◌, ◌↔◌, ℕ, IsTrue};

/// Which requests are refused, counted from 0 at the order.
#[derive(Clone, Copy, Debug, PartialEq, Eq)]
pub enum Refusal {
    /// None of them.
    Never,
    /// This one alone, as where memory is short for a moment.
    Only(u64),
    /// This one and each after it, as where memory is spent.
    From(u64),
}

/// The numbers of the requests that are refused: from `first` up to `end`, which is granted again.
#[derive(Clone, Copy)]
pub(crate) struct Numbers {
    pub(crate) first: u64,
    pub(crate) end: u64,
}

impl Numbers {
    ghost use Rattle.refusing_alloc.specs.Refused.{RefusesRequest};

    /// What the refusal says of each number below the largest.
    pub(crate) fn of(refusal: Refusal) -> Numbers
        ensures { (n : ℕ) → n < u64.MAX → RefusesRequest refusal n
            ↔ ((result.first ≤ n) × (n < result.end)) }
    {
        let (first, end) = match refusal {
            Refusal::Never => (0, 0),
            Refusal::Only(number) => (number, number.saturating_add(1)),
            Refusal::From(number) => (number, u64::MAX),
        };
        Numbers { first, end }
    }

    pub(crate) fn contains(self, number: u64) -> bool
        ensures { IsTrue result ↔ ((self.first ≤ number) × (number < self.end)) }
    {
        self.first <= number && number < self.end
    }

    /// Whether one of the numbers is below a count.
    pub(crate) fn has_one_below(self, count: u64) -> bool
        ensures { IsTrue result ↔ ((self.first < count) × (self.first < self.end)) }
    {
        self.first < count && self.first < self.end
    }
}
