//! How much came of what.
use iol_book::Outcome;
use std::fmt;

/// What came of all requests.
#[derive(Clone, Copy, Default)]
pub(crate) struct Counts {
    done: u64,
    unknown: u64,
    withdrawn: u64,
    /// Requests that the device carried out, and those of which the client had been told before
    /// that nobody knows.
    pub(crate) carried: u64,
    late: u64,
    /// Tickets whose end a drained journal says; without a journal, those whose outcome was told.
    ended: u64,
    drains: u64,
    /// Entries that were drained, without restated ones.
    entries: u64,
    /// The most that were restated at a time.
    most_restated: usize,
}

impl Counts {
    pub(crate) fn reported(&mut self, outcome: &Outcome) {
        let count = match outcome {
            Outcome::Done(_) => &mut self.done,
            Outcome::Unknown(_) => &mut self.unknown,
            Outcome::Withdrawn | Outcome::NoIsdu => &mut self.withdrawn,
        };
        *count = count.saturating_add(1);
    }

    pub(crate) fn carried(&mut self, reported: Reported) {
        self.carried = self.carried.saturating_add(1);
        if reported == Reported::Before {
            self.late = self.late.saturating_add(1);
        }
    }

    pub(crate) fn ended(&mut self, tickets: u64) {
        self.ended = self.ended.saturating_add(tickets);
    }

    pub(crate) fn drained(&mut self, entries: usize, restated: usize, left: usize) {
        self.drains = self.drains.saturating_add(1);
        let new = entries.saturating_sub(restated) as u64;
        self.entries = self.entries.saturating_add(new);
        self.most_restated = self.most_restated.max(left);
    }
}

/// Whether a client was told the outcome of a request already.
#[derive(Clone, Copy, Debug, PartialEq, Eq)]
pub(crate) enum Reported {
    Before,
    NotYet,
}

impl fmt::Display for Counts {
    fn fmt<W: fmt::Write>(&self, f: &mut fmt::Formatter<W>) -> fmt::Result {
        write!(f, "{} ended: {} done, ", self.ended, self.done)?;
        write!(
            f,
            "{} unknown, {} withdrawn; ",
            self.unknown, self.withdrawn
        )?;
        write!(f, "{} carried out, {} late; ", self.carried, self.late)?;
        write!(f, "{} drains, {} entries, ", self.drains, self.entries)?;
        write!(f, "at most {} restated", self.most_restated)
    }
}
