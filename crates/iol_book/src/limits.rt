//! What a port is opened with: the limits of its journal, of busy replies and of tickets.
ghost use Rattle.std.specs.Prelude.{◌≡◌, ◌↔◌, IsSome, IfSome};
ghost use Rattle.iol_book.specs.Limits.{IsBusyLimit, IsJournalLimit, IsQueueLimit};

use std::marker::Model;

/// What a port is opened with.
#[derive(Clone, Copy, Debug, PartialEq, Eq)]
pub struct Limits {
    /// The most entries that the journal may have, or that none is kept.
    pub journal: JournalLimit,
    /// How many busy replies a request may have before it is cut off. The book makes no use of it.
    pub busy: BusyLimit,
    /// The number of the last ticket that was given before, so that the next one is
    /// its successor. Urgent requests and others are numbered together.
    pub given: u64,
    /// How many tickets may be outstanding at a time.
    pub queue: QueueLimit,
}

impl Default for Limits {
    /// A journal of 1,000 entries, 100 busy replies and 64 tickets, of which none was given.
    fn default() -> Limits
        ensures { result ≡ record { journal = 1000; busy = 100; queue = 64; given = 0 } }
    {
        Limits {
            journal: JournalLimit { entries: 1_000 },
            busy: BusyLimit { replies: 100 },
            given: 0,
            queue: QueueLimit::MOST,
        }
    }
}

/// The most entries that a journal may have: 4 to 1,000,000; or 0, so that none is kept.
///
/// Contracts see the number. An urgent request needs as many entries as another: 4 where it is
/// taken, 3 where it is withdrawn or denied. Without a journal no submit is refused by 22; neither
/// `archive` nor `drain` hands one out, and an entry is in memory only while its ticket needs it.
#[derive(Clone, Copy, Debug, PartialEq, Eq)]
pub struct JournalLimit {
    entries: u32,
}

impl Model for JournalLimit {
    ghost use Rattle.std.specs.Prelude.{ℕ};
    ghost use Rattle.iol_book.specs.Limits.{IsJournalLimit};

    ghost Value = { ℕ };

    ghost view = { λ j. j.entries };

    ghost invariant = { λ j. IsJournalLimit j.entries };

    ghost inverse = { λ n. record { entries = n } };
}

impl JournalLimit {
    /// No journal is kept.
    ///
    /// Rule BOOK-16.
    pub const NONE: JournalLimit = JournalLimit { entries: 0 };

    /// The limit of so many entries, or None where they are neither 0 nor 4 to 1,000,000.
    pub fn new(entries: u32) -> Option<JournalLimit>
        ensures some { IsSome result ↔ IsJournalLimit entries }
        ensures value { IfSome result (λ limit. limit ≡ entries) }
    {
        match entries {
            0 | 4..=1_000_000 => Some(JournalLimit { entries }),
            _ => None,
        }
    }

    /// The most entries that the journal may have: 4 to 1,000,000, or 0 where none is kept.
    pub fn entries(self) -> u32
        ensures value { result ≡ self }
        ensures range { IsJournalLimit result }
    {
        self.entries
    }
}

/// How many busy replies a request may have before it is cut off: 2 to 65,535.
///
/// Contracts see the number.
#[derive(Clone, Copy, Debug, PartialEq, Eq)]
pub struct BusyLimit {
    replies: u16,
}

impl Model for BusyLimit {
    ghost use Rattle.std.specs.Prelude.{ℕ};
    ghost use Rattle.iol_book.specs.Limits.{IsBusyLimit};

    ghost Value = { ℕ };

    ghost view = { λ b. b.replies };

    ghost invariant = { λ b. IsBusyLimit b.replies };

    ghost inverse = { λ n. record { replies = n } };
}

impl BusyLimit {
    /// The limit of so many busy replies, or None where they aren't 2 to 65,535.
    pub fn new(replies: u16) -> Option<BusyLimit>
        ensures some { IsSome result ↔ IsBusyLimit replies }
        ensures value { IfSome result (λ limit. limit ≡ replies) }
    {
        match replies {
            2..=65_535 => Some(BusyLimit { replies }),
            _ => None,
        }
    }

    /// How many busy replies a request may have: 2 to 65,535.
    pub fn replies(self) -> u16
        ensures value { result ≡ self }
        ensures range { IsBusyLimit result }
    {
        self.replies
    }
}

/// How many tickets may be outstanding at a time: 1 to 64, those of urgent requests and of
/// others together.
///
/// Contracts see the number. Each of a book's two queues has so many places from its opening on:
/// a port that is given one request at a time needs a single one.
#[derive(Clone, Copy, Debug, PartialEq, Eq)]
pub struct QueueLimit {
    places: u8,
}

impl Model for QueueLimit {
    ghost use Rattle.std.specs.Prelude.{ℕ};
    ghost use Rattle.iol_book.specs.Limits.{IsQueueLimit};

    ghost Value = { ℕ };

    ghost view = { λ q. q.places };

    ghost invariant = { λ q. IsQueueLimit q.places };

    ghost inverse = { λ n. record { places = n } };
}

impl QueueLimit {
    /// The most that there may be: 64.
    pub const MOST: QueueLimit = QueueLimit { places: 64 };

    /// The limit of so many tickets, or None where they aren't 1 to 64.
    pub fn new(places: u8) -> Option<QueueLimit>
        ensures some { IsSome result ↔ IsQueueLimit places }
        ensures value { IfSome result (λ limit. limit ≡ places) }
    {
        match places {
            1..=64 => Some(QueueLimit { places }),
            _ => None,
        }
    }

    /// How many tickets may be outstanding: 1 to 64.
    pub fn places(self) -> u8
        ensures value { result ≡ self }
        ensures range { IsQueueLimit result }
    {
        self.places
    }
}

impl Default for QueueLimit {
    /// 64 tickets.
    fn default() -> QueueLimit
        ensures { result ≡ 64 }
    {
        QueueLimit::MOST
    }
}
