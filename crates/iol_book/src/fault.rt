//! The refusals of a book, and their numbers.
ghost use Rattle.std.specs.Prelude.{◌≡◌};

use thiserror::Error;

// The numbers of the refusals: their one table, which the definitions cite.
const FULL: u8 = 21;

const JOURNAL_FULL: u8 = 22;

const TICKETS_SPENT: u8 = 23;

const OUT_OF_MEMORY: u8 = 24;

const UNKNOWN_TICKET: u8 = 25;

const NOT_YET: u8 = 26;

const TAKEN_ALREADY: u8 = 27;

const OUTSTANDING: u8 = 28;

const NOT_IN_FLIGHT: u8 = 36;

const NO_JOURNAL: u8 = 63;

/// Why a book refuses a call.
#[derive(Clone, Copy, Debug, PartialEq, Eq, Error)]
pub enum BookFault {
    /// 21: as many tickets are outstanding as may be ([`QueueLimit`](crate::QueueLimit)), those of
    /// urgent requests and of others together.
    #[error("Full")]
    Full,
    /// 22: the journal has no room for the entries of one more request, urgent or not. It has once
    /// it was archived, or drained.
    #[error("JournalFull")]
    JournalFull,
    /// 23: the last ticket was 2^64 - 1.
    #[error("TicketsSpent")]
    TicketsSpent,
    /// 24: a request for memory was refused.
    #[error("OutOfMemory")]
    OutOfMemory,
    /// 25: no such ticket is outstanding.
    #[error("UnknownTicket")]
    UnknownTicket,
    /// 26: the ticket has no outcome yet.
    #[error("NotYet")]
    NotYet,
    /// 27: the request no longer waits, neither among the urgent ones nor among the others.
    #[error("TakenAlready")]
    TakenAlready,
    /// 28: a ticket is outstanding, or the device may still carry out a request that was cut off.
    #[error("Outstanding")]
    Outstanding,
    /// 36: the request is not the one that is taken: it waits, or has an outcome.
    #[error("NotInFlight")]
    NotInFlight,
    /// 63: the book was opened without a journal, so it has none to hand out.
    #[error("NoJournal")]
    NoJournal,
}

impl BookFault {
    ghost use Rattle.iol_book.specs.Faults.{book_fault_number};

    /// Its number among the refusals.
    pub fn code(&self) -> u8
        ensures { result ≡ book_fault_number self.now }
    {
        match self {
            BookFault::Full => FULL,
            BookFault::JournalFull => JOURNAL_FULL,
            BookFault::TicketsSpent => TICKETS_SPENT,
            BookFault::OutOfMemory => OUT_OF_MEMORY,
            BookFault::UnknownTicket => UNKNOWN_TICKET,
            BookFault::NotYet => NOT_YET,
            BookFault::TakenAlready => TAKEN_ALREADY,
            BookFault::Outstanding => OUTSTANDING,
            BookFault::NotInFlight => NOT_IN_FLIGHT,
            BookFault::NoJournal => NO_JOURNAL,
        }
    }
}
