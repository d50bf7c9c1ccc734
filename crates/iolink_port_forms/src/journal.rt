//! A journal that was handed out, and its entries, as C reads them.
ghost use Rattle.std.specs.Prelude.{◌≡◌, ◌≤◌, ◌+◌, length, IsSome, IsNone};
ghost use Rattle.iol_book.specs.Limits.{most_entries};
ghost use Rattle.iolink_port_forms.specs.Shown.{IsEntry, IsNext, HasNoRequest, HasNoOutcome};
ghost use Rattle.iolink_port_forms.specs.Journal.{entry_due, KeepsNone};

use crate::outcome::{IolOutcome, show_outcome};
use iol_book::{Entry, Journal, Ticket};
use iolink_handle::{IolRequest, show_request};
use std::alloc::Global;

/// The request was entered, among those that aren't urgent.
const SUBMITTED: u8 = 1;
/// The request was entered among the urgent ones.
const URGENT: u8 = 2;
/// The master began to send it.
const TAKEN: u8 = 8;
/// It has this outcome.
const ANSWERED: u8 = 9;
/// It was withdrawn while it waited.
const WITHDRAWN: u8 = 12;
/// Its outcome was handed out.
const COLLECTED: u8 = 16;
/// Its outcome is handed out to nobody.
const ABANDONED: u8 = 17;

/// An entry of a journal.
#[repr(C)]
pub struct IolEntry {
    pub ticket: u64,
    /// 1 submitted and 2 submitted as urgent, with the request; 8 taken; 9 answered,
    /// with the outcome; 12 withdrawn; 16 collected; 17 abandoned. 0 where the journal is at its
    /// end.
    pub kind: u8,
    pub request: IolRequest,
    pub outcome: IolOutcome,
}

/// The journal that was handed out last, of which C reads one entry after the other.
#[derive(Drop)]
pub struct RetainedJournal {
    pub entries: Journal,
    pub read: usize,
}

impl RetainedJournal {
    /// None yet.
    pub fn new(alloc: Global) -> RetainedJournal
        ensures { KeepsNone result }
    {
        RetainedJournal {
            entries: Journal::new(alloc),
            read: 0,
        }
    }

    /// Keeps a journal in place of the one that was kept before, and answers how many entries it
    /// has.
    pub fn keep(&mut self, entries: Journal) -> u32
        requires { length entries.items ≤ most_entries }
        ensures count { result ≡ length entries.items }
        ensures retained { self.new.entries ≡ entries }
        ensures read { self.new.read ≡ 0 }
    {
        let count = entries.len() as u32;
        self.entries = entries;
        self.read = 0;
        count
    }

    /// Shows C the next entry, the oldest first. At the end kind 0, and the memory is given back.
    pub fn show_next(&mut self, alloc: Global, out: &mut IolEntry)
        ensures shown { IsNext (entry_due self.old) out.new }
        ensures more { IsSome (entry_due self.old) →
            self.new ≡ record self.old { read = self.old.read + 1 } }
        ensures end { IsNone (entry_due self.old) → KeepsNone self.new }
    {
        match self.next(alloc) {
            Some(entry) => show_entry(&entry, out),
            None => show_end(out),
        }
    }

    // The next entry. At the end none, and the memory is given back.
    fn next(&mut self, alloc: Global) -> Option<Entry>
        ensures entry { result ≡ entry_due self.old }
        ensures more { IsSome result → self.new ≡ record self.old { read = self.old.read + 1 } }
        ensures end { IsNone result → KeepsNone self.new }
    {
        if self.read >= self.entries.len() {
            *self = RetainedJournal::new(alloc);
            return None;
        }
        let entry = self.entries.get(self.read);
        self.read += 1;
        entry
    }
}

fn show_end(out: &mut IolEntry)
    ensures kind { out.new.kind ≡ 0 }
    ensures request { HasNoRequest out.new }
    ensures outcome { HasNoOutcome out.new }
{
    out.kind = 0;
    out.ticket = 0;
    out.request.kind = 0;
    out.outcome.kind = 0;
}

fn show_entry(entry: &Entry, out: &mut IolEntry)
    ensures { IsEntry entry.now out.new }
{
    show_end(out);
    let (kind, Ticket(ticket)) = match entry {
        Entry::Submitted(ticket, request) => {
            show_request(request, &mut out.request);
            (SUBMITTED, *ticket)
        }
        Entry::Urgent(ticket, request) => {
            show_request(request, &mut out.request);
            (URGENT, *ticket)
        }
        Entry::Taken(ticket) => (TAKEN, *ticket),
        Entry::Answered(ticket, outcome) => {
            show_outcome(outcome, &mut out.outcome);
            (ANSWERED, *ticket)
        }
        Entry::Withdrawn(ticket) => (WITHDRAWN, *ticket),
        Entry::Collected(ticket) => (COLLECTED, *ticket),
        Entry::Abandoned(ticket) => (ABANDONED, *ticket),
    };
    out.kind = kind;
    out.ticket = ticket;
}
