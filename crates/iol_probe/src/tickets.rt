//! What the lines of a book and of a port have alike: limits, tickets, and what is said of them.

use crate::printing::{print_answer, print_ok, print_refused, print_request};
use crate::reading::Line;
use iol_book::{BusyLimit, Entry, Journal, JournalLimit, Limits, Outcome, QueueLimit, Ticket};
use iol_port::PortFault;
use std::alloc::AllocError;

/// The limits of a book: entries of the journal, busy replies, tickets given before, and then
/// how many may be outstanding, 64 where no word says it.
pub(crate) fn limits(line: &mut Line<'_>) -> Limits {
    Limits {
        journal: journal_limit(line),
        busy: busy_limit(line),
        given: line.number(u64::MAX),
        queue: queue_limit(line),
    }
}

fn journal_limit(line: &mut Line<'_>) -> JournalLimit {
    let entries = line.number(u64::from(u32::MAX)) as u32;
    known(
        line,
        JournalLimit::new(entries),
        JournalLimit::new(1_000).unwrap(),
    )
}

fn busy_limit(line: &mut Line<'_>) -> BusyLimit {
    let replies = line.number(u64::from(u16::MAX)) as u16;
    known(line, BusyLimit::new(replies), BusyLimit::new(100).unwrap())
}

fn queue_limit(line: &mut Line<'_>) -> QueueLimit {
    if line.is_at_end() {
        return QueueLimit::MOST;
    }
    let places = line.small();
    known(line, QueueLimit::new(places), QueueLimit::MOST)
}

/// The limit that a word says. Where it is none the line is bad, and this one stands in its place.
fn known<T: Copy>(line: &mut Line<'_>, parsed: Option<T>, other: T) -> T {
    if parsed.is_none() {
        line.refuse();
    }
    parsed.unwrap_or(other)
}

pub(crate) fn ticket(line: &mut Line<'_>) -> Ticket {
    Ticket(line.number(u64::MAX))
}

pub(crate) fn print_submitted(
    output: &mut String,
    submitted: Result<Ticket, PortFault>,
) -> Result<(), AllocError> {
    match submitted {
        Ok(Ticket(number)) => writeln!(output, "ticket {number}"),
        Err(fault) => print_refused(output, fault.code(), &fault),
    }
}

pub(crate) fn print_done(
    output: &mut String,
    done: Result<(), PortFault>,
) -> Result<(), AllocError> {
    match done {
        Ok(()) => print_ok(output),
        Err(fault) => print_refused(output, fault.code(), &fault),
    }
}

pub(crate) fn print_collected(
    output: &mut String,
    collected: Result<Outcome, PortFault>,
) -> Result<(), AllocError> {
    match collected {
        Ok(outcome) => {
            output.push_str("outcome")?;
            print_outcome(output, &outcome)?;
            output.push_str("\n")
        }
        Err(fault) => print_refused(output, fault.code(), &fault),
    }
}

/// How a request ended.
fn print_outcome(output: &mut String, outcome: &Outcome) -> Result<(), AllocError> {
    match outcome {
        Outcome::Done(answer) => {
            output.push_str(" done")?;
            print_answer(output, answer)
        }
        Outcome::Unknown(cause) => write!(output, " unknown {cause:?}"),
        Outcome::Withdrawn => output.push_str(" withdrawn"),
        Outcome::NoIsdu => output.push_str(" noisdu"),
    }
}

/// The entries that are handed out.
pub(crate) fn print_archived(
    output: &mut String,
    archived: Result<Journal, PortFault>,
) -> Result<(), AllocError> {
    match archived {
        Ok(entries) => {
            output.push_str("archived")?;
            print_entries(output, &entries)
        }
        Err(fault) => print_refused(output, fault.code(), &fault),
    }
}

/// How many entries there are, and each of them behind a semicolon.
pub(crate) fn print_entries(output: &mut String, journal: &Journal) -> Result<(), AllocError> {
    let count = journal.len();
    write!(output, " {count}")?;
    for entry in journal.iter() {
        output.push_str("; ")?;
        print_entry(output, &entry)?;
    }
    output.push_str("\n")
}

fn print_entry(output: &mut String, entry: &Entry) -> Result<(), AllocError> {
    match entry {
        Entry::Submitted(Ticket(number), request) => {
            write!(output, "submitted {number}")?;
            print_request(output, request)
        }
        Entry::Urgent(Ticket(number), request) => {
            write!(output, "urgent {number}")?;
            print_request(output, request)
        }
        Entry::Taken(Ticket(number)) => write!(output, "taken {number}"),
        Entry::Answered(Ticket(number), outcome) => {
            write!(output, "answered {number}")?;
            print_outcome(output, outcome)
        }
        Entry::Withdrawn(Ticket(number)) => write!(output, "withdrawn {number}"),
        Entry::Collected(Ticket(number)) => write!(output, "collected {number}"),
        Entry::Abandoned(Ticket(number)) => write!(output, "abandoned {number}"),
    }
}
