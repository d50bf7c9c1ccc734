//! The calls of clients that have an entry in the journal.
use iol_book::Entry;

/// A client's call, with its ticket.
#[derive(Clone, Copy, Debug, PartialEq, Eq)]
pub(crate) enum Did {
    Submitted(u64),
    Urgent(u64),
    Withdrawn(u64),
    Collected(u64),
}

impl Did {
    pub(crate) fn ticket(self) -> u64 {
        match self {
            Did::Submitted(ticket)
            | Did::Urgent(ticket)
            | Did::Withdrawn(ticket)
            | Did::Collected(ticket) => ticket,
        }
    }
}

/// The call that an entry is of, if a client made it. No client here abandons a ticket.
pub(crate) fn did_of(entry: &Entry) -> Option<Did> {
    match entry {
        Entry::Submitted(ticket, _) => Some(Did::Submitted(ticket.0)),
        Entry::Urgent(ticket, _) => Some(Did::Urgent(ticket.0)),
        Entry::Withdrawn(ticket) => Some(Did::Withdrawn(ticket.0)),
        Entry::Collected(ticket) => Some(Did::Collected(ticket.0)),
        Entry::Taken(_) | Entry::Answered(..) | Entry::Abandoned(_) => None,
    }
}

/// The ticket that an entry is of.
pub(crate) fn ticket_in(entry: &Entry) -> u64 {
    match entry {
        Entry::Submitted(ticket, _) | Entry::Urgent(ticket, _) | Entry::Answered(ticket, _) => {
            ticket.0
        }
        Entry::Taken(ticket)
        | Entry::Withdrawn(ticket)
        | Entry::Collected(ticket)
        | Entry::Abandoned(ticket) => ticket.0,
    }
}
