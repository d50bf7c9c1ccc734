//! Entries, requests and outcomes as they are printed.
use iol_book::{Entry, Outcome};
use iol_isdu::{Answer, Request};
use std::fmt;

/// An entry of the journal.
#[derive(Drop)]
pub struct EntryText<'a>(pub &'a Entry);

/// A request.
#[derive(Drop)]
pub struct RequestText<'a>(pub &'a Request);

/// An outcome.
#[derive(Drop)]
pub struct OutcomeText<'a>(pub &'a Outcome);

/// Octets, each behind a space.
#[derive(Drop)]
struct OctetsText<'a>(&'a [u8]);

impl fmt::Display for EntryText<'_> {
    fn fmt<W: fmt::Write>(&self, f: &mut fmt::Formatter<W>) -> fmt::Result {
        match self.0 {
            Entry::Submitted(ticket, request) => {
                write!(f, "submitted {} {}", ticket.0, RequestText(request))
            }
            Entry::Urgent(ticket, request) => {
                write!(f, "urgent {} {}", ticket.0, RequestText(request))
            }
            Entry::Taken(ticket) => write!(f, "taken {}", ticket.0),
            Entry::Answered(ticket, outcome) => {
                write!(f, "answered {} {}", ticket.0, OutcomeText(outcome))
            }
            Entry::Withdrawn(ticket) => write!(f, "withdrawn {}", ticket.0),
            Entry::Collected(ticket) => write!(f, "collected {}", ticket.0),
            Entry::Abandoned(ticket) => write!(f, "abandoned {}", ticket.0),
        }
    }
}

impl fmt::Display for RequestText<'_> {
    fn fmt<W: fmt::Write>(&self, f: &mut fmt::Formatter<W>) -> fmt::Result {
        match self.0 {
            Request::Read(place) => write!(f, "read {} {}", place.index, place.sub),
            Request::Write(place, octets) => {
                let octets = OctetsText(octets.as_slice());
                write!(f, "write {} {}{octets}", place.index, place.sub)
            }
        }
    }
}

impl fmt::Display for OutcomeText<'_> {
    fn fmt<W: fmt::Write>(&self, f: &mut fmt::Formatter<W>) -> fmt::Result {
        match self.0 {
            Outcome::Done(Answer::Read(octets)) => {
                write!(f, "read{}", OctetsText(octets.as_slice()))
            }
            Outcome::Done(Answer::Written) => write!(f, "written"),
            Outcome::Done(Answer::Refused(error, additional)) => {
                write!(f, "refused {error:02X} {additional:02X}")
            }
            Outcome::Unknown(cause) => write!(f, "unknown {cause:?}"),
            Outcome::Withdrawn => write!(f, "withdrawn"),
            Outcome::NoIsdu => write!(f, "no ISDU"),
        }
    }
}

impl fmt::Display for OctetsText<'_> {
    fn fmt<W: fmt::Write>(&self, f: &mut fmt::Formatter<W>) -> fmt::Result {
        for octet in self.0 {
            write!(f, " {octet:02X}")?;
        }
        Ok(())
    }
}
