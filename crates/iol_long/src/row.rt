//! A row of the plain list: all that is known of one request.
use crate::fault::LongFault;
use iol_book::Outcome;
use iol_isdu::{Answer, Cause, Octets, Place, Request};
use std::alloc::AllocError;

/// The parameter of the first request that reads. The indices below it are the device's own.
const FIRST_INDEX: u16 = 16;

/// How many indices there are for requests.
const INDICES: u64 = 60_000;

/// How many octets a ticket takes, at the beginning of what is written.
const TICKET_SIZE: usize = 8;

/// Before which others a request waits.
#[derive(Clone, Copy, Debug, PartialEq, Eq)]
pub(crate) enum Urgency {
    Urgent,
    Other,
}

/// Where the drained journals say that a ticket stands.
#[derive(Clone, Copy, Debug, PartialEq, Eq)]
pub(crate) enum Stand {
    Unrecorded,
    Waiting,
    Taken,
    Ended,
    Collected,
}

/// Whether the device may still carry a request out.
#[derive(Clone, Copy, Debug, PartialEq, Eq)]
pub(crate) enum Chances {
    Left,
    Over,
}

/// All that is known of one request.
#[derive(Drop)]
pub(crate) struct Row {
    pub(crate) request: Request,
    pub(crate) urgency: Urgency,
    pub(crate) stand: Stand,
    pub(crate) chances: Chances,
    /// What the device answered, and how many it had carried out then.
    pub(crate) carried: Option<(u64, Answer)>,
    /// How it ended by the drained journals.
    pub(crate) ended: Option<Outcome>,
    /// What its client was told.
    pub(crate) reported: Option<Outcome>,
}

impl Row {
    pub(crate) fn new(request: Request, urgency: Urgency) -> Row {
        Row {
            request,
            urgency,
            stand: Stand::Unrecorded,
            chances: Chances::Left,
            carried: None,
            ended: None,
            reported: None,
        }
    }

    /// Whether it is among those that wait so, by the drained journals.
    pub(crate) fn waits(&self, urgency: Urgency) -> bool {
        self.stand == Stand::Waiting && self.urgency == urgency
    }

    /// Whether nothing more can come of it.
    pub(crate) fn is_done(&self) -> bool {
        self.stand == Stand::Collected && self.chances == Chances::Over
    }

    /// Whether this outcome can be that of what the device did until now.
    pub(crate) fn can_end(&self, outcome: &Outcome) -> bool {
        match outcome {
            Outcome::Done(answer) => match &self.carried {
                Some((_, own)) => own == answer,
                None => false,
            },
            Outcome::Unknown(_) => true,
            Outcome::Withdrawn | Outcome::NoIsdu => self.carried.is_none(),
        }
    }
}

/// Whether the device may still carry out a request with this outcome.
pub(crate) fn chances_after(outcome: &Outcome) -> Chances {
    match outcome {
        Outcome::Unknown(Cause::LinkLost | Cause::Restarted) => Chances::Left,
        _ => Chances::Over,
    }
}

/// The request of a ticket: no other has it within 16 million. Of each two one writes, the ticket
/// and so many octets more.
pub(crate) fn request_of(ticket: u64, more: u64) -> Result<Request, LongFault> {
    if ticket % 2 == 0 {
        return Ok(Request::read(place_of(ticket)));
    }
    let mut octets = Octets::new();
    add(&mut octets, &ticket.to_be_bytes());
    for number in 0..more {
        add(&mut octets, &[(number % 256) as u8]);
    }
    Ok(Request::write(place_of(ticket), octets.as_slice())?)
}

/// Adds octets, if there is room for them.
fn add(octets: &mut Octets, more: &[u8]) {
    let _ = octets.try_extend_from_slice(more);
}

/// The index and subindex of a ticket.
fn place_of(ticket: u64) -> Place {
    let number = (ticket / 256 % INDICES) as u16;
    Place {
        index: number.saturating_add(FIRST_INDEX),
        sub: (ticket % 256) as u8,
    }
}

/// The ticket of a request, by its octets, or by its place where a read has it.
pub(crate) fn ticket_of(request: &Request) -> u64 {
    match request {
        Request::Read(place) => {
            let number = u64::from(place.index.saturating_sub(FIRST_INDEX));
            with_octet(number, place.sub)
        }
        Request::Write(_, octets) => {
            let own = octets.iter().take(TICKET_SIZE);
            own.fold(0, |ticket, octet| with_octet(ticket, *octet))
        }
    }
}

/// A number with one more octet behind it.
fn with_octet(number: u64, octet: u8) -> u64 {
    number.wrapping_mul(256).wrapping_add(u64::from(octet))
}

/// What the device answers to the request of this ticket, the how manieth it carries out: a read
/// of both numbers, else that it is written, or for each third one that it is refused.
pub(crate) fn answer_to(request: &Request, order: u64, ticket: u64) -> Answer {
    match request {
        Request::Read(_) => {
            let mut octets = Octets::new();
            add(&mut octets, &order.to_be_bytes());
            add(&mut octets, &ticket.to_be_bytes());
            Answer::Read(octets)
        }
        Request::Write(..) if ticket % 3 == 0 => Answer::Refused(0x81, (order % 256) as u8),
        Request::Write(..) => Answer::Written,
    }
}
