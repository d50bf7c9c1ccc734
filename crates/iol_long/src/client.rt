//! A client that never stops.
use crate::chance::Chance;
use crate::fault::{LongFault, Wrong};
use crate::plain::PlainList;
use crate::row::{Urgency, request_of};
use iol_book::{BookFault, Outcome, Ticket};
use iol_isdu::Request;
use iol_port::{PortCore, PortFault};
use std::alloc::Global;
use std::collections::VecDeque;

/// How many tickets of a client are outstanding at most.
pub(crate) const MOST_TICKETS: usize = 8;

/// Of so many requests one is urgent.
const URGENT: u64 = 6;

/// Before one of so many turns a client withdraws a request, or cancels one.
const WITHDRAWALS: u64 = 60;

const CANCELS: u64 = 400;

/// The most octets of a write beside its ticket.
const MORE_OCTETS: u64 = 24;

/// Whether a journal has room for one more request.
#[derive(Clone, Copy, Debug, PartialEq, Eq)]
pub(crate) enum Room {
    Left,
    Full,
}

/// A client: the tickets that it has outstanding.
#[derive(Drop)]
pub(crate) struct Client {
    tickets: VecDeque<u64>,
}

impl Client {
    pub(crate) fn new(alloc: Global) -> Result<Client, LongFault> {
        Ok(Client {
            tickets: VecDeque::with_capacity(alloc, MOST_TICKETS)?,
        })
    }

    pub(crate) fn is_waiting(&self) -> bool {
        !self.tickets.is_empty()
    }

    /// What a client does between two turns beside collecting: it submits, and takes back.
    pub(crate) fn ask(
        &mut self,
        port: &mut PortCore,
        list: &mut PlainList,
        chance: &mut Chance,
    ) -> Result<Room, LongFault> {
        if chance.once_in(WITHDRAWALS) {
            self.withdraw(port, list)?;
        }
        if chance.once_in(CANCELS) {
            self.cancel(port)?;
        }
        if self.tickets.len() >= MOST_TICKETS || chance.once_in(2) {
            return Ok(Room::Left);
        }
        self.submit(port, list, chance)
    }

    fn submit(
        &mut self,
        port: &mut PortCore,
        list: &mut PlainList,
        chance: &mut Chance,
    ) -> Result<Room, LongFault> {
        let ticket = list.next_ticket();
        let request = request_of(ticket, chance.below(MORE_OCTETS))?;
        let urgency = if chance.once_in(URGENT) {
            Urgency::Urgent
        } else {
            Urgency::Other
        };
        match submit_so(port, request.clone()?, urgency) {
            Ok(issued) if issued.0 == ticket => {}
            Ok(issued) => return Err(Wrong::Number.of(issued.0)),
            Err(PortFault::Book(BookFault::JournalFull)) => return Ok(Room::Full),
            Err(fault) => return Err(fault.into()),
        }
        list.submitted(request, urgency)?;
        self.tickets.push_back(ticket)?;
        Ok(Room::Left)
    }

    /// Takes back the request that was submitted last, where it still waits.
    fn withdraw(&mut self, port: &mut PortCore, list: &mut PlainList) -> Result<(), LongFault> {
        let Some(ticket) = self.tickets.back().copied() else {
            return Ok(());
        };
        match port.withdraw(Ticket(ticket)) {
            Ok(()) => list.withdrawn(ticket),
            Err(PortFault::Book(BookFault::TakenAlready)) => Ok(()),
            Err(fault) => Err(fault.into()),
        }
    }

    /// Cancels the request that was submitted first, where it is under way.
    fn cancel(&mut self, port: &mut PortCore) -> Result<(), LongFault> {
        let Some(ticket) = self.tickets.front().copied() else {
            return Ok(());
        };
        match port.cancel(Ticket(ticket)) {
            Ok(()) | Err(PortFault::Book(BookFault::NotInFlight)) => Ok(()),
            Err(fault) => Err(fault.into()),
        }
    }

    /// Collects each outcome that is there.
    pub(crate) fn collect(
        &mut self,
        port: &mut PortCore,
        list: &mut PlainList,
        outcome: &mut Outcome,
    ) -> Result<(), LongFault> {
        for _ in 0..self.tickets.len() {
            let Some(ticket) = self.tickets.pop_front() else {
                return Ok(());
            };
            match port.collect_into(Ticket(ticket), outcome) {
                Ok(()) => list.reported(ticket, outcome)?,
                Err(PortFault::Book(BookFault::NotYet)) => self.tickets.push_back(ticket)?,
                Err(fault) => return Err(fault.into()),
            }
        }
        Ok(())
    }
}

fn submit_so(port: &mut PortCore, request: Request, urgency: Urgency) -> Result<Ticket, PortFault> {
    match urgency {
        Urgency::Urgent => port.submit_urgent(request),
        Urgency::Other => port.submit(request),
    }
}
