//! A client of one port: its desk, and the tickets that it was given.
ghost use Rattle.std.specs.Prelude.{◌≡◌, ◌+◌, ◌*◌, ◌<◌, ◌≤◌, IfErr, IfOk, OnOk, vec_len};

use crate::counts::RequestCounts;
use crate::fault::ClientsFault;
use crate::ports::PLACE;
use iol_book::{BookFault, Ticket};
use iol_isdu::Request;
use iol_link::Wire;
use iol_master::{Desk, Held, Master, MasterFault, Settled};
use iol_port::PortFault;
use std::alloc::{AllocError, Global};
use std::sync::Wait;
use std::sync::ledger::Ledger;

/// A client: its desk, and the tickets that it was given there, as many as a port has outstanding
/// at most.
#[derive(Drop)]
pub(crate) struct Client<L: Ledger> {
    desk: Desk<L>,
    tickets: Vec<Ticket, Global>,
    ghost each_has_a_ticket: { desk.accepted ≡ vec_len tickets },
    ghost few: { vec_len tickets ≤ 64 },
}

impl<L: Ledger> Client<L> {
    ghost use Rattle.iol_master.specs.Master.{IsPortNumber, WasSettled};
    ghost use Rattle.iol_master.specs.Ports.{port_facts};
    ghost use Rattle.iol_clients.specs.declared.fault.ClientsFault.TheVariants.{DesksFull};
    ghost use Rattle.iol_clients.specs.Counts.{AddsUp, accepted_at, client_state, NotesClientTickets};
    ghost use Rattle.iol_clients.specs.Submitted.{new_client, SubmitsRead, HasSubmitted};

    /// A client at a new desk of a port. Refused by 33 where 1,024 desks are open at the master.
    pub(crate) fn open<W: Wire, K: Ledger, R: Wait>(
        rt: &R,
        alloc: Global,
        master: &Master<W, L, K>,
        port: u32,
    ) -> Result<Client<L>, ClientsFault>
        requires { IsPortNumber master.now port }
        ensures opened { IfOk result (λ client. client_state client.desk client.tickets.items
            ≡ new_client port) }
        ensures refused { IfErr result (λ why. why ≡ DesksFull) }
    {
        match master.desk(rt, port) {
            Ok(desk) => Ok(Client {
                desk,
                tickets: Vec::new(alloc),
            }),
            Err(MasterFault::DesksFull) => Err(ClientsFault::DesksFull),
            Err(_) => unreachable!(),
        }
    }

    /// Submits so many reads. Refused where a request for memory is.
    pub(crate) fn submit<W: Wire, K: Ledger, R: Wait>(
        self,
        rt: &R,
        master: &Master<W, L, K>,
        each: u32,
    ) -> Result<Client<L>, AllocError>
        requires port { IsPortNumber master.now self.desk.port }
        requires new { client_state self.desk self.tickets.items ≡ new_client self.desk.port }
        requires few { each ≤ 64 }
        ensures port { IfOk result (λ client. client.desk.port ≡ self.desk.port) }
        ensures submitted { IfOk result (λ client. HasSubmitted (port_facts W.facts) each
            (client_state client.desk client.tickets.items)) }
    {
        let mut client = self;
        for _ in 0..each {
            client.submit_one(rt, master)?;
        }
        Ok(client)
    }

    /// Submits a read, and keeps its ticket. Where it is refused, there is none. Refused for want
    /// of memory alone.
    fn submit_one<W: Wire, K: Ledger, R: Wait>(
        &mut self,
        rt: &R,
        master: &Master<W, L, K>,
    ) -> Result<(), AllocError>
        requires port { IsPortNumber master.now self.old.desk.port }
        requires room { vec_len self.old.tickets < 64 }
        ensures port { self.new.desk.port ≡ self.old.desk.port }
        ensures more { vec_len self.new.tickets ≤ vec_len self.old.tickets + 1 }
        ensures submitted { OnOk result (SubmitsRead (port_facts W.facts)
            (client_state self.old.desk self.old.tickets.items)
            (client_state self.new.desk self.new.tickets.items)) }
    {
        self.tickets.reserve(1)?;
        match master.submit(rt, &mut self.desk, Request::read(PLACE)) {
            Ok(ticket) => self.tickets.push_reserved(ticket),
            Err(why) => pass_over(why)?,
        }
        Ok(())
    }

    /// Collects each ticket of a client of this port, and counts what is answered.
    pub(crate) fn collect<W: Wire, K: Ledger>(
        &self,
        port: u32,
        held: &mut Held<W, K>,
        counted: &mut RequestCounts,
    )
        requires up { AddsUp counted.old }
        requires room { counted.old.tickets ≤ 64 * 512 }
        ensures up { AddsUp counted.new }
        ensures tickets { counted.new.tickets
            ≡ counted.old.tickets + accepted_at port self.now.desk }
        ensures few { accepted_at port self.now.desk ≤ 64 }
        ensures collected { NotesClientTickets port (held.old, counted.old)
            (client_state self.now.desk self.now.tickets.items) (held.new, counted.new) }
    {
        if self.desk.port() != port {
            return;
        }
        for ticket in &self.tickets {
            counted.note(&held.collect(*ticket));
        }
    }

    /// Settles the desk.
    pub(crate) fn settle<W: Wire, K: Ledger, R: Wait>(
        self,
        rt: &R,
        master: &Master<W, L, K>,
    ) -> Settled
        ensures { WasSettled self.desk result }
    {
        let Client { desk, tickets: _ } = self;
        master.settle(rt, desk)
    }
}

ghost use Rattle.std.specs.Prelude.{◌≢◌, MatchResult};
ghost use Rattle.iol_book.specs.declared.fault.BookFault.TheVariants.{OutOfMemory as NoMemory};
ghost use Rattle.iol_port.specs.declared.fault.PortFault.TheVariants.{Book};
ghost use Rattle.iol_master.specs.declared.fault.MasterFault.TheVariants.{Port};

/// Passes over why a submit is refused, but for want of memory.
fn pass_over(why: MasterFault) -> Result<(), AllocError>
    ensures { MatchResult result (λ _. why ≢ Port (Book NoMemory))
        (λ _. why ≡ Port (Book NoMemory)) }
{
    match why {
        MasterFault::Port(PortFault::Book(BookFault::OutOfMemory)) => Err(AllocError),
        _ => Ok(()),
    }
}
