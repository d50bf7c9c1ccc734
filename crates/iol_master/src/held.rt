//! What lies under a port's lock: the port, and its share of the tickets.
ghost use Rattle.std.specs.Prelude.{◌≡◌, ◌<◌, ◌≤◌, ◌+◌, ℕ, None, Some, IfOk, OnErr, [], length};
ghost use Rattle.iol_book.specs.Drained.{LacksRoomFor};
ghost use Rattle.std.specs.Option.{option_copied};
ghost use Rattle.iol_book.specs.BookModel.{IsReplayed};
ghost use Rattle.iol_port.specs.View.{IsRun, OpensWell, KeepsRecordOver, over};
ghost use Rattle.iol_port.specs.Called.{Collects, Withdraws, Cancels, Abandons, Restarts, SetsOutput, ClearsOutput};
ghost use Rattle.iol_port.specs.Called.{Expects, SetsCycle, TakesEvent, Archives, Drains, DrainsInto, Turns, PublishesAfter};
ghost use Rattle.iol_port.specs.Called.{ShowsPage, ShowsCounters, ShowsLastLoss, ShowsImage, ShowsStatus, core_look, port_call};
ghost use Rattle.iol_port.specs.Claim.{TiedClaim};
ghost use Rattle.iol_port.specs.WireCalls.{ComesFrom};
ghost use Rattle.iol_port.specs.RightDevice.{IsForRightDevice};
ghost use Rattle.iol_port.specs.Clean.{IsLevelBetween};
ghost use Rattle.iol_master.specs.Entered.{Enters};
ghost use Rattle.iol_master.specs.Master.{CountsSubmit};
ghost use Rattle.iol_master.specs.Left.{LeavesNone};

mod stored_calls;

use crate::accounts::{Accounts, Desk};
use crate::fault::MasterFault;
use crate::ports::{DeskUrgency, MasterPort};
use crate::tickets::{Tickets, abandon_each, outstanding_of};
use iol_app::Status;
use iol_book::{BookFault, Journal, Outcome, Ticket};
use iol_cell::Handle;
use iol_event::Event;
use iol_image::Image;
use iol_isdu::Request;
use iol_link::Wire;
use iol_mode::Why;
use iol_page::{CycleTime, Identity, Page};
use iol_port::{Counters, Counting, Port, PortFault};
use std::alloc::Global;
use std::marker::{Model, PhantomData};
use std::sync::Wait;
use std::sync::ledger::{Ledger, Share};

/// How many octets part what one port counts from the next one's lock: two lines of a cache,
/// which are fetched in pairs.
const APART: usize = 128;

/// A port of a master, as it lies under its lock, with its share of the tickets that the master's
/// ports gave to desks.
///
/// Contracts see it as its port: each call is the port's call of that name, and so, for a [`Port`],
/// one call of the abstract port that it stands for (crate iol_port). No call here allocates, and
/// none takes a lock: who calls holds the port's.
#[derive(Drop)]
pub struct Held<W: Wire, K: Ledger, A: Handle = Global, P: MasterPort = Port<W, A>> {
    port: P,
    /// How many submits at desks were accepted here.
    tickets: u64,
    /// One part of the ledger of the tickets; its amount is that number.
    share: Share<K>,
    /// Nothing reads it. The ports of a master lie side by side, and each has a worker.
    apart: [u8; APART],
    wire: PhantomData<W>,
    memory: PhantomData<A>,
}

impl<W: Wire, K: Ledger, A: Handle, P: MasterPort> Model for Held<W, K, A, P> {
    ghost use Rattle.std.specs.Prelude.{◌≡◌};

    ghost Value = { P };

    ghost view = { λ h. h.port };

    ghost invariant = { λ h. (h.share.parts ≡ 1) × (h.share.amount ≡ h.tickets)
        × P.facts.holds h.port h.tickets };
}

impl<W: Wire, K: Ledger, A: Handle, P: MasterPort> Held<W, K, A, P> {
    /// A port at which no submit was accepted yet, with a part that has counted none.
    pub(crate) fn new(port: P, share: Share<K>) -> Held<W, K, A, P>
        requires share { (share.parts ≡ 1) × (share.amount ≡ 0) }
        requires fresh { P.facts.holds port 0 }
        ensures { result ≡ port }
    {
        Held {
            port,
            tickets: 0,
            share,
            apart: [0; APART],
            wire: PhantomData,
            memory: PhantomData,
        }
    }

    /// A submit at a desk, with the port's lock and the tally's held.
    ///
    /// This has the exact clause: which request is entered, which ticket is answered, who counts
    /// it, and which tickets the desk has then. Outside, a lock hides the port and the tally, and
    /// [`crate::Master::submit`] can say what the desk did alone, as can
    /// [`crate::Master::submit_urgent`].
    pub(crate) fn submit<L: Ledger>(
        &mut self,
        accounts: &mut Accounts<L, K>,
        desk: &mut Desk<L>,
        urgency: DeskUrgency,
        request: Request,
    ) -> Result<Ticket, MasterFault>
        ensures enters { Enters P.facts self.old accounts.old desk.old urgency request result
            self.new accounts.new desk.new }
        ensures counted { CountsSubmit P.facts.refuses desk.old result desk.new }
    {
        if accounts.is_spent() {
            return Err(MasterFault::Port(PortFault::Book(BookFault::TicketsSpent)));
        }
        let Held {
            port,
            tickets,
            share,
            apart: _,
            wire: _,
            memory: _,
        } = self;
        let mut left = outstanding_of(port, desk.tickets());
        if left.is_full() {
            return Err(MasterFault::Port(PortFault::Book(BookFault::Full)));
        }
        let ticket = port.enter(urgency, request)?;
        left.push(ticket);
        desk.keep(left);
        accounts.count(desk, share);
        *tickets += 1;
        Ok(ticket)
    }

    /// Abandons those of a desk's tickets that are outstanding. None of them is then, and each
    /// other ticket stands where it did.
    pub(crate) fn leave(&mut self, tickets: &Tickets)
        ensures { LeavesNone P.facts self.old tickets.now self.new }
    {
        abandon_each(&mut self.port, tickets.as_slice());
    }

    /// One turn of the port, which publishes its image, if it does.
    pub(crate) fn make_turn<R: Wait>(&mut self, rt: &R)
        ensures { P.facts.turns self.old self.new }
    {
        self.port.make_turn(rt);
    }

    /// The share, and how many submits were accepted. The port is dropped.
    pub(crate) fn close(self) -> (Share<K>, u64)
    where
        P: Drop,
        ensures parts { result.0.parts ≡ 1 }
        ensures amount { result.0.amount ≡ result.1 }
        ensures accepted { P.facts.holds self result.1 }
    {
        let Held {
            port: _,
            tickets,
            share,
            apart: _,
            wire: _,
            memory: _,
        } = self;
        (share, tickets)
    }
}

/// The calls of a port without Data Storage.
impl<W: Wire, K: Ledger, A: Handle> Held<W, K, A> {
    /// As [`PortCore::collect`](iol_port::PortCore::collect).
    pub fn collect(&mut self, ticket: Ticket) -> Result<Outcome, PortFault>
        ensures { Collects (port_call self.old self.new) ticket result }
    {
        self.port.collect(ticket)
    }

    /// As [`PortCore::withdraw`](iol_port::PortCore::withdraw).
    pub fn withdraw(&mut self, ticket: Ticket) -> Result<(), PortFault>
        ensures { Withdraws (port_call self.old self.new) ticket result }
    {
        self.port.withdraw(ticket)
    }

    /// As [`PortCore::cancel`](iol_port::PortCore::cancel).
    pub fn cancel(&mut self, ticket: Ticket) -> Result<(), PortFault>
        ensures { Cancels (port_call self.old self.new) ticket result }
    {
        self.port.cancel(ticket)
    }

    /// As [`PortCore::abandon`](iol_port::PortCore::abandon).
    pub fn abandon(&mut self, ticket: Ticket) -> Result<(), PortFault>
        ensures { Abandons (port_call self.old self.new) ticket result }
    {
        self.port.abandon(ticket)
    }

    /// As [`Port::restart_shown`].
    pub fn restart<R: Wait>(&mut self, rt: &R)
        ensures { PublishesAfter
            (λ new. Restarts (port_call self.old new)) self.old self.new }
    {
        self.port.restart_shown(rt);
    }

    /// As [`PortCore::set_output`](iol_port::PortCore::set_output).
    pub fn set_output(&mut self, image: &Image) -> Result<(), PortFault>
        ensures { SetsOutput (port_call self.old self.new) image.now result }
    {
        self.port.set_output(image)
    }

    /// As [`PortCore::clear_output`](iol_port::PortCore::clear_output).
    pub fn clear_output(&mut self)
        ensures { ClearsOutput (port_call self.old self.new) }
    {
        self.port.clear_output();
    }

    /// As [`PortCore::expect`](iol_port::PortCore::expect).
    pub fn expect(&mut self, identity: Identity) -> Counting
        ensures { Expects (port_call self.old self.new) (Some identity) result }
    {
        self.port.expect(identity)
    }

    /// As [`PortCore::expect_any`](iol_port::PortCore::expect_any).
    pub fn expect_any(&mut self) -> Counting
        ensures { Expects (port_call self.old self.new) None result }
    {
        self.port.expect_any()
    }

    /// As [`PortCore::set_cycle`](iol_port::PortCore::set_cycle).
    pub fn set_cycle(&mut self, cycle: Option<CycleTime>) -> Counting
        ensures { SetsCycle (port_call self.old self.new) cycle result }
    {
        self.port.set_cycle(cycle)
    }

    /// As [`PortCore::page`](iol_port::PortCore::page).
    pub fn page(&self) -> Option<Page>
        ensures { ShowsPage (core_look self.now.parts) result }
    {
        self.port.page()
    }

    /// As [`PortCore::counters`](iol_port::PortCore::counters).
    pub fn counters(&self) -> &Counters
        ensures { ShowsCounters (core_look self.now.parts) result.now }
    {
        self.port.counters()
    }

    /// As [`PortCore::last_loss`](iol_port::PortCore::last_loss).
    pub fn last_loss(&self) -> Option<Why>
        ensures { ShowsLastLoss (core_look self.now.parts) result }
    {
        self.port.last_loss()
    }

    /// As [`PortCore::image`](iol_port::PortCore::image), under the port's lock. A seat at the cell
    /// in which the port publishes (crate iol_cell) reads the image without it.
    pub fn image(&self) -> Option<&Image>
        ensures { ShowsImage (core_look self.now.parts) (option_copied result) }
    {
        self.port.image()
    }

    /// As [`PortCore::take_event`](iol_port::PortCore::take_event).
    pub fn take_event(&mut self) -> Result<Event, PortFault>
        ensures { TakesEvent (port_call self.old self.new) result }
    {
        self.port.take_event()
    }

    /// As [`PortCore::status`](iol_port::PortCore::status).
    pub fn status(&self) -> Status
        ensures { ShowsStatus (core_look self.now.parts) result }
    {
        self.port.status()
    }

    /// As [`PortCore::archive`](iol_port::PortCore::archive).
    pub fn archive(&mut self) -> Result<Journal<A>, PortFault>
        ensures is { Archives (port_call self.old self.new) (λ entries. entries.items) result }
        ensures within { IfOk result (λ entries. length entries.items ≤ 1000000) }
    {
        self.port.archive()
    }

    /// As [`PortCore::drain`](iol_port::PortCore::drain).
    pub fn drain(&mut self) -> Result<Journal<A>, PortFault>
        ensures is { Drains (port_call self.old self.new) (λ entries. entries.items) result }
        ensures within { IfOk result (λ entries. length entries.items ≤ 1000000) }
    {
        self.port.drain()
    }

    /// As [`PortCore::drain_into`](iol_port::PortCore::drain_into).
    pub fn drain_into(&mut self, list: &mut Journal<A>) -> Result<usize, PortFault>
        ensures is { DrainsInto (port_call self.old self.new) list.old.items list.new.items result }
        ensures full { OnErr result (LacksRoomFor self.old.parts.book.state list.old) }
    {
        self.port.drain_into(list)
    }

    /// As [`PortCore::restated`](iol_port::PortCore::restated).
    pub fn restated(&self) -> usize
        ensures value { result ≡ self.now.parts.book.state.restated }
        ensures within { result ≤ length self.now.parts.book.state.journal }
    {
        self.port.restated()
    }

    /// As [`Port::turn_shown`].
    pub fn turn<R: Wait>(&mut self, rt: &R)
        ensures { PublishesAfter (Turns W.facts self.old) self.old self.new }
    {
        self.port.turn_shown(rt);
    }

    /// A law of each port under its lock, without code: whenever the lock is got, the
    /// journal says where each ticket stands; the port is what a run of the one that
    /// was opened has made of it, and its wire what the one at the opening became by
    /// the calls of turns; and, if the wire was honest when the port was opened, and the
    /// device of a port for our own sees each pulse of a wake, the device's record fits
    /// the journal, and both ends are level between requests.
    pub fn keeps_record(&self)
        ensures replayed { IsReplayed self.now.parts.book.state }
        ensures run { IsRun W.facts self.now.opening (over self.now) }
        ensures claim { OpensWell self.now.opening
            → TiedClaim W.facts self.now.opening (over self.now) }
        ensures wire { ComesFrom W.facts
            self.now.opening.wire self.now.wire }
        ensures record_fits { OpensWell self.now.opening → KeepsRecordOver W.facts (over self.now) }
        ensures level { OpensWell self.now.opening
            → IsLevelBetween (W.facts.far self.now.wire) self.now.parts }
    {
        self.port.keeps_record();
    }

    /// A law of each port under its lock, without code: in OPERATE, where alone a request is taken
    /// and an output goes out, the page of the present session was read whole. It is that of the
    /// device that was expected when it was checked, if one was.
    pub fn serves_right_device(&self)
        ensures { IsForRightDevice self.now.parts }
    {
        self.port.serves_right_device();
    }
}
