//! A port without the wire: it gives the octets to send, and takes what came.
ghost use Rattle.std.specs.Prelude.{◌≡◌, ◌<◌, ◌≤◌, ◌+◌, None, true, false, IfOk, IfErr, IfSome, OnErr, IsTrue, length, is_some};
ghost use Rattle.iol_book.specs.Drained.{LacksRoomFor};
ghost use Rattle.std.specs.Option.{option_copied};
ghost use Rattle.iol_book.specs.BookModel.{in_place};
ghost use Rattle.iol_isdu.specs.Texts.{IsRequest};
ghost use Rattle.iol_far.specs.Octets.{octets_in};
ghost use Rattle.iol_app.specs.CallSteps.{LinkStands};
ghost use Rattle.iol_book.specs.declared.fault.BookFault.TheVariants.{OutOfMemory};
ghost use Rattle.iol_book.specs.BookModel.{IsReplayed, is_outstanding};
ghost use Rattle.iol_app.specs.Asking.{IsCall};
ghost use Rattle.iol_app.specs.Pieces.{IsAskedOut};
ghost use Rattle.iol_port.specs.declared.fault.PortFault.TheVariants as fault;
ghost use Rattle.iol_port.specs.declared.call.Call.TheVariants as call;
ghost use Rattle.iol_port.specs.declared.call.Answered.TheVariants as answered;
ghost use Rattle.iol_port.specs.declared.awaited.AwaitedAnswer.{AwaitedAnswer};
ghost use Rattle.iol_port.specs.View.{Does, IsNew, IsNewFor, on_wire};
ghost use Rattle.iol_port.specs.Asks.{asks_of, begun_next, event_room};
ghost use Rattle.iol_port.specs.EveryWire.{PortTurnGives};
ghost use Rattle.iol_port.specs.EveryWire.{page_shown, takes_next};
ghost use Rattle.iol_port.specs.RightDevice.{IsForRightDevice};
ghost use Rattle.iol_port.specs.Run.{counting_of};
ghost use Rattle.iol_port.specs.Clean.{CleanTurn};
ghost use Rattle.iol_port.specs.CorePort.{CoreOpens, CoreOpensFor, CoreKeeps, awaited_answer, PortSendGives, SendDoes, PortReceiveGives, ReceiveDoes, WakeGives, WakeDoes};
ghost use Rattle.iol_port.specs.Called.{Submits, SubmitsUrgent, Collects, Withdraws, Cancels, Abandons, Serves, Restarts, SetsOutput};
ghost use Rattle.iol_port.specs.Called.{ClearsOutput, Expects, SetsCycle, TakesEvent, Archives, Drains, DrainsInto, core_call, core_look};
ghost use Rattle.iol_port.specs.Called.{ShowsPage, ShowsCounters, ShowsLastLoss, ShowsImage, ShowsStatus};

use crate::PortFault;
use crate::awaited::AwaitedAnswer;
use crate::call::Counting;
use crate::counters::Counters;
use crate::laws::clean_laws;
use crate::loss::loss_after;
use crate::settle::{
    MOST_QUEUED, ROOM, begin_next, by_book, by_output, lacks_isdu, resets, settle,
};
use arrayvec::ArrayVec;
use iol_app::{Core, EventRoom, Mode, Said, Status, Transmission, WireResult};
use iol_book::{Book, Journal, Limits, Outcome, Serve, Ticket};
use iol_event::Event;
use iol_image::Image;
use iol_isdu::{Cause, Request};
use iol_link::{Rate, Wire};
use iol_mode::{Devices, Why};
use iol_mseq::Message;
use iol_page::{CycleTime, Identity, Page};
use std::alloc::{Allocator, Global};
use std::marker::Model;

/// A port of an IO-Link master that owns no wire and calls none, for a line of one's own.
///
/// [`send`](PortCore::send) gives what goes out: the octets of one message, or a wake-up
/// request. The line is used without the port, and [`receive`](PortCore::receive) or
/// [`receive_wake`](PortCore::receive_wake) takes what came of it, or that nothing did. Between the
/// two every other call may come, but a restart: what came is judged by what was sent. Until it
/// is answered `send` gives the same octets again, and changes nothing.
///
/// ```text
///            send                           receive, receive_wake
///   nothing ------> out: a wake, or octets ----------------------> nothing
///                   |   ^
///                   +---+ send (the same again), submit, cancel, ..
/// ```
///
/// Clauses see the port's parts. They say exactly what each call leaves, whatever comes. And they
/// say, of each far end of the line and each abstract port that the port stands for with it, that
/// the call is one piece of a run of the abstract port: of what comes back, where an honest
/// exchange with that far end could bring it.
#[derive(Drop)]
pub struct PortCore<A: Allocator + Copy = Global> {
    core: Core,
    book: Book<A>,
    queued: ArrayVec<Event, MOST_QUEUED>,
    /// What was sent last waits for its answer.
    sent: bool,
    counters: Counters,
    /// Why the last session ended.
    last_loss: Option<Why>,
}

impl<A: Allocator + Copy> Model for PortCore<A> {
    ghost use Rattle.iol_port.specs.View.{PortParts, IsTied};

    ghost Value = { PortParts };

    ghost view = { λ p. record {
      core = p.core;
      book = p.book;
      queued = p.queued.items;
      sent = p.sent;
      counters = p.counters;
      last_loss = p.last_loss;
    } };

    ghost invariant = { λ p. IsTied (record {
      core = p.core;
      book = p.book;
      queued = p.queued.items;
      sent = p.sent;
      counters = p.counters;
      last_loss = p.last_loss;
    }) };
}

impl<A: Allocator + Copy> PortCore<A> {
    /// A port for devices of our own kind, whose link is down, and whose first ticket is
    /// `given` + 1. Refused by 24 where there is no memory for its book.
    pub fn open(alloc: A, limits: &Limits) -> Result<PortCore<A>, PortFault>
        ensures parts { IfOk result (λ p. IsNew limits.now p) }
        ensures opens { IfOk result (λ p. CoreOpens limits.now p) }
        ensures refused { IfErr result (λ e. e ≡ fault.Book OutOfMemory) }
    {
        PortCore::open_for(alloc, limits, Devices::Own)
    }

    /// The same, for these devices.
    ///
    /// For any it has them leave their mode first, and asks before it repeats.
    pub fn open_for(alloc: A, limits: &Limits, devices: Devices) -> Result<PortCore<A>, PortFault>
        ensures parts { IfOk result (λ p. IsNewFor devices limits.now p) }
        ensures opens { IfOk result (λ p. CoreOpensFor devices limits.now p) }
        ensures refused { IfErr result (λ e. e ≡ fault.Book OutOfMemory) }
    {
        match Book::open(alloc, limits) {
            Ok(book) => Ok(PortCore {
                core: Core::new(limits.busy.replies(), devices),
                book,
                queued: ArrayVec::new(),
                sent: false,
                counters: Counters::zero(),
                last_loss: None,
            }),
            Err(fault) => Err(PortFault::Book(fault)),
        }
    }

    /// What the port waits for: nothing, where nothing is out.
    pub fn awaits(&self) -> AwaitedAnswer
        ensures { result ≡ awaited_answer self.now }
    {
        if !self.sent {
            return AwaitedAnswer::Nothing;
        }
        match self.core.status().mode {
            Mode::Down => AwaitedAnswer::Wake,
            Mode::Startup | Mode::Preoperate | Mode::Operate => AwaitedAnswer::Reply,
        }
    }

    /// Enters a request and answers its ticket. The request then waits behind all
    /// that wait already; an urgent one that is submitted later goes before it.
    ///
    /// Refused, with nothing changed, by the first of 21 where as many tickets are outstanding
    /// as the limit of the opening says, 22 where the journal has no room for the request's
    /// entries, 23 where the last ticket was 2^64 - 1, and 24 where a growth was refused.
    pub fn submit(&mut self, request: Request) -> Result<Ticket, PortFault>
        ensures is { Submits (core_call self.old self.new) request result }
        ensures lacks { IfErr result (λ e. e ≡ fault.Book OutOfMemory → self.old.book.room ≡ 0) }
    {
        by_book(self.book.submit(request))
    }

    /// Enters an urgent request, which then waits behind the other urgent ones and before
    /// all others, and answers its ticket. A request that is under way isn't stopped by it.
    ///
    /// Refused, with nothing changed, as `submit` is: 21, 22 and 23 count both kinds.
    pub fn submit_urgent(&mut self, request: Request) -> Result<Ticket, PortFault>
        ensures is { SubmitsUrgent (core_call self.old self.new) request result }
        ensures lacks { IfErr result (λ e. e ≡ fault.Book OutOfMemory → self.old.book.room ≡ 0) }
    {
        by_book(self.book.submit_urgent(request))
    }

    /// Hands out the outcome of a ticket, which is outstanding no more.
    ///
    /// Refused, with nothing changed, by 25 where no such ticket is outstanding,
    /// and by 26 where it has no outcome yet.
    pub fn collect(&mut self, ticket: Ticket) -> Result<Outcome, PortFault>
        ensures { Collects (core_call self.old self.new) ticket result }
    {
        by_book(self.book.collect(ticket))
    }

    /// Hands out the outcome of a ticket as [`collect`](PortCore::collect) does, into a place of
    /// the caller, which a refusal leaves as it was. Most asks come before the outcome, and cost
    /// little.
    pub fn collect_into(&mut self, ticket: Ticket, into: &mut Outcome) -> Result<(), PortFault>
        ensures is { Collects (core_call self.old self.new) ticket (in_place into.new result) }
        ensures unchanged { IfErr result (λ _. into.new ≡ into.old) }
    {
        by_book(self.book.collect_into(ticket, into))
    }

    /// Takes back a request that waits, urgent or not. Its outcome is then that it was withdrawn.
    ///
    /// Refused, with nothing changed, by 25 where no such ticket is outstanding,
    /// and by 27 where it waits no longer.
    pub fn withdraw(&mut self, ticket: Ticket) -> Result<(), PortFault>
        ensures { Withdraws (core_call self.old self.new) ticket result }
    {
        by_book(self.book.withdraw(ticket))
    }

    /// Asks to cut off the request of a ticket, which is under way.
    ///
    /// An ABORT waits then, unless one waits already; a message that is out comes before
    /// it. The outcome follows in a later turn: that it was cancelled, with the good reply
    /// to the ABORT; its answer, where that is whole before the ABORT is sent; or that it
    /// was cut off for another cause. Takes no memory, and writes nothing into the journal.
    ///
    /// Refused, with nothing changed, by 25 where no such ticket is outstanding,
    /// and by 36 where it waits, or has an outcome.
    ///
    /// Rule REQ-8.
    pub fn cancel(&mut self, ticket: Ticket) -> Result<(), PortFault>
        ensures { Cancels (core_call self.old self.new) ticket result }
    {
        match self.book.in_flight(ticket) {
            Ok(()) => {
                self.core.abort(Cause::Cancelled);
                Ok(())
            }
            Err(fault) => Err(PortFault::Book(fault)),
        }
    }

    /// Gives up the outcome of a ticket, as for a client that is gone: whatever comes of the
    /// request is dropped, and the ticket is unknown from then on.
    ///
    /// A request that waits is never sent. One that is under way is carried out as before, and
    /// keeps its place until its outcome comes, which nobody collects. The journal has an entry
    /// that says so. A request that was cut off, and that the device may still carry out, stays in
    /// doubt.
    ///
    /// Refused, with nothing changed, by 25 where no such ticket is outstanding.
    pub fn abandon(&mut self, ticket: Ticket) -> Result<(), PortFault>
        ensures { Abandons (core_call self.old self.new) ticket result }
    {
        by_book(self.book.abandon(ticket))
    }

    /// Whether a ticket is outstanding: its request waits, or is under way and was not abandoned,
    /// or has an outcome that wasn't collected.
    pub fn is_outstanding(&self, ticket: Ticket) -> bool
        ensures { result ≡ is_outstanding self.now.book.state.standing ticket }
    {
        self.book.is_outstanding(ticket)
    }

    /// Has these requests alone taken from now on, and the others wait on, urgent ones too: a layer
    /// above keeps clients out while a job of several requests is under way.
    ///
    /// A port is opened with `Serve::All`. What is served stays so until the next call of this,
    /// whatever comes. A request under way isn't touched; clients may submit, withdraw and abandon
    /// as before. The journal has no entry of it.
    pub fn serve(&mut self, which: Serve)
        ensures { Serves (core_call self.old self.new) which }
    {
        self.book.serve(which);
    }

    /// Cuts off the request under way, if any, and leaves the link in down, without an image.
    ///
    /// What waits goes on waiting. The device may still carry the request that was cut off out,
    /// once, until it is reset: by a wake that succeeds; at a port for any device, once it has left
    /// its mode.
    ///
    /// What was sent has to be answered first; the answer may be that nothing came.
    ///
    /// Rules REQ-11, PORT-6.
    pub fn restart(&mut self)
        requires { awaited_answer self.old ≡ AwaitedAnswer.Nothing }
        ensures { Restarts (core_call self.old self.new) }
    {
        let began = self.core.status().mode;
        let cut = self.core.restart();
        self.last_loss = loss_after(began, self.core.status(), self.last_loss);
        if cut {
            self.counters.unknown.cut(Cause::Restarted);
            self.book.post(Outcome::Unknown(Cause::Restarted));
        }
    }

    /// Wants this output of the device, from the next message made in OPERATE on.
    ///
    /// Refused, with nothing changed, by the first of 34 where no start-up has told the lengths
    /// of the process data yet, and 29 where the image has not the length that was told last.
    pub fn set_output(&mut self, image: &Image) -> Result<(), PortFault>
        ensures { SetsOutput (core_call self.old self.new) image.now result }
    {
        by_output(self.core.set_output(image))
    }

    /// Wants no output of the device.
    pub fn clear_output(&mut self)
        ensures { ClearsOutput (core_call self.old self.new) }
    {
        self.core.clear_output();
    }

    /// Expects this device from the next page on that a start-up reads whole.
    ///
    /// Where that page is another device's, the link goes down in the very turn, with
    /// `Why::WrongDevice` and the identity that was found, and nothing but DeviceStartup
    /// was written to the device. Requests wait on. A page that was checked already is not checked
    /// again.
    ///
    /// Rule PORT-10.
    pub fn expect(&mut self, identity: Identity) -> Counting
        ensures { Expects (core_call self.old self.new) (Some identity) result }
    {
        let counting = self.counting();
        self.core.expect(Some(identity));
        counting
    }

    /// Expects any device, as a port does that is new.
    pub fn expect_any(&mut self) -> Counting
        ensures { Expects (core_call self.old self.new) None result }
    {
        let counting = self.counting();
        self.core.expect(None);
        counting
    }

    /// Has start-ups write this cycle time to MasterCycleTime, where it is at least the device's
    /// MinCycleTime; else, and with none, they write MinCycleTime as it stands in the page.
    ///
    /// Rule PORT-10.
    pub fn set_cycle(&mut self, cycle: Option<CycleTime>) -> Counting
        ensures { SetsCycle (core_call self.old self.new) cycle result }
    {
        let counting = self.counting();
        self.core.set_cycle(cycle);
        counting
    }

    /// The device's page, once the start-up of the present session has read it whole and checked
    /// it; none before, and in down.
    ///
    /// Rule PORT-11.
    pub fn page(&self) -> Option<Page>
        ensures { ShowsPage (core_look self.now) result }
    {
        self.core.page().copied()
    }

    /// What was counted since the opening. A message that is out counts once it is answered.
    pub fn counters(&self) -> &Counters
        ensures { ShowsCounters (core_look self.now) result.now }
    {
        &self.counters
    }

    /// Why the last session ended: `Lost`, a fault of the device's page, `Interleaved`, or
    /// `WrongDevice` with the identity that was found. It stays so through the start-ups that
    /// follow, until OPERATE is reached. None where a restart ended the session, in OPERATE, and
    /// before any session ended. A wake-up request in vain ends none: `status` shows it.
    ///
    /// Rule PORT-13.
    pub fn last_loss(&self) -> Option<Why>
        ensures { ShowsLastLoss (core_look self.now) result }
    {
        self.last_loss
    }

    /// From when on counts what start-ups are to ask.
    fn counting(&self) -> Counting
        ensures { result ≡ counting_of (page_shown self.now) }
    {
        match self.page() {
            Some(_) => Counting::Later,
            None => Counting::Now,
        }
    }

    /// The device's input by the last good reply in OPERATE: one whole image, or
    /// none where it was not valid. None in every other mode.
    pub fn image(&self) -> Option<&Image>
        ensures { ShowsImage (core_look self.now) (option_copied result) }
    {
        self.core.image()
    }

    /// Hands out the event that was kept longest. Refused by 30 where none is kept.
    ///
    /// Rule PORT-5.
    pub fn take_event(&mut self) -> Result<Event, PortFault>
        ensures { TakesEvent (core_call self.old self.new) result }
    {
        self.queued.pop_at(0).ok_or(PortFault::NoEvent)
    }

    /// The mode of the link, and why it is down.
    pub fn status(&self) -> Status
        ensures { ShowsStatus (core_look self.now) result }
    {
        self.core.status()
    }

    /// Hands the journal out and begins a new one, which is empty. Tickets go on.
    ///
    /// Refused, with nothing changed, by 28 where a ticket is outstanding, or where
    /// a request was cut off by a lost link or a restart and the device wasn't reset
    /// since, as it may still carry that request out. A wake that succeeds resets it; at
    /// a port for any device it is reset once it has left its mode. Refused by 63 where the port
    /// keeps no journal.
    pub fn archive(&mut self) -> Result<Journal<A>, PortFault>
        ensures is { Archives (core_call self.old self.new) (λ entries. entries.items) result }
        ensures within { IfOk result (λ entries. length entries.items ≤ 1000000) }
    {
        by_book(self.book.archive())
    }

    /// Hands the journal out at any time and begins a new one, with what is restated: the entries
    /// of the tickets that are outstanding or in doubt, in their order. So the journal still says
    /// alone where each ticket stands, and no client has to stop for it.
    ///
    /// The first entries that are handed out, [`restated`](PortCore::restated) of them before this
    /// call, were handed out by the drain before already. Without these, the journals of all drains
    /// are one journal. In doubt is a request that was cut off by a lost link or a restart, until
    /// the device is reset.
    ///
    /// The list that is answered takes memory. Refused, with nothing changed, by 24 where there is
    /// none for it, and by 63 where the port keeps no journal.
    pub fn drain(&mut self) -> Result<Journal<A>, PortFault>
        ensures is { Drains (core_call self.old self.new) (λ entries. entries.items) result }
        ensures within { IfOk result (λ entries. length entries.items ≤ 1000000) }
    {
        by_book(self.book.drain())
    }

    /// As [`drain`](PortCore::drain), at the end of a list of the caller. Answers how many of the
    /// entries that were handed out are restated ones.
    ///
    /// The list takes memory if it has too little room for the journal, and nothing else does.
    /// Refused by 24 where there is none for it, and by 63 where the port keeps no journal; port
    /// and list are then as they were.
    pub fn drain_into(&mut self, list: &mut Journal<A>) -> Result<usize, PortFault>
        ensures is { DrainsInto (core_call self.old self.new) list.old.items list.new.items result }
        ensures full { OnErr result (LacksRoomFor self.old.book.state list.old) }
    {
        by_book(self.book.drain_into(list))
    }

    /// How many entries at the beginning of the journal are restated: the last drain left them
    /// there, and handed them out before.
    pub fn restated(&self) -> usize
        ensures value { result ≡ self.now.book.state.restated }
        ensures within { result ≤ length self.now.book.state.journal }
    {
        self.book.restated()
    }

    /// What the one call of the wire in the next turn will be.
    ///
    /// Each call but this and the others that only look may change it: ask right before the turn.
    ///
    /// Rule PORT-2.
    pub fn asks(&self) -> Transmission
        ensures { result ≡ asks_of self.now }
    {
        let next = if lacks_isdu(self.core.isdu()) {
            None
        } else {
            self.book.next()
        };
        self.core.asks(self.event_room(), next.as_ref())
    }

    /// Whether a turn may begin to read events.
    ///
    /// Rule EVT-5.
    fn event_room(&self) -> EventRoom
        ensures { result ≡ event_room self.now.queued }
    {
        if self.queued.len() <= ROOM {
            EventRoom::Left
        } else {
            EventRoom::Full
        }
    }

    /// What goes out: the octets of one message, or a wake-up request, where the link is down.
    ///
    /// In OPERATE, where nothing else is to be sent, the next request is taken: of those that are
    /// served the urgent one that waits longest, or where none is urgent the other one that does.
    /// Its first segment goes out then; where the device has no ISDU it is denied, never taken, and
    /// IDLE 1 goes out. At most 64 events are kept, and a list of events is read only where there
    /// is room for it.
    ///
    /// Until what goes out is answered it is given again, and nothing changes.
    ///
    /// Rule PORT-8.
    pub fn send(&mut self) -> Transmission
        ensures says { IsAskedOut result self.new.core.state }
        ensures asked { result ≡ asks_of self.old }
        ensures repeat { IsTrue self.old.sent → self.new ≡ self.old }
        ensures begun { self.old.sent ≡ false → IsTrue (takes_next self.old)
            → IfSome (begun_next self.old) IsRequest }
        ensures gives { PortSendGives self.old self.new }
        ensures does { SendDoes self.old self.new }
    {
        let room = self.event_room();
        if !self.sent {
            begin_next(&mut self.core, &mut self.book, room);
            self.sent = true;
        }
        self.core.send(room)
    }

    /// Takes what came back to the octets that were sent, in the time of a reply, or that
    /// nothing did. Of a reply of more than 66 octets give the first 66: it is of a wrong length
    /// as it is.
    ///
    /// Without a good reply the message stays out, and the next `send` gives it again, or at a port
    /// for any device a question in its place; the third time in a row has lost the link.
    ///
    /// Rules PD-7, PORT-9.
    pub fn receive(&mut self, received: &Option<Message>)
        requires { awaited_answer self.old ≡ AwaitedAnswer.Reply }
        ensures gives { PortReceiveGives self.old (octets_in received.now) self.new }
        ensures does { ReceiveDoes self.old (octets_in received.now) self.new }
    {
        let began = self.core.is_reset();
        let mode = self.core.status().mode;
        let mut report = Said::Idle;
        let wire_result = self.core.receive(received, &mut report);
        self.sent = false;
        self.last_loss = loss_after(mode, self.core.status(), self.last_loss);
        self.counters.turned(wire_result, &report);
        let reset = resets(began, self.core.is_reset());
        settle(&mut self.book, &mut self.queued, reset, &mut report);
    }

    /// Takes what came of a wake-up request: the rate of the device that answered it, or that
    /// none did.
    ///
    /// Rule PORT-9.
    pub fn receive_wake(&mut self, rate: Option<Rate>)
        requires { awaited_answer self.old ≡ AwaitedAnswer.Wake }
        ensures gives { WakeGives self.old (is_some rate) self.new }
        ensures does { WakeDoes self.old (is_some rate) self.new }
    {
        let began = self.core.is_reset();
        let mode = self.core.status().mode;
        self.core.receive_wake(rate);
        self.sent = false;
        self.last_loss = loss_after(mode, self.core.status(), self.last_loss);
        self.counters.turned(WireResult::of_wake(rate), &Said::Idle);
        let reset = resets(began, self.core.is_reset());
        settle(&mut self.book, &mut self.queued, reset, &mut Said::Idle);
    }

    /// One turn over this wire, with no call between its pieces.
    ///
    /// Rule PORT-1.
    pub(crate) fn turn<W: Wire>(&mut self, wire: &mut W)
        requires free { self.old.sent ≡ false }
        requires stands { LinkStands W.facts wire.old self.old.core }
        ensures free { self.new.sent ≡ false }
        ensures stands { LinkStands W.facts wire.new self.new.core }
        ensures does { Does W.facts (on_wire self.old wire.old) call.Turn answered.Nothing
            (on_wire self.new wire.new) }
        ensures asked { IsCall W.facts (asks_of self.old) wire.old wire.new }
        ensures begun { IsTrue (takes_next self.old) → IfSome (begun_next self.old) IsRequest }
        ensures clean { CleanTurn W.facts (on_wire self.old wire.old) (on_wire self.new wire.new) }
        ensures gives { PortTurnGives W.facts (on_wire self.old wire.old)
            (on_wire self.new wire.new) }
    {
        clean_laws();
        let room = self.event_room();
        let mode = self.core.status().mode;
        begin_next(&mut self.core, &mut self.book, room);
        let began = self.core.is_reset();
        let mut report = Said::Idle;
        let wire_result = self.core.turn(wire, room, &mut report);
        self.last_loss = loss_after(mode, self.core.status(), self.last_loss);
        self.counters.turned(wire_result, &report);
        let reset = resets(began, self.core.is_reset());
        settle(&mut self.book, &mut self.queued, reset, &mut report);
    }

    /// A law of each port, without code: at every moment the journal says where each ticket
    /// stands, whatever came over the line. And of each far end with which the port stands for
    /// a sound abstract port, as each run of pieces from an opening leads to, the device's
    /// record fits the journal.
    ///
    /// Rules BOOK-9, BOOK-10.
    pub fn keeps_record(&self)
        ensures replayed { IsReplayed self.now.book.state }
        ensures record_fits { CoreKeeps self.now }
    {
        let _ = self.book.journal();
    }

    /// A law of each port, without code: in OPERATE, where alone a request is taken and an output
    /// goes out, the page of the present session was read whole. It is that of the device that
    /// was expected when it was checked, if one was.
    pub fn serves_right_device(&self)
        ensures { IsForRightDevice self.now }
    {
        self.core.device_is_right();
    }
}
