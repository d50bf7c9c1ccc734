//! One port.
#![tactic(auto, using(crate::proofs::WireLemmas::call_preserves, crate::proofs::WireLemmas::stays, crate::proofs::WireLemmas::stays_by, crate::proofs::WireLemmas::stays_down,))]

ghost use Rattle.std.specs.Prelude.{◌≡◌, ◌<◌, ◌≤◌, ◌+◌, None, Some, IfOk, IfErr, OnErr, [], length};
ghost use Rattle.std.specs.Vec.{vec_capacity};
ghost use Rattle.iol_book.specs.Drained.{LacksRoomFor};
ghost use Rattle.std.specs.Option.{option_copied};
ghost use Rattle.iol_book.specs.BookModel.{in_place};
ghost use Rattle.iol_book.specs.declared.fault.BookFault.TheVariants.{OutOfMemory};
ghost use Rattle.iol_book.specs.BookModel as book;
ghost use Rattle.iol_book.specs.BookModel.{IsReplayed, is_outstanding};
ghost use Rattle.iol_port.specs.declared.fault.PortFault.TheVariants as fault;
ghost use Rattle.iol_port.specs.declared.call.Call.TheVariants as call;
ghost use Rattle.iol_port.specs.declared.call.Answered.TheVariants as answered;
ghost use Rattle.iol_port.specs.Run.{port_at_opening};
ghost use Rattle.iol_port.specs.Asks.{asks_of, IsWireCall};
ghost use Rattle.iol_port.specs.Called.{Submits, SubmitsUrgent, Collects, Withdraws, Cancels, Abandons, Serves, Restarts, SetsOutput};
ghost use Rattle.iol_port.specs.Called.{ClearsOutput, Expects, SetsCycle, TakesEvent, Archives, Drains, DrainsInto, Turns, PublishesAfter};
ghost use Rattle.iol_port.specs.Called.{ShowsPage, ShowsCounters, ShowsLastLoss, ShowsImage, ShowsStatus, core_look, port_call};
ghost use Rattle.iol_port.specs.Claim.{Claim, ClaimGoesOn, TiedClaim};
ghost use Rattle.iol_port.specs.EveryWire.{PortCallGives, RunGives};
ghost use Rattle.iol_port.specs.RightDevice.{IsForRightDevice};
ghost use Rattle.iol_port.specs.WireCalls.{ComesFrom};
ghost use Rattle.iol_port.specs.View.{Does, Runs, StandsOver, IsNew, IsNewFor, IsRun, KeepsLimits, OpensWell, opening_for, opening_of, over};
ghost use Rattle.iol_port.specs.View.{KeepsRecordOver, writer_after_publish};
ghost use Rattle.iol_port.specs.Clean.{CleanTurn, CleanRuns, CleanServes, IsLevelBetween};
ghost use Rattle.iol_port.specs.Replies.{ticket_reply, nothing_reply, outcome_reply, event_reply, result_reply, drained_answer};

use crate::copies::{copy_of_image, request_copy};
use crate::laws::clean_laws;
use crate::port_core::PortCore;
use crate::{Answered, Call, Counters, Counting, DrainCounts, PortFault};
use iol_app::{Status, Transmission};
use iol_book::{BookFault, Journal, Limits, Outcome, Serve, Ticket};
use iol_cell::{Handle, ImageWriter};
use iol_event::Event;
use iol_image::Image;
use iol_isdu::Request;
use iol_link::Wire;
use iol_mode::{Devices, Why};
use iol_page::{CycleTime, Identity, Page};
use std::alloc::{Allocator, Global};
use std::marker::Model;
use std::snapshot::Snapshot;
use std::sync::Wait;

/// A port of an IO-Link master: two queues of requests, the urgent ones and the
/// others, and the link to one device that carries them out.
///
/// Contracts see what the port stands for: an abstract port, of which each call is
/// one call. Over an honest wire they say which. On every wire no call is unsafe, the
/// journal alone says where each ticket stands, each call answers and leaves what its
/// clause `gives` says of the port's own parts, and the wire is what the one at the
/// opening became by the calls of turns. Beside that they see with what the port was
/// opened, and what it published.
#[derive(Drop)]
pub struct Port<W: Wire, A: Handle = Global> {
    core: PortCore<A>,
    wire: W,
    wire_then: Snapshot<W>,
    devices: Snapshot<Devices>,
    limits: Snapshot<Limits>,
    writer: Option<ImageWriter<A>>,
}

impl<W: Wire, A: Handle> Model for Port<W, A> {
    ghost use Rattle.iol_port.specs.View.{PortValue, IsPort, opening_for, on_wire};

    ghost Value = { PortValue W };

    ghost view = { λ p. record {
      parts = p.core;
      wire = p.wire;
      opening = opening_for W.facts p.devices.value p.limits.value p.wire_then.value;
      writer = p.writer;
    } };

    ghost invariant = { λ p. IsPort W.facts
        (opening_for W.facts p.devices.value p.limits.value p.wire_then.value)
        (on_wire p.core p.wire) };
}

impl<W: Wire, A: Handle> Port<W, A> {
    /// A port for devices of our own kind over this wire, whose link is down and whose first
    /// ticket is `given` + 1.
    ///
    /// Refused by 24 where there is no memory for its book; the wire is handed back.
    pub fn open(alloc: A, wire: W, limits: &Limits) -> Result<Port<W, A>, (PortFault, W)>
        ensures opening { IfOk result (λ p. p.opening ≡ opening_of W.facts limits.now wire) }
        ensures parts { IfOk result (λ p. IsNew limits.now p.parts) }
        ensures wire { IfOk result (λ p. p.wire ≡ wire) }
        ensures stands { IfOk result (λ p. OpensWell p.opening → StandsOver W.facts (over p)
            (port_at_opening Devices.Own limits.now (W.facts.far wire) (W.facts.silence wire))) }
        ensures writer { IfOk result (λ p. p.writer ≡ None) }
        ensures refused { IfErr result (λ e. e.0 ≡ fault.Book OutOfMemory) }
        ensures back { IfErr result (λ e. e.1 ≡ wire) }
    {
        Port::open_for(alloc, wire, limits, Devices::Own)
    }

    /// The same, for these devices.
    ///
    /// For any it has them leave their mode first, and asks before it repeats.
    pub fn open_for(
        alloc: A,
        wire: W,
        limits: &Limits,
        devices: Devices,
    ) -> Result<Port<W, A>, (PortFault, W)>
        ensures opening { IfOk result (λ p. p.opening
            ≡ opening_for W.facts devices limits.now wire) }
        ensures parts { IfOk result (λ p. IsNewFor devices limits.now p.parts) }
        ensures wire { IfOk result (λ p. p.wire ≡ wire) }
        ensures stands { IfOk result (λ p. OpensWell p.opening → StandsOver W.facts (over p)
            (port_at_opening devices limits.now (W.facts.far wire) (W.facts.silence wire))) }
        ensures writer { IfOk result (λ p. p.writer ≡ None) }
        ensures refused { IfErr result (λ e. e.0 ≡ fault.Book OutOfMemory) }
        ensures back { IfErr result (λ e. e.1 ≡ wire) }
    {
        let wire_then = Snapshot::of(&wire);
        match PortCore::open_for(alloc, limits, devices) {
            Ok(core) => Ok(Port {
                core,
                wire,
                wire_then,
                devices: Snapshot::of(&devices),
                limits: Snapshot::of(limits),
                writer: None,
            }),
            Err(fault) => Err((fault, wire)),
        }
    }

    /// As [`PortCore::submit`].
    pub fn submit(&mut self, request: Request) -> Result<Ticket, PortFault>
        ensures is { Submits (port_call self.old self.new) request result }
        ensures lacks { IfErr result (λ e. e ≡ fault.Book OutOfMemory → self.old.parts.book.room
            ≡ 0) }
    {
        self.core.submit(request)
    }

    /// As [`PortCore::submit_urgent`].
    pub fn submit_urgent(&mut self, request: Request) -> Result<Ticket, PortFault>
        ensures is { SubmitsUrgent (port_call self.old self.new) request result }
        ensures lacks { IfErr result (λ e. e ≡ fault.Book OutOfMemory → self.old.parts.book.room
            ≡ 0) }
    {
        self.core.submit_urgent(request)
    }

    /// As [`PortCore::collect`].
    pub fn collect(&mut self, ticket: Ticket) -> Result<Outcome, PortFault>
        ensures { Collects (port_call self.old self.new) ticket result }
    {
        self.core.collect(ticket)
    }

    /// As [`PortCore::collect_into`].
    pub fn collect_into(&mut self, ticket: Ticket, into: &mut Outcome) -> Result<(), PortFault>
        ensures is { Collects (port_call self.old self.new) ticket (in_place into.new result) }
        ensures unchanged { IfErr result (λ _. into.new ≡ into.old) }
    {
        self.core.collect_into(ticket, into)
    }

    /// As [`PortCore::withdraw`].
    pub fn withdraw(&mut self, ticket: Ticket) -> Result<(), PortFault>
        ensures { Withdraws (port_call self.old self.new) ticket result }
    {
        self.core.withdraw(ticket)
    }

    /// As [`PortCore::cancel`].
    pub fn cancel(&mut self, ticket: Ticket) -> Result<(), PortFault>
        ensures { Cancels (port_call self.old self.new) ticket result }
    {
        self.core.cancel(ticket)
    }

    /// As [`PortCore::abandon`].
    pub fn abandon(&mut self, ticket: Ticket) -> Result<(), PortFault>
        ensures { Abandons (port_call self.old self.new) ticket result }
    {
        self.core.abandon(ticket)
    }

    /// As [`PortCore::is_outstanding`].
    pub fn is_outstanding(&self, ticket: Ticket) -> bool
        ensures { result ≡ is_outstanding self.now.parts.book.state.standing ticket }
    {
        self.core.is_outstanding(ticket)
    }

    /// As [`PortCore::serve`].
    pub fn serve(&mut self, which: Serve)
        ensures { Serves (port_call self.old self.new) which }
    {
        self.core.serve(which);
    }

    /// As [`PortCore::restart`]. Between two calls nothing is out.
    pub fn restart(&mut self)
        ensures { Restarts (port_call self.old self.new) }
    {
        self.core.restart();
    }

    /// As [`PortCore::set_output`].
    pub fn set_output(&mut self, image: &Image) -> Result<(), PortFault>
        ensures { SetsOutput (port_call self.old self.new) image.now result }
    {
        self.core.set_output(image)
    }

    /// As [`PortCore::clear_output`].
    pub fn clear_output(&mut self)
        ensures { ClearsOutput (port_call self.old self.new) }
    {
        self.core.clear_output();
    }

    /// As [`PortCore::expect`].
    pub fn expect(&mut self, identity: Identity) -> Counting
        ensures { Expects (port_call self.old self.new) (Some identity) result }
    {
        self.core.expect(identity)
    }

    /// As [`PortCore::expect_any`].
    pub fn expect_any(&mut self) -> Counting
        ensures { Expects (port_call self.old self.new) None result }
    {
        self.core.expect_any()
    }

    /// As [`PortCore::set_cycle`].
    pub fn set_cycle(&mut self, cycle: Option<CycleTime>) -> Counting
        ensures { SetsCycle (port_call self.old self.new) cycle result }
    {
        self.core.set_cycle(cycle)
    }

    /// As [`PortCore::page`].
    pub fn page(&self) -> Option<Page>
        ensures { ShowsPage (core_look self.now.parts) result }
    {
        self.core.page()
    }

    /// As [`PortCore::counters`].
    pub fn counters(&self) -> &Counters
        ensures { ShowsCounters (core_look self.now.parts) result.now }
    {
        self.core.counters()
    }

    /// As [`PortCore::last_loss`].
    pub fn last_loss(&self) -> Option<Why>
        ensures { ShowsLastLoss (core_look self.now.parts) result }
    {
        self.core.last_loss()
    }

    /// As [`PortCore::image`].
    pub fn image(&self) -> Option<&Image>
        ensures { ShowsImage (core_look self.now.parts) (option_copied result) }
    {
        self.core.image()
    }

    /// As [`PortCore::take_event`].
    pub fn take_event(&mut self) -> Result<Event, PortFault>
        ensures { TakesEvent (port_call self.old self.new) result }
    {
        self.core.take_event()
    }

    /// As [`PortCore::status`].
    pub fn status(&self) -> Status
        ensures { ShowsStatus (core_look self.now.parts) result }
    {
        self.core.status()
    }

    /// As [`PortCore::archive`].
    pub fn archive(&mut self) -> Result<Journal<A>, PortFault>
        ensures is { Archives (port_call self.old self.new) (λ entries. entries.items) result }
        ensures within { IfOk result (λ entries. length entries.items ≤ 1000000) }
    {
        self.core.archive()
    }

    /// As [`PortCore::drain`].
    pub fn drain(&mut self) -> Result<Journal<A>, PortFault>
        ensures is { Drains (port_call self.old self.new) (λ entries. entries.items) result }
        ensures within { IfOk result (λ entries. length entries.items ≤ 1000000) }
    {
        self.core.drain()
    }

    /// As [`PortCore::drain_into`].
    pub fn drain_into(&mut self, list: &mut Journal<A>) -> Result<usize, PortFault>
        ensures is { DrainsInto (port_call self.old self.new) list.old.items list.new.items result }
        ensures full { OnErr result (LacksRoomFor self.old.parts.book.state list.old) }
    {
        self.core.drain_into(list)
    }

    /// As [`PortCore::restated`].
    pub fn restated(&self) -> usize
        ensures value { result ≡ self.now.parts.book.state.restated }
        ensures within { result ≤ length self.now.parts.book.state.journal }
    {
        self.core.restated()
    }

    /// As [`PortCore::asks`].
    pub fn asks(&self) -> Transmission
        ensures { result ≡ asks_of self.now.parts }
    {
        self.core.asks()
    }

    /// One turn: one wake-up request where the link is down, else one exchange with the device.
    ///
    /// It sends as [`PortCore::send`] does, and takes what came as [`PortCore::receive`] and
    /// [`PortCore::receive_wake`] do.
    pub fn turn(&mut self)
        ensures { Turns W.facts self.old self.new }
    {
        self.core.turn(&mut self.wire);
    }

    /// One call by its name, with what it answered.
    ///
    /// A turn makes the one call of the wire that the port `asks` for, and no other
    /// call touches the wire.
    ///
    /// Rules PORT-2, PORT-3, PORT-4, PORT-7.
    #[tactic(auto, using(crate::proofs::CorePorts::port_call_over))]
    pub fn call(&mut self, asked: &Call) -> Answered
        ensures does { Does W.facts (over self.old) asked.now result (over self.new) }
        ensures gives { PortCallGives W.facts (over self.old) asked.now result (over self.new) }
        ensures wire { IsWireCall W.facts asked.now (asks_of self.old.parts)
            self.old.wire self.new.wire }
        ensures clean { asked.now ≡ call.Turn → CleanTurn W.facts (over self.old) (over self.new) }
        ensures rest { self.new
            ≡ record self.old { parts = self.new.parts; wire = self.new.wire } }
    {
        match asked {
            Call::Submit(request) => ticket_or(self.submit(request_copy(request))),
            Call::SubmitUrgent(request) => { ticket_or(self.submit_urgent(request_copy(request))) }
            Call::Collect(ticket) => outcome_or(self.collect(*ticket)),
            Call::Withdraw(ticket) => nothing_or(self.withdraw(*ticket)),
            Call::Cancel(ticket) => nothing_or(self.cancel(*ticket)),
            Call::Abandon(ticket) => nothing_or(self.abandon(*ticket)),
            Call::Serve(which) => {
                self.serve(*which);
                Answered::Nothing
            }
            Call::Restart => {
                self.restart();
                Answered::Nothing
            }
            Call::SetOutput(image) => nothing_or(self.set_output(image)),
            Call::ClearOutput => {
                self.clear_output();
                Answered::Nothing
            }
            Call::Look => Answered::Image(copy_of_image(self.image())),
            Call::Expect(Some(identity)) => Answered::Counts(self.expect(*identity)),
            Call::Expect(None) => Answered::Counts(self.expect_any()),
            Call::Cycle(cycle) => Answered::Counts(self.set_cycle(*cycle)),
            Call::Page => Answered::Page(self.page()),
            Call::Counters => Answered::Counters(*self.counters()),
            Call::LastLoss => Answered::LastLoss(self.last_loss()),
            Call::TakeEvent => event_or(self.take_event()),
            Call::Status => Answered::Status(self.status()),
            Call::Archive => archived_or(self.archive()),
            Call::Drain => drained_or(self.restated(), self.drain()),
            Call::Turn => {
                self.turn();
                Answered::Nothing
            }
        }
    }

    /// The calls in order, each made once, with what it answered. A call that is
    /// refused doesn't end the run. The list has room for just these answers.
    ///
    /// Refused by 24 where there is no memory for the list, before the first call and with
    /// nothing done. A list of no calls needs none.
    ///
    /// Rules REQ-13, PORT-3.
    pub fn run<B: Allocator>(
        &mut self,
        alloc: B,
        calls: &[Call],
    ) -> Result<Vec<Answered, B>, PortFault>
        ensures run { IfOk result (λ replies. Runs W.facts
            (over self.old) calls.now replies.items (over self.new)) }
        ensures claim { OpensWell self.old.opening → IfOk result (λ replies. Claim W.facts
            self.old.opening calls.now replies.items (over self.new)) }
        ensures goes_on { IfOk result (λ replies. ClaimGoesOn W.facts
            self.old.opening (over self.old) calls.now replies.items (over self.new)) }
        ensures gives { IfOk result (λ replies. RunGives W.facts
            (over self.old) calls.now replies.items (over self.new)) }
        ensures clean { IfOk result (λ _. CleanRuns W.facts (over self.old) calls.now
            (over self.new)) }
        ensures served { IfOk result (λ _. CleanServes W.facts (over self.old) calls.now
            (over self.new)) }
        ensures rest { self.new
            ≡ record self.old { parts = self.new.parts; wire = self.new.wire } }
        ensures room { IfOk result (λ replies. vec_capacity replies ≡ length calls.now) }
        ensures refused { IfErr result (λ e. e ≡ fault.Book OutOfMemory) }
        ensures needs { OnErr result (1 ≤ length calls.now) }
        ensures unchanged { IfErr result (λ _. self.new ≡ self.old) }
    {
        self.keeps_record();
        clean_laws();
        let Ok(mut replies) = Vec::with_capacity(alloc, calls.len()) else {
            return Err(PortFault::Book(BookFault::OutOfMemory));
        };
        for call in calls {
            let answer = self.call(call);
            replies.push_reserved(answer);
        }
        Ok(replies)
    }

    /// From now on the image is published there after each `turn_shown` and
    /// `restart_shown`, and nowhere else.
    pub fn publish_to(&mut self, writer: ImageWriter<A>)
        ensures { self.new ≡ record self.old { writer = Some writer } }
    {
        self.writer = Some(writer);
    }

    /// A turn, after which the image is published, once, where a writer was given.
    pub fn turn_shown<R: Wait>(&mut self, rt: &R)
        ensures { PublishesAfter (Turns W.facts self.old) self.old self.new }
    {
        self.turn();
        self.show(rt);
    }

    /// A restart, after which the image, which is none, is published, once, where a
    /// writer was given.
    pub fn restart_shown<R: Wait>(&mut self, rt: &R)
        ensures { PublishesAfter
            (λ new. Restarts (port_call self.old new)) self.old self.new }
    {
        self.restart();
        self.show(rt);
    }

    fn show<R: Wait>(&mut self, rt: &R)
        ensures { self.new ≡ record self.old {
          writer = writer_after_publish self.old.parts.core.session.image self.old.writer;
        } }
    {
        if let Some(writer) = &mut self.writer {
            writer.publish(rt, self.core.image());
        }
    }

    /// The wire, as it is now.
    pub fn wire(&self) -> &W
        ensures { result.now ≡ self.now.wire }
    {
        &self.wire
    }

    /// Ends the port, and hands its wire back.
    pub fn into_wire(self) -> W
        ensures { result ≡ self.wire }
    {
        let Port {
            core: _,
            wire,
            wire_then: _,
            devices: _,
            limits: _,
            writer: _,
        } = self;
        wire
    }

    /// A law of each port, without code: at every moment the journal says where each
    /// ticket stands, and the wire is what the one at the opening became by wakes and
    /// exchanges, and by nothing else; its book has the limits of the opening; and the device's
    /// record fits the journal, if when the port was opened the wire was honest; at a port for our
    /// own devices the device has to see each pulse of a wake. A request that it was handed before
    /// the opening may have one pair in the record, before all others.
    pub fn keeps_record(&self)
        ensures replayed { IsReplayed self.now.parts.book.state }
        ensures run { IsRun W.facts self.now.opening (over self.now) }
        ensures wire { ComesFrom W.facts
            self.now.opening.wire self.now.wire }
        ensures limits { KeepsLimits (book.empty_book self.now.opening.limits)
            self.now.parts.book.state }
        ensures claim { OpensWell self.now.opening
            → TiedClaim W.facts self.now.opening (over self.now) }
        ensures record_fits { OpensWell self.now.opening → KeepsRecordOver W.facts (over self.now) }
        ensures level { OpensWell self.now.opening
            → IsLevelBetween (W.facts.far self.now.wire) self.now.parts }
    {
        self.core.keeps_record();
    }

    /// A law of each port, without code: in OPERATE, where alone a request is taken and an output
    /// goes out, the page of the present session was read whole. It is that of the device that
    /// was expected when it was checked, if one was.
    pub fn serves_right_device(&self)
        ensures { IsForRightDevice self.now.parts }
    {
        self.core.serves_right_device();
    }
}

fn ticket_or(outcome: Result<Ticket, PortFault>) -> Answered
    ensures { result ≡ ticket_reply outcome }
{
    match outcome {
        Ok(ticket) => Answered::Ticket(ticket),
        Err(fault) => Answered::Refused(fault),
    }
}

fn nothing_or(outcome: Result<(), PortFault>) -> Answered
    ensures { result ≡ nothing_reply outcome }
{
    match outcome {
        Ok(()) => Answered::Nothing,
        Err(fault) => Answered::Refused(fault),
    }
}

fn outcome_or(outcome: Result<Outcome, PortFault>) -> Answered
    ensures { result ≡ outcome_reply outcome }
{
    match outcome {
        Ok(outcome) => Answered::Outcome(outcome),
        Err(fault) => Answered::Refused(fault),
    }
}

fn event_or(event: Result<Event, PortFault>) -> Answered
    ensures { result ≡ event_reply event }
{
    match event {
        Ok(event) => Answered::Event(event),
        Err(fault) => Answered::Refused(fault),
    }
}

fn archived_or<A: Handle>(entries: Result<Journal<A>, PortFault>) -> Answered
    requires within { IfOk entries (λ journal. length journal.items ≤ 1000000) }
    ensures { result
        ≡ result_reply (λ journal. answered.Archived (length journal.items)) entries }
{
    match entries {
        Ok(journal) => Answered::Archived(journal.len() as u32),
        Err(fault) => Answered::Refused(fault),
    }
}

fn drained_or<A: Handle>(restated: usize, entries: Result<Journal<A>, PortFault>) -> Answered
    requires within { IfOk entries (λ journal. length journal.items ≤ 1000000) }
    requires part { IfOk entries (λ journal. restated ≤ length journal.items) }
    ensures { result
        ≡ result_reply (λ journal. drained_answer (length journal.items) restated) entries }
{
    match entries {
        Ok(journal) => Answered::Drained(DrainCounts {
            entries: journal.len() as u32,
            restated: restated as u32,
        }),
        Err(fault) => Answered::Refused(fault),
    }
}
