//! A port without a wire, whose line is claimed to be honest.
#![tactic(auto, using(crate::proofs::HonestRuns::called))]

ghost use Rattle.std.specs.Prelude.{◌≡◌, ◌<◌, ◌≤◌, ◌+◌, None, Some, IfOk, IfErr, OnErr, IsTrue, length, is_some};
ghost use Rattle.iol_book.specs.Drained.{LacksRoomFor};
ghost use Rattle.iol_book.specs.BookModel.{in_place};
ghost use Rattle.iol_far.specs.Octets.{octets_in};
ghost use Rattle.iol_far.specs.Far.{Far};
ghost use Rattle.iol_link.specs.Honest.{HonestWake};
ghost use Rattle.iol_book.specs.declared.fault.BookFault.TheVariants.{OutOfMemory};
ghost use Rattle.iol_book.specs.BookModel.{IsReplayed};
ghost use Rattle.iol_app.specs.Pieces.{IsAskedOut};
ghost use Rattle.iol_port.specs.declared.fault.PortFault.TheVariants as fault;
ghost use Rattle.iol_port.specs.declared.awaited.AwaitedAnswer.{AwaitedAnswer};
ghost use Rattle.iol_port.specs.Asks.{asks_of};
ghost use Rattle.iol_port.specs.RightDevice.{IsForRightDevice};
ghost use Rattle.iol_port.specs.View.{IsNew, IsNewFor};
ghost use Rattle.iol_port.specs.CorePort.{CoreOpens, CoreOpensFor, awaited_answer, PortSendGives, SendDoes};
ghost use Rattle.iol_port.specs.CorePort.{PortReceiveGives, ReceiveDoes, WakeGives, WakeDoes};
ghost use Rattle.iol_port.specs.Called.{Submits, SubmitsUrgent, Collects, Withdraws, Cancels, Abandons, Restarts, SetsOutput};
ghost use Rattle.iol_port.specs.Called.{ClearsOutput, Expects, SetsCycle, TakesEvent, Archives, Drains, DrainsInto};
ghost use Rattle.iol_port.specs.Standing.{LinePosition};

use crate::laws::record_fits_journal;
use crate::place::GhostPlace;
use crate::port_core::PortCore;
use crate::{Counting, PortFault};
use iol_app::Transmission;
use iol_book::{Journal, Limits, Outcome, Ticket};
use iol_event::Event;
use iol_image::Image;
use iol_isdu::Request;
use iol_link::Rate;
use iol_mode::Devices;
use iol_mseq::Message;
use iol_page::{CycleTime, Identity};
use std::alloc::{Allocator, Global};
use std::marker::Model;
use std::snapshot::Snapshot;

/// A port without a wire, and where its line stands: a line that is claimed to lose and
/// never to lie.
///
/// Each call is that of the [`PortCore`] within. Two have a condition more, the premise: what
/// came is what an honest exchange, or wake, could bring, with the device at the far end as it
/// was, and as it is then. So
/// - the octets that were sent reached the device unaltered, or the device took nothing
///   for them: they were lost, or what it heard in their place it didn't accept;
/// - what came back is the device's reply unaltered, or nothing, or octets that are damaged so
///   that it shows: they are well-formed in no layout in which the sent octets are a message;
/// - between two exchanges the device did what a device does by itself, and no one
///   else had the line.
///
/// The checksum of a message has six bits. It shows each single altered bit, but of
/// octets at random one in 64 passes it. Such a damage that looks like another good
/// message is what the premise rules out, and no code can tell.
///
/// Where the line stands, at which device and how long without a reply, is a value that no
/// code holds: whoever says what came names it in his proof. A clause sees it beside the
/// port's parts, and with what the port was opened.
#[derive(Drop)]
pub struct HonestPort<A: Allocator + Copy = Global> {
    core: PortCore<A>,
    at: GhostPlace,
    devices: Snapshot<Devices>,
    limits: Snapshot<Limits>,
    from: GhostPlace,
}

impl<A: Allocator + Copy> Model for HonestPort<A> {
    ghost use Rattle.iol_port.specs.Honestly.{HonestParts, IsRunInPieces};

    ghost Value = { HonestParts };

    ghost view = { λ p. record {
      parts = p.core;
      at = p.at.at;
      devices = p.devices.value;
      limits = p.limits.value;
      from = p.from.at;
    } };

    ghost invariant = { λ p. IsRunInPieces (record {
      parts = p.core;
      at = p.at.at;
      devices = p.devices.value;
      limits = p.limits.value;
      from = p.from.at;
    }) };
}

impl<A: Allocator + Copy> HonestPort<A> {
    ghost use Rattle.iol_port.specs.Honestly.{IsRunInPieces, BeganWell, RecordFitsJournal, BothEndsAreLevel, Moves, honest_call, Exchanges};

    /// A port as [`PortCore::open`] gives it, whose line stands there.
    ///
    /// `at` is a value that no code holds; what names it may speak of `near`.
    pub fn open<T>(alloc: A, limits: &Limits, near: &T) -> Result<HonestPort<A>, PortFault>
        ghost at: { LinePosition }
        ensures parts { IfOk result (λ p. IsNew limits.now p.parts) }
        ensures opens { IfOk result (λ p. CoreOpens limits.now p.parts) }
        ensures stands { IfOk result (λ p. p
            ≡ record {
              parts = p.parts;
              at = at;
              devices = Devices.Own;
              limits = limits.now;
              from = at;
            }) }
        ensures refused { IfErr result (λ e. e ≡ fault.Book OutOfMemory) }
    {
        HonestPort::open_for(alloc, limits, Devices::Own, near)
    }

    /// A port as [`PortCore::open_for`] gives it, whose line stands there.
    pub fn open_for<T>(
        alloc: A,
        limits: &Limits,
        devices: Devices,
        near: &T,
    ) -> Result<HonestPort<A>, PortFault>
        ghost at: { LinePosition }
        ensures parts { IfOk result (λ p. IsNewFor devices limits.now p.parts) }
        ensures opens { IfOk result (λ p. CoreOpensFor devices limits.now p.parts) }
        ensures stands { IfOk result (λ p. p
            ≡ record {
              parts = p.parts;
              at = at;
              devices = devices;
              limits = limits.now;
              from = at;
            }) }
        ensures refused { IfErr result (λ e. e ≡ fault.Book OutOfMemory) }
    {
        let at = GhostPlace::of(near);
        let from = GhostPlace::of(near);
        match PortCore::open_for(alloc, limits, devices) {
            Ok(core) => Ok(HonestPort {
                core,
                at,
                devices: Snapshot::of(&devices),
                limits: Snapshot::of(limits),
                from,
            }),
            Err(fault) => Err(fault),
        }
    }

    /// The port within, for the calls that only look: what it waits for and asks, its image, its
    /// page and its status.
    pub fn core(&self) -> &PortCore<A>
        ensures { result.now ≡ self.now.parts }
    {
        &self.core
    }

    /// As [`PortCore::submit`].
    pub fn submit(&mut self, request: Request) -> Result<Ticket, PortFault>
        ensures is { Submits (honest_call self.old self.new) request result }
        ensures lacks { IfErr result (λ e. e ≡ fault.Book OutOfMemory → self.old.parts.book.room
            ≡ 0) }
    {
        self.core.submit(request)
    }

    /// As [`PortCore::submit_urgent`].
    pub fn submit_urgent(&mut self, request: Request) -> Result<Ticket, PortFault>
        ensures is { SubmitsUrgent (honest_call self.old self.new) request result }
        ensures lacks { IfErr result (λ e. e ≡ fault.Book OutOfMemory → self.old.parts.book.room
            ≡ 0) }
    {
        self.core.submit_urgent(request)
    }

    /// As [`PortCore::collect`].
    pub fn collect(&mut self, ticket: Ticket) -> Result<Outcome, PortFault>
        ensures { Collects (honest_call self.old self.new) ticket result }
    {
        self.core.collect(ticket)
    }

    /// As [`PortCore::collect_into`].
    pub fn collect_into(&mut self, ticket: Ticket, into: &mut Outcome) -> Result<(), PortFault>
        ensures is { Collects (honest_call self.old self.new) ticket (in_place into.new result) }
        ensures unchanged { IfErr result (λ _. into.new ≡ into.old) }
    {
        self.core.collect_into(ticket, into)
    }

    /// As [`PortCore::withdraw`].
    pub fn withdraw(&mut self, ticket: Ticket) -> Result<(), PortFault>
        ensures { Withdraws (honest_call self.old self.new) ticket result }
    {
        self.core.withdraw(ticket)
    }

    /// As [`PortCore::cancel`].
    pub fn cancel(&mut self, ticket: Ticket) -> Result<(), PortFault>
        ensures { Cancels (honest_call self.old self.new) ticket result }
    {
        self.core.cancel(ticket)
    }

    /// As [`PortCore::abandon`].
    pub fn abandon(&mut self, ticket: Ticket) -> Result<(), PortFault>
        ensures { Abandons (honest_call self.old self.new) ticket result }
    {
        self.core.abandon(ticket)
    }

    /// As [`PortCore::restart`]: what was sent has to be answered first.
    pub fn restart(&mut self)
        requires { awaited_answer self.old.parts ≡ AwaitedAnswer.Nothing }
        ensures { Restarts (honest_call self.old self.new) }
    {
        self.core.restart();
    }

    /// As [`PortCore::set_output`].
    pub fn set_output(&mut self, image: &Image) -> Result<(), PortFault>
        ensures { SetsOutput (honest_call self.old self.new) image.now result }
    {
        self.core.set_output(image)
    }

    /// As [`PortCore::clear_output`].
    pub fn clear_output(&mut self)
        ensures { ClearsOutput (honest_call self.old self.new) }
    {
        self.core.clear_output();
    }

    /// As [`PortCore::expect`].
    pub fn expect(&mut self, identity: Identity) -> Counting
        ensures { Expects (honest_call self.old self.new) (Some identity) result }
    {
        self.core.expect(identity)
    }

    /// As [`PortCore::expect_any`].
    pub fn expect_any(&mut self) -> Counting
        ensures { Expects (honest_call self.old self.new) None result }
    {
        self.core.expect_any()
    }

    /// As [`PortCore::set_cycle`].
    pub fn set_cycle(&mut self, cycle: Option<CycleTime>) -> Counting
        ensures { SetsCycle (honest_call self.old self.new) cycle result }
    {
        self.core.set_cycle(cycle)
    }

    /// As [`PortCore::take_event`].
    pub fn take_event(&mut self) -> Result<Event, PortFault>
        ensures { TakesEvent (honest_call self.old self.new) result }
    {
        self.core.take_event()
    }

    /// As [`PortCore::archive`].
    pub fn archive(&mut self) -> Result<Journal<A>, PortFault>
        ensures is { Archives (honest_call self.old self.new) (λ entries. entries.items) result }
        ensures within { IfOk result (λ entries. length entries.items ≤ 1000000) }
    {
        self.core.archive()
    }

    /// As [`PortCore::drain`].
    pub fn drain(&mut self) -> Result<Journal<A>, PortFault>
        ensures is { Drains (honest_call self.old self.new) (λ entries. entries.items) result }
        ensures within { IfOk result (λ entries. length entries.items ≤ 1000000) }
    {
        self.core.drain()
    }

    /// As [`PortCore::drain_into`].
    pub fn drain_into(&mut self, list: &mut Journal<A>) -> Result<usize, PortFault>
        ensures is { DrainsInto (honest_call self.old self.new)
            list.old.items list.new.items result }
        ensures full { OnErr result (LacksRoomFor self.old.parts.book.state list.old) }
    {
        self.core.drain_into(list)
    }

    /// As [`PortCore::restated`].
    pub fn restated(&self) -> usize
        ensures value { result ≡ self.now.parts.book.state.restated }
        ensures within { result ≤ length self.now.parts.book.state.journal }
    {
        self.core.restated()
    }

    /// What goes out, as [`PortCore::send`] gives it.
    pub fn send(&mut self) -> Transmission
        ensures says { IsAskedOut result self.new.parts.core.state }
        ensures asked { result ≡ asks_of self.old.parts }
        ensures repeat { IsTrue self.old.parts.sent → self.new ≡ self.old }
        ensures gives { PortSendGives self.old.parts self.new.parts }
        ensures does { SendDoes self.old.parts self.new.parts }
        ensures moves { Moves self.old self.old.at self.new }
    {
        self.core.send()
    }

    /// Takes what came back, as [`PortCore::receive`] does. The line stands at `after` then, which
    /// may speak of `near`: an honest exchange of what was sent could bring this, and lead there.
    pub fn receive<T>(&mut self, received: &Option<Message>, near: &T)
        ghost after: { LinePosition }
        requires awaited { awaited_answer self.old.parts ≡ AwaitedAnswer.Reply }
        requires premise { Exchanges self.old (octets_in received.now) after }
        ensures gives { PortReceiveGives self.old.parts (octets_in received.now) self.new.parts }
        ensures does { ReceiveDoes self.old.parts (octets_in received.now) self.new.parts }
        ensures moves { Moves self.old after self.new }
    {
        self.core.receive(received);
        self.at = GhostPlace::of(near);
    }

    /// Takes what came of a wake-up request, as [`PortCore::receive_wake`] does. The device is
    /// `after` then, which may speak of `near`: an honest wake could bring this, and leave it so.
    pub fn receive_wake<T>(&mut self, rate: Option<Rate>, near: &T)
        ghost after: { Far }
        requires awaited { awaited_answer self.old.parts ≡ AwaitedAnswer.Wake }
        requires premise { HonestWake self.old.at.far (is_some rate) after }
        ensures gives { WakeGives self.old.parts (is_some rate) self.new.parts }
        ensures does { WakeDoes self.old.parts (is_some rate) self.new.parts }
        ensures moves { Moves self.old (record self.old.at { far = after }) self.new }
    {
        let _ = near;
        self.core.receive_wake(rate);
        self.at = GhostPlace::of(&self.at);
    }

    /// A law of each such port, without code: at every moment the journal says where each ticket
    /// stands; the port is a run, in pieces, of the one that was opened; its record fits the
    /// journal, and between requests both ends are level, if at a port for our own devices the
    /// device sees each pulse of a wake. A request that it was handed before the opening may have
    /// one pair in the record, before all others.
    pub fn keeps_record(&self)
        ensures replayed { IsReplayed self.now.parts.book.state }
        ensures run { IsRunInPieces self.now }
        ensures record_fits { BeganWell self.now → RecordFitsJournal self.now }
        ensures level { BeganWell self.now → BothEndsAreLevel self.now }
    {
        record_fits_journal();
        self.core.keeps_record();
    }

    /// A law of each such port, without code, as [`PortCore::serves_right_device`].
    pub fn serves_right_device(&self)
        ensures { IsForRightDevice self.now.parts }
    {
        self.core.serves_right_device();
    }
}
