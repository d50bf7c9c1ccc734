//! The calls of a line's port without Data Storage.
ghost use Rattle.std.specs.Prelude.{◌≡◌, ◌<◌, ◌≤◌, ◌+◌, None, Some, IfOk, IfErr, OnErr, length};
ghost use Rattle.iol_book.specs.Drained.{LacksRoomFor};
ghost use Rattle.iol_book.specs.BookModel.{in_place};
ghost use Rattle.iol_book.specs.declared.fault.BookFault.TheVariants.{OutOfMemory};
ghost use Rattle.iol_port.specs.declared.fault.PortFault.TheVariants as fault;
ghost use Rattle.iol_port.specs.Called.{Submits, SubmitsUrgent, Collects, Withdraws, Cancels, Abandons, SetsOutput, ClearsOutput};
ghost use Rattle.iol_port.specs.Called.{Expects, SetsCycle, TakesEvent, Archives, Drains, DrainsInto};
ghost use Rattle.iol_master.specs.Line.{core_line_call};

use crate::line::{LineCore, LinePort};
use iol_app::Transmission;
use iol_book::{Journal, Outcome, Ticket};
use iol_event::Event;
use iol_image::Image;
use iol_isdu::Request;
use iol_link::Rate;
use iol_mseq::Message;
use iol_page::{CycleTime, Identity};
use iol_port::{AwaitedAnswer, Counting, PortCore, PortFault};
use std::alloc::Allocator;
use std::sync::ledger::Ledger;

impl<A: Allocator + Copy> LineCore for PortCore<A> {
    ghost use Rattle.iol_master.specs.Line.{core_facts};

    ghost facts = { core_facts };

    fn awaits(&self) -> AwaitedAnswer {
        self.awaits()
    }

    fn send(&mut self) -> Transmission {
        self.send()
    }

    fn receive(&mut self, received: &Option<Message>) {
        self.receive(received);
    }

    fn receive_wake(&mut self, rate: Option<Rate>) {
        self.receive_wake(rate);
    }

    fn restart(&mut self) {
        self.restart();
    }
}

impl<K: Ledger, A: Allocator + Copy> LinePort<K, PortCore<A>> {
    /// As [`PortCore::submit`].
    pub fn submit(&mut self, request: Request) -> Result<Ticket, PortFault>
        ensures is { Submits (core_line_call self.old self.new) request result }
        ensures lacks { IfErr result (λ e. e ≡ fault.Book OutOfMemory
            → self.old.port.book.room ≡ 0) }
    {
        self.port.submit(request)
    }

    /// As [`PortCore::submit_urgent`].
    pub fn submit_urgent(&mut self, request: Request) -> Result<Ticket, PortFault>
        ensures is { SubmitsUrgent (core_line_call self.old self.new) request result }
        ensures lacks { IfErr result (λ e. e ≡ fault.Book OutOfMemory
            → self.old.port.book.room ≡ 0) }
    {
        self.port.submit_urgent(request)
    }

    /// As [`PortCore::collect`].
    pub fn collect(&mut self, ticket: Ticket) -> Result<Outcome, PortFault>
        ensures { Collects (core_line_call self.old self.new) ticket result }
    {
        self.port.collect(ticket)
    }

    /// As [`PortCore::collect_into`].
    pub fn collect_into(&mut self, ticket: Ticket, into: &mut Outcome) -> Result<(), PortFault>
        ensures is { Collects (core_line_call self.old self.new) ticket (in_place into.new result) }
        ensures unchanged { IfErr result (λ _. into.new ≡ into.old) }
    {
        self.port.collect_into(ticket, into)
    }

    /// As [`PortCore::withdraw`].
    pub fn withdraw(&mut self, ticket: Ticket) -> Result<(), PortFault>
        ensures { Withdraws (core_line_call self.old self.new) ticket result }
    {
        self.port.withdraw(ticket)
    }

    /// As [`PortCore::cancel`].
    pub fn cancel(&mut self, ticket: Ticket) -> Result<(), PortFault>
        ensures { Cancels (core_line_call self.old self.new) ticket result }
    {
        self.port.cancel(ticket)
    }

    /// As [`PortCore::abandon`].
    pub fn abandon(&mut self, ticket: Ticket) -> Result<(), PortFault>
        ensures { Abandons (core_line_call self.old self.new) ticket result }
    {
        self.port.abandon(ticket)
    }

    /// As [`PortCore::set_output`].
    pub fn set_output(&mut self, image: &Image) -> Result<(), PortFault>
        ensures { SetsOutput (core_line_call self.old self.new) image.now result }
    {
        self.port.set_output(image)
    }

    /// As [`PortCore::clear_output`].
    pub fn clear_output(&mut self)
        ensures { ClearsOutput (core_line_call self.old self.new) }
    {
        self.port.clear_output();
    }

    /// As [`PortCore::expect`].
    pub fn expect(&mut self, identity: Identity) -> Counting
        ensures { Expects (core_line_call self.old self.new) (Some identity) result }
    {
        self.port.expect(identity)
    }

    /// As [`PortCore::expect_any`].
    pub fn expect_any(&mut self) -> Counting
        ensures { Expects (core_line_call self.old self.new) None result }
    {
        self.port.expect_any()
    }

    /// As [`PortCore::set_cycle`].
    pub fn set_cycle(&mut self, cycle: Option<CycleTime>) -> Counting
        ensures { SetsCycle (core_line_call self.old self.new) cycle result }
    {
        self.port.set_cycle(cycle)
    }

    /// As [`PortCore::take_event`].
    pub fn take_event(&mut self) -> Result<Event, PortFault>
        ensures { TakesEvent (core_line_call self.old self.new) result }
    {
        self.port.take_event()
    }

    /// As [`PortCore::archive`].
    pub fn archive(&mut self) -> Result<Journal<A>, PortFault>
        ensures is { Archives (core_line_call self.old self.new) (λ entries. entries.items) result }
        ensures within { IfOk result (λ entries. length entries.items ≤ 1000000) }
    {
        self.port.archive()
    }

    /// As [`PortCore::drain`].
    pub fn drain(&mut self) -> Result<Journal<A>, PortFault>
        ensures is { Drains (core_line_call self.old self.new) (λ entries. entries.items) result }
        ensures within { IfOk result (λ entries. length entries.items ≤ 1000000) }
    {
        self.port.drain()
    }

    /// As [`PortCore::drain_into`].
    pub fn drain_into(&mut self, list: &mut Journal<A>) -> Result<usize, PortFault>
        ensures is { DrainsInto (core_line_call self.old self.new)
            list.old.items list.new.items result }
        ensures full { OnErr result (LacksRoomFor self.old.port.book.state list.old) }
    {
        self.port.drain_into(list)
    }
}
