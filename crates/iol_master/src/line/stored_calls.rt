//! The calls of a line's port with Data Storage.
ghost use Rattle.std.specs.Prelude.{◌≡◌, ◌<◌, ◌≤◌, ◌+◌, [], None, Some, Err, false, length, is_ok, IfNone, IfSome, IfOk, IfErr, OnOk, OnErr, IsTrue};
ghost use Rattle.iol_book.specs.Drained.{LacksRoomFor};
ghost use Rattle.std.specs.Result.{result_err};
ghost use Rattle.iol_book.specs.BookModel.{in_place};
ghost use Rattle.iol_port.specs.Called.{Submits, SubmitsUrgent, Collects, Withdraws, Cancels, Abandons, ClearsOutput};
ghost use Rattle.iol_port.specs.Called.{Expects, SetsCycle, TakesEvent, Archives, Drains, DrainsInto, core_call};
ghost use Rattle.iol_storage.specs.Stored.{saved_refusal, storage_saved, load_refusal, storage_loaded, storage_released, block_answer, storage_with_block};
ghost use Rattle.iol_storage.specs.Stored.{block_collected, storage_behind_block, is_own, storage_behind_event};
ghost use Rattle.iol_storage.specs.StoredPort.{stored_call, stored_forward, client_refusal, unknown_ticket, PortAnswers, SetsStoredOutput};
ghost use Rattle.iol_storage.specs.StoredPort.{tickets_behind_submit, tickets_without};

use crate::line::{LineCore, LinePort};
use iol_app::Transmission;
use iol_book::{Journal, Outcome, Ticket};
use iol_event::Event;
use iol_image::Image;
use iol_isdu::Request;
use iol_link::Rate;
use iol_mseq::Message;
use iol_page::{CycleTime, Identity};
use iol_port::{AwaitedAnswer, Counting, PortFault};
use iol_storage::{
    BlockTicket, DownloadResult, Keep, Objects, Set, SetNumber, StoredFault, StoredPort,
};
use std::alloc::Allocator;
use std::sync::ledger::Ledger;

impl<A: Allocator + Copy> LineCore for StoredPort<A> {
    ghost use Rattle.iol_master.specs.Line.{stored_facts};

    ghost facts = { stored_facts };

    fn awaits(&self) -> AwaitedAnswer {
        self.awaits()
    }

    fn send(&mut self) -> Transmission {
        self.send()
    }

    fn receive(&mut self, received: &Option<Message>) {
        self.receive(received);
    }

    fn receive_wake(&mut self, rate: Option<Rate>) {
        self.receive_wake(rate);
    }

    fn restart(&mut self) {
        self.restart();
    }
}

/// Sets and blocks.
impl<K: Ledger, A: Allocator + Copy> LinePort<K, StoredPort<A>> {
    /// As [`StoredPort::saved`].
    pub fn saved(&mut self, number: SetNumber) -> Result<(), StoredFault>
        ensures answer { result_err result ≡ saved_refusal self.old.port.storage number }
        ensures ok { OnOk result (self.new.port
            ≡ record self.old.port { storage = storage_saved self.old.port.storage }) }
        ensures err { OnErr result (self.new.port ≡ self.old.port) }
        ensures only_port { self.new ≡ record self.old { port = self.new.port } }
    {
        self.port.saved(number)
    }

    /// As [`StoredPort::load`].
    pub fn load(&mut self, set: Set) -> Result<(), StoredFault>
        ensures answer { result_err result ≡ load_refusal self.old.port.storage (Some set) }
        ensures ok { OnOk result (self.new.port ≡ record self.old.port {
          storage = storage_loaded self.old.port.storage (Some set);
        }) }
        ensures err { OnErr result (self.new.port ≡ self.old.port) }
        ensures only_port { self.new ≡ record self.old { port = self.new.port } }
    {
        self.port.load(set)
    }

    /// As [`StoredPort::forget`].
    pub fn forget(&mut self) -> Result<(), StoredFault>
        ensures answer { result_err result ≡ load_refusal self.old.port.storage None }
        ensures ok { OnOk result (self.new.port
            ≡ record self.old.port { storage = storage_loaded self.old.port.storage None }) }
        ensures err { OnErr result (self.new.port ≡ self.old.port) }
        ensures only_port { self.new ≡ record self.old { port = self.new.port } }
    {
        self.port.forget()
    }

    /// As [`StoredPort::release`].
    pub fn release(&mut self)
        ensures port { self.new.port
            ≡ record self.old.port { storage = storage_released self.old.port.storage } }
        ensures only_port { self.new ≡ record self.old { port = self.new.port } }
    {
        self.port.release();
    }

    /// As [`StoredPort::submit_block`].
    pub fn submit_block(
        &mut self,
        writes: &mut Objects,
        keep: Keep,
    ) -> Result<BlockTicket, StoredFault>
        ensures answer { result ≡ block_answer self.old.port.storage writes.old }
        ensures block { OnOk result (self.new.port ≡ record self.old.port {
          storage = storage_with_block self.old.port.storage writes.old keep;
        }) }
        ensures taken { OnOk result (writes.new ≡ []) }
        ensures err { OnErr result ((self.new.port ≡ self.old.port) × (writes.new ≡ writes.old)) }
        ensures only_port { self.new ≡ record self.old { port = self.new.port } }
    {
        self.port.submit_block(writes, keep)
    }

    /// As [`StoredPort::collect_block`].
    pub fn collect_block(&mut self, block: BlockTicket) -> Result<DownloadResult, StoredFault>
        ensures answer { result ≡ block_collected self.old.port.storage block }
        ensures block { self.new.port ≡ record self.old.port {
          storage = storage_behind_block self.old.port.storage block;
        } }
        ensures only_port { self.new ≡ record self.old { port = self.new.port } }
    {
        self.port.collect_block(block)
    }
}

/// Requests.
impl<K: Ledger, A: Allocator + Copy> LinePort<K, StoredPort<A>> {
    /// As [`StoredPort::submit`].
    pub fn submit(&mut self, request: Request) -> Result<Ticket, StoredFault>
        ensures denied { IfSome (client_refusal self.old.port request) (λ why.
            (result ≡ Err why) × (self.new.port ≡ self.old.port)) }
        ensures is { IfNone (client_refusal self.old.port request) (PortAnswers result
            (Submits (stored_call self.old.port self.new.port) request)) }
        ensures tickets { self.new.port.tickets
            ≡ tickets_behind_submit self.old.port.tickets result }
        ensures only_port { self.new ≡ record self.old { port = self.new.port } }
    {
        self.port.submit(request)
    }

    /// As [`StoredPort::submit_urgent`].
    pub fn submit_urgent(&mut self, request: Request) -> Result<Ticket, StoredFault>
        ensures denied { IfSome (client_refusal self.old.port request) (λ why.
            (result ≡ Err why) × (self.new.port ≡ self.old.port)) }
        ensures is { IfNone (client_refusal self.old.port request) (PortAnswers result
            (SubmitsUrgent (stored_call self.old.port self.new.port) request)) }
        ensures tickets { self.new.port.tickets
            ≡ tickets_behind_submit self.old.port.tickets result }
        ensures only_port { self.new ≡ record self.old { port = self.new.port } }
    {
        self.port.submit_urgent(request)
    }

    /// As [`StoredPort::collect`].
    pub fn collect(&mut self, ticket: Ticket) -> Result<Outcome, PortFault>
        ensures own { IsTrue (is_own self.old.port.storage ticket)
            → (result ≡ Err unknown_ticket) × (self.new.port ≡ self.old.port) }
        ensures is { is_own self.old.port.storage ticket ≡ false
            → Collects (stored_call self.old.port self.new.port) ticket result }
        ensures tickets { self.new.port.tickets
            ≡ tickets_without (is_ok result) self.old.port.tickets }
        ensures only_port { self.new ≡ record self.old { port = self.new.port } }
    {
        self.port.collect(ticket)
    }

    /// As [`StoredPort::collect_into`].
    pub fn collect_into(&mut self, ticket: Ticket, into: &mut Outcome) -> Result<(), PortFault>
        ensures own { IsTrue (is_own self.old.port.storage ticket)
            → (result ≡ Err unknown_ticket) × (self.new.port ≡ self.old.port) }
        ensures is { is_own self.old.port.storage ticket ≡ false
            → Collects (stored_call self.old.port self.new.port) ticket (in_place into.new result) }
        ensures unchanged { IfErr result (λ _. into.new ≡ into.old) }
        ensures tickets { self.new.port.tickets
            ≡ tickets_without (is_ok result) self.old.port.tickets }
        ensures only_port { self.new ≡ record self.old { port = self.new.port } }
    {
        self.port.collect_into(ticket, into)
    }

    /// As [`StoredPort::withdraw`].
    pub fn withdraw(&mut self, ticket: Ticket) -> Result<(), PortFault>
        ensures own { IsTrue (is_own self.old.port.storage ticket)
            → (result ≡ Err unknown_ticket) × (self.new.port ≡ self.old.port) }
        ensures is { is_own self.old.port.storage ticket ≡ false
            → Withdraws (stored_call self.old.port self.new.port) ticket result }
        ensures tickets { self.new.port.tickets ≡ self.old.port.tickets }
        ensures only_port { self.new ≡ record self.old { port = self.new.port } }
    {
        self.port.withdraw(ticket)
    }

    /// As [`StoredPort::cancel`].
    pub fn cancel(&mut self, ticket: Ticket) -> Result<(), PortFault>
        ensures own { IsTrue (is_own self.old.port.storage ticket)
            → (result ≡ Err unknown_ticket) × (self.new.port ≡ self.old.port) }
        ensures is { is_own self.old.port.storage ticket ≡ false
            → Cancels (stored_call self.old.port self.new.port) ticket result }
        ensures tickets { self.new.port.tickets ≡ self.old.port.tickets }
        ensures only_port { self.new ≡ record self.old { port = self.new.port } }
    {
        self.port.cancel(ticket)
    }

    /// As [`StoredPort::abandon`].
    pub fn abandon(&mut self, ticket: Ticket) -> Result<(), PortFault>
        ensures own { IsTrue (is_own self.old.port.storage ticket)
            → (result ≡ Err unknown_ticket) × (self.new.port ≡ self.old.port) }
        ensures is { is_own self.old.port.storage ticket ≡ false
            → Abandons (stored_call self.old.port self.new.port) ticket result }
        ensures tickets { self.new.port.tickets
            ≡ tickets_without (is_ok result) self.old.port.tickets }
        ensures only_port { self.new ≡ record self.old { port = self.new.port } }
    {
        self.port.abandon(ticket)
    }
}

/// What else clients want of the device, and what they take.
impl<K: Ledger, A: Allocator + Copy> LinePort<K, StoredPort<A>> {
    /// As [`StoredPort::set_output`].
    pub fn set_output(&mut self, image: &Image) -> Result<(), PortFault>
        ensures sets { SetsStoredOutput image.now result self.old.port self.new.port }
        ensures only_port { self.new ≡ record self.old { port = self.new.port } }
    {
        self.port.set_output(image)
    }

    /// As [`StoredPort::clear_output`].
    pub fn clear_output(&mut self)
        ensures call { ClearsOutput (core_call self.old.port.port self.new.port.port) }
        ensures rest { self.new.port
            ≡ record self.old.port { port = self.new.port.port; output = None } }
        ensures only_port { self.new ≡ record self.old { port = self.new.port } }
    {
        self.port.clear_output();
    }

    /// As [`StoredPort::take_event`].
    pub fn take_event(&mut self) -> Result<Event, PortFault>
        ensures call { TakesEvent (core_call self.old.port.port self.new.port.port) result }
        ensures rest { self.new.port ≡ record self.old.port {
          port = self.new.port.port;
          storage = storage_behind_event self.old.port.storage result;
        } }
        ensures only_port { self.new ≡ record self.old { port = self.new.port } }
    {
        self.port.take_event()
    }

    /// As [`StoredPort::expect`].
    pub fn expect(&mut self, identity: Identity) -> Counting
        ensures is { Expects (stored_forward self.old.port self.new.port) (Some identity) result }
        ensures only_port { self.new ≡ record self.old { port = self.new.port } }
    {
        self.port.expect(identity)
    }

    /// As [`StoredPort::expect_any`].
    pub fn expect_any(&mut self) -> Counting
        ensures is { Expects (stored_forward self.old.port self.new.port) None result }
        ensures only_port { self.new ≡ record self.old { port = self.new.port } }
    {
        self.port.expect_any()
    }

    /// As [`StoredPort::set_cycle`].
    pub fn set_cycle(&mut self, cycle: Option<CycleTime>) -> Counting
        ensures is { SetsCycle (stored_forward self.old.port self.new.port) cycle result }
        ensures only_port { self.new ≡ record self.old { port = self.new.port } }
    {
        self.port.set_cycle(cycle)
    }

    /// As [`StoredPort::archive`].
    pub fn archive(&mut self) -> Result<Journal<A>, PortFault>
        ensures is { Archives (stored_forward self.old.port self.new.port)
            (λ entries. entries.items) result }
        ensures within { IfOk result (λ entries. length entries.items ≤ 1000000) }
        ensures only_port { self.new ≡ record self.old { port = self.new.port } }
    {
        self.port.archive()
    }

    /// As [`StoredPort::drain`].
    pub fn drain(&mut self) -> Result<Journal<A>, PortFault>
        ensures is { Drains (stored_forward self.old.port self.new.port)
            (λ entries. entries.items) result }
        ensures within { IfOk result (λ entries. length entries.items ≤ 1000000) }
        ensures only_port { self.new ≡ record self.old { port = self.new.port } }
    {
        self.port.drain()
    }

    /// As [`StoredPort::drain_into`].
    pub fn drain_into(&mut self, list: &mut Journal<A>) -> Result<usize, PortFault>
        ensures is { DrainsInto (stored_forward self.old.port self.new.port)
            list.old.items list.new.items result }
        ensures full { OnErr result (LacksRoomFor self.old.port.port.book.state list.old) }
        ensures only_port { self.new ≡ record self.old { port = self.new.port } }
    {
        self.port.drain_into(list)
    }
}
