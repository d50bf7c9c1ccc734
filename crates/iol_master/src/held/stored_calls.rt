//! The calls of a port with Data Storage under a master's lock.
ghost use Rattle.std.specs.Prelude.{◌≡◌, ◌<◌, ◌≤◌, ◌+◌, [], None, Some, Err, false, length, is_ok, IfOk, OnOk, OnErr, IsTrue};
ghost use Rattle.iol_book.specs.Drained.{LacksRoomFor};
ghost use Rattle.std.specs.Result.{result_err};
ghost use Rattle.iol_port.specs.Called.{Collects, Withdraws, Cancels, Abandons, Restarts, ClearsOutput};
ghost use Rattle.iol_port.specs.Called.{Expects, SetsCycle, TakesEvent, Archives, Drains, DrainsInto, core_call};
ghost use Rattle.iol_storage.specs.Stored.{saved_refusal, storage_saved, load_refusal, storage_loaded, storage_released, block_answer, storage_with_block};
ghost use Rattle.iol_storage.specs.Stored.{block_collected, storage_behind_block, is_own, storage_behind_event};
ghost use Rattle.iol_storage.specs.StoredPort.{stored_call, stored_forward, unknown_ticket, SetsStoredOutput, tickets_without};
ghost use Rattle.iol_master.specs.Line.{stored_facts};
ghost use Rattle.iol_master.specs.Wired.{IsWiredTurn};

use crate::held::Held;
use crate::wired::Wired;
use iol_book::{Journal, Outcome, Ticket};
use iol_cell::Handle;
use iol_event::Event;
use iol_image::Image;
use iol_link::Wire;
use iol_page::{CycleTime, Identity};
use iol_port::{Counting, PortFault};
use iol_storage::{
    BlockTicket, DownloadResult, Keep, Objects, Set, SetNumber, StoredFault, StoredPort,
};
use std::ops::Deref;
use std::sync::ledger::Ledger;

/// A turn, sets and blocks.
impl<W: Wire, K: Ledger, A: Handle> Held<W, K, A, Wired<W, StoredPort<A>>> {
    /// One turn, as [`Wired::turn`].
    pub fn turn(&mut self)
        ensures { IsWiredTurn W.facts stored_facts self.old self.new }
    {
        self.port.turn();
    }

    /// As [`StoredPort::saved`].
    pub fn saved(&mut self, number: SetNumber) -> Result<(), StoredFault>
        ensures answer { result_err result ≡ saved_refusal self.old.port.storage number }
        ensures ok { OnOk result (self.new.port
            ≡ record self.old.port { storage = storage_saved self.old.port.storage }) }
        ensures err { OnErr result (self.new.port ≡ self.old.port) }
        ensures wire { self.new.wire ≡ self.old.wire }
    {
        self.port.port.saved(number)
    }

    /// As [`StoredPort::load`].
    pub fn load(&mut self, set: Set) -> Result<(), StoredFault>
        ensures answer { result_err result ≡ load_refusal self.old.port.storage (Some set) }
        ensures ok { OnOk result (self.new.port ≡ record self.old.port {
          storage = storage_loaded self.old.port.storage (Some set);
        }) }
        ensures err { OnErr result (self.new.port ≡ self.old.port) }
        ensures wire { self.new.wire ≡ self.old.wire }
    {
        self.port.port.load(set)
    }

    /// As [`StoredPort::forget`].
    pub fn forget(&mut self) -> Result<(), StoredFault>
        ensures answer { result_err result ≡ load_refusal self.old.port.storage None }
        ensures ok { OnOk result (self.new.port
            ≡ record self.old.port { storage = storage_loaded self.old.port.storage None }) }
        ensures err { OnErr result (self.new.port ≡ self.old.port) }
        ensures wire { self.new.wire ≡ self.old.wire }
    {
        self.port.port.forget()
    }

    /// As [`StoredPort::release`].
    pub fn release(&mut self)
        ensures port { self.new.port
            ≡ record self.old.port { storage = storage_released self.old.port.storage } }
        ensures wire { self.new.wire ≡ self.old.wire }
    {
        self.port.port.release();
    }

    /// As [`StoredPort::submit_block`].
    pub fn submit_block(
        &mut self,
        writes: &mut Objects,
        keep: Keep,
    ) -> Result<BlockTicket, StoredFault>
        ensures answer { result ≡ block_answer self.old.port.storage writes.old }
        ensures block { OnOk result (self.new.port ≡ record self.old.port {
          storage = storage_with_block self.old.port.storage writes.old keep;
        }) }
        ensures taken { OnOk result (writes.new ≡ []) }
        ensures err { OnErr result ((self.new.port ≡ self.old.port) × (writes.new ≡ writes.old)) }
        ensures wire { self.new.wire ≡ self.old.wire }
    {
        self.port.port.submit_block(writes, keep)
    }

    /// As [`StoredPort::collect_block`].
    pub fn collect_block(&mut self, block: BlockTicket) -> Result<DownloadResult, StoredFault>
        ensures answer { result ≡ block_collected self.old.port.storage block }
        ensures block { self.new.port ≡ record self.old.port {
          storage = storage_behind_block self.old.port.storage block;
        } }
        ensures wire { self.new.wire ≡ self.old.wire }
    {
        self.port.port.collect_block(block)
    }
}

/// Requests.
impl<W: Wire, K: Ledger, A: Handle> Held<W, K, A, Wired<W, StoredPort<A>>> {
    /// As [`StoredPort::collect`].
    pub fn collect(&mut self, ticket: Ticket) -> Result<Outcome, PortFault>
        ensures own { IsTrue (is_own self.old.port.storage ticket)
            → (result ≡ Err unknown_ticket) × (self.new.port ≡ self.old.port) }
        ensures is { is_own self.old.port.storage ticket ≡ false
            → Collects (stored_call self.old.port self.new.port) ticket result }
        ensures tickets { self.new.port.tickets
            ≡ tickets_without (is_ok result) self.old.port.tickets }
        ensures wire { self.new.wire ≡ self.old.wire }
    {
        self.port.port.collect(ticket)
    }

    /// As [`StoredPort::withdraw`].
    pub fn withdraw(&mut self, ticket: Ticket) -> Result<(), PortFault>
        ensures own { IsTrue (is_own self.old.port.storage ticket)
            → (result ≡ Err unknown_ticket) × (self.new.port ≡ self.old.port) }
        ensures is { is_own self.old.port.storage ticket ≡ false
            → Withdraws (stored_call self.old.port self.new.port) ticket result }
        ensures tickets { self.new.port.tickets ≡ self.old.port.tickets }
        ensures wire { self.new.wire ≡ self.old.wire }
    {
        self.port.port.withdraw(ticket)
    }

    /// As [`StoredPort::cancel`].
    pub fn cancel(&mut self, ticket: Ticket) -> Result<(), PortFault>
        ensures own { IsTrue (is_own self.old.port.storage ticket)
            → (result ≡ Err unknown_ticket) × (self.new.port ≡ self.old.port) }
        ensures is { is_own self.old.port.storage ticket ≡ false
            → Cancels (stored_call self.old.port self.new.port) ticket result }
        ensures tickets { self.new.port.tickets ≡ self.old.port.tickets }
        ensures wire { self.new.wire ≡ self.old.wire }
    {
        self.port.port.cancel(ticket)
    }

    /// As [`StoredPort::abandon`].
    pub fn abandon(&mut self, ticket: Ticket) -> Result<(), PortFault>
        ensures own { IsTrue (is_own self.old.port.storage ticket)
            → (result ≡ Err unknown_ticket) × (self.new.port ≡ self.old.port) }
        ensures is { is_own self.old.port.storage ticket ≡ false
            → Abandons (stored_call self.old.port self.new.port) ticket result }
        ensures tickets { self.new.port.tickets
            ≡ tickets_without (is_ok result) self.old.port.tickets }
        ensures wire { self.new.wire ≡ self.old.wire }
    {
        self.port.port.abandon(ticket)
    }
}

/// What else clients want of the device, and what they take.
impl<W: Wire, K: Ledger, A: Handle> Held<W, K, A, Wired<W, StoredPort<A>>> {
    /// As [`StoredPort::set_output`].
    pub fn set_output(&mut self, image: &Image) -> Result<(), PortFault>
        ensures sets { SetsStoredOutput image.now result self.old.port self.new.port }
        ensures wire { self.new.wire ≡ self.old.wire }
    {
        self.port.port.set_output(image)
    }

    /// As [`StoredPort::clear_output`].
    pub fn clear_output(&mut self)
        ensures call { ClearsOutput (core_call self.old.port.port self.new.port.port) }
        ensures rest { self.new.port
            ≡ record self.old.port { port = self.new.port.port; output = None } }
        ensures wire { self.new.wire ≡ self.old.wire }
    {
        self.port.port.clear_output();
    }

    /// As [`StoredPort::take_event`].
    pub fn take_event(&mut self) -> Result<Event, PortFault>
        ensures call { TakesEvent (core_call self.old.port.port self.new.port.port) result }
        ensures rest { self.new.port ≡ record self.old.port {
          port = self.new.port.port;
          storage = storage_behind_event self.old.port.storage result;
        } }
        ensures wire { self.new.wire ≡ self.old.wire }
    {
        self.port.port.take_event()
    }

    /// As [`StoredPort::restart`].
    pub fn restart(&mut self)
        ensures is { Restarts (stored_forward self.old.port self.new.port) }
        ensures wire { self.new.wire ≡ self.old.wire }
    {
        self.port.port.restart();
    }

    /// As [`StoredPort::expect`].
    pub fn expect(&mut self, identity: Identity) -> Counting
        ensures is { Expects (stored_forward self.old.port self.new.port) (Some identity) result }
        ensures wire { self.new.wire ≡ self.old.wire }
    {
        self.port.port.expect(identity)
    }

    /// As [`StoredPort::expect_any`].
    pub fn expect_any(&mut self) -> Counting
        ensures is { Expects (stored_forward self.old.port self.new.port) None result }
        ensures wire { self.new.wire ≡ self.old.wire }
    {
        self.port.port.expect_any()
    }

    /// As [`StoredPort::set_cycle`].
    pub fn set_cycle(&mut self, cycle: Option<CycleTime>) -> Counting
        ensures is { SetsCycle (stored_forward self.old.port self.new.port) cycle result }
        ensures wire { self.new.wire ≡ self.old.wire }
    {
        self.port.port.set_cycle(cycle)
    }

    /// As [`StoredPort::archive`].
    pub fn archive(&mut self) -> Result<Journal<A>, PortFault>
        ensures is { Archives (stored_forward self.old.port self.new.port)
            (λ entries. entries.items) result }
        ensures within { IfOk result (λ entries. length entries.items ≤ 1000000) }
        ensures wire { self.new.wire ≡ self.old.wire }
    {
        self.port.port.archive()
    }

    /// As [`StoredPort::drain`].
    pub fn drain(&mut self) -> Result<Journal<A>, PortFault>
        ensures is { Drains (stored_forward self.old.port self.new.port)
            (λ entries. entries.items) result }
        ensures within { IfOk result (λ entries. length entries.items ≤ 1000000) }
        ensures wire { self.new.wire ≡ self.old.wire }
    {
        self.port.port.drain()
    }

    /// As [`StoredPort::drain_into`].
    pub fn drain_into(&mut self, list: &mut Journal<A>) -> Result<usize, PortFault>
        ensures is { DrainsInto (stored_forward self.old.port self.new.port)
            list.old.items list.new.items result }
        ensures full { OnErr result (LacksRoomFor self.old.port.port.book.state list.old) }
        ensures wire { self.new.wire ≡ self.old.wire }
    {
        self.port.port.drain_into(list)
    }
}

/// The port with Data Storage itself, for the calls that only look.
impl<W: Wire, K: Ledger, A: Handle> Deref for Held<W, K, A, Wired<W, StoredPort<A>>> {
    ghost use Rattle.std.specs.Prelude.{◌≡◌};

    type Target = StoredPort<A>;

    ghost deref_gives = { λ held port. port ≡ held.port };

    fn deref(&self) -> &StoredPort<A> {
        &self.port.port
    }
}
