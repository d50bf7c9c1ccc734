//! A port with Data Storage and blocks.
ghost use Rattle.std.specs.Prelude.{◌≡◌, ◌<◌, ◌≤◌, ◌+◌, ◌&&◌, not, false, [], length, Some, None, is_some, is_ok, IfSome, IfNone, Ok, Err, IfOk, IfErr, OnOk, OnErr, IsTrue};
ghost use Rattle.iol_book.specs.Drained.{LacksRoomFor};
ghost use Rattle.std.specs.Option.{option_copied, option_map};
ghost use Rattle.std.specs.Result.{result_err};
ghost use Rattle.iol_book.specs.BookModel.{in_place};
ghost use Rattle.iol_far.specs.Octets.{octets_in};
ghost use Rattle.iol_book.specs.BookModel.{is_outstanding};
ghost use Rattle.iol_port.specs.View.{IsNewFor};
ghost use Rattle.iol_port.specs.CorePort.{CoreOpensFor, awaited_answer, PortReceiveGives, ReceiveDoes, WakeGives, WakeDoes};
ghost use Rattle.iol_port.specs.Called.{Submits, SubmitsUrgent, Collects, Withdraws, Cancels, Abandons, Restarts, ClearsOutput, Expects, SetsCycle};
ghost use Rattle.iol_port.specs.Called.{TakesEvent, Archives, Drains, DrainsInto, core_call};
ghost use Rattle.iol_storage.specs.Sets.{is_no_set};
ghost use Rattle.iol_storage.specs.Stored.{storage_at_opening, set_unsaved, number_unsaved, saved_refusal, storage_saved, load_refusal, storage_loaded, storage_released, block_answer, storage_with_block, block_collected, storage_behind_block, is_unserved, is_own, storage_behind_event};
ghost use Rattle.iol_storage.specs.StoredPort.{Tends, StoredSends, session_page, CollectsOf, SubmitsOf, to_submit, ShowsOf, stored_call, stored_forward, client_refusal, unknown_ticket, by_port, PortAnswers, tickets_behind_submit, tickets_without, SetsStoredOutput, image_shown, IsOpeningRefused, places_with_room, answer_to};

use crate::attempt::StorageMode;
use crate::download::{DownloadResult, Keep};
use crate::objects::{Objects, is_owned};
use crate::set::Set;
use crate::stored::fault::StoredFault;
use crate::stored::standing::StorageStanding;
use crate::stored::storage::{BlockTicket, SetNumber, Storage, is_no_set};
use iol_app::{Mode, Transmission};
use iol_book::{BookFault, Journal, Limits, Outcome, Ticket};
use iol_event::Event;
use iol_image::Image;
use iol_isdu::Request;
use iol_link::Rate;
use iol_mode::Devices;
use iol_mseq::Message;
use iol_page::{CycleTime, Identity, Page};
use iol_port::{AwaitedAnswer, Counting, PortCore, PortFault};
use std::alloc::{Allocator, Global};
use std::marker::Model;

/// The answer to whoever asks for a ticket of a job.
const UNKNOWN: PortFault = PortFault::Book(BookFault::UnknownTicket);
/// How many of the outstanding tickets clients may not have: one is that of a job, and one that of
/// a request under way that was abandoned, or of one that was cut off and may still be carried out.
const PLACES_RESERVED: usize = 2;
/// The most entries that a ticket has in the journal.
const ENTRIES: usize = 4;

/// A port of an IO-Link master with Data Storage and blocks of parameters.
///
/// It is a [`PortCore`] with one step more before each message: what came of a job's request is
/// heard, and its next request is submitted. Between the requests of a job no other request is
/// taken, and until Data Storage has come to its end in a session clients' requests wait, no image
/// is handed out, and no output is wanted.
///
/// Its rules are those of JOB and STO.
#[derive(Drop)]
pub struct StoredPort<A: Allocator + Copy = Global> {
    port: PortCore<A>,
    storage: Storage,
    /// The output that clients want.
    output: Option<Image>,
    /// Whether the port within wants it, too.
    shown: bool,
    /// How many tickets clients have submitted and neither collected nor abandoned.
    tickets: usize,
    /// How many of them they may have.
    most: usize,
}

impl<A: Allocator + Copy> Model for StoredPort<A> {
    ghost use Rattle.iol_storage.specs.StoredPort.{StoredParts};

    ghost Value = { StoredParts };

    ghost view = { λ p. record {
      port = p.port;
      storage = p.storage;
      output = p.output;
      shown = p.shown;
      tickets = p.tickets;
      most = p.most;
    } };
}

/// How many tickets may be outstanding so that the journal, where one is kept, has room for the
/// entries of each.
fn places_with_room(limits: &Limits) -> usize
    ensures { result ≡ places_with_room limits.now }
{
    let queue = usize::from(limits.queue.places());
    let entries = limits.journal.entries() as usize;
    if entries != 0 && entries / ENTRIES < queue {
        entries / ENTRIES
    } else {
        queue
    }
}

impl<A: Allocator + Copy> StoredPort<A> {
    /// A port whose link is down, for these devices, with the set that the program has saved, if
    /// it has one.
    ///
    /// Of the tickets that may be outstanding, and for which the journal has room, two are not for
    /// clients: so a job finds room in a journal that was drained.
    ///
    /// Refused by the first of 48 where fewer than three tickets may be outstanding, or a journal
    /// that is kept has fewer than 12 entries, 41 where the set has a value at the Index of Data
    /// Storage, or a SystemCommand, and 24 where there is no memory for the book.
    ///
    /// Rule JOB-6.
    pub fn open(
        alloc: A,
        limits: &Limits,
        devices: Devices,
        mode: StorageMode,
        backup: Option<Set>,
    ) -> Result<StoredPort<A>, StoredFault>
        ensures storage { IfOk result (λ p. p.storage ≡ storage_at_opening mode backup) }
        ensures output { IfOk result (λ p. p.output ≡ None) }
        ensures port { IfOk result (λ p. IsNewFor devices limits.now p.port) }
        ensures opens { IfOk result (λ p. CoreOpensFor devices limits.now p.port) }
        ensures room { IfOk result (λ p. p.most + 2 ≡ places_with_room limits.now) }
        ensures sound { IfOk result (λ _. is_no_set backup ≡ false) }
        ensures refused { IfErr result (λ why. IsOpeningRefused limits.now backup why) }
    {
        let places = places_with_room(limits);
        if places <= PLACES_RESERVED {
            return Err(StoredFault::SmallQueue);
        }
        if is_no_set(&backup) {
            return Err(StoredFault::OwnedIndex);
        }
        let port = match PortCore::open_for(alloc, limits, devices) {
            Ok(port) => port,
            Err(fault) => return Err(StoredFault::Port(fault)),
        };
        Ok(StoredPort {
            port,
            storage: Storage::new(mode, backup),
            output: None,
            shown: false,
            tickets: 0,
            most: places - PLACES_RESERVED,
        })
    }

    /// What goes out, as [`PortCore::send`]. Before it, where nothing is out, the step of a job.
    /// Until it is answered it is given again, and nothing changes.
    #[tactic(auto, using(crate::proofs::StoredAwaits::awaits_out))]
    pub fn send(&mut self) -> Transmission
        ensures is { StoredSends self.old result self.new }
        ensures awaits { awaited_answer self.new.port ≡ answer_to result }
    {
        if let AwaitedAnswer::Nothing = self.port.awaits() {
            self.tend();
        }
        self.port.send()
    }

    /// As [`PortCore::receive`].
    pub fn receive(&mut self, received: &Option<Message>)
        requires { awaited_answer self.old.port ≡ AwaitedAnswer.Reply }
        ensures gives { PortReceiveGives self.old.port (octets_in received.now) self.new.port }
        ensures does { ReceiveDoes self.old.port (octets_in received.now) self.new.port }
        ensures rest { self.new ≡ record self.old { port = self.new.port } }
    {
        self.port.receive(received);
    }

    /// As [`PortCore::receive_wake`].
    pub fn receive_wake(&mut self, rate: Option<Rate>)
        requires { awaited_answer self.old.port ≡ AwaitedAnswer.Wake }
        ensures gives { WakeGives self.old.port (is_some rate) self.new.port }
        ensures does { WakeDoes self.old.port (is_some rate) self.new.port }
        ensures rest { self.new ≡ record self.old { port = self.new.port } }
    {
        self.port.receive_wake(rate);
    }

    /// The step of a job, between two messages.
    fn tend(&mut self)
        ensures { Tends self.old self.new }
    {
        let session = self.session();
        self.collect_asked(&session);
        self.storage.watch(&session);
        self.submit_asked();
        self.port.serve(self.storage.serves());
        self.show_output();
    }

    /// The page of the session, where it has reached OPERATE.
    fn session(&self) -> Option<Page>
        ensures { result ≡ session_page self.now.port }
    {
        match self.port.status().mode {
            Mode::Operate => self.port.page(),
            Mode::Down | Mode::Startup | Mode::Preoperate => None,
        }
    }

    /// Has the job hear what came of its request, if anything has. Out of a session a request that
    /// waits still is withdrawn.
    ///
    /// Rule JOB-7.
    fn collect_asked(&mut self, session: &Option<Page>)
        ensures { CollectsOf self.old.storage.asked (is_some session.now) self.old self.new }
    {
        let Some(ticket) = self.storage.asked else {
            return;
        };
        if session.is_none() {
            let _ = self.port.withdraw(ticket);
        }
        let mut outcome = Outcome::Withdrawn;
        if self.port.collect_into(ticket, &mut outcome).is_ok() {
            self.storage.hear(&outcome);
        }
    }

    /// Submits what the job asks next, once it has heard of what it asked before. Where the port
    /// refuses it, as its journal is full, it is submitted in a later turn.
    ///
    /// Rule JOB-1.
    fn submit_asked(&mut self)
        ensures { SubmitsOf (to_submit self.old.storage) self.old self.new }
    {
        if self.storage.asked.is_some() {
            return;
        }
        let Some(request) = self.storage.asks() else {
            return;
        };
        if let Ok(ticket) = self.port.submit(request) {
            self.storage.asked = Some(ticket);
        }
    }

    /// Has the port want the clients' output where the device is served, and else none.
    fn show_output(&mut self)
        ensures { ShowsOf (is_unserved self.old.storage) self.old.shown self.old.output self.old
            self.new }
    {
        if self.storage.is_unserved() {
            self.port.clear_output();
            self.shown = false;
        } else if !self.shown {
            self.shown = true;
            if let Some(image) = &self.output {
                let _ = self.port.set_output(image);
            }
        }
    }
}

impl<A: Allocator + Copy> StoredPort<A> {
    /// What came of Data Storage in the present session.
    pub fn standing(&self) -> StorageStanding
        ensures { result ≡ self.now.storage.standing }
    {
        self.storage.standing
    }

    /// The set that is kept, if one is.
    pub fn backup(&self) -> Option<&Set>
        ensures { option_copied result ≡ self.now.storage.backup }
    {
        self.storage.backup.as_ref()
    }

    /// The set that was fetched, and its number, until the program says that it has saved it. The
    /// device isn't told before that, and clients wait for it.
    pub fn unsaved(&self) -> Option<(SetNumber, &Set)>
        ensures number { option_map (λ one. one.0) result ≡ number_unsaved self.now.storage }
        ensures set { option_map (λ one. one.1.now) result ≡ set_unsaved self.now.storage }
    {
        match &self.storage.backup {
            Some(set) if self.storage.unsaved => Some((SetNumber(self.storage.fetched), set)),
            _ => None,
        }
    }

    /// The program has saved this set. The device is told then.
    ///
    /// Refused, with nothing changed, by 62 where another waits to be saved, or none does.
    pub fn saved(&mut self, number: SetNumber) -> Result<(), StoredFault>
        ensures answer { result_err result ≡ saved_refusal self.old.storage number }
        ensures ok { OnOk result (self.new
            ≡ record self.old { storage = storage_saved self.old.storage }) }
        ensures err { OnErr result (self.new ≡ self.old) }
    {
        self.storage.saved(number)
    }

    /// Keeps this set from now on. In trouble another check follows.
    ///
    /// Refused, with nothing changed, by the first of 45 while a job is under way, and 41 where the
    /// set has a value at the Index of Data Storage, or a SystemCommand.
    ///
    /// Rule STO-16.
    pub fn load(&mut self, set: Set) -> Result<(), StoredFault>
        ensures answer { result_err result ≡ load_refusal self.old.storage (Some set) }
        ensures ok { OnOk result (self.new
            ≡ record self.old { storage = storage_loaded self.old.storage (Some set) }) }
        ensures err { OnErr result (self.new ≡ self.old) }
    {
        self.storage.load(Some(set))
    }

    /// Keeps no set from now on. In trouble another check follows.
    ///
    /// Refused, with nothing changed, by 45 while a job is under way.
    pub fn forget(&mut self) -> Result<(), StoredFault>
        ensures answer { result_err result ≡ load_refusal self.old.storage None }
        ensures ok { OnOk result (self.new
            ≡ record self.old { storage = storage_loaded self.old.storage None }) }
        ensures err { OnErr result (self.new ≡ self.old) }
    {
        self.storage.load(None)
    }

    /// Serves the device in spite of a trouble, up to the end of the session. Nothing while a check
    /// is under way, which may restore the set: ask again once it has come to its end.
    pub fn release(&mut self)
        ensures { self.new ≡ record self.old { storage = storage_released self.old.storage } }
    {
        self.storage.release();
    }

    /// Writes these parameters as one block: the device applies all of them or none. They are
    /// taken, and none are left there.
    ///
    /// Refused, with nothing changed, by the first of 45 where a job is under way, 60 where there
    /// is no session, or Data Storage hasn't come to its end in it, 61 where the outcome of the
    /// block before was not collected, and 41 where one of them is at the Index of Data Storage, or
    /// is a SystemCommand, which would end the block.
    ///
    /// Rule JOB-4.
    pub fn submit_block(
        &mut self,
        writes: &mut Objects,
        keep: Keep,
    ) -> Result<BlockTicket, StoredFault>
        ensures answer { result ≡ block_answer self.old.storage writes.old }
        ensures block { OnOk result (self.new ≡ record self.old {
          storage = storage_with_block self.old.storage writes.old keep;
        }) }
        ensures taken { OnOk result (writes.new ≡ []) }
        ensures err { OnErr result ((self.new ≡ self.old) × (writes.new ≡ writes.old)) }
    {
        self.storage.submit_block(writes, keep)
    }

    /// What came of a block, which is then done with.
    ///
    /// Refused, with nothing changed, by 46 where it is not the last one, or was collected, and by
    /// 47 where it is not over.
    pub fn collect_block(&mut self, block: BlockTicket) -> Result<DownloadResult, StoredFault>
        ensures answer { result ≡ block_collected self.old.storage block }
        ensures block { self.new ≡ record self.old {
          storage = storage_behind_block self.old.storage block;
        } }
    {
        self.storage.collect_block(block)
    }
}

impl<A: Allocator + Copy> StoredPort<A> {
    /// As [`PortCore::submit`](iol_port::PortCore::submit).
    ///
    /// Refused, with nothing changed, by the first of 41 for a write at the Index of Data Storage,
    /// and 21 where clients have all tickets that they may have; else as there.
    ///
    /// Rules JOB-6, STO-15.
    pub fn submit(&mut self, request: Request) -> Result<Ticket, StoredFault>
        ensures denied { IfSome (client_refusal self.old request) (λ why.
            (result ≡ Err why) × (self.new ≡ self.old)) }
        ensures is { IfNone (client_refusal self.old request)
            (PortAnswers result (Submits (stored_call self.old self.new) request)) }
        ensures tickets { self.new.tickets ≡ tickets_behind_submit self.old.tickets result }
    {
        self.allow(&request)?;
        let returned = self.port.submit(request);
        self.count(returned)
    }

    /// As [`PortCore::submit_urgent`](iol_port::PortCore::submit_urgent), and refused as
    /// [`submit`](StoredPort::submit).
    pub fn submit_urgent(&mut self, request: Request) -> Result<Ticket, StoredFault>
        ensures denied { IfSome (client_refusal self.old request) (λ why.
            (result ≡ Err why) × (self.new ≡ self.old)) }
        ensures is { IfNone (client_refusal self.old request)
            (PortAnswers result (SubmitsUrgent (stored_call self.old self.new) request)) }
        ensures tickets { self.new.tickets ≡ tickets_behind_submit self.old.tickets result }
    {
        self.allow(&request)?;
        let returned = self.port.submit_urgent(request);
        self.count(returned)
    }

    /// Whether a client may submit a request.
    fn allow(&self, request: &Request) -> Result<(), StoredFault>
        ensures { result_err result ≡ client_refusal self.now request.now }
    {
        match request {
            Request::Write(place, _) if is_owned(*place) => Err(StoredFault::OwnedIndex),
            _ if self.tickets >= self.most => {
                Err(StoredFault::Port(PortFault::Book(BookFault::Full)))
            }
            Request::Write(_, _) | Request::Read(_) => Ok(()),
        }
    }

    /// Counts a ticket that a client was given.
    fn count(&mut self, returned: Result<Ticket, PortFault>) -> Result<Ticket, StoredFault>
        ensures answer { result ≡ by_port returned }
        ensures rest { self.new ≡ record self.old {
          tickets = tickets_behind_submit self.old.tickets result;
        } }
    {
        match returned {
            Ok(ticket) => {
                self.tickets = self.tickets.saturating_add(1);
                Ok(ticket)
            }
            Err(fault) => Err(StoredFault::Port(fault)),
        }
    }

    /// Whether a ticket is that of a job.
    fn is_own(&self, ticket: Ticket) -> bool
        ensures { result ≡ is_own self.now.storage ticket }
    {
        self.storage.asked == Some(ticket)
    }

    /// As [`PortCore::collect`](iol_port::PortCore::collect). A job's ticket is unknown to clients.
    pub fn collect(&mut self, ticket: Ticket) -> Result<Outcome, PortFault>
        ensures own { IsTrue (is_own self.old.storage ticket) → (result ≡ Err unknown_ticket)
            × (self.new ≡ self.old) }
        ensures is { is_own self.old.storage ticket ≡ false
            → Collects (stored_call self.old self.new) ticket result }
        ensures tickets { self.new.tickets ≡ tickets_without (is_ok result) self.old.tickets }
    {
        if self.is_own(ticket) {
            return Err(UNKNOWN);
        }
        let answer = self.port.collect(ticket);
        if answer.is_ok() {
            self.tickets = self.tickets.saturating_sub(1);
        }
        answer
    }

    /// As [`PortCore::collect_into`](iol_port::PortCore::collect_into). A job's ticket is unknown
    /// to clients.
    pub fn collect_into(&mut self, ticket: Ticket, into: &mut Outcome) -> Result<(), PortFault>
        ensures own { IsTrue (is_own self.old.storage ticket) → (result ≡ Err unknown_ticket)
            × (self.new ≡ self.old) }
        ensures is { is_own self.old.storage ticket ≡ false
            → Collects (stored_call self.old self.new) ticket (in_place into.new result) }
        ensures unchanged { IfErr result (λ _. into.new ≡ into.old) }
        ensures tickets { self.new.tickets ≡ tickets_without (is_ok result) self.old.tickets }
    {
        if self.is_own(ticket) {
            return Err(UNKNOWN);
        }
        let answer = self.port.collect_into(ticket, into);
        if answer.is_ok() {
            self.tickets = self.tickets.saturating_sub(1);
        }
        answer
    }

    /// As [`PortCore::withdraw`](iol_port::PortCore::withdraw). A job's ticket is unknown to
    /// clients.
    pub fn withdraw(&mut self, ticket: Ticket) -> Result<(), PortFault>
        ensures own { IsTrue (is_own self.old.storage ticket) → (result ≡ Err unknown_ticket)
            × (self.new ≡ self.old) }
        ensures is { is_own self.old.storage ticket ≡ false
            → Withdraws (stored_call self.old self.new) ticket result }
        ensures tickets { self.new.tickets ≡ self.old.tickets }
    {
        if self.is_own(ticket) {
            return Err(UNKNOWN);
        }
        self.port.withdraw(ticket)
    }

    /// As [`PortCore::cancel`](iol_port::PortCore::cancel). A job's ticket is unknown to clients.
    pub fn cancel(&mut self, ticket: Ticket) -> Result<(), PortFault>
        ensures own { IsTrue (is_own self.old.storage ticket) → (result ≡ Err unknown_ticket)
            × (self.new ≡ self.old) }
        ensures is { is_own self.old.storage ticket ≡ false
            → Cancels (stored_call self.old self.new) ticket result }
        ensures tickets { self.new.tickets ≡ self.old.tickets }
    {
        if self.is_own(ticket) {
            return Err(UNKNOWN);
        }
        self.port.cancel(ticket)
    }

    /// As [`PortCore::abandon`](iol_port::PortCore::abandon). A job's ticket is unknown to clients.
    pub fn abandon(&mut self, ticket: Ticket) -> Result<(), PortFault>
        ensures own { IsTrue (is_own self.old.storage ticket) → (result ≡ Err unknown_ticket)
            × (self.new ≡ self.old) }
        ensures is { is_own self.old.storage ticket ≡ false
            → Abandons (stored_call self.old self.new) ticket result }
        ensures tickets { self.new.tickets ≡ tickets_without (is_ok result) self.old.tickets }
    {
        if self.is_own(ticket) {
            return Err(UNKNOWN);
        }
        let answer = self.port.abandon(ticket);
        if answer.is_ok() {
            self.tickets = self.tickets.saturating_sub(1);
        }
        answer
    }

    /// Whether a ticket of a client is outstanding.
    pub fn is_outstanding(&self, ticket: Ticket) -> bool
        ensures { result ≡ not (is_own self.now.storage ticket)
            && is_outstanding self.now.port.book.state.standing ticket }
    {
        !self.is_own(ticket) && self.port.is_outstanding(ticket)
    }

    /// What the port waits for, as [`PortCore::awaits`](iol_port::PortCore::awaits).
    pub fn awaits(&self) -> AwaitedAnswer
        ensures { result ≡ awaited_answer self.now.port }
    {
        self.port.awaits()
    }

    /// As [`PortCore::restart`](iol_port::PortCore::restart).
    pub fn restart(&mut self)
        requires { awaited_answer self.old.port ≡ AwaitedAnswer.Nothing }
        ensures { Restarts (stored_forward self.old self.new) }
    {
        self.port.restart();
    }

    /// As [`PortCore::set_output`](iol_port::PortCore::set_output). Where the device isn't served
    /// yet, the port wants it from then on.
    pub fn set_output(&mut self, image: &Image) -> Result<(), PortFault>
        ensures { SetsStoredOutput image.now result self.old self.new }
    {
        self.port.set_output(image)?;
        self.output = Some(copy_of(image));
        if self.storage.is_unserved() {
            self.port.clear_output();
        }
        Ok(())
    }

    /// As [`PortCore::clear_output`](iol_port::PortCore::clear_output).
    pub fn clear_output(&mut self)
        ensures call { ClearsOutput (core_call self.old.port self.new.port) }
        ensures rest { self.new ≡ record self.old { port = self.new.port; output = None } }
    {
        self.output = None;
        self.port.clear_output();
    }

    /// The device's input, as [`PortCore::image`](iol_port::PortCore::image); none where the device
    /// isn't served.
    ///
    /// Rule STO-14.
    pub fn image(&self) -> Option<&Image>
        ensures { option_copied result ≡ image_shown self.now }
    {
        if self.storage.is_unserved() {
            None
        } else {
            self.port.image()
        }
    }

    /// As [`PortCore::take_event`](iol_port::PortCore::take_event). By the event 0xFF91 the device
    /// asks for a check.
    pub fn take_event(&mut self) -> Result<Event, PortFault>
        ensures call { TakesEvent (core_call self.old.port self.new.port) result }
        ensures rest { self.new ≡ record self.old {
          port = self.new.port;
          storage = storage_behind_event self.old.storage result;
        } }
    {
        let event = self.port.take_event()?;
        self.storage.notice(event);
        Ok(event)
    }

    /// As [`PortCore::expect`](iol_port::PortCore::expect).
    pub fn expect(&mut self, identity: Identity) -> Counting
        ensures { Expects (stored_forward self.old self.new) (Some identity) result }
    {
        self.port.expect(identity)
    }

    /// As [`PortCore::expect_any`](iol_port::PortCore::expect_any).
    pub fn expect_any(&mut self) -> Counting
        ensures { Expects (stored_forward self.old self.new) None result }
    {
        self.port.expect_any()
    }

    /// As [`PortCore::set_cycle`](iol_port::PortCore::set_cycle).
    pub fn set_cycle(&mut self, cycle: Option<CycleTime>) -> Counting
        ensures { SetsCycle (stored_forward self.old self.new) cycle result }
    {
        self.port.set_cycle(cycle)
    }

    /// The port within, for the calls that only look: its page, status, counters and last loss.
    pub fn port(&self) -> &PortCore<A>
        ensures { result.now ≡ self.now.port }
    {
        &self.port
    }

    /// As [`PortCore::archive`](iol_port::PortCore::archive). The tickets of jobs have their
    /// entries, too.
    ///
    /// Rule JOB-5.
    pub fn archive(&mut self) -> Result<Journal<A>, PortFault>
        ensures is { Archives (stored_forward self.old self.new) (λ entries. entries.items) result }
        ensures within { IfOk result (λ entries. length entries.items ≤ 1000000) }
    {
        self.port.archive()
    }

    /// As [`PortCore::drain`](iol_port::PortCore::drain).
    pub fn drain(&mut self) -> Result<Journal<A>, PortFault>
        ensures is { Drains (stored_forward self.old self.new) (λ entries. entries.items) result }
        ensures within { IfOk result (λ entries. length entries.items ≤ 1000000) }
    {
        self.port.drain()
    }

    /// As [`PortCore::drain_into`](iol_port::PortCore::drain_into).
    pub fn drain_into(&mut self, list: &mut Journal<A>) -> Result<usize, PortFault>
        ensures is { DrainsInto (stored_forward self.old self.new)
            list.old.items list.new.items result }
        ensures full { OnErr result (LacksRoomFor self.old.port.book.state list.old) }
    {
        self.port.drain_into(list)
    }
}

/// A copy of an image, which takes no memory.
fn copy_of(image: &Image) -> Image
    ensures { result ≡ image.now }
{
    image.clone().unwrap()
}
