//! A stored port at a wire.
ghost use Rattle.std.specs.Prelude.{◌≡◌, IfErr, IfOk, None, Ok, option_copied, option_map, is_some, Result};
ghost use Rattle.iol_port.specs.declared.call.Answered.TheVariants as answered;
ghost use Rattle.iol_port.specs.declared.call.Call.TheVariants as call;
ghost use Rattle.iol_storage.specs.Sets.{set_image};
ghost use Rattle.iol_storage.specs.StoredPort.{IsOpeningRefused};
ghost use Rattle.iol_stored_commands.specs.Wired.{CallMakes, IsNewStored, StorageMakes, StoredTurns, PortMakes, lacks_room, port_reply};
ghost use Rattle.iol_stored_script.specs.declared.storage_line.StorageCall.TheVariants as storage;

use crate::storage_answer::StorageAnswer;
use iol_app::Transmission;
use iol_book::{BookFault, Limits, Ticket};
use iol_image::Image;
use iol_isdu::Request;
use iol_link::Wire;
use iol_mode::Devices;
use iol_port::{Answered, AwaitedAnswer, Call, DrainCounts, PortFault};
use iol_storage::{
    BlockTicket, Keep, Objects, Set, SetImage, StorageMode, StoredFault, StoredPort,
};
use iol_stored_script::StorageCall;
use std::alloc::Allocator;
use std::marker::Model;

/// A port with Data Storage, and the wire that it is at.
#[derive(Drop)]
pub struct WiredPort<W: Wire, A: Allocator + Copy> {
    port: StoredPort<A>,
    wire: W,
}

impl<W: Wire, A: Allocator + Copy> Model for WiredPort<W, A> {
    ghost use Rattle.iol_stored_commands.specs.Wired.{StoredOver};

    ghost Value = { StoredOver W };

    ghost view = { λ p. record { port = p.port; wire = p.wire } };
}

impl<W: Wire, A: Allocator + Copy> WiredPort<W, A> {
    /// A port whose link is down, for these devices, with this mode of Data Storage, and no set.
    ///
    /// Refused as [`StoredPort::open`]; the wire is handed back.
    pub fn open(
        alloc: A,
        wire: W,
        limits: &Limits,
        devices: Devices,
        mode: StorageMode,
    ) -> Result<WiredPort<W, A>, (StoredFault, W)>
        ensures port { IfOk result (λ p. IsNewStored mode devices limits.now p.port) }
        ensures wire { IfOk result (λ p. p.wire ≡ wire) }
        ensures refused { IfErr result (λ e. IsOpeningRefused limits.now None e.0) }
        ensures back { IfErr result (λ e. e.1 ≡ wire) }
    {
        match StoredPort::open(alloc, limits, devices, mode, None) {
            Ok(port) => Ok(WiredPort { port, wire }),
            Err(fault) => Err((fault, wire)),
        }
    }

    /// The port.
    pub fn port(&self) -> &StoredPort<A>
        ensures { result.now ≡ self.now.port }
    {
        &self.port
    }

    /// The wire.
    pub fn wire(&self) -> &W
        ensures { result.now ≡ self.now.wire }
    {
        &self.wire
    }

    /// One turn: what the port sends goes over the wire, and it is told what came back.
    pub fn turn(&mut self)
        ensures { StoredTurns W.facts self.old self.new }
    {
        match self.port.send() {
            Transmission::Wake => {
                let rate = self.wire.wake();
                self.port.receive_wake(rate);
            }
            Transmission::Exchange(sent) => {
                let received = self.wire.exchange(sent.octets.as_slice());
                self.port.receive(&received);
            }
        }
    }

    /// One call that a plain port has, too.
    ///
    /// A stored port has all of them but `serve`: whom it serves is its own affair, and nothing
    /// happens.
    pub fn call(&mut self, asked: &Call) -> Result<Answered, StoredFault>
        ensures { CallMakes W.facts self.old asked.now result self.new }
    {
        match asked {
            Call::Submit(request) => self.submit(request),
            Call::SubmitUrgent(request) => self.submit_urgent(request),
            Call::Collect(ticket) => by_port(self.collect(*ticket)),
            Call::Withdraw(ticket) => by_port(self.withdraw(*ticket)),
            Call::Cancel(ticket) => by_port(self.cancel(*ticket)),
            Call::Abandon(ticket) => by_port(self.abandon(*ticket)),
            Call::SetOutput(image) => by_port(self.set_output(image)),
            Call::TakeEvent => by_port(self.take_event()),
            Call::Archive => by_port(self.archive()),
            Call::Drain => by_port(self.drain()),
            Call::Restart => Ok(self.restart()),
            Call::ClearOutput => Ok(self.clear_output()),
            Call::Expect(Some(identity)) => Ok(Answered::Counts(self.port.expect(*identity))),
            Call::Expect(None) => Ok(Answered::Counts(self.port.expect_any())),
            Call::Cycle(cycle) => Ok(Answered::Counts(self.port.set_cycle(*cycle))),
            Call::Look => Ok(Answered::Image(copy_of_image(self.port.image()))),
            Call::Page => Ok(Answered::Page(self.port.port().page())),
            Call::Counters => Ok(Answered::Counters(*self.port.port().counters())),
            Call::LastLoss => Ok(Answered::LastLoss(self.port.port().last_loss())),
            Call::Status => Ok(Answered::Status(self.port.port().status())),
            Call::Serve(_) => Ok(Answered::Nothing),
            Call::Turn => {
                self.turn();
                Ok(Answered::Nothing)
            }
        }
    }

    fn submit(&mut self, request: &Request) -> Result<Answered, StoredFault>
        ensures makes { PortMakes self.old.port (call.Submit request.now) result self.new.port }
        ensures wire { self.new.wire ≡ self.old.wire }
    {
        Ok(Answered::Ticket(self.port.submit(copy_of_request(request))?))
    }

    fn submit_urgent(&mut self, request: &Request) -> Result<Answered, StoredFault>
        ensures makes { PortMakes self.old.port (call.SubmitUrgent request.now)
            result self.new.port }
        ensures wire { self.new.wire ≡ self.old.wire }
    {
        Ok(Answered::Ticket(self.port.submit_urgent(copy_of_request(request))?))
    }

    fn collect(&mut self, ticket: Ticket) -> Result<Answered, PortFault>
        ensures makes { PortMakes self.old.port (call.Collect ticket)
            (port_reply (λ answer. answer) result) self.new.port }
        ensures wire { self.new.wire ≡ self.old.wire }
    {
        Ok(Answered::Outcome(self.port.collect(ticket)?))
    }

    fn withdraw(&mut self, ticket: Ticket) -> Result<Answered, PortFault>
        ensures makes { PortMakes self.old.port (call.Withdraw ticket)
            (port_reply (λ answer. answer) result) self.new.port }
        ensures wire { self.new.wire ≡ self.old.wire }
    {
        self.port.withdraw(ticket)?;
        Ok(Answered::Nothing)
    }

    fn cancel(&mut self, ticket: Ticket) -> Result<Answered, PortFault>
        ensures makes { PortMakes self.old.port (call.Cancel ticket)
            (port_reply (λ answer. answer) result) self.new.port }
        ensures wire { self.new.wire ≡ self.old.wire }
    {
        self.port.cancel(ticket)?;
        Ok(Answered::Nothing)
    }

    fn abandon(&mut self, ticket: Ticket) -> Result<Answered, PortFault>
        ensures makes { PortMakes self.old.port (call.Abandon ticket)
            (port_reply (λ answer. answer) result) self.new.port }
        ensures wire { self.new.wire ≡ self.old.wire }
    {
        self.port.abandon(ticket)?;
        Ok(Answered::Nothing)
    }

    fn set_output(&mut self, image: &Image) -> Result<Answered, PortFault>
        ensures makes { PortMakes self.old.port (call.SetOutput image.now)
            (port_reply (λ answer. answer) result) self.new.port }
        ensures wire { self.new.wire ≡ self.old.wire }
    {
        self.port.set_output(image)?;
        Ok(Answered::Nothing)
    }

    fn clear_output(&mut self) -> Answered
        ensures makes { PortMakes self.old.port call.ClearOutput (Ok result) self.new.port }
        ensures wire { self.new.wire ≡ self.old.wire }
    {
        self.port.clear_output();
        Answered::Nothing
    }

    /// Between two turns nothing is out.
    fn restart(&mut self) -> Answered
        ensures makes { PortMakes self.old.port call.Restart (Ok result) self.new.port }
        ensures wire { self.new.wire ≡ self.old.wire }
    {
        if let AwaitedAnswer::Nothing = self.port.awaits() {
            self.port.restart();
        }
        Answered::Nothing
    }

    fn take_event(&mut self) -> Result<Answered, PortFault>
        ensures makes { PortMakes self.old.port call.TakeEvent
            (port_reply (λ answer. answer) result) self.new.port }
        ensures wire { self.new.wire ≡ self.old.wire }
    {
        Ok(Answered::Event(self.port.take_event()?))
    }

    fn archive(&mut self) -> Result<Answered, PortFault>
        ensures makes { PortMakes self.old.port call.Archive
            (port_reply (λ answer. answer) result) self.new.port }
        ensures wire { self.new.wire ≡ self.old.wire }
    {
        let entries = self.port.archive()?;
        Ok(Answered::Archived(entries.len() as u32))
    }

    fn drain(&mut self) -> Result<Answered, PortFault>
        ensures makes { PortMakes self.old.port call.Drain
            (port_reply (λ answer. answer) result) self.new.port }
        ensures wire { self.new.wire ≡ self.old.wire }
    {
        let restated = self.port.port().restated();
        let entries = self.port.drain()?;
        Ok(Answered::Drained(DrainCounts {
            entries: entries.len() as u32,
            restated: restated as u32,
        }))
    }
}

impl<W: Wire, A: Allocator + Copy> WiredPort<W, A> {
    /// One call that a plain port hasn't.
    pub fn store(&mut self, asked: StorageCall) -> Result<StorageAnswer, StoredFault>
        ensures { StorageMakes self.old asked result self.new }
    {
        match asked {
            StorageCall::Block(keep, writes) => self.submit_block(keep, writes),
            StorageCall::Outcome(block) => self.collect_block(block),
            StorageCall::Standing => Ok(StorageAnswer::Standing(self.port.standing())),
            StorageCall::Backup => Ok(StorageAnswer::Backup(self.backup())),
            StorageCall::Save => self.save(),
            StorageCall::Load(octets) => self.load(octets.as_slice()),
            StorageCall::Forget => self.forget(),
            StorageCall::Release => Ok(self.release()),
        }
    }

    fn submit_block(&mut self, keep: Keep, writes: Objects) -> Result<StorageAnswer, StoredFault>
        ensures { StorageMakes self.old (storage.Block keep writes) result self.new }
    {
        let mut writes = writes;
        Ok(StorageAnswer::Block(self.port.submit_block(&mut writes, keep)?))
    }

    fn collect_block(&mut self, block: BlockTicket) -> Result<StorageAnswer, StoredFault>
        ensures { StorageMakes self.old (storage.Outcome block) result self.new }
    {
        Ok(StorageAnswer::Outcome(block, self.port.collect_block(block)?))
    }

    /// The octets of the kept set.
    fn backup(&self) -> Option<SetImage>
        ensures { result ≡ option_map (λ set. record { items = set_image set })
            self.now.port.storage.backup }
    {
        let set = self.port.backup()?;
        let mut image = SetImage::new();
        set.write_into(&mut image);
        Some(image)
    }

    /// The program has saved the set that waits, if one does.
    fn save(&mut self) -> Result<StorageAnswer, StoredFault>
        ensures { StorageMakes self.old storage.Save result self.new }
    {
        let Some((number, _)) = self.port.unsaved() else {
            return Ok(StorageAnswer::Saved(None));
        };
        self.port.saved(number)?;
        Ok(StorageAnswer::Saved(Some(number)))
    }

    /// The set that has these octets, if one has them, is kept from now on.
    fn load(&mut self, octets: &[u8]) -> Result<StorageAnswer, StoredFault>
        ensures { StorageMakes self.old (storage.Load (record { items = octets.now })) result
            self.new }
    {
        let Ok(set) = Set::read(octets) else {
            return Ok(StorageAnswer::NoSet);
        };
        self.port.load(set)?;
        Ok(StorageAnswer::Nothing)
    }

    fn forget(&mut self) -> Result<StorageAnswer, StoredFault>
        ensures { StorageMakes self.old storage.Forget result self.new }
    {
        self.port.forget()?;
        Ok(StorageAnswer::Nothing)
    }

    fn release(&mut self) -> StorageAnswer
        ensures { StorageMakes self.old storage.Release (Ok result) self.new }
    {
        self.port.release();
        StorageAnswer::Nothing
    }
}

/// The refusals of the port within are the stored port's.
fn by_port(answer: Result<Answered, PortFault>) -> Result<Answered, StoredFault>
    ensures { result ≡ port_reply (λ answered. answered) answer }
{
    match answer {
        Ok(answered) => Ok(answered),
        Err(fault) => Err(StoredFault::Port(fault)),
    }
}

/// A copy, which takes no memory.
fn copy_of_request(request: &Request) -> Request
    ensures { result ≡ request.now }
{
    request.clone().unwrap()
}

/// A copy, which takes no memory.
fn copy_of_image(image: Option<&Image>) -> Option<Image>
    ensures { result ≡ option_copied image.entry }
{
    match image {
        Some(image) => Some(image.clone().unwrap()),
        None => None,
    }
}

/// Whether a call was refused for want of memory.
pub(crate) fn lacks_room(answer: &Result<Answered, StoredFault>) -> bool
    ensures { result ≡ lacks_room answer.now }
{
    matches!(
        answer,
        Err(StoredFault::Port(PortFault::Book(BookFault::OutOfMemory)))
    )
}
