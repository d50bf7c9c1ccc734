//! The program of a master: its clients, and what it does for Data Storage.
use crate::chance::Chance;
use crate::life::image_of;
use crate::temper::Temper;
use crate::text::{BlockText, Hex, OutcomeText, RequestText};
use anyhow::Result;
use iol_book::{Entry, Journal, Ticket};
use iol_image::Image;
use iol_isdu::{Place, Request};
use iol_storage::{
    BlockTicket, Keep, Objects, Set, SetImage, StorageStanding, StoredFault, StoredPort,
};
use std::alloc::Global;
use std::collections::VecDeque;

/// The commands and locks that a client writes: Index, and octet.
const COMMANDS: [u8; 9] = [1, 2, 3, 4, 5, 6, 0x81, 0x82, 0x80];

#[derive(Drop)]
pub struct Program {
    alloc: Global,
    /// The tickets of clients that are outstanding.
    tickets: VecDeque<u64>,
    /// The last ticket that a client was given.
    newest: u64,
    block: Option<BlockTicket>,
    /// The set that is saved, if any.
    disk: SetImage,
    image: SetImage,
    /// How many blocks, and how many writes there were.
    count: u16,
}

impl Program {
    pub fn new(alloc: Global) -> Program {
        Program {
            alloc,
            tickets: VecDeque::new(alloc),
            newest: 0,
            block: None,
            disk: SetImage::new(),
            image: SetImage::new(),
            count: 0,
        }
    }

    pub fn disk(&self) -> &[u8] {
        self.disk.as_slice()
    }

    pub fn saved_set(&self) -> Result<Option<Set>> {
        if self.disk.is_empty() {
            return Ok(None);
        }
        Ok(Some(Set::read(self.disk.as_slice())?))
    }

    /// The master has begun anew: nobody knows of a ticket.
    pub fn forget_all(&mut self) {
        self.tickets.clear();
        self.newest = 0;
        self.block = None;
    }

    pub fn is_done(&self) -> bool {
        self.tickets.is_empty() && self.block.is_none()
    }

    /// What it does before a turn.
    pub fn act(
        &mut self,
        rt: &HostRuntime,
        port: &mut StoredPort,
        temper: &Temper,
        chance: &mut Chance,
    ) -> Result<()> {
        self.serve_storage(rt, port, temper, chance)?;
        self.serve_clients(rt, port, temper, chance)?;
        if chance.once_in(temper.events) {
            if let Ok(event) = port.take_event() {
                println!(rt; "event {:04X}", event.code)?;
            }
        }
        if chance.once_in(temper.outputs) {
            self.put_output(rt, port, chance)?;
        }
        if chance.once_in(temper.drains) {
            self.drain(rt, port)?;
        }
        Ok(())
    }

    fn serve_storage(
        &mut self,
        rt: &HostRuntime,
        port: &mut StoredPort,
        temper: &Temper,
        chance: &mut Chance,
    ) -> Result<()> {
        if chance.once_in(temper.saves) {
            self.save(rt, port)?;
        }
        let is_trouble = matches!(port.standing(), StorageStanding::Trouble(_));
        if chance.once_in(temper.releases) && is_trouble {
            println!(rt; "release")?;
            port.release();
        }
        if chance.once_in(temper.loads) {
            self.load(rt, port, chance)?;
        }
        Ok(())
    }

    /// A set that waits is saved, and then the port is told.
    fn save(&mut self, rt: &HostRuntime, port: &mut StoredPort) -> Result<()> {
        let Some((number, set)) = port.unsaved() else {
            return Ok(());
        };
        image_of(Some(set), &mut self.disk);
        println!(rt; "saved {}", Hex(self.disk.as_slice()))?;
        port.saved(number)?;
        Ok(())
    }

    /// Another set is kept, or none: one that is saved, as it was, or as another device's.
    fn load(&mut self, rt: &HostRuntime, port: &mut StoredPort, chance: &mut Chance) -> Result<()> {
        let which = chance.below(4);
        if which == 0 || self.disk.is_empty() {
            if self.answer(rt, "forget", port.forget())? {
                self.disk.clear();
                println!(rt; "saved -")?;
            }
            return Ok(());
        }
        let mut set = Set::read(self.disk.as_slice())?;
        if which == 1 {
            set.device[4] ^= 1;
        }
        image_of(Some(&set), &mut self.image);
        if self.answer(rt, "load", port.load(set))? {
            self.disk.clear();
            self.disk.try_extend_from_slice(self.image.as_slice())?;
            println!(rt; "saved {}", Hex(self.disk.as_slice()))?;
        }
        Ok(())
    }

    /// Tells what a call was answered, and whether it was taken.
    fn answer(
        &self,
        rt: &HostRuntime,
        call: &str,
        returned: Result<(), StoredFault>,
    ) -> Result<bool> {
        match returned {
            Ok(()) => println!(rt; "{call} ok")?,
            Err(fault) => println!(rt; "{call} {}", fault.code())?,
        }
        Ok(returned.is_ok())
    }

    fn put_output(
        &mut self,
        rt: &HostRuntime,
        port: &mut StoredPort,
        chance: &mut Chance,
    ) -> Result<()> {
        if chance.once_in(6) {
            port.clear_output();
            println!(rt; "output none")?;
        } else if port.set_output(&Image::new(&[chance.octet()])?).is_ok() {
            println!(rt; "output set")?;
        }
        Ok(())
    }

    fn serve_clients(
        &mut self,
        rt: &HostRuntime,
        port: &mut StoredPort,
        temper: &Temper,
        chance: &mut Chance,
    ) -> Result<()> {
        if chance.once_in(temper.requests) {
            let request = self.request(temper, chance)?;
            let is_urgent = chance.once_in(6);
            self.submit(rt, port, request, is_urgent)?;
        }
        if chance.once_in(temper.collects) {
            self.collect(rt, port)?;
        }
        if chance.once_in(temper.takes_back) {
            self.take_back(rt, port, chance)?;
        }
        if chance.once_in(temper.blocks) {
            self.submit_block(rt, port, chance)?;
        }
        if chance.once_in(temper.block_collects) {
            self.collect_block(rt, port)?;
        }
        Ok(())
    }

    /// A request of a client.
    fn request(&mut self, temper: &Temper, chance: &mut Chance) -> Result<Request> {
        if chance.once_in(temper.commands) {
            return command_by(chance);
        }
        self.count = self.count.wrapping_add(1);
        let octet = chance.below(110) as u8;
        let [high, low] = self.count.to_be_bytes();
        Ok(match chance.below(8) {
            0 => Request::write(at(24), &[b'c', high, low])?,
            1 => Request::write(at(64), &[octet])?,
            2 => Request::write(at(65), &[octet])?,
            3 => Request::write(at(80), &[high, low, 0, 0, 0, octet])?,
            4 | 5 => Request::write(at(90), &[high, low])?,
            _ => { Request::read(at(chance.one_of(&[24, 64, 65, 80, 90, 21, 12, 77]))) }
        })
    }

    fn submit(
        &mut self,
        rt: &HostRuntime,
        port: &mut StoredPort,
        request: Request,
        is_urgent: bool,
    ) -> Result<()> {
        print!(rt; "ask {} ", RequestText(&request))?;
        let returned = if is_urgent {
            port.submit_urgent(request)
        } else {
            port.submit(request)
        };
        match returned {
            Ok(ticket) => {
                println!(rt; "ticket {}", ticket.0)?;
                self.tickets.push_back(ticket.0)?;
                self.newest = ticket.0;
            }
            Err(fault) => println!(rt; "refused {}", fault.code())?,
        }
        Ok(())
    }

    /// Collects each outcome that is there.
    fn collect(&mut self, rt: &HostRuntime, port: &mut StoredPort) -> Result<()> {
        for _ in 0..self.tickets.len() {
            let Some(ticket) = self.tickets.pop_front() else {
                return Ok(());
            };
            match port.collect(Ticket(ticket)) {
                Ok(outcome) => println!(rt; "collect {ticket} {}", OutcomeText(&outcome))?,
                Err(fault) if fault.code() == 26 => self.tickets.push_back(ticket)?,
                Err(fault) => println!(rt; "collect {ticket} refused {}", fault.code())?,
            }
        }
        Ok(())
    }

    /// Takes a ticket back, in one way or another, or tries it with one that it wasn't given.
    fn take_back(
        &mut self,
        rt: &HostRuntime,
        port: &mut StoredPort,
        chance: &mut Chance,
    ) -> Result<()> {
        if chance.once_in(3) {
            return self.try_any(rt, port, chance);
        }
        let Some(ticket) = self.tickets.pop_front() else {
            return Ok(());
        };
        let is_abandoned = chance.once_in(3);
        if is_abandoned {
            let code = code_of(port.abandon(Ticket(ticket)).map_err(StoredFault::Port));
            println!(rt; "abandon {ticket} {code}")?;
            return Ok(());
        }
        let code = if chance.once_in(2) {
            code_of(port.withdraw(Ticket(ticket)).map_err(StoredFault::Port))
        } else {
            code_of(port.cancel(Ticket(ticket)).map_err(StoredFault::Port))
        };
        println!(rt; "takeback {ticket} {code}")?;
        self.tickets.push_back(ticket)?;
        Ok(())
    }

    /// Calls for a ticket that may be a job's.
    fn try_any(
        &mut self,
        rt: &HostRuntime,
        port: &mut StoredPort,
        chance: &mut Chance,
    ) -> Result<()> {
        let number = self.newest.wrapping_add(1 + chance.below(8));
        let ticket = Ticket(number);
        let code = match chance.below(4) {
            0 => code_of(port.collect(ticket).map(|_| ()).map_err(StoredFault::Port)),
            1 => code_of(port.withdraw(ticket).map_err(StoredFault::Port)),
            2 => code_of(port.cancel(ticket).map_err(StoredFault::Port)),
            _ => code_of(port.abandon(ticket).map_err(StoredFault::Port)),
        };
        println!(rt;
            "try {number} {code} {}",
            u8::from(port.is_outstanding(ticket))
        )?;
        Ok(())
    }

    fn submit_block(
        &mut self,
        rt: &HostRuntime,
        port: &mut StoredPort,
        chance: &mut Chance,
    ) -> Result<()> {
        let low = chance.below(105) as u8;
        let high = low.saturating_add(chance.below(30) as u8);
        self.count = self.count.wrapping_add(1);
        let [first, second] = self.count.to_be_bytes();
        let mut writes = Objects::new();
        if !chance.once_in(20) {
            writes.push(at(64), &[low])?;
            writes.push(at(65), &[high])?;
            writes.push(at(80), &[0xB0, first, second, 0, 0, low])?;
        }
        let count = writes.len();
        let commands = add_others(&mut writes, chance)?;
        let keep = if chance.once_in(3) {
            Keep::Yes
        } else {
            Keep::No
        };
        print!(rt; "block {keep:?} {low:02X} {high:02X} {first:02X}{second:02X} ")?;
        print!(rt; "{count} {commands} ")?;
        match port.submit_block(&mut writes, keep) {
            Ok(block) => {
                println!(rt; "ticket {}", block.0)?;
                self.block = Some(block);
            }
            Err(fault) => println!(rt; "refused {}", fault.code())?,
        }
        Ok(())
    }

    fn collect_block(&mut self, rt: &HostRuntime, port: &mut StoredPort) -> Result<()> {
        let Some(block) = self.block else {
            return Ok(());
        };
        match port.collect_block(block) {
            Ok(result) => {
                println!(rt; "blockend {} {}", block.0, BlockText(result))?;
                self.block = None;
            }
            Err(StoredFault::BlockNotOver) => {}
            Err(fault) => {
                println!(rt; "blockend {} error {}", block.0, fault.code())?;
                self.block = None;
            }
        }
        Ok(())
    }

    /// Two last requests: a value that Data Storage doesn't keep is written, and read.
    pub fn ask_last(&mut self, rt: &HostRuntime, port: &mut StoredPort) -> Result<()> {
        println!(rt; "last")?;
        self.submit(rt, port, Request::write(at(90), &[0xAB, 0xCD])?, false)?;
        self.submit(rt, port, Request::read(at(90)), false)
    }

    /// Takes the journal, and tells what is new in it.
    pub fn drain(&mut self, rt: &HostRuntime, port: &mut StoredPort) -> Result<()> {
        let mut entries = Journal::new(self.alloc);
        let restated = port.drain_into(&mut entries)?;
        for (at, entry) in entries.iter().enumerate() {
            if at >= restated {
                tell_entry(rt, &entry)?;
            }
        }
        Ok(())
    }
}

fn tell_entry(rt: &HostRuntime, entry: &Entry) -> Result<()> {
    match entry {
        Entry::Submitted(ticket, request) | Entry::Urgent(ticket, request) => {
            println!(rt; "js {} {}", ticket.0, RequestText(request))?;
        }
        Entry::Taken(ticket) => println!(rt; "jt {}", ticket.0)?,
        Entry::Answered(ticket, outcome) => {
            println!(rt; "ja {} {}", ticket.0, OutcomeText(outcome))?;
        }
        Entry::Withdrawn(_) | Entry::Collected(_) | Entry::Abandoned(_) => {}
    }
    Ok(())
}

fn at(index: u16) -> Place {
    Place { index, sub: 0 }
}

/// Puts what doesn't belong there behind the writes of a block, now and then: a parameter that the
/// unit hasn't, and commands. Answers how many commands.
fn add_others(writes: &mut Objects, chance: &mut Chance) -> Result<u8> {
    let mut commands: u8 = 0;
    if chance.once_in(20) {
        writes.push(at(77), &[2])?;
    }
    if chance.once_in(20) {
        commands = 1;
        writes.push(Place { index: 3, sub: 1 }, &[2])?;
    }
    if chance.once_in(20) {
        commands = 1;
        writes.push(at(2), &[4])?;
        writes.push(at(64), &[100])?;
    }
    Ok(commands)
}

/// A command or a lock that a client writes by itself.
fn command_by(chance: &mut Chance) -> Result<Request> {
    let octet = chance.one_of(&COMMANDS);
    Ok(match chance.below(8) {
        0 => Request::write(at(12), &[0, chance.below(16) as u8])?,
        1 | 2 => Request::write(at(12), &[0, 0])?,
        3 => Request::write(Place { index: 3, sub: 1 }, &[octet])?,
        _ => Request::write(at(2), &[octet])?,
    })
}

/// 0, or the number of a refusal.
fn code_of(returned: Result<(), StoredFault>) -> u8 {
    match returned {
        Ok(()) => 0,
        Err(fault) => fault.code(),
    }
}
