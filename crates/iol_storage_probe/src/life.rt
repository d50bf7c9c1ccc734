//! A life: a port with its program, a line, and the units that stand at it one after the other.
use crate::chance::Chance;
use crate::line::Line;
use crate::program::Program;
use crate::temper::Temper;
use crate::text::{Hex, StandingText};
use crate::unit::{Owner, Unit};
use anyhow::Result;
use iol_app::{Mode, Transmission};
use iol_isdu::Place;
use iol_port::AwaitedAnswer;
use iol_storage::{Agreement, Set, SetImage, StorageStanding, StoredPort, Trouble};
use std::alloc::Global;

/// The most turns behind the disturbances.
const MOST_CALM: u64 = 6_000;
/// For so many turns in a row nothing is left to be done, before it counts as the end.
const QUIET: u64 = 400;
/// More turns than a pause and a check take.
const PATIENCE: u64 = 2_000;

/// What was told last of what the port says.
#[derive(Drop)]
struct Reported {
    standing: StorageStanding,
    mode: Mode,
    image: bool,
    backup: SetImage,
    unsaved: bool,
    /// Where the set that is kept now is written to.
    now: SetImage,
}

impl Reported {
    fn new() -> Reported {
        Reported {
            standing: StorageStanding::Awaited,
            mode: Mode::Down,
            image: false,
            backup: SetImage::new(),
            unsaved: false,
            now: SetImage::new(),
        }
    }

    /// Tells what a port says otherwise than before, in this turn.
    fn tell(&mut self, rt: &HostRuntime, port: &StoredPort, turn: u64) -> Result<()> {
        let mode = port.port().status().mode;
        if mode != self.mode {
            self.mode = mode;
            println!(rt; "mode {mode:?} {turn}")?;
        }
        self.tell_backup(rt, port)?;
        let standing = port.standing();
        if standing != self.standing {
            self.standing = standing;
            println!(rt; "said {turn} {} {}", ended_at(port), StandingText(standing))?;
        }
        let image = port.image().is_some();
        if image != self.image {
            self.image = image;
            println!(rt; "image {}", u8::from(image))?;
        }
        Ok(())
    }

    fn tell_backup(&mut self, rt: &HostRuntime, port: &StoredPort) -> Result<()> {
        image_of(port.backup(), &mut self.now);
        let unsaved = port.unsaved().is_some();
        let is_same = self.now.as_slice() == self.backup.as_slice();
        if is_same && unsaved == self.unsaved {
            return Ok(());
        }
        self.unsaved = unsaved;
        self.backup.clear();
        self.backup.try_extend_from_slice(self.now.as_slice())?;
        println!(rt; "kept {} {}", u8::from(unsaved), Hex(self.now.as_slice()))?;
        Ok(())
    }
}

#[derive(Drop)]
pub struct Life<'a> {
    alloc: Global,
    chance: Chance,
    temper: Temper,
    line: Line<'a>,
    port: StoredPort,
    program: Program,
    /// Which port it is, 1 the first.
    number: u64,
    turn: u64,
    reported: Reported,
}

impl<'a> Life<'a> {
    pub fn open(
        rt: &HostRuntime,
        alloc: Global,
        units: Vec<Unit<'a>>,
        mut chance: Chance,
    ) -> Result<Life<'a>> {
        let temper = Temper::by(&mut chance)?;
        let Temper {
            devices,
            mode,
            limits,
            ..
        } = temper;
        let (queue, journal) = (limits.queue.places(), limits.journal.entries());
        println!(rt;
            "life {devices:?} {mode:?} {queue} {journal} {}",
            temper.badness.lost
        )?;
        for unit in units.iter() {
            unit.tell_page(rt)?;
        }
        println!(rt; "plug 0")?;
        println!(rt; "port 1 -")?;
        Ok(Life {
            alloc,
            chance,
            temper,
            line: Line::new(units, temper.badness),
            port: StoredPort::open(alloc, &limits, devices, mode, None)?,
            program: Program::new(alloc),
            number: 1,
            turn: 0,
            reported: Reported::new(),
        })
    }

    pub fn play(&mut self, rt: &HostRuntime) -> Result<()> {
        for _ in 0..self.temper.turns {
            self.disturb(rt)?;
            self.step(rt)?;
        }
        println!(rt; "calm")?;
        self.temper.calm();
        self.line.badness = self.temper.badness;
        self.line.lose(0);
        self.settle(rt)?;
        self.program.ask_last(rt, &mut self.port)?;
        self.settle(rt)?;
        self.line.unit()?.tell_state(rt)?;
        self.program.drain(rt, &mut self.port)?;
        println!(rt; "end {} {}", self.turn, StandingText(self.port.standing()))?;
        Ok(())
    }

    /// Turns until nothing is left to be done, for a while.
    fn settle(&mut self, rt: &HostRuntime) -> Result<()> {
        let mut quiet: u64 = 0;
        for waited in 0..MOST_CALM {
            self.step(rt)?;
            let is_tried = waited > PATIENCE
                || self.port.standing() != StorageStanding::Trouble(Trouble::Attempts);
            quiet = if self.is_settled() && is_tried {
                quiet.saturating_add(1)
            } else {
                0
            };
            if quiet > QUIET {
                println!(rt; "settled {waited}")?;
                return Ok(());
            }
        }
        println!(rt; "never settled")?;
        Ok(())
    }

    fn is_settled(&self) -> bool {
        self.port.port().status().mode == Mode::Operate
            && self.port.standing() != StorageStanding::Awaited
            && self.port.unsaved().is_none()
            && self.program.is_done()
    }

    /// What happens beside the port: at the line, at the unit, and to the master.
    fn disturb(&mut self, rt: &HostRuntime) -> Result<()> {
        let temper = self.temper;
        if self.chance.once_in(temper.gaps) {
            let count = self.chance.below(30);
            self.line.lose(count);
        }
        if self.chance.once_in(temper.plugs) {
            self.line.plug(rt, &mut self.chance)?;
        }
        if self.chance.once_in(temper.powers) {
            self.line.unit()?.power_cycle(rt)?;
        }
        if self.chance.once_in(temper.changes) {
            self.change(rt)?;
        }
        if self.chance.once_in(temper.resets) {
            self.line.unit()?.reset(rt)?;
        }
        if self.chance.once_in(temper.crowds) {
            self.line.unit()?.crowd(rt)?;
        }
        if self.chance.once_in(temper.restarts) && self.port.awaits() == AwaitedAnswer::Nothing {
            println!(rt; "restart")?;
            self.port.restart();
        }
        if self.chance.once_in(temper.crashes) {
            self.crash(rt)?;
        }
        Ok(())
    }

    /// A user changes one value.
    fn change(&mut self, rt: &HostRuntime) -> Result<()> {
        let octet = self.chance.below(101) as u8;
        let which = self.chance.below(4);
        let unit = self.line.unit()?;
        match which {
            0 => unit.change(rt, Place { index: 24, sub: 0 }, &[b'u', octet, octet]),
            1 => unit.change(rt, Place { index: 64, sub: 0 }, &[octet]),
            2 => unit.change(rt, Place { index: 65, sub: 0 }, &[octet]),
            _ => unit.change(rt, Place { index: 80, sub: 0 }, &[octet, 1, 2, 3, 4, octet]),
        }
    }

    /// The master begins anew, with the set that its program has saved.
    fn crash(&mut self, rt: &HostRuntime) -> Result<()> {
        self.program.drain(rt, &mut self.port)?;
        if self.chance.once_in(2) {
            self.line.unit()?.silence(rt)?;
        }
        let set = self.program.saved_set()?;
        self.number = self.number.wrapping_add(1);
        println!(rt; "port {} {}", self.number, Hex(self.program.disk()))?;
        let Temper {
            devices,
            mode,
            limits,
            ..
        } = self.temper;
        self.port = StoredPort::open(self.alloc, &limits, devices, mode, set)?;
        self.program.forget_all();
        self.reported = Reported::new();
        self.reported
            .backup
            .try_extend_from_slice(self.program.disk())?;
        Ok(())
    }

    /// The program does what it likes, and a turn goes by.
    fn step(&mut self, rt: &HostRuntime) -> Result<()> {
        self.turn = self.turn.wrapping_add(1);
        self.program
            .act(rt, &mut self.port, &self.temper, &mut self.chance)?;
        self.reported.tell(rt, &self.port, self.turn)?;
        match self.port.send() {
            Transmission::Wake => {
                self.reported.tell(rt, &self.port, self.turn)?;
                let rate = self.line.wake(rt, &mut self.chance)?;
                self.port.receive_wake(rate);
            }
            Transmission::Exchange(sent) => {
                self.reported.tell(rt, &self.port, self.turn)?;
                let owner = Owner {
                    port: self.number,
                    ended: ended_at(&self.port),
                };
                let received = self
                    .line
                    .exchange(rt, &mut self.chance, &sent.octets, owner)?;
                self.port.receive(&received);
            }
        }
        self.reported.tell(rt, &self.port, self.turn)
    }
}

/// How many requests of a port were taken and have their outcome.
fn ended_at(port: &StoredPort) -> u64 {
    let counters = port.port().counters();
    let unknown = &counters.unknown;
    counters
        .done
        .wrapping_add(unknown.link_lost)
        .wrapping_add(unknown.restarted)
        .wrapping_add(unknown.busy_too_long)
        .wrapping_add(unknown.protocol)
        .wrapping_add(unknown.cancelled)
}

/// The octets of a set, none where there is none.
pub fn image_of(set: Option<&Set>, image: &mut SetImage) {
    match set {
        Some(set) => set.write_into(image),
        None => image.clear(),
    }
}
