//! A port with its two clients, its line and the plain list.
use crate::chance::Chance;
use crate::client::{Client, MOST_TICKETS, Room};
use crate::counts::Counts;
use crate::fault::{LongFault, Wrong};
use crate::line::Line;
use crate::plain::PlainList;
use iol_app::Transmission;
use iol_book::{BookFault, Journal, JournalLimit, Limits, Outcome};
use iol_port::{AwaitedAnswer, Counters, PortCore, PortFault};
use std::alloc::Global;

/// The octets of one request, or of one answer, at most.
const MOST_DATA: usize = 232;

/// Before one of so many turns the journal is drained, and whenever it is full.
const DRAINS: u64 = 100;

/// Of so many times one is that the next drain waits until it is full.
const PATIENCE: u64 = 3;

/// Behind one of so many turns the port is restarted.
const RESTARTS: u64 = 2_000;

/// More turns than each request takes, and than those take that are outstanding at the end.
const TURNS_EACH: u64 = 1_000;

const LAST_TURNS: u64 = 100_000;

/// The most entries that a ticket has while it is outstanding or in doubt.
const ENTRIES: usize = 4;

/// Whether the port keeps a journal.
#[derive(Clone, Copy, PartialEq, Eq)]
pub(crate) enum Keeps {
    Journal,
    Nothing,
}

/// When the journal is drained next.
#[derive(Clone, Copy, PartialEq, Eq)]
enum Drains {
    NowAndThen,
    WhenFull,
}

/// A port with all that stands round it.
#[derive(Drop)]
pub(crate) struct Station {
    port: PortCore,
    line: Line,
    list: PlainList,
    first: Client,
    second: Client,
    chance: Chance,
    keeps: Keeps,
    drains: Drains,
    drained: Journal,
    outcome: Outcome,
}

impl Station {
    pub(crate) fn open(alloc: Global, seed: u64, keeps: Keeps) -> Result<Station, LongFault> {
        let mut limits = Limits::default();
        let entries = limits.journal.entries() as usize;
        let mut drains = Drains::WhenFull;
        if keeps == Keeps::Nothing {
            limits.journal = JournalLimit::NONE;
            drains = Drains::NowAndThen;
        }
        let mut drained = Journal::new(alloc);
        drained.reserve(entries, entries.saturating_mul(MOST_DATA))?;
        Ok(Station {
            port: PortCore::open(alloc, &limits)?,
            line: Line::new(seed),
            list: PlainList::new(alloc, entries, ENTRIES * (2 * MOST_TICKETS + 1))?,
            first: Client::new(alloc)?,
            second: Client::new(alloc)?,
            chance: Chance::new(!seed),
            keeps,
            drains,
            drained,
            outcome: Outcome::Withdrawn,
        })
    }

    /// Has clients submit until so many tickets are given, and waits for what is outstanding then.
    pub(crate) fn serve(&mut self, count: u64) -> Result<(), LongFault> {
        for _ in 0..count.saturating_mul(TURNS_EACH) {
            if self.list.next_ticket() > count {
                break;
            }
            self.ask(count)?;
            self.go_on()?;
        }
        for _ in 0..LAST_TURNS {
            if !self.first.is_waiting() && !self.second.is_waiting() {
                break;
            }
            self.go_on()?;
        }
        self.drain()?;
        self.list.close(count)
    }

    pub(crate) fn counts(&self) -> &Counts {
        &self.list.counts
    }

    /// The clients ask for something, until so many tickets are given. A full journal is drained.
    fn ask(&mut self, count: u64) -> Result<(), LongFault> {
        let first = self
            .first
            .ask(&mut self.port, &mut self.list, &mut self.chance)?;
        let second = if self.list.next_ticket() > count {
            Room::Left
        } else {
            self.second
                .ask(&mut self.port, &mut self.list, &mut self.chance)?
        };
        let is_full = first == Room::Full || second == Room::Full;
        if is_full && self.keeps == Keeps::Nothing {
            return Err(PortFault::Book(BookFault::JournalFull).into());
        }
        let is_time = self.drains == Drains::NowAndThen && self.chance.once_in(DRAINS);
        if is_full || is_time {
            self.drain()?;
            self.drains = if self.keeps == Keeps::Journal && self.chance.once_in(PATIENCE) {
                Drains::WhenFull
            } else {
                Drains::NowAndThen
            };
        }
        Ok(())
    }

    /// A turn, behind which both clients collect.
    fn go_on(&mut self) -> Result<(), LongFault> {
        let before = left_in_doubt(self.port.counters());
        turn(&mut self.port, &mut self.line, &mut self.list)?;
        if self.chance.once_in(RESTARTS) && self.port.awaits() == AwaitedAnswer::Nothing {
            self.port.restart();
        }
        if left_in_doubt(self.port.counters()) > before {
            self.list.left_in_doubt();
        }
        self.first
            .collect(&mut self.port, &mut self.list, &mut self.outcome)?;
        self.second
            .collect(&mut self.port, &mut self.list, &mut self.outcome)
    }

    /// Drains the journal, and reads it beside the plain list.
    fn drain(&mut self) -> Result<(), LongFault> {
        if self.keeps == Keeps::Nothing {
            return self.forget();
        }
        self.drained.clear();
        let restated = self.port.restated();
        let reported = self.port.drain_into(&mut self.drained)?;
        if reported != restated {
            return Err(Wrong::Restated.of(reported as u64));
        }
        self.list.drained(&self.drained, restated)
    }

    /// Nothing is drained where no journal is kept.
    fn forget(&mut self) -> Result<(), LongFault> {
        match self.port.drain_into(&mut self.drained) {
            Err(PortFault::Book(BookFault::NoJournal)) => {
                self.list.close_reported();
                Ok(())
            }
            Err(fault) => Err(fault.into()),
            Ok(restated) => Err(Wrong::Restated.of(restated as u64)),
        }
    }
}

/// How many requests were cut off that the device could still carry out.
fn left_in_doubt(counters: &Counters) -> u64 {
    let unknown = &counters.unknown;
    unknown.link_lost.saturating_add(unknown.restarted)
}

/// One turn.
fn turn(port: &mut PortCore, line: &mut Line, list: &mut PlainList) -> Result<(), LongFault> {
    match port.send() {
        Transmission::Wake => {
            let rate = line.wake(list)?;
            if rate.is_some() {
                list.reset();
            }
            port.receive_wake(rate);
        }
        Transmission::Exchange(sent) => {
            let received = line.exchange(&sent.octets, list)?;
            port.receive(&received);
        }
    }
    Ok(())
}
