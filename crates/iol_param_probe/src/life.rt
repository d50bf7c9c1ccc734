//! A device's saved parameters, from one opening to the next.
use crate::logged::LoggedSlots;
use crate::words::Words;
use anyhow::{Context, Result};
use iol_isdu::{Answer, Request};
use iol_param_device::{SavedManager, slot_size};
use iol_params::{Activity, ErrorType, Manager, Restart, Scope, Table, WritesSoFar};
use iol_slots::{Slot, Slots};
use std::alloc::Global;

/// A table, and the manager of it that is switched on, if any.
#[derive(Drop)]
pub struct Life<'a> {
    alloc: Global,
    table: &'a Table<'a>,
    saved: Option<SavedManager<'a, LoggedSlots>>,
}

impl<'a> Life<'a> {
    pub fn new(alloc: Global, table: &'a Table<'a>) -> Life<'a> {
        Life {
            alloc,
            table,
            saved: None,
        }
    }

    /// Answers a line.
    pub fn answer(&mut self, rt: &HostRuntime, words: &mut Words) -> Result<()> {
        match words.word()? {
            "open" => {
                let slots = LoggedSlots::open(self.alloc, slot_size(self.table))?;
                self.open(rt, slots)
            }
            "plug" => {
                let mut slots = LoggedSlots::open(self.alloc, slot_size(self.table))?;
                slots.fill(Slot::First, &words.octets(self.alloc)?);
                slots.fill(Slot::Second, &words.octets(self.alloc)?);
                self.open(rt, slots)
            }
            "unplug" => self.unplug(rt),
            other => {
                let saved = self.saved.as_mut().context("it is switched off")?;
                answer_call(rt, saved, other, words, self.alloc)
            }
        }
    }

    fn open(&mut self, rt: &HostRuntime, slots: LoggedSlots) -> Result<()> {
        self.saved = Some(SavedManager::open(self.alloc, self.table, slots)?);
        println!(rt; "ok")?;
        Ok(())
    }

    /// Switches it off, and prints its slots, how many octets were stored, and whether in order.
    fn unplug(&mut self, rt: &HostRuntime) -> Result<()> {
        let slots = self
            .saved
            .take()
            .context("it is switched off")?
            .into_slots();
        print!(rt; "slots ")?;
        print_octets(rt, slots.octets(Slot::First))?;
        print!(rt; " ")?;
        print_octets(rt, slots.octets(Slot::Second))?;
        let order = u8::from(slots.is_in_order());
        println!(rt; " {} {order}", slots.count())?;
        Ok(())
    }
}

/// Answers a line of one that is switched on.
fn answer_call(
    rt: &HostRuntime,
    saved: &mut SavedManager<'_, LoggedSlots>,
    name: &str,
    words: &mut Words,
    alloc: Global,
) -> Result<()> {
    match name {
        "read" => print_answer(rt, saved.carry(&Request::read(words.place()?))),
        "write" => {
            let place = words.place()?;
            let octets = words.octets(alloc)?;
            let request = Request::write(place, &octets)
                .ok()
                .context("too many octets")?;
            print_answer(rt, saved.carry(&request))
        }
        "set" => {
            let place = words.place()?;
            print_done(rt, saved.set(place, &words.octets(alloc)?))
        }
        "reset" => print_done(rt, saved.reset()),
        "state" => print_state(rt, saved.manager()),
        other => {
            change(saved, other)?;
            print_done(rt, Ok(()))
        }
    }
}

/// What always comes to pass.
fn change(saved: &mut SavedManager<'_, LoggedSlots>, name: &str) -> Result<()> {
    match name {
        "power" => saved.power_cycle(),
        "over" => saved.over(),
        "silence" => saved.silence(),
        "raised" => saved.event_raised(),
        _ => return None.context("there is no such call"),
    }
    Ok(())
}

fn print_octets(rt: &HostRuntime, octets: &[u8]) -> Result<()> {
    if octets.is_empty() {
        print!(rt; "-")?;
    }
    for octet in octets {
        print!(rt; "{octet:02X}")?;
    }
    Ok(())
}

fn print_answer(rt: &HostRuntime, answer: Answer) -> Result<()> {
    match answer {
        Answer::Read(octets) => {
            print!(rt; "read ")?;
            print_octets(rt, octets.as_slice())?;
            println!(rt;)?;
        }
        Answer::Written => println!(rt; "written")?,
        Answer::Refused(code, additional) => println!(rt; "refused {code:02X} {additional:02X}")?,
    }
    Ok(())
}

fn print_done(rt: &HostRuntime, done: Result<(), ErrorType>) -> Result<()> {
    match done {
        Ok(()) => println!(rt; "done")?,
        Err(why) => println!(rt; "refused 80 {:02X}", why.additional())?,
    }
    Ok(())
}

/// The flag, whether its event is due, the locks, the activity, and what the program has to do.
fn print_state(rt: &HostRuntime, manager: &Manager) -> Result<()> {
    let activity = match manager.activity() {
        Activity::Idle => "idle",
        Activity::Upload(Scope::Block) => "block-upload",
        Activity::Upload(Scope::Storage) => "storage-upload",
        Activity::Download(Scope::Block, WritesSoFar::AllTaken) => "block-download",
        Activity::Download(Scope::Storage, WritesSoFar::AllTaken) => "storage-download",
        Activity::Download(_, WritesSoFar::OneRefused) => "spoiled-download",
        Activity::CutOff => "cut-off",
    };
    let restart = match manager.restart() {
        Restart::NotDue => "none",
        Restart::Warm => "warm",
        Restart::Silent => "silent",
    };
    let flag = u8::from(manager.flag());
    let event = u8::from(manager.is_event_due());
    let locks = manager.locks().octet();
    println!(rt; "state {flag} {event} {locks} {activity} {restart}")?;
    Ok(())
}
