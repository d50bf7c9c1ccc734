//! A unit: a device with a table, whose requests are told as it carries them out.
use crate::chance::Chance;
use crate::models::{MOODS, Model};
use crate::text::{AnswerText, Hex, RequestText};
use anyhow::Result;
use iol_device::{Apart, Device, NoRecord};
use iol_event::Event;
use iol_image::Image;
use iol_isdu::{Answer, Place, Request};
use iol_mseq::Message;
use iol_page::Page;
use iol_param_device::{SavedManager, UPLOAD_REQUEST, goes_back, slot_size};
use iol_params::{Activity, Scope, Table};
use iol_slots::RamSlots;
use std::alloc::Global;

/// An event that isn't of Data Storage: a warning that a limit was passed.
const WARNING: Event = Event {
    qualifier: 0xE4,
    code: 0x8C10,
};
/// So many events are more than the event memory takes.
const CROWD: u64 = 40;

/// Where a unit has its SerialNumber.
const SERIAL_NUMBER: Place = Place { index: 21, sub: 0 };

/// Whose request it is that was handed over: the port, 1 the first, and how many requests had ended
/// there before it.
#[derive(Clone, Copy, Debug, PartialEq, Eq)]
pub struct Owner {
    pub port: u64,
    pub ended: u64,
}

#[derive(Drop)]
pub struct Unit<'a> {
    name: u64,
    model: Model,
    device: Device<Apart, NoRecord>,
    saved: SavedManager<'a, RamSlots>,
    owner: Owner,
    /// The number of the request that was handed over last.
    number: u64,
    /// The activity that was told last.
    activity: Activity,
    /// Whether a valid output was told last.
    output: bool,
}

impl<'a> Unit<'a> {
    pub fn open(alloc: Global, name: u64, model: Model, table: &'a Table<'a>) -> Result<Unit<'a>> {
        let slots = RamSlots::open(alloc, slot_size(table))?;
        let page = Page::from_octets(&model.page());
        page.layouts()?;
        let mut device = Device::new(Apart, page);
        let _ = device.set_input(&Image::new(&[1, 2])?);
        Ok(Unit {
            name,
            model,
            device,
            saved: SavedManager::open(alloc, table, slots)?,
            owner: Owner { port: 0, ended: 0 },
            number: 0,
            activity: Activity::Idle,
            output: false,
        })
    }

    pub fn model(&self) -> Model {
        self.model
    }

    /// Tells what the unit is.
    pub fn tell_page(&self, rt: &HostRuntime) -> Result<()> {
        let page = self.model.page();
        println!(rt; "unit {} {} {:?}", self.name, Hex(&page), self.model)?;
        self.tell_state(rt)
    }

    /// Tells the flag, the activity, the locks, and the values that Data Storage keeps.
    pub fn tell_state(&self, rt: &HostRuntime) -> Result<()> {
        let manager = self.saved.manager();
        let flag = u8::from(manager.flag());
        let activity = activity_word(manager.activity());
        print!(rt;
            "state {} {flag} {activity} {}",
            self.name,
            manager.locks().octet()
        )?;
        for index in self.model.stored() {
            if let Answer::Read(octets) = manager.read(Place {
                index: *index,
                sub: 0,
            }) {
                print!(rt; " {index}:{}", Hex(octets.as_slice()))?;
            }
        }
        println!(rt;)?;
        Ok(())
    }

    /// Tells the state where its activity is another one, and whether its output is valid.
    fn tell_changes(&mut self, rt: &HostRuntime) -> Result<()> {
        let activity = self.saved.manager().activity();
        if activity != self.activity {
            self.activity = activity;
            self.tell_state(rt)?;
        }
        let output = self.device.output().is_some();
        if output != self.output {
            self.output = output;
            println!(rt; "out {} {}", self.name, u8::from(output))?;
        }
        Ok(())
    }

    /// Octets came, which are of this request if one is handed over by them.
    pub fn hear(
        &mut self,
        rt: &HostRuntime,
        octets: &[u8],
        owner: Owner,
    ) -> Result<Option<Message>> {
        let before = self.device.mode();
        let reply = self.device.hear(octets);
        if goes_back(before, self.device.mode()) {
            self.saved.over();
        }
        if let Some(number) = self.device.handed_number() {
            if number != self.number {
                self.number = number;
                self.owner = owner;
            }
        }
        self.tell_changes(rt)?;
        Ok(reply)
    }

    /// The request that is handed over, if one is, has its answer; an event that is due is raised.
    pub fn work(&mut self, rt: &HostRuntime, chance: &mut Chance) -> Result<()> {
        if let (Some(number), Some(request)) = (self.device.handed_number(), self.device.handed()) {
            let is_moody = chance.once_in(MOODS);
            let answer = answer_of(&mut self.saved, self.model, self.name, request, is_moody);
            let Owner { port, ended } = self.owner;
            let asked = RequestText(request);
            println!(rt;
                "carry {} {port} {ended} {asked} {}",
                self.name,
                AnswerText(&answer)
            )?;
            let is_write = matches!(request, Request::Write(..));
            let _ = self.device.answer(number, answer);
            if is_write {
                self.activity = self.saved.manager().activity();
                self.tell_state(rt)?;
            }
        }
        self.raise_due(rt)
    }

    /// An event that is due is raised, if the event memory takes it.
    fn raise_due(&mut self, rt: &HostRuntime) -> Result<()> {
        if !self.saved.manager().is_event_due() {
            return Ok(());
        }
        if self.device.raise(UPLOAD_REQUEST).is_ok() {
            self.saved.event_raised();
        } else {
            println!(rt; "full {}", self.name)?;
        }
        Ok(())
    }

    /// As many other events are raised as the event memory takes.
    pub fn crowd(&mut self, rt: &HostRuntime) -> Result<()> {
        println!(rt; "crowd {}", self.name)?;
        for _ in 0..CROWD {
            let _ = self.device.raise(WARNING);
        }
        Ok(())
    }

    /// A user changes a value at the unit.
    pub fn change(&mut self, rt: &HostRuntime, place: Place, octets: &[u8]) -> Result<()> {
        let Place { index, sub } = place;
        let answer = match self.saved.set(place, octets) {
            Ok(()) => 0,
            Err(why) => why.additional(),
        };
        let (name, octets) = (self.name, Hex(octets));
        println!(rt; "local {name} {index} {sub} {octets} {answer:02X}")?;
        self.tell_state(rt)
    }

    /// A user has it as it left the factory.
    pub fn reset(&mut self, rt: &HostRuntime) -> Result<()> {
        let done = u8::from(self.saved.reset().is_ok());
        println!(rt; "factory {} {done}", self.name)?;
        self.tell_state(rt)
    }

    pub fn wake(&mut self, rt: &HostRuntime) -> Result<()> {
        self.device.wake();
        self.saved.over();
        self.tell_changes(rt)
    }

    pub fn silence(&mut self, rt: &HostRuntime) -> Result<()> {
        println!(rt; "silence {}", self.name)?;
        self.device.silence();
        self.saved.silence();
        self.tell_changes(rt)
    }

    /// The power fails and comes back.
    pub fn power_cycle(&mut self, rt: &HostRuntime) -> Result<()> {
        println!(rt; "power {}", self.name)?;
        self.device.power_cycle();
        self.saved.power_cycle();
        self.number = 0;
        self.activity = self.saved.manager().activity();
        self.tell_changes(rt)?;
        self.tell_state(rt)
    }
}

/// What a unit answers.
fn answer_of(
    saved: &mut SavedManager<'_, RamSlots>,
    model: Model,
    name: u64,
    request: &Request,
    is_moody: bool,
) -> Answer {
    if let Some(answer) = model.own_answer(request, is_moody) {
        return answer;
    }
    if *request == Request::Read(SERIAL_NUMBER) {
        let mut answer = Answer::Written;
        let [last, ..] = name.to_le_bytes();
        answer.set_read(&[b'N', last]);
        return answer;
    }
    saved.carry(request)
}

fn activity_word(activity: Activity) -> &'static str {
    match activity {
        Activity::Idle => "idle",
        Activity::Upload(Scope::Block) => "upload-block",
        Activity::Upload(Scope::Storage) => "upload-storage",
        Activity::Download(Scope::Block, _) => "download-block",
        Activity::Download(Scope::Storage, _) => "download-storage",
        Activity::CutOff => "cut-off",
    }
}
