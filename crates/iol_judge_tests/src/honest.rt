//! Random captures that a device by the rules brings over a lossy line: none is called not honest.
ghost use Rattle.std.specs.Prelude.{◌<◌};

use crate::kinds::{KINDS, ROOM, Refuses};
use iol_device::{Device, Record};
use iol_event::Event;
use iol_far::Kind;
use iol_image::Image;
use iol_judge::{Judge, Odd, Verdict, Wake, honest_lines_are_never_blamed};
use iol_mseq::Message;
use iol_octets::checksum6;
use iol_page::Page;
use iol_peers::{ONE_OCTET, PLAIN, PROCESS_DATA};
use std::alloc::{AllocError, Allocator};
use std::test::Fail;

/// Numbers that look random, the same in each run.
#[derive(Clone, Copy)]
pub(crate) struct Random(pub u64);

impl Random {
    /// A number below a limit that is above 0.
    pub(crate) fn below(&mut self, limit: u64) -> u64
        requires { 0 < limit }
        ensures { result < limit }
    {
        self.0 = self
            .0
            .wrapping_mul(6364136223846793005)
            .wrapping_add(1442695040888963407);
        (self.0 >> 33) % limit
    }

    pub(crate) fn octet(&mut self) -> u8 {
        self.below(256) as u8
    }
}

/// A device, the judge of its line, and chance.
#[derive(Drop)]
struct Line<R: Record> {
    device: Device<Refuses, R>,
    judge: Judge,
    random: Random,
    /// The M-sequence type of the last message that was answered.
    kind: u8,
}

/// The control octets that a master sends, the writes of page address 0x00 more often.
const CONTROLS: [u8; 30] = [
    0xA2, 0xA3, 0xA4, 0xA5, 0xA6, 0xA1, 0xAC, 0x21, 0x20, 0x20, 0x20, 0x20, 0x40, 0x40, 0xC0, 0xC0,
    0xC1, 0xC2, 0xC3, 0xC4, 0xD2, 0xD3, 0x80, 0xF1, 0x70, 0x70, 0xF0, 0xF0, 0xF0, 0xE1,
];

/// A START write on the ISDU channel.
const START_WRITE: u8 = 0x70;

/// The request to read Index 16, in a segment.
const REQUEST: [u8; 8] = [0x93, 0x10, 0x83, 0, 0, 0, 0, 0];

/// The commands that ask for a mode.
const COMMANDS: [u8; 3] = [0x97, 0x99, 0x9A];

impl<R: Record> Line<R> {
    /// Octets that are a message in some layout, and often in the device's, with their M-sequence
    /// type.
    fn message(&mut self) -> (Message, u8) {
        let control = CONTROLS[self.random.below(30) as usize];
        let mut kind = self.kind;
        if self.random.below(3) == 0 {
            kind = self.random.below(3) as u8;
        }
        let mut sent = Message::new();
        sent.push(control);
        sent.push(kind << 6);
        if kind == 2 {
            sent.push(self.random.octet());
        }
        if control < 128 {
            let mut data = [COMMANDS[self.random.below(3) as usize], 0, 0, 0, 0, 0, 0, 0];
            if control == START_WRITE {
                data = REQUEST;
            }
            let size = if kind == 1 { 8 } else { 1 };
            sent.try_extend_from_slice(&data[..size]).unwrap();
        }
        let sum = checksum6(&sent);
        sent[1] |= sum;
        (sent, kind)
    }

    /// Something that the device does by itself.
    fn step(&mut self) {
        match self.random.below(24) {
            0 | 6 => {
                let _ = self.device.raise(Event {
                    qualifier: self.random.octet(),
                    code: 0x1000,
                });
            }
            1 => self.device.clear_input(),
            2 | 3 => {
                if let Ok(image) = Image::new(&[self.random.octet(), 7]) {
                    let _ = self.device.set_input(&image);
                }
            }
            4 => self.device.power_cycle(),
            5 => self.device.work(),
            _ => {}
        }
    }

    /// A wake-up request, which may be lost, and the answer of which may be.
    fn wake(&mut self) {
        match self.random.below(3) {
            0 => self.judge.wake(Wake::Unanswered),
            1 => {
                self.device.wake();
                self.judge.wake(Wake::Unanswered);
            }
            _ => {
                self.device.wake();
                self.judge.wake(Wake::Answered);
            }
        }
    }

    /// An exchange, of which the message may be lost, and the reply lost or damaged.
    fn exchange(&mut self) {
        let (sent, kind) = self.message();
        match self.random.below(10) {
            0 => self.judge.exchange(&sent, None),
            1 => {
                self.device.hear(&sent);
                self.judge.exchange(&sent, None);
            }
            2 => {
                let reply = self.device.hear(&sent);
                self.damaged(&sent, reply);
            }
            _ => match self.device.hear(&sent) {
                Some(reply) => {
                    self.kind = kind;
                    self.judge.exchange(&sent, Some(&reply));
                }
                None => self.judge.exchange(&sent, None),
            },
        }
    }

    /// A reply with one bit flipped.
    fn damaged(&mut self, sent: &[u8], reply: Option<Message>) {
        match reply {
            Some(mut octets) => {
                if let Some(octet) = octets.first_mut() {
                    *octet ^= 4;
                }
                self.judge.exchange(sent, Some(&octets));
            }
            None => self.judge.exchange(sent, None),
        }
    }

    /// So many exchanges, with a wake-up request now and then.
    fn run(&mut self, exchanges: u32) {
        for _ in 0..exchanges {
            self.step();
            if self.random.below(8) == 0 {
                self.wake();
            }
            self.exchange();
        }
    }

    /// Whether the judge says nothing against the device, and leaves its kind.
    fn is_fair(&self, kind: Kind) -> bool {
        self.judge.verdict() == Verdict::Honest && self.judge.kinds().has(kind)
    }
}

/// The line of a device of this page, which is told to the judge, right behind an answered
/// wake-up request.
fn line_of<R: Record>(mut device: Device<Refuses, R>, page: &[u8; 10], seed: u64) -> Line<R> {
    let mut judge = Judge::new(Odd::Blamed);
    judge.page(page);
    device.wake();
    judge.wake(Wake::Answered);
    Line {
        device,
        judge,
        random: Random(seed),
        kind: 0,
    }
}

/// Whether a judge is fair to devices of this kind, on random captures as long as that.
fn is_fair_to<A: Allocator + Copy>(
    alloc: A,
    kind: Kind,
    exchanges: u32,
) -> Result<bool, AllocError> {
    let pages = [PLAIN, PROCESS_DATA, ONE_OCTET];
    for page in &pages {
        for seed in 0..5 {
            let device = Device::open_as(
                alloc,
                kind,
                Refuses,
                Page::from_octets(page),
                ROOM,
            ).map_err(|_| AllocError)?;
            let mut line = line_of(device, page, seed);
            line.run(exchanges);
            if !line.is_fair(kind) {
                return Ok(false);
            }
        }
    }
    Ok(true)
}

/// Many random captures of devices by the rules, of each kind, are all honest, though many messages
/// aren't answered.
#[test]
fn devices_by_the_rules_are_honest(rt: HostRuntime) -> Result<(), Fail> {
    honest_lines_are_never_blamed();
    for kind in &KINDS {
        assert!(rt; is_fair_to(rt.alloc(), *kind, 500)?);
    }
    Ok(())
}
