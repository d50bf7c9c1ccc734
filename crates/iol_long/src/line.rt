//! The line: a device of our own at the far end, and what is lost on the way.

use crate::chance::Chance;
use crate::fault::LongFault;
use crate::plain::PlainList;
use iol_device::{Apart, Device, NoRecord};
use iol_link::Rate;
use iol_mseq::Message;
use iol_page::Page;

/// V1.1, with ISDU, 8 octets of on-request data, no process data.
const PAGE: [u8; 10] = [0x17, 0x2D, 0x11, 0x00, 0x00, 0x12, 0x34, 0x00, 0x01, 0x07];

/// Of so many exchanges one is lost or damaged.
const LOST: u64 = 40;

/// Of so many exchanges one begins a time in which all are lost: up to `LONGEST_GAP`.
const GAPS: u64 = 500;

const LONGEST_GAP: u64 = 8;

/// Of so many exchanges one comes behind a power cycle of the device.
const POWER_CYCLES: u64 = 5_000;

/// The application works before one of so many messages: else the device answers that it is busy.
const WORKS: u64 = 2;

/// What becomes of an exchange.
#[derive(Clone, Copy)]
enum Fate {
    Clean,
    MessageLost,
    MessageDamaged,
    ReplyLost,
    ReplyDamaged,
}

/// A lossy line to a device, whose application is the plain list.
#[derive(Drop)]
pub(crate) struct Line {
    device: Device<Apart, NoRecord>,
    chance: Chance,
    /// How many exchanges are still lost.
    gap: u64,
    /// How many were lost or damaged.
    lost: u64,
}

impl Line {
    pub(crate) fn new(seed: u64) -> Line {
        Line {
            device: Device::new(Apart, Page::from_octets(&PAGE)),
            chance: Chance::new(seed),
            gap: 0,
            lost: 0,
        }
    }

    /// How many exchanges were lost or damaged.
    pub(crate) fn lost(&self) -> u64 {
        self.lost
    }

    /// A wake-up request, before which the application may carry out what was cut off.
    pub(crate) fn wake(&mut self, list: &mut PlainList) -> Result<Option<Rate>, LongFault> {
        if self.chance.once_in(WORKS) {
            self.work(list)?;
        }
        let rate = match self.fate() {
            Fate::MessageLost | Fate::MessageDamaged => return Ok(None),
            Fate::ReplyLost | Fate::ReplyDamaged => None,
            Fate::Clean => Some(Rate::Com2),
        };
        self.device.wake();
        Ok(rate)
    }

    /// An exchange, before which the application may carry a request out.
    pub(crate) fn exchange(
        &mut self,
        sent: &Message,
        list: &mut PlainList,
    ) -> Result<Option<Message>, LongFault> {
        if self.chance.once_in(POWER_CYCLES) {
            self.device.power_cycle();
        }
        if self.chance.once_in(WORKS) {
            self.work(list)?;
        }
        Ok(match self.fate() {
            Fate::Clean => self.device.hear(sent.as_slice()),
            Fate::MessageLost => None,
            Fate::MessageDamaged => self.device.hear(damaged(sent)?.as_slice()),
            Fate::ReplyLost => {
                let _ = self.device.hear(sent.as_slice());
                None
            }
            Fate::ReplyDamaged => match self.device.hear(sent.as_slice()) {
                Some(reply) => Some(damaged(&reply)?),
                None => None,
            },
        })
    }

    /// The application carries out the request that is handed over, if one is.
    fn work(&mut self, list: &mut PlainList) -> Result<(), LongFault> {
        let Some(number) = self.device.handed_number() else {
            return Ok(());
        };
        let Some(request) = self.device.handed() else {
            return Ok(());
        };
        let answer = list.carry_out(request)?;
        match self.device.answer(number, answer) {
            Ok(()) => Ok(()),
            Err(_) => Err(LongFault::Refused),
        }
    }

    fn fate(&mut self) -> Fate {
        if self.gap == 0 && self.chance.once_in(GAPS) {
            self.gap = self.chance.below(LONGEST_GAP);
        }
        if self.gap == 0 && !self.chance.once_in(LOST) {
            return Fate::Clean;
        }
        self.gap = self.gap.saturating_sub(1);
        self.lost = self.lost.saturating_add(1);
        match self.chance.below(4) {
            0 => Fate::MessageLost,
            1 => Fate::MessageDamaged,
            2 => Fate::ReplyLost,
            _ => Fate::ReplyDamaged,
        }
    }
}

/// The same octets, with bit 0 of the last one flipped.
fn damaged(octets: &Message) -> Result<Message, LongFault> {
    let mut other = octets.clone()?;
    if let Some(octet) = other.last_mut() {
        *octet ^= 1;
    }
    Ok(other)
}
