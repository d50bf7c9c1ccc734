//! The line to one of several units, and what is lost on the way.
use crate::chance::Chance;
use crate::unit::{Owner, Unit};
use anyhow::{Context, Result};
use iol_link::Rate;
use iol_mseq::Message;

/// The longest time in which all is lost.
const LONGEST_GAP: u64 = 12;

/// So many messages in a row are lost before a unit may count its master as silent.
const SILENCE: u64 = 4;

/// What becomes of an exchange.
#[derive(Clone, Copy)]
enum Fate {
    Clean,
    MessageLost,
    MessageDamaged,
    ReplyLost,
    ReplyDamaged,
}

/// How bad a line is.
#[derive(Clone, Copy)]
pub struct Badness {
    /// Of a thousand exchanges so many are lost or damaged.
    pub lost: u64,
    /// Of so many exchanges one begins a time in which all are lost.
    pub gaps: u64,
    /// The unit works before one of so many exchanges: else it is busy.
    pub works: u64,
}

#[derive(Drop)]
pub struct Line<'a> {
    pub units: Vec<Unit<'a>>,
    /// Which unit stands at it.
    pub at: usize,
    pub badness: Badness,
    /// How many exchanges are still lost.
    gap: u64,
    /// How many messages in a row the unit didn't hear.
    unheard: u64,
}

impl<'a> Line<'a> {
    pub fn new(units: Vec<Unit<'a>>, badness: Badness) -> Line<'a> {
        Line {
            units,
            at: 0,
            badness,
            gap: 0,
            unheard: 0,
        }
    }

    /// The unit that stands at it.
    pub fn unit(&mut self) -> Result<&mut Unit<'a>> {
        self.units.get_mut(self.at).context("no unit stands there")
    }

    /// Another unit is plugged in, which has its power from then on.
    pub fn plug(&mut self, rt: &HostRuntime, chance: &mut Chance) -> Result<()> {
        let count = self.units.len() as u64;
        if count > 0 {
            self.at = chance.below(count) as usize;
            println!(rt; "plug {}", self.at)?;
            self.unit()?.power_cycle(rt)?;
        }
        Ok(())
    }

    /// All is lost for so many exchanges.
    pub fn lose(&mut self, count: u64) {
        self.gap = count;
    }

    pub fn wake(&mut self, rt: &HostRuntime, chance: &mut Chance) -> Result<Option<Rate>> {
        self.work(rt, chance)?;
        let rate = match self.fate(chance) {
            Fate::MessageLost | Fate::MessageDamaged => return Ok(None),
            Fate::ReplyLost | Fate::ReplyDamaged => None,
            Fate::Clean => Some(Rate::Com2),
        };
        self.unit()?.wake(rt)?;
        Ok(rate)
    }

    pub fn exchange(
        &mut self,
        rt: &HostRuntime,
        chance: &mut Chance,
        sent: &Message,
        owner: Owner,
    ) -> Result<Option<Message>> {
        self.work(rt, chance)?;
        let fate = self.fate(chance);
        self.listen(rt, chance, fate)?;
        let unit = self.unit()?;
        Ok(match fate {
            Fate::Clean => unit.hear(rt, sent.as_slice(), owner)?,
            Fate::MessageLost => None,
            Fate::MessageDamaged => unit.hear(rt, damaged(sent)?.as_slice(), owner)?,
            Fate::ReplyLost => {
                let _ = unit.hear(rt, sent.as_slice(), owner)?;
                None
            }
            Fate::ReplyDamaged => match unit.hear(rt, sent.as_slice(), owner)? {
                Some(reply) => Some(damaged(&reply)?),
                None => None,
            },
        })
    }

    /// The unit may count its master as silent.
    fn listen(&mut self, rt: &HostRuntime, chance: &mut Chance, fate: Fate) -> Result<()> {
        self.unheard = match fate {
            Fate::MessageLost | Fate::MessageDamaged => self.unheard.saturating_add(1),
            Fate::Clean | Fate::ReplyLost | Fate::ReplyDamaged => 0,
        };
        if self.unheard >= SILENCE && chance.once_in(2) {
            self.unheard = 0;
            self.unit()?.silence(rt)?;
        }
        Ok(())
    }

    fn work(&mut self, rt: &HostRuntime, chance: &mut Chance) -> Result<()> {
        if chance.once_in(self.badness.works) {
            self.unit()?.work(rt, chance)?;
        }
        Ok(())
    }

    fn fate(&mut self, chance: &mut Chance) -> Fate {
        if self.gap == 0 && chance.once_in(self.badness.gaps) {
            self.gap = chance.below(LONGEST_GAP);
        }
        if self.gap == 0 && chance.below(1_000) >= self.badness.lost {
            return Fate::Clean;
        }
        self.gap = self.gap.saturating_sub(1);
        match chance.below(4) {
            0 => Fate::MessageLost,
            1 => Fate::MessageDamaged,
            2 => Fate::ReplyLost,
            _ => Fate::ReplyDamaged,
        }
    }
}

/// The same octets, with bit 0 of the last one flipped.
fn damaged(octets: &Message) -> Result<Message> {
    let mut other = octets.clone()?;
    if let Some(octet) = other.last_mut() {
        *octet ^= 1;
    }
    Ok(other)
}
