//! How a life is: how often what happens in it.
use crate::chance::Chance;
use crate::line::Badness;
use anyhow::{Context, Result};
use iol_book::{BusyLimit, JournalLimit, Limits, QueueLimit};
use iol_mode::Devices;
use iol_storage::StorageMode;

/// Each is once in so many turns; 0 is never.
#[derive(Clone, Copy)]
pub struct Temper {
    pub devices: Devices,
    pub mode: StorageMode,
    pub limits: Limits,
    pub turns: u64,
    pub badness: Badness,
    pub gaps: u64,
    pub plugs: u64,
    pub powers: u64,
    pub changes: u64,
    pub resets: u64,
    /// The event memory of the unit is filled.
    pub crowds: u64,
    pub restarts: u64,
    pub crashes: u64,
    pub requests: u64,
    /// Of so many requests one is a command, or a lock.
    pub commands: u64,
    pub collects: u64,
    pub takes_back: u64,
    pub blocks: u64,
    pub block_collects: u64,
    pub events: u64,
    pub saves: u64,
    pub drains: u64,
    pub outputs: u64,
    pub loads: u64,
    pub releases: u64,
}

impl Temper {
    pub fn by(chance: &mut Chance) -> Result<Temper> {
        Ok(Temper {
            devices: devices_by(chance),
            mode: mode_by(chance),
            limits: limits_by(chance)?,
            turns: 200 + chance.below(2_500),
            badness: Badness {
                lost: chance.one_of(&[0, 0, 0, 10, 50, 100, 200]),
                gaps: chance.one_of(&[0, 0, 300, 1_000]),
                works: chance.one_of(&[1, 1, 2, 6]),
            },
            gaps: chance.one_of(&[0, 200, 600]),
            plugs: chance.one_of(&[0, 150, 500, 1_500]),
            powers: chance.one_of(&[0, 0, 150, 600]),
            changes: chance.one_of(&[0, 40, 150, 500]),
            resets: chance.one_of(&[0, 0, 700]),
            crowds: chance.one_of(&[0, 0, 0, 200]),
            restarts: chance.one_of(&[0, 0, 200, 600]),
            crashes: chance.one_of(&[0, 200, 600]),
            requests: chance.one_of(&[0, 2, 10, 40]),
            commands: chance.one_of(&[0, 0, 10, 30]),
            collects: chance.one_of(&[1, 3, 30, 300]),
            takes_back: chance.one_of(&[0, 30, 200]),
            blocks: chance.one_of(&[0, 5, 60, 200]),
            block_collects: chance.one_of(&[1, 20, 200]),
            events: chance.one_of(&[0, 2, 50]),
            saves: chance.one_of(&[1, 1, 10, 60, 400]),
            drains: chance.one_of(&[0, 5, 50, 300]),
            outputs: chance.one_of(&[0, 20, 100]),
            loads: chance.one_of(&[0, 0, 60, 300]),
            releases: chance.one_of(&[0, 0, 30, 200]),
        })
    }

    /// From now on nothing is lost, nobody disturbs, and the program does what it has to.
    pub fn calm(&mut self) {
        self.badness = Badness {
            lost: 0,
            gaps: 0,
            works: 1,
        };
        self.gaps = 0;
        self.plugs = 0;
        self.powers = 0;
        self.changes = 0;
        self.resets = 0;
        self.crowds = 0;
        self.restarts = 0;
        self.crashes = 0;
        self.requests = 0;
        self.collects = 1;
        self.takes_back = 0;
        self.blocks = 0;
        self.block_collects = 1;
        self.events = 1;
        self.saves = 1;
        self.drains = 2;
        self.outputs = 0;
        self.loads = 0;
        self.releases = 0;
    }
}

fn devices_by(chance: &mut Chance) -> Devices {
    match chance.below(2) {
        0 => Devices::Own,
        _ => Devices::Any,
    }
}

fn mode_by(chance: &mut Chance) -> StorageMode {
    match chance.below(8) {
        0 => StorageMode::Off,
        1 => StorageMode::Restore,
        2 | 3 => StorageMode::Own,
        _ => StorageMode::Both,
    }
}

fn limits_by(chance: &mut Chance) -> Result<Limits> {
    let journal = chance.one_of(&[12, 40, 100, 400, 1_000, 1_000]);
    let busy = chance.one_of(&[4, 20, 100]);
    let queue = chance.one_of(&[3, 4, 6, 16, 64]);
    Ok(Limits {
        journal: JournalLimit::new(journal).context("no such journal")?,
        busy: BusyLimit::new(busy).context("no such limit of busy replies")?,
        given: 0,
        queue: QueueLimit::new(queue).context("no such queue")?,
    })
}
