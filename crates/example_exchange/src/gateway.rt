//! The gateway: its turns, and what it does behind each of them.
use crate::cable::Cable;
use anyhow::Result;
use example_kept::print_set;
use iol_app::Transmission;
use iol_book::{Journal, Limits};
use iol_mode::Devices;
use iol_storage::{Set, StorageMode, StorageStanding, StoredPort};
use std::alloc::Global;

/// More turns than a start-up takes, with a check of Data Storage behind it.
pub const TURNS: u32 = 120;

/// A port with Data Storage, at its cable.
#[derive(Drop)]
pub struct Gateway<'a> {
    pub port: StoredPort,
    pub cable: Cable<'a>,
    /// What was printed last of the port's standing.
    standing: StorageStanding,
    /// For the entries of a drain. It keeps its memory.
    entries: Journal,
}

impl<'a> Gateway<'a> {
    /// A gateway with the set that was saved, if one was. Nothing is plugged in.
    pub fn open(alloc: Global, backup: Option<Set>) -> Result<Gateway<'a>> {
        let limits = Limits::default();
        let port = StoredPort::open(alloc, &limits, Devices::Any, StorageMode::Both, backup)?;
        Ok(Gateway {
            port,
            cable: Cable { sensor: None },
            standing: StorageStanding::Awaited,
            entries: Journal::new(alloc),
        })
    }

    /// So many turns that nothing is left to be done.
    pub fn turns(&mut self, rt: &impl Print) -> Result<()> {
        for _ in 0..TURNS {
            self.turn(rt)?;
        }
        Ok(())
    }

    /// One turn, and all that is to be done behind it.
    pub fn turn(&mut self, rt: &impl Print) -> Result<()> {
        self.exchange(rt)?;
        self.take_event(rt)?;
        self.save(rt)?;
        self.tell_standing(rt)?;
        // This gateway keeps no journal. It is handed out nevertheless: a full one takes no
        // request, of the port's own neither.
        self.entries.clear();
        self.port.drain_into(&mut self.entries)?;
        Ok(())
    }

    /// What the port sends goes out, and the port is told what came back.
    fn exchange(&mut self, rt: &impl Print) -> Result<()> {
        match self.port.send() {
            Transmission::Wake => {
                let rate = self.cable.wake();
                self.port.receive_wake(rate);
            }
            Transmission::Exchange(sent) => {
                let received = self.cable.exchange(rt, sent.octets.as_slice())?;
                self.port.receive(&received);
            }
        }
        Ok(())
    }

    /// Takes an event, if there is one. By FF91 a sensor asks the port to fetch its set: the port
    /// sees it here alone.
    fn take_event(&mut self, rt: &impl Print) -> Result<()> {
        if let Ok(event) = self.port.take_event() {
            println!(rt; "event {:02X} {:04X}", event.qualifier, event.code)?;
        }
        Ok(())
    }

    /// Saves the set that was fetched, if one was. The port tells the sensor only then.
    fn save(&mut self, rt: &impl Print) -> Result<()> {
        if let Some((number, set)) = self.port.unsaved() {
            print_set(rt, set)?;
            self.port.saved(number)?;
            println!(rt; "saved")?;
        }
        Ok(())
    }

    /// Prints the standing where it is another one, and whether there are process data.
    fn tell_standing(&mut self, rt: &impl Print) -> Result<()> {
        let standing = self.port.standing();
        if standing != self.standing {
            let image = self.port.image();
            let word = if image.is_some() { "with" } else { "without" };
            println!(rt; "standing {standing:?}, {word} process data")?;
            self.standing = standing;
        }
        Ok(())
    }
}
