//! The event work of a master.
ghost use Rattle.std.specs.Prelude.{◌≡◌};
ghost use Rattle.iol_judge.specs.MasterReadings.{is_due, no_master_events, flagged_events, checks_instead, reading_after_reply, reading_after};

use iol_event::EventReader;
use iol_mseq::first;
use std::mem::replace;

/// The control octet of a confirm.
const CONFIRM: u8 = 0x40;

/// That of a read of the StatusCode.
const STATUS_READ: u8 = 0xC0;

/// How far the reading of events has come.
#[derive(Debug, Drop)]
pub(crate) enum Reading {
    /// None is under way.
    Resting,
    /// The StatusCode is read, and octets of the places that it marks.
    UnderWay(EventReader),
    /// The list is read, and may be confirmed.
    ConfirmDue,
    /// The StatusCode was refused: nothing is read in this session.
    Refused,
}

/// The event work of a master.
#[derive(Debug, Drop)]
pub(crate) struct MasterEvents {
    /// The Event flag of the last good reply.
    pub flag: bool,
    pub reading: Reading,
}

impl MasterEvents {
    /// As a session begins.
    pub fn new() -> MasterEvents
        ensures { result ≡ no_master_events }
    {
        MasterEvents {
            flag: false,
            reading: Reading::Resting,
        }
    }

    /// Where the StatusCode is due.
    pub fn flagged() -> MasterEvents
        ensures { result ≡ flagged_events }
    {
        MasterEvents {
            flag: true,
            ..MasterEvents::new()
        }
    }

    /// Whether these octets may be a read of the StatusCode in place of the message that is out: a
    /// confirm.
    pub fn checks_instead(&self, out: &[u8], octets: &[u8]) -> bool
        ensures { result ≡ checks_instead self.now out.now octets.now }
    {
        matches!(self.reading, Reading::ConfirmDue)
            && first(out) == CONFIRM
            && first(octets) == STATUS_READ
    }

    /// Whether a new read or write of this diagnosis address is due.
    pub fn is_due(&self, read: bool, address: u8) -> bool
        ensures { result ≡ is_due self.now read address }
    {
        match &self.reading {
            Reading::Resting => read && self.flag && address == 0,
            Reading::UnderWay(reader) => read && address == reader.address(),
            Reading::ConfirmDue => !read && address == 0,
            Reading::Refused => false,
        }
    }

    /// Once the good reply to a read of the event memory brought this octet, or one to the
    /// confirm came.
    pub fn go_on(&mut self, read: bool, octet: u8)
        ensures { self.new
            ≡ record self.old { reading = reading_after_reply read octet self.old.reading } }
    {
        let reading = replace(&mut self.reading, Reading::Resting);
        if read {
            self.reading = reading.after(octet);
        }
    }
}

impl Reading {
    /// With one more octet; with the StatusCode in place of a confirm it ends.
    fn after(self, octet: u8) -> Reading
        ensures { result ≡ reading_after self octet }
    {
        let mut reader = match self {
            Reading::UnderWay(reader) => reader,
            Reading::ConfirmDue => return Reading::Resting,
            _ => EventReader::new(),
        };
        match reader.take(octet) {
            Ok(None) => Reading::UnderWay(reader),
            Ok(Some(_)) => Reading::ConfirmDue,
            Err(_) => Reading::Refused,
        }
    }
}
