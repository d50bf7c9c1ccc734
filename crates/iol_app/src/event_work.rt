//! The reading of events: octet by octet, then the confirm (IEC 61131-9, 7.3.8).
ghost use Rattle.std.specs.Prelude.{◌≡◌, ◌≤◌, is_some};
ghost use Rattle.iol_event.specs.Reading.{next_address};
ghost use Rattle.iol_app.specs.EventReading.{new_event_work, reader_of, event_work_after, list_read, reported_list, reading_after_octet, list_after};

use crate::Said;
use crate::session::Purpose;
use iol_event::EventReader;
use iol_mseq::{ReplyView, first};
use std::mem::replace;

/// Whether a port has room for the six events that one reading may bring: only then it begins one.
#[derive(Clone, Copy, Debug, PartialEq, Eq)]
pub enum EventRoom {
    /// There is room for six more.
    Left,
    /// There is none. A reading under way goes on.
    Full,
}

/// How far the reading of events has come.
#[derive(Drop)]
pub(crate) enum ReadingProgress {
    /// None is under way.
    Resting,
    /// The StatusCode is read, and octets of the places that it marks.
    UnderWay(EventReader),
    /// The list was reported, and is to be confirmed.
    ConfirmDue,
    /// The StatusCode was refused: no reading begins before the next start-up.
    Refused,
}

/// The event work of a port.
#[derive(Drop)]
pub(crate) struct EventWork {
    /// The Event flag of the last good reply.
    pub(crate) flag: bool,
    pub(crate) reading: ReadingProgress,
}

impl EventWork {
    /// As a start-up begins.
    pub(crate) fn new() -> EventWork
        ensures { result ≡ new_event_work }
    {
        EventWork {
            flag: false,
            reading: ReadingProgress::Resting,
        }
    }

    /// What was read and reported counts no more.
    pub(crate) fn forget(&mut self)
        ensures { self.new ≡ new_event_work }
    {
        *self = EventWork::new();
    }

    /// The diagnosis address that is read next.
    pub(crate) fn address(&self) -> u8
        ensures value { result ≡ next_address (reader_of self.now.reading) }
        ensures small { result ≤ 31 }
    {
        match &self.reading {
            ReadingProgress::UnderWay(reader) => reader.address(),
            _ => 0,
        }
    }

    /// Takes up a good reply. Where a list became whole with it, that is said; answers whether
    /// one did.
    ///
    /// Rule EVT-8.
    pub(crate) fn absorb(
        &mut self,
        exchange: Purpose,
        reply: &ReplyView<'_>,
        report: &mut Said,
    ) -> bool
        ensures tells { result
            ≡ is_some (list_read exchange reply.now.od.items self.old.reading) }
        ensures events { self.new ≡ event_work_after exchange reply.now self.old }
        ensures list { report.new
            ≡ reported_list (list_read exchange reply.now.od.items self.old.reading) report.old }
    {
        self.flag = reply.event();
        match exchange {
            Purpose::ReadEvent => self.take(first(reply.od()), report),
            Purpose::ConfirmEvents => {
                self.reading = ReadingProgress::Resting;
                false
            }
            _ => false,
        }
    }

    /// Takes an octet of the event memory. Out of line, since most turns read none, and the room
    /// of a list is large.
    ///
    /// Rule EVT-7.
    #[inline(never)]
    fn take(&mut self, octet: u8, report: &mut Said) -> bool
        ensures tells { result ≡ is_some (list_after self.old.reading octet) }
        ensures events { self.new
            ≡ record self.old { reading = reading_after_octet self.old.reading octet } }
        ensures list { report.new ≡ reported_list (list_after self.old.reading octet) report.old }
    {
        let mut reader = match replace(&mut self.reading, ReadingProgress::Resting) {
            ReadingProgress::UnderWay(reader) => reader,
            _ => EventReader::new(),
        };
        match reader.take(octet) {
            Ok(None) => self.reading = ReadingProgress::UnderWay(reader),
            Ok(Some(list)) => {
                self.reading = ReadingProgress::ConfirmDue;
                *report = Said::Reported(list);
                return true;
            }
            Err(_) => self.reading = ReadingProgress::Refused,
        }
        false
    }
}
