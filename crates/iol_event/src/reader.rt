//! The master's reader of the events of a device.
ghost use Rattle.std.specs.Prelude.{◌≡◌, ◌≤◌, [], length, IsTrue};
ghost use Rattle.iol_event.specs.Reading.{is_reading, next_address, reader_step, taken_all};

use crate::faults::EventForm;
use crate::list::EventList;
use crate::status::{STATUS_CODE, is_readable, marked_places};
use arrayvec::ArrayVec;
use std::marker::Model;

/// Reads the events of a device, octet by octet (IEC 61131-9, 7.3.8): the
/// StatusCode, then for each place that it marks, in rising order, the qualifier
/// and the code's two octets. A device may mark any places, also with gaps.
///
/// A clause sees the list of the octets that the reading has: none in a new reader.
#[derive(Clone, Debug, PartialEq, Eq, Drop)]
pub struct EventReader {
    octets: ArrayVec<u8, 19>,
}

impl Model for EventReader {
    ghost use Rattle.std.specs.Prelude.{ℕ, List, IsTrue};
    ghost use Rattle.iol_event.specs.Reading.{is_reading};

    ghost Value = { List ℕ };

    ghost view = { λ r. r.octets.items };

    ghost invariant = { λ r. IsTrue (is_reading r.octets.items) };

    ghost inverse = { λ octets. record { octets = record { items = octets } } };
}

impl EventReader {
    /// A reader that has no octet, and begins with the StatusCode.
    pub fn new() -> EventReader
        ensures { result ≡ [] }
    {
        EventReader {
            octets: ArrayVec::new(),
        }
    }

    /// The diagnosis address that is to be read next.
    ///
    /// Rule EVT-6.
    pub fn address(&self) -> u8
        ensures value { result ≡ next_address self.now }
        ensures small { result ≤ 18 }
        ensures valid { IsTrue (is_reading self.now) }
    {
        match self.octets.as_slice() {
            [] => STATUS_CODE,
            [status, octets @ ..] => {
                let place = marked_places(*status)[octets.len() / 3];
                3 * place - 2 + (octets.len() % 3) as u8
            }
        }
    }

    /// Takes the octet that was read at `address`. `None` says that more are to be read;
    /// with the last octet it answers the events of the marked places, and is new.
    ///
    /// Refused with 17 EventForm is a StatusCode whose bit 7 is 0, or whose bits 5
    /// to 0 mark no place (bit 6 is ignored). The reader is then new.
    ///
    /// Rule EVT-6.
    pub fn take(&mut self, octet: u8) -> Result<Option<EventList>, EventForm>
        ensures answer { result ≡ (reader_step self.old octet).answer }
        ensures reader { self.new ≡ (reader_step self.old octet).reader }
    {
        self.octets.push(octet);
        let answer = answer_to(&self.octets);
        if !matches!(answer, Ok(None)) {
            self.octets.clear();
        }
        answer
    }
}

/// What a reading answers once it has these octets.
fn answer_to(octets: &[u8]) -> Result<Option<EventList>, EventForm>
    requires { length octets.now ≤ 19 }
    ensures { result ≡ (taken_all octets.now).answer }
{
    let [status, octets @ ..] = octets else {
        return Ok(None);
    };
    if !is_readable(*status) {
        return Err(EventForm);
    }
    if octets.len() < 3 * marked_places(*status).len() {
        return Ok(None);
    }
    Ok(Some(EventList::from_octets(octets)))
}
