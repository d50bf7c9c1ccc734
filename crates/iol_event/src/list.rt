//! The events of one reading.
ghost use Rattle.std.specs.Prelude.{◌≡◌, ◌*◌, ◌≤◌, length};
ghost use Rattle.std.specs.Slice.Iter.{iter_rest};
ghost use Rattle.std.specs.Iterator.Adapters.{IterYieldsInOrder};
ghost use Rattle.iol_event.specs.Reading.{IsEventList, events_of};

use crate::event::Event;
use arrayvec::ArrayVec;
use std::marker::Model;
use std::slice;

/// The events that one reading gave: one to six, in rising order of their places.
///
/// A clause sees the list of the events. It lies in the value itself, so no memory is taken for it.
#[derive(Clone, Debug, PartialEq, Eq, Drop)]
pub struct EventList {
    events: ArrayVec<Event, 6>,
}

impl Model for EventList {
    ghost use Rattle.std.specs.Prelude.{List};
    ghost use Rattle.iol_event.specs.declared.event.Event.{Event};

    ghost Value = { List Event };

    ghost use Rattle.iol_event.specs.Reading.{IsEventList};

    ghost view = { λ l. l.events.items };

    ghost invariant = { λ l. IsEventList l.events.items };

    ghost inverse = { λ events. record { events = record { items = events } } };
}

impl EventList {
    ghost use Rattle.iol_event.specs.declared.event.Event.{Event};

    /// How many events there are: 1 to 6.
    pub fn len(&self) -> usize
        ensures value { result ≡ length self.now }
        ensures some { 1 ≤ result }
        ensures most { result ≤ 6 }
    {
        self.events.len()
    }

    /// The events, in rising order of their places.
    pub fn as_slice(&self) -> &[Event]
        ensures value { result.now ≡ self.now }
        ensures range { IsEventList self.now }
    {
        self.events.as_slice()
    }

    /// Goes over the events, in rising order of their places.
    pub fn iter(&self) -> slice::Iter<'_, Event>
        ensures rest { iter_rest result ≡ self.now }
        ensures range { IsEventList self.now }
        ensures runs { IterYieldsInOrder Event }
    {
        self.events.iter()
    }

    /// The events whose octets these are, three for each.
    pub(crate) fn from_octets(octets: &[u8]) -> EventList
        requires some { 3 ≤ length octets.now }
        requires most { length octets.now ≤ 18 }
        ensures { result ≡ events_of octets.now }
    {
        let mut events = ArrayVec::new();
        let mut rest = octets;
        while let [qualifier, high, low, others @ ..] = rest {
            events.push(Event {
                qualifier: *qualifier,
                code: u16::from_be_bytes([*high, *low]),
            });
            rest = others;
        }
        EventList { events }
    }
}
