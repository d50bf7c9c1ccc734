//! What is known of a device's events.
ghost use Rattle.std.specs.Prelude.{◌≡◌};
ghost use Rattle.iol_judge.specs.Events.{covers_events, events_fault, events_updated, first_places, flag_fault, flag_updated, places_of, shown_after};

use crate::reason::Reason;

/// The most events that a device shows.
const PLACES: u8 = 6;

/// What is known of the events of a device that is awake.
#[derive(Clone, Copy, Debug, PartialEq, Eq)]
pub(crate) enum ShownEvents {
    /// None is shown, for the last message was their confirm.
    Held,
    /// Any may be.
    Any,
    /// None is, or one that was raised since the last reply.
    Fresh,
    /// Some are.
    Filled(FilledPlaces),
}

/// The filled places of an event memory.
#[derive(Clone, Copy, Debug, PartialEq, Eq)]
pub(crate) struct FilledPlaces {
    /// How many they are at least.
    pub least: u8,
    /// How many they are at most.
    pub most: u8,
    /// The octets of diagnosis addresses 0x01 to 0x12, as far as they were read.
    pub octets: [Option<u8>; 18],
}

impl ShownEvents {
    /// Whether it allows all that the other does.
    pub fn covers(&self, other: &ShownEvents) -> bool
        ensures { result ≡ covers_events self.now other.now }
    {
        match (self, other) {
            (ShownEvents::Held, ShownEvents::Held) | (ShownEvents::Fresh, ShownEvents::Fresh) =>
                true,
            (ShownEvents::Any, ShownEvents::Any | ShownEvents::Fresh | ShownEvents::Filled(_)) =>
                true,
            (ShownEvents::Filled(a), ShownEvents::Filled(b)) => a.covers(b),
            _ => false,
        }
    }

    /// Once a message was worked, their confirm or another. A wake-up request does what another
    /// message does.
    pub fn after(&self, confirm: bool) -> ShownEvents
        ensures { result ≡ shown_after self.now confirm }
    {
        match self {
            _ if confirm => ShownEvents::Held,
            ShownEvents::Held => ShownEvents::Any,
            _ => *self,
        }
    }

    /// A message is worked, in place.
    pub fn pass(&mut self, confirm: bool)
        ensures { self.new ≡ shown_after self.old confirm }
    {
        if confirm {
            *self = ShownEvents::Held;
        } else if matches!(self, ShownEvents::Held) {
            *self = ShownEvents::Any;
        }
    }

    /// A reply has this Event flag: the same in place.
    pub fn hear_flag(&mut self, flag: bool)
        ensures { self.new ≡ flag_updated self.old flag }
    {
        if flag || matches!(self, ShownEvents::Any) {
            *self = self.flag_updated(flag);
        }
    }

    /// Why the reply to that can't have this Event flag, none where it can.
    pub fn flag_fault(&self, flag: bool) -> Option<Reason>
        ensures { result ≡ flag_fault self.now flag }
    {
        match (self, flag) {
            (ShownEvents::Held, true) => Some(Reason::FlagAtConfirm),
            (ShownEvents::Filled(_), false) => Some(Reason::FlagGone),
            _ => None,
        }
    }

    /// Once a reply had this Event flag.
    pub fn flag_updated(&self, flag: bool) -> ShownEvents
        ensures { result ≡ flag_updated self.now flag }
    {
        match (self, flag) {
            (ShownEvents::Any, true) => ShownEvents::first(PLACES),
            (ShownEvents::Fresh, true) => ShownEvents::first(1),
            (ShownEvents::Any, false) => ShownEvents::Fresh,
            _ => *self,
        }
    }

    /// Some places are filled, at most so many, and none was read.
    fn first(most: u8) -> ShownEvents
        ensures { result ≡ first_places most }
    {
        ShownEvents::Filled(FilledPlaces {
            least: 1,
            most,
            octets: [None; 18],
        })
    }

    /// Why a diagnosis address can't read as this octet, none where it can.
    pub fn fault(&self, address: u8, octet: u8) -> Option<Reason>
        ensures { result ≡ events_fault self.now address octet }
    {
        self.places().fault(address, octet)
    }

    /// The filled places, of which there are none but where some are known to be.
    fn places(&self) -> FilledPlaces
        ensures { result ≡ places_of self.now }
    {
        match self {
            ShownEvents::Filled(places) => *places,
            _ => FilledPlaces::none(),
        }
    }

    /// Once a diagnosis address was read as this octet.
    pub fn updated(&self, address: u8, octet: u8) -> ShownEvents
        ensures { result ≡ events_updated self.now address octet }
    {
        match self {
            ShownEvents::Filled(places) => ShownEvents::Filled(places.updated(address, octet)),
            _ => *self,
        }
    }
}

impl FilledPlaces {
    ghost use Rattle.iol_judge.specs.Events.{covers_places, fills, marked_count, marks_updated, no_places, place_known, places_fault, places_updated, status_fault};

    /// No place is filled.
    fn none() -> FilledPlaces
        ensures { result ≡ no_places }
    {
        FilledPlaces {
            least: 0,
            most: 0,
            octets: [None; 18],
        }
    }

    /// Whether they allow all that the others do.
    fn covers(&self, other: &FilledPlaces) -> bool
        ensures { result ≡ covers_places self.now other.now }
    {
        self.least <= other.least
            && other.most <= self.most
            && are_known_in(&self.octets, &other.octets)
    }

    /// The octet of a diagnosis address, where it was read.
    fn octet(&self, address: u8) -> Option<u8>
        ensures { result ≡ place_known self.now.octets address }
    {
        match address {
            0x01..=0x12 => self.octets[address as usize - 1],
            _ => None,
        }
    }

    /// Why a diagnosis address can't read as this octet, none where it can.
    fn fault(&self, address: u8, octet: u8) -> Option<Reason>
        ensures { result ≡ places_fault self.now address octet }
    {
        if address == 0 {
            self.status_fault(marked(octet))
        } else if self.fills(address, octet) {
            None
        } else {
            Some(Reason::EventOctet)
        }
    }

    /// Why the StatusCode can't mark so many places.
    fn status_fault(&self, count: Option<u8>) -> Option<Reason>
        ensures { result ≡ status_fault self.now count }
    {
        match count {
            Some(count) if self.least <= count && count <= self.most => None,
            _ => Some(Reason::StatusCode),
        }
    }

    /// Whether an address of a place may read as this octet: one that isn't 0 stands in a filled
    /// place, and none changes.
    fn fills(&self, address: u8, octet: u8) -> bool
        ensures { result ≡ fills self.now address octet }
    {
        let filled = octet == 0 || address.saturating_sub(1) / 3 < self.most;
        match self.octet(address) {
            Some(known) => filled && known == octet,
            None => filled,
        }
    }

    /// Once a diagnosis address was read as this octet: one of a place that isn't 0 stands in a
    /// filled place.
    fn updated(&self, address: u8, octet: u8) -> FilledPlaces
        ensures { result ≡ places_updated self.now address octet }
    {
        match address {
            0x00 => self.marks_updated(marked(octet)),
            0x01..=0x12 => {
                let mut places = *self;
                places.octets[address as usize - 1] = Some(octet);
                if octet != 0 {
                    places.least = self.least.max((address - 1) / 3 + 1);
                }
                places
            }
            _ => *self,
        }
    }

    /// Once the StatusCode marked so many.
    fn marks_updated(&self, count: Option<u8>) -> FilledPlaces
        ensures { result ≡ marks_updated self.now count }
    {
        match count {
            Some(count) => FilledPlaces {
                least: count,
                most: count,
                octets: self.octets,
            },
            None => *self,
        }
    }
}

ghost use Rattle.iol_judge.specs.Events.{marked_count};
ghost use Rattle.std.specs.Cmp.Lexicographic.{pointwise};
ghost use Rattle.iol_judge.specs.Octets.{is_known_in};

/// How many places a StatusCode marks, the first ones; none where it marks others.
fn marked(status: u8) -> Option<u8>
    ensures { result ≡ marked_count status }
{
    match status {
        0x80 => Some(0),
        0x81 => Some(1),
        0x83 => Some(2),
        0x87 => Some(3),
        0x8F => Some(4),
        0x9F => Some(5),
        0xBF => Some(6),
        _ => None,
    }
}

/// Whether what is known of the first octets is known of the second.
fn are_known_in(a: &[Option<u8>], b: &[Option<u8>]) -> bool
    ensures { result ≡ pointwise is_known_in a.now b.now }
{
    match (a, b) {
        ([x, xs @ ..], [y, ys @ ..]) => is_known_in(x, y) && are_known_in(xs, ys),
        ([], []) => true,
        _ => false,
    }
}

/// Whether what is known in the first is known in the second.
pub(crate) fn is_known_in(a: &Option<u8>, b: &Option<u8>) -> bool
    ensures { result ≡ is_known_in a.now b.now }
{
    a.is_none() || a == b
}
