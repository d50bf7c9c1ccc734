//! What a table lists.
ghost use Rattle.std.specs.Prelude.{◌≡◌, ◌<◌};
ghost use Rattle.iol_params.specs.Members.{big_endian};

use iol_isdu::Place;

/// How many octets a number has.
#[derive(Clone, Copy, Debug, PartialEq, Eq)]
pub enum IntegerWidth {
    One,
    Two,
    Four,
}

/// What the octets of a member are: UIntegerT, OctetStringT or StringT (F.2).
#[derive(Clone, Copy, Debug, PartialEq, Eq)]
pub enum DataType {
    /// A number, the high octet first: its width, the least and the most that it may be.
    UInteger(IntegerWidth, u32, u32),
    /// Exactly so many octets.
    OctetString(u8),
    /// A text of at most so many octets.
    Text(u8),
}

/// Who changes a parameter.
#[derive(Clone, Copy, Debug, PartialEq, Eq)]
pub enum Access {
    /// The device alone: a serial number, a measured value.
    ReadOnly,
    /// The master too.
    ReadWrite,
    /// The master too, and Data Storage keeps it.
    Stored,
}

/// One member of a parameter, a row of the table.
///
/// A parameter of one member has Subindex 0 alone. One of several has the Subindexes 1, 2 and so
/// on, a row for each; Subindex 0 is then all of them, in their order (B.2).
#[derive(Clone, Copy, Debug)]
pub struct Member<'a> {
    /// Where it lies.
    pub place: Place,
    /// What its octets are.
    pub data_type: DataType,
    /// Who changes it, as each member of its parameter.
    pub access: Access,
    /// Its value at first, and after a reset. It fits the data type.
    pub default: &'a [u8],
}

impl Access {
    ghost use Rattle.iol_params.specs.Values.{is_writable, is_stored};

    /// Whether the master may write it.
    pub fn is_writable(self) -> bool
        ensures { result ≡ is_writable self }
    {
        matches!(self, Access::ReadWrite | Access::Stored)
    }

    /// Whether Data Storage keeps it.
    pub fn is_stored(self) -> bool
        ensures { result ≡ is_stored self }
    {
        matches!(self, Access::Stored)
    }
}

impl DataType {
    ghost use Rattle.iol_params.specs.Members.{longest, fewest, fits_type};

    /// The most octets that a value has.
    pub fn longest(self) -> usize
        ensures value { result ≡ longest self }
        ensures bound { result < 256 }
    {
        match self {
            DataType::UInteger(IntegerWidth::One, _, _) => 1,
            DataType::UInteger(IntegerWidth::Two, _, _) => 2,
            DataType::UInteger(IntegerWidth::Four, _, _) => 4,
            DataType::OctetString(count) | DataType::Text(count) => usize::from(count),
        }
    }

    /// The fewest octets that a value has.
    pub fn fewest(self) -> usize
        ensures value { result ≡ fewest self }
        ensures bound { result < 256 }
    {
        match self {
            DataType::Text(_) => 0,
            fixed => fixed.longest(),
        }
    }

    /// Whether these octets are a value: as many as there must be, and a number in its range.
    pub fn fits(self, octets: &[u8]) -> bool
        ensures { result ≡ fits_type self octets.now }
    {
        let long = self.fewest() <= octets.len() && octets.len() <= self.longest();
        match self {
            DataType::UInteger(_, least, most) => {
                long && least <= number_of(octets) && number_of(octets) <= most
            }
            DataType::OctetString(_) | DataType::Text(_) => long,
        }
    }
}

impl Member<'_> {
    ghost use Rattle.iol_params.specs.Members.{selects};
    ghost use Rattle.iol_params.specs.Values.{has_stored_number};

    /// Whether a place means this member: the place of the member itself, or Subindex 0, which is
    /// the whole parameter.
    pub fn is_at(&self, place: Place) -> bool
        ensures { result ≡ selects place self.now }
    {
        self.place.index == place.index && (place.sub == 0 || self.place.sub == place.sub)
    }

    /// Whether it is a number, and Data Storage keeps it.
    pub fn is_stored_number(&self) -> bool
        ensures { result ≡ has_stored_number self.now }
    {
        matches!(self.data_type, DataType::UInteger(..)) && self.access.is_stored()
    }
}

/// The number that one, two or four octets are, the high one first; 0 where they aren't so many.
pub(crate) fn number_of(octets: &[u8]) -> u32
    ensures { result ≡ big_endian octets.now }
{
    match octets {
        [only] => u32::from(*only),
        [high, low] => u32::from(u16::from_be_bytes([*high, *low])),
        [first, second, third, last] => { u32::from_be_bytes([*first, *second, *third, *last]) }
        _ => 0,
    }
}
