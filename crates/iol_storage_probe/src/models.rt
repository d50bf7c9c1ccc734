//! The units that stand at the line: their tables, their pages, and what they do in their own way.
use iol_isdu::{Answer, Octets, Place, Request};
use iol_params::{Access, DataType, IntegerWidth, Member, OrderRule};

/// What Data Storage keeps of a plain unit: a text, two numbers of which the first is at most the
/// second, and six octets. Beside them it has a number that isn't kept.
pub const PLAIN: [Member<'static>; 5] = [
    Member {
        place: Place { index: 24, sub: 0 },
        data_type: DataType::Text(16),
        access: Access::Stored,
        default: b"tag",
    },
    Member {
        place: Place { index: 64, sub: 0 },
        data_type: DataType::UInteger(IntegerWidth::One, 0, 100),
        access: Access::Stored,
        default: &[10],
    },
    Member {
        place: Place { index: 65, sub: 0 },
        data_type: DataType::UInteger(IntegerWidth::One, 0, 100),
        access: Access::Stored,
        default: &[90],
    },
    Member {
        place: Place { index: 80, sub: 0 },
        data_type: DataType::OctetString(6),
        access: Access::Stored,
        default: &[0; 6],
    },
    Member {
        place: Place { index: 90, sub: 0 },
        data_type: DataType::UInteger(IntegerWidth::Two, 0, 65_535),
        access: Access::ReadWrite,
        default: &[0, 0],
    },
];

/// The first limit is at most the second.
pub const RULES: [OrderRule; 1] = [OrderRule {
    low: Place { index: 64, sub: 0 },
    high: Place { index: 65, sub: 0 },
}];

/// The parameters of another type: a record of two members, and a long text.
pub const OTHER: [Member<'static>; 5] = [
    Member {
        place: Place { index: 24, sub: 0 },
        data_type: DataType::Text(16),
        access: Access::Stored,
        default: b"other",
    },
    Member {
        place: Place { index: 70, sub: 1 },
        data_type: DataType::UInteger(IntegerWidth::Two, 0, 1_000),
        access: Access::Stored,
        default: &[0, 1],
    },
    Member {
        place: Place { index: 70, sub: 2 },
        data_type: DataType::OctetString(3),
        access: Access::Stored,
        default: &[1, 2, 3],
    },
    Member {
        place: Place { index: 80, sub: 0 },
        data_type: DataType::OctetString(6),
        access: Access::Stored,
        default: &[7; 6],
    },
    Member {
        place: Place { index: 90, sub: 0 },
        data_type: DataType::UInteger(IntegerWidth::Two, 0, 65_535),
        access: Access::ReadWrite,
        default: &[0, 0],
    },
];

/// Where the values of a plain unit lie that Data Storage keeps, in their order.
const STORED_OF_PLAIN: [u16; 4] = [24, 64, 65, 80];

const STORED_OF_OTHER: [u16; 3] = [24, 70, 80];

/// What a unit is.
#[derive(Clone, Copy, Debug, PartialEq, Eq)]
pub enum Model {
    /// As the rules say.
    Plain,
    /// Of another type, by the rules, with one octet of on-request data.
    Other,
    /// Of V1.0.
    Old,
    /// Without ISDU.
    Mute,
    /// Without Data Storage.
    Bare,
    /// It says that its values are more than a set may have.
    Large,
    /// Its Index_List is none.
    Listless,
    /// It refuses one of its own values.
    Picky,
    /// Without a SerialNumber.
    Nameless,
    /// It is in another state at times, but where something ends.
    Moody,
}

/// Two octets of process data in and one out, eight octets of on-request data, ISDU.
const PAGE: [u8; 10] = [0x17, 0x2D, 0x11, 0x10, 0x08, 0x12, 0x34, 0x00, 0x01, 0x07];

const OTHER_PAGE: [u8; 10] = [0x17, 0x01, 0x11, 0x10, 0x08, 0x12, 0x34, 0x00, 0x02, 0x08];

const OLD_PAGE: [u8; 10] = [0x17, 0x2D, 0x10, 0x10, 0x08, 0x12, 0x34, 0x00, 0x01, 0x07];

const MUTE_PAGE: [u8; 10] = [0x17, 0x2C, 0x11, 0x10, 0x08, 0x12, 0x34, 0x00, 0x01, 0x07];

/// The Index of Data Storage.
const STORAGE: u16 = 3;
/// Of so many requests a moody unit refuses one.
pub const MOODS: u64 = 12;

impl Model {
    pub fn of(number: u64) -> Model {
        match number {
            0..=9 => Model::Plain,
            10 | 11 => Model::Other,
            12 => Model::Old,
            13 => Model::Mute,
            14 => Model::Bare,
            15 => Model::Large,
            16 => Model::Listless,
            17 => Model::Picky,
            18 => Model::Nameless,
            _ => Model::Moody,
        }
    }

    pub fn page(self) -> [u8; 10] {
        match self {
            Model::Other => OTHER_PAGE,
            Model::Old => OLD_PAGE,
            Model::Mute => MUTE_PAGE,
            _ => PAGE,
        }
    }

    /// Where the values lie that Data Storage keeps, in their order.
    pub fn stored(self) -> &'static [u16] {
        match self {
            Model::Other => &STORED_OF_OTHER,
            _ => &STORED_OF_PLAIN,
        }
    }

    /// What it answers in its own way, and not by its table.
    pub fn own_answer(self, request: &Request, is_moody: bool) -> Option<Answer> {
        match (self, request) {
            (Model::Bare, Request::Read(place) | Request::Write(place, _))
                if place.index == STORAGE => Some(Answer::Refused(0x80, 0x11)),
            (Model::Large, Request::Read(Place { index: 3, sub: 3 })) => {
                Some(read_of(&[0, 0, 8, 1]))
            }
            (Model::Listless, Request::Read(Place { index: 3, sub: 5 })) => {
                Some(read_of(&[0, 24, 0, 0]))
            }
            (Model::Nameless, Request::Read(Place { index: 21, sub: 0 })) => {
                Some(Answer::Refused(0x80, 0x11))
            }
            (Model::Picky, Request::Write(Place { index: 80, sub: 0 }, _)) => {
                Some(Answer::Refused(0x80, 0x30))
            }
            (Model::Moody, _) if is_moody && !is_end(request) => {
                Some(Answer::Refused(0x80, 0x22))
            }
            _ => None,
        }
    }
}

/// Whether a request ends what belongs together, or breaks it off.
fn is_end(request: &Request) -> bool {
    match request {
        Request::Write(Place { index: 2 | 3, .. }, octets) => {
            matches!(octets.as_slice(), [2 | 4 | 5 | 6])
        }
        _ => false,
    }
}

fn read_of(octets: &[u8]) -> Answer {
    let mut read = Octets::new();
    let _ = read.try_extend_from_slice(octets);
    Answer::Read(read)
}
