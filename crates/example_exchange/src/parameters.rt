//! The thermometers: their table of parameters, and the types that there are of them.
use iol_isdu::Place;
use iol_params::{Access, DataType, IntegerWidth, Member, OrderRule};

/// Below this temperature it is too cold, in tenths of a degree.
pub const LOWER_LIMIT: Place = Place { index: 40, sub: 0 };

/// Above this temperature it is too hot, in tenths of a degree.
pub const UPPER_LIMIT: Place = Place { index: 41, sub: 0 };

/// The lower limit is at most the upper one, always.
pub const RULES: [OrderRule; 1] = [OrderRule {
    low: LOWER_LIMIT,
    high: UPPER_LIMIT,
}];

/// 100 degrees, in tenths.
const HOTTEST: u32 = 1000;

/// V1.1, with ISDU, 8 octets of on-request data, 16 bits of process data in, none out.
pub const THERMOMETER: [u8; 10] = [0x17, 0x2D, 0x11, 0x10, 0x00, 0x12, 0x34, 0x00, 0x01, 0x07];

/// The same maker's next type, of another DeviceID.
pub const OTHER_TYPE: [u8; 10] = [0x17, 0x2D, 0x11, 0x10, 0x00, 0x12, 0x34, 0x00, 0x01, 0x08];

/// The table's rows: limits of 10 and 23 degrees, as they leave the factory.
pub fn members() -> [Member<'static>; 2] {
    [
        number(LOWER_LIMIT, &[0, 100]),
        number(UPPER_LIMIT, &[0, 230]),
    ]
}

/// A number of two octets that Data Storage keeps.
fn number(place: Place, default: &[u8]) -> Member<'_> {
    Member {
        place,
        data_type: DataType::UInteger(IntegerWidth::Two, 0, HOTTEST),
        access: Access::Stored,
        default,
    }
}
