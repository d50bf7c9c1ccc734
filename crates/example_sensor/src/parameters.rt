//! The table: what the maker says of the sensor's parameters.
use iol_isdu::Place;
use iol_params::{Access, DataType, IntegerWidth, Member, OrderRule};

/// By how much the temperature has to fall below the switching point until the sensor is no
/// longer hot, in tenths of a degree.
pub const HYSTERESIS: Place = Place { index: 40, sub: 0 };

/// The temperature above which the sensor is hot, in tenths of a degree.
pub const SWITCHING_POINT: Place = Place { index: 41, sub: 0 };

/// The hysteresis is at most the switching point, so that the sensor can get cold again.
pub const RULES: [OrderRule; 1] = [OrderRule {
    low: HYSTERESIS,
    high: SWITCHING_POINT,
}];

/// 100 degrees, in tenths.
const HOTTEST: u32 = 1000;

/// The table's rows.
pub fn members() -> [Member<'static>; 9] {
    [
        text(16, Access::ReadOnly, b"Sensors of Example"),
        text(17, Access::ReadOnly, b"Measured with care"),
        text(18, Access::ReadOnly, b"Thermometer"),
        text(19, Access::ReadOnly, b"T-100"),
        text(
            20,
            Access::ReadOnly,
            b"0 to 100 degrees, one switching point",
        ),
        text(21, Access::ReadOnly, b"00012345"),
        text(24, Access::Stored, b"***"),
        number(HYSTERESIS, &[0, 10]),
        number(SWITCHING_POINT, &[0, 230]),
    ]
}

/// A text of at most 64 octets.
fn text(index: u16, access: Access, default: &[u8]) -> Member<'_> {
    Member {
        place: Place { index, sub: 0 },
        data_type: DataType::Text(64),
        access,
        default,
    }
}

/// A number of two octets that Data Storage keeps.
fn number(place: Place, default: &[u8]) -> Member<'_> {
    Member {
        place,
        data_type: DataType::UInteger(IntegerWidth::Two, 0, HOTTEST),
        access: Access::Stored,
        default,
    }
}
