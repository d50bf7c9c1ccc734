//! The sensor of the tests: a text, two numbers of which the first is at most the second, and six
//! octets, all of which Data Storage keeps.
use iol_book::Outcome;
use iol_isdu::{Answer, Cause, Place, Request};
use iol_params::{Access, DataType, IntegerWidth, Manager, Member, OrderRule, Table, TableFault};
use iol_storage::{Objects, StorageFault};
use std::alloc::{AllocError, Allocator};
use std::process::Abort;

/// The most octets of one ISDU.
const MOST_OCTETS: usize = 232;

pub const fn at(index: u16) -> Place {
    Place { index, sub: 0 }
}

/// What Data Storage keeps of the sensor: a text, two limits and six octets.
const TAG: Member = Member {
    place: Place { index: 24, sub: 0 },
    data_type: DataType::Text(12),
    access: Access::Stored,
    default: b"tag",
};

const LOW: Member = Member {
    place: Place { index: 64, sub: 0 },
    data_type: DataType::UInteger(IntegerWidth::One, 0, 100),
    access: Access::Stored,
    default: &[10],
};

const HIGH: Member = Member {
    place: Place { index: 65, sub: 0 },
    data_type: DataType::UInteger(IntegerWidth::One, 0, 100),
    access: Access::Stored,
    default: &[90],
};

const SIX: Member = Member {
    place: Place { index: 80, sub: 0 },
    data_type: DataType::OctetString(6),
    access: Access::Stored,
    default: &[0; 6],
};

/// The SerialNumbers of two units.
const FIRST: Member = Member {
    place: Place { index: 21, sub: 0 },
    data_type: DataType::Text(16),
    access: Access::ReadOnly,
    default: b"first",
};

const OTHER: Member = Member {
    place: Place { index: 21, sub: 0 },
    data_type: DataType::Text(16),
    access: Access::ReadOnly,
    default: b"other",
};

const MEMBERS: [Member; 4] = [TAG, LOW, HIGH, SIX];

const MEMBERS_OF_FIRST: [Member; 5] = [FIRST, TAG, LOW, HIGH, SIX];

const MEMBERS_OF_OTHER: [Member; 5] = [OTHER, TAG, LOW, HIGH, SIX];

const RULES: [OrderRule; 1] = [OrderRule {
    low: Place { index: 64, sub: 0 },
    high: Place { index: 65, sub: 0 },
}];

/// The sensor's table.
pub fn table_of_sensor<'t>() -> Result<Table<'t>, TableFault> {
    Table::new(&MEMBERS, &RULES)
}

/// That of the same sensor, as the unit that has "first" as its SerialNumber.
pub fn table_of_first<'t>() -> Result<Table<'t>, TableFault> {
    Table::new(&MEMBERS_OF_FIRST, &RULES)
}

/// That of another unit.
pub fn table_of_other<'t>() -> Result<Table<'t>, TableFault> {
    Table::new(&MEMBERS_OF_OTHER, &RULES)
}

/// A sensor as it leaves the factory.
pub fn sensor<'t, A: Allocator + Copy>(
    alloc: A,
    table: &'t Table<'t>,
) -> Result<Manager<'t, A>, AllocError> {
    Manager::open(alloc, table)
}

/// A user changes a number at the device. Answers whether it is let.
pub fn is_set<A: Allocator + Copy>(manager: &mut Manager<A>, index: u16, number: u8) -> bool {
    manager.set(at(index), &[number]).is_ok()
}

/// Whether a place of a device has these octets.
pub fn has<A: Allocator + Copy>(manager: &Manager<A>, index: u16, octets: &[u8]) -> bool {
    match manager.read(at(index)) {
        Answer::Read(value) => value.as_slice() == octets,
        _ => false,
    }
}

/// Whether a device has these limits.
pub fn has_limits<A: Allocator + Copy>(manager: &Manager<A>, low: u8, high: u8) -> bool {
    has(manager, 64, &[low]) && has(manager, 65, &[high])
}

/// What an answer to a read with these octets brings.
pub fn read(octets: &[u8]) -> Outcome {
    let mut answer = Answer::Written;
    if octets.len() <= MOST_OCTETS {
        answer.set_read(octets);
    }
    Outcome::Done(answer)
}

/// What comes of a request, where it isn't the device that answers.
#[derive(Clone, Copy)]
pub struct Cut {
    /// At which request, 0 the first.
    pub at: usize,
    pub cause: Cause,
}

/// What comes of a request at a device. One that is cut off never reaches it.
pub fn outcome<A: Allocator + Copy>(
    manager: &mut Manager<A>,
    request: &Request,
    index: usize,
    cut: Option<Cut>,
) -> Outcome {
    match cut {
        Some(cut) if cut.at == index => Outcome::Unknown(cut.cause),
        _ => Outcome::Done(manager.carry(request)),
    }
}

/// The two limits, which only a block can write in this order.
pub fn limits(low: u8, high: u8) -> Result<Objects, StorageFault> {
    let mut objects = Objects::new();
    objects.push(at(64), &[low])?;
    objects.push(at(65), &[high])?;
    Ok(objects)
}

/// Ends the test where a fact doesn't hold. See the head of this crate.
pub fn check<R: Abort>(rt: &R, holds: bool) {
    assert!(rt; holds);
}
