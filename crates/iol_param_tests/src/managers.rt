//! What a manager answers, in the cases that the page of its rules has.
//!
//! A test is a table of steps. The prover's work grows with the calls of a function, and one
//! function makes each call of a manager.
use iol_isdu::{Answer, Place, Request};
use iol_params::{
    Access, Command, DataType, ErrorType, IntegerWidth, Manager, Member, OrderRule, Restart, Scope,
    Table, cut_offs_stay_out, sets_fit,
};
use std::alloc::{Allocator, Global};
use std::process::Abort;
use std::test::Fail;

const TAG: Place = Place { index: 24, sub: 0 };

const LOW: Place = Place { index: 64, sub: 0 };

const HIGH: Place = Place { index: 65, sub: 0 };

const SERIAL: Place = Place { index: 21, sub: 0 };

/// What Data Storage keeps: a text and two limits.
const STORED_TAG: Member = Member {
    place: TAG,
    data_type: DataType::Text(16),
    access: Access::Stored,
    default: b"tag",
};

const STORED_LOW: Member = Member {
    place: LOW,
    data_type: DataType::UInteger(IntegerWidth::One, 0, 100),
    access: Access::Stored,
    default: &[10],
};

const STORED_HIGH: Member = Member {
    place: HIGH,
    data_type: DataType::UInteger(IntegerWidth::One, 0, 100),
    access: Access::Stored,
    default: &[90],
};

const MEMBERS: [Member; 4] = [
    STORED_TAG,
    STORED_LOW,
    STORED_HIGH,
    Member {
        place: SERIAL,
        data_type: DataType::OctetString(4),
        access: Access::ReadOnly,
        default: &[1, 2, 3, 4],
    },
];

/// The members of a sensor that has six octets in the place of the serial number.
const SENSOR_MEMBERS: [Member; 4] = [
    STORED_TAG,
    STORED_LOW,
    STORED_HIGH,
    Member {
        place: Place { index: 80, sub: 0 },
        data_type: DataType::OctetString(6),
        access: Access::Stored,
        default: &[0; 6],
    },
];

const RULES: [OrderRule; 1] = [OrderRule {
    low: LOW,
    high: HIGH,
}];

/// How a request is answered.
#[derive(Clone, Copy)]
enum Reply {
    Is(&'static [u8]),
    Written,
    /// With 0x80, and this additional code.
    Refused(u8),
}

/// What is answered where a call is taken or refused.
type Taken = Result<(), ErrorType>;

/// A call of a manager, and what it is to answer.
#[derive(Clone, Copy)]
enum Step {
    /// A request of a master, Index and Subindex first.
    Read(u16, u8, Reply),
    Write(u16, u8, &'static [u8], Reply),
    /// The calls that these requests become, and those of the device itself.
    Put(Place, &'static [u8], Taken),
    Command(Scope, Command, Taken),
    Set(Place, &'static [u8], Taken),
    Reset(Taken),
    Over,
    Silence,
    EventRaised,
    /// The first octet of a value in force.
    Has(Place, u8),
    Flag(bool),
    EventDue(bool),
    Restart(Restart),
}

fn is_answered<A: Allocator + Copy>(manager: &mut Manager<A>, step: Step) -> bool {
    match step {
        Step::Read(index, sub, reply) => {
            let request = Request::read(Place { index, sub });
            is_so(&manager.carry(&request), reply)
        }
        Step::Write(index, sub, octets, reply) => {
            is_so(&written(manager, Place { index, sub }, octets), reply)
        }
        Step::Put(place, octets, taken) => manager.write(place, octets) == taken,
        Step::Command(scope, command, taken) => manager.command(scope, command) == taken,
        _ => is_done(manager, step),
    }
}

fn is_done<A: Allocator + Copy>(manager: &mut Manager<A>, step: Step) -> bool {
    match step {
        Step::Set(place, octets, taken) => manager.set(place, octets) == taken,
        Step::Reset(taken) => manager.local_reset() == taken,
        Step::Over => {
            manager.over();
            true
        }
        Step::Silence => {
            manager.silence();
            true
        }
        Step::EventRaised => {
            manager.event_raised();
            true
        }
        _ => is_as_expected(manager, step),
    }
}

fn is_as_expected<A: Allocator + Copy>(manager: &Manager<A>, step: Step) -> bool {
    match step {
        Step::Has(place, octet) => octet_at(manager, place) == Some(octet),
        Step::Flag(flag) => manager.flag() == flag,
        Step::EventDue(is_due) => manager.is_event_due() == is_due,
        Step::Restart(restart) => manager.restart() == restart,
        _ => false,
    }
}

fn octet_at<A: Allocator + Copy>(manager: &Manager<A>, place: Place) -> Option<u8> {
    match manager.read(place) {
        Answer::Read(octets) => octets.first().copied(),
        _ => None,
    }
}

fn written<A: Allocator + Copy>(manager: &mut Manager<A>, place: Place, octets: &[u8]) -> Answer {
    match Request::write(place, octets) {
        Ok(request) => manager.carry(&request),
        Err(_) => Answer::Refused(0, 0),
    }
}

fn is_so(answer: &Answer, reply: Reply) -> bool {
    match (answer, reply) {
        (Answer::Read(octets), Reply::Is(wanted)) => octets.as_slice() == wanted,
        (Answer::Written, Reply::Written) => true,
        (Answer::Refused(0x80, code), Reply::Refused(wanted)) => *code == wanted,
        _ => false,
    }
}

/// The first of the steps, by its number, that is answered otherwise.
fn first_otherwise<A: Allocator + Copy>(manager: &mut Manager<A>, steps: &[Step]) -> Option<usize> {
    for (number, step) in steps.iter().enumerate() {
        if !is_answered(manager, *step) {
            return Some(number);
        }
    }
    None
}

/// Each of the steps is answered so by a new manager of a device with these members.
fn are_answered<R: Abort>(
    rt: &R,
    alloc: Global,
    members: &[Member],
    steps: &[Step],
) -> Result<(), Fail> {
    let table = Table::new(members, &RULES)?;
    let mut manager = Manager::open(alloc, &table)?;
    assert_eq!(rt; first_otherwise(&mut manager, steps), None);
    Ok(())
}

const BLOCK: [Step; 8] = [
    Step::Put(LOW, &[95], Err(ErrorType::InvalidSet)),
    Step::Command(Scope::Block, Command::DownloadStart, Ok(())),
    Step::Put(LOW, &[95], Ok(())),
    Step::Put(HIGH, &[99], Ok(())),
    Step::Has(LOW, 10),
    Step::Command(Scope::Block, Command::DownloadEnd, Ok(())),
    Step::Has(LOW, 95),
    Step::Has(HIGH, 99),
];

#[test]
fn a_block_is_applied_whole(rt: HostRuntime) -> Result<(), Fail> {
    are_answered(&rt, rt.alloc(), &MEMBERS, &BLOCK)
}

const REFUSED: [Step; 11] = [
    Step::Put(
        Place { index: 99, sub: 0 },
        &[],
        Err(ErrorType::IndexNotAvailable),
    ),
    Step::Put(
        Place { index: 64, sub: 1 },
        &[],
        Err(ErrorType::SubindexNotAvailable),
    ),
    Step::Put(SERIAL, &[], Err(ErrorType::AccessDenied)),
    Step::Put(LOW, &[1, 2], Err(ErrorType::TooLong)),
    Step::Put(LOW, &[], Err(ErrorType::TooShort)),
    Step::Put(LOW, &[101], Err(ErrorType::ValueOutOfRange)),
    Step::Put(LOW, &[91], Err(ErrorType::InvalidSet)),
    Step::Command(Scope::Block, Command::UploadStart, Ok(())),
    Step::Put(LOW, &[1, 2], Err(ErrorType::FunctionUnavailable)),
    Step::Has(LOW, 10),
    Step::Flag(false),
];

#[test]
fn each_write_is_refused_for_its_first_reason(rt: HostRuntime) -> Result<(), Fail> {
    are_answered(&rt, rt.alloc(), &MEMBERS, &REFUSED)
}

const HOLE: [Step; 6] = [
    Step::Command(Scope::Block, Command::DownloadStart, Ok(())),
    Step::Put(LOW, &[20], Ok(())),
    Step::Put(HIGH, &[101], Err(ErrorType::ValueOutOfRange)),
    Step::Command(
        Scope::Block,
        Command::DownloadEnd,
        Err(ErrorType::InconsistentSet),
    ),
    Step::Has(LOW, 10),
    Step::Command(
        Scope::Block,
        Command::DownloadEnd,
        Err(ErrorType::FunctionUnavailable),
    ),
];

#[test]
fn a_block_with_a_hole_is_none(rt: HostRuntime) -> Result<(), Fail> {
    are_answered(&rt, rt.alloc(), &MEMBERS, &HOLE)
}

const ALONE: [Step; 8] = [
    Step::Command(Scope::Storage, Command::DownloadStart, Ok(())),
    Step::Command(
        Scope::Block,
        Command::FactoryReset,
        Err(ErrorType::FunctionUnavailable),
    ),
    Step::Set(LOW, &[5], Err(ErrorType::FunctionUnavailable)),
    Step::Put(LOW, &[5], Ok(())),
    Step::Over,
    Step::Has(LOW, 10),
    Step::Set(LOW, &[5], Ok(())),
    Step::Has(LOW, 5),
];

#[test]
fn an_activity_stands_alone(rt: HostRuntime) -> Result<(), Fail> {
    are_answered(&rt, rt.alloc(), &MEMBERS, &ALONE)
}

/// A download, a reset at the device in it, and silence.
const CUT_OFF: [Step; 19] = [
    Step::Set(LOW, &[20], Ok(())),
    Step::Command(Scope::Block, Command::DownloadStart, Ok(())),
    Step::Put(LOW, &[30], Ok(())),
    Step::Reset(Err(ErrorType::FunctionUnavailable)),
    Step::Silence,
    Step::Has(LOW, 20),
    Step::Reset(Ok(())),
    Step::Flag(false),
    Step::EventDue(false),
    Step::Put(HIGH, &[99], Err(ErrorType::FunctionUnavailable)),
    Step::Command(
        Scope::Block,
        Command::DownloadEnd,
        Err(ErrorType::FunctionUnavailable),
    ),
    Step::Has(LOW, 10),
    Step::Has(HIGH, 90),
    Step::Command(Scope::Block, Command::FactoryReset, Ok(())),
    Step::Put(HIGH, &[99], Ok(())),
    Step::Has(HIGH, 99),
    Step::Reset(Ok(())),
    Step::Put(HIGH, &[98], Ok(())),
    Step::Has(HIGH, 98),
];

#[test]
fn a_reset_at_the_device_lets_no_cut_off_block_in(rt: HostRuntime) -> Result<(), Fail> {
    cut_offs_stay_out();
    are_answered(&rt, rt.alloc(), &MEMBERS, &CUT_OFF)
}

/// A change at the device sets the flag, and an upload by Data Storage clears it; a block that is
/// to be stored sets it, and a reset sets or clears it.
const FLAG: [Step; 22] = [
    Step::Put(LOW, &[5], Ok(())),
    Step::Flag(false),
    Step::Set(LOW, &[6], Ok(())),
    Step::Flag(true),
    Step::EventDue(true),
    Step::EventRaised,
    Step::Command(Scope::Block, Command::UploadStart, Ok(())),
    Step::Command(Scope::Block, Command::UploadEnd, Ok(())),
    Step::Flag(true),
    Step::EventDue(true),
    Step::Command(Scope::Storage, Command::UploadStart, Ok(())),
    Step::Command(Scope::Storage, Command::UploadEnd, Ok(())),
    Step::Flag(false),
    Step::EventDue(false),
    Step::Command(Scope::Block, Command::DownloadStart, Ok(())),
    Step::Command(Scope::Block, Command::DownloadStore, Ok(())),
    Step::Flag(true),
    Step::Command(Scope::Block, Command::FactoryReset, Ok(())),
    Step::Flag(false),
    Step::Has(LOW, 10),
    Step::Command(Scope::Block, Command::ApplicationReset, Ok(())),
    Step::Flag(true),
];

#[test]
fn the_flag_is_set_and_cleared(rt: HostRuntime) -> Result<(), Fail> {
    are_answered(&rt, rt.alloc(), &MEMBERS, &FLAG)
}

/// What Data Storage reads, and how a fetch clears the flag.
const FETCHED: [Step; 10] = [
    Step::Read(3, 4, Reply::Is(&[0x16, 0xB4, 0xB2, 0xDE])),
    Step::Set(HIGH, &[50], Ok(())),
    Step::Read(3, 2, Reply::Is(&[0x80])),
    Step::Read(3, 3, Reply::Is(&[0, 0, 0, 40])),
    Step::Read(3, 4, Reply::Is(&[0xFC, 0xA3, 0xC5, 0xA3])),
    Step::Read(
        3,
        5,
        Reply::Is(&[0, 24, 0, 0, 64, 0, 0, 65, 0, 0, 80, 0, 0, 0]),
    ),
    Step::Write(3, 1, &[1], Reply::Written),
    Step::Read(3, 2, Reply::Is(&[0x82])),
    Step::Write(3, 1, &[2], Reply::Written),
    Step::Read(3, 2, Reply::Is(&[0])),
];

#[test]
fn data_storage_reads_what_a_sensor_has(rt: HostRuntime) -> Result<(), Fail> {
    are_answered(&rt, rt.alloc(), &SENSOR_MEMBERS, &FETCHED)
}

/// Writes each value of the one to the other. Answers whether each is written.
fn moves_each<A: Allocator + Copy>(from: &mut Manager<A>, to: &mut Manager<A>) -> bool {
    for place in [TAG, LOW, HIGH] {
        let Answer::Read(value) = from.read(place) else {
            return false;
        };
        if written(to, place, value.as_slice()) != Answer::Written {
            return false;
        }
    }
    true
}

/// Whether the two have the same checksum of Data Storage.
fn are_same<A: Allocator + Copy>(one: &mut Manager<A>, other: &mut Manager<A>) -> bool {
    let checksum = Request::read(Place { index: 3, sub: 4 });
    one.carry(&checksum) == other.carry(&checksum)
}

const FROM: [Step; 3] = [
    Step::Set(LOW, &[20], Ok(())),
    Step::Set(HIGH, &[30], Ok(())),
    Step::Set(TAG, b"", Ok(())),
];

const BEGIN: [Step; 2] = [
    Step::Set(HIGH, &[10], Ok(())),
    Step::Write(3, 1, &[3], Reply::Written),
];

const END: [Step; 4] = [
    Step::Write(3, 1, &[4], Reply::Written),
    Step::Has(LOW, 20),
    Step::Has(HIGH, 30),
    Step::Flag(false),
];

/// A set of the one is the other's, behind a download of Data Storage.
fn fits<A: Allocator + Copy>(from: &mut Manager<A>, to: &mut Manager<A>) -> bool {
    first_otherwise(from, &FROM).is_none()
        && first_otherwise(to, &BEGIN).is_none()
        && moves_each(from, to)
        && first_otherwise(to, &END).is_none()
        && are_same(from, to)
}

#[test]
fn a_set_fits_another_device_of_its_table(rt: HostRuntime) -> Result<(), Fail> {
    sets_fit();
    let table = Table::new(&MEMBERS, &RULES)?;
    let mut from = Manager::open(rt.alloc(), &table)?;
    let mut to = Manager::open(rt.alloc(), &table)?;
    assert!(rt; fits(&mut from, &mut to));
    Ok(())
}

const RESETS: [Step; 10] = [
    Step::Restart(Restart::NotDue),
    Step::Set(LOW, &[5], Ok(())),
    Step::Write(2, 0, &[0x80], Reply::Written),
    Step::Restart(Restart::Warm),
    Step::Has(LOW, 5),
    Step::Flag(true),
    Step::Write(2, 0, &[0x83], Reply::Written),
    Step::Restart(Restart::Silent),
    Step::Has(LOW, 10),
    Step::Flag(false),
];

#[test]
fn a_reset_may_ask_for_a_restart(rt: HostRuntime) -> Result<(), Fail> {
    are_answered(&rt, rt.alloc(), &MEMBERS, &RESETS)
}

const LOCKS_AND_COMMANDS: [Step; 15] = [
    Step::Write(12, 0, &[0, 16], Reply::Refused(0x30)),
    Step::Write(12, 0, &[0], Reply::Refused(0x34)),
    Step::Write(12, 0, &[0, 0, 0], Reply::Refused(0x33)),
    Step::Write(12, 0, &[0, 3], Reply::Written),
    Step::Read(12, 0, Reply::Is(&[0, 3])),
    Step::Write(64, 0, &[1], Reply::Refused(0x23)),
    Step::Write(3, 1, &[1], Reply::Refused(0x23)),
    Step::Read(3, 2, Reply::Is(&[6])),
    Step::Write(2, 0, &[9], Reply::Refused(0x35)),
    Step::Write(2, 1, &[9], Reply::Refused(0x12)),
    Step::Read(2, 0, Reply::Refused(0x23)),
    Step::Write(2, 0, &[0x82], Reply::Written),
    Step::Write(64, 0, &[1], Reply::Written),
    Step::Write(3, 1, &[6], Reply::Refused(0x30)),
    Step::Write(3, 3, &[6], Reply::Refused(0x23)),
];

#[test]
fn locks_and_commands_are_carried_out(rt: HostRuntime) -> Result<(), Fail> {
    are_answered(&rt, rt.alloc(), &MEMBERS, &LOCKS_AND_COMMANDS)
}
