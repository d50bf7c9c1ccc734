//! What outlives the power of a device, and what a reset leaves.
use iol_isdu::{Answer, Place, Request};
use iol_param_device::{OpenFault, SavedManager, slot_size};
use iol_params::{Access, DataType, ErrorType, IntegerWidth, Member, Table};
use iol_slots::RamSlots;
use std::alloc::Global;
use std::process::Abort;
use std::test::Fail;

const PLACE: Place = Place { index: 64, sub: 0 };

const MEMBERS: [Member<'static>; 1] = [Member {
    place: PLACE,
    data_type: DataType::UInteger(IntegerWidth::One, 0, 100),
    access: Access::Stored,
    default: &[10],
}];

/// Where the master writes a SystemCommand.
const COMMAND: Place = Place { index: 2, sub: 0 };

/// Those by which a block begins, and ends.
const BEGIN: u8 = 3;

const END: u8 = 4;

/// A call of a saved manager, and what it is to answer.
#[derive(Clone, Copy)]
enum Step {
    /// The master writes this octet, and that is taken, or refused.
    Write(Place, u8),
    Refused(Place, u8, ErrorType),
    /// A change at the device, and a reset there.
    Set(u8, Result<(), ErrorType>),
    Reset(Result<(), ErrorType>),
    EventRaised,
    Silence,
    PowerCycle,
    /// The value in force.
    Has(u8),
    Flag(bool),
    EventDue(bool),
}

fn is_answered(saved: &mut SavedManager<RamSlots>, step: Step) -> bool {
    match step {
        Step::Write(place, octet) => is_written(saved, place, octet, &Answer::Written),
        Step::Refused(place, octet, why) => is_written(saved, place, octet, &why.answer()),
        Step::Set(octet, taken) => saved.set(PLACE, &[octet]) == taken,
        Step::Reset(taken) => saved.reset() == taken,
        Step::EventRaised => {
            saved.event_raised();
            true
        }
        Step::Silence => {
            saved.silence();
            true
        }
        Step::PowerCycle => {
            saved.power_cycle();
            true
        }
        _ => is_as_expected(saved, step),
    }
}

fn is_written(
    saved: &mut SavedManager<RamSlots>,
    place: Place,
    octet: u8,
    answer: &Answer,
) -> bool {
    match Request::write(place, &[octet]) {
        Ok(request) => saved.carry(&request) == *answer,
        Err(_) => false,
    }
}

fn is_as_expected(saved: &SavedManager<RamSlots>, step: Step) -> bool {
    match step {
        Step::Has(octet) => octet_of(saved) == Some(octet),
        Step::Flag(flag) => saved.manager().flag() == flag,
        Step::EventDue(is_due) => saved.manager().is_event_due() == is_due,
        _ => false,
    }
}

fn octet_of(saved: &SavedManager<RamSlots>) -> Option<u8> {
    match saved.manager().read(PLACE) {
        Answer::Read(octets) => octets.first().copied(),
        Answer::Written | Answer::Refused(..) => None,
    }
}

/// The first of the steps, by its number, that is answered otherwise.
fn first_otherwise(saved: &mut SavedManager<RamSlots>, steps: &[Step]) -> Option<usize> {
    for (number, step) in steps.iter().enumerate() {
        if !is_answered(saved, *step) {
            return Some(number);
        }
    }
    None
}

/// Each of the steps is answered so by a manager that is opened with these slots, which it gives
/// back.
fn are_answered<R: Abort>(
    rt: &R,
    alloc: Global,
    table: &Table,
    slots: RamSlots,
    steps: &[Step],
) -> Result<RamSlots, OpenFault> {
    let mut saved = SavedManager::open(alloc, table, slots)?;
    assert_eq!(rt; first_otherwise(&mut saved, steps), None);
    Ok(saved.into_slots())
}

/// The same, of a new device.
fn are_answered_at_first<R: Abort>(rt: &R, alloc: Global, steps: &[Step]) -> Result<(), Fail> {
    let table = Table::new(&MEMBERS, &[])?;
    let slots = RamSlots::open(alloc, slot_size(&table))?;
    are_answered(rt, alloc, &table, slots, steps)?;
    Ok(())
}

const WRITTEN: [Step; 2] = [Step::Has(10), Step::Write(PLACE, 20)];

const SET: [Step; 10] = [
    Step::Has(20),
    Step::Flag(false),
    Step::Set(101, Err(ErrorType::ValueOutOfRange)),
    Step::Set(30, Ok(())),
    Step::EventRaised,
    Step::PowerCycle,
    Step::Has(30),
    Step::Flag(true),
    Step::EventDue(true),
    Step::Reset(Ok(())),
];

const RESET: [Step; 2] = [Step::Has(10), Step::Flag(false)];

#[test]
fn what_was_answered_outlives_the_power(rt: HostRuntime) -> Result<(), Fail> {
    let table = Table::new(&MEMBERS, &[])?;
    let mut slots = RamSlots::open(rt.alloc(), slot_size(&table))?;
    for steps in [&WRITTEN[..], &SET[..], &RESET[..]] {
        slots = are_answered(&rt, rt.alloc(), &table, slots, steps)?;
    }
    Ok(())
}

const IN_A_BLOCK: [Step; 9] = [
    Step::Set(20, Ok(())),
    Step::Write(COMMAND, BEGIN),
    Step::Reset(Err(ErrorType::FunctionUnavailable)),
    Step::Write(PLACE, 30),
    Step::Has(20),
    Step::Write(COMMAND, END),
    Step::Has(30),
    Step::Reset(Ok(())),
    Step::Has(10),
];

#[test]
fn there_is_no_reset_in_a_block(rt: HostRuntime) -> Result<(), Fail> {
    are_answered_at_first(&rt, rt.alloc(), &IN_A_BLOCK)
}

const BEHIND_SILENCE: [Step; 9] = [
    Step::Set(20, Ok(())),
    Step::Write(COMMAND, BEGIN),
    Step::Silence,
    Step::Reset(Ok(())),
    Step::Refused(PLACE, 30, ErrorType::FunctionUnavailable),
    Step::Refused(COMMAND, END, ErrorType::FunctionUnavailable),
    Step::Has(10),
    Step::PowerCycle,
    Step::Has(10),
];

#[test]
fn a_reset_behind_silence_lets_no_block_in(rt: HostRuntime) -> Result<(), Fail> {
    are_answered_at_first(&rt, rt.alloc(), &BEHIND_SILENCE)
}

#[test]
fn slots_of_another_size_are_refused(rt: HostRuntime) -> Result<(), Fail> {
    let table = Table::new(&MEMBERS, &[])?;
    let slots = RamSlots::open(rt.alloc(), slot_size(&table) + 1)?;
    let opened = SavedManager::open(rt.alloc(), &table, slots);
    assert_eq!(rt; opened.map(|_| ()), Err(OpenFault::WrongSlotSize));
    assert_eq!(rt; OpenFault::WrongSlotSize.code(), 59);
    assert_eq!(rt; OpenFault::OutOfMemory.code(), 24);
    Ok(())
}
