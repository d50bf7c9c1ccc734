//! Units stand at a port with Data Storage, one behind the other, and blocks are written.
use crate::sensor::{at, check, has_limits, limits, table_of_sensor};
use iol_app::Transmission;
use iol_book::Limits;
use iol_isdu::{Place, Request};
use iol_link::Rate;
use iol_mode::Devices;
use iol_page::Page;
use iol_param_device::{ParamDevice, slot_size};
use iol_params::Table;
use iol_slots::RamSlots;
use iol_storage::{
    Agreement, BlockTicket, DownloadResult, Keep, SetNumber, StorageMode, StorageStanding,
    StoredFault, StoredPort, Trouble,
};
use std::alloc::Global;
use std::test::Fail;

/// Eight octets of on-request data, ISDU, no process data.
const PAGE: [u8; 10] = [0x17, 0x2D, 0x11, 0x00, 0x00, 0x12, 0x34, 0x00, 0x01, 0x07];

/// The same of another type.
const OTHER_PAGE: [u8; 10] = [0x17, 0x2D, 0x11, 0x00, 0x00, 0x12, 0x34, 0x00, 0x02, 0x08];

/// More turns than a start-up and a check take.
const MANY: usize = 400;

/// A place at the Index of Data Storage.
const OWNED: Place = Place { index: 3, sub: 1 };

type Unit<'a> = ParamDevice<'a, RamSlots>;

/// A unit with this page, as it leaves the factory; none where there is no memory for it.
fn unit_of<'a>(alloc: Global, table: &'a Table<'a>, octets: &[u8; 10]) -> Option<Unit<'a>> {
    let page = Page::from_octets(octets);
    if page.layouts().is_err() {
        return None;
    }
    let slots = RamSlots::open(alloc, slot_size(table)).ok()?;
    ParamDevice::open(alloc, table, page, slots).ok()
}

/// A user changes the second limit at a unit. Answers whether it is let.
fn is_changed(unit: &mut Unit<'_>, high: u8) -> bool {
    unit.set(at(65), &[high]).is_ok()
}

/// A port that has no set yet.
fn port_of(alloc: Global) -> Result<StoredPort, Fail> {
    let limits = Limits::default();
    let Ok(port) = StoredPort::open(alloc, &limits, Devices::Own, StorageMode::Both, None) else {
        return Err("no port")?;
    };
    Ok(port)
}

/// One turn over a clean line.
fn pass(port: &mut StoredPort, unit: &mut Unit<'_>) {
    match port.send() {
        Transmission::Wake => {
            unit.wake();
            port.receive_wake(Some(Rate::Com2));
        }
        Transmission::Exchange(sent) => {
            unit.work();
            let received = unit.hear(sent.octets.as_slice());
            port.receive(&received);
        }
    }
}

/// One turn. A set that was fetched is saved at once.
fn turn(port: &mut StoredPort, unit: &mut Unit<'_>) {
    pass(port, unit);
    if let Some((number, _)) = port.unsaved() {
        let _ = port.saved(number);
    }
}

fn turns(port: &mut StoredPort, unit: &mut Unit<'_>, count: usize) {
    for _ in 0..count {
        turn(port, unit);
    }
}

/// The number of the set that waits to be saved, behind many turns.
fn fetched(port: &mut StoredPort, unit: &mut Unit<'_>) -> Option<SetNumber> {
    for _ in 0..MANY {
        pass(port, unit);
    }
    let (number, _) = port.unsaved()?;
    Some(number)
}

/// Nothing is heard of a unit any more, until the link is lost.
fn lose(port: &mut StoredPort) {
    for _ in 0..4 {
        match port.send() {
            Transmission::Wake => port.receive_wake(None),
            Transmission::Exchange(_) => port.receive(&None),
        }
    }
}

/// Whether this comes of Data Storage in so many turns.
fn comes(
    port: &mut StoredPort,
    unit: &mut Unit<'_>,
    count: usize,
    standing: StorageStanding,
) -> bool {
    turns(port, unit, count);
    port.standing() == standing
}

/// The set of a unit that a user changed is fetched, and the unit is told.
fn fetches(alloc: Global, port: &mut StoredPort, table: &Table<'_>) -> bool {
    let Some(mut unit) = unit_of(alloc, table, &PAGE) else {
        return false;
    };
    let fetched = StorageStanding::Served(Agreement::Fetched);
    is_changed(&mut unit, 50) && comes(port, &mut unit, MANY, fetched) && !unit.manager().flag()
}

/// Another unit stands there then, and comes up with the changed value.
fn restores(alloc: Global, port: &mut StoredPort, table: &Table<'_>) -> bool {
    let Some(mut unit) = unit_of(alloc, table, &PAGE) else {
        return false;
    };
    let restored = StorageStanding::Served(Agreement::Restored);
    let is_new = has_limits(unit.manager(), 10, 90);
    lose(port);
    is_new && comes(port, &mut unit, MANY, restored) && has_limits(unit.manager(), 10, 50)
}

#[test]
fn another_unit_of_the_type_comes_up_with_the_values(rt: HostRuntime) -> Result<(), Fail> {
    let table = table_of_sensor()?;
    let mut port = port_of(rt.alloc())?;
    check(&rt, fetches(rt.alloc(), &mut port, &table));
    check(&rt, restores(rt.alloc(), &mut port, &table));
    Ok(())
}

/// Whether a set isn't the one that waits to be saved.
fn is_other(port: &mut StoredPort, number: SetNumber) -> bool {
    port.saved(number) == Err(StoredFault::OtherSet)
}

/// A set that was fetched once more behind a lost link is saved by its new number alone, and once.
fn saves_the_last(port: &mut StoredPort, unit: &mut Unit<'_>) -> Option<bool> {
    let first = fetched(port, unit)?;
    lose(port);
    let second = fetched(port, unit)?;
    let stays_unsaved = is_other(port, first) && unit.manager().flag();
    let is_saved = port.saved(second) == Ok(()) && is_other(port, second);
    turns(port, unit, MANY);
    Some(stays_unsaved && is_saved && !unit.manager().flag())
}

/// The same, with a unit that a user changed.
fn saves_changed(alloc: Global, port: &mut StoredPort, table: &Table<'_>) -> bool {
    match unit_of(alloc, table, &PAGE) {
        Some(mut unit) => {
            is_changed(&mut unit, 50) && saves_the_last(port, &mut unit) == Some(true)
        }
        None => false,
    }
}

#[test]
fn a_set_is_saved_by_its_own_number_alone(rt: HostRuntime) -> Result<(), Fail> {
    let table = table_of_sensor()?;
    let mut port = port_of(rt.alloc())?;
    check(&rt, saves_changed(rt.alloc(), &mut port, &table));
    Ok(())
}

/// Whether a unit is served.
fn serves(alloc: Global, port: &mut StoredPort, table: &Table<'_>) -> bool {
    match unit_of(alloc, table, &PAGE) {
        Some(mut unit) => comes(
            port,
            &mut unit,
            MANY,
            StorageStanding::Served(Agreement::Fetched),
        ),
        None => false,
    }
}

/// A unit of another type stands there then. It isn't served until it is released.
fn holds_back(alloc: Global, port: &mut StoredPort, table: &Table<'_>) -> bool {
    let Some(mut unit) = unit_of(alloc, table, &OTHER_PAGE) else {
        return false;
    };
    let trouble = StorageStanding::Trouble(Trouble::WrongIdentity);
    let released = StorageStanding::Released(Trouble::WrongIdentity);
    lose(port);
    let is_held = comes(port, &mut unit, MANY, trouble);
    port.release();
    is_held && comes(port, &mut unit, 1, released)
}

#[test]
fn a_unit_of_another_type_is_not_served_until_it_is_released(rt: HostRuntime) -> Result<(), Fail> {
    let table = table_of_sensor()?;
    let mut port = port_of(rt.alloc())?;
    check(&rt, serves(rt.alloc(), &mut port, &table));
    check(&rt, holds_back(rt.alloc(), &mut port, &table));
    Ok(())
}

/// Writes a block of these limits, once the unit is served.
fn submitted(port: &mut StoredPort, unit: &mut Unit<'_>, low: u8, high: u8) -> Option<BlockTicket> {
    turns(port, unit, MANY);
    let mut writes = limits(low, high).ok()?;
    port.submit_block(&mut writes, Keep::No).ok()
}

/// Whether a look for the outcome of a block gives this.
fn collects(
    port: &mut StoredPort,
    block: BlockTicket,
    wanted: Result<DownloadResult, StoredFault>,
) -> bool {
    port.collect_block(block) == wanted
}

/// The outcome of a block is there once it is over, and is handed out once.
fn applies(port: &mut StoredPort, unit: &mut Unit<'_>) -> Option<bool> {
    let block = submitted(port, unit, 95, 99)?;
    let is_begun = collects(port, block, Err(StoredFault::BlockNotOver));
    turns(port, unit, MANY);
    let is_applied = collects(port, block, Ok(DownloadResult::Applied));
    let is_gone = collects(port, block, Err(StoredFault::UnknownBlock));
    Some(is_begun && is_applied && is_gone)
}

/// The same, with a unit that has the limits of the block then.
fn applies_at_unit(alloc: Global, port: &mut StoredPort, table: &Table<'_>) -> bool {
    match unit_of(alloc, table, &PAGE) {
        Some(mut unit) => {
            applies(port, &mut unit) == Some(true) && has_limits(unit.manager(), 95, 99)
        }
        None => false,
    }
}

#[test]
fn a_block_is_applied(rt: HostRuntime) -> Result<(), Fail> {
    let table = table_of_sensor()?;
    let mut port = port_of(rt.alloc())?;
    check(&rt, applies_at_unit(rt.alloc(), &mut port, &table));
    Ok(())
}

/// The link is lost while a block is written, which is not applied then.
fn cuts_off(port: &mut StoredPort, unit: &mut Unit<'_>) -> Option<bool> {
    let block = submitted(port, unit, 95, 99)?;
    turns(port, unit, 8);
    lose(port);
    turns(port, unit, MANY);
    Some(collects(port, block, Ok(DownloadResult::NotApplied)))
}

/// The same, with a unit that has the limits of the factory then.
fn cuts_off_at_unit(alloc: Global, port: &mut StoredPort, table: &Table<'_>) -> bool {
    match unit_of(alloc, table, &PAGE) {
        Some(mut unit) => {
            cuts_off(port, &mut unit) == Some(true) && has_limits(unit.manager(), 10, 90)
        }
        None => false,
    }
}

#[test]
fn a_block_that_is_cut_off_is_not_applied(rt: HostRuntime) -> Result<(), Fail> {
    let table = table_of_sensor()?;
    let mut port = port_of(rt.alloc())?;
    check(&rt, cuts_off_at_unit(rt.alloc(), &mut port, &table));
    Ok(())
}

/// Whether a client's request is refused as one at the Index of Data Storage.
fn is_owned(port: &mut StoredPort) -> bool {
    match Request::write(OWNED, &[2]) {
        Ok(request) => port.submit(request) == Err(StoredFault::OwnedIndex),
        Err(_) => false,
    }
}

/// Whether a block is refused as one that comes before the device is served, and is left as it is.
fn comes_early(port: &mut StoredPort) -> bool {
    let Ok(mut block) = limits(95, 99) else {
        return false;
    };
    block.push(OWNED, &[2]).is_ok()
        && port.submit_block(&mut block, Keep::No) == Err(StoredFault::NoStanding)
        && block.len() == 3
}

#[test]
fn a_client_writes_nothing_at_the_index_of_data_storage(rt: HostRuntime) -> Result<(), Fail> {
    let mut port = port_of(rt.alloc())?;
    check(&rt, is_owned(&mut port));
    check(&rt, comes_early(&mut port));
    Ok(())
}
