//! Opening and closing.
ghost use Rattle.std.specs.Prelude.{◌≡◌, true, false, None, IfOk, IfErr, IsTrue, IsFalse};
ghost use Rattle.iolink_port_forms.specs.Arguments.{devices_of, limits_of};
ghost use Rattle.iolink_port_forms.specs.Journal.{KeepsNone};
ghost use Rattle.iolink_storage_c.specs.Calls.{store_parts, StoreIsRefused};
ghost use Rattle.iolink_storage_c.specs.Opening.{storage_mode_of, IsBackupOf, IsNewStore, IsStoreRefusal, StoreOpens};

use crate::held::{HeldStore, IolStore};
use iol_book::Limits;
use iol_mode::Devices;
use iol_storage::{Set, StorageFault, StorageMode, StoredPort};
use iolink_handle::{CLOSED, IS_OPEN, OUT_OF_MEMORY, OUT_OF_RANGE};
use iolink_port_forms::{RetainedJournal, devices_of, limits_of};
use std::alloc::Global;

/// Data Storage isn't used.
const OFF: u8 = 0;
/// The kept set is restored, and none is fetched.
const RESTORE: u8 = 1;
/// What was changed at the device replaces the kept set, too.
const BOTH: u8 = 2;
/// Likewise, but only a change at the unit of the kept set.
const OWN_UNIT: u8 = 3;

/// How Data Storage is used, by its number.
fn storage_mode_of(number: u8) -> Option<StorageMode>
    ensures { result ≡ storage_mode_of number }
{
    match number {
        OFF => Some(StorageMode::Off),
        RESTORE => Some(StorageMode::Restore),
        BOTH => Some(StorageMode::Both),
        OWN_UNIT => Some(StorageMode::Own),
        _ => None,
    }
}

/// The set of these octets, none of none. Refused by 44 where no set has them.
fn backup_of(octets: &[u8]) -> Result<Option<Set>, StorageFault>
    ensures backup { IfOk result (λ backup. IsBackupOf octets.now backup) }
    ensures refused { IfErr result (λ why. why ≡ StorageFault.NoSet) }
{
    if octets.is_empty() {
        return Ok(None);
    }
    Ok(Some(Set::read(octets)?))
}

/// Puts a port behind a closed handle: 0, or 24 where there is no memory, which changes nothing.
fn hold(alloc: Global, port: StoredPort<Global>, handle: &mut IolStore) -> u8
    requires { handle.old.is_open ≡ false }
    ensures lacks { ¬ (result ≡ 0) → result ≡ 24 }
    ensures refused { ¬ (result ≡ 0) → handle.new ≡ handle.old }
    ensures opened { result ≡ 0 → handle.new.is_open ≡ true }
    ensures port { result ≡ 0 → store_parts handle.new ≡ port }
    ensures journal { result ≡ 0 → KeepsNone handle.new.held.value.journal }
    ensures writes { result ≡ 0 → handle.new.held.value.writes ≡ None }
{
    let store = HeldStore {
        port,
        journal: RetainedJournal::new(alloc),
        writes: None,
    };
    match Box::new(alloc, store) {
        Ok(store) => {
            *handle = IolStore::of(store);
            0
        }
        Err(_) => OUT_OF_MEMORY,
    }
}

/// Puts a port with the set of these octets behind a closed handle. Refused, with nothing changed,
/// by 44, or as [`StoredPort::open`].
fn hold_new(
    alloc: Global,
    limits: &Limits,
    devices: Devices,
    mode: StorageMode,
    octets: &[u8],
    handle: &mut IolStore,
) -> u8
    requires { handle.old.is_open ≡ false }
    ensures lacks { ¬ (result ≡ 0) → IsStoreRefusal limits.now result }
    ensures refused { ¬ (result ≡ 0) → handle.new ≡ handle.old }
    ensures opened { result ≡ 0 → handle.new.is_open ≡ true }
    ensures port { result ≡ 0
        → IsNewStore devices mode limits.now octets.now (store_parts handle.new) }
    ensures journal { result ≡ 0 → KeepsNone handle.new.held.value.journal }
    ensures writes { result ≡ 0 → handle.new.held.value.writes ≡ None }
{
    let backup = match backup_of(octets) {
        Ok(backup) => backup,
        Err(fault) => return fault.code(),
    };
    match StoredPort::open(alloc, limits, devices, mode, backup) {
        Ok(port) => hold(alloc, port, handle),
        Err(fault) => fault.code(),
    }
}

/// Opens a port with Data Storage, whose link is down, with the set that C has saved: of these
/// octets, none of none. `devices` is 0 for those of our own kind, 1 for any; `mode` 0 off, 1 to
/// restore, 2 both, 3 both of one unit. The first ticket is `given` + 1.
///
/// 0, or the first of 253 where the handle is open already, 254 where a number is out of its range
/// (the limits as of `iol_port_open`), 44 where the octets are no set, 48 where fewer than three
/// tickets may be outstanding or the journal has fewer than 12 entries, 41 where the set has a
/// value that isn't of a parameter, and 24 where there is no memory. Refused, it changed nothing.
#[unsafe(no_mangle)]
pub extern "C" fn iol_store_open(
    alloc: Global,
    handle: &mut IolStore,
    devices: u8,
    mode: u8,
    journal: u32,
    busy: u16,
    queue: u8,
    given: u64,
    octets: &[u8],
) -> u8
    ensures { StoreOpens (devices_of devices) (storage_mode_of mode)
        (limits_of journal busy queue given) octets.now handle.old result handle.new }
{
    if handle.is_open {
        return IS_OPEN;
    }
    let (Some(devices), Some(mode)) = (devices_of(devices), storage_mode_of(mode)) else {
        return OUT_OF_RANGE;
    };
    let Some(limits) = limits_of(journal, busy, queue, given) else {
        return OUT_OF_RANGE;
    };
    hold_new(alloc, &limits, devices, mode, octets, handle)
}

/// Ends the port and gives its memory back: 0, or 252 where the handle is closed.
#[unsafe(no_mangle)]
pub extern "C" fn iol_store_close(alloc: Global, handle: &mut IolStore) -> u8
    ensures shut { handle.new.is_open ≡ false }
    ensures closed { IsFalse handle.old.is_open → StoreIsRefused result handle.old handle.new }
    ensures done { IsTrue handle.old.is_open → result ≡ 0 }
{
    if !handle.is_open {
        return CLOSED;
    }
    let store = handle.take_box(alloc);
    drop(store);
    0
}
