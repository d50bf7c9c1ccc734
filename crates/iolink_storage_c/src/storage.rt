//! Data Storage: what came of it, and the set that C keeps.
ghost use Rattle.std.specs.Prelude.{◌≡◌, None, IsTrue};
ghost use Rattle.std.specs.Result.{result_err};
ghost use Rattle.iol_storage.specs.Stored.{storage_released, storage_loaded, load_refusal, storage_saved, saved_refusal};
ghost use Rattle.iolink_storage_c.specs.Calls.{store_parts, GuardsStore, LooksAtStore, OutsideStore};
ghost use Rattle.iolink_storage_c.specs.Shown.{standing_shown, SetIsShown};
ghost use Rattle.iolink_storage_c.specs.StorageCalls.{UnsavedIsShown, refusal_number, StorageSettles, StoreLoads};

use crate::held::IolStore;
use crate::shown::{IolSet, IolStanding, show_set, standing_of};
use iol_storage::{Set, SetNumber, StoredFault};
use iolink_handle::CLOSED;
use std::alloc::Global;

/// What came of Data Storage in the present session: 0, or 252 where the handle is closed, which
/// leaves `out` as it is.
#[unsafe(no_mangle)]
pub extern "C" fn iol_store_standing(
    alloc: Global,
    handle: &mut IolStore,
    out: &mut IolStanding,
) -> u8
    ensures looks { LooksAtStore result handle.old handle.new out.old out.new }
    ensures standing { IsTrue handle.old.is_open → (result ≡ 0)
        × (out.new ≡ standing_shown (store_parts handle.old).storage.standing) }
{
    if !handle.is_open {
        return CLOSED;
    }
    let store = handle.take_box(alloc);
    *out = standing_of(store.port.standing());
    *handle = IolStore::of(store);
    0
}

/// The set that is kept, no octet where none is: 0, or 252 where the handle is closed, which leaves
/// `out` as it is.
#[unsafe(no_mangle)]
pub extern "C" fn iol_store_set(alloc: Global, handle: &mut IolStore, out: &mut IolSet) -> u8
    ensures looks { LooksAtStore result handle.old handle.new out.old out.new }
    ensures set { IsTrue handle.old.is_open → (result ≡ 0)
        × SetIsShown (store_parts handle.old).storage.backup out.new }
{
    if !handle.is_open {
        return CLOSED;
    }
    let store = handle.take_box(alloc);
    show_set(store.port.backup(), out);
    *handle = IolStore::of(store);
    0
}

/// The set that was fetched, and its number, until C says that it has saved it: 0, or 252 where the
/// handle is closed, which leaves both as they are. Where none waits to be saved, `out` has no
/// octet, and the number is 0.
#[unsafe(no_mangle)]
pub extern "C" fn iol_store_unsaved(
    alloc: Global,
    handle: &mut IolStore,
    number: &mut u64,
    out: &mut IolSet,
) -> u8
    ensures looks { LooksAtStore result handle.old handle.new out.old out.new }
    ensures unwritten { OutsideStore result handle.old handle.new number.old number.new }
    ensures unsaved { IsTrue handle.old.is_open → (result ≡ 0)
        × UnsavedIsShown (store_parts handle.old).storage number.new out.new }
{
    if !handle.is_open {
        return CLOSED;
    }
    let store = handle.take_box(alloc);
    match store.port.unsaved() {
        Some((SetNumber(fetched), set)) => {
            *number = fetched;
            show_set(Some(set), out);
        }
        None => {
            *number = 0;
            show_set(None, out);
        }
    }
    *handle = IolStore::of(store);
    0
}

/// C has saved the set of this number. The device is told then.
///
/// 0, or the first of 252 where the handle is closed, and 62 where another waits to be saved, or
/// none does.
#[unsafe(no_mangle)]
pub extern "C" fn iol_store_saved(alloc: Global, handle: &mut IolStore, number: u64) -> u8
    ensures guards { GuardsStore result handle.old handle.new }
    ensures saves { IsTrue handle.old.is_open → let p = store_parts handle.old in
        StorageSettles (saved_refusal p.storage (record { 0 = number })) (storage_saved p.storage)
        p result (store_parts handle.new) }
{
    if !handle.is_open {
        return CLOSED;
    }
    let mut store = handle.take_box(alloc);
    let answer = store.port.saved(SetNumber(number));
    *handle = IolStore::of(store);
    number_of(answer)
}

/// Keeps the set of these octets from now on. In trouble another check follows.
///
/// 0, or the first of 252 where the handle is closed, 44 where no set has these octets, 45 while a
/// job is under way, and 41 where the set has a value that isn't of a parameter.
#[unsafe(no_mangle)]
pub extern "C" fn iol_store_load(alloc: Global, handle: &mut IolStore, octets: &[u8]) -> u8
    ensures guards { GuardsStore result handle.old handle.new }
    ensures loads { IsTrue handle.old.is_open → StoreLoads octets.now (store_parts handle.old)
        result (store_parts handle.new) }
{
    if !handle.is_open {
        return CLOSED;
    }
    let set = match Set::read(octets) {
        Ok(set) => set,
        Err(fault) => return fault.code(),
    };
    let mut store = handle.take_box(alloc);
    let answer = store.port.load(set);
    *handle = IolStore::of(store);
    number_of(answer)
}

/// Keeps no set from now on. In trouble another check follows. 0, or the first of 252 where the
/// handle is closed, and 45 while a job is under way.
#[unsafe(no_mangle)]
pub extern "C" fn iol_store_forget(alloc: Global, handle: &mut IolStore) -> u8
    ensures guards { GuardsStore result handle.old handle.new }
    ensures forgets { IsTrue handle.old.is_open → let p = store_parts handle.old in
        StorageSettles (load_refusal p.storage None) (storage_loaded p.storage None) p result
        (store_parts handle.new) }
{
    if !handle.is_open {
        return CLOSED;
    }
    let mut store = handle.take_box(alloc);
    let answer = store.port.forget();
    *handle = IolStore::of(store);
    number_of(answer)
}

/// Serves the device in spite of a trouble, up to the end of the session; nothing while a check is
/// under way. 0, or 252 where the handle is closed.
#[unsafe(no_mangle)]
pub extern "C" fn iol_store_release(alloc: Global, handle: &mut IolStore) -> u8
    ensures guards { GuardsStore result handle.old handle.new }
    ensures releases { IsTrue handle.old.is_open → let p = store_parts handle.old in
        (result ≡ 0)
        × (store_parts handle.new ≡ record p { storage = storage_released p.storage }) }
{
    if !handle.is_open {
        return CLOSED;
    }
    let mut store = handle.take_box(alloc);
    store.port.release();
    *handle = IolStore::of(store);
    0
}

/// 0, or the number of the refusal.
fn number_of(answer: Result<(), StoredFault>) -> u8
    ensures { result ≡ refusal_number (result_err answer) }
{
    match answer {
        Ok(()) => 0,
        Err(fault) => fault.code(),
    }
}
