//! Which device is expected, its page, and the cycle time that it is given.
ghost use Rattle.std.specs.Prelude.{◌≡◌, ◌≤◌, ◌<◌, Some, None, unwrap_or, [], IsTrue};
ghost use Rattle.iol_page.specs.Cycle.{longest_cycle};
ghost use Rattle.iol_port.specs.EveryWire.{page_shown};
ghost use Rattle.iolink_handle.specs.Shown.{AreShown};
ghost use Rattle.iolink_port_forms.specs.Arguments.{identity_at, largest_device};
ghost use Rattle.iolink_storage_c.specs.Calls.{store_parts, GuardsStore, GuardsStoreOut, LooksAtStore};
ghost use Rattle.iolink_storage_c.specs.StateCalls.{StoreExpects, StorePaces};

use crate::held::IolStore;
use iolink_handle::{CLOSED, OUT_OF_RANGE};
use iolink_port_forms::{IolPage, cycle_of, identity_of, show_counting, show_page};
use std::alloc::Global;

/// Expects this device: a link to another one goes down.
///
/// 0, or the first of 252 where the handle is closed, and 254 for a DeviceID above 24 bits. With 0
/// `counts` is 1 for now, or 2 for later: the page of the present session was checked already.
/// Where it is refused, nothing changed, and `counts` stays as it is.
#[unsafe(no_mangle)]
pub extern "C" fn iol_store_expect(
    alloc: Global,
    handle: &mut IolStore,
    vendor: u16,
    device: u32,
    counts: &mut u8,
) -> u8
    ensures guards { GuardsStoreOut result handle.old handle.new counts.old counts.new }
    ensures range { IsTrue handle.old.is_open → largest_device < device →
        (result ≡ 254) × (counts.new ≡ counts.old) × (handle.new ≡ handle.old) }
    ensures expects { IsTrue handle.old.is_open → device ≤ largest_device →
        StoreExpects (Some (identity_at vendor device)) (store_parts handle.old) result counts.new
        (store_parts handle.new) }
{
    if !handle.is_open {
        return CLOSED;
    }
    let Some(identity) = identity_of(vendor, device) else {
        return OUT_OF_RANGE;
    };
    let mut store = handle.take_box(alloc);
    let answer = store.port.expect(identity);
    *handle = IolStore::of(store);
    show_counting(Some(answer), counts)
}

/// Expects any device again: 0, or 252 where the handle is closed, which leaves `counts` as it is.
/// With 0 `counts` is as of `iol_store_expect`.
#[unsafe(no_mangle)]
pub extern "C" fn iol_store_expect_any(alloc: Global, handle: &mut IolStore, counts: &mut u8) -> u8
    ensures guards { GuardsStoreOut result handle.old handle.new counts.old counts.new }
    ensures expects { IsTrue handle.old.is_open →
        StoreExpects None (store_parts handle.old) result counts.new (store_parts handle.new) }
{
    if !handle.is_open {
        return CLOSED;
    }
    let mut store = handle.take_box(alloc);
    let answer = store.port.expect_any();
    *handle = IolStore::of(store);
    show_counting(Some(answer), counts)
}

/// Has start-ups write the shortest cycle time that takes at least so many microseconds, where the
/// device allows it; else, and for 0, the device's least one.
///
/// 0, or the first of 252 where the handle is closed, and 39 above 132,800. With 0 `counts` is as
/// of `iol_store_expect`. Where it is refused, nothing changed, and `counts` stays as it is.
#[unsafe(no_mangle)]
pub extern "C" fn iol_store_set_cycle(
    alloc: Global,
    handle: &mut IolStore,
    micros: u32,
    counts: &mut u8,
) -> u8
    ensures guards { GuardsStoreOut result handle.old handle.new counts.old counts.new }
    ensures range { IsTrue handle.old.is_open → longest_cycle < micros →
        (result ≡ 39) × (counts.new ≡ counts.old) × (handle.new ≡ handle.old) }
    ensures paces { IsTrue handle.old.is_open → micros ≤ longest_cycle →
        StorePaces micros (store_parts handle.old) result counts.new (store_parts handle.new) }
{
    if !handle.is_open {
        return CLOSED;
    }
    let cycle = match cycle_of(micros) {
        Ok(cycle) => cycle,
        Err(fault) => return fault.code(),
    };
    let mut store = handle.take_box(alloc);
    let answer = store.port.set_cycle(cycle);
    *handle = IolStore::of(store);
    show_counting(Some(answer), counts)
}

/// The page of the device of the present session: 0, or 252 where the handle is closed, which
/// leaves `out` as it is. It has no octet in down and before a start-up has checked it.
#[unsafe(no_mangle)]
pub extern "C" fn iol_store_page(alloc: Global, handle: &mut IolStore, out: &mut IolPage) -> u8
    ensures looks { LooksAtStore result handle.old handle.new out.old out.new }
    ensures page { IsTrue handle.old.is_open → (result ≡ 0)
        × AreShown (unwrap_or (page_shown (store_parts handle.old).port) []) out.new.length
        out.new.octets }
{
    if !handle.is_open {
        return CLOSED;
    }
    let store = handle.take_box(alloc);
    show_page(store.port.port().page(), out);
    *handle = IolStore::of(store);
    0
}
