//! The link, process data and events.
ghost use Rattle.std.specs.Prelude.{◌≡◌, unwrap_or, [], IsTrue};
ghost use Rattle.iol_image.specs.Image.{IsImage};
ghost use Rattle.iol_port.specs.declared.awaited.AwaitedAnswer.{AwaitedAnswer};
ghost use Rattle.iol_port.specs.CorePort.{awaited_answer};
ghost use Rattle.iol_port.specs.View.{status_of};
ghost use Rattle.iol_storage.specs.StoredPort.{image_shown};
ghost use Rattle.iolink_handle.specs.Shown.{AreShown};
ghost use Rattle.iolink_port_forms.specs.Shown.{StatusIsShown, counters_shown, loss_shown};
ghost use Rattle.iolink_storage_c.specs.Calls.{store_parts, GuardsStore, GuardsStoreOut, LooksAtStore, StoreNotAsked};
ghost use Rattle.iolink_storage_c.specs.StateCalls.{StoreRestarts, StoreSetsOutput, StoreClearsOutput, StoreTakesEvent};

use crate::held::IolStore;
use iol_image::Image;
use iol_port::AwaitedAnswer;
use iolink_handle::{CLOSED, IolImage, NOT_ASKED, show_image};
use iolink_port_forms::{
    IolCounters, IolEvent, IolLoss, IolStatus, code_of, counters_of, loss_of, show_event,
    show_status,
};
use std::alloc::Global;

/// Cuts off the request under way, if any, and leaves the link in down.
///
/// 0, or the first of 252 where the handle is closed, and 255 where what was asked for waits for
/// its answer; nothing changed then.
#[unsafe(no_mangle)]
pub extern "C" fn iol_store_restart(alloc: Global, handle: &mut IolStore) -> u8
    ensures guards { GuardsStore result handle.old handle.new }
    ensures refused { IsTrue handle.old.is_open →
        ¬ (awaited_answer (store_parts handle.old).port ≡ AwaitedAnswer.Nothing) →
        StoreNotAsked result (store_parts handle.old) (store_parts handle.new) }
    ensures restarts { IsTrue handle.old.is_open →
        awaited_answer (store_parts handle.old).port ≡ AwaitedAnswer.Nothing →
        StoreRestarts (store_parts handle.old) result (store_parts handle.new) }
{
    if !handle.is_open {
        return CLOSED;
    }
    let mut store = handle.take_box(alloc);
    let code = match store.port.awaits() {
        AwaitedAnswer::Nothing => {
            store.port.restart();
            0
        }
        AwaitedAnswer::Wake | AwaitedAnswer::Reply => NOT_ASKED,
    };
    *handle = IolStore::of(store);
    code
}

/// Wants this output of the device, once it is served.
///
/// 0, or the first of 252 where the handle is closed, 29 where it isn't 1 to 32 octets, 34 where
/// no start-up has told the lengths yet, and 29 for another number of octets than the device has.
#[unsafe(no_mangle)]
pub extern "C" fn iol_store_set_output(alloc: Global, handle: &mut IolStore, octets: &[u8]) -> u8
    ensures guards { GuardsStore result handle.old handle.new }
    ensures sized { IsTrue handle.old.is_open → ¬ IsImage octets.now →
        (result ≡ 29) × (handle.new ≡ handle.old) }
    ensures sets { IsTrue handle.old.is_open → IsImage octets.now →
        StoreSetsOutput octets.now (store_parts handle.old) result (store_parts handle.new) }
{
    if !handle.is_open {
        return CLOSED;
    }
    let image = match Image::new(octets) {
        Ok(image) => image,
        Err(fault) => return fault.code(),
    };
    let mut store = handle.take_box(alloc);
    let answer = store.port.set_output(&image);
    *handle = IolStore::of(store);
    code_of(Some(answer))
}

/// Wants no output of the device: 0, or 252 where the handle is closed.
#[unsafe(no_mangle)]
pub extern "C" fn iol_store_clear_output(alloc: Global, handle: &mut IolStore) -> u8
    ensures guards { GuardsStore result handle.old handle.new }
    ensures clears { IsTrue handle.old.is_open →
        StoreClearsOutput (store_parts handle.old) result (store_parts handle.new) }
{
    if !handle.is_open {
        return CLOSED;
    }
    let mut store = handle.take_box(alloc);
    store.port.clear_output();
    *handle = IolStore::of(store);
    0
}

/// The device's input, none where the device isn't served: 0, or 252 where the handle is closed,
/// which leaves `out` as it is.
#[unsafe(no_mangle)]
pub extern "C" fn iol_store_image(alloc: Global, handle: &mut IolStore, out: &mut IolImage) -> u8
    ensures looks { LooksAtStore result handle.old handle.new out.old out.new }
    ensures image { IsTrue handle.old.is_open → (result ≡ 0)
        × AreShown (unwrap_or (image_shown (store_parts handle.old)) []) out.new.length
        out.new.octets }
{
    if !handle.is_open {
        return CLOSED;
    }
    let store = handle.take_box(alloc);
    let image = match store.port.image() {
        Some(image) => Some(image.clone().unwrap()),
        None => None,
    };
    *handle = IolStore::of(store);
    show_image(image, out);
    0
}

/// Hands out the event that was kept longest: 0, or the first of 252 where the handle is closed,
/// and 30 where none is kept. Where it is refused, `out` stays as it is. By FF91 the device asks
/// for a fetch: the port sees it here alone.
#[unsafe(no_mangle)]
pub extern "C" fn iol_store_take_event(
    alloc: Global,
    handle: &mut IolStore,
    out: &mut IolEvent,
) -> u8
    ensures guards { GuardsStoreOut result handle.old handle.new out.old out.new }
    ensures takes { IsTrue handle.old.is_open →
        StoreTakesEvent (store_parts handle.old) result out.old out.new
        (store_parts handle.new) }
{
    if !handle.is_open {
        return CLOSED;
    }
    let mut store = handle.take_box(alloc);
    let answer = store.port.take_event();
    *handle = IolStore::of(store);
    match answer {
        Ok(event) => {
            show_event(event, out);
            0
        }
        Err(fault) => fault.code(),
    }
}

/// The mode of the link, and why it is down: 0, or 252 where the handle is closed, which leaves
/// `out` as it is.
#[unsafe(no_mangle)]
pub extern "C" fn iol_store_status(alloc: Global, handle: &mut IolStore, out: &mut IolStatus) -> u8
    ensures looks { LooksAtStore result handle.old handle.new out.old out.new }
    ensures status { IsTrue handle.old.is_open → (result ≡ 0)
        × StatusIsShown (status_of (store_parts handle.old).port.core) out.new }
{
    if !handle.is_open {
        return CLOSED;
    }
    let store = handle.take_box(alloc);
    show_status(&store.port.port().status(), out);
    *handle = IolStore::of(store);
    0
}

/// Why the last session ended: 0, or 252 where the handle is closed, which leaves `out` as it is.
#[unsafe(no_mangle)]
pub extern "C" fn iol_store_last_loss(alloc: Global, handle: &mut IolStore, out: &mut IolLoss) -> u8
    ensures looks { LooksAtStore result handle.old handle.new out.old out.new }
    ensures loss { IsTrue handle.old.is_open → (result ≡ 0)
        × (out.new ≡ loss_shown (store_parts handle.old).port.last_loss) }
{
    if !handle.is_open {
        return CLOSED;
    }
    let store = handle.take_box(alloc);
    *out = loss_of(store.port.port().last_loss());
    *handle = IolStore::of(store);
    0
}

/// What was counted since the opening: 0, or 252 where the handle is closed, which leaves `out` as
/// it is.
#[unsafe(no_mangle)]
pub extern "C" fn iol_store_counters(
    alloc: Global,
    handle: &mut IolStore,
    out: &mut IolCounters,
) -> u8
    ensures looks { LooksAtStore result handle.old handle.new out.old out.new }
    ensures counters { IsTrue handle.old.is_open → (result ≡ 0)
        × (out.new ≡ counters_shown (store_parts handle.old).port.counters) }
{
    if !handle.is_open {
        return CLOSED;
    }
    let store = handle.take_box(alloc);
    *out = counters_of(store.port.port().counters());
    *handle = IolStore::of(store);
    0
}
