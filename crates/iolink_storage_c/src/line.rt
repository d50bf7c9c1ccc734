//! The line: what goes out, and what came.
ghost use Rattle.std.specs.Prelude.{◌≡◌, ◌≤◌, ◌<◌, ◌↔◌, length, is_some, IsSome, IfSome, IsTrue};
ghost use Rattle.iol_far.specs.Octets.{octets_in};
ghost use Rattle.iol_port.specs.declared.awaited.AwaitedAnswer.{AwaitedAnswer};
ghost use Rattle.iol_port.specs.CorePort.{awaited_answer};
ghost use Rattle.iol_print.specs.LineCalls.{rate_of};
ghost use Rattle.iolink_port_forms.specs.Arguments.{answer_of};
ghost use Rattle.iolink_storage_c.specs.Calls.{store_parts, GuardsStore, GuardsStoreOut, StoreNotAsked};
ghost use Rattle.iolink_storage_c.specs.LineCalls.{StoreSends, StoreWakes, StoreReceives};

use crate::held::IolStore;
use iol_mseq::Message;
use iol_port::AwaitedAnswer;
use iol_print::rate_numbered;
use iolink_handle::{CLOSED, NOT_ASKED, OUT_OF_RANGE};
use iolink_port_forms::{IolMessage, show_message};
use std::alloc::Global;

/// The largest number of a rate, that of COM3.
const LAST_RATE: u8 = 3;

/// What goes out, which waits for its answer from now on: 0, or 252 where the handle is closed,
/// which leaves `out` as it is. Where nothing is out, a step of Data Storage or of a block comes
/// before it.
///
/// Until it is answered, each further call gives the same again and changes nothing.
#[unsafe(no_mangle)]
pub extern "C" fn iol_store_asks(alloc: Global, handle: &mut IolStore, out: &mut IolMessage) -> u8
    ensures guards { GuardsStoreOut result handle.old handle.new out.old out.new }
    ensures sends { IsTrue handle.old.is_open →
        StoreSends (store_parts handle.old) result out.new (store_parts handle.new) }
{
    if !handle.is_open {
        return CLOSED;
    }
    let mut store = handle.take_box(alloc);
    let asked = store.port.send();
    *handle = IolStore::of(store);
    show_message(asked, out);
    0
}

/// Takes what came of the wake that was asked for: `rate` is 1 to 3 for the device that answered
/// at COM1 to COM3, 0 where none did.
///
/// 0, or the first of 252 where the handle is closed, 254 for a rate above 3, and 255 where no
/// wake waits for its answer; nothing changed then.
#[unsafe(no_mangle)]
pub extern "C" fn iol_store_turn_woken(alloc: Global, handle: &mut IolStore, rate: u8) -> u8
    ensures guards { GuardsStore result handle.old handle.new }
    ensures range { IsTrue handle.old.is_open → 3 < rate →
        (result ≡ 254) × (handle.new ≡ handle.old) }
    ensures refused { IsTrue handle.old.is_open → rate ≤ 3 →
        ¬ (awaited_answer (store_parts handle.old).port ≡ AwaitedAnswer.Wake) →
        StoreNotAsked result (store_parts handle.old) (store_parts handle.new) }
    ensures wakes { IsTrue handle.old.is_open → rate ≤ 3 →
        awaited_answer (store_parts handle.old).port ≡ AwaitedAnswer.Wake →
        StoreWakes (is_some (rate_of rate)) (store_parts handle.old) result
        (store_parts handle.new) }
{
    if !handle.is_open {
        return CLOSED;
    }
    if rate > LAST_RATE {
        return OUT_OF_RANGE;
    }
    let mut store = handle.take_box(alloc);
    let code = match store.port.awaits() {
        AwaitedAnswer::Wake => {
            store.port.receive_wake(rate_numbered(rate));
            0
        }
        AwaitedAnswer::Nothing | AwaitedAnswer::Reply => NOT_ASKED,
    };
    *handle = IolStore::of(store);
    code
}

/// Takes what came back, in the time of a reply, to the octets that were asked for; nothing did
/// where `octets` is empty. Of more than 66 octets give the first 66.
///
/// 0, or the first of 252 where the handle is closed, 254 for more than 66 octets, and 255 where
/// no message waits for its answer; nothing changed then.
#[unsafe(no_mangle)]
pub extern "C" fn iol_store_turn_answered(alloc: Global, handle: &mut IolStore, octets: &[u8]) -> u8
    ensures guards { GuardsStore result handle.old handle.new }
    ensures long { IsTrue handle.old.is_open → 66 < length octets.now →
        (result ≡ 254) × (handle.new ≡ handle.old) }
    ensures refused { IsTrue handle.old.is_open → length octets.now ≤ 66 →
        ¬ (awaited_answer (store_parts handle.old).port ≡ AwaitedAnswer.Reply) →
        StoreNotAsked result (store_parts handle.old) (store_parts handle.new) }
    ensures receives { IsTrue handle.old.is_open → length octets.now ≤ 66 →
        awaited_answer (store_parts handle.old).port ≡ AwaitedAnswer.Reply →
        StoreReceives (answer_of octets.now) (store_parts handle.old) result
        (store_parts handle.new) }
{
    if !handle.is_open {
        return CLOSED;
    }
    let Some(received) = received_of(octets) else {
        return OUT_OF_RANGE;
    };
    let mut store = handle.take_box(alloc);
    let code = match store.port.awaits() {
        AwaitedAnswer::Reply => {
            store.port.receive(&received);
            0
        }
        AwaitedAnswer::Nothing | AwaitedAnswer::Wake => NOT_ASKED,
    };
    *handle = IolStore::of(store);
    code
}

/// What came: nothing where there are no octets. None of more than 66.
fn received_of(octets: &[u8]) -> Option<Option<Message>>
    ensures short { IsSome result ↔ (length octets.now ≤ 66) }
    ensures received { IfSome result (λ received. octets_in received ≡ answer_of octets.now) }
{
    match Message::try_from(octets) {
        Ok(received) if received.is_empty() => Some(None),
        Ok(received) => Some(Some(received)),
        Err(_) => None,
    }
}
