//! The journal, which has to be drained: a full one takes no request, of Data Storage neither.
ghost use Rattle.std.specs.Prelude.{◌≡◌, ◌+◌, length, IfOk, OnOk, OnErr, IsSome, IsNone, IsTrue};
ghost use Rattle.iolink_port_forms.specs.Shown.{IsNext};
ghost use Rattle.iolink_port_forms.specs.Journal.{entry_due, KeepsNone};
ghost use Rattle.iolink_storage_c.specs.Calls.{store_parts, OutsideStore};
ghost use Rattle.iolink_storage_c.specs.JournalCalls.{StoreDrains, DrainsStored};

use crate::held::{HeldStore, IolStore};
use iol_port::PortFault;
use iolink_handle::CLOSED;
use iolink_port_forms::IolEntry;
use std::alloc::Global;

/// Keeps the journal for `iol_store_entry` at any time, in place of the one that was kept before,
/// and begins a new one with what is restated: the entries of the tickets that are outstanding or
/// in doubt.
///
/// 0, how many entries it has, and how many of these, the first ones, the drain before kept
/// already; or the first of 252 where the handle is closed, which leaves `count` and `restated` as
/// they are, 24 where there is no memory for the list that is kept, and 63 where the port keeps no
/// journal: both are 0 then, and the journal and the one that was kept before stay.
#[unsafe(no_mangle)]
pub extern "C" fn iol_store_drain(
    alloc: Global,
    handle: &mut IolStore,
    count: &mut u32,
    restated: &mut u32,
) -> u8
    ensures closed { OutsideStore result handle.old handle.new count.old count.new }
    ensures unwritten { OutsideStore result handle.old handle.new restated.old restated.new }
    ensures drains { IsTrue handle.old.is_open →
        StoreDrains handle.old.held.value result count.new restated.new handle.new.held.value }
{
    if !handle.is_open {
        return CLOSED;
    }
    let mut store = handle.take_box(alloc);
    let answer = store.drain();
    *handle = IolStore::of(store);
    let (code, entries, head) = match answer {
        Ok((entries, head)) => (0, entries, head),
        Err(fault) => (fault.code(), 0, 0),
    };
    *count = entries;
    *restated = head;
    code
}

impl HeldStore {
    // Drains the port, and answers how many entries are kept, and how many of these are restated.
    fn drain(&mut self) -> Result<(u32, u32), PortFault>
        ensures drains { DrainsStored self.old.port self.new.port result }
        ensures counts { IfOk result (λ counts.
            (counts.0 ≡ length self.old.port.port.book.state.journal)
            × (counts.1 ≡ self.old.port.port.book.state.restated)) }
        ensures retained { OnOk result
            (self.new.journal.entries.items ≡ self.old.port.port.book.state.journal) }
        ensures read { OnOk result (self.new.journal.read ≡ 0) }
        ensures writes { self.new.writes ≡ self.old.writes }
        ensures stays { OnErr result (self.new ≡ record self.old { port = self.new.port }) }
    {
        let restated = self.port.port().restated();
        let entries = self.port.drain()?;
        Ok((self.journal.keep(entries), restated as u32))
    }
}

/// Hands out the next entry of the journal that was drained last, the oldest first: 0, or 252 where
/// the handle is closed, which leaves `out` as it is. At the end the kind is 0, and the memory of
/// that journal is given back.
#[unsafe(no_mangle)]
pub extern "C" fn iol_store_entry(alloc: Global, handle: &mut IolStore, out: &mut IolEntry) -> u8
    ensures closed { OutsideStore result handle.old handle.new out.old out.new }
    ensures done { IsTrue handle.old.is_open → result ≡ 0 }
    ensures rest { handle.new.held.value
        ≡ record handle.old.held.value { journal = handle.new.held.value.journal } }
    ensures shown { IsTrue handle.old.is_open →
        IsNext (entry_due handle.old.held.value.journal) out.new }
    ensures next { IsTrue handle.old.is_open → IsSome (entry_due handle.old.held.value.journal) →
        handle.new.held.value.journal ≡ record handle.old.held.value.journal {
          read = handle.old.held.value.journal.read + 1;
        } }
    ensures end { IsTrue handle.old.is_open → IsNone (entry_due handle.old.held.value.journal) →
        KeepsNone handle.new.held.value.journal }
{
    if !handle.is_open {
        return CLOSED;
    }
    let mut store = handle.take_box(alloc);
    store.journal.show_next(alloc, out);
    *handle = IolStore::of(store);
    0
}
