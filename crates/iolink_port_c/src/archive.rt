//! The journal, entry by entry.
ghost use Rattle.std.specs.Prelude.{◌≡◌, ◌+◌, length, IfOk, OnOk, OnErr, IsSome, IsNone, IsTrue, IsFalse};
ghost use Rattle.iol_book.specs.BookModel.{may_archive, book_after_archive, memory_archived};
ghost use Rattle.iol_port.specs.EveryWire.{IsBookCall};
ghost use Rattle.iolink_port_c.specs.Calls.{held_parts, call_taken, LeavesClosed};
ghost use Rattle.iolink_port_c.specs.JournalCalls.{HandleArchives, RefusesArchive, HandleDrains, PortDrains};
ghost use Rattle.iolink_port_forms.specs.Shown.{IsNext};
ghost use Rattle.iolink_port_forms.specs.Journal.{entry_due, KeepsNone};

use crate::held::{IolPort, PortWithJournal};
use iol_port::PortFault;
use iolink_handle::CLOSED;
use iolink_port_forms::IolEntry;
use std::alloc::Global;

/// Begins a new journal and keeps the old one for `iol_port_entry`, in place of the
/// one that was kept before.
///
/// 0 and how many entries it has, or the first of 252 where the handle is closed, which leaves
/// `count` as it is, 28 where a ticket is outstanding or a request that was cut off may
/// still be carried out, and 63 where the port keeps no journal: `count` is 0 then, and the
/// journal that was kept before stays.
#[unsafe(no_mangle)]
pub extern "C" fn iol_port_archive(alloc: Global, handle: &mut IolPort, count: &mut u32) -> u8
    ensures closed { LeavesClosed result handle.old handle.new count.old count.new }
    ensures stays { handle.new.is_open ≡ handle.old.is_open }
    ensures refused { IsTrue handle.old.is_open →
        IsFalse (may_archive (held_parts handle.old).book.state) →
        RefusesArchive handle.old result count.new handle.new }
    ensures done { IsTrue handle.old.is_open →
        IsTrue (may_archive (held_parts handle.old).book.state) →
        HandleArchives handle.old result count.new handle.new }
    ensures book { IsTrue handle.old.is_open →
        (held_parts handle.new).book.state ≡ book_after_archive (held_parts handle.old).book.state }
    ensures memory { IsTrue handle.old.is_open →
        (held_parts handle.new).book.memory ≡ memory_archived (held_parts handle.old).book }
    ensures rest { IsTrue handle.old.is_open
        → IsBookCall (held_parts handle.old) (held_parts handle.new) }
{
    let answer = handle.with(alloc, |master| match master.port.archive() {
        Ok(entries) => (0, master.journal.keep(entries)),
        Err(fault) => (fault.code(), 0),
    });
    match answer {
        Some((code, entries)) => {
            *count = entries;
            code
        }
        None => CLOSED,
    }
}

/// Keeps the journal for `iol_port_entry` at any time, in place of the one that was kept before,
/// and begins a new one with what is restated: the entries of the tickets that are outstanding or
/// in doubt.
///
/// 0, how many entries it has, and how many of these, the first ones, the drain before kept
/// already; or the first of 252 where the handle is closed, which leaves `count` and `restated` as
/// they are, 24 where there is no memory for the list that is kept, and 63 where the port keeps no
/// journal: both are 0 then, and the journal and the one that was kept before stay.
#[unsafe(no_mangle)]
pub extern "C" fn iol_port_drain(
    alloc: Global,
    handle: &mut IolPort,
    count: &mut u32,
    restated: &mut u32,
) -> u8
    ensures closed { LeavesClosed result handle.old handle.new count.old count.new }
    ensures unwritten { LeavesClosed result handle.old handle.new restated.old restated.new }
    ensures stays { handle.new.is_open ≡ handle.old.is_open }
    ensures drains { IsTrue handle.old.is_open →
        HandleDrains handle.old result count.new restated.new handle.new }
{
    let (code, entries, head) = match handle.with(alloc, |master| keep_drained(master)) {
        Some(Ok((entries, head))) => (0, entries, head),
        Some(Err(fault)) => (fault.code(), 0, 0),
        None => return CLOSED,
    };
    *count = entries;
    *restated = head;
    code
}

// Drains the port, and answers how many entries are kept, and how many of these are restated.
fn keep_drained(master: &mut PortWithJournal) -> Result<(u32, u32), PortFault>
    ensures drains { PortDrains master.old.port master.new.port result }
    ensures counts { IfOk result (λ counts.
        (counts.0 ≡ length master.old.port.book.state.journal)
        × (counts.1 ≡ master.old.port.book.state.restated)) }
    ensures retained { OnOk result
        (master.new.journal.entries.items ≡ master.old.port.book.state.journal) }
    ensures read { OnOk result (master.new.journal.read ≡ 0) }
    ensures passed { master.new.passed ≡ master.old.passed }
    ensures stays { OnErr result (master.new ≡ record master.old { port = master.new.port }) }
{
    let restated = master.port.restated();
    let entries = master.port.drain()?;
    Ok((master.journal.keep(entries), restated as u32))
}

/// Hands out the next entry of the journal that was archived or drained last, the oldest
/// first: 0, or 252 where the handle is closed, which leaves `out` as it is. At the
/// end the kind is 0, and the memory of that journal is given back.
#[unsafe(no_mangle)]
pub extern "C" fn iol_port_entry(alloc: Global, handle: &mut IolPort, out: &mut IolEntry) -> u8
    ensures closed { LeavesClosed result handle.old handle.new out.old out.new }
    ensures stays { handle.new.is_open ≡ handle.old.is_open }
    ensures done { IsTrue handle.old.is_open → result ≡ 0 }
    ensures port { handle.new.held.value.port ≡ handle.old.held.value.port }
    ensures passed { call_taken handle.new ≡ call_taken handle.old }
    ensures shown { IsTrue handle.old.is_open →
        IsNext (entry_due handle.old.held.value.journal) out.new }
    ensures next { IsTrue handle.old.is_open → IsSome (entry_due handle.old.held.value.journal) →
        handle.new.held.value.journal ≡ record handle.old.held.value.journal {
          read = handle.old.held.value.journal.read + 1;
        } }
    ensures end { IsTrue handle.old.is_open → IsNone (entry_due handle.old.held.value.journal) →
        KeepsNone handle.new.held.value.journal }
{
    if !handle.is_open {
        return CLOSED;
    }
    // An entry is large: it doesn't go through the handle.
    let mut master = handle.take_box(alloc);
    master.journal.show_next(alloc, out);
    *handle = IolPort::of(master);
    0
}
