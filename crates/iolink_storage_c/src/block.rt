//! Blocks: several writes that the device applies together. They gather behind the handle until
//! they are submitted.
ghost use Rattle.std.specs.Prelude.{◌≡◌, IfSome, IfNone, IsTrue, IsFalse};
ghost use Rattle.iolink_storage_c.specs.Calls.{store_parts, GuardsStoreOut, OutsideStore, StoreIsRefused};
ghost use Rattle.iolink_storage_c.specs.BlockCalls.{keep_of, BlockBegins, BlockGathers, BlockSubmits, BlockIsSubmitted, BlockCollects, write_place};

use crate::held::{HeldStore, IolStore};
use crate::shown::{IolBlockEnd, block_end_of};
use iol_isdu::Place;
use iol_storage::{BlockTicket, Keep, Objects};
use iolink_handle::{CLOSED, NOT_ASKED, OUT_OF_MEMORY, OUT_OF_RANGE};
use std::alloc::Global;

/// Data Storage is not to keep what a block writes.
const KEEP_NOT: u8 = 0;
/// It is to.
const KEEP: u8 = 1;

/// Whether Data Storage keeps what a block writes, by its number.
fn keep_of(number: u8) -> Option<Keep>
    ensures { result ≡ keep_of number }
{
    match number {
        KEEP_NOT => Some(Keep::No),
        KEEP => Some(Keep::Yes),
        _ => None,
    }
}

impl HeldStore {
    /// Begins a block, without a write yet: 0, or 24 where there is no memory.
    fn begin_block(&mut self, alloc: Global) -> u8
        ensures { BlockBegins self.old result self.new }
    {
        match Box::new(alloc, Objects::new()) {
            Ok(writes) => {
                self.writes = Some(writes);
                0
            }
            Err(_) => OUT_OF_MEMORY,
        }
    }

    /// One more write, behind all others: 0, or the first of 255 where no block was begun, and 43.
    fn add_write(&mut self, place: Place, octets: &[u8]) -> u8
        ensures { BlockGathers place octets.now self.old result self.new }
    {
        match &mut self.writes {
            Some(writes) => match writes.push(place, octets) {
                Ok(()) => 0,
                Err(fault) => fault.code(),
            },
            None => NOT_ASKED,
        }
    }

    /// Submits the block that was begun, whose writes are taken. Refused by 255 where none was
    /// begun, or as the library refuses it, with all as it was.
    fn submit_block(&mut self, keep: Keep) -> Result<BlockTicket, u8>
        ensures { BlockIsSubmitted keep self.old result self.new }
    {
        let Some(mut writes) = self.writes.take() else {
            return Err(NOT_ASKED);
        };
        match self.port.submit_block(&mut writes, keep) {
            Ok(block) => Ok(block),
            Err(fault) => {
                self.writes = Some(writes);
                Err(fault.code())
            }
        }
    }
}

/// Begins a block, in place of one that wasn't submitted: 0, or the first of 252 where the handle
/// is closed, and 24 where there is no memory for its writes, with all as it was.
#[unsafe(no_mangle)]
pub extern "C" fn iol_store_block_begin(alloc: Global, handle: &mut IolStore) -> u8
    ensures closed { IsFalse handle.old.is_open → StoreIsRefused result handle.old handle.new }
    ensures stays { handle.new.is_open ≡ handle.old.is_open }
    ensures begins { IsTrue handle.old.is_open →
        BlockBegins handle.old.held.value result handle.new.held.value }
{
    if !handle.is_open {
        return CLOSED;
    }
    let mut store = handle.take_box(alloc);
    let code = store.begin_block(alloc);
    *handle = IolStore::of(store);
    code
}

/// One more write of the block, behind the others: 0, or the first of 252 where the handle is
/// closed, 255 where no block was begun, and 43 where it has 76 writes, for more than 232 octets,
/// and where all would have more than 2,048, with four of each beside its octets.
#[unsafe(no_mangle)]
pub extern "C" fn iol_store_block_write(
    alloc: Global,
    handle: &mut IolStore,
    index: u16,
    sub: u8,
    octets: &[u8],
) -> u8
    ensures closed { IsFalse handle.old.is_open → StoreIsRefused result handle.old handle.new }
    ensures stays { handle.new.is_open ≡ handle.old.is_open }
    ensures gathers { IsTrue handle.old.is_open →
        BlockGathers (write_place index sub) octets.now handle.old.held.value result
        handle.new.held.value }
{
    if !handle.is_open {
        return CLOSED;
    }
    let mut store = handle.take_box(alloc);
    let code = store.add_write(Place { index, sub }, octets);
    *handle = IolStore::of(store);
    code
}

/// Submits the block: the device applies all of its writes or none. With `keep` 1 Data Storage
/// keeps what it writes, with 0 it doesn't.
///
/// 0 and the block's ticket, or the first of 252 where the handle is closed, 254 where `keep` is
/// above 1, 255 where no block was begun, 45 where a job is under way, 60 where Data Storage hasn't
/// come to its end in a session, 61 where the block before wasn't collected, and 41 where a write
/// is none of a parameter. By 0 its writes are done with; refused, they stay. A closed handle
/// leaves the ticket as it is; each other refusal makes it 0.
#[unsafe(no_mangle)]
pub extern "C" fn iol_store_block_submit(
    alloc: Global,
    handle: &mut IolStore,
    keep: u8,
    ticket: &mut u64,
) -> u8
    ensures closed { OutsideStore result handle.old handle.new ticket.old ticket.new }
    ensures range { IsTrue handle.old.is_open → IfNone (keep_of keep)
        ((result ≡ 254) × (ticket.new ≡ 0) × (handle.new ≡ handle.old)) }
    ensures submits { IsTrue handle.old.is_open → IfSome (keep_of keep) (λ keep.
        BlockSubmits keep handle.old.held.value result ticket.new handle.new.held.value) }
{
    if !handle.is_open {
        return CLOSED;
    }
    *ticket = 0;
    let Some(keep) = keep_of(keep) else {
        return OUT_OF_RANGE;
    };
    let mut store = handle.take_box(alloc);
    let answer = store.submit_block(keep);
    *handle = IolStore::of(store);
    match answer {
        Ok(BlockTicket(number)) => {
            *ticket = number;
            0
        }
        Err(code) => code,
    }
}

/// What came of a block, which is then done with: 0, or the first of 252 where the handle is
/// closed, 46 where it isn't the last one, or was collected, and 47 where it isn't over. Where it
/// is refused, `out` stays as it is.
#[unsafe(no_mangle)]
pub extern "C" fn iol_store_block_collect(
    alloc: Global,
    handle: &mut IolStore,
    ticket: u64,
    out: &mut IolBlockEnd,
) -> u8
    ensures guards { GuardsStoreOut result handle.old handle.new out.old out.new }
    ensures collects { IsTrue handle.old.is_open →
        BlockCollects ticket (store_parts handle.old) result out.old out.new
        (store_parts handle.new) }
{
    if !handle.is_open {
        return CLOSED;
    }
    let mut store = handle.take_box(alloc);
    let answer = store.port.collect_block(BlockTicket(ticket));
    *handle = IolStore::of(store);
    match answer {
        Ok(end) => {
            *out = block_end_of(end);
            0
        }
        Err(fault) => fault.code(),
    }
}
