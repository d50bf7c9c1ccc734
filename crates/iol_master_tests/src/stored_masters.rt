//! Masters whose ports have Data Storage: desks, workers, and the calls under a port's lock.
ghost use Rattle.std.specs.Prelude.{◌≡◌};
ghost use Rattle.iol_master.specs.Ledgers.{IsBlankFor};
ghost use Rattle.iol_port.specs.CorePort.{awaited_answer};
ghost use Rattle.iol_port.specs.declared.awaited.AwaitedAnswer.TheVariants as AwaitedAnswer;

use crate::calls::{Expected, check, is_expected};
use crate::desks::Open;
use crate::opening::{alone, wired};
use crate::scripts::{Call, VALUE_PLACE};
use crate::units::{CHANGED, LIMIT, MANY, MEMBERS, OTHER, SET, Unit, WRITTEN, port_with};
use crate::visits::{Desks, Step, Visited, Who, answers_locked, goes_on, passes_all};
use iol_app::Mode;
use iol_book::{Journal, Ticket};
use iol_image::Image;
use iol_isdu::Cause;
use iol_link::Wire;
use iol_master::{Held, Master, MasterFault, Settled, Tally, Wired};
use iol_params::Table;
use iol_peers::{AnyWire, PROCESS_DATA};
use iol_port::{Counting, PortFault};
use iol_storage::{
    Agreement, BlockTicket, DownloadResult, Keep, Objects, Set, SetNumber, StorageStanding,
    StoredFault, StoredPort,
};
use std::alloc::{AllocError, Global};
use std::marker::Brand;
use std::process::Abort;
use std::sync::Wait;
use std::sync::ledger::{Blank, Ledger};
use std::test::Fail;
use std::thread::Threads;

type Stored<W, L, K> = Master<W, L, K, Global, Wired<W, StoredPort>>;

type Under<W, K> = Held<W, K, Global, Wired<W, StoredPort>>;

impl<W: Wire> Visited<W> for Wired<W, StoredPort> {
    fn answers<K: Ledger, R: Wait>(_rt: &R, held: &mut Under<W, K>, call: Call) -> bool {
        match call {
            Call::Withdraw(number) => held.withdraw(Ticket(number)) == Ok(()),
            Call::Abandon(number) => held.abandon(Ticket(number)) == Ok(()),
            Call::Cancel(number) => held.cancel(Ticket(number)) == Ok(()),
            Call::Turns(count) => turns(held, count),
            _ => hands_out(held, call),
        }
    }
}

/// So many turns.
fn turns<W: Wire, K: Ledger>(held: &mut Under<W, K>, count: u64) -> bool {
    for _ in 0..count {
        held.turn();
    }
    true
}

/// The calls that hand something out.
fn hands_out<W: Wire, K: Ledger>(held: &mut Under<W, K>, call: Call) -> bool {
    match call {
        Call::Collect(number, expected) => is_expected(&held.collect(Ticket(number)), expected),
        Call::Event(event) => held.take_event() == event,
        Call::ArchiveAny => held.archive().is_ok(),
        Call::DrainAny => held.drain().is_ok(),
        _ => is_set(held, call),
    }
}

/// The calls that set something.
fn is_set<W: Wire, K: Ledger>(held: &mut Under<W, K>, call: Call) -> bool {
    match call {
        Call::SetOutput(octet) => sets_output(held, octet),
        Call::ClearOutput => {
            held.clear_output();
            true
        }
        Call::Restart => {
            held.restart();
            true
        }
        Call::Expect => held.expect(OTHER) == Counting::Later,
        Call::ExpectAny => held.expect_any() == Counting::Later,
        Call::SetCycle => held.set_cycle(None) == Counting::Later,
        _ => is_stored(held, call),
    }
}

fn sets_output<W: Wire, K: Ledger>(held: &mut Under<W, K>, octet: u8) -> bool {
    match Image::new(&[octet]) {
        Ok(image) => held.set_output(&image) == Ok(()),
        Err(_) => false,
    }
}

/// The calls on the set that is kept, and on blocks.
fn is_stored<W: Wire, K: Ledger>(held: &mut Under<W, K>, call: Call) -> bool {
    match call {
        Call::Saved(number, saved) => held.saved(SetNumber(number)) == saved,
        Call::Block(number) => submits_block(held, BlockTicket(number)),
        Call::CollectBlock(number, result) => held.collect_block(BlockTicket(number)) == result,
        Call::Forget => held.forget() == Ok(()),
        Call::Load => loads(held),
        Call::Release => {
            held.release();
            true
        }
        _ => is_observed(held, call),
    }
}

/// A block is submitted that writes the limit.
fn submits_block<W: Wire, K: Ledger>(held: &mut Under<W, K>, block: BlockTicket) -> bool {
    let mut writes = Objects::new();
    writes.push(LIMIT, &[WRITTEN]).is_ok() && held.submit_block(&mut writes, Keep::No) == Ok(block)
}

fn loads<W: Wire, K: Ledger>(held: &mut Under<W, K>) -> bool {
    match Set::read(&SET) {
        Ok(set) => held.load(set) == Ok(()),
        Err(_) => false,
    }
}

/// Those that only look.
fn is_observed<W: Wire, K: Ledger>(held: &Under<W, K>, call: Call) -> bool {
    match call {
        Call::Mode(mode) => held.port().status().mode == mode,
        Call::HasImage(is_there) => held.image().is_some() == is_there,
        Call::Restated(count) => held.port().restated() == count,
        Call::Standing(standing) => held.standing() == standing,
        Call::HasSet(has_backup) => held.backup().is_some() == has_backup,
        Call::Unsaved(number) => match held.unsaved() {
            Some((unsaved, _)) => unsaved == SetNumber(number),
            None => false,
        },
        _ => false,
    }
}

/// A master of one port with Data Storage, at this wire.
fn open_one<W: Wire + Drop, L: Ledger, K: Ledger, R: Abort>(
    rt: &R,
    alloc: Global,
    port: StoredPort,
    wire: W,
    clients: Blank,
    tickets: Blank,
) -> Result<Stored<W, L, K>, AllocError>
    requires clients { IsBlankFor clients L.name L.parts 1025 }
    requires tickets { IsBlankFor tickets K.name K.parts 1 }
    requires rest { awaited_answer port.port ≡ AwaitedAnswer.Nothing }
{
    let ports = alone(alloc, Wired::new(port, wire))?;
    let opened = Master::open_stored(alloc, ports, clients, tickets).ok();
    Ok(opened.expect(rt, "memory"))
}

/// What is asked of a master whose port has one wire.
#[derive(Clone, Copy)]
enum Case {
    Fetches,
    EachCall,
}

/// A set is fetched while a desk's request waits, and waits to be saved. What the port asked by
/// itself, with the tickets up to 8, no desk counts and no client sees.
const FETCHES: [Step; 10] = [
    Step::Open(Who::One, 1),
    Step::Submit(Who::One, LIMIT, 1),
    Step::Call(1, Call::Turns(MANY)),
    Step::Calls(
        1,
        &[
            Call::Standing(StorageStanding::Awaited),
            Call::HasImage(false),
            Call::Collect(1, Expected::NotYet),
            Call::Unsaved(1),
            Call::Saved(1, Ok(())),
            Call::Saved(1, Err(StoredFault::OtherSet)),
        ],
    ),
    Step::Urgent(Who::One, LIMIT, 9),
    Step::Call(1, Call::Turns(MANY)),
    Step::Calls(
        1,
        &[
            Call::Standing(StorageStanding::Served(Agreement::Fetched)),
            Call::HasImage(true),
            Call::Collect(1, Expected::Reads(&[CHANGED])),
        ],
    ),
    Step::Call(1, Call::Collect(2, Expected::Unknown)),
    Step::Call(1, Call::Collect(9, Expected::Reads(&[CHANGED]))),
    Step::Settle(Who::One, Settled::Last(2, 2)),
];

/// Another unit has the values by the time a desk's request is carried out. A desk may not write
/// at the Index of Data Storage, and what it leaves is abandoned. Then requests of a desk are
/// withdrawn, abandoned and cancelled. The tickets from 2 to 8 are the port's own.
const DESKS: [Step; 14] = [
    Step::Open(Who::One, 1),
    Step::Submit(Who::One, LIMIT, 1),
    Step::Call(1, Call::Turns(MANY)),
    Step::Calls(
        1,
        &[
            Call::Standing(StorageStanding::Served(Agreement::Restored)),
            Call::HasImage(true),
            Call::Collect(1, Expected::Reads(&[CHANGED])),
        ],
    ),
    Step::NoWrite(Who::One, MasterFault::Stored(StoredFault::OwnedIndex)),
    Step::Submit(Who::One, LIMIT, 9),
    Step::Settle(Who::One, Settled::Last(2, 2)),
    Step::Call(1, Call::Collect(9, Expected::Unknown)),
    Step::Open(Who::One, 1),
    Step::Submit(Who::One, LIMIT, 10),
    Step::Submit(Who::One, LIMIT, 11),
    Step::Submit(Who::One, LIMIT, 12),
    Step::Calls(
        1,
        &[
            Call::Withdraw(12),
            Call::Collect(12, Expected::Withdrawn),
            Call::Abandon(11),
            Call::Collect(11, Expected::Unknown),
            Call::Turns(2),
            Call::Cancel(10),
            Call::Turns(MANY),
            Call::Collect(10, Expected::CutOff(Cause::Cancelled)),
        ],
    ),
    Step::Settle(Who::One, Settled::Last(3, 5)),
];

/// An output is wanted and cleared, and no event is there. A block is written, whose outcome isn't
/// there yet; it is applied, and its outcome is handed out once.
const FIRST_CALLS: [Call; 8] = [
    Call::SetOutput(0x99),
    Call::ClearOutput,
    Call::Event(Err(PortFault::NoEvent)),
    Call::Block(1),
    Call::CollectBlock(1, Err(StoredFault::BlockNotOver)),
    Call::Turns(MANY),
    Call::CollectBlock(1, Ok(DownloadResult::Applied)),
    Call::CollectBlock(1, Err(StoredFault::UnknownBlock)),
];

/// The journal is handed out, and what no ticket needs is gone then. The set is forgotten, and kept
/// again. What start-ups are to ask counts from the next one on, and a restart is made at once.
const LAST_CALLS: [Call; 14] = [
    Call::DrainAny,
    Call::ArchiveAny,
    Call::Restated(0),
    Call::HasSet(true),
    Call::Forget,
    Call::HasSet(false),
    Call::Load,
    Call::HasSet(true),
    Call::Release,
    Call::Expect,
    Call::ExpectAny,
    Call::SetCycle,
    Call::Restart,
    Call::Mode(Mode::Down),
];

/// The journal is handed out at the end of a list.
fn drains_into<W: Wire, L: Ledger, K: Ledger, R: Wait>(
    rt: &R,
    alloc: Global,
    master: &Stored<W, L, K>,
) -> bool {
    let mut list = Journal::new(alloc);
    match master.lock(rt, 1) {
        Ok(mut held) => held.drain_into(&mut list).is_ok(),
        Err(_) => false,
    }
}

fn makes_each<W: Wire, L: Ledger, K: Ledger, R: Wait>(
    rt: &R,
    alloc: Global,
    master: &Stored<W, L, K>,
) -> bool {
    passes_all(rt, master, &DESKS)
        && answers_locked(rt, master, 1, &FIRST_CALLS)
        && drains_into(rt, alloc, master)
        && answers_locked(rt, master, 1, &LAST_CALLS)
}

fn holds<W: Wire, L: Ledger, K: Ledger, R: Wait>(
    rt: &R,
    alloc: Global,
    master: &Stored<W, L, K>,
    case: Case,
) -> bool {
    match case {
        Case::Fetches => passes_all(rt, master, &FETCHES),
        Case::EachCall => makes_each(rt, alloc, master),
    }
}

/// A master at this wire is asked this, and tells what it counted.
fn asked<W: Wire + Drop, L: Ledger, K: Ledger, R: Wait + Abort>(
    rt: &R,
    alloc: Global,
    case: Case,
    backup: Option<Set>,
    wire: W,
    clients: Blank,
    tickets: Blank,
) -> Result<Tally, Fail>
    requires clients { IsBlankFor clients L.name L.parts 1025 }
    requires tickets { IsBlankFor tickets K.name K.parts 1 }
{
    let port = port_with(alloc, backup)?;
    let master = open_one::<W, L, K, R>(rt, alloc, port, wire, clients, tickets)?;
    check(rt, holds(rt, alloc, &master, case));
    Ok(master.close())
}

/// The same of ledgers of its own.
fn tally_of<W: Wire + Drop, R: Wait + Abort>(
    rt: &R,
    alloc: Global,
    case: Case,
    backup: Option<Set>,
    wire: W,
) -> Result<Tally, Fail> {
    let (clients, tickets) = (Blank::new(1025), Blank::new(1));
    asked::<W, Brand, Brand, R>(rt, alloc, case, backup, wire, clients, tickets)
}

#[test]
fn a_set_is_fetched_in_a_master(rt: HostRuntime) -> Result<(), Fail> {
    let table = Table::new(&MEMBERS, &[])?;
    let mut unit = Unit::new(rt.alloc(), &table)?;
    unit.device.set(LIMIT, &[CHANGED])?;
    let tally = tally_of(&rt, rt.alloc(), Case::Fetches, None, AnyWire(unit))?;
    check(
        &rt,
        tally.tickets == 2 && tally.settled == 2 && tally.desks == 0,
    );
    Ok(())
}

#[test]
fn a_stored_port_makes_each_call_in_a_master(rt: HostRuntime) -> Result<(), Fail> {
    let table = Table::new(&MEMBERS, &[])?;
    let wire = AnyWire(Unit::new(rt.alloc(), &table)?);
    let backup = Some(Set::read(&SET)?);
    let tally = tally_of(&rt, rt.alloc(), Case::EachCall, backup, wire)?;
    check(&rt, tally.tickets == 5);
    Ok(())
}

/// A worker makes many turns of the port.
fn makes_turns<W: Wire + Send, L: Ledger, K: Ledger + Sync, R: Threads + Wait + Sync>(
    rt: &R,
    master: &Stored<W, L, K>,
) -> bool {
    master.serve(rt, &Open, MANY) == Ok(())
}

/// A read is submitted, which a worker serves.
const SUBMITTED: [Step; 2] = [
    Step::Open(Who::One, 1),
    Step::Submit(Who::One, VALUE_PLACE, 1),
];

/// What it comes to, at a device that has no Data Storage.
const SERVED: [Step; 3] = [
    Step::Call(1, Call::Collect(1, Expected::Reads(&[0x42, 7]))),
    Step::Call(
        1,
        Call::Standing(StorageStanding::Served(Agreement::Unsupported)),
    ),
    Step::Settle(Who::One, Settled::Last(1, 1)),
];

/// A worker makes the turns of a port, in a thread of its own.
fn is_worked<W: Wire + Send, L: Ledger, K: Ledger + Sync, R: Threads + Wait + Sync>(
    rt: &R,
    master: &Stored<W, L, K>,
) -> bool {
    let mut desks = Desks::new();
    goes_on(rt, master, &mut desks, &SUBMITTED)
        && makes_turns(rt, master)
        && goes_on(rt, master, &mut desks, &SERVED)
}

fn worked<W: Wire + Send + Drop, L: Ledger, K: Ledger + Sync, R>(
    rt: &R,
    alloc: Global,
    wire: W,
    clients: Blank,
    tickets: Blank,
) -> Result<(), Fail>
where
    R: Threads + Wait + Abort + Sync,
    requires clients { IsBlankFor clients L.name L.parts 1025 }
    requires tickets { IsBlankFor tickets K.name K.parts 1 }
{
    let port = port_with(alloc, None)?;
    let master = open_one::<W, L, K, R>(rt, alloc, port, wire, clients, tickets)?;
    check(rt, is_worked(rt, &master));
    Ok(())
}

#[test]
fn a_worker_serves_a_stored_port(rt: HostRuntime) -> Result<(), Fail> {
    let wire = wired(rt.alloc(), &PROCESS_DATA, &[0x42, 7], Vec::new(rt.alloc()))?;
    let (clients, tickets) = (Blank::new(1025), Blank::new(1));
    worked::<_, Brand, Brand, HostRuntime>(&rt, rt.alloc(), wire, clients, tickets)?;
    Ok(())
}
