//! Lines of a port with Data Storage: its sets and blocks, under the lock, while a worker makes the
//! turns.
ghost use Rattle.iol_master.specs.Ledgers.{IsBlankFor};

use crate::calls::{Expected, check, is_expected};
use crate::scripts::{
    Call, ENOUGH, Script, Stage, Tested, UNDER_WAY, Waits, lets_in_at_wire, passes_all, run,
    start_up,
};
use crate::units::{
    CHANGED, LIMIT, MANY, MEMBERS, OTHER, SET, Unit, WRITTEN, port_with, read_limit,
};
use iol_app::Mode;
use iol_book::{Journal, Outcome, Ticket};
use iol_image::Image;
use iol_isdu::{Cause, Request};
use iol_link::Wire;
use iol_master::{Line, LinePort};
use iol_param_device::UPLOAD_REQUEST;
use iol_params::Table;
use iol_peers::AnyWire;
use iol_port::{Counting, PortFault};
use iol_storage::{
    Agreement, BlockTicket, DownloadResult, Keep, Objects, Set, SetImage, SetNumber,
    StorageStanding, StoredFault, StoredPort,
};
use std::alloc::Global;
use std::marker::Brand;
use std::process::Abort;
use std::sync::Wait;
use std::sync::ledger::{Blank, Ledger};
use std::test::Fail;

type Stored<K> = LinePort<K, StoredPort>;

impl Tested for StoredPort {
    fn answers<K: Ledger>(port: &mut Stored<K>, call: Call) -> bool {
        match call {
            Call::Submit(place, number) => {
                port.submit(Request::read(place)) == Ok(Ticket(number))
            }
            Call::Urgent(place, number) => {
                port.submit_urgent(Request::read(place)) == Ok(Ticket(number))
            }
            Call::Withdraw(number) => port.withdraw(Ticket(number)) == Ok(()),
            Call::Abandon(number) => port.abandon(Ticket(number)) == Ok(()),
            Call::Cancel(number) => port.cancel(Ticket(number)) == Ok(()),
            _ => hands_out(port, call),
        }
    }
}

/// The calls that hand something out.
fn hands_out<K: Ledger>(port: &mut Stored<K>, call: Call) -> bool {
    match call {
        Call::Collect(number, expected) => is_expected(&port.collect(Ticket(number)), expected),
        Call::CollectInto(number, expected) => collects_into(port, number, expected),
        Call::Event(event) => port.take_event() == event,
        Call::ArchiveAny => port.archive().is_ok(),
        Call::DrainAny => port.drain().is_ok(),
        _ => is_set(port, call),
    }
}

fn collects_into<K: Ledger>(port: &mut Stored<K>, number: u64, expected: Expected) -> bool {
    let mut outcome = Outcome::Withdrawn;
    match port.collect_into(Ticket(number), &mut outcome) {
        Ok(()) => is_expected(&Ok(outcome), expected),
        Err(_) => false,
    }
}

/// The calls that set something.
fn is_set<K: Ledger>(port: &mut Stored<K>, call: Call) -> bool {
    match call {
        Call::SetOutput(octet) => sets_output(port, octet),
        Call::ClearOutput => {
            port.clear_output();
            true
        }
        Call::Restart => {
            port.restart();
            true
        }
        Call::Expect => port.expect(OTHER) == Counting::Later,
        Call::ExpectAny => port.expect_any() == Counting::Later,
        Call::SetCycle => port.set_cycle(None) == Counting::Later,
        _ => is_stored(port, call),
    }
}

fn sets_output<K: Ledger>(port: &mut Stored<K>, octet: u8) -> bool {
    match Image::new(&[octet]) {
        Ok(image) => port.set_output(&image) == Ok(()),
        Err(_) => false,
    }
}

/// The calls on the set that is kept, and on blocks.
fn is_stored<K: Ledger>(port: &mut Stored<K>, call: Call) -> bool {
    match call {
        Call::Saved(number, saved) => port.saved(SetNumber(number)) == saved,
        Call::Block(number) => submits_block(port, BlockTicket(number)),
        Call::CollectBlock(number, result) => port.collect_block(BlockTicket(number)) == result,
        Call::Forget => port.forget() == Ok(()),
        Call::Load => loads(port),
        Call::Release => {
            port.release();
            true
        }
        _ => is_observed(port, call),
    }
}

/// A block is submitted that writes the limit.
fn submits_block<K: Ledger>(port: &mut Stored<K>, block: BlockTicket) -> bool {
    let mut writes = Objects::new();
    writes.push(LIMIT, &[WRITTEN]).is_ok() && port.submit_block(&mut writes, Keep::No) == Ok(block)
}

fn loads<K: Ledger>(port: &mut Stored<K>) -> bool {
    match Set::read(&SET) {
        Ok(set) => port.load(set) == Ok(()),
        Err(_) => false,
    }
}

/// Those that only look.
fn is_observed<K: Ledger>(port: &Stored<K>, call: Call) -> bool {
    match call {
        Call::RestartWaits(waits) => port.is_restart_waiting() == waits,
        Call::Mode(mode) => port.port().status().mode == mode,
        Call::HasImage(is_there) => port.image().is_some() == is_there,
        Call::Restated(count) => port.port().restated() == count,
        Call::Standing(standing) => port.standing() == standing,
        _ => shows_set(port, call),
    }
}

fn shows_set<K: Ledger>(port: &Stored<K>, call: Call) -> bool {
    match call {
        Call::Unsaved(number) => match port.unsaved() {
            Some((unsaved, _)) => unsaved == SetNumber(number),
            None => false,
        },
        Call::HasSet(has_backup) => port.backup().is_some() == has_backup,
        Call::Keeps(octets) => match port.backup() {
            Some(set) => is_image(set, octets),
            None => false,
        },
        _ => false,
    }
}

/// Whether a set has these octets.
fn is_image(set: &Set, octets: &[u8]) -> bool {
    let mut image = SetImage::new();
    set.write_into(&mut image);
    image.as_slice() == octets
}

/// The set that is fetched of a unit whose limit a user has changed.
const FETCHED: [u8; 16] = [
    0x34, 0x46, 0xA8, 0x84, 0x12, 0x34, 0x00, 0x01, 0x07, 0, 0, // checksum, device
    0, 65, 0, 1, CHANGED,
];

/// A fetched set waits to be saved: the request of ticket 1 waits, and no image is handed out.
const AWAITS_SAVING: [Call; 4] = [
    Call::Unsaved(1),
    Call::Standing(StorageStanding::Awaited),
    Call::HasImage(false),
    Call::Collect(1, Expected::NotYet),
];

/// The set is saved, once.
const SAVED: [Call; 3] = [
    Call::Unsaved(1),
    Call::Saved(1, Ok(())),
    Call::Saved(1, Err(StoredFault::OtherSet)),
];

/// A set is fetched while a request waits, and is saved under the lock.
const FETCHES: Script = Script {
    stages: &[
        Stage::Calls(&[Call::Submit(LIMIT, 1)]),
        Stage::Turns(MANY),
        Stage::Calls(&AWAITS_SAVING),
        Stage::Calls(&SAVED),
        Stage::Turns(MANY),
        Stage::Calls(&[
            Call::Standing(StorageStanding::Served(Agreement::Fetched)),
            Call::HasImage(true),
            Call::Collect(1, Expected::Reads(&[CHANGED])),
        ]),
    ],
    last: &[Call::Keeps(&FETCHED)],
};

/// Another unit has the values by the time the request is carried out.
const RESTORES: Script = Script {
    stages: &[
        Stage::Calls(&[Call::Submit(LIMIT, 1)]),
        Stage::Turns(MANY),
        Stage::Calls(&[
            Call::Standing(StorageStanding::Served(Agreement::Restored)),
            Call::HasImage(true),
            Call::Collect(1, Expected::Reads(&[CHANGED])),
        ]),
    ],
    last: &[],
};

/// A unit whose limit a user has changed.
fn changed_unit<'t>(alloc: Global, table: &'t Table<'t>) -> Result<Unit<'t>, Fail> {
    let mut unit = Unit::new(alloc, table)?;
    unit.device.set(LIMIT, &[CHANGED])?;
    Ok(unit)
}

#[test]
fn a_set_is_fetched_and_restored_while_requests_wait(rt: HostRuntime) -> Result<(), Fail> {
    let table = Table::new(&MEMBERS, &[])?;
    let wire = AnyWire(changed_unit(rt.alloc(), &table)?);
    let _ = run(&rt, port_with(rt.alloc(), None)?, wire, FETCHES);
    let port = port_with(rt.alloc(), Some(Set::read(&FETCHED)?))?;
    let wire = AnyWire(Unit::new(rt.alloc(), &table)?);
    let _ = run(&rt, port, wire, RESTORES);
    Ok(())
}

/// A block is written, and its outcome isn't there yet. It is applied, and its outcome is handed
/// out once.
const APPLIES: Script = Script {
    stages: &[
        Stage::Turns(MANY),
        Stage::Calls(&SAVED),
        Stage::Turns(MANY),
        Stage::Calls(&[
            Call::Block(1),
            Call::CollectBlock(1, Err(StoredFault::BlockNotOver)),
        ]),
        Stage::Turns(MANY),
        Stage::Calls(&[
            Call::CollectBlock(1, Ok(DownloadResult::Applied)),
            Call::CollectBlock(1, Err(StoredFault::UnknownBlock)),
        ]),
    ],
    last: &[],
};

#[test]
fn a_block_is_applied_between_turns(rt: HostRuntime) -> Result<(), Fail> {
    let table = Table::new(&MEMBERS, &[])?;
    let wire = AnyWire(Unit::new(rt.alloc(), &table)?);
    let wire = run(&rt, port_with(rt.alloc(), None)?, wire, APPLIES);
    check(&rt, wire.0.has_limit(WRITTEN));
    Ok(())
}

/// A port with a request that waits, whose message in OPERATE is out.
fn sent_port<W: Wire>(alloc: Global, wire: &mut W) -> Result<StoredPort, StoredFault> {
    let mut port = port_with(alloc, None)?;
    port.submit(read_limit())?;
    start_up(&mut port, wire);
    let _ = port.send();
    Ok(port)
}

/// A restart waits where a message was out when the line was opened. The worker makes it, and then
/// starts up again.
const RESTARTS: Script = Script {
    stages: &[
        Stage::Calls(&[Call::Restart]),
        Stage::Calls(&[Call::RestartWaits(true), Call::Mode(Mode::Operate)]),
        Stage::Turn,
        Stage::Calls(&[Call::RestartWaits(false), Call::Mode(Mode::Down)]),
        Stage::Turns(MANY),
        Stage::Calls(&AWAITS_SAVING),
    ],
    last: &[],
};

#[test]
fn a_restart_waits_at_a_stored_line(rt: HostRuntime) -> Result<(), Fail> {
    let table = Table::new(&MEMBERS, &[])?;
    let mut wire = AnyWire(changed_unit(rt.alloc(), &table)?);
    let port = sent_port(rt.alloc(), &mut wire)?;
    let _ = run(&rt, port, wire, RESTARTS);
    Ok(())
}

/// Every call of a stored port that no other test makes.
const FIRST_CALLS: [Stage; 6] = [
    Stage::Turns(MANY),
    Stage::Calls(&SAVED),
    Stage::Turns(MANY),
    // It asked for a fetch by an event, and wants an output.
    Stage::Calls(&[
        Call::Event(Ok(UPLOAD_REQUEST)),
        Call::Event(Err(PortFault::NoEvent)),
        Call::SetOutput(0x99),
    ]),
    Stage::Turns(MANY),
    // One request is withdrawn while it waits, and an urgent one is abandoned. The tickets up to 12
    // were the port's own.
    Stage::Calls(&[
        Call::Submit(LIMIT, 13),
        Call::Withdraw(13),
        Call::Collect(13, Expected::Withdrawn),
        Call::Urgent(LIMIT, 14),
        Call::Abandon(14),
        Call::Collect(14, Expected::Unknown),
        Call::Expect,
        Call::ExpectAny,
        Call::SetCycle,
    ]),
];

/// Those behind the journal at the end of a list.
const LAST_CALLS: [Stage; 6] = [
    // What no ticket needs is gone then. The set is forgotten, and kept again.
    Stage::Calls(&[
        Call::DrainAny,
        Call::ArchiveAny,
        Call::Restated(0),
        Call::HasSet(true),
        Call::Forget,
        Call::HasSet(false),
        Call::Load,
        Call::HasSet(true),
        Call::Release,
    ]),
    // A request is under way from then on, as far as the turn behind the next one.
    Stage::Calls(&[Call::ClearOutput, Call::Submit(LIMIT, 15)]),
    Stage::Turns(UNDER_WAY),
    Stage::Calls(&[Call::Cancel(15)]),
    Stage::Turns(ENOUGH),
    Stage::Calls(&[Call::CollectInto(15, Expected::CutOff(Cause::Cancelled))]),
];

/// The journal is handed out at the end of a list.
fn drains_into<K: Ledger>(port: &mut Stored<K>, alloc: Global) -> bool {
    let mut list = Journal::new(alloc);
    port.drain_into(&mut list).is_ok()
}

/// Makes each of these calls, and gives the wire back.
fn makes_each_call<W: Wire + Drop, K: Ledger, R: Wait + Abort>(
    rt: &R,
    alloc: Global,
    wire: W,
    hands: Blank,
) -> Result<W, StoredFault>
    requires { IsBlankFor hands K.name K.parts 1 }
{
    let port = port_with(alloc, None)?;
    let (line, mut worker) = Line::<K, StoredPort>::open(port, wire, hands);
    check(rt, passes_all(rt, &line, &mut worker, &FIRST_CALLS));
    check(rt, drains_into(&mut *line.lock(rt), alloc));
    check(rt, passes_all(rt, &line, &mut worker, &LAST_CALLS));
    Ok(worker.into_wire())
}

#[test]
fn a_stored_line_makes_each_call(rt: HostRuntime) -> Result<(), Fail> {
    let table = Table::new(&MEMBERS, &[])?;
    let wire = AnyWire(changed_unit(rt.alloc(), &table)?);
    let hands = Blank::new(1);
    let wire = makes_each_call::<_, Brand, HostRuntime>(&rt, rt.alloc(), wire, hands)?;
    check(&rt, wire.0.device.device().output().is_none());
    Ok(())
}

#[test]
fn a_client_is_let_in_at_a_stored_line(rt: HostRuntime) -> Result<(), Fail> {
    let port = port_with(rt.alloc(), None)?;
    lets_in_at_wire(&rt, rt.alloc(), port, Waits::Wake)
}
