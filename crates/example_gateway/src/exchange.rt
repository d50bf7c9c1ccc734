//! A third port, with Data Storage, at a line whose worker calls it without the port's lock. A
//! sensor is exchanged there, and the next one has its parameters.
ghost use Rattle.iol_master.specs.Ledgers.{IsBlankFor};

use crate::cable::{Cable, MEMBERS, UPPER_LIMIT, open_sensor, open_used_sensor};
use anyhow::{Result, bail};
use example_kept::print_set;
use iol_book::Limits;
use iol_isdu::Request;
use iol_link::Wire;
use iol_master::{Gate, Line, LinePort, LineWorker};
use iol_mode::Devices;
use iol_params::Table;
use iol_storage::{Set, StorageMode, StoredPort};
use std::alloc::Global;
use std::sync::Wait;
use std::sync::atomic::{AtomicBool, Ordering};
use std::sync::ledger::{Blank, Ledger};
use std::thread;
use std::thread::{Scope, Threads};

/// How often a client looks for an answer: seconds, where it never comes.
const LOOKS: u64 = 1_000_000_000;

/// The number that the gate is told of this port.
const NUMBER: u32 = 3;

/// The line's port, under its lock.
type Stored<K> = LinePort<K, StoredPort>;

/// A gate that is open until the client has done what it came for.
#[derive(Drop)]
struct UntilDone<'a>(&'a AtomicBool);

impl Gate for UntilDone<'_> {
    fn pass(&self, _port: u32, _turn: u64) -> bool {
        !self.0.load(Ordering::SeqCst)
    }
}

/// What client, worker and line tell each other.
#[derive(Drop)]
struct Signs {
    /// The sensor is to be exchanged.
    exchange: AtomicBool,
    /// The client has done what it came for.
    done: AtomicBool,
}

/// Saves a set that was fetched, if one was. The port tells the sensor only then.
fn save<K: Ledger>(rt: &impl Print, port: &mut Stored<K>) -> Result<()> {
    // FF91 asks for a fetch: the port sees it here alone.
    let _ = port.take_event();
    let number = match port.unsaved() {
        Some((number, set)) => {
            print_set(rt, set)?;
            number
        }
        None => return Ok(()),
    };
    port.saved(number)?;
    Ok(())
}

/// Reads the limit of the sensor, and meanwhile saves what the port has fetched: the request waits
/// for that.
fn read_limit<K: Ledger, R: Print + Wait>(
    rt: &R,
    line: &Line<K, StoredPort>,
    name: &str,
) -> Result<()> {
    let ticket = line.lock(rt).submit(Request::read(UPPER_LIMIT))?;
    for _ in 0..LOOKS {
        save(rt, &mut *line.lock(rt))?;
        if let Ok(outcome) = line.lock(rt).collect(ticket) {
            println!(rt; "port 3: {name} sensor: {outcome:?}")?;
            return Ok(());
        }
    }
    bail!("the {name} sensor does not answer")
}

/// Has the sensor exchanged, and waits until the port has noticed.
fn exchange<K: Ledger, R: Wait>(
    rt: &R,
    line: &Line<K, StoredPort>,
    wanted: &AtomicBool,
) -> Result<()> {
    wanted.store(true, Ordering::SeqCst);
    for _ in 0..LOOKS {
        if line.lock(rt).port().counters().links_lost > 0 {
            return Ok(());
        }
    }
    bail!("the link is not lost")
}

/// Reads the limit of both sensors, one behind the other at the same line.
fn read_both<K: Ledger, R: Print + Wait>(
    rt: &R,
    line: &Line<K, StoredPort>,
    wanted: &AtomicBool,
) -> Result<()> {
    read_limit(rt, line, "first")?;
    exchange(rt, line, wanted)?;
    read_limit(rt, line, "second")?;
    println!(rt; "port 3: {:?}", line.lock(rt).standing())?;
    Ok(())
}

/// A client. Whatever comes of it, the worker's gate closes behind it.
fn visit<K: Ledger, R: Print + Wait>(
    rt: &R,
    line: &Line<K, StoredPort>,
    signs: &Signs,
) -> Result<()> {
    let outcome = read_both(rt, line, &signs.exchange);
    signs.done.store(true, Ordering::SeqCst);
    outcome
}

/// The thread of a client reads, while this one makes the turns.
fn serve_beside<'s, E, W: Wire, K: Ledger + Sync, R: Print + Threads + Wait + Sync>(
    scope: &Scope<'s, E>,
    rt: &'s R,
    line: &'s Line<K, StoredPort>,
    worker: &mut LineWorker<W, K>,
    signs: &'s Signs,
) -> Result<()> {
    let Ok(client) = scope.spawn(move || visit(rt, line, signs)) else {
        bail!("no thread");
    };
    worker.serve(rt, line, &UntilDone(&signs.done), NUMBER, u64::MAX);
    client.join(rt)
}

fn serve_line<W: Wire, K: Ledger + Sync, R: Print + Threads + Wait + Sync>(
    rt: &R,
    line: &Line<K, StoredPort>,
    worker: &mut LineWorker<W, K>,
    signs: &Signs,
) -> Result<()> {
    thread::scope(thread::scope_env(), rt, move |scope| -> Result<()> {
        serve_beside(scope, rt, line, worker, signs)
    })
}

/// The line of a port with this set, over this wire. The blank names its ledger.
fn open_and_serve<W: Wire + Drop, K: Ledger + Sync, R: Print + Threads + Wait + Sync>(
    rt: &R,
    alloc: Global,
    wire: W,
    backup: Option<Set>,
    signs: &Signs,
    hands: Blank,
) -> Result<()>
    requires { IsBlankFor hands K.name K.parts 1 }
{
    let limits = Limits::default();
    let port = StoredPort::open(alloc, &limits, Devices::Own, StorageMode::Both, backup)?;
    let (line, mut worker) = Line::<K, StoredPort>::open(port, wire, hands);
    serve_line(rt, &line, &mut worker, signs)
}

/// A sensor of this table is exchanged for another one. If no set was kept, a user has set the
/// limit of the first one; else that is new, too.
fn exchange_sensors<'a, K: Ledger + Sync, R: Print + Threads + Wait + Sync>(
    rt: &R,
    alloc: Global,
    table: &'a Table<'a>,
    backup: Option<Set>,
    signs: &'a Signs,
    hands: Blank,
) -> Result<()>
    requires { IsBlankFor hands K.name K.parts 1 }
{
    let plugged = if backup.is_some() {
        open_sensor(alloc, table)?
    } else {
        open_used_sensor(alloc, table)?
    };
    let cable = Cable {
        plugged,
        beside: Some(open_sensor(alloc, table)?),
        is_exchange_wanted: &signs.exchange,
    };
    open_and_serve::<_, K, R>(rt, alloc, cable, backup, signs, hands)
}

/// Serves the third port, with the set that was kept, if one was. The blank names the ledger of its
/// line.
pub fn serve_third<K: Ledger + Sync, R: Print + Threads + Wait + Sync>(
    rt: &R,
    alloc: Global,
    backup: Option<Set>,
    hands: Blank,
) -> Result<()>
    requires { IsBlankFor hands K.name K.parts 1 }
{
    let signs = Signs {
        exchange: AtomicBool::new(false),
        done: AtomicBool::new(false),
    };
    let table = Table::new(&MEMBERS, &[]).map_err(|fault| fault.flaw)?;
    exchange_sensors::<K, R>(rt, alloc, &table, backup, &signs, hands)
}
