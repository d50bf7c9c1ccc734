//! What tests ask of lines, as tables: calls of a port under its lock, and turns of the worker.
//!
//! The prover's work grows with the calls of a function. One function makes each call of a kind of
//! port, and these go through the tables.
ghost use Rattle.iol_master.specs.Ledgers.{IsBlankFor};

use crate::calls::{Expected, Noted, check};
use crate::slow::{Flags, START_UP, is_set, slow_wire};
use iol_app::{Mode, Transmission};
use iol_event::Event;
use iol_isdu::Place;
use iol_link::Wire;
use iol_master::{Gate, Line, LineCore, LinePort, LineWorker};
use iol_port::{AwaitedAnswer, PortFault};
use iol_storage::{DownloadResult, StorageStanding, StoredFault};
use std::alloc::Global;
use std::marker::Brand;
use std::process::Abort;
use std::sync::Wait;
use std::sync::atomic::Ordering;
use std::sync::ledger::{Blank, Ledger};
use std::test::Fail;
use std::thread;
use std::thread::Threads;

/// The value that each device has.
pub const VALUE_PLACE: Place = Place { index: 16, sub: 0 };

/// The turn that tells the device that its output is not valid.
const COMMAND: u64 = 1;

/// Turns in which a request or a report comes to its end.
pub const ENOUGH: u64 = 30;

/// Turns behind which a request that was submitted under the lock before is under way.
pub const UNDER_WAY: u64 = COMMAND + 1;

/// A call of a port under its lock, and what it is to answer. Tickets are named by their numbers.
#[derive(Clone, Copy)]
pub enum Call {
    /// A read, which is given this ticket.
    Submit(Place, u64),
    Urgent(Place, u64),
    Withdraw(u64),
    Abandon(u64),
    Cancel(u64),
    CancelFails(u64, PortFault),
    Collect(u64, Expected),
    CollectInto(u64, Expected),
    Event(Result<Event, PortFault>),
    /// The journal, of these entries or of so many.
    Journal(&'static [Noted]),
    Archive(usize),
    Drain(usize),
    /// What is handed out is not looked at.
    ArchiveAny,
    ArchiveFails,
    DrainAny,
    Restated(usize),
    SetOutput(u8),
    ClearOutput,
    Image(&'static [u8]),
    HasImage(bool),
    Restart,
    RestartWaits(bool),
    Mode(Mode),
    /// A StatusCode had a form that the port doesn't know.
    EventForm(bool),
    /// What start-ups are to ask counts from the next one on.
    Expect,
    ExpectAny,
    SetCycle,
    /// A fetched set waits to be saved, of this number.
    Unsaved(u64),
    Saved(u64, Result<(), StoredFault>),
    Standing(StorageStanding),
    /// A block is given this number.
    Block(u64),
    CollectBlock(u64, Result<DownloadResult, StoredFault>),
    HasSet(bool),
    /// The octets of the kept set.
    Keeps(&'static [u8]),
    Forget,
    Load,
    Release,
    /// So many turns, at a port whose wire lies under the same lock.
    Turns(u64),
}

/// A port that a line of these tests has.
pub trait Tested: LineCore {
    /// Whether a port under its lock answers a call so.
    fn answers<K: Ledger>(port: &mut LinePort<K, Self>, call: Call) -> bool;
}

/// A stage of a script.
#[derive(Clone, Copy)]
pub enum Stage {
    /// Calls under one lock.
    Calls(&'static [Call]),
    /// Turns of the worker, as many as a gate lets it make.
    Turns(u64),
    /// One turn, with no gate.
    Turn,
}

/// What is asked of a line.
#[derive(Clone, Copy)]
pub struct Script {
    pub stages: &'static [Stage],
    /// What is asked of the port once the line is ended.
    pub last: &'static [Call],
}

/// Says no before this turn.
#[derive(Drop)]
struct Before(u64);

impl Gate for Before {
    fn pass(&self, port: u32, turn: u64) -> bool {
        port == 1 && turn < self.0
    }
}

/// Makes so many turns.
fn serve<W: Wire, K: Ledger, P: LineCore, R: Wait>(
    rt: &R,
    line: &Line<K, P>,
    worker: &mut LineWorker<W, K>,
    turns: u64,
) {
    worker.serve(rt, line, &Before(turns.saturating_add(1)), 1, u64::MAX);
}

/// Whether each of these calls is answered so.
fn answers_all<K: Ledger, P: Tested>(port: &mut LinePort<K, P>, calls: &[Call]) -> bool {
    for call in calls {
        if !P::answers(port, *call) {
            return false;
        }
    }
    true
}

/// The same, under one lock.
fn answers_locked<K: Ledger, P: Tested, R: Wait>(
    rt: &R,
    line: &Line<K, P>,
    calls: &[Call],
) -> bool {
    answers_all(&mut *line.lock(rt), calls)
}

fn passes<W: Wire, K: Ledger, P: Tested, R: Wait>(
    rt: &R,
    line: &Line<K, P>,
    worker: &mut LineWorker<W, K>,
    stage: Stage,
) -> bool {
    match stage {
        Stage::Calls(calls) => return answers_locked(rt, line, calls),
        Stage::Turns(turns) => serve(rt, line, worker, turns),
        Stage::Turn => worker.turn(rt, line),
    }
    true
}

pub fn passes_all<W: Wire, K: Ledger, P: Tested, R: Wait>(
    rt: &R,
    line: &Line<K, P>,
    worker: &mut LineWorker<W, K>,
    stages: &[Stage],
) -> bool {
    for stage in stages {
        if !passes(rt, line, worker, *stage) {
            return false;
        }
    }
    true
}

/// A line of this port, which is ended behind its script; gives the wire back.
fn run_over<W: Wire + Drop, K: Ledger, P: Tested, R: Wait + Abort>(
    rt: &R,
    port: P,
    wire: W,
    hands: Blank,
    script: Script,
) -> W
    requires { IsBlankFor hands K.name K.parts 1 }
{
    let (line, mut worker) = Line::<K, P>::open(port, wire, hands);
    check(rt, passes_all(rt, &line, &mut worker, script.stages));
    check(rt, answers_all(&mut line.into_inner(), script.last));
    worker.into_wire()
}

/// Every call of a line's port and of its worker, with no other thread; gives the wire back.
pub fn run<W: Wire + Drop, P: Tested, R: Wait + Abort>(
    rt: &R,
    port: P,
    wire: W,
    script: Script,
) -> W {
    run_over::<W, Brand, P, R>(rt, port, wire, Blank::new(1), script)
}

/// Makes the turns up to OPERATE of a port that lies under no lock.
pub fn start_up<W: Wire, P: LineCore>(port: &mut P, wire: &mut W) {
    for _ in 0..START_UP {
        let asked = port.send();
        match (port.awaits(), asked) {
            (AwaitedAnswer::Wake, _) => port.receive_wake(wire.wake()),
            (AwaitedAnswer::Reply, Transmission::Exchange(out)) => {
                port.receive(&wire.exchange(out.octets.as_slice()));
            }
            _ => {}
        }
    }
}

/// What a worker waits for in a thread of its own, while a client makes its calls.
#[derive(Clone, Copy)]
pub enum Waits {
    Exchange,
    Wake,
    Gate,
}

/// A request is submitted while a call of the wire is under way, and a restart is wanted.
static IN_EXCHANGE: [&[Call]; 3] = [
    &[Call::Submit(VALUE_PLACE, 1)],
    &[Call::Restart],
    &[Call::RestartWaits(true), Call::Mode(Mode::Operate)],
];

static IN_WAKE: [&[Call]; 3] = [
    &[Call::Submit(VALUE_PLACE, 1)],
    &[Call::Restart],
    &[Call::RestartWaits(true), Call::Mode(Mode::Down)],
];

static AT_THE_GATE: [&[Call]; 1] = [&[Call::Submit(VALUE_PLACE, 1)]];

/// The restart was made, and the request that was submitted meanwhile waits through it.
static RESTARTED: [Call; 3] = [
    Call::RestartWaits(false),
    Call::Mode(Mode::Down),
    Call::Collect(1, Expected::NotYet),
];

impl Waits {
    /// The turns before it.
    fn turns(self) -> u64 {
        match self {
            Waits::Exchange => START_UP,
            Waits::Wake | Waits::Gate => 0,
        }
    }

    /// What the client asks meanwhile, each time under a lock of its own.
    fn meanwhile(self) -> &'static [&'static [Call]] {
        match self {
            Waits::Exchange => &IN_EXCHANGE,
            Waits::Wake => &IN_WAKE,
            Waits::Gate => &AT_THE_GATE,
        }
    }

    /// What is asked behind it.
    fn behind(self) -> &'static [Call] {
        match self {
            Waits::Exchange | Waits::Wake => &RESTARTED,
            Waits::Gate => &[],
        }
    }
}

/// One turn, in a thread of its own, behind a gate where that is what waits.
fn work<W: Wire + Drop, K: Ledger, P: LineCore, R: Wait>(
    rt: &R,
    line: &Line<K, P>,
    worker: LineWorker<W, K>,
    waits: Waits,
    flags: &Flags,
) {
    let mut worker = worker;
    match waits {
        Waits::Exchange | Waits::Wake => worker.turn(rt, line),
        Waits::Gate => worker.serve(rt, line, flags, 1, 1),
    }
}

fn answers_each<K: Ledger, P: Tested, R: Wait>(
    rt: &R,
    line: &Line<K, P>,
    stages: &[&[Call]],
) -> bool {
    for calls in stages {
        if !answers_locked(rt, line, calls) {
            return false;
        }
    }
    true
}

/// Makes its calls once the other thread waits, and then lets that go.
fn visit<K: Ledger, P: Tested, R: Wait>(
    rt: &R,
    line: &Line<K, P>,
    waits: Waits,
    flags: &Flags,
) -> bool {
    if !is_set(&flags.waiting) {
        return false;
    }
    let are_answered = answers_each(rt, line, waits.meanwhile());
    flags.let_go.store(true, Ordering::SeqCst);
    are_answered
}

/// A turn, and a client's calls meanwhile.
fn beside<W: Wire + Send + Drop, K: Ledger + Sync, P: Tested + Send, R>(
    rt: &R,
    line: &Line<K, P>,
    worker: LineWorker<W, K>,
    waits: Waits,
    flags: &Flags,
) -> bool
where
    R: Threads + Wait + Sync,
{
    let (_, are_answered) = thread::join(
        rt,
        move || work(rt, line, worker, waits, flags),
        move || visit(rt, line, waits, flags),
    );
    are_answered
}

/// A client is let in while the worker waits.
pub fn lets_in<W: Wire + Send + Drop, K: Ledger + Sync, P: Tested + Send, R>(
    rt: &R,
    port: P,
    wire: W,
    hands: Blank,
    waits: Waits,
    flags: &Flags,
)
where
    R: Threads + Wait + Abort + Sync,
    requires { IsBlankFor hands K.name K.parts 1 }
{
    let (line, mut worker) = Line::<K, P>::open(port, wire, hands);
    serve(rt, &line, &mut worker, waits.turns());
    flags.armed.store(true, Ordering::SeqCst);
    check(rt, beside(rt, &line, worker, waits, flags));
    check(rt, flags.was_let_go.load(Ordering::SeqCst));
    check(rt, answers_locked(rt, &line, waits.behind()));
}

/// The same over a wire that waits.
pub fn lets_in_at_wire<P: Tested + Send, R: Threads + Wait + Abort + Sync>(
    rt: &R,
    alloc: Global,
    port: P,
    waits: Waits,
) -> Result<(), Fail> {
    let (wire, flags) = slow_wire(alloc)?;
    lets_in::<_, Brand, P, R>(rt, port, wire, Blank::new(1), waits, &flags);
    Ok(())
}
