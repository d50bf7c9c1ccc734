//! Ports that are served over a line that falls silent in OPERATE and comes back, to a device whose
//! StatusCode has a form that the master knows, or not. What became of requests, events, images
//! and the journal is looked at afterwards.
ghost use Rattle.iol_master.specs.Ledgers.{IsBlankFor};

use crate::calls::{Expected, Noted, check, serves};
use crate::desks::Open;
use crate::opening::{open_one, open_port, wired};
use crate::scripts::{Call, Script, Stage, VALUE_PLACE, run};
use crate::seats::{is_empty, is_image, shown_port, shows};
use crate::slow::{ALARM, INPUT, START_UP, VALUE};
use crate::visits;
use crate::visits::{Step, Who, answers_locked};
use iol_app::Mode;
use iol_book::Limits;
use iol_cell::ImageSeat;
use iol_image::Image;
use iol_isdu::{Cause, Place};
use iol_link::{Rate, Wire};
use iol_master::Master;
use iol_mseq::Message;
use iol_peers::{AnyWire, PROCESS_DATA, Peer};
use iol_port::{Port, PortCore, PortFault};
use iol_sim::{Fate, Params, Sim};
use std::alloc::{AllocError, Global};
use std::marker::Brand;
use std::process::Abort;
use std::sync::atomic::{AtomicU64, Ordering};
use std::sync::ledger::{Blank, Ledger};
use std::sync::{Arc, Wait};
use std::test::Fail;
use std::thread::Threads;

/// The process data that the device sends later.
const LATER: [u8; 2] = [0x56, 0x78];

/// What the master wants as its output.
const OUTPUT: u8 = 0x99;

/// The first octet of a message that reads the StatusCode.
const READ_STATUS: u8 = 0xC0;

/// The reply with a StatusCode that marks no place and has no details.
const ODD_STATUS: [u8; 4] = [0x01, 0x12, 0x34, 0x83];

/// Turns behind the start-up, in the last of which the link is lost.
const SILENCE: u64 = BEFORE + LOST;

/// How many exchanges go on before the silence.
const BEFORE: u64 = 4;

/// How many replies are lost then.
const LOST: u64 = 3;

/// Turns in which the silence ends, and all is done that waits.
const TURNS: u64 = 90;

/// All turns of a port: up to OPERATE, through the silence, and one behind it.
const ALL_TURNS: u64 = START_UP + SILENCE + TURNS + 1;

/// The form of the StatusCode that the master gets.
#[derive(Clone, Copy)]
enum Form {
    Known,
    Odd,
}

/// Watches a device from outside of its wire.
#[derive(Drop)]
struct Watch {
    /// How often the wire was called.
    calls: AtomicU64,
    /// The output that the device has, 0 where it has none.
    output: AtomicU64,
}

impl Watch {
    fn new() -> Watch {
        Watch {
            calls: AtomicU64::new(0),
            output: AtomicU64::new(0),
        }
    }

    /// Whether the wire was called so often, and the device has this output.
    fn saw(&self, calls: u64, output: u8) -> bool {
        self.calls.load(Ordering::SeqCst) == calls
            && self.output.load(Ordering::SeqCst) == u64::from(output)
    }
}

/// A device, what becomes of its StatusCode, and its watch.
#[derive(Drop)]
struct Watched {
    wire: Sim<Params>,
    form: Form,
    watch: Arc<Watch, Global>,
}

impl Peer for Watched {
    fn wake(&mut self) -> Option<Rate> {
        self.watch.calls.fetch_add(1, Ordering::SeqCst);
        self.wire.wake()
    }

    fn exchange(&mut self, sent: &[u8]) -> Option<Message> {
        let received = self.wire.exchange(sent);
        self.watch.calls.fetch_add(1, Ordering::SeqCst);
        self.watch
            .output
            .store(u64::from(output_of(&self.wire)), Ordering::SeqCst);
        match (self.form, sent.first()) {
            (Form::Odd, Some(&READ_STATUS)) => Message::try_from(ODD_STATUS.as_slice()).ok(),
            _ => received,
        }
    }
}

/// The output of a device of one octet, 0 where it has none.
fn output_of(wire: &Sim<Params>) -> u8 {
    match wire.device().output() {
        Some(image) => image.octets().first().copied().unwrap_or(0),
        None => 0,
    }
}

/// So many calls of the wire with this fate.
fn add(steps: &mut Vec<iol_sim::Step>, fate: Fate, count: u64) -> Result<(), AllocError> {
    for _ in 0..count {
        steps.push(iol_sim::Step::Fate(fate))?;
    }
    Ok(())
}

/// The line starts up, and goes on for four exchanges; three replies are lost, and with them the
/// link, and two wakes. Then the device reports an event, and later has another input.
fn add_all(steps: &mut Vec<iol_sim::Step>, input: Image, later: Image) -> Result<(), AllocError> {
    steps.push(iol_sim::Step::Input(input))?;
    add(steps, Fate::Clean, START_UP + BEFORE)?;
    add(steps, Fate::BackLost, LOST)?;
    add(steps, Fate::NoWake, 2)?;
    steps.push(iol_sim::Step::Raise(ALARM))?;
    add(steps, Fate::Clean, 50)?;
    steps.push(iol_sim::Step::Input(later))?;
    Ok(())
}

fn script(alloc: Global) -> Result<Vec<iol_sim::Step>, Fail> {
    let (input, later) = (Image::new(&INPUT)?, Image::new(&LATER)?);
    let mut steps = Vec::new(alloc);
    add_all(&mut steps, input, later)?;
    Ok(steps)
}

fn scripted(alloc: Global) -> Result<Sim<Params>, Fail> {
    wired(alloc, &PROCESS_DATA, &VALUE, script(alloc)?)
}

/// A wire, and what watches its device.
type WatchedLine = (AnyWire<Watched>, Arc<Watch, Global>);

/// The line to such a device, and its watch.
fn watched_line(alloc: Global, form: Form) -> Result<WatchedLine, Fail> {
    let wire = scripted(alloc)?;
    let watch = Arc::new(alloc, Watch::new())?;
    let theirs = Arc::try_clone(&watch)?;
    let peer = Watched {
        wire,
        form,
        watch: theirs,
    };
    Ok((AnyWire(peer), watch))
}

/// A parameter that the device hasn't got.
const ABSENT: Place = Place { index: 17, sub: 0 };

/// What three requests come to: the link was lost while the urgent one was under way.
const COLLECTED: [Call; 3] = [
    Call::Collect(1, Expected::Reads(&VALUE)),
    Call::Collect(2, Expected::Refused(0x80, 0x11)),
    Call::Collect(3, Expected::CutOff(Cause::LinkLost)),
];

/// Their journal.
const NOTED: [Noted; 12] = [
    Noted::Submitted(1, VALUE_PLACE),
    Noted::Submitted(2, ABSENT),
    Noted::Urgent(3, VALUE_PLACE),
    Noted::Taken(3),
    Noted::Answered(3, Expected::CutOff(Cause::LinkLost)),
    Noted::Taken(1),
    Noted::Answered(1, Expected::Reads(&VALUE)),
    Noted::Taken(2),
    Noted::Answered(2, Expected::Refused(0x80, 0x11)),
    Noted::Collected(1),
    Noted::Collected(2),
    Noted::Collected(3),
];

/// Three requests are submitted, of which the urgent one comes first.
const SUBMITTED: [Step; 4] = [
    Step::Open(Who::One, 1),
    Step::Submit(Who::One, VALUE_PLACE, 1),
    Step::Submit(Who::One, ABSENT, 2),
    Step::Urgent(Who::One, VALUE_PLACE, 3),
];

/// What is done at a master, and with a seat of its port's images.
#[derive(Clone, Copy)]
enum Act {
    /// So many turns, which the workers make.
    Serve(u64),
    Shows(&'static [u8]),
    ShowsNone,
    Steps(&'static [Step]),
}

fn passes<W: Wire + Send, L: Ledger, K: Ledger + Sync, R: Threads + Wait + Sync>(
    rt: &R,
    master: &Master<W, L, K>,
    seat: &mut ImageSeat,
    act: Act,
) -> bool {
    match act {
        Act::Serve(turns) => serves(rt, master, &Open, turns),
        Act::Shows(octets) => shows(rt, seat, octets),
        Act::ShowsNone => is_empty(rt, seat),
        Act::Steps(steps) => visits::passes_all(rt, master, steps),
    }
}

fn passes_all<W: Wire + Send, L: Ledger, K: Ledger + Sync, R: Threads + Wait + Sync>(
    rt: &R,
    master: &Master<W, L, K>,
    seat: &mut ImageSeat,
    acts: &[Act],
) -> bool {
    for act in acts {
        if !passes(rt, master, seat, *act) {
            return false;
        }
    }
    true
}

/// The port is served up to OPERATE, is to have an output, and is served through the silence.
const SILENT: [Act; 7] = [
    Act::Serve(START_UP),
    Act::Shows(&INPUT),
    Act::Steps(&[Step::Calls(1, &[Call::Mode(Mode::Operate), Call::SetOutput(OUTPUT)])]),
    Act::Steps(&SUBMITTED),
    Act::Serve(SILENCE),
    Act::ShowsNone,
    Act::Serve(TURNS),
];

/// The link is up again, and the event came where the StatusCode is known.
const UP_WITH_EVENT: [Call; 4] = [
    Call::Mode(Mode::Operate),
    Call::EventForm(false),
    Call::Event(Ok(ALARM)),
    Call::Event(Err(PortFault::NoEvent)),
];

const UP_WITHOUT: [Call; 3] = [
    Call::Mode(Mode::Operate),
    Call::EventForm(true),
    Call::Event(Err(PortFault::NoEvent)),
];

/// All that was submitted has its outcome, and the journal has it all.
const DONE: [Act; 4] = [
    Act::Steps(&[Step::Calls(1, &COLLECTED)]),
    Act::Serve(1),
    Act::Steps(&[Step::Call(1, Call::Journal(&NOTED))]),
    Act::Shows(&LATER),
];

fn is_back_up<W: Wire, L: Ledger, K: Ledger, R: Wait>(
    rt: &R,
    master: &Master<W, L, K>,
    form: Form,
) -> bool {
    match form {
        Form::Known => answers_locked(rt, master, 1, &UP_WITH_EVENT),
        Form::Odd => answers_locked(rt, master, 1, &UP_WITHOUT),
    }
}

fn through<W: Wire + Send, L: Ledger, K: Ledger + Sync, R: Threads + Wait + Sync>(
    rt: &R,
    master: &Master<W, L, K>,
    seat: &mut ImageSeat,
    form: Form,
) -> bool {
    passes_all(rt, master, seat, &SILENT)
        && is_back_up(rt, master, form)
        && passes_all(rt, master, seat, &DONE)
}

/// A master with a port that shows its images is served through the silence.
fn is_served<W: Wire + Send + Drop, L: Ledger, K: Ledger + Sync, R>(
    rt: &R,
    alloc: Global,
    wire: W,
    form: Form,
    clients: Blank,
    tickets: Blank,
) -> Result<(), Fail>
where
    R: Threads + Wait + Abort + Sync,
    requires clients { IsBlankFor clients L.name L.parts 1025 }
    requires tickets { IsBlankFor tickets K.name K.parts 1 }
{
    let (port, mut seat) = shown_port(rt, alloc, wire)?;
    let master = open_one::<W, L, K, Global, R>(rt, alloc, port, clients, tickets)?;
    check(rt, through(rt, &master, &mut seat, form));
    Ok(())
}

/// Refuses a worker that ends where the link is lost or a StatusCode is refused, that takes events,
/// archives the journal, clears the output, publishes no more, or calls the wire twice in a turn.
#[test]
fn a_port_is_served_through_silence(rt: HostRuntime) -> Result<(), Fail> {
    for &form in &[Form::Known, Form::Odd] {
        let (wire, watch) = watched_line(rt.alloc(), form)?;
        is_served::<_, Brand, Brand, HostRuntime>(
            &rt,
            rt.alloc(),
            wire,
            form,
            Blank::new(1025),
            Blank::new(1),
        )?;
        check(&rt, watch.saw(ALL_TURNS, OUTPUT));
    }
    Ok(())
}

/// A line is served through the silence, and has all that was asked of it.
const LINE_THROUGH: Script = Script {
    stages: &[
        Stage::Turns(START_UP),
        Stage::Calls(&[
            Call::SetOutput(OUTPUT),
            Call::Submit(VALUE_PLACE, 1),
            Call::Submit(ABSENT, 2),
            Call::Urgent(VALUE_PLACE, 3),
        ]),
        Stage::Turns(TURNS),
        Stage::Calls(&[Call::Event(Ok(ALARM))]),
        Stage::Calls(&COLLECTED),
        Stage::Calls(&[Call::Journal(&NOTED)]),
    ],
    last: &[],
};

/// Refuses a worker of a line that ends where the link is lost.
#[test]
fn a_line_is_served_through_silence(rt: HostRuntime) -> Result<(), Fail> {
    let output = Image::new(&[OUTPUT])?;
    let wire = scripted(rt.alloc())?;
    let core = PortCore::open(rt.alloc(), &Limits::default())?;
    let wire = run(&rt, core, wire, LINE_THROUGH);
    check(&rt, wire.device().output() == Some(&output));
    Ok(())
}

/// Makes so many turns of a port that no master has.
fn turns_shown<W: Wire, R: Wait>(rt: &R, port: &mut Port<W>, count: u64) {
    for _ in 0..count {
        port.turn_shown(rt);
    }
}

/// A port that publishes nothing makes its turns, also over replies that are refused.
fn is_turned<W: Wire + Drop, R: Wait>(rt: &R, alloc: Global, wire: W) -> Result<bool, Fail> {
    let mut port = open_port(alloc, wire)?;
    turns_shown(rt, &mut port, START_UP);
    let is_up = is_image(port.image(), &INPUT);
    turns_shown(rt, &mut port, SILENCE + TURNS);
    let goes_on = port.status().event_form && is_image(port.image(), &LATER);
    port.restart_shown(rt);
    Ok(is_up && goes_on && port.status().mode == Mode::Down)
}

/// Refuses a `turn_shown` that makes no turn where no writer was given, or where a StatusCode was
/// refused.
#[test]
fn a_turn_is_made_where_nothing_is_published(rt: HostRuntime) -> Result<(), Fail> {
    let (wire, _watch) = watched_line(rt.alloc(), Form::Odd)?;
    check(&rt, is_turned(&rt, rt.alloc(), wire)?);
    Ok(())
}
