//! A wire, and a gate, that wait until another thread lets them go.
use crate::opening::wired;
use iol_event::Event;
use iol_image::Image;
use iol_link::{Rate, Wire};
use iol_master::Gate;
use iol_mseq::Message;
use iol_peers::{AnyWire, PROCESS_DATA, Peer};
use iol_sim::{Params, Sim, Step};
use std::alloc::Global;
use std::sync::Arc;
use std::sync::atomic::{AtomicBool, Ordering};
use std::test::Fail;

/// The process data that the device sends.
pub const INPUT: [u8; 2] = [0x12, 0x34];

/// What it keeps at 16/0.
pub const VALUE: [u8; 2] = [0x41, 0x42];

/// What it reports.
pub const ALARM: Event = Event {
    qualifier: 0xF4,
    code: 0x8CA0,
};

/// The turns up to OPERATE, in which the first reply has come.
pub const START_UP: u64 = 16;

/// How often a thread looks for what another one does: seconds, where it never comes.
const LOOKS: u64 = 1_000_000_000;

/// A wire to a device that sends process data, and has an event to report.
pub fn sending(alloc: Global) -> Result<Sim<Params>, Fail> {
    let mut steps = Vec::new(alloc);
    steps.push(Step::Input(Image::new(&INPUT)?))?;
    steps.push(Step::Raise(ALARM))?;
    wired(alloc, &PROCESS_DATA, &VALUE, steps)
}

/// What two threads tell each other.
#[derive(Drop)]
pub struct Flags {
    /// The next call is to wait.
    pub armed: AtomicBool,
    /// A call waits.
    pub waiting: AtomicBool,
    /// It may end.
    pub let_go: AtomicBool,
    /// It ended by that, and not of itself.
    pub was_let_go: AtomicBool,
}

impl Flags {
    /// None is set.
    pub fn new() -> Flags {
        Flags {
            armed: AtomicBool::new(false),
            waiting: AtomicBool::new(false),
            let_go: AtomicBool::new(false),
            was_let_go: AtomicBool::new(false),
        }
    }

    /// Waits until it is let go, where it is to.
    fn wait(&self) {
        if self.armed.load(Ordering::SeqCst) {
            self.waiting.store(true, Ordering::SeqCst);
            let ended = is_set(&self.let_go);
            self.was_let_go.store(ended, Ordering::SeqCst);
        }
    }
}

/// A gate that is open, and waits.
impl Gate for Flags {
    fn pass(&self, _port: u32, _turn: u64) -> bool {
        self.wait();
        true
    }
}

/// Looks at a flag until it is set, at most a thousand million times.
pub fn is_set(flag: &AtomicBool) -> bool {
    for _ in 0..LOOKS {
        if flag.load(Ordering::SeqCst) {
            return true;
        }
    }
    false
}

/// A wire whose call ends when it is let go.
#[derive(Drop)]
pub struct Slow {
    wire: Sim<Params>,
    flags: Arc<Flags, Global>,
}

impl Peer for Slow {
    fn wake(&mut self) -> Option<Rate> {
        self.flags.wait();
        self.wire.wake()
    }

    fn exchange(&mut self, sent: &[u8]) -> Option<Message> {
        self.flags.wait();
        self.wire.exchange(sent)
    }
}

/// Such a wire, and its flags, of which none is set.
pub fn slow_wire(alloc: Global) -> Result<(AnyWire<Slow>, Arc<Flags, Global>), Fail> {
    let wire = sending(alloc)?;
    let flags = Arc::new(alloc, Flags::new())?;
    let theirs = Arc::try_clone(&flags)?;
    let peer = Slow {
        wire,
        flags: theirs,
    };
    Ok((AnyWire(peer), flags))
}
