//! A line whose clients wait for no exchange: its port lies under a lock, and a worker owns its
//! wire.
ghost use Rattle.std.specs.Prelude.{◌≡◌, ◌≤◌, ◌+◌, false, is_some};
ghost use Rattle.iol_far.specs.Octets.{octets_in};
ghost use Rattle.iol_app.specs.declared.transmission.Transmission.{Transmission};
ghost use Rattle.iol_app.specs.Asking.{IsCall};
ghost use Rattle.iol_port.specs.declared.awaited.AwaitedAnswer.TheVariants as AwaitedAnswer;
ghost use Rattle.iol_master.specs.Ledgers.{IsBlankFor};
ghost use Rattle.iol_master.specs.Line.{RestartsOnce, LineSends, TakesReply, TakesRate};
ghost use Rattle.iol_master.specs.Line.{HasWholeLedger, IsLineTurn, IsServed, IsLineWorked};
ghost use Rattle.iol_master.specs.Line.{awaited_number, awaited_of, turns_in, out_in};

mod core_calls;
mod stored_calls;

use crate::serve::Gate;
use iol_app::Transmission;
use iol_link::{Rate, Wire};
use iol_mseq::Message;
use iol_port::{AwaitedAnswer, PortCore};
use std::marker::Model;
use std::ops::Deref;
use std::sync::ledger::{Blank, Book, Ledger, Share};
use std::sync::{Mutex, MutexGuard, Wait};

/// What a line needs of the port that lies under its lock: the calls that its worker makes, and
/// a restart.
///
/// [`PortCore`] has it, and so does [`StoredPort`](iol_storage::StoredPort).
pub trait LineCore: Drop {
    ghost use Rattle.iol_master.specs.Line.{LineFacts};

    /// What it is to a contract: what it waits for, and what each of these calls gives.
    ghost facts: { LineFacts Self };

    /// What the port waits for: nothing, where nothing is out.
    fn awaits(&self) -> AwaitedAnswer
        ensures { result ≡ facts.awaits self.now };

    /// What goes out. The port waits for its answer from then on.
    fn send(&mut self) -> Transmission
        ensures sends { facts.sends self.old result self.new }
        ensures awaits { facts.awaits self.new ≡ awaited_of result };

    /// Takes what came back to the octets that were sent, or that nothing did.
    fn receive(&mut self, received: &Option<Message>)
        requires { facts.awaits self.old ≡ AwaitedAnswer.Reply }
        ensures receives { facts.receives self.old (octets_in received.now) self.new }
        ensures awaits { facts.awaits self.new ≡ AwaitedAnswer.Nothing };

    /// Takes what came of a wake-up request: the rate of the device that answered it, or that
    /// none did.
    fn receive_wake(&mut self, rate: Option<Rate>)
        requires { facts.awaits self.old ≡ AwaitedAnswer.Wake }
        ensures wakes { facts.wakes self.old (is_some rate) self.new }
        ensures awaits { facts.awaits self.new ≡ AwaitedAnswer.Nothing };

    /// Leaves the link in down.
    fn restart(&mut self)
        requires { facts.awaits self.old ≡ AwaitedAnswer.Nothing }
        ensures restarts { facts.restarts self.old self.new }
        ensures awaits { facts.awaits self.new ≡ AwaitedAnswer.Nothing };
}

/// How much the ledger of a line has while a wake-up request is out, and while a message is,
/// beside what it has for the turns that were made. While nothing is out it has no more than that.
const WAKE: u64 = 1;

const REPLY: u64 = 2;

/// How much it has for each turn.
const TURN: u64 = 3;

fn amount_of(awaited: AwaitedAnswer) -> u64
    ensures { result ≡ awaited_number awaited }
{
    match awaited {
        AwaitedAnswer::Nothing => 0,
        AwaitedAnswer::Wake => WAKE,
        AwaitedAnswer::Reply => REPLY,
    }
}

/// What a port waits for that has sent this.
fn answer_to(asked: &Transmission) -> AwaitedAnswer
    ensures { result ≡ awaited_of asked.now }
{
    match asked {
        Transmission::Wake => AwaitedAnswer::Wake,
        Transmission::Exchange(_) => AwaitedAnswer::Reply,
    }
}

/// The port of a line, as it lies under its lock, while a worker makes the calls of the wire.
///
/// Clients make every call but a turn. Each may come while an exchange is under way, and changes
/// nothing of what is out. What came is judged by what was sent.
///
/// Contracts see the port, whether a restart waits, and how many turns the worker made: each call
/// has the clauses of the port's call of that name, word for word, but a restart, which may have to
/// wait. The calls that only look are the port's own. No call here takes a lock: who calls holds
/// it.
#[derive(Drop)]
pub struct LinePort<K: Ledger, P: LineCore = PortCore> {
    port: P,
    /// A restart waits until what is out has been answered.
    restart_waits: bool,
    /// Its total says how many turns were made, and what is out.
    ledger: Book<K>,
}

impl<K: Ledger, P: LineCore> Model for LinePort<K, P> {
    ghost use Rattle.std.specs.Prelude.{◌≡◌, ◌<◌, IsTrue};
    ghost use Rattle.iol_master.specs.Line.{LineState, awaited_number, turns_in, out_in};

    ghost Value = { LineState P };

    ghost view = { λ p. record {
      port = p.port;
      restart_waits = p.restart_waits;
      turns = turns_in p.ledger.total;
    } };

    ghost invariant = { λ p. (IsTrue p.restart_waits → 0 < out_in p.ledger.total)
        × (out_in p.ledger.total ≡ awaited_number (P.facts.awaits p.port)) };
}

impl<K: Ledger, P: LineCore> LinePort<K, P> {
    /// This port, with no turn and no restart that waits, and all of the ledger in the worker's
    /// hand.
    fn open(port: P, hands: Blank) -> (LinePort<K, P>, Share<K>)
        requires { IsBlankFor hands K.name K.parts 1 }
        ensures port { result.0 ≡ record { port = port; restart_waits = false; turns = 0 } }
        ensures whole { HasWholeLedger result.1.parts K.parts }
        ensures hand { result.1.amount ≡ awaited_number (P.facts.awaits port) }
    {
        let (mut ledger, mut hand) = hands.open::<K>();
        ledger.add(&mut hand, amount_of(port.awaits()));
        let port = LinePort {
            port,
            restart_waits: false,
            ledger,
        };
        (port, hand)
    }

    /// Cuts off the request under way, if any, and leaves the link in down, without an image: at
    /// once where nothing is out, else as soon as the worker has taken what came of that.
    ///
    /// A message that is out can't be taken back, and what comes is still judged by it. A request
    /// that the answer ends is ended by it, and not cut off. A restart that waits is one restart,
    /// however often it was wanted. What is submitted meanwhile waits on through it.
    ///
    /// The device may still carry the request that was cut off out, once, until it is reset.
    pub fn restart(&mut self)
        ensures { RestartsOnce P.facts self.old self.new }
    {
        match self.port.awaits() {
            AwaitedAnswer::Nothing => self.port.restart(),
            AwaitedAnswer::Wake | AwaitedAnswer::Reply => self.restart_waits = true,
        }
    }

    /// Whether a restart waits until what is out has been answered.
    pub fn is_restart_waiting(&self) -> bool
        ensures { result ≡ self.now.restart_waits }
    {
        self.restart_waits
    }

    /// What goes out, which the worker's hand knows from then on.
    fn send(&mut self, hand: &mut Share<K>) -> Transmission
        requires whole { HasWholeLedger hand.old.parts K.parts }
        ensures sends { LineSends P.facts self.old result self.new }
        ensures whole { HasWholeLedger hand.new.parts K.parts }
        ensures after { self.old.turns ≡ turns_in hand.old.amount }
        ensures turns { turns_in hand.new.amount ≡ turns_in hand.old.amount }
        ensures out { out_in hand.new.amount ≡ awaited_number (awaited_of result) }
    {
        self.ledger.audit(hand);
        self.ledger.sub(hand, amount_of(self.port.awaits()));
        let asked = self.port.send();
        self.ledger.add(hand, amount_of(answer_to(&asked)));
        asked
    }

    /// Takes what came back, and makes the restart that waited.
    fn receive(&mut self, hand: &mut Share<K>, received: &Option<Message>)
        requires whole { HasWholeLedger hand.old.parts K.parts }
        requires out { out_in hand.old.amount ≡ awaited_number AwaitedAnswer.Reply }
        ensures awaits { P.facts.awaits self.old.port ≡ AwaitedAnswer.Reply }
        ensures takes { TakesReply P.facts self.old (octets_in received.now) self.new }
        ensures whole { HasWholeLedger hand.new.parts K.parts }
        ensures after { self.old.turns ≡ turns_in hand.old.amount }
        ensures turns { self.new.turns ≡ turns_in hand.new.amount }
        ensures none_out { out_in hand.new.amount ≡ awaited_number AwaitedAnswer.Nothing }
    {
        self.ledger.audit(hand);
        let waited = self.restart_waits;
        self.restart_waits = false;
        self.port.receive(received);
        self.ledger.add(hand, TURN - REPLY);
        if waited {
            self.port.restart();
        }
    }

    /// Takes what came of a wake-up request, and makes the restart that waited.
    fn receive_wake(&mut self, hand: &mut Share<K>, rate: Option<Rate>)
        requires whole { HasWholeLedger hand.old.parts K.parts }
        requires out { out_in hand.old.amount ≡ awaited_number AwaitedAnswer.Wake }
        ensures awaits { P.facts.awaits self.old.port ≡ AwaitedAnswer.Wake }
        ensures takes { TakesRate P.facts self.old (is_some rate) self.new }
        ensures whole { HasWholeLedger hand.new.parts K.parts }
        ensures after { self.old.turns ≡ turns_in hand.old.amount }
        ensures turns { self.new.turns ≡ turns_in hand.new.amount }
        ensures none_out { out_in hand.new.amount ≡ awaited_number AwaitedAnswer.Nothing }
    {
        self.ledger.audit(hand);
        let waited = self.restart_waits;
        self.restart_waits = false;
        self.port.receive_wake(rate);
        self.ledger.add(hand, TURN - WAKE);
        if waited {
            self.port.restart();
        }
    }
}

/// The port itself, for the calls that only look.
impl<K: Ledger, P: LineCore> Deref for LinePort<K, P> {
    ghost use Rattle.std.specs.Prelude.{◌≡◌};

    type Target = P;

    ghost deref_gives = { λ line port. port ≡ line.port };

    fn deref(&self) -> &P {
        &self.port
    }
}

/// A port whose wire a worker owns, under a lock.
///
/// There is one worker: only it sends and receives, so what comes is the answer to what is out.
/// K names a ledger, by which the worker and the port agree on what that is, and on how many turns
/// were made; it takes no memory.
#[derive(Drop)]
pub struct Line<K: Ledger, P: LineCore = PortCore> {
    port: Mutex<LinePort<K, P>>,
}

impl<K: Ledger, P: LineCore> Line<K, P> {
    /// A line of this port, and the worker of this wire. The blank names its ledger, and is used
    /// up.
    pub fn open<W: Wire>(port: P, wire: W, hands: Blank) -> (Line<K, P>, LineWorker<W, K>)
        requires { IsBlankFor hands K.name K.parts 1 }
        ensures { result.1 ≡ record {
          wire = wire;
          turns = 0;
          out = awaited_number (P.facts.awaits port);
        } }
    {
        let (port, hand) = LinePort::open(port, hands);
        let line = Line {
            port: Mutex::new(port),
        };
        (line, LineWorker { wire, hand })
    }

    /// Takes the port's lock, which is let go when the guard is dropped.
    ///
    /// The worker waits while another holds it, and the device with it.
    ///
    /// No clause says that the guard is of this line's port. Test `a_line_makes_each_call` of crate
    /// iol_master_tests holds it.
    pub fn lock<R: Wait>(&self, rt: &R) -> MutexGuard<'_, LinePort<K, P>> {
        self.port.lock(rt)
    }

    /// The port, with the restart that waits, if any. That it is this line's the same test holds.
    pub fn into_inner(self) -> LinePort<K, P> {
        self.port.into_inner()
    }
}

/// The worker of a line, which owns its wire, and makes the turns of its port.
///
/// It holds the port's lock before and after each call of the wire, and not while that is under
/// way: so no client waits for an exchange.
///
/// Contracts see the wire, how many turns were made, and what is out. What lies under the lock no
/// clause here can name, so they say that there was such a port, behind so many turns. The exact
/// clauses are those of the calls on a port whose lock is held.
#[derive(Drop)]
pub struct LineWorker<W: Wire, K: Ledger> {
    wire: W,
    /// All of the ledger. Its amount says how many turns were made, and what is out.
    hand: Share<K>,
}

impl<W: Wire, K: Ledger> Model for LineWorker<W, K> {
    ghost use Rattle.iol_master.specs.Line.{HasWholeLedger, WorkerState, turns_in, out_in};

    ghost Value = { WorkerState W };

    ghost view = { λ w. record {
      wire = w.wire;
      turns = turns_in w.hand.amount;
      out = out_in w.hand.amount;
    } };

    ghost invariant = { λ w. HasWholeLedger w.hand.parts K.parts };
}

impl<W: Wire, K: Ledger> LineWorker<W, K> {
    /// One turn: one wake-up request where the link is down, else one exchange with the device.
    ///
    /// Under the lock the port says what goes out; without it the wire is called, once; under it
    /// again the port takes what came, and makes a restart that was wanted meanwhile.
    pub fn turn<P: LineCore, R: Wait>(&mut self, rt: &R, line: &Line<K, P>)
        ensures asked { (asked : Transmission) × IsCall W.facts asked self.old.wire self.new.wire }
        ensures turned { IsLineTurn W.facts P.facts self.old self.new }
    {
        let LineWorker { wire, hand } = self;
        let asked = line.port.lock(rt).send(hand);
        match asked {
            Transmission::Wake => {
                let rate = wire.wake();
                line.port.lock(rt).receive_wake(hand, rate);
            }
            Transmission::Exchange(out) => {
                let received = wire.exchange(out.octets.as_slice());
                line.port.lock(rt).receive(hand, &received);
            }
        }
    }

    /// Makes so many turns, up to one at which the gate says no.
    ///
    /// The gate is asked before each turn, as for the port of this number, with no lock held.
    pub fn serve<P: LineCore, G: Gate, R: Wait>(
        &mut self,
        rt: &R,
        line: &Line<K, P>,
        gate: &G,
        number: u32,
        turns: u64,
    )
        requires { (1 ≤ number) × (number ≤ 32) }
        ensures called { IsServed W.facts turns self.old.wire self.new.wire }
        ensures worked { IsLineWorked W.facts P.facts
            G.pass_gives gate.now number turns self.old self.new }
    {
        for turn in 0..turns {
            if !gate.pass(number, turn + 1) {
                return;
            }
            self.turn(rt, line);
        }
    }

    /// The wire. The line has no worker from then on.
    pub fn into_wire(self) -> W
        ensures { result ≡ self.wire }
    {
        self.wire
    }
}
