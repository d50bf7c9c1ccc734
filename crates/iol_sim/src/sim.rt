//! A simulated wire, with a device at its far end.
ghost use Rattle.std.specs.Prelude.{◌≡◌, ℕ, [], true, None, Option, false, List, Some, IfOk, IfErr, IfSome, OnOk, OnErr, MatchBool, length, min, ◌+◌, ◌≤◌, if◌then◌else◌, ◌∷◌, option_copied, option_map};
ghost use Rattle.std.specs.Vec.Iter.{into_iter_items};
ghost use Rattle.iol_octets.specs.Checksum.{AreOctets};
ghost use Rattle.iol_far.specs.Octets.{octets_in, octets_in_buffer};
ghost use Rattle.iol_sim.specs.Sim.{damaged_octets};

use crate::beside::{Beside, Nothing};
use crate::fault::SimFault;
use crate::params::Params;
use crate::script::{Fate, Step};
use crate::stand::DeviceStand;
use iol_device::{App, Device, FullRecord};
use iol_event::Event;
use iol_far::{page_and_room_stay, replies_are_read};
use iol_link::{MAX_RETRY, Rate, Wire, damaged_replies_are_unread};
use iol_mseq::Message;
use iol_octets::one_flip_is_seen;
use std::alloc::{Allocator, Global};
use std::marker::Model;
use std::mem;
use std::vec::IntoIter;

/// The most octets that a message can have.
const LONGEST: usize = 66;

/// The test read of a wake-up request: that of page address 0x00.
const TEST_READ: [u8; 2] = [0xA2, 0x00];

/// A wire with a device at its far end, and a script of what happens to it and to each call.
/// There may be a second device, which the script plugs in in place of the first.
///
/// With one device it is a lossy line. With two it isn't: another device may come to its far end.
///
/// Each call first uses the steps of the script up to and with the next fate, then
/// has the application work where that is automatic, as it is at first, and then
/// goes as the fate says. An ended script is clean.
#[derive(Drop)]
pub struct Sim<P: App, A: Allocator + Copy = Global, B: Beside<P> = Nothing> {
    line: LineStanding,
    // Apart, since a device is large and a wire is moved with the link that owns it.
    here: Box<DeviceStand<P, A, B>, A>,
    /// What isn't plugged in, where there is a second device.
    away: Option<Box<DeviceStand<P, A, B>, A>>,
    /// The steps of the script that were not used yet.
    steps: IntoIter<Step, A>,
}

/// How the line stands.
#[derive(Clone, Copy)]
struct LineStanding {
    auto: bool,
    silent: bool,
    /// The exchanges in a row that brought no unaltered reply, counted up to 3.
    silence: u8,
    /// The events that were raised and that the device at the far end refused.
    refused_events: u64,
}

impl<P: App, A: Allocator + Copy, B: Beside<P>> Model for Sim<P, A, B> {
    ghost use Rattle.std.specs.Prelude.{◌≤◌, option_map};
    ghost use Rattle.std.specs.Vec.Iter.{into_iter_items};
    ghost use Rattle.iol_sim.specs.Sim.{SimulatedWire};
    ghost use Rattle.iol_link.specs.Attempts.{most_attempts};

    ghost Value = { SimulatedWire P B };

    ghost view = { λ sim. record {
      device = sim.here.value.device;
      beside = sim.here.value.beside;
      away = option_map (λ stand. stand.value) sim.away;
      steps = into_iter_items sim.steps;
      auto = sim.line.auto;
      silent = sim.line.silent;
      silence = sim.line.silence;
      refused_events = sim.line.refused_events;
    } };

    ghost invariant = { λ sim. sim.line.silence ≤ most_attempts };
}

impl<P: App, A: Allocator + Copy> Sim<P, A> {
    ghost use Rattle.std.specs.Prelude.{None, Some};
    ghost use Rattle.iol_sim.specs.declared.beside.Nothing.{Nothing};
    ghost use Rattle.iol_sim.specs.declared.fault.SimFault.{SimFault};
    ghost use Rattle.iol_sim.specs.Beside.{stand};
    ghost use Rattle.iol_sim.specs.Sim.{first_sim};

    /// A wire to this device, with this script, which isn't copied.
    ///
    /// Refused with 24 OutOfMemory, the device and the script handed back, where
    /// there is no memory for the device.
    pub fn new(
        alloc: A,
        device: Device<P, FullRecord<A>>,
        steps: Vec<Step, A>,
    ) -> Result<Sim<P, A>, (SimFault, Device<P, FullRecord<A>>, Vec<Step, A>)>
        ensures value { IfOk result (λ sim. sim
            ≡ first_sim (stand device (record {})) None steps.items) }
        ensures refused { IfErr result (λ e. e.0 ≡ SimFault.OutOfMemory) }
        ensures device { IfErr result (λ e. e.1 ≡ device) }
        ensures script { IfErr result (λ e. e.2 ≡ steps) }
    {
        Sim::beside(alloc, device, Nothing, steps).map_err(|(fault, device, _, steps)| (
            fault, device, steps,
        ))
    }

    /// A wire to this device, and a second one that the script may plug in, with this
    /// script, which isn't copied. It isn't a lossy line.
    ///
    /// Refused with 24 OutOfMemory, the devices and the script handed back, where
    /// there is no memory for the devices.
    pub fn with_other(
        alloc: A,
        device: Device<P, FullRecord<A>>,
        other: Device<P, FullRecord<A>>,
        steps: Vec<Step, A>,
    ) -> Result<
        Sim<P, A>,
        (
            SimFault,
            Device<P, FullRecord<A>>,
            Device<P, FullRecord<A>>,
            Vec<Step, A>,
        ),
    >
        ensures value { IfOk result (λ sim. sim
            ≡ first_sim (stand device (record {})) (Some (stand other (record {}))) steps.items) }
        ensures refused { IfErr result (λ e. e.0 ≡ SimFault.OutOfMemory) }
        ensures device { IfErr result (λ e. e.1 ≡ device) }
        ensures other { IfErr result (λ e. e.2 ≡ other) }
        ensures script { IfErr result (λ e. e.3 ≡ steps) }
    {
        let other = match Box::new(
            alloc,
            DeviceStand {
                device: other,
                beside: Nothing,
            },
        ) {
            Ok(other) => other,
            Err(failed) => return Err((SimFault::OutOfMemory, device, failed.value.device, steps)),
        };
        match Sim::new(alloc, device, steps) {
            Ok(mut sim) => {
                sim.away = Some(other);
                Ok(sim)
            }
            Err((fault, device, steps)) => {
                Err((fault, device, Box::into_inner(other).device, steps))
            }
        }
    }
}

impl<P: App, A: Allocator + Copy, B: Beside<P>> Sim<P, A, B> {
    ghost use Rattle.iol_far.specs.Far.{Far, hear};
    ghost use Rattle.iol_device.specs.App.{Follows};
    ghost use Rattle.iol_device.specs.Pulses.{is_orderly};
    ghost use Rattle.iol_link.specs.Honest.{test_read};
    ghost use Rattle.iol_link.specs.declared.wire.Rate.{Rate};
    ghost use Rattle.iol_sim.specs.declared.fault.SimFault.{SimFault};
    ghost use Rattle.iol_sim.specs.declared.script.Fate.{Fate};
    ghost use Rattle.iol_sim.specs.Beside.{stand, after_hearing};
    ghost use Rattle.iol_sim.specs.Script.{fate_of, rest_of, auto_of, devices_after_raise, devices_after_swap, IsDone, AreDone};
    ghost use Rattle.iol_sim.specs.Sim.{first_sim, here_of, with_here, sim_devices, fate_now, wire_before_call, IsReady, misses_pulse, stand_after_wake, rate_by, reached_by, rate_found, stand_after_exchange, reply_by, silence_by_fate};

    /// A wire to this device and what stands beside it, with this script, which isn't copied.
    ///
    /// Refused with 24 OutOfMemory, all of it handed back, where there is no memory for the
    /// device.
    pub fn beside(
        alloc: A,
        device: Device<P, FullRecord<A>>,
        beside: B,
        steps: Vec<Step, A>,
    ) -> Result<Sim<P, A, B>, (SimFault, Device<P, FullRecord<A>>, B, Vec<Step, A>)>
        ensures value { IfOk result (λ sim. sim
            ≡ first_sim (stand device beside) None steps.items) }
        ensures refused { IfErr result (λ e. e.0 ≡ SimFault.OutOfMemory) }
        ensures device { IfErr result (λ e. e.1 ≡ device) }
        ensures beside { IfErr result (λ e. e.2 ≡ beside) }
        ensures script { IfErr result (λ e. e.3 ≡ steps) }
    {
        match Box::new(alloc, DeviceStand { device, beside }) {
            Ok(here) => Ok(Sim {
                line: LineStanding {
                    auto: true,
                    silent: false,
                    silence: 0,
                    refused_events: 0,
                },
                here,
                away: None,
                steps: steps.into_iter(),
            }),
            Err(failed) => {
                let DeviceStand { device, beside } = failed.value;
                Err((SimFault::OutOfMemory, device, beside, steps))
            }
        }
    }

    /// From now on there is a second device, with what stands beside it, that the script may plug
    /// in; one that there was goes. It isn't a lossy line then.
    ///
    /// Refused with 24 OutOfMemory, and nothing changed, where there is no memory for it.
    pub fn add_other(
        &mut self,
        alloc: A,
        device: Device<P, FullRecord<A>>,
        beside: B,
    ) -> Result<(), SimFault>
        ensures added { OnOk result (self.new
            ≡ record self.old { away = Some (stand device beside) }) }
        ensures refused { IfErr result (λ e. e ≡ SimFault.OutOfMemory) }
        ensures unchanged { OnErr result (self.new ≡ self.old) }
    {
        match Box::new(alloc, DeviceStand { device, beside }) {
            Ok(other) => {
                self.away = Some(other);
                Ok(())
            }
            Err(_) => Err(SimFault::OutOfMemory),
        }
    }

    /// The device at the far end.
    pub fn device(&self) -> &Device<P, FullRecord<A>>
        ensures { result.now ≡ self.now.device }
    {
        &self.here.device
    }

    /// What stands beside it.
    pub fn beside_device(&self) -> &B
        ensures { result.now ≡ self.now.beside }
    {
        &self.here.beside
    }

    /// The device that isn't plugged in, where there is a second one.
    pub fn away(&self) -> Option<&Device<P, FullRecord<A>>>
        ensures { option_copied result ≡ option_map (λ stand. stand.device) self.now.away }
    {
        match &self.away {
            Some(stand) => Some(&stand.device),
            None => None,
        }
    }

    /// How many events were raised that the device at the far end then refused, as its event
    /// memory was full. It stays at 2^64 - 1, and over a swap.
    pub fn refused_events(&self) -> u64
        ensures { result ≡ self.now.refused_events }
    {
        self.line.refused_events
    }

    /// A law of each such wire, without code of its own: the application of the
    /// device at the far end is what the one with which that device was opened
    /// becomes by carrying out the requests of its record, in their order, each
    /// once and with the answer that stands beside it, and by nothing else.
    pub fn app_follows_record(&self)
        ensures { Follows P.carry_out_gives self.now.device.first self.now.device.far.carried
            self.now.device.app }
    {
        self.here.device.app_follows_record();
    }

    /// The same law of the device that isn't plugged in, where there is a second one.
    pub fn away_follows_record(&self)
        ensures { IfSome self.now.away (λ away. Follows P.carry_out_gives away.device.first
            away.device.far.carried away.device.app) }
    {
        if let Some(stand) = &self.away {
            stand.device.app_follows_record();
        }
    }

    /// From now on the wire is no longer silent, and goes on with the script.
    pub fn mend(&mut self)
        ensures { self.new ≡ record self.old { silent = false } }
    {
        self.line.silent = false;
    }

    /// The device is pulled, and the other one plugged in, with a power cycle.
    fn swap(&mut self)
        ensures devices { sim_devices self.new ≡ devices_after_swap B.facts
            (sim_devices self.old) }
        ensures rest { self.new
            ≡ record self.old {
              device = self.new.device;
              beside = self.new.beside;
              away = self.new.away;
            } }
    {
        if let Some(mut other) = self.away.take() {
            other.power_cycle();
            self.away = Some(mem::replace(&mut self.here, other));
        }
    }

    /// The device raises an event. One that it refuses is counted.
    fn raise(&mut self, event: Event)
        ensures devices { sim_devices self.new ≡ devices_after_raise (sim_devices self.old) event }
        ensures rest { self.new
            ≡ record self.old {
              device = self.new.device;
              beside = self.new.beside;
              refused_events = self.new.refused_events;
            } }
    {
        if self.here.raise(event).is_err() {
            let count = &mut self.line.refused_events;
            *count = count.saturating_add(1);
        }
    }

    /// Does one step that is no fate.
    fn act(&mut self, step: &Step)
        ensures devices { IsDone B.facts step.now (sim_devices self.old)
            (sim_devices self.new) }
        ensures rest { self.new
            ≡ record self.old {
              device = self.new.device;
              beside = self.new.beside;
              away = self.new.away;
              refused_events = self.new.refused_events;
              auto = auto_of self.old.auto
                  (step.now ∷ []);
            } }
    {
        match step {
            Step::Fate(_) => {}
            Step::Work => self.here.work(),
            Step::Auto(on) => self.line.auto = *on,
            Step::Raise(event) => self.raise(*event),
            Step::Input(image) => self.here.set_input(image),
            Step::NoInput => self.here.clear_input(),
            Step::Power => self.here.power_cycle(),
            Step::Change(place, octets) => self.here.change(*place, octets),
            Step::Quiet => self.here.silence(),
            Step::Swap => self.swap(),
        }
    }

    /// Does the steps up to and with the next fate, which is answered.
    fn next_fate(&mut self) -> Fate
        ensures fate { result ≡ fate_of self.old.steps }
        ensures devices { AreDone B.facts self.old.steps (sim_devices self.old)
            (sim_devices self.new) }
        ensures rest { self.new
            ≡ record self.old {
              device = self.new.device;
              beside = self.new.beside;
              away = self.new.away;
              refused_events = self.new.refused_events;
              steps = rest_of self.old.steps;
              auto =
                  auto_of self.old.auto self.old.steps;
            } }
    {
        while let Some(step) = self.steps.next() {
            if let Step::Fate(fate) = step {
                return fate;
            }
            self.act(&step);
        }
        Fate::Clean
    }

    /// Uses the steps before a call, whose fate is answered; none where it is silent.
    fn begin(&mut self) -> Fate
        ensures fate { result ≡ fate_now self.old }
        ensures devices { MatchBool self.old.silent (sim_devices self.new
            ≡ sim_devices self.old) (AreDone B.facts self.old.steps (sim_devices self.old)
            (sim_devices self.new)) }
        ensures rest { self.new ≡ wire_before_call self.old (sim_devices self.new) }
    {
        if self.line.silent {
            return Fate::Silent;
        }
        let fate = self.next_fate();
        self.line.silent = fate == Fate::Silent;
        fate
    }

    /// Does all that comes before a call, whose fate is answered.
    fn prepare(&mut self) -> Fate
        ensures fate { result ≡ fate_now self.old }
        ensures devices { IsReady B.facts self.old (sim_devices self.new) }
        ensures rest { self.new ≡ wire_before_call self.old (sim_devices self.new) }
    {
        let fate = self.begin();
        if self.line.auto {
            self.here.work();
        }
        fate
    }

    /// The wake-up request is made, and the rate that the master finds is answered.
    fn reach(&mut self, fate: Fate) -> Option<Rate>
        ensures rate { result ≡ rate_by fate }
        ensures device { self.new
            ≡ with_here self.old (stand_after_wake B.facts fate (here_of self.old)) }
    {
        match fate {
            Fate::Clean => {
                self.here.wake();
                Some(Rate::Com2)
            }
            Fate::BackLost | Fate::BackDamaged => {
                self.here.wake();
                None
            }
            Fate::OutLost | Fate::OutDamaged | Fate::NoWake | Fate::Silent => None,
        }
    }

    /// Whether the pulse alone is lost, and the device, which was orderly or not, misses it.
    fn misses_pulse(&self, fate: Fate, orderly: bool) -> bool
        ensures { (before : Far) → orderly ≡ is_orderly before
            → result ≡ misses_pulse fate before self.now.device.far }
    {
        match fate {
            Fate::NoWake => orderly && self.here.device.misses_pulses(),
            Fate::Clean
            | Fate::OutLost
            | Fate::BackLost
            | Fate::OutDamaged
            | Fate::BackDamaged
            | Fate::Silent => false,
        }
    }

    /// The device misses the pulse, and hears the test read behind it alone. The rate of its
    /// reply is answered.
    fn miss_pulse(&mut self) -> Option<Rate>
        ensures rate { result
            ≡ option_map (λ reply. Rate.Com2) (hear self.old.device.far test_read).reply }
        ensures device { self.new
            ≡ with_here self.old (after_hearing B.facts (here_of self.old) test_read) }
    {
        let mut reply = Message::new();
        self.here
            .hear_into(&TEST_READ, &mut reply)
            .then_some(Rate::Com2)
    }

    /// The wake-up request is made of a device that was orderly before the steps, or not.
    fn make_wake(&mut self, fate: Fate, orderly: bool) -> Option<Rate>
        ensures rate { (before : Far) → orderly ≡ is_orderly before
            → result ≡ rate_found fate before self.old.device.far }
        ensures device { (before : Far) → orderly ≡ is_orderly before → self.new
            ≡ with_here self.old (reached_by B.facts fate before (here_of self.old)) }
    {
        if self.misses_pulse(fate, orderly) {
            self.miss_pulse()
        } else {
            self.reach(fate)
        }
    }

    /// The octets are sent. Answers whether a reply comes back; it is put into the buffer.
    fn pass(&mut self, fate: Fate, sent: &[u8], reply: &mut Message) -> bool
        ensures answer { octets_in_buffer result reply.new
            ≡ reply_by fate self.old.device.far sent.now }
        ensures device { self.new
            ≡ with_here self.old (stand_after_exchange B.facts fate (here_of self.old) sent.now) }
        ensures octets { fate ≡ Fate.BackDamaged
            → IfSome (hear self.old.device.far sent.now).reply AreOctets }
    {
        match fate {
            Fate::Clean => self.here.hear_into(sent, reply),
            Fate::BackLost => {
                let _ = self.here.hear_into(sent, reply);
                false
            }
            Fate::BackDamaged => {
                let comes = self.here.hear_into(sent, reply);
                damage(reply);
                comes
            }
            Fate::OutDamaged if sent.len() <= LONGEST => self.pass_damaged(sent, reply),
            Fate::OutDamaged | Fate::OutLost | Fate::NoWake | Fate::Silent => false,
        }
    }

    /// The octets are sent, and come damaged.
    fn pass_damaged(&mut self, sent: &[u8], reply: &mut Message) -> bool
        requires { length sent.now ≤ LONGEST }
        ensures answer { octets_in_buffer result reply.new
            ≡ (hear self.old.device.far (damaged_octets sent.now)).reply }
        ensures device { self.new
            ≡ with_here self.old
            (after_hearing B.facts (here_of self.old) (damaged_octets sent.now)) }
    {
        let mut message = Message::try_from(sent).unwrap();
        damage(&mut message);
        self.here.hear_into(message.as_slice(), reply)
    }

    /// Counts an exchange that ended so.
    fn count(&mut self, fate: Fate, answered: bool)
        ensures { (reply : List ℕ) → self.new ≡ record self.old {
          silence = silence_by_fate fate self.old.silence (if answered then Some reply else None);
        } }
    {
        self.line.silence = match (fate, answered) {
            (Fate::Clean, true) => 0,
            _ => (MAX_RETRY + 1).min(self.line.silence + 1),
        };
    }
}

impl<A: Allocator + Copy> Sim<Params, A> {
    ghost use Rattle.iol_sim.specs.Params.{AnsweredBy};

    /// A law of each such wire, without code of its own: each request of the record
    /// of the device at the far end, in their order, was answered by its parameters
    /// as they were then, and they are now what those requests made of them.
    #[tactic(auto, using(crate::proofs::Entries::stored))]
    pub fn record_is_answered_by_params(&self)
        ensures { AnsweredBy self.now.device.first self.now.device.far.carried self.now.device.app }
    {
        self.app_follows_record();
    }

    /// The same law of the device that isn't plugged in, where there is a second one.
    #[tactic(auto, using(crate::proofs::Entries::stored_away))]
    pub fn away_is_answered_by_params(&self)
        ensures { IfSome self.now.away (λ away. AnsweredBy away.device.first
            away.device.far.carried away.device.app) }
    {
        self.away_follows_record();
    }
}

/// Gives an answer up that doesn't come.
fn keep_if(answered: bool, answer: &mut Option<Message>)
    ensures { octets_in answer.new ≡ (if answered then octets_in answer.old else None) }
{
    if !answered {
        *answer = None;
    }
}

/// Flips bit 0 of the last octet of a message.
fn damage(message: &mut Message)
    ensures value { message.new.items ≡ damaged_octets message.old.items }
    ensures octets { AreOctets message.old.items }
{
    are_octets(message);
    if let Some(octet) = message.last_mut() {
        *octet ^= 1;
    }
}

/// A law without code of its own: octets are below 256.
fn are_octets(octets: &[u8])
    ensures { AreOctets octets.now }
{
    let _ = octets;
}

impl<P: App, A: Allocator + Copy, B: Beside<P>> Wire for Sim<P, A, B> {
    ghost use Rattle.iol_sim.specs.Sim.{sim_facts};
    ghost use Rattle.iol_sim.specs.CleanCalls.{exchanges_cleanly, wakes_cleanly};

    ghost facts = { sim_facts B.facts };

    ghost clean_exchanges = { exchanges_cleanly B.facts };

    ghost clean_wakes = { wakes_cleanly B.facts };

    fn wake(&mut self) -> Option<Rate> {
        page_and_room_stay();
        self.here.parts_are_regular();
        let orderly = self.here.is_orderly();
        let fate = self.prepare();
        self.make_wake(fate, orderly)
    }

    fn exchange(&mut self, sent: &[u8]) -> Option<Message> {
        page_and_room_stay();
        replies_are_read();
        damaged_replies_are_unread();
        one_flip_is_seen();
        self.here.parts_are_regular();
        let fate = self.prepare();
        let mut answer = Some(Message::new());
        let Some(reply) = &mut answer else {
            unreachable!()
        };
        let answered = self.pass(fate, sent, reply);
        self.count(fate, answered);
        keep_if(answered, &mut answer);
        answer
    }
}
