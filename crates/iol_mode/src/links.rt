//! A link, and what a turn makes of it.
ghost use Rattle.std.specs.Prelude.{◌≡◌, ◌<◌, Option, Some, None, true, IsTrue, IfSome, is_some};
ghost use Rattle.std.specs.Option.{option_copied, option_map};
ghost use Rattle.iol_mseq.specs.Shape.{startup_shape};
ghost use Rattle.iol_mseq.specs.Master.{HasMasterParts};
ghost use Rattle.iol_mseq.specs.Texts.{master_text};
ghost use Rattle.iol_far.specs.Octets.{octets_in};
ghost use Rattle.iol_link.specs.declared.wire.Rate.{Rate};
ghost use Rattle.iol_link.specs.WireFacts.{Wakes, Passes};
ghost use Rattle.iol_mode.specs.declared.configuration.Devices.TheVariants.{Own};
ghost use Rattle.iol_mode.specs.Kinds.{IsHonestFor};
ghost use Rattle.iol_mode.specs.Messages.{stays};
ghost use Rattle.iol_mode.specs.States.{StateFits, IsDown, Takes, is_behind, is_starting, mode_after_wake, next_state, outcome_with, any_device, startup_turned, preoperate_turned};
ghost use Rattle.iol_mode.specs.Stands.{OutcomeStands, AreReadFrom};
ghost use Rattle.iol_mode.specs.Next.{wire_of, outcome_of, step_layouts, message_out};
ghost use Rattle.iol_mode.specs.Turns.{IsStartTurn, IsStartTried, IsOperateTurn, IsRise, IsCycle, IsEnd};
ghost use Rattle.iol_mode.specs.Exchanges.{IsSending, text_out, IsJudged, IsExchanged};

use crate::configuration::{Configuration, Devices};
use crate::exchange::laws;
use crate::messages::copy_of;
use crate::states::{Down, LinkMode, Operate, Preoperate, Startup, State, Up};
use crate::why::Why;
use iol_link::{Attempt, Rate, Wire};
use iol_mseq::{Layout, MasterMsg, Message, Reply};
use iol_page::Layouts;
use std::marker::Model;

/// A link in the mode `S`, which owns the wire. It is for our own devices.
///
/// A clause sees the wire, and what is kept in the mode. On an honest wire whose device sees each
/// pulse both ends are level, outside `Down`: the device sleeps, or it comes from the state
/// before the message that is out by steps of its own and hearings of that message.
#[derive(Drop)]
pub struct Link<W: Wire, S: LinkMode> {
    wire: W,
    state: S,
}

impl<W: Wire, S: LinkMode> Model for Link<W, S> {
    ghost use Rattle.std.specs.Prelude.{IsTrue};
    ghost use Rattle.iol_mode.specs.declared.configuration.Devices.TheVariants.{Own};
    ghost use Rattle.iol_mode.specs.Kinds.{IsHonestFor};
    ghost use Rattle.iol_mode.specs.LinkValues.{LinkValue, link_code};

    ghost Value = { LinkValue W S };

    ghost coded = { link_code W.code S.code };

    ghost view = { λ link. record { wire = link.wire; state = link.state } };

    ghost invariant = { λ link. S.fits link.state
        × (IsHonestFor W.facts Own link.wire
        → S.stands link.state (W.facts.silence link.wire) (W.facts.far link.wire)) };
}

/// The link after a turn, in its new mode.
#[derive(Drop)]
pub enum Next<W: Wire> {
    Down(Link<W, Down>),
    Startup(Link<W, Startup>),
    Preoperate(Link<W, Preoperate>),
    /// With the good reply that the turn brought, none where it brought none.
    Operate(Link<W, Operate>, Option<Reply>),
}

/// One exchange of the message that is out.
#[tactic(auto, using(crate::proofs::Exchanging::saw_pulses, crate::proofs::Exchanging::exchange_gives))]
fn exchanged<W: Wire>(state: &mut State, wire: &mut W) -> Attempt
    requires fits { StateFits state.old }
    requires sends { IsSending state.old }
    ensures { IsExchanged W.facts wire.old state.old wire.new result state.new }
{
    laws();
    let received = pass(state, wire);
    receive(state, &received)
}

/// Takes what came back, as it is at a link that expects any device.
fn receive(state: &mut State, received: &Option<Message>) -> Attempt
    requires fits { StateFits state.old }
    requires sends { IsSending state.old }
    ensures { IsJudged any_device state.old (octets_in received.now) result state.new }
{
    state.receives(received, &Configuration::any()).copied()
}

/// The message that is out goes out.
fn pass<W: Wire>(state: &State, wire: &mut W) -> Option<Message>
    requires fits { StateFits state.now }
    requires sends { IsSending state.now }
    ensures gives { W.facts.exchange_gives wire.old (text_out state.now) result wire.new }
    ensures passes { Passes W.facts wire.old (text_out state.now) result wire.new }
    ensures honesty { W.facts.honest wire.new ≡ W.facts.honest wire.old }
{
    let sent = state.sends();
    wire.exchange(sent.as_slice())
}

/// A link in any mode, which goes from one to the next in place.
pub type AnyLink<W> = Link<W, State>;

impl<W: Wire> Link<W, State> {
    /// A link over this wire, which no turn was made on.
    pub fn open(wire: W) -> AnyLink<W>
        ensures wire { result.wire ≡ wire }
        ensures state { result.state ≡ State.Down (record { why = None }) }
    {
        Link {
            wire,
            state: State::Down(Down { why: None }),
        }
    }

    /// The mode, with what is kept in it.
    pub fn state(&self) -> &State
        ensures state { result.now ≡ self.now.state }
        ensures fits { StateFits self.now.state }
    {
        &self.state
    }

    /// The wire, given back.
    pub fn close(self) -> W
        ensures { result ≡ self.wire }
    {
        let Link { wire, state: _ } = self;
        wire
    }

    /// Takes the link down, without a reason.
    pub fn leave(&mut self)
        ensures wire { self.new.wire ≡ self.old.wire }
        ensures state { self.new.state ≡ State.Down (record { why = None }) }
    {
        self.state = State::Down(Down { why: None });
    }

    /// Makes a wake-up request, in Down: STARTUP, where the device answers it, else
    /// Down with `NoWake`. Answers the rate of that device.
    pub fn wake(&mut self) -> Option<Rate>
        requires { IsDown self.old.state }
        ensures honest { W.facts.honest self.new.wire ≡ W.facts.honest self.old.wire }
        ensures quiet { W.facts.silence self.new.wire ≡ W.facts.silence self.old.wire }

        // the wire is woken once; its answer alone says what becomes of the mode
        ensures called { W.facts.wake_gives self.old.wire result self.new.wire }
        ensures passes { Wakes W.facts self.old.wire result self.new.wire }
        ensures state { self.new.state ≡ next_state (mode_after_wake Devices.Own (is_some result)) }

        // on an honest wire, where the device sees each pulse
        ensures stands { IsHonestFor W.facts Own self.old.wire
            → OutcomeStands (mode_after_wake Devices.Own (is_some result))
            (W.facts.silence self.new.wire)
            (W.facts.far self.new.wire) }
    {
        laws();
        let rate = self.wire.wake();
        self.state.receives_wake(rate, Devices::Own);
        rate
    }

    /// Sends the message of a start-up's step once, in STARTUP and in PREOPERATE.
    ///
    /// With its good reply the next step begins: the page is read from 0x02 to 0x0B and then
    /// checked, MasterIdent and DevicePreoperate are written; then, in PREOPERATE, MasterCycleTime
    /// and DeviceOperate. To a device of V1.0 MasterCycleTime and DeviceOperate are written in
    /// STARTUP (profile). With the good reply to DeviceOperate the mode is OPERATE. Down with a
    /// fault of the page, or with `Lost` at the third attempt in a row that had no good reply.
    pub fn rise(&mut self) -> Attempt
        requires { is_starting self.old.state ≡ true }
        ensures turn { IsStartTurn W.facts self.old.wire self.old.state
            (outcome_with result self.new.state) self.new.wire }
        ensures tried { IsStartTried W.facts self.old.wire self.old.state result self.new.wire }
    {
        exchanged(&mut self.state, &mut self.wire)
    }

    /// Sends once the message that is out, where there is one, else this one, in OPERATE.
    ///
    /// The message has the sizes of the layout, and is no command that leaves OPERATE.
    /// Down with `Lost` at the third attempt in a row that had no good reply.
    pub fn exchange(&mut self, message: &MasterMsg) -> Attempt
        requires takes { Takes self.old.state message.now }
        requires stays { IsTrue (stays message.now) }
        ensures turn { IsOperateTurn W.facts self.old.wire self.old.state message.now
            (outcome_with result self.new.state) self.new.wire }
        ensures ends { IsEnd result (outcome_with result self.new.state) }
    {
        self.state.put_out(copy_of(message));
        exchanged(&mut self.state, &mut self.wire)
    }

    /// The link in its mode, after a turn whose attempt ended so.
    fn next(self, attempt: Attempt) -> Next<W>
        ensures wire { wire_of result ≡ self.wire }
        ensures outcome { outcome_of result ≡ outcome_with attempt self.state }
    {
        let Link { wire, state } = self;
        match state {
            State::Down(state) => Next::Down(Link { wire, state }),
            State::Startup(state) => Next::Startup(Link { wire, state }),
            State::Preoperate(state) => Next::Preoperate(Link { wire, state }),
            State::Operate(state) => {
                let link = Link { wire, state };
                match attempt {
                    Attempt::Got(reply) => Next::Operate(link, Some(reply)),
                    Attempt::Retry | Attempt::Lost => Next::Operate(link, None),
                }
            }
        }
    }
}

impl<W: Wire, S: LinkMode> Link<W, S> {
    /// The wire.
    pub fn wire(&self) -> &W
        ensures { result.now ≡ self.now.wire }
    {
        &self.wire
    }
}

impl<W: Wire, S: Up + Drop> Link<W, S> {
    /// Gives the link up, without a reason.
    pub fn down(self) -> Link<W, Down>
        ensures wire { result.wire ≡ self.wire }
        ensures why { result.state.why ≡ None }
    {
        Link::new(self.wire)
    }
}

impl<W: Wire> Link<W, Down> {
    /// A link over this wire, which no turn was made on.
    pub fn new(wire: W) -> Link<W, Down>
        ensures wire { result.wire ≡ wire }
        ensures why { result.state.why ≡ None }
    {
        Link {
            wire,
            state: Down { why: None },
        }
    }

    /// Why the link is down; none where it is new, or was taken down.
    pub fn why(&self) -> Option<Why>
        ensures { result ≡ self.now.state.why }
    {
        self.state.why
    }

    /// The wire, given back.
    pub fn into_wire(self) -> W
        ensures { result ≡ self.wire }
    {
        self.wire
    }

    /// Makes a wake-up request: STARTUP, where the device answers it, else Down with `NoWake`.
    pub fn turn(self) -> Next<W>
        ensures honest { W.facts.honest (wire_of result) ≡ W.facts.honest self.wire }
        ensures quiet { W.facts.silence (wire_of result) ≡ W.facts.silence self.wire }

        // the wire is woken once; its answer alone says what becomes of the mode
        ensures wakes { (answer : Option Rate)
            × W.facts.wake_gives self.wire answer (wire_of result)
            × Wakes W.facts self.wire answer (wire_of result)
            × (outcome_of result ≡ mode_after_wake Devices.Own (is_some answer)) }

        // on an honest wire, where the device sees each pulse
        ensures stands { IsHonestFor W.facts Own self.wire
            → OutcomeStands (outcome_of result) (W.facts.silence (wire_of result))
            (W.facts.far (wire_of result)) }
    {
        let mut link = Link {
            wire: self.wire,
            state: State::Down(self.state),
        };
        link.wake();
        link.next(Attempt::Retry)
    }
}

impl<W: Wire> Link<W, Startup> {
    /// Sends the message of the step once.
    ///
    /// With its good reply the next step begins: the page is read from 0x02 to 0x0B
    /// and then checked, MasterIdent and DevicePreoperate are written. To a device of
    /// V1.0 MasterCycleTime and DeviceOperate are written in their place, and with the
    /// good reply to DeviceOperate the mode is OPERATE (profile). Down with a fault of
    /// the page, or with `Lost` at the third attempt in a row that had no good reply.
    pub fn turn(self) -> Next<W>
        ensures { IsRise W.facts self.wire (is_behind self.state.step) startup_shape
            self.state.sent.message (startup_turned any_device self.state) (outcome_of result)
            (wire_of result) }
    {
        let mut link = Link {
            wire: self.wire,
            state: State::Startup(self.state),
        };
        let attempt = link.rise();
        link.next(attempt)
    }

    /// The octets that the next turn sends.
    pub fn octets(&self) -> Message
        ensures { result.items ≡ master_text startup_shape self.now.state.sent.message }
    {
        self.state.octets()
    }

    /// The layouts that the page asks for, once this start-up has checked it.
    pub fn layouts_read(&self) -> Option<&Layouts>
        ensures layouts_read { option_copied result ≡ step_layouts self.now.state.step }
        ensures page { IsHonestFor W.facts Own self.now.wire
            → IfSome result (λ t. AreReadFrom t.now (W.facts.far self.now.wire)) }
    {
        self.state.layouts_read()
    }
}

impl<W: Wire> Link<W, Preoperate> {
    /// Sends MasterCycleTime, or after its good reply DeviceOperate, once.
    ///
    /// With the good reply to DeviceOperate the mode is OPERATE. Down with `Lost`
    /// at the third attempt in a row that had no good reply.
    pub fn turn(self) -> Next<W>
        ensures { IsRise W.facts self.wire true self.state.pre
            self.state.sent.message (preoperate_turned self.state) (outcome_of result)
            (wire_of result) }
    {
        let mut link = Link {
            wire: self.wire,
            state: State::Preoperate(self.state),
        };
        let attempt = link.rise();
        link.next(attempt)
    }

    /// The octets that the next turn sends.
    pub fn octets(&self) -> Message
        ensures { result.items ≡ master_text self.now.state.pre self.now.state.sent.message }
    {
        self.state.octets()
    }

    /// The layouts that the page asks for.
    pub fn layouts_read(&self) -> Option<&Layouts>
        ensures layouts_read { option_copied result ≡ Some self.now.state.layouts }
        ensures page { IsHonestFor W.facts Own self.now.wire
            → IfSome result (λ t. AreReadFrom t.now (W.facts.far self.now.wire)) }
    {
        Some(&self.state.layouts)
    }
}

impl<W: Wire> Link<W, Operate> {
    /// Sends once the message that is out, where there is one, else this one.
    ///
    /// The message has the sizes of the layout, and is no command that leaves OPERATE.
    /// Down with `Lost` at the third attempt in a row that had no good reply.
    pub fn turn(self, message: &MasterMsg) -> Next<W>
        requires fits { HasMasterParts self.state.layouts.run message.now }
        requires stays { IsTrue (stays message.now) }
        ensures { IsCycle W.facts self.wire self.state
            message.now (outcome_of result) (wire_of result) }
    {
        let mut link = Link {
            wire: self.wire,
            state: State::Operate(self.state),
        };
        let attempt = link.exchange(message);
        link.next(attempt)
    }

    /// The message that had no good reply yet.
    pub fn out(&self) -> Option<&MasterMsg>
        ensures out { option_map (λ m. m.now) result ≡ message_out self.now.state.out }
        ensures fits { IfSome result (λ m. HasMasterParts self.now.state.layouts.run m.now
            × IsTrue (stays m.now)) }
    {
        self.state.out()
    }

    /// The layout of OPERATE.
    pub fn layout(&self) -> Layout
        ensures { result ≡ self.now.state.layouts.run }
    {
        self.state.layouts.run
    }

    /// The layouts that the page asks for.
    pub fn layouts_read(&self) -> Option<&Layouts>
        ensures layouts_read { option_copied result ≡ Some self.now.state.layouts }
        ensures page { IsHonestFor W.facts Own self.now.wire
            → IfSome result (λ t. AreReadFrom t.now (W.facts.far self.now.wire)) }
    {
        Some(&self.state.layouts)
    }
}
