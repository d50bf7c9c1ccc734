//! One call of the wire, in two halves without it: what goes out, and what is made of what
//! comes back.
ghost use Rattle.std.specs.Prelude.{◌≡◌, ◌<◌, ◌↔◌, [], IsTrue, IsSome, IfSome, is_some};
ghost use Rattle.iol_octets.specs.Checksum.{has_checksum};
ghost use Rattle.iol_mseq.specs.Master.{HasMasterParts};
ghost use Rattle.iol_mseq.specs.Texts.{master_text};
ghost use Rattle.iol_far.specs.Far.{Far};
ghost use Rattle.iol_far.specs.Octets.{octets_in};
ghost use Rattle.iol_link.specs.Attempts.{attempt_in, attempt_of, good_reply, most_attempts};
ghost use Rattle.iol_mode.specs.Messages.{stays};
ghost use Rattle.iol_mode.specs.States.{StateFits, Takes, IsDown, IsStartup, IsPreoperate, outcome_with, next_state, mode_after_wake, sending_after_try, left_by, any_device};
ghost use Rattle.iol_mode.specs.Exchanges.{IsSending, IsOperateSending, AreFew, text_out, layout_out, state_with_out, putting_instead, mode_after_reply, attempt_result, IsJudged, ExchangeGives, StandsOn, AcceptedBy, WakeStands};
ghost use Rattle.iol_mode.specs.Laws.{Laws};

use crate::configuration::{Configuration, Devices};
use crate::states::{Startup, State, operate_done, preoperate_done, startup_done, woken};
use iol_far::{
    devices_leave_their_mode, ends_stay_level, links_stay_level, page_and_room_stay,
    texts_are_heard,
};
use iol_link::{AttemptView, Handler, Rate, exchanges_keep_ends_level};
use iol_mseq::{Layout, MasterMsg, Message, write_master};
use iol_page::pages_ask_for_layouts;

/// What is known of every exchange over an honest wire.
pub(crate) fn laws()
    ensures { Laws }
{
    pages_ask_for_layouts();
    texts_are_heard();
    ends_stay_level();
    links_stay_level();
    devices_leave_their_mode();
    exchanges_keep_ends_level();
    page_and_room_stay();
}

impl State {
    /// The octets of the message that is out.
    pub fn sends(&self) -> Message
        requires fits { StateFits self.now }
        requires sends { IsSending self.now }
        ensures text { result.items ≡ text_out self.now }
        ensures checksum { IsTrue (has_checksum 1 result.items) }
    {
        let mut octets = Message::new();
        self.write(&mut octets);
        octets
    }

    /// The same, into a buffer that is empty.
    pub fn write(&self, octets: &mut Message)
        requires fits { StateFits self.now }
        requires sends { IsSending self.now }
        requires empty { octets.old.items ≡ [] }
        ensures text { octets.new.items ≡ text_out self.now }
        ensures checksum { IsTrue (has_checksum 1 octets.new.items) }
    {
        write_master(&self.layout(), self.sent().message(), octets);
    }

    /// The message that is out.
    fn sent(&self) -> &Handler
        requires fits { StateFits self.now }
        requires sends { IsSending self.now }
        ensures text { master_text (layout_out self.now) result.now.message ≡ text_out self.now }
        ensures parts { HasMasterParts (layout_out self.now) result.now.message }
    {
        match self {
            State::Startup(startup) => &startup.sent,
            State::Preoperate(preoperate) => &preoperate.sent,
            State::Operate(operate) => operate.out.as_ref().unwrap(),
            State::Down(_) => unreachable!(),
        }
    }

    /// The layout in which the messages of the mode go out.
    pub fn layout(&self) -> Layout
        ensures { result ≡ layout_out self.now }
    {
        match self {
            State::Down(_) | State::Startup(_) => Layout::startup(),
            State::Preoperate(preoperate) => preoperate.pre,
            State::Operate(operate) => operate.layouts.run,
        }
    }

    /// In OPERATE: this message is out from now on, where none is out.
    ///
    /// Nothing went out yet: both ends stand as before, and the far end accepts the octets.
    ///
    /// Rule LINK-10.
    #[tactic(auto, using(crate::proofs::Exchanging::put_accepted))]
    pub fn put_out(&mut self, message: MasterMsg)
        requires fits { StateFits self.old }
        requires takes { Takes self.old message }
        requires stays { IsTrue (stays message) }
        ensures state { self.new ≡ state_with_out message self.old }
        ensures fits { StateFits self.new }
        ensures sends { IsOperateSending self.new }
        ensures stands { StandsOn self.old self.new }
        ensures accepted { (far : Far) → AcceptedBy self.new far }
    {
        laws();
        put_out(self, message);
    }

    /// In OPERATE: this message is out in place of the one that is, whose attempts count on.
    #[tactic(auto, using(crate::proofs::Exchanging::instead_stands))]
    pub fn put_instead(&mut self, message: MasterMsg)
        requires fits { StateFits self.old }
        requires sends { IsOperateSending self.old }
        requires takes { Takes self.old message }
        requires stays { IsTrue (stays message) }
        ensures state { self.new ≡ putting_instead message self.old }
        ensures fits { StateFits self.new }
        ensures sends { IsOperateSending self.new }

        // over an honest wire
        ensures stands { StandsOn self.old self.new }
    {
        laws();
        put_instead(self, message);
    }

    /// Takes what came back to the message that is out, and judges it: octets, or nothing.
    ///
    /// Without a good reply the message stays out, and the third attempt in a row has lost
    /// the link. What comes back alone says what becomes of the mode; what a start-up asks of the
    /// device counts where its page becomes whole.
    ///
    /// Rule LINK-2.
    #[tactic(auto, using(crate::proofs::Exchanging::exchange_gives))]
    pub fn receives<'a>(
        &mut self,
        received: &'a Option<Message>,
        configuration: &Configuration,
    ) -> AttemptView<'a>
        requires fits { StateFits self.old }
        requires sends { IsSending self.old }
        ensures state { outcome_with (attempt_in result) self.new
            ≡ mode_after_reply configuration.now self.old (octets_in received.now) }
        ensures fits { StateFits self.new }
        ensures few { AreFew self.old }
        ensures attempt { attempt_in result ≡ attempt_result self.old (octets_in received.now) }

        // over an honest wire
        ensures gives { ExchangeGives self.old (octets_in received.now)
            (outcome_with (attempt_in result) self.new) }
    {
        laws();
        take_reply(self, received, configuration)
    }

    /// Whether a wake goes out in place of a message: in Down.
    pub fn sends_wake(&self) -> bool
        ensures { IsTrue result ↔ IsDown self.now }
    {
        matches!(self, State::Down(_))
    }

    /// Takes what a wake brought: STARTUP, where the device answered it, else Down with `NoWake`.
    /// In a port for any device STARTUP begins with DeviceStartup, else with the page.
    #[tactic(auto, using(crate::proofs::Startups::wake_stands))]
    pub fn receives_wake(&mut self, rate: Option<Rate>, devices: Devices)
        requires { IsDown self.old }
        ensures state { self.new ≡ next_state (mode_after_wake devices (is_some rate)) }
        ensures fits { StateFits self.new }

        // over an honest wire
        ensures stands { WakeStands devices (is_some rate) }
    {
        laws();
        woken(self, rate.is_some(), devices);
    }
}

fn take_reply<'a>(
    state: &mut State,
    received: &'a Option<Message>,
    configuration: &Configuration,
) -> AttemptView<'a>
    requires fits { StateFits state.old }
    requires sends { IsSending state.old }
    ensures { IsJudged configuration.now state.old (octets_in received.now) (attempt_in result)
        state.new }
{
    match state {
        State::Startup(_) => startup_receives(state, received, configuration),
        State::Preoperate(_) => preoperate_receives(state, received),
        State::Operate(_) => operate_receives(state, received),
        State::Down(_) => unreachable!(),
    }
}

fn put_out(state: &mut State, message: MasterMsg)
    requires takes { Takes state.old message }
    ensures { state.new ≡ state_with_out message state.old }
{
    let State::Operate(operate) = state else {
        unreachable!()
    };
    if operate.out.is_none() {
        operate.out = Some(Handler::new(message));
    }
}

fn put_instead(state: &mut State, message: MasterMsg)
    requires sends { IsOperateSending state.old }
    ensures { state.new ≡ putting_instead message state.old }
{
    let State::Operate(operate) = state else {
        unreachable!()
    };
    if let Some(sent) = operate.out.take() {
        operate.out = Some(sent.with(message));
    }
}

/// What came back in STARTUP.
fn startup_receives<'a>(
    state: &mut State,
    received: &'a Option<Message>,
    configuration: &Configuration,
) -> AttemptView<'a>
    requires { IsStartup state.old }
    ensures { IsJudged configuration.now state.old (octets_in received.now) (attempt_in result)
        state.new }
{
    let State::Startup(Startup { sent, .. }) = state else {
        unreachable!()
    };
    let attempt = sent.judge_in_place(&Layout::startup(), received);
    startup_done(state, &attempt, configuration);
    attempt
}

/// What came back in PREOPERATE.
fn preoperate_receives<'a>(state: &mut State, received: &'a Option<Message>) -> AttemptView<'a>
    requires { IsPreoperate state.old }
    ensures { IsJudged any_device state.old (octets_in received.now) (attempt_in result)
        state.new }
{
    let State::Preoperate(preoperate) = state else {
        unreachable!()
    };
    let attempt = preoperate.sent.judge_in_place(&preoperate.pre, received);
    preoperate_done(state, &attempt);
    attempt
}

/// What came back in OPERATE.
fn operate_receives<'a>(state: &mut State, received: &'a Option<Message>) -> AttemptView<'a>
    requires fits { StateFits state.old }
    requires sends { IsOperateSending state.old }
    ensures { IsJudged any_device state.old (octets_in received.now) (attempt_in result)
        state.new }
{
    let State::Operate(operate) = state else {
        unreachable!()
    };
    let attempt = judge_out(&mut operate.out, received, &operate.layouts.run);
    operate_done(state, &attempt);
    attempt
}

/// The message is out afterwards only where it is to be sent again.
fn judge_out<'a>(
    out: &mut Option<Handler>,
    received: &'a Option<Message>,
    layout: &Layout,
) -> AttemptView<'a>
    requires { IsSome out.old }
    ensures { IfSome out.old (λ sent. (sent.tries < most_attempts)
        × (attempt_in result
        ≡ attempt_of sent.tries (good_reply layout.now sent.message (octets_in received.now)))
        × (out.new
        ≡ left_by (attempt_in result)
        (sending_after_try sent (good_reply layout.now sent.message (octets_in received.now))))) }
{
    let Some(sent) = out else { unreachable!() };
    let attempt = sent.judge_in_place(layout, received);
    if !matches!(attempt, AttemptView::Retry) {
        *out = None;
    }
    attempt
}
