//! A core: the link in its mode, and the session over it, without the wire.
ghost use Rattle.std.specs.Prelude.{◌≡◌, None, Some, false, is_some, IsSome, IsTrue, OnOk, OnErr, ◌&&◌, ◌≢◌};
ghost use Rattle.std.specs.Result.{result_err};
ghost use Rattle.std.specs.Option.{option_copied, option_map};
ghost use Rattle.iol_far.specs.Octets.{octets_in};
ghost use Rattle.iol_link.specs.Attempts.{attempt_in};
ghost use Rattle.iol_mode.specs.States.{IsDown, is_reset, outcome_with};
ghost use Rattle.iol_mode.specs.Exchanges.{IsSending, StandsOn, WakeStands};
ghost use Rattle.iol_app.specs.EventReading.{is_refused};
ghost use Rattle.iol_app.specs.State.{aborted_in, session_after_begin, session_expecting, session_with_cycle, output_refusal};
ghost use Rattle.iol_app.specs.Requests.{request_under_way, request_after};
ghost use Rattle.iol_app.specs.Due.{is_ready};
ghost use Rattle.iol_app.specs.Reports.{ReportFits};
ghost use Rattle.iol_app.specs.StationState.{mode_in, why_in, page_in, operates, settled_session, NextFits, IsSettledReport, SessionFits};
ghost use Rattle.iol_app.specs.Asking.{asked_in, beginning_in, outgoing_of};
ghost use Rattle.iol_app.specs.CoreCalls.{opened_core, restarted_core, wanting_core};
ghost use Rattle.iol_app.specs.CoreTurns.{after_missed, settled_core, after_wake, received_mode, IsRight};
ghost use Rattle.iol_app.specs.Pieces.{IsAskedOut, IsOutAsAsked, IsSettledBy, IsTakenUp, IsPassed, IsWholeTurn, PutsOut, WakeSteps, ReceiveSteps};
ghost use Rattle.iol_app.specs.CallSteps.{NewSteps, BeginSteps, DenySteps, AbortSteps, CancelSteps, WantSteps, RestartSteps, LinkStands};

use crate::event_work::EventRoom;
use crate::laws::station_laws;
use crate::message::blank;
use crate::output::OutputFault;
use crate::session::PortSession;
use crate::transmission::{Outgoing, Transmission};
use crate::wire_result::{Out, WireResult};
use crate::{Mode, Said};
use iol_far::page_and_room_stay;
use iol_image::Image;
use iol_isdu::{Cause, Request};
use iol_link::{AttemptView, Rate, Wire};
use iol_mode::{Devices, Down, State, Why};
use iol_mseq::{Layout, Message, encode_master};
use iol_page::{CycleTime, Identity, Page};
use std::marker::Model;

/// How the master's end of a port is.
#[derive(Clone, Copy, Debug, PartialEq, Eq)]
pub struct Status {
    pub mode: Mode,
    /// Why the link is down, where a turn led there.
    pub why: Option<Why>,
    /// Whether a StatusCode was refused since the last start-up.
    pub event_form: bool,
}

/// The master's end of one port without the wire: it never calls out. It gives the octets to
/// send, and takes what came.
///
/// A turn is two calls: [`send`](Core::send), and one of [`receive`](Core::receive) and
/// [`receive_wake`](Core::receive_wake). Between them every other call may come. What comes back
/// is judged by what was sent, whatever was called meanwhile.
///
/// A clause sees the mode and the session. It says exactly what becomes of them, and how both
/// ends stand afterwards where they stood together: with any far end, by any honest exchange.
#[derive(Drop)]
pub struct Core {
    state: State,
    session: PortSession,
}

impl Model for Core {
    ghost use Rattle.iol_mode.specs.States.{StateFits};
    ghost use Rattle.iol_app.specs.StationState.{SessionFits};
    ghost use Rattle.iol_app.specs.Core.{CoreState};

    ghost Value = { CoreState };

    ghost view = { λ c. record { state = c.state; session = c.session } };

    ghost invariant = { λ c. StateFits c.state × SessionFits c.state c.session };
}

impl Core {
    /// A core for these devices whose link is down; a request is cut off at the busy reply of
    /// this number.
    pub fn new(busy: u16, devices: Devices) -> Core
        ensures core { result ≡ opened_core devices busy }
        ensures steps { NewSteps result }
    {
        Core {
            state: State::Down(Down { why: None }),
            session: PortSession::new(busy, devices),
        }
    }

    /// Whether the device was reset in this session, or has left the mode that it was in before:
    /// it holds nothing of a request of before.
    pub fn is_reset(&self) -> bool
        ensures { result ≡ is_reset self.now.state }
    {
        self.state.is_reset()
    }

    /// The mode, why the link is down, and whether a StatusCode was refused since
    /// the last start-up.
    pub fn status(&self) -> Status
        ensures mode { result.mode ≡ mode_in self.now.state }
        ensures why { result.why ≡ why_in self.now.state }
        ensures event_form { result.event_form ≡ is_refused self.now.session.events.reading }
    {
        let (mode, why) = match &self.state {
            State::Down(down) => (Mode::Down, down.why),
            State::Startup(_) => (Mode::Startup, None),
            State::Preoperate(_) => (Mode::Preoperate, None),
            State::Operate(_) => (Mode::Operate, None),
        };
        Status {
            mode,
            why,
            event_form: self.session.event_form(),
        }
    }

    /// The process data in of the last good reply in OPERATE, none where it was invalid.
    pub fn image(&self) -> Option<&Image>
        ensures { option_copied result ≡ self.now.session.image }
    {
        self.session.image()
    }

    /// Whether no message is out and the next one is IDLE 1, with this room for events: then a
    /// request may be begun.
    pub fn ready(&self, room: EventRoom) -> bool
        ensures value { result ≡ (operates self.now.state && is_ready self.now.session room) }
        ensures free { IsTrue result → (mode_in self.now.state ≡ Mode.Operate)
            × (self.now.session.current ≡ None) }
    {
        matches!(self.state, State::Operate(_)) && self.session.ready(room)
    }

    /// What `send` will give, if this request is begun before it where it may be.
    pub fn asks(&self, room: EventRoom, next: Option<&Request>) -> Transmission
        ensures { result ≡ asked_in self.now.state
            (beginning_in (option_copied next.entry) self.now.state self.now.session room) room }
    {
        match &self.state {
            State::Down(_) => Transmission::Wake,
            State::Startup(startup) => goes_out(Layout::startup(), startup.octets()),
            State::Preoperate(preoperate) => goes_out(preoperate.pre, preoperate.octets()),
            State::Operate(operate) => {
                let layout = &operate.layouts.run;
                let octets = match operate.out() {
                    Some(message) => encode_master(layout, message),
                    None => encode_master(layout, &self.session.message_due(room, next)),
                };
                goes_out(*layout, octets)
            }
        }
    }

    /// Whether the device has ISDU, as the last start-up that read a good page told; none before.
    pub fn isdu(&self) -> Option<bool>
        ensures { result ≡ self.now.session.isdu }
    {
        self.session.isdu()
    }

    /// A law, without code: what may happen in a turn in which a request is denied,
    /// because the device has no ISDU.
    pub fn may_deny(&self)
        requires operate { mode_in self.now.state ≡ Mode.Operate }
        requires free { self.now.session.current ≡ None }
        requires isdu { self.now.session.isdu ≡ Some false }
        ensures steps { DenySteps self.now }
    {}

    /// Begins a request, in OPERATE, while none is under way, at a device that has ISDU.
    pub fn begin(&mut self, request: Request)
        requires operate { mode_in self.old.state ≡ Mode.Operate }
        requires free { self.old.session.current ≡ None }
        requires isdu { self.old.session.isdu ≢ Some false }
        ensures core { self.new
            ≡ record self.old { session = session_after_begin request self.old.session } }
        ensures steps { BeginSteps request self.old self.new }
    {
        self.session.begin(request);
    }

    /// Lets an abort of the request under way wait. A second one changes nothing:
    /// the first cause stays.
    ///
    /// A message that is out is repeated first, and may yet bring the answer. Then an ABORT
    /// goes out, behind an output command that is due; its good reply cuts off the request.
    ///
    /// Both ends stand as before where the cause is `BusyTooLong`, and the device was busy as
    /// often as it may be; where it is `Cancelled` the request has the mark that the program
    /// asked to cut it off. No clause says what becomes of an abort for another cause there.
    pub fn abort(&mut self, cause: Cause)
        requires { IsSome self.old.session.current }
        ensures core { self.new
            ≡ record self.old { session = aborted_in cause self.old.session } }
        ensures steps { AbortSteps cause self.old self.new }
        ensures cancel { CancelSteps cause self.old self.new }
    {
        self.session.abort(cause);
    }

    /// Wants this output. Refused, with nothing changed, by the first of these that holds:
    /// - 34 `NoLayout`: no start-up has told the lengths yet;
    /// - 29 `WrongImageLength`: the image has not the length that was told last.
    pub fn set_output(&mut self, image: &Image) -> Result<(), OutputFault>
        ensures refused { result_err result ≡ output_refusal image.now self.old.session.layout }
        ensures ok { OnOk result (self.new ≡ wanting_core (Some image.now) self.old) }
        ensures err { OnErr result (self.new ≡ self.old) }
        ensures steps { OnOk result (WantSteps self.old self.new) }
    {
        self.session.set_output(image)
    }

    /// Wants no output.
    pub fn clear_output(&mut self)
        ensures core { self.new ≡ wanting_core None self.old }
        ensures steps { WantSteps self.old self.new }
    {
        self.session.clear_output();
    }

    /// Expects this device, or any, from the next page on that a start-up has read whole.
    pub fn expect(&mut self, identity: Option<Identity>)
        ensures core { self.new
            ≡ record self.old { session = session_expecting identity self.old.session } }
        ensures steps { WantSteps self.old self.new }
    {
        self.session.expect(identity);
    }

    /// Has the next start-ups write this cycle time to the device, where it is at least the
    /// device's MinCycleTime; else, and for none, MinCycleTime.
    pub fn set_cycle(&mut self, cycle: Option<CycleTime>)
        ensures core { self.new
            ≡ record self.old { session = session_with_cycle cycle self.old.session } }
        ensures steps { WantSteps self.old self.new }
    {
        self.session.pace(cycle);
    }

    /// The device's page, once the start-up of the present session has read it whole and
    /// checked it; none before, and in down.
    ///
    /// Rule PORT-11.
    pub fn page(&self) -> Option<&Page>
        ensures { option_map (λ p. p.now) result ≡ page_in self.now.state self.now.session }
    {
        match &self.state {
            State::Down(_) => None,
            State::Startup(_) | State::Preoperate(_) | State::Operate(_) => self.session.page(),
        }
    }

    /// A law, without code: in OPERATE, where alone a request is begun and an output goes out,
    /// the page is that of the device that was expected when it was checked.
    pub fn device_is_right(&self)
        ensures { IsRight self.now }
    {
        let _ = &self.session;
    }

    /// Takes the link down. Answers whether a request was under way, which is cut off.
    ///
    /// What was sent before and isn't answered yet has to be answered first: else the device
    /// might be handed a request by octets of which nobody keeps that they went out.
    pub fn restart(&mut self) -> bool
        ensures core { self.new ≡ restarted_core self.old }
        ensures cut { result ≡ is_some self.old.session.current }
        ensures steps { RestartSteps self.old self.new }
    {
        self.state = State::Down(Down { why: None });
        self.session.leave()
    }

    /// What goes out: in down a wake; else the message that is out, unchanged; where none is, a
    /// new one for what is due, which is out from now on.
    ///
    /// Until it is answered the same octets are given again, and nothing changes.
    ///
    /// Rule PORT-8.
    pub fn send(&mut self, room: EventRoom) -> Transmission
        ensures puts { PutsOut room self.old self.new }
        ensures says { IsAskedOut result self.new.state }
        ensures asked { result ≡ asked_in self.old.state self.old.session room }
    {
        if self.put_next(room) {
            goes_out(self.state.layout(), self.state.sends())
        } else {
            Transmission::Wake
        }
    }

    /// Puts out a new message, where one goes out. Answers whether a message is out: else a wake
    /// is to be sent.
    fn put_next(&mut self, room: EventRoom) -> bool
        ensures puts { PutsOut room self.old self.new }
        ensures out { IsOutAsAsked result (asked_in self.old.state self.old.session room)
            self.new.state }
    {
        self.put_due(room);
        !self.state.sends_wake()
    }

    /// In OPERATE a message for what is due is out from now on, where none was.
    #[tactic(auto, using(std::proofs::lemmas::Grind::common_steps, crate::proofs::Pieces::same_sends))]
    fn put_due(&mut self, room: EventRoom)
        ensures { PutsOut room self.old self.new }
    {
        station_laws();
        self.session.is_valid();
        let State::Operate(operate) = &self.state else {
            return;
        };
        if operate.out.is_none() {
            let mut message = blank();
            self.session.new_message(room, &mut message);
            self.state.put_out(message);
        }
    }

    /// Takes what a wake brought: a start-up begins, or the link is still down.
    pub fn receive_wake(&mut self, rate: Option<Rate>)
        requires { IsDown self.old.state }
        ensures core { self.new ≡ after_wake (is_some rate) self.old.session }
        ensures report_fits { ReportFits EventRoom.Full self.old.session Said.Idle
            self.new.session }
        ensures steps { WakeSteps self.old (is_some rate) self.new }
    {
        station_laws();
        self.take_wake(rate);
    }

    fn take_wake(&mut self, rate: Option<Rate>)
        requires { IsDown self.old.state }
        ensures core { self.new ≡ after_wake (is_some rate) self.old.session }
        ensures still { SessionFits self.old.state self.old.session }
        ensures stands { WakeStands self.old.session.configuration.devices (is_some rate) }
    {
        let devices = self.session.configuration().devices;
        self.state.receives_wake(rate, devices);
        match rate {
            Some(_) => self.session.start(),
            None => {
                self.session.leave();
            }
        }
    }

    /// Takes what came back to the message that is out: octets, or nothing. It is judged by the
    /// message that was sent; without a good reply that stays out, or at a port for any device a
    /// question in its place, and the third attempt in a row has lost the link.
    ///
    /// It says `Reported`, `Answered` or `Cut` where that happened, else `Busy` where a request
    /// is under way afterwards, else `Idle`, whatever `report` held. It answers what the exchange
    /// brought.
    pub fn receive(&mut self, received: &Option<Message>, report: &mut Said) -> WireResult
        requires { IsSending self.old.state }
        ensures taken { IsTakenUp self.old (octets_in received.now) report.new result self.new }
        ensures report_fits { ReportFits EventRoom.Full self.old.session report.new
            self.new.session }
        ensures steps { ReceiveSteps self.old (octets_in received.now) report.new self.new }
    {
        station_laws();
        self.take(received, report)
    }

    fn take(&mut self, received: &Option<Message>, report: &mut Said) -> WireResult
        requires { IsSending self.old.state }
        ensures { IsTakenUp self.old (octets_in received.now) report.new result self.new }
    {
        let wire_result = self.settle(received, report);
        self.miss();
        wire_result
    }

    /// The same, but that a message that has to go out again stays as it is.
    fn settle(&mut self, received: &Option<Message>, report: &mut Said) -> WireResult
        requires { IsSending self.old.state }
        ensures core { self.new
            ≡ settled_core (received_mode self.old (octets_in received.now)) self.old.session }
        ensures settled { IsSettledBy self.old (octets_in received.now) report.new result }
    {
        self.session.is_valid();
        let out = Out::of(&self.state);
        let attempt = self.state.receives(received, self.session.configuration());
        settled(&self.state, &attempt, &mut self.session, report);
        out.wire_result(&attempt, received)
    }

    /// In OPERATE a message that is out after an exchange goes out again; at a port for any device
    /// it may be another one.
    fn miss(&mut self)
        ensures core { self.new ≡ after_missed self.old }
        ensures on { StandsOn self.old.state self.new.state }
    {
        station_laws();
        let State::Operate(operate) = &self.state else {
            return;
        };
        if operate.out.is_none() {
            return;
        }
        if let Some(message) = self.session.miss() {
            self.state.put_instead(message);
        }
    }

    /// One turn over this wire: `send`, one call of the wire, and `receive` or `receive_wake`. It
    /// answers what that call brought.
    ///
    /// On every wire an answer and a cut end the request under way, and a report ends a reading
    /// of events that an earlier turn began; `room` says whether this turn may begin one. Over an
    /// honest wire what goes out leaves both ends standing, and so does what is made of what came
    /// back: by one list of steps, each allowed where it is taken.
    ///
    /// Rules LINK-1, PD-7.
    pub fn turn<W: Wire>(&mut self, wire: &mut W, room: EventRoom, report: &mut Said) -> WireResult
        requires { LinkStands W.facts wire.old self.old }
        ensures turn { IsWholeTurn W.facts room wire.old wire.new self.old report.new result
            self.new }
        ensures honest { W.facts.honest wire.new ≡ W.facts.honest wire.old }
        ensures stands { LinkStands W.facts wire.new self.new }
    {
        station_laws();
        page_and_room_stay();
        self.session.is_valid();
        if self.put_next(room) {
            self.exchange(wire, report)
        } else {
            let rate = wire.wake();
            self.take_wake(rate);
            report.set_idle();
            WireResult::of_wake(rate)
        }
    }

    /// The message that is out goes out over this wire, and what comes back is taken.
    fn exchange<W: Wire>(&mut self, wire: &mut W, report: &mut Said) -> WireResult
        requires { IsSending self.old.state }
        ensures { IsPassed W.facts wire.old wire.new self.old report.new result self.new }
    {
        let mut sent = Message::new();
        self.state.write(&mut sent);
        let received = wire.exchange(sent.as_slice());
        self.take(&received, report)
    }
}

/// These octets go out, in this layout.
fn goes_out(layout: Layout, octets: Message) -> Transmission
    ensures { result ≡ Transmission.Exchange (outgoing_of layout octets.items) }
{
    Transmission::Exchange(Outgoing::new(layout, octets))
}

/// Takes up the mode after an exchange, in OPERATE with the good reply that it brought.
fn settled(state: &State, attempt: &AttemptView<'_>, session: &mut PortSession, report: &mut Said)
    requires { NextFits (outcome_with (attempt_in attempt.now) state.now) session.old }
    ensures session { session.new
        ≡ settled_session (outcome_with (attempt_in attempt.now) state.now) session.old }
    ensures report { IsSettledReport (outcome_with (attempt_in attempt.now) state.now) session.old
        report.new }
    ensures request { request_under_way session.new.current
        ≡ request_after (request_under_way session.old.current) report.new }
{
    match state {
        State::Down(_) => session.lose(report),
        State::Startup(startup) => {
            if let Some(read) = startup.read() {
                session.take_page(read);
            }
            report.set_idle();
        }
        State::Preoperate(_) => report.set_idle(),
        State::Operate(_) => match attempt {
            AttemptView::Got(first) => session.hear(first, report),
            AttemptView::Retry | AttemptView::Lost => session.quiet(report),
        },
    }
}
