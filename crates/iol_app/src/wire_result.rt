//! What the one call of the wire in a turn brought.
ghost use Rattle.std.specs.Prelude.{◌≡◌, is_some, IsSome};
ghost use Rattle.iol_mseq.specs.Texts.{master_text};
ghost use Rattle.iol_far.specs.Octets.{octets_in};
ghost use Rattle.iol_link.specs.Attempts.{attempt_in};
ghost use Rattle.iol_mode.specs.Exchanges.{IsSending, tries_in, text_out, layout_out};
ghost use Rattle.iol_mode.specs.Stands.{text_in, sending_tries};
ghost use Rattle.iol_app.specs.Asking.{reply_size};
ghost use Rattle.iol_app.specs.WireResults.{verdict_by, woken_by};

use iol_link::{AttemptView, Handler, Rate};
use iol_mode::{Operate, State};
use iol_mseq::{Layout, Message};

/// What came back to a message.
#[derive(Clone, Copy, Debug, PartialEq, Eq)]
pub enum ReplyVerdict {
    /// A good reply.
    Good,
    /// Nothing, in the time of a reply.
    NoReply,
    /// More or fewer octets than a good reply has.
    WrongLength,
    /// As many octets as a good reply has, with a wrong checksum.
    WrongChecksum,
}

/// What the one call of the wire in a turn brought.
#[derive(Clone, Copy, Debug, PartialEq, Eq)]
pub enum WireResult {
    /// No device answered the wake-up request.
    NoDevice,
    /// A device answered it, and a start-up begins.
    Woken,
    /// An exchange: how many attempts in a row at its message brought no good reply before, 0 to
    /// 2, and what came back.
    Exchanged(u8, ReplyVerdict),
}

impl WireResult {
    /// What a wake brought.
    pub fn of_wake(rate: Option<Rate>) -> WireResult
        ensures { result ≡ woken_by (is_some rate) }
    {
        match rate {
            Some(_) => WireResult::Woken,
            None => WireResult::NoDevice,
        }
    }
}

/// The message that is out, as far as what comes back to it is judged.
#[derive(Clone, Copy)]
pub(crate) struct Out {
    /// How many attempts in a row at it brought no good reply.
    pub tries: u8,
    /// How many octets a good reply has.
    pub reply: u8,
}

impl Out {
    /// That of a mode.
    pub(crate) fn of(state: &State) -> Out
        requires { IsSending state.now }
        ensures tries { result.tries ≡ tries_in state.now }
        ensures reply { result.reply ≡ reply_size (layout_out state.now) (text_out state.now) }
    {
        match state {
            State::Startup(startup) => Out::new(&startup.sent, &Layout::startup()),
            State::Preoperate(preoperate) => Out::new(&preoperate.sent, &preoperate.pre),
            State::Operate(operate) => Out::in_operate(operate),
            State::Down(_) => unreachable!(),
        }
    }

    /// That of OPERATE.
    fn in_operate(operate: &Operate) -> Out
        requires { IsSome operate.now.out }
        ensures tries { result.tries ≡ sending_tries operate.now.out }
        ensures reply { result.reply ≡ reply_size operate.now.layouts.run
            (text_in operate.now.layouts.run operate.now.out) }
    {
        match &operate.out {
            Some(sent) => Out::new(sent, &operate.layouts.run),
            None => unreachable!(),
        }
    }

    /// A message in a layout.
    #[tactic(auto, using(crate::proofs::Verdicts::size_is))]
    fn new(sent: &Handler, layout: &Layout) -> Out
        ensures tries { result.tries ≡ sent.now.tries }
        ensures reply { result.reply
            ≡ reply_size layout.now (master_text layout.now sent.now.message) }
    {
        let data = if sent.message().mc.read {
            layout.od().get()
        } else {
            0
        };
        Out {
            tries: sent.tries(),
            reply: data + layout.pd_in() + 1,
        }
    }

    /// What an exchange of it brought, whose attempt ended so.
    pub(crate) fn wire_result(
        self,
        attempt: &AttemptView<'_>,
        received: &Option<Message>,
    ) -> WireResult
        ensures { result ≡ WireResult.Exchanged self.tries
            (verdict_by (attempt_in attempt.now) self.reply (octets_in received.now)) }
    {
        WireResult::Exchanged(self.tries, self.verdict(attempt, received))
    }

    /// What came back.
    fn verdict(self, attempt: &AttemptView<'_>, received: &Option<Message>) -> ReplyVerdict
        ensures { result ≡ verdict_by (attempt_in attempt.now) self.reply (octets_in received.now) }
    {
        if let AttemptView::Got(_) = attempt {
            return ReplyVerdict::Good;
        }
        match received {
            None => ReplyVerdict::NoReply,
            Some(octets) if octets.len() == self.reply as usize => ReplyVerdict::WrongChecksum,
            Some(_) => ReplyVerdict::WrongLength,
        }
    }
}
