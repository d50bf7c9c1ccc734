//! A judge, told the lines of a capture in one form or the other.
ghost use Rattle.std.specs.Prelude.{◌≡◌, MatchResult, Ok};
ghost use Rattle.std.specs.Result.{result_and, result_unwrap_or};
ghost use Rattle.iol_capture.specs.Capture.{has_no_call, judging_if_whole, last_call, line_call, line_judged, new_telling};

use crate::fault::LineFault;
use crate::hearing::OctetJudgement;
use crate::judgement::Judgement;
use crate::timed_call::TimedCall;
use crate::tracing::TraceJudgement;
use iol_judge::Odd;
use iol_link::Rate;

/// How the lines of a capture are written.
#[derive(Clone, Copy, Debug, PartialEq, Eq)]
pub enum CaptureForm {
    /// What `iolink trace` prints.
    Trace,
    /// The octets of a line with this rate, each with its time, as a decoder exports them.
    Octets(Rate),
}

/// What a judge makes of the lines of a capture.
#[derive(Drop)]
pub(crate) enum Telling {
    Trace(TraceJudgement),
    Octets(OctetJudgement),
}

impl Telling {
    /// Nothing was told.
    pub fn new(form: CaptureForm, odd: Odd) -> Telling
        ensures { result ≡ new_telling form odd }
    {
        match form {
            CaptureForm::Trace => Telling::Trace(TraceJudgement::new(odd)),
            CaptureForm::Octets(rate) => Telling::Octets(OctetJudgement::new(rate, odd)),
        }
    }

    /// One more line, whose call isn't shown.
    pub fn judge_line(&mut self, line: &[u8]) -> Result<(), LineFault>
        ensures { result_and result (Ok self.new) ≡ line_judged self.old line.now }
    {
        match self {
            Telling::Trace(tracing) => tracing.submit_line(line),
            Telling::Octets(hearing) => match hearing.submit_line(line) {
                Ok(_) => Ok(()),
                Err(fault) => Err(fault),
            },
        }
    }

    /// One more line, and the call of the wire that it tells.
    pub fn submit_line(&mut self, line: &[u8]) -> Result<Option<TimedCall>, LineFault>
        ensures heard { result_and result (Ok self.new) ≡ line_judged self.old line.now }
        ensures emitted { result_unwrap_or result None ≡ line_call self.old line.now }
    {
        match self {
            Telling::Trace(tracing) => {
                tracing.submit_line(line)?;
                Ok(None)
            }
            Telling::Octets(hearing) => hearing.submit_line(line),
        }
    }

    /// Whether a trace told no call.
    pub fn has_no_call(&self) -> bool
        ensures { result ≡ has_no_call self.now }
    {
        match self {
            Telling::Trace(tracing) => tracing.has_no_call(),
            Telling::Octets(_) => false,
        }
    }

    /// The capture has ended, which may tell one more call.
    pub fn finish(self) -> Result<(Judgement, Option<TimedCall>), LineFault>
        ensures judged { MatchResult result (λ whole. judging_if_whole self ≡ Ok whole.0)
            (λ fault. judging_if_whole self ≡ Err fault) }
        ensures emitted { MatchResult result (λ whole. last_call self ≡ whole.1)
            (λ fault. last_call self ≡ None) }
    {
        match self {
            Telling::Trace(tracing) if tracing.waits() => Err(LineFault::ReplyMissing),
            Telling::Trace(tracing) => Ok((tracing.finish(), None)),
            Telling::Octets(hearing) => Ok(hearing.finish()),
        }
    }
}
