//! A judge, told the lines of a trace.
ghost use Rattle.std.specs.Prelude.{◌≡◌, ◌==◌, Ok, Err, OnErr, if◌then◌else◌, is_some, option_copied};
ghost use Rattle.std.specs.Result.{result_and};
ghost use Rattle.iol_capture.specs.declared.fault.LineFault.TheVariants.{ReplyMissing, WrongNumber};
ghost use Rattle.iol_capture.specs.Judging.{received_in_call, is_call_number, judging_after_line, judging_in_call, new_judging, or_bad_form};
ghost use Rattle.iol_capture.specs.TraceLines.{octets_read, trace_form};

use crate::fault::LineFault;
use crate::judgement::Judgement;
use crate::trace_line::{WordedLine, read_octets, read_received};
use iol_judge::Odd;
use iol_script::LineOctets;
use std::marker::Model;

/// What a judge of the device, and a watch of the master, make of the lines of a trace.
#[derive(Drop)]
pub(crate) struct TraceJudgement {
    judgement: Judgement,
    /// What was sent last.
    sent: LineOctets,
    /// Whether it waits for what came back.
    waits: bool,
}

impl Model for TraceJudgement {
    ghost use Rattle.std.specs.Prelude.{◌≡◌, Some, None, if◌then◌else◌};
    ghost use Rattle.iol_capture.specs.Judging.{Judging};

    ghost Value = { Judging };

    ghost view = { λ t. record t.judgement {
      sent = if t.waits then Some t.sent.items else None;
    } };

    ghost invariant = { λ t. t.judgement.sent ≡ None };
}

impl TraceJudgement {
    /// Nothing was told.
    pub fn new(odd: Odd) -> TraceJudgement
        ensures { result ≡ new_judging odd }
    {
        TraceJudgement {
            judgement: Judgement::new(odd),
            sent: LineOctets::new(),
            waits: false,
        }
    }

    /// Whether a message waits for what came back.
    pub fn waits(&self) -> bool
        ensures { result ≡ is_some self.now.sent }
    {
        self.waits
    }

    /// Whether no call was told.
    pub fn has_no_call(&self) -> bool
        ensures { result ≡ (self.now.call == 0) }
    {
        self.judgement.has_no_call()
    }

    /// What is judged, where no message waits.
    pub fn finish(self) -> Judgement
        requires { self.sent ≡ None }
        ensures { result ≡ self }
    {
        self.judgement
    }

    /// One more line.
    pub fn submit_line(&mut self, line: &[u8]) -> Result<(), LineFault>
        ensures { result_and result (Ok self.new)
            ≡ or_bad_form (judging_after_line self.old) (trace_form line.now) }
    {
        match WordedLine::parse(line) {
            Some(line) => self.submit(line),
            None => Err(LineFault::BadForm),
        }
    }

    /// What one more line says.
    fn submit(&mut self, line: WordedLine<'_>) -> Result<(), LineFault>
        ensures { result_and result (Ok self.new)
            ≡ or_bad_form (judging_after_line self.old) (octets_read line.entry) }
    {
        match line {
            WordedLine::Other => Ok(()),
            WordedLine::Skipped => {
                self.judgement.skip();
                Ok(())
            }
            WordedLine::Page(octets) => {
                self.judgement.submit_page(&octets);
                Ok(())
            }
            WordedLine::Wake(number, answer) => {
                begin(&mut self.judgement, self.waits, number)?;
                self.judgement.wake(answer);
                Ok(())
            }
            WordedLine::Sent(number, words) => self.submit_sent(number, words),
            WordedLine::Received(number, words) => self.submit_received(number, words),
        }
    }

    ghost use Rattle.iol_capture.specs.declared.trace_line.WordedLine.TheVariants as worded;

    /// What was sent in the call of this number.
    fn submit_sent(&mut self, number: u64, words: Option<&[u8]>) -> Result<(), LineFault>
        ensures { result_and result (Ok self.new)
            ≡ or_bad_form (judging_after_line self.old)
            (octets_read (worded.Sent number words.entry)) }
    {
        if read_octets(words, &mut self.sent).is_none() {
            return Err(LineFault::BadForm);
        }
        begin(&mut self.judgement, self.waits, number)?;
        self.waits = true;
        Ok(())
    }

    /// What came back in the call of this number, if anything did.
    fn submit_received(&mut self, number: u64, words: Option<&[u8]>) -> Result<(), LineFault>
        ensures { result_and result (Ok self.new)
            ≡ or_bad_form (judging_after_line self.old)
            (octets_read (worded.Received number words.entry)) }
    {
        let mut octets = LineOctets::new();
        match read_received(words, &mut octets) {
            Some(true) => self.hear(number, Some(octets.as_slice())),
            Some(false) => self.hear(number, None),
            None => Err(LineFault::BadForm),
        }
    }

    /// What came back to the message that waits.
    fn hear(&mut self, number: u64, received: Option<&[u8]>) -> Result<(), LineFault>
        ensures { result_and result (Ok self.new)
            ≡ received_in_call self.old.sent self.old number (option_copied received.entry) }
    {
        if !self.waits {
            return Err(LineFault::MessageMissing);
        }
        if number != self.judgement.call {
            return Err(LineFault::WrongNumber);
        }
        self.judgement.exchange(self.sent.as_slice(), received);
        self.waits = false;
        Ok(())
    }
}

/// A call of the wire begins, where no message waits for what came back.
fn begin(judgement: &mut Judgement, waits: bool, number: u64) -> Result<(), LineFault>
    ensures begun { result_and result (Ok judgement.new) ≡ (if waits then Err ReplyMissing else
        if is_call_number judgement.old.call number then Ok (judging_in_call judgement.old number)
        else Err WrongNumber) }
    ensures refused { OnErr result (judgement.new ≡ judgement.old) }
{
    if waits {
        return Err(LineFault::ReplyMissing);
    }
    if !is_next(judgement.call, number) {
        return Err(LineFault::WrongNumber);
    }
    judgement.call(number);
    Ok(())
}

/// Whether a call may have this number: the first any, each other the next.
fn is_next(call: u64, number: u64) -> bool
    ensures { result ≡ is_call_number call number }
{
    call == 0 || call.checked_add(1) == Some(number)
}
