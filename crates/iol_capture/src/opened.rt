//! A capture that is read in pieces: the lines that ended, and the line that is open.
ghost use Rattle.std.specs.Prelude.{◌≡◌, ◌∷◌, ◌++◌, [], ℕ, List, None, Ok, Err, OnOk, OnErr, MatchOption, MatchResult};
ghost use Rattle.std.specs.Result.{result_and, result_unwrap_or};
ghost use Rattle.iol_capture.specs.Capture.{IsOpenLine, calls_of_rest, capture_after_line, judging_after_rest, judging_at_end, last_call, line_call, new_opened, emitted_before};

use crate::fault::{CaptureFault, LineFault};
use crate::judgement::{Judgement, one_more};
use crate::telling::{CaptureForm, Telling};
use crate::timed_call::TimedCall;
use crate::trace_line::LONGEST;
use arrayvec::ArrayVec;
use iol_judge::Odd;
use memchr::memchr;
use std::marker::Model;

/// The lines that ended.
#[derive(Drop)]
struct EndedLines {
    /// How many.
    count: u64,
    telling: Telling,
}

impl Model for EndedLines {
    ghost use Rattle.iol_capture.specs.Capture.{ReadPart};

    ghost Value = { ReadPart };

    ghost view = { λ e. record { lines = e.count; telling = e.telling } };
}

impl EndedLines {
    /// One more line, whose call isn't shown.
    fn judge_line(&mut self, line: &[u8]) -> Result<(), CaptureFault>
        ensures { result_and result (Ok self.new) ≡ capture_after_line (Ok self.old) line.now }
    {
        let number = one_more(self.count);
        match self.telling.judge_line(line) {
            Ok(()) => {
                self.count = number;
                Ok(())
            }
            Err(fault) => Err(CaptureFault::Line(number, fault)),
        }
    }

    /// One more line, and the call that it tells.
    fn submit_line(&mut self, line: &[u8]) -> Result<Option<TimedCall>, CaptureFault>
        ensures read { result_and result (Ok self.new)
            ≡ capture_after_line (Ok self.old) line.now }
        ensures emitted { result_unwrap_or result None ≡ line_call self.old.telling line.now }
    {
        let number = one_more(self.count);
        match self.telling.submit_line(line) {
            Ok(call) => {
                self.count = number;
                Ok(call)
            }
            Err(fault) => Err(CaptureFault::Line(number, fault)),
        }
    }
}

/// A capture, as far as it is read. It takes no memory, and keeps one line at a time.
///
/// A caller who wants to see the calls of the wire as they come reads it octet by octet. Octets are
/// split into calls; a trace tells none, since it shows them itself. Else
/// [`judge_capture`](crate::judge_capture) reads it.
#[derive(Drop)]
pub struct CaptureReader {
    ended: EndedLines,
    /// What is kept of the line that is open.
    line: ArrayVec<u8, LONGEST>,
}

impl Model for CaptureReader {
    ghost use Rattle.iol_capture.specs.Capture.{IsOpenLine, ReaderState};

    ghost Value = { ReaderState };

    ghost view = { λ o. record { reading = o.ended; line = o.line.items } };

    ghost invariant = { λ o. IsOpenLine o.line.items };
}

impl CaptureReader {
    /// Nothing is read of a capture in this form. The judge does this with odd replies.
    pub fn new(form: CaptureForm, odd: Odd) -> CaptureReader
        ensures { result ≡ new_opened form odd }
    {
        CaptureReader {
            ended: EndedLines {
                count: 0,
                telling: Telling::new(form, odd),
            },
            line: ArrayVec::new(),
        }
    }

    /// More of the text is read, of which no call is shown. A line that lies whole in it is told
    /// where it lies.
    pub(crate) fn take(&mut self, text: &[u8]) -> Result<(), CaptureFault>
        ensures { (rest : List ℕ) → result_and result (judging_after_rest self.new rest)
            ≡ judging_after_rest self.old (text.now ++ rest) }
    {
        let mut left = text;
        while let Some((line, later)) = cut_line(left) {
            self.judge_line(line)?;
            left = later;
        }
        self.store(left)
    }

    /// One more octet of the text is read. Where it ends a line, that may tell a call. The first
    /// bad line is a fault; what is behind that is none of the capture.
    pub fn take_octet(&mut self, octet: u8) -> Result<Option<TimedCall>, CaptureFault>
        ensures judged { (rest : List ℕ) → result_and result (judging_after_rest self.new rest)
            ≡ judging_after_rest self.old (octet ∷ rest) }
        ensures emitted { (rest : List ℕ) → emitted_before result (calls_of_rest self.new rest)
            ≡ calls_of_rest self.old (octet ∷ rest) }
    {
        if octet == b'\n' {
            return self.end_line(&[]);
        }
        self.store(&[octet])?;
        Ok(None)
    }

    /// More of the line that is open.
    #[tactic(auto, using(crate::proofs::ReadLemmas::overfull, crate::proofs::CallLemmas::overfull_calls))]
    fn store(&mut self, more: &[u8]) -> Result<(), CaptureFault>
        requires { IsOpenLine more.now }
        ensures judged { (rest : List ℕ) → result_and result (judging_after_rest self.new rest)
            ≡ judging_after_rest self.old (more.now ++ rest) }
        ensures emitted { OnOk result ((rest : List ℕ) → calls_of_rest self.new rest
            ≡ calls_of_rest self.old (more.now ++ rest)) }
        ensures emits_none { OnErr result ((rest : List ℕ)
            → calls_of_rest self.old (more.now ++ rest) ≡ []) }
        ensures line { OnOk result (self.new.line ≡ self.old.line ++ more.now) }
        ensures ended { OnOk result (self.new.reading ≡ self.old.reading) }
    {
        if self.line.try_extend_from_slice(more).is_err() {
            let number = one_more(self.ended.count);
            return Err(CaptureFault::Line(number, LineFault::BadForm));
        }
        Ok(())
    }

    /// The open line ends with these bytes, and its call isn't shown.
    fn judge_line(&mut self, end: &[u8]) -> Result<(), CaptureFault>
        requires { IsOpenLine end.now }
        ensures { (rest : List ℕ) → result_and result (judging_after_rest self.new rest)
            ≡ judging_after_rest self.old (end.now ++ 10 ∷ rest) }
    {
        let lies_whole = self.line.is_empty();
        if lies_whole {
            return self.ended.judge_line(end);
        }
        match self.end_line(end) {
            Ok(_) => Ok(()),
            Err(fault) => Err(fault),
        }
    }

    /// The open line ends with these bytes.
    fn end_line(&mut self, end: &[u8]) -> Result<Option<TimedCall>, CaptureFault>
        requires { IsOpenLine end.now }
        ensures judged { (rest : List ℕ) → result_and result (judging_after_rest self.new rest)
            ≡ judging_after_rest self.old (end.now ++ 10 ∷ rest) }
        ensures emitted { (rest : List ℕ) → emitted_before result (calls_of_rest self.new rest)
            ≡ calls_of_rest self.old (end.now ++ 10 ∷ rest) }
    {
        self.store(end)?;
        self.end_stored()
    }

    /// The open line ends with what is kept of it.
    fn end_stored(&mut self) -> Result<Option<TimedCall>, CaptureFault>
        ensures line { result_and result (Ok self.new.reading)
            ≡ capture_after_line (Ok self.old.reading) self.old.line }
        ensures emitted { result_unwrap_or result None
            ≡ line_call self.old.reading.telling self.old.line }
        ensures empty { OnOk result (self.new.line ≡ []) }
        ensures no_feed { IsOpenLine self.old.line }
    {
        let call = self.ended.submit_line(self.line.as_slice())?;
        self.line.clear();
        Ok(call)
    }

    /// The text has ended, and with it the line that is open, which may tell a call.
    #[tactic(auto, using(crate::proofs::ReadLemmas::end_line, crate::proofs::CallLemmas::end_line_calls))]
    pub fn end_text(&mut self) -> Result<Option<TimedCall>, CaptureFault>
        ensures judged { result_and result (judging_after_rest self.new [])
            ≡ judging_after_rest self.old [] }
        ensures emitted { emitted_before result (calls_of_rest self.new [])
            ≡ calls_of_rest self.old [] }
        ensures empty { OnOk result (self.new.line ≡ []) }
    {
        if self.line.is_empty() {
            return Ok(None);
        }
        self.end_stored()
    }

    /// What is judged of the lines that have ended, once the text has, and the last call.
    pub fn finish(self) -> Result<(Judgement, Option<TimedCall>), CaptureFault>
        ensures judged { MatchResult result (λ whole. judging_at_end (Ok self.reading) ≡ Ok whole.0)
            (λ fault. judging_at_end (Ok self.reading) ≡ Err fault) }
        ensures emitted { MatchResult result (λ whole. last_call self.reading.telling ≡ whole.1)
            (λ fault. last_call self.reading.telling ≡ None) }
    {
        if self.ended.telling.has_no_call() {
            return Err(CaptureFault::NoCall(self.ended.count));
        }
        let number = one_more(self.ended.count);
        match self.ended.telling.finish() {
            Ok(whole) => Ok(whole),
            Err(fault) => Err(CaptureFault::Line(number, fault)),
        }
    }
}

/// The bytes up to the first line feed, and those behind it.
fn cut_line(text: &[u8]) -> Option<(&[u8], &[u8])>
    ensures { MatchOption result (IsOpenLine text.now) (λ parts. IsOpenLine parts.0.now
        × (text.now ≡ parts.0.now ++ 10 ∷ parts.1.now)) }
{
    let place = memchr(b'\n', text)?;
    Some((&text[..place], &text[place + 1..]))
}
