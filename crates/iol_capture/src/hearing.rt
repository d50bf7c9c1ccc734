//! A judge, told what a decoder shows.
ghost use Rattle.std.specs.Prelude.{◌≡◌, Ok, option_and_then};
ghost use Rattle.std.specs.Result.{result_and, result_unwrap_or};
ghost use Rattle.iol_capture.specs.Judging.{or_bad_form};
ghost use Rattle.iol_capture.specs.Octets.{call_at_end, call_of_line, hearing_after_line, heard_whole, hearing_joined, new_hearing, octet_line_form, passed_by_octet, passed_by_request};
ghost use Rattle.iol_capture.specs.Timed.{number_of_next, number_by_octet};

use crate::export::ExportForm;
use crate::fault::LineFault;
use crate::judgement::Judgement;
use crate::octet_line::OctetLine;
use crate::passed::SplitItem;
use crate::spacing::Spacing;
use crate::splitter::Splitter;
use crate::timed_call::{Beginnings, TimedCall};
use crate::trace_line::LONGEST;
use iol_judge::{Odd, Wake};
use iol_link::Rate;
use std::marker::Model;

/// What a judge makes of the octets of a line.
#[derive(Drop)]
pub(crate) struct OctetJudgement {
    splitter: Splitter,
    judgement: Judgement,
    begun: Beginnings,
    spacing: Spacing,
    /// How the lines to come are written.
    form: ExportForm,
}

impl Model for OctetJudgement {
    ghost use Rattle.iol_capture.specs.Octets.{Hearing};

    ghost Value = { Hearing };

    ghost view = { λ h. record {
      splitting = h.splitter;
      judging = h.judgement;
      begun = h.begun;
      spacing = h.spacing;
      form = h.form;
    } };
}

impl OctetJudgement {
    /// Nothing was shown of a line with this rate.
    pub fn new(rate: Rate, odd: Odd) -> OctetJudgement
        ensures { result ≡ new_hearing rate odd }
    {
        OctetJudgement {
            splitter: Splitter::new(rate),
            judgement: Judgement::new(odd),
            begun: Beginnings::none(),
            spacing: Spacing::nothing(),
            form: ExportForm::Timed,
        }
    }

    /// One more line, and the call of the wire that it tells.
    pub fn submit_line(&mut self, line: &[u8]) -> Result<Option<TimedCall>, LineFault>
        ensures heard { result_and result (Ok self.new)
            ≡ or_bad_form (hearing_after_line self.old) (octet_line_form self.old.form line.now) }
        ensures emitted { result_unwrap_or result None
            ≡ option_and_then (call_of_line self.old) (octet_line_form self.old.form line.now) }
    {
        match parse(self.form, line) {
            Some(line) => self.submit(line),
            None => Err(LineFault::BadForm),
        }
    }

    /// What one more line shows.
    fn submit(&mut self, line: OctetLine) -> Result<Option<TimedCall>, LineFault>
        ensures heard { result_and result (Ok self.new) ≡ hearing_after_line self.old line }
        ensures emitted { result_unwrap_or result None ≡ call_of_line self.old line }
    {
        match line {
            OctetLine::Other => Ok(None),
            OctetLine::Skipped => {
                self.judgement.skip();
                Ok(None)
            }
            OctetLine::Form(form) => {
                self.form = form;
                Ok(None)
            }
            OctetLine::Page(octets) => {
                self.join(&octets);
                Ok(None)
            }
            OctetLine::Unsampled => Err(LineFault::NoSampleRate),
            OctetLine::Untimed => Err(LineFault::NoTime),
            OctetLine::Damaged(time) => self.submit_damaged(time),
            OctetLine::DamagedBefore => Ok(self.submit_damaged_before()),
            OctetLine::Octet(time, octet) => self.submit_octet(time, octet),
            OctetLine::Wake(time) => self.submit_request(time),
        }
    }

    /// The capture begins in OPERATE, at a device with this page. It counts in front alone.
    fn join(&mut self, octets: &[u8; 10])
        ensures { self.new ≡ hearing_joined self.old octets.now }
    {
        if self.splitter.is_at_begin() {
            self.splitter.join(octets);
            self.judgement.submit_page(octets);
        }
    }

    ghost use Rattle.iol_capture.specs.declared.octet_line.OctetLine.TheVariants as line;

    /// An octet that begins at this time.
    fn submit_octet(&mut self, time: u64, octet: u8) -> Result<Option<TimedCall>, LineFault>
        ensures heard { result_and result (Ok self.new)
            ≡ hearing_after_line self.old (line.Octet time octet) }
        ensures emitted { result_unwrap_or result None
            ≡ call_of_line self.old (line.Octet time octet) }
    {
        self.spacing.note(time);
        match self.splitter.octet(time, octet) {
            Ok(passed) => {
                let number = pass_octet(&mut self.judgement, &passed);
                let call = self.begun.emit(number, self.splitter.layout(), passed);
                if self.splitter.begins() {
                    self.begun.octet = time;
                }
                Ok(call)
            }
            Err(fault) => Err(LineFault::Split(fault)),
        }
    }

    /// An octet with an error that begins at this time.
    fn submit_damaged(&mut self, time: u64) -> Result<Option<TimedCall>, LineFault>
        ensures heard { result_and result (Ok self.new)
            ≡ hearing_after_line self.old (line.Damaged time) }
        ensures emitted { result_unwrap_or result None ≡ call_of_line self.old (line.Damaged time) }
    {
        match self.splitter.damaged(time) {
            Ok(passed) => {
                let number = pass_octet(&mut self.judgement, &passed);
                Ok(self.begun.emit(number, self.splitter.layout(), passed))
            }
            Err(fault) => Err(LineFault::Split(fault)),
        }
    }

    /// The octet before has an error.
    fn submit_damaged_before(&mut self) -> Option<TimedCall>
        ensures heard { Ok self.new ≡ hearing_after_line self.old line.DamagedBefore }
        ensures emitted { result ≡ call_of_line self.old line.DamagedBefore }
    {
        let passed = self.splitter.damaged_before();
        let number = pass_octet(&mut self.judgement, &passed);
        self.begun.emit(number, self.splitter.layout(), passed)
    }

    /// A wake-up request at this time.
    fn submit_request(&mut self, time: u64) -> Result<Option<TimedCall>, LineFault>
        ensures heard { result_and result (Ok self.new)
            ≡ hearing_after_line self.old (line.Wake time) }
        ensures emitted { result_unwrap_or result None ≡ call_of_line self.old (line.Wake time) }
    {
        match self.splitter.wake(time) {
            Ok(passed) => {
                let number = pass_request(&mut self.judgement, &passed);
                let call = self.begun.emit(number, self.splitter.layout(), passed);
                self.begun.request = Some(time);
                Ok(call)
            }
            Err(fault) => Err(LineFault::Split(fault)),
        }
    }

    /// The stream has ended, which may tell one more call.
    pub fn finish(self) -> (Judgement, Option<TimedCall>)
        ensures judged { result.0 ≡ heard_whole self }
        ensures emitted { result.1 ≡ call_at_end self }
    {
        let mut judgement = self.judgement;
        let mut begun = self.begun;
        let layout = self.splitter.layout();
        judgement.passed_over = self.splitter.passed_over();
        judgement.rate_doubt = self.spacing.doubt(self.splitter.rate());
        let passed = self.splitter.end();
        let number = pass_request(&mut judgement, &passed);
        let call = begun.emit(number, layout, passed);
        (judgement, call)
    }
}

/// What a line of at most 1,024 bytes shows, where it fits a form.
fn parse(form: ExportForm, line: &[u8]) -> Option<OctetLine>
    ensures { result ≡ octet_line_form form line.now }
{
    if line.len() > LONGEST {
        return None;
    }
    OctetLine::parse_in(form, line)
}

/// What went over the line, told by an octet, and the number of the call. An unanswered wake-up
/// request that isn't shown may be none: the read that may be its test read is the next call, and
/// it has no number of its own.
fn pass_octet(judgement: &mut Judgement, passed: &Option<SplitItem>) -> Option<u64>
    ensures judged { judgement.new ≡ passed_by_octet judgement.old passed.now }
    ensures number { result ≡ number_by_octet judgement.old passed.now }
{
    match passed {
        None => None,
        Some(SplitItem::Wake(Wake::Unanswered)) => {
            judgement.maybe_wake();
            None
        }
        Some(SplitItem::Resumed(mode)) => {
            judgement.resume(*mode);
            None
        }
        Some(item) => Some(judgement.pass_next(item)),
    }
}

/// What went over the line, told by a wake-up request that is shown, or by the end.
fn pass_request(judgement: &mut Judgement, passed: &Option<SplitItem>) -> Option<u64>
    ensures judged { judgement.new ≡ passed_by_request judgement.old passed.now }
    ensures number { result ≡ number_of_next judgement.old passed.now }
{
    match passed {
        None => None,
        Some(SplitItem::Resumed(mode)) => {
            judgement.resume(*mode);
            None
        }
        Some(item) => Some(judgement.pass_next(item)),
    }
}
