//! Why a line is bad.
ghost use Rattle.std.specs.Prelude.{◌≡◌, ◌≤◌, false, true, None, IfSome, length};
ghost use Rattle.iol_script.specs.CheckLines.{check_form};
ghost use Rattle.iol_script.specs.RunLines.{run_form};
ghost use Rattle.iol_why.specs.Explained.{IsColumnOf, is_of_form, line_in};

use crate::call_fault::{CallFault, call_fault_of};
use crate::cursor::Cursor;
use crate::form::{LineForm, Lines};
use crate::mistake::{Fault, Mistake};
use crate::page_refusal::page_refusal_of;
use crate::plan_place::{PlanFault, form_in_place, plan_fault_of};
use crate::retained::RetainedText;
use crate::script_place::{place_fault_of, storage_fault_of};
use crate::text_fault::{LONGEST, text_fault_of};
use crate::word_fault::word_fault_of;
use iol_capture::{CaptureForm, LineFault, SplitFault};
use iol_script::{CheckLine, RunLine};
use iol_stored_script::StorageLine;
use std::slice;

/// The column of what is wrong with a line as a whole.
const WHOLE_LINE: usize = 1;

impl<'a> Mistake<'a> {
    /// It is wrong as a whole.
    fn of_line(fault: Fault<'a>) -> Mistake<'a>
        ensures column { result.column ≡ 1 }
        ensures fault { result.fault ≡ fault.entry }
    {
        Mistake {
            column: WHOLE_LINE,
            fault,
        }
    }
}

/// Why the line of this number is the first bad line of `check`. None where it is good.
pub fn explain_check<'a>(text: RetainedText<'a>, number: u64) -> Option<Mistake<'a>>
    ensures { IfSome result (λ mistake. IfSome (line_in text.entry number) (λ line.
        IsColumnOf line mistake.column × (check_form line ≡ None))) }
{
    let line = text.line(number)?;
    match CheckLine::parse(line) {
        Some(_) => None,
        None => form_mistake(Lines::Check, number, line),
    }
}

/// Why the line of this number is the first bad line of `run` and `trace`, of which this is the
/// whole input. None where it is good in its place.
pub fn explain_script<'a>(text: RetainedText<'a>, number: u64) -> Option<Mistake<'a>>
    ensures column { IfSome result (λ mistake. IfSome (line_in text.entry number) (λ line.
        IsColumnOf line mistake.column)) }
    ensures form { IfSome result (λ mistake. is_of_form mistake.fault ≡ true
        → IfSome (line_in text.entry number) (λ line. run_form line ≡ None)) }
{
    let line = text.line(number)?;
    match RunLine::parse(line) {
        Some(form) => {
            let fault = place_fault_of(text.octets(), number, &form)?;
            Some(Mistake::of_line(Fault::Place(fault)))
        }
        None => match form_mistake(Lines::Script, number, line) {
            None => storage_mistake(text, number, line).or(page_mistake(line)),
            found => found,
        },
    }
}

/// Why a line of Data Storage is refused in its place.
fn storage_mistake<'a>(text: RetainedText<'a>, number: u64, line: &[u8]) -> Option<Mistake<'a>>
    ensures { IfSome result (λ mistake. (mistake.column ≡ 1)
        × (is_of_form mistake.fault ≡ false)) }
{
    let form = StorageLine::parse(line)?;
    let fault = storage_fault_of(text.octets(), number, &form)?;
    Some(Mistake::of_line(Fault::Place(fault)))
}

/// Why the line of this number is the first bad line of `many`, of which this is the whole input.
pub fn explain_plan<'a>(text: RetainedText<'a>, number: u64) -> Option<Mistake<'a>>
    ensures { IfSome result (λ mistake. IfSome (line_in text.entry number) (λ line.
        IsColumnOf line mistake.column)) }
{
    let form = form_in_place(text.octets(), number);
    let Some(line) = text.line(number) else {
        return Some(Mistake::of_line(Fault::Plan(PlanFault::Missing(form?))));
    };
    if let Some(mistake) = text_mistake(number, line) {
        return Some(mistake);
    }
    let Some(form) = form else {
        return Some(Mistake::of_line(Fault::Plan(PlanFault::Behind)));
    };
    match plan_fault_of(&form, line) {
        Some(fault) => Some(Mistake::of_line(Fault::Plan(fault))),
        None => word_mistake(Lines::Plan, &[slice::from_ref(&form)], line),
    }
}

/// Why the line of this number is the first bad line of a capture in this form, refused by this
/// fault, where these lines above it are kept.
pub fn explain_capture<'a>(
    form: CaptureForm,
    text: RetainedText<'a>,
    number: u64,
    fault: LineFault,
) -> Option<Mistake<'a>>
    ensures { IfSome result (λ mistake. IfSome (line_in text.entry number) (λ line.
        IsColumnOf line mistake.column)) }
{
    let Some(line) = text.line(number) else {
        let call = call_fault_of(&text, number, &[], fault)?;
        return Some(Mistake::of_line(Fault::Call(call)));
    };
    match call_fault_of(&text, number, line, fault) {
        Some(call) => Some(Mistake {
            column: call_column(&call, line),
            fault: Fault::Call(call),
        }),
        None => match form {
            CaptureForm::Trace => form_mistake(Lines::Trace, number, read_part(line)),
            CaptureForm::Octets(_) => form_mistake(Lines::Octets, number, line),
        },
    }
}

/// Where it stands that a line is refused in its place: at its time, or at what comes then.
fn call_column(fault: &CallFault, line: &[u8]) -> usize
    ensures { IsColumnOf line.now result }
{
    match fault {
        CallFault::Split(SplitFault::TimeBack | SplitFault::Overlap) => WHOLE_LINE,
        CallFault::Split(_) => Cursor::of(line).behind().column_in(line),
        _ => WHOLE_LINE,
    }
}

/// What is wrong with a line that fits no form.
fn form_mistake<'a>(lines: Lines, number: u64, line: &'a [u8]) -> Option<Mistake<'a>>
    ensures { IfSome result (λ mistake. IsColumnOf line.now mistake.column) }
{
    match text_mistake(number, line) {
        None => word_mistake(lines, &lines.tables(), line),
        found => found,
    }
}

/// What is wrong with a line, whatever its words.
fn text_mistake<'a>(number: u64, line: &'a [u8]) -> Option<Mistake<'a>>
    ensures { IfSome result (λ mistake. IsColumnOf line.now mistake.column) }
{
    let (column, fault) = text_fault_of(number, line)?;
    Some(Mistake {
        column,
        fault: Fault::Text(fault),
    })
}

/// What is wrong with a word of a line that leaves the forms that it may have there.
fn word_mistake<'a>(lines: Lines, tables: &[&[LineForm]], line: &'a [u8]) -> Option<Mistake<'a>>
    ensures { IfSome result (λ mistake. IsColumnOf line.now mistake.column) }
{
    let (column, fault) = word_fault_of(lines, tables, line)?;
    Some(Mistake {
        column,
        fault: Fault::Word(fault),
    })
}

/// The part of a line of a trace that is read: what stands before a colon.
fn read_part(line: &[u8]) -> &[u8]
    ensures { length result.now ≤ length line.now }
{
    match line.iter().position(|octet| *octet == b':') {
        Some(place) if line.len() <= LONGEST => &line[..place],
        _ => line,
    }
}

/// Why the page of a line is refused.
fn page_mistake<'a>(line: &'a [u8]) -> Option<Mistake<'a>>
    ensures { IfSome result (λ mistake. IsColumnOf line.now mistake.column) }
{
    let (column, refusal) = page_refusal_of(line)?;
    Some(Mistake {
        column,
        fault: Fault::Page(refusal),
    })
}
