//! Why a line of a plan is refused in its place.
use crate::cursor::Cursor;
use crate::departure::departure_of;
use crate::form::{LineForm, Lines};
use crate::quoted::Quoted;
use crate::tables::PLAN;
use iol_script::{TextLines, Words};
use std::fmt;

/// Why a line of a plan is refused in its place.
#[derive(Clone, Copy, Debug)]
pub enum PlanFault<'a> {
    /// Its first word isn't that of the line whose place it has.
    Other(&'a [u8], LineForm),
    /// The clients of a port would submit more than 64 requests.
    TooManyRequests,
    /// All lines were given.
    Behind,
    /// The input ends before this line.
    Missing(LineForm),
}

impl fmt::Display for PlanFault<'_> {
    fn fmt<W: fmt::Write>(&self, f: &mut fmt::Formatter<W>) -> fmt::Result {
        match self {
            PlanFault::Other(word, form) => {
                write!(f, "{} can't stand here; wanted: {form}", Quoted(word))
            }
            PlanFault::TooManyRequests => {
                f.write_str("a port would get more than 64 requests, clients times each")
            }
            PlanFault::Behind => f.write_str("a line behind the last one of a plan"),
            PlanFault::Missing(form) => write!(f, "the input ends; wanted: {form}"),
        }
    }
}

/// How many lines with words stand above the line of this number.
fn place_of(text: &[u8], bad: u64) -> usize {
    let mut place = 0usize;
    for (number, line) in TextLines::of(text) {
        if number >= bad {
            break;
        }
        if Words::of(line).is_some_and(|mut words| words.next().is_some()) {
            place = place.saturating_add(1);
        }
    }
    place
}

/// The form of the line that has its place in that of this number.
pub(crate) fn form_in_place(text: &[u8], number: u64) -> Option<LineForm> {
    PLAN.get(place_of(text, number)).copied()
}

/// Why a line that fits this form, which has its place there, or whose first word is another's, is
/// refused. None of a line that begins as it should.
pub(crate) fn plan_fault_of<'a>(form: &LineForm, line: &'a [u8]) -> Option<PlanFault<'a>> {
    let word = Cursor::of(line).word()?;
    match departure_of(form, line) {
        None => Some(PlanFault::TooManyRequests),
        Some(departure) if departure.words == 0 && Lines::Plan.are_begun_by(word) => {
            Some(PlanFault::Other(word, *form))
        }
        Some(_) => None,
    }
}
