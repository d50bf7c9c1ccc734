//! What is wrong with a line, and where.
use crate::call_fault::CallFault;
use crate::page_refusal::PageRefusal;
use crate::plan_place::PlanFault;
use crate::script_place::PlaceFault;
use crate::text_fault::TextFault;
use crate::word_fault::WordFault;
use std::fmt;

/// What is wrong with a line.
#[derive(Debug, Drop)]
pub enum Fault<'a> {
    /// Its blanks, its end or its beginning.
    Text(TextFault),
    /// A word of it.
    Word(WordFault<'a>),
    /// The page that it gives.
    Page(PageRefusal),
    /// The place of a line of a script.
    Place(PlaceFault),
    /// The place of a line of a plan.
    Plan(PlanFault<'a>),
    /// The place of a line of a capture.
    Call(CallFault),
}

impl fmt::Display for Fault<'_> {
    fn fmt<W: fmt::Write>(&self, f: &mut fmt::Formatter<W>) -> fmt::Result {
        match self {
            Fault::Text(fault) => write!(f, "{fault}"),
            Fault::Word(fault) => write!(f, "{fault}"),
            Fault::Page(fault) => write!(f, "{fault}"),
            Fault::Place(fault) => write!(f, "{fault}"),
            Fault::Plan(fault) => write!(f, "{fault}"),
            Fault::Call(fault) => write!(f, "{fault}"),
        }
    }
}

/// What is wrong with a line, and where. Its text is what stands behind two spaces in the line
/// below `line N: bad line`.
#[derive(Debug, Drop)]
pub struct Mistake<'a> {
    /// The column at which the fault begins, in bytes, from 1; that behind the last byte is the
    /// line's end.
    pub column: usize,
    /// What is wrong there.
    pub fault: Fault<'a>,
}

impl fmt::Display for Mistake<'_> {
    fn fmt<W: fmt::Write>(&self, f: &mut fmt::Formatter<W>) -> fmt::Result {
        write!(f, "column {}: {}", self.column, self.fault)
    }
}
