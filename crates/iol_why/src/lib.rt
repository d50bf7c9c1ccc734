//! Why a line of the program's input is bad: what was met, where, and what was wanted there.
//!
//! A reader of lines says the number of its first bad line, and no more. What is wrong with that
//! line is asked afterwards, of the text: its blanks, its words by the form that they fit furthest
//! ([`LineForm`]), or its place among the others. A [`Mistake`] is the answer, and its text is what
//! `--why` prints. The forms are those that help shows ([`Section`]).
//!
//! A line that its reader takes is never explained by a form. Definitions: `specs/Explained`.
#![tactic(auto)]

mod call_fault;
mod cursor;
mod departure;
mod explain;
mod field;
mod form;
mod help;
mod mistake;
mod near;
mod page_refusal;
mod plan_place;
mod quoted;
mod retained;
mod script_place;
mod tables;
mod text_fault;
mod word_fault;

pub use call_fault::CallFault;
pub use departure::WantedList;
pub use explain::{explain_capture, explain_check, explain_plan, explain_script};
pub use field::{Field, FieldFault, Unfit, Value};
pub use form::{LineForm, Lines, Part};
pub use help::Section;
pub use mistake::{Fault, Mistake};
pub use page_refusal::PageRefusal;
pub use plan_place::PlanFault;
pub use retained::{Keeping, RetainedInput, RetainedText};
pub use script_place::PlaceFault;
pub use text_fault::TextFault;
pub use word_fault::WordFault;
