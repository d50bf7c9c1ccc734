//! The commands of the program `iolink`, each from a reader to a writer: [`check`],
//! [`run`], [`trace`], [`many`], and [`judge`] or [`judge_traced`].
//!
//! Each but the last two reads its input whole, up to 1,048,576 bytes, judges its lines from first
//! to last (crate iol_script), and prints what it makes of them; the clauses of
//! each say which input is refused, by which fault, and what text is printed. The last two
//! read a capture of any length (crate iol_capture).
//!
//! Definitions begin in `specs/Input`; then `Checked`, `RunPlayed`, `TracePrinted`, `ManyPrinted`,
//! `JudgePrinted` and `OctetsTraced`.
#![tactic(auto)]

mod check_command;
mod counters_printing;
mod ending;
mod fault;
mod judge_command;
mod many_command;
mod many_printing;
mod octet_tracing;
mod passing;
mod playing;
mod printing;
mod run_command;
mod run_printing;
mod streams;
mod trace_command;
mod tracing;

pub use check_command::check;
pub use counters_printing::cause_name;
pub use ending::print_ending;
pub use fault::ProgramFault;
pub use judge_command::{JudgeFault, judge, judge_traced};
pub use many_command::many;
pub use passing::print_passed;
pub use run_command::{played, run, table_wire_of, wire_of};
pub use run_printing::{port_fault_name, print_answer, print_place};
pub use streams::{LIMIT, read_input, write_output};
pub use trace_command::{trace, traced};
pub use tracing::{layout_now, pass_on};
