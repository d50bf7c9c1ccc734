//! The lines of a trace: what goes over a line, with its explanation, as text.
//!
//! Text goes to a [`TextSink`]: a `String`, which grows, or an `ArrayString`, which takes no
//! memory. [`LineCall`] is one call of a line, whose text is of at most [`MOST_TRACE_LINE`] bytes.
//!
//! Definitions begin in `specs/LineCalls`; those below are `Passing`, `Meanings` and `Printed`.
#![tactic(auto)]

mod line_call;
mod meaning;
mod passing;
mod printing;
mod sink;

pub use line_call::{LineCall, LineText, MOST_TRACE_LINE, rate_numbered};
pub use meaning::{print_message_of, print_reply_of};
pub use passing::{print_exchange, print_wake};
pub use printing::{print_hexadecimal, print_number, print_octets, print_refusal};
pub use sink::TextSink;
