//! A capture, read and judged: what `iolink trace` prints, or octets with their times as a decoder
//! exports them, told to a judge line by line.
//!
//! A [`TraceLine`] is what one line of a trace says. Octets are split by a [`Splitter`]. A
//! [`Judgement`] is what a judge of the device makes of the lines, and a watch of the master.
//! [`judge_capture`] reads them in either [`CaptureForm`], of a text of any length: it keeps one
//! line at a time.
//!
//! Definitions begin in `specs/TraceLines`; then `Watching`, what the watch is told, and the law of
//! the master; `Judging`, a line of a trace; `Octets`, a line of an export; `Capture`, a whole
//! text; and `Findings`, what is printed. A capture is judged exactly where each line is good in
//! its place; else its first bad line is named. `HonestCapture` has the laws of the device: a
//! capture that one by the rules brings over a lossy line is never called not honest.
//!
//! # Octets with their times
//!
//! The UART decoder of a logic analyser shows the octets of both sides in one stream. A
//! [`Splitter`] is told each of them with the time at which it begins. It tells messages and
//! replies apart by the lengths that the layout of the device's mode gives, and by the time between
//! them (IEC 61131-9, A.3): a pause is a missing reply. What it finds is what a
//! [`Judge`](iol_judge::Judge) is told.
//!
//! Definitions begin in `specs/Times`, and `Lengths`, what octets are by the layout; then `Waking`
//! and `Splitting`, what a splitter makes of one octet. `Written` says how a capture is written by
//! the rules, and the law: it is split into exactly that; `FairSplits`, that a judge who is told
//! this blames no device by the rules. `OctetLines` has the lines of an export.
#![tactic(auto)]

mod capture;
mod cells;
mod damage;
mod export;
mod fault;
mod gap;
mod heard;
mod hearing;
mod judgement;
mod laws;
mod link;
mod message;
mod octet_line;
mod opened;
mod passed;
mod printing;
mod spacing;
mod split_fault;
mod split_laws;
mod splitter;
mod telling;
mod test_read;
mod timed_call;
mod trace_event;
mod trace_line;
mod tracing;
mod watching;

pub use capture::judge_capture;
pub use export::ExportForm;
pub use fault::{CaptureFault, LineFault};
pub use gap::bit_time;
pub use judgement::Judgement;
pub use laws::{
    honest_captures_are_never_blamed, honest_octets_are_never_blamed, unseen_wakes_are_fair,
};
pub use octet_line::OctetLine;
pub use opened::CaptureReader;
pub use passed::{Exchange, SplitItem};
pub use printing::Finding;
pub use split_fault::SplitFault;
pub use split_laws::{octets_are_never_blamed, what_is_written_is_split};
pub use splitter::Splitter;
pub use telling::CaptureForm;
pub use timed_call::TimedCall;
pub use trace_line::TraceLine;
