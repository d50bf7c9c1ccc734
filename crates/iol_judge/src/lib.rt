//! The rules of a line, seen from outside, for both of its ends: could a device by the rules have
//! brought this capture, and would a master by the rules have sent it?
//!
//! A capture is what went over a line: wake-up requests, messages, and the replies to them. A
//! [`Judge`] of the device and a [`Watch`] of the master are each told them in turn.
//!
//! # The device
//!
//! A [`Judge`] keeps all states of a device that the exchanges so far admit. Where none is left, no
//! device by the rules could have brought the last reply over a lossy line, and the verdict says
//! why.
//!
//! The device may be of each kind that the standard lets be, and [`Judge::kinds`] says which of
//! them the exchanges so far admit. A state stands for devices of a set of kinds.
//!
//! It judges the start-up, direct parameter page 1, modes, the layouts of replies, events, and ISDU
//! transfers. Process data, events when they are shown first, and of an answer all but its kind,
//! length, CHKPDU and padding are free.
//!
//! Definitions begin in `specs/State`, what is kept of a device, with `Family`, `Events`,
//! `Transfers` and `Answers`, and `Taking`, what a message makes of it; then `Replies`, which
//! replies it may have sent, and `Judged`, the judge. `UnderWay` and `Admitted` say which devices a
//! kept state stands for, and the law: a capture that a device by the rules brings over a lossy
//! line is never called not honest.
//!
//! # The master
//!
//! A [`Watch`] keeps how far the master has come, by what it sent and by the good replies that
//! came. The first message that doesn't fit there ends the verdict, with why.
//!
//! What a master may choose is free: which page addresses it reads in a start-up, and in which
//! order; reads and writes of the page in each mode; requests and events in PREOPERATE too; IDLE 1
//! or IDLE 2; how long it waits for an answer; when it begins anew by a wake-up request.
//!
//! Definitions begin in `specs/MasterPhases`, the modes and their commands; then `MasterOutputs`,
//! `MasterReadings` and `MasterTransfers`, which messages are due beside; `Watched`, the watch, and
//! `WatchLaws`.
#![tactic(auto)]

mod answer;
mod blame;
mod events;
mod judge;
mod kinds;
mod laws;
mod master;
mod master_message;
mod master_output;
mod master_phase;
mod master_reading;
mod master_transfer;
mod master_verdict;
mod next;
mod observed;
mod octets;
mod open;
mod partial;
mod possible;
mod readable;
mod reason;
mod reply;
mod take;
mod taken;
mod transfer;
mod verdict;
mod watch;
mod watch_laws;

pub use blame::Blame;
pub use judge::Judge;
pub use kinds::Kinds;
pub use laws::{honest_lines_are_never_blamed, resumed_judges_are_fair};
pub use master_verdict::MasterVerdict;
pub use observed::{KnownLayouts, ObservedPage};
pub use open::Open;
pub use reason::Reason;
pub use take::layout_in;
pub use verdict::{Odd, Verdict, Wake};
pub use watch::Watch;
pub use watch_laws::repeats_and_wakes_are_fair;
