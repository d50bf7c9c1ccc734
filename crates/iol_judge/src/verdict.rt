//! Verdicts.

use crate::open::Open;
use crate::reason::Reason;

/// What can be said of a capture so far.
///
/// Exchanges are counted from 1, the first of the capture.
#[derive(Clone, Copy, Debug, PartialEq, Eq)]
pub enum Verdict {
    /// No wake-up request was answered yet, so that nothing is judged.
    Unjudged,
    /// Nothing that is judged speaks against a device by the rules. What is free may.
    Honest,
    /// No device by the rules could have sent the reply of this exchange.
    NotHonest(u64, Reason),
    /// From this exchange on nothing can be said.
    CantSay(u64, Open),
}

/// Whether a wake-up request was answered.
#[derive(Clone, Copy, Debug, PartialEq, Eq)]
pub enum Wake {
    Answered,
    Unanswered,
}

/// What is done with a reply that is odd, but harmless: no promise to a client rests on what is
/// odd in it. Those reasons are 4 InvalidNotZero, 10 PageZero, 11 CycleTime, 12 ProcessNotZero, and
/// 13 RestNotZero.
#[derive(Clone, Copy, Debug, PartialEq, Eq)]
pub enum Odd {
    /// It is blamed, as each other.
    Blamed,
    /// It is counted and passed over, as though its octets were right.
    PassedOver,
}
