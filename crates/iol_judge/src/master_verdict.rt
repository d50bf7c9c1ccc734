//! Verdicts.

use crate::blame::Blame;

/// What can be said of the master's side of a capture so far.
///
/// Exchanges are counted from 1, the first of the capture.
#[derive(Clone, Copy, Debug, PartialEq, Eq)]
pub enum MasterVerdict {
    /// No wake-up request was made yet, so that nothing is judged.
    Unjudged,
    /// A master by the rules may have sent all that.
    ByTheRules,
    /// No master by the rules would have sent the message of this exchange. Of what came behind it
    /// nothing is said.
    NotByTheRules(u64, Blame),
}
