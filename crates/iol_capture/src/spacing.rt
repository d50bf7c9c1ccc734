//! How soon octets begin behind one another, and which rate that speaks for.
ghost use Rattle.std.specs.Prelude.{◌≡◌};
ghost use Rattle.iol_capture.specs.Spacings.{doubt_at, doubt_of, fits_rate, likely_rate, nothing_spaced, spaced_by};

use crate::gap::Gap;
use iol_link::Rate;

/// Why the rate of a line can't be the one that was given: another one is likely.
#[derive(Clone, Copy, Debug, PartialEq, Eq)]
pub(crate) enum RateDoubt {
    /// Octets begin before those before have ended.
    Overlap(Rate, Rate),
    /// No octet begins as soon behind another one as within a message.
    Apart(Rate, Rate),
}

/// How soon octets begin behind one another, in nanoseconds.
#[derive(Clone, Copy, Debug, PartialEq, Eq)]
pub(crate) struct Spacing {
    /// When the last octet began.
    last: Option<u64>,
    /// How long behind the one before an octet began at least.
    least: Option<u64>,
}

impl Spacing {
    /// No octet began.
    pub fn nothing() -> Spacing
        ensures { result ≡ nothing_spaced }
    {
        Spacing {
            last: None,
            least: None,
        }
    }

    /// An octet begins at this time.
    pub fn note(&mut self, time: u64)
        ensures { self.new ≡ spaced_by self.old time }
    {
        if let Some(last) = self.last {
            let elapsed = time.saturating_sub(last);
            self.least = match self.least {
                Some(least) if least <= elapsed => Some(least),
                _ => Some(elapsed),
            };
        }
        self.last = Some(time);
    }

    /// Why this can't be the rate of the line.
    pub fn doubt(&self, rate: Rate) -> Option<RateDoubt>
        ensures { result ≡ doubt_of self.now rate }
    {
        doubt_at(rate, self.least?)
    }
}

/// Why this can't be the rate of a line whose octets begin at least so long behind one another.
fn doubt_at(rate: Rate, least: u64) -> Option<RateDoubt>
    ensures { result ≡ doubt_at rate least }
{
    if fits(rate, least) {
        return None;
    }
    let likely = likely_rate(least)?;
    Some(match Gap::of(rate, least) {
        Gap::Overlap => RateDoubt::Overlap(rate, likely),
        _ => RateDoubt::Apart(rate, likely),
    })
}

/// The rate at which octets of a message begin so long behind one another.
fn likely_rate(least: u64) -> Option<Rate>
    ensures { result ≡ likely_rate least }
{
    if fits(Rate::Com1, least) {
        Some(Rate::Com1)
    } else if fits(Rate::Com2, least) {
        Some(Rate::Com2)
    } else if fits(Rate::Com3, least) {
        Some(Rate::Com3)
    } else {
        None
    }
}

/// Whether octets of a message begin so long behind one another at this rate.
fn fits(rate: Rate, least: u64) -> bool
    ensures { result ≡ fits_rate rate least }
{
    Gap::of(rate, least).is_in_message()
}
