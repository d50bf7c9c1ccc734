//! A word that everything which came out of a case has a part in.
use std::fmt;

/// What the fold begins with, and its factor: those of the hash FNV-1a.
const SEED: u64 = 0xCBF2_9CE4_8422_2325;

const FACTOR: u64 = 0x0000_0100_0000_01B3;

/// Numbers that came out of a case, folded in their order.
///
/// Two programs that print one word did the same; and no compiler leaves work out
/// whose result is folded.
#[derive(Clone, Copy)]
pub(crate) struct CheckWord(u64);

impl CheckWord {
    /// No number.
    pub(crate) fn new() -> CheckWord {
        CheckWord(SEED)
    }

    /// One more number.
    pub(crate) fn add(&mut self, number: u64) {
        self.0 = (self.0 ^ number).wrapping_mul(FACTOR);
    }

    /// The number of the octets, and each of them.
    pub(crate) fn add_octets(&mut self, octets: &[u8]) {
        self.add(octets.len() as u64);
        for octet in octets {
            self.add(u64::from(*octet));
        }
    }
}

impl fmt::Display for CheckWord {
    fn fmt<W: fmt::Write>(&self, f: &mut fmt::Formatter<W>) -> fmt::Result {
        write!(f, "{:016X}", self.0)
    }
}
