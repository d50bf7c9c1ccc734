//! How many octets of on-request data a message has.
ghost use Rattle.std.specs.Prelude.{◌≡◌, ◌↔◌, IsSome, IfSome};
ghost use Rattle.iol_octets.specs.OdLength.{IsOdLength};

use std::marker::Model;

/// How many octets of on-request data the messages of a mode have, and each segment of a text with
/// them: 1 to 32. The standard's layouts have 1, 2, 8 or 32 (IEC 61131-9, A.2).
///
/// Contracts see the number.
#[derive(Clone, Copy, Debug, PartialEq, Eq)]
pub struct OdLength {
    octets: u8,
}

impl Model for OdLength {
    ghost use Rattle.std.specs.Prelude.{ℕ};
    ghost use Rattle.iol_octets.specs.OdLength.{IsOdLength};

    ghost Value = { ℕ };

    ghost view = { λ l. l.octets };

    ghost invariant = { λ l. IsOdLength l.octets };

    ghost inverse = { λ n. record { octets = n } };
}

impl OdLength {
    /// One octet, as in STARTUP.
    pub const ONE: OdLength = OdLength { octets: 1 };
    /// Two octets.
    pub const TWO: OdLength = OdLength { octets: 2 };
    /// Eight octets.
    pub const EIGHT: OdLength = OdLength { octets: 8 };
    /// The most that there are: 32 octets.
    pub const MOST: OdLength = OdLength { octets: 32 };

    /// The length of so many octets, or None where they aren't 1 to 32.
    pub fn new(octets: u8) -> Option<OdLength>
        ensures some { IsSome result ↔ IsOdLength octets }
        ensures value { IfSome result (λ length. length ≡ octets) }
    {
        match octets {
            1..=32 => Some(OdLength { octets }),
            _ => None,
        }
    }

    /// How many octets: 1 to 32.
    pub fn get(self) -> u8
        ensures value { result ≡ self }
        ensures range { IsOdLength result }
    {
        self.octets
    }
}
