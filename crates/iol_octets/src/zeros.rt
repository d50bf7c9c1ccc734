//! Zeros.
ghost use Rattle.std.specs.Prelude.{◌≡◌};
ghost use Rattle.iol_octets.specs.Zeros.{are_zeros};

/// Whether all octets are zeros.
pub fn are_zeros(octets: &[u8]) -> bool
    ensures { result ≡ are_zeros octets.now }
{
    octets.iter().all(|octet| *octet == 0)
}
