//! Octets.
ghost use Rattle.std.specs.Prelude.{◌≡◌, drop, slice_index};
ghost use Rattle.iol_judge.specs.Octets.{are_as_known, is_other, may_be_even, with_octets};

/// The first octet, 0 where there is none.
pub(crate) fn first_octet(octets: &[u8]) -> u8
    ensures { result ≡ slice_index octets.now 0 }
{
    octets.first().copied().unwrap_or(0)
}

/// The octets behind the first.
pub(crate) fn rest_of(octets: &[u8]) -> &[u8]
    ensures { result.now ≡ drop 1 octets.now }
{
    match octets {
        [_, rest @ ..] => rest,
        [] => octets,
    }
}

/// Those from a place on.
pub(crate) fn from_place(observed: &[Option<u8>], place: usize) -> &[Option<u8>]
    ensures { result.now ≡ drop place observed.now }
{
    observed.get(place..).unwrap_or(&[])
}

/// Whether another octet is known.
pub(crate) fn is_other(known: &Option<u8>, octet: u8) -> bool
    ensures { result ≡ is_other known.now octet }
{
    match known {
        Some(known) => *known != octet,
        None => false,
    }
}

/// Whether none of these is known to be another, as far as both go.
pub(crate) fn are_as_known(observed: &[Option<u8>], octets: &[u8]) -> bool
    ensures { result ≡ are_as_known observed.now octets.now }
{
    match octets {
        [] => true,
        [octet, octets @ ..] => match observed {
            [] => true,
            [known, observed @ ..] => !is_other(known, *octet) && are_as_known(observed, octets),
        },
    }
}

/// These are known, from a place on.
pub(crate) fn note_octets(observed: &mut [Option<u8>], place: usize, octets: &[u8])
    ensures { observed.new ≡ with_octets observed.old place octets.now }
{
    let mut place = place;
    for octet in octets {
        if place < observed.len() {
            observed[place] = Some(*octet);
            place += 1;
        }
    }
}

/// Whether the XOR of octets, with this of others, may be 0: it is, where all of them are known.
pub(crate) fn may_be_even(sum: u8, observed: &[Option<u8>]) -> bool
    ensures { result ≡ may_be_even sum observed.now }
{
    let mut sum = sum;
    for octet in observed {
        match octet {
            Some(octet) => sum ^= *octet,
            None => return true,
        }
    }
    sum == 0
}
