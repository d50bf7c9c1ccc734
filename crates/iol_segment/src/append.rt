//! Octets that are appended up to a size.
ghost use Rattle.std.specs.Prelude.{◌≡◌, ◌≤◌, ◌++◌, length, take};

use arrayvec::ArrayVec;

/// Appends as many of the octets as there is room for up to this size.
pub(crate) fn append<const N: usize>(into: &mut ArrayVec<u8, N>, size: usize, octets: &[u8])
    requires size { size ≤ N }
    requires fits { length into.old.items ≤ size }
    ensures { into.new.items ≡ take size (into.old.items ++ octets.now) }
{
    // Most segments lie in one of the two pieces of their text.
    if octets.is_empty() {
        return;
    }
    let count = octets.len().min(size - into.len());
    into.try_extend_from_slice(&octets[..count]).unwrap();
}
