//! One event.
ghost use Rattle.std.specs.Prelude.{◌≡◌};

/// An event, as the diagnosis channel carries it (IEC 61131-9, A.6).
///
/// Every value of both fields is carried as it is (profile). `Default`, all bits 0,
/// fills the unused places of a list.
#[derive(Clone, Copy, Debug, Default, PartialEq, Eq)]
pub struct Event {
    /// The EventQualifier: bits 2 to 0 INSTANCE, bit 3 SOURCE, bits 5 to 4 TYPE, bits 7 to 6 MODE.
    pub qualifier: u8,
    /// The EventCode, which two octets carry, the high one first.
    pub code: u16,
}

impl Event {
    ghost use Rattle.iol_event.specs.Memory.{octets_of};

    /// The octets of its place: the qualifier, the code's high octet, its low octet.
    pub(crate) fn octets(self) -> [u8; 3]
        ensures { result ≡ octets_of self }
    {
        let [high, low] = self.code.to_be_bytes();
        [self.qualifier, high, low]
    }
}
