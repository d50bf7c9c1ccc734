//! MC, the octet that says what a message is for (IEC 61131-9, A.1.2).
ghost use Rattle.std.specs.Prelude.{◌≡◌, ◌≤◌};

/// What a message speaks to in the device (IEC 61131-9, A.1.2).
#[derive(Clone, Copy, Debug, PartialEq, Eq)]
pub enum Channel {
    /// 0: process data as on-request data.
    Process,
    /// 1: the direct parameter page.
    Page,
    /// 2: the event memory.
    Diagnosis,
    /// 3: acyclic parameter services, cut into segments.
    Isdu,
}

/// The M-sequence control octet, the first of a master message (IEC 61131-9, A.1.2).
///
/// Bit 7 is 1 for a read and 0 for a write, bits 6 and 5 are the channel, bits 4 to 0 the address.
#[derive(Clone, Copy, Debug, PartialEq, Eq)]
pub struct Mc {
    pub read: bool,
    pub channel: Channel,
    /// 0 to 31. On the ISDU channel it is the flow control, as in [`Flow`](crate::Flow).
    pub address: u8,
    pub ghost in_range: { address ≤ 31 },
}

impl Mc {
    ghost use Rattle.iol_octets.specs.Control.{control_octet, control_of};
    ghost use Rattle.iol_octets.specs.declared.control.Mc.{Mc};

    /// Reads a control octet. Each octet is one.
    ///
    /// Rule OCT-1.
    pub fn from_octet(octet: u8) -> Mc
        ensures value { control_octet result ≡ octet }
        ensures only { (mc : Mc) → control_octet mc ≡ octet → result ≡ mc }
        ensures read { result ≡ control_of octet }
    {
        let channel = match (octet >> 5) & 3 {
            0 => Channel::Process,
            1 => Channel::Page,
            2 => Channel::Diagnosis,
            _ => Channel::Isdu,
        };
        Mc {
            read: octet >= 128,
            channel,
            address: octet & 31,
        }
    }

    /// Writes the control octet.
    ///
    /// Rule OCT-1.
    pub fn octet(self) -> u8
        ensures { result ≡ control_octet self }
    {
        let read = if self.read { 128 } else { 0 };
        let channel = match self.channel {
            Channel::Process => 0,
            Channel::Page => 32,
            Channel::Diagnosis => 64,
            Channel::Isdu => 96,
        };
        read + channel + self.address
    }
}
