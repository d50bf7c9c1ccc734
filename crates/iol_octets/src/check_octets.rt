//! CKT and CKS, the octets with a checksum in them (IEC 61131-9, A.1.3 and A.1.5).
ghost use Rattle.std.specs.Prelude.{◌≡◌, ◌<◌, ◌≤◌, ◌↔◌, IfOk, IsErrOf};

use crate::fault::OctetFault;

/// The M-sequence type, bits 7 and 6 of CKT (IEC 61131-9, A.1.3).
#[derive(Clone, Copy, Debug, PartialEq, Eq)]
pub enum SequenceType {
    /// TYPE_0: one octet of on-request data alone.
    Type0,
    /// TYPE_1: more octets of on-request data alone.
    Type1,
    /// TYPE_2: process data, and on-request data.
    Type2,
}

impl SequenceType {
    ghost use Rattle.iol_octets.specs.CheckOctets.{type_bits};

    /// The two bits: 0, 1 or 2.
    ///
    /// Rule OCT-3.
    pub fn bits(self) -> u8
        ensures { result ≡ type_bits self }
    {
        self as u8
    }
}

/// The checksum / M-sequence type octet, the second of a master message (IEC 61131-9, A.1.3).
///
/// Bits 7 and 6 are the M-sequence type, bits 5 to 0 the checksum of the message.
///
/// Rule OCT-3.
#[derive(Clone, Copy, Debug, PartialEq, Eq)]
pub struct Ckt {
    /// The M-sequence type.
    pub kind: SequenceType,
    /// The checksum, 0 to 63.
    pub sum: u8,
    pub ghost sum_in_range: { sum ≤ 63 },
}

impl Ckt {
    ghost use Rattle.iol_octets.specs.CheckOctets.{type_octet};

    /// Reads a checksum / M-sequence type octet. Refusal 1 ReservedType: its type is 3.
    pub fn from_octet(octet: u8) -> Result<Ckt, OctetFault>
        ensures reserved { IsErrOf result OctetFault.ReservedType ↔ (192 ≤ octet) }
        ensures value { IfOk result (λ ckt. type_octet ckt ≡ octet) }
    {
        let kind = match octet >> 6 {
            0 => SequenceType::Type0,
            1 => SequenceType::Type1,
            2 => SequenceType::Type2,
            _ => return Err(OctetFault::ReservedType),
        };
        Ok(Ckt {
            kind,
            sum: octet & 63,
        })
    }
}

/// The checksum / status octet, the last of a reply (IEC 61131-9, A.1.5).
///
/// Bit 7 is the Event flag, bit 6 the process data status, bits 5 to 0 the checksum of the reply.
///
/// Rule OCT-4.
#[derive(Clone, Copy, Debug, PartialEq, Eq)]
pub struct Cks {
    /// Whether the device has an event to be read.
    pub event: bool,
    /// Whether the process data in is invalid (PD status 1).
    pub invalid: bool,
    /// The checksum, 0 to 63.
    pub sum: u8,
    pub ghost sum_in_range: { sum ≤ 63 },
}

impl Cks {
    ghost use Rattle.iol_octets.specs.CheckOctets.{status_octet};

    /// Reads a checksum / status octet. Each octet is one.
    pub fn from_octet(octet: u8) -> Cks
        ensures { status_octet result ≡ octet }
    {
        Cks {
            event: octet >= 128,
            invalid: (octet >> 6) & 1 == 1,
            sum: octet & 63,
        }
    }
}
