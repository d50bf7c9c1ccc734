//! Layouts: the sizes of a message's parts in each mode (IEC 61131-9, A.2).
ghost use Rattle.std.specs.Prelude.{◌≡◌, ◌≤◌, Ok, IsTrue};
ghost use Rattle.iol_mseq.specs.Shape.{IsLayout, is_size, shape, startup_shape, preoperate_shape, operate_shape};

use crate::fault::MseqFault;
use iol_octets::{OdLength, SequenceType};
use std::marker::Model;

/// Of which M-sequence type the messages of a mode are, and how many octets each
/// part has (IEC 61131-9, A.2).
///
/// On-request data has 1, 2, 8 or 32 octets, process data 0 to 32 each way. They say the type.
#[derive(Clone, Copy, Debug, PartialEq, Eq)]
pub struct Layout {
    kind: SequenceType,
    od: OdLength,
    pd_in: u8,
    pd_out: u8,
}

impl Model for Layout {
    ghost use Rattle.iol_mseq.specs.Shape.{Shape, IsLayout};

    ghost Value = { Shape };

    ghost view = { λ l. record {
      kind = l.kind;
      od = l.od;
      pd_in = l.pd_in;
      pd_out = l.pd_out;
    } };

    ghost invariant = { λ l. IsLayout (record {
      kind = l.kind;
      od = l.od;
      pd_in = l.pd_in;
      pd_out = l.pd_out;
    }) };

    ghost inverse = { λ s. record {
      kind = s.kind;
      od = s.od;
      pd_in = s.pd_in;
      pd_out = s.pd_out;
    } };
}

impl Layout {
    /// The layout of STARTUP: type 0, one octet of on-request data.
    ///
    /// Rule LAY-2.
    pub fn startup() -> Layout
        ensures value { result ≡ startup_shape }
        ensures valid { IsLayout result }
    {
        Layout::of_sizes(OdLength::ONE, 0, 0)
    }

    /// The layout of PREOPERATE with this code of the M-sequence Capability (IEC
    /// 61131-9, B.1.4): codes 0 to 3 have 1, 2, 8 and 32 octets of on-request data.
    /// Refusal 2 UnsupportedCode: a code above 3.
    ///
    /// Rule LAY-3.
    pub fn preoperate(code: u8) -> Result<Layout, MseqFault>
        ensures { result ≡ preoperate_shape code }
    {
        let od = match code {
            0 => OdLength::ONE,
            1 => OdLength::TWO,
            2 => OdLength::EIGHT,
            3 => OdLength::MOST,
            _ => return Err(MseqFault::UnsupportedCode),
        };
        Ok(Layout::of_sizes(od, 0, 0))
    }

    /// The layout of OPERATE with this code of the M-sequence Capability (IEC
    /// 61131-9, B.1.4) and these process data lengths, in octets (profile).
    ///
    /// Codes 0 and 4 have one octet of on-request data, 5 has two, 6 has 8, 7 has 32; 1 has two
    /// and goes without process data alone. Refusals, the first that holds: 2 UnsupportedCode,
    /// any other code, or 1 with process data; 3 BadLength, a length above 32.
    ///
    /// Rule LAY-4.
    pub fn operate(code: u8, pd_in: u8, pd_out: u8) -> Result<Layout, MseqFault>
        ensures { result ≡ operate_shape code pd_in pd_out }
    {
        let process = pd_in > 0 || pd_out > 0;
        let od = match (code, process) {
            (0 | 4, _) => OdLength::ONE,
            (1, false) | (5, _) => OdLength::TWO,
            (6, _) => OdLength::EIGHT,
            (7, _) => OdLength::MOST,
            _ => return Err(MseqFault::UnsupportedCode),
        };
        if pd_in > 32 || pd_out > 32 {
            return Err(MseqFault::BadLength);
        }
        Ok(Layout::of_sizes(od, pd_in, pd_out))
    }

    /// Rule LAY-1.
    fn of_sizes(od: OdLength, pd_in: u8, pd_out: u8) -> Layout
        requires size { IsTrue (is_size od) }
        requires pd_in { pd_in ≤ 32 }
        requires pd_out { pd_out ≤ 32 }
        ensures value { result ≡ shape od pd_in pd_out }
        ensures valid { IsLayout result }
    {
        let kind = match (pd_in, pd_out) {
            (0, 0) if od == OdLength::ONE => SequenceType::Type0,
            (0, 0) => SequenceType::Type1,
            _ => SequenceType::Type2,
        };
        Layout {
            kind,
            od,
            pd_in,
            pd_out,
        }
    }

    /// The M-sequence type.
    ///
    /// Rule LAY-1.
    pub fn kind(&self) -> SequenceType
        ensures value { result ≡ self.now.kind }
        ensures valid { IsLayout self.now }
    {
        self.kind
    }

    /// How many octets of on-request data: 1, 2, 8 or 32.
    pub fn od(&self) -> OdLength
        ensures value { result ≡ self.now.od }
        ensures valid { IsLayout self.now }
    {
        self.od
    }

    /// How many octets of process data in: 0 to 32.
    pub fn pd_in(&self) -> u8
        ensures value { result ≡ self.now.pd_in }
        ensures valid { IsLayout self.now }
    {
        self.pd_in
    }

    /// How many octets of process data out: 0 to 32.
    pub fn pd_out(&self) -> u8
        ensures value { result ≡ self.now.pd_out }
        ensures valid { IsLayout self.now }
    {
        self.pd_out
    }
}
