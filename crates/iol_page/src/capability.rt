//! M-sequence Capability (IEC 61131-9, B.1.4).
ghost use Rattle.std.specs.Prelude.{◌≡◌, ◌≤◌};

/// The M-sequence Capability octet, at address 0x03 (IEC 61131-9, B.1.4). Bits 7 and 6 are ignored.
#[derive(Clone, Copy, Debug, PartialEq, Eq)]
pub struct Capability {
    /// Bit 0: the device has the ISDU channel.
    pub isdu: bool,
    /// Bits 3 to 1: the M-sequence code of OPERATE, 0 to 7.
    pub run: u8,
    /// Bits 5 and 4: the M-sequence code of PREOPERATE, 0 to 3.
    pub pre: u8,
    pub ghost run_in_range: { run ≤ 7 },
    pub ghost pre_in_range: { pre ≤ 3 },
}

impl Capability {
    ghost use Rattle.iol_page.specs.Page.{has_isdu, operate_code, preoperate_code};

    /// Reads the octet. Each octet is a capability.
    ///
    /// Rule PAGE-2.
    pub fn from_octet(octet: u8) -> Capability
        ensures isdu { result.isdu ≡ has_isdu octet }
        ensures run { result.run ≡ operate_code octet }
        ensures pre { result.pre ≡ preoperate_code octet }
    {
        Capability {
            isdu: octet & 1 == 1,
            run: (octet >> 1) & 7,
            pre: (octet >> 4) & 3,
        }
    }
}
