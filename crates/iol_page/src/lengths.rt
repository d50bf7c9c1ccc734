//! ProcessDataIn and ProcessDataOut, the lengths of process data (IEC 61131-9, B.1.6 and B.1.7).
ghost use Rattle.std.specs.Prelude.{◌≡◌, ◌≤◌, option_map, IfOk};
ghost use Rattle.std.specs.Result.{result_err, result_ok};

use crate::fault::PageFault;

/// The length of process data, in whole octets: 0 to 32.
#[derive(Clone, Copy, Debug, PartialEq, Eq)]
pub struct PdLength(pub u8);

impl PdLength {
    ghost use Rattle.iol_page.specs.Page.{length_of, length_fault};

    /// Reads a ProcessDataIn or ProcessDataOut octet (IEC 61131-9, B.1.6 and B.1.7).
    ///
    /// Bit 7 (BYTE) 0: bits 4 to 0 are a length in bits, 0 to 16, which is rounded up
    /// to octets (profile). Bit 7 1: they are 2 to 31, which means 3 to 32 octets. Bits
    /// 6 (SIO) and 5 are ignored. Refusal 7 BadPdLength: any other length (profile).
    ///
    /// Rule PAGE-4.
    pub fn from_octet(octet: u8) -> Result<PdLength, PageFault>
        ensures value { option_map (λ l. l.0) (result_ok result) ≡ length_of octet }
        ensures refused { result_err result ≡ length_fault octet }
        ensures small { IfOk result (λ l. l.0 ≤ 32) }
    {
        match (octet >= 128, octet & 31) {
            (false, 0) => Ok(PdLength(0)),
            (false, 1..=8) => Ok(PdLength(1)),
            (false, 9..=16) => Ok(PdLength(2)),
            (true, length @ 2..=31) => Ok(PdLength(length + 1)),
            _ => Err(PageFault::BadPdLength),
        }
    }
}
