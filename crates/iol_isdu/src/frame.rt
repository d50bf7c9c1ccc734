//! The frame of each text: its first octet, ExtLength and CHKPDU (IEC 61131-9,
//! A.5.2, A.5.3 and A.5.6).
ghost use Rattle.std.specs.Prelude.{◌≡◌, IfOk, fold, bit_xor};
ghost use Rattle.std.specs.Result.{result_err};
ghost use Rattle.iol_isdu.specs.Frame.{total_at, frame_fault, Frames, xor_of};

use crate::fault::IsduFault;

/// The longest total length that stands in the low four bits of the first octet.
pub(crate) const LONGEST_PLAIN: usize = 15;

/// The low four bits of a first octet behind which an ExtLength stands.
pub(crate) const EXTENDED: u8 = 1;

/// The XOR of all octets.
pub(crate) fn xor_of(octets: &[u8]) -> u8
    ensures { result ≡ xor_of octets.now }
{
    xor_on(0, octets)
}

/// The XOR of all octets, from this one on.
pub(crate) fn xor_on(sum: u8, octets: &[u8]) -> u8
    ensures { result ≡ fold bit_xor sum octets.now }
{
    octets.iter().fold(sum, |sum, octet| sum ^ *octet)
}

/// The total length of the text that the octets begin with, in octets, as its first octet or its
/// ExtLength says (IEC 61131-9, A.5.3): 2 to 15, or 17 to 238.
///
/// Refused with 10 `Truncated` where the octets are too few to hold a total length, and with
/// 11 `BadIsduLength` where they hold one that no text has. Service and CHKPDU are not looked at.
///
/// Rule ISDU-2.
pub fn total_of(octets: &[u8]) -> Result<usize, IsduFault>
    ensures { result ≡ total_at octets.now }
{
    let Some(first) = octets.first() else {
        return Err(IsduFault::Truncated);
    };
    match *first & 0x0F {
        0 => Err(IsduFault::BadIsduLength),
        EXTENDED => match octets.get(1) {
            None => Err(IsduFault::Truncated),
            Some(total) if (17..=238).contains(total) => Ok(usize::from(*total)),
            Some(_) => Err(IsduFault::BadIsduLength),
        },
        total => Ok(usize::from(total)),
    }
}

/// The front of octets that is as long as it says. Its CHKPDU may be wrong.
#[derive(Clone, Copy)]
pub(crate) struct Frame<'a> {
    /// The high four bits of the first octet.
    pub service: u8,
    /// What stands between the total length and the CHKPDU.
    pub body: &'a [u8],
    /// All of it.
    pub text: &'a [u8],
}

/// The frame that the octets begin with.
///
/// Rules ISDU-1, ISDU-9.
pub(crate) fn frame_of(octets: &[u8]) -> Result<Frame<'_>, IsduFault>
    ensures refused { result_err result ≡ frame_fault octets.now }
    ensures found { IfOk result (λ f. Frames octets.now f.service f.body.now f.text.now) }
{
    let total = total_of(octets)?;
    if octets.len() < total {
        return Err(IsduFault::Truncated);
    }
    let text = &octets[..total];
    let head = if total <= LONGEST_PLAIN { 1 } else { 2 };
    Ok(Frame {
        service: text[0] >> 4,
        body: &text[head..total - 1],
        text,
    })
}
