//! Why the page of a line of a script is refused.
ghost use Rattle.std.specs.Prelude.{IfSome};
ghost use Rattle.iol_why.specs.Explained.{IsColumnOf};

use crate::cursor::Cursor;
use arrayvec::ArrayVec;
use iol_page::{Page, PageFault, PdLength};
use iol_script::{Words, parted_octets};
use std::fmt;

/// A page that is refused.
#[derive(Clone, Copy, Debug, PartialEq, Eq)]
pub struct PageRefusal(pub PageFault);

impl fmt::Display for PageRefusal {
    fn fmt<W: fmt::Write>(&self, f: &mut fmt::Formatter<W>) -> fmt::Result {
        let PageRefusal(fault) = self;
        write!(f, "the page is refused, {} {fault}: ", fault.code())?;
        match fault {
            PageFault::Revision(octet) => {
                write!(f, "octet 0x04 is {octet:02X}, and wanted is 11 or 10")
            }
            PageFault::BadPdLength => f.write_str("the octet is no length of process data"),
            PageFault::UnsupportedCode => {
                f.write_str("octet 0x03 asks for an M-sequence type that is left out")
            }
        }
    }
}

/// Why the octets behind the first word of a line are refused as a page, and the column of the one
/// that is at fault.
pub(crate) fn page_refusal_of(line: &[u8]) -> Option<(usize, PageRefusal)>
    ensures { IfSome result (λ found. IsColumnOf line.now found.0) }
{
    let mut words = Words::of(line)?;
    words.next()?;
    let octets: ArrayVec<u8, 10> = parted_octets(words)?;
    let page = Page::from_octets(&octets.into_inner().ok()?);
    let fault = fault_of(&page)?;
    Some((
        column_of(line, address_of(&page, &fault)),
        PageRefusal(fault),
    ))
}

/// Why a page is refused, if it is.
fn fault_of(page: &Page) -> Option<PageFault> {
    match page.layouts() {
        Ok(_) => None,
        Err(fault) => Some(fault),
    }
}

/// The address of the octet for which a page is refused.
fn address_of(page: &Page, fault: &PageFault) -> u8 {
    match fault {
        PageFault::UnsupportedCode => 0x03,
        PageFault::Revision(_) => 0x04,
        PageFault::BadPdLength if PdLength::from_octet(page.octet(0x05)).is_err() => 0x05,
        PageFault::BadPdLength => 0x06,
    }
}

/// The column of the octet of this address: that of 0x02 is the second word.
fn column_of(line: &[u8], address: u8) -> usize
    ensures { IsColumnOf line.now result }
{
    let mut place = Cursor::of(line);
    for _ in 1..address {
        place = place.behind();
    }
    place.column_in(line)
}
