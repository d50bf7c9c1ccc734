//! Direct parameter page 1, and the layouts that it asks for (IEC 61131-9, B.1).
ghost use Rattle.std.specs.Prelude.{◌≡◌, length};

use crate::capability::Capability;
use crate::cycle::{CycleFault, CycleTime};
use crate::fault::PageFault;
use crate::identity::Identity;
use crate::lengths::PdLength;
use iol_mseq::Layout;
use std::marker::Model;

const MIN_CYCLE_TIME: u8 = 0x02;

const CAPABILITY: u8 = 0x03;

const REVISION: u8 = 0x04;

const PROCESS_DATA_IN: u8 = 0x05;

const PROCESS_DATA_OUT: u8 = 0x06;

/// The first of the two octets of VendorID.
const VENDOR: u8 = 0x07;

/// The first of the three octets of DeviceID.
const DEVICE: u8 = 0x09;

/// The OPERATE code that means interleaved process data, where there are enough octets.
const INTERLEAVING_CODE: u8 = 0;

/// The fewest octets of process data one way that are interleaved.
const FEWEST_INTERLEAVED: u8 = 3;

/// RevisionID of V1.0.
const VERSION_1_0: u8 = 0x10;

/// RevisionID of V1.1.
const VERSION_1_1: u8 = 0x11;

/// What a page asks for: the layouts after STARTUP, and whether the device has the ISDU channel.
#[derive(Clone, Copy, Debug, PartialEq, Eq)]
pub struct Layouts {
    /// That of PREOPERATE, none of a device of V1.0.
    pub pre: Option<Layout>,
    /// That of OPERATE.
    pub run: Layout,
    /// Whether the device has the ISDU channel.
    pub isdu: bool,
}

/// The octets of direct parameter page 1 that a device fills: addresses 0x02 to
/// 0x0B (IEC 61131-9, B.1.1).
#[derive(Clone, Copy, Debug, PartialEq, Eq)]
pub struct Page {
    octets: [u8; 10],
}

impl Model for Page {
    ghost use Rattle.std.specs.Prelude.{List, ℕ};

    ghost Value = { List ℕ };

    ghost view = { λ p. p.octets };

    ghost inverse = { λ octets. record { octets = octets } };
}

impl Page {
    ghost use Rattle.std.specs.Prelude.{IfOk};
    ghost use Rattle.std.specs.Result.{result_err};
    ghost use Rattle.iol_page.specs.Cycle.{cycle_fault};
    ghost use Rattle.iol_page.specs.Identity.{identity_of, is_expected};
    ghost use Rattle.iol_page.specs.Page.{is_interleaved, layouts_of, page_octet};

    /// The page with these octets, that of address 0x02 first.
    pub fn from_octets(octets: &[u8; 10]) -> Page
        ensures { result ≡ octets.now }
    {
        Page { octets: *octets }
    }

    /// The ten octets, that of address 0x02 first.
    pub fn octets(&self) -> &[u8; 10]
        ensures value { result.now ≡ self.now }
        ensures length { length self.now ≡ 10 }
    {
        &self.octets
    }

    /// The octet at an address. What lies outside 0x02 to 0x0B reads as 0 (profile).
    ///
    /// Rule PAGE-1.
    pub fn octet(&self, address: u8) -> u8
        ensures { result ≡ page_octet self.now address }
    {
        match address {
            0x02..=0x0B => self.octets[address as usize - 2],
            _ => 0,
        }
    }

    /// RevisionID: 0x11 is V1.1, 0x10 is V1.0 (IEC 61131-9, B.1.5).
    pub fn revision(&self) -> u8
        ensures { result ≡ page_octet self.now 4 }
    {
        self.octet(REVISION)
    }

    /// MinCycleTime, the shortest cycle time that the device allows (IEC 61131-9, B.1.3).
    /// Refusal 39 BadCycleTime: its time base is reserved.
    pub fn min_cycle(&self) -> Result<CycleTime, CycleFault>
        ensures value { IfOk result (λ cycle. cycle.octet ≡ page_octet self.now 2) }
        ensures refused { result_err result ≡ cycle_fault (page_octet self.now 2) }
    {
        CycleTime::from_octet(self.octet(MIN_CYCLE_TIME))
    }

    /// Who the device is.
    ///
    /// Rule PAGE-7.
    pub fn identity(&self) -> Identity
        ensures { result ≡ identity_of self.now }
    {
        let octet = |address: u8| u32::from(self.octet(address));
        Identity {
            vendor: 256 * u16::from(self.octet(VENDOR)) + u16::from(self.octet(VENDOR + 1)),
            device: 65_536 * octet(DEVICE) + 256 * octet(DEVICE + 1) + octet(DEVICE + 2),
        }
    }

    /// Whether the device is the one that is expected, if one is.
    ///
    /// Rule LINK-11.
    pub fn is_expected(&self, expected: Option<Identity>) -> bool
        ensures { result ≡ is_expected expected self.now }
    {
        match expected {
            Some(expected) => expected.is(&self.identity()),
            None => true,
        }
    }

    /// The layouts that the page asks for. RevisionID 0x10 (V1.0) has no
    /// PREOPERATE, and bits 5 and 4 of its capability are not looked at (profile).
    ///
    /// Refusals, the first that holds: 8 Revision, the RevisionID is neither 0x11 nor
    /// 0x10; 7 BadPdLength, of ProcessDataIn, then of ProcessDataOut; 2 UnsupportedCode.
    ///
    /// Rules PAGE-3, PAGE-5.
    pub fn layouts(&self) -> Result<Layouts, PageFault>
        ensures { result ≡ layouts_of self.now }
    {
        let revision = self.octet(REVISION);
        if revision != VERSION_1_1 && revision != VERSION_1_0 {
            return Err(PageFault::Revision(revision));
        }
        let capability = Capability::from_octet(self.octet(CAPABILITY));
        let pd_in = PdLength::from_octet(self.octet(PROCESS_DATA_IN))?;
        let pd_out = PdLength::from_octet(self.octet(PROCESS_DATA_OUT))?;
        let pre = match revision {
            VERSION_1_0 => Ok(None),
            _ => Layout::preoperate(capability.pre).map(Some),
        };
        let run = Layout::operate(capability.run, pd_in.0, pd_out.0);
        match (pre, run) {
            (Ok(pre), Ok(run)) => Ok(Layouts {
                pre,
                run,
                isdu: capability.isdu,
            }),
            _ => Err(PageFault::UnsupportedCode),
        }
    }

    /// Whether the page asks for interleaved process data (IEC 61131-9, A.2.6): its OPERATE code
    /// is 0, and its process data have three or more octets one way. `layouts` reads such a page
    /// as one without.
    ///
    /// Rule PAGE-9.
    pub fn is_interleaved(&self) -> bool
        ensures { result ≡ is_interleaved self.now }
    {
        let code = Capability::from_octet(self.octet(CAPABILITY)).run;
        let pd_in = PdLength::from_octet(self.octet(PROCESS_DATA_IN));
        let pd_out = PdLength::from_octet(self.octet(PROCESS_DATA_OUT));
        match (pd_in, pd_out) {
            (Ok(pd_in), Ok(pd_out)) => {
                code == INTERLEAVING_CODE
                    && (pd_in.0 >= FEWEST_INTERLEAVED || pd_out.0 >= FEWEST_INTERLEAVED)
            }
            _ => false,
        }
    }
}
