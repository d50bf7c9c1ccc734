//! What is known of a device's page.
ghost use Rattle.std.specs.Prelude.{◌≡◌};
ghost use Rattle.iol_judge.specs.Observed.{layouts_by};

use crate::octets::first_octet;
use crate::open::Open;
use iol_octets::{Channel, Mc};
use iol_page::{Layouts, Page};
use std::marker::Model;

const CAPABILITY: u8 = 0x03;

const REVISION: u8 = 0x04;

const PROCESS_DATA_IN: u8 = 0x05;

const PROCESS_DATA_OUT: u8 = 0x06;

/// The layouts that a page asks for, where they are known.
pub type KnownLayouts = Result<Layouts, Open>;

/// The octets of direct parameter page 1, 0x02 to 0x0B, as far as they are known.
#[derive(Clone, Copy, Debug, PartialEq, Eq)]
pub struct ObservedPage {
    octets: [Option<u8>; 10],
}

impl Model for ObservedPage {
    ghost use Rattle.std.specs.Prelude.{List, Option, ℕ};

    ghost Value = { List (Option ℕ) };

    ghost view = { λ s. s.octets };

    ghost inverse = { λ octets. record { octets = octets } };
}

impl ObservedPage {
    ghost use Rattle.iol_judge.specs.Judged.{noted_by};
    ghost use Rattle.iol_judge.specs.Observed.{nothing_observed, whole_page, octet_observed, page_noted, layouts_observed};

    /// None of them.
    pub fn nothing() -> ObservedPage
        ensures { result ≡ nothing_observed }
    {
        ObservedPage { octets: [None; 10] }
    }

    /// All of them.
    pub fn whole(page: &[u8; 10]) -> ObservedPage
        ensures { result ≡ whole_page page.now }
    {
        ObservedPage {
            octets: [
                Some(page[0]),
                Some(page[1]),
                Some(page[2]),
                Some(page[3]),
                Some(page[4]),
                Some(page[5]),
                Some(page[6]),
                Some(page[7]),
                Some(page[8]),
                Some(page[9]),
            ],
        }
    }

    /// The octet that a page address other than 0x01 reads as, where it is known.
    pub fn octet(&self, address: u8) -> Option<u8>
        ensures { result ≡ octet_observed self.now address }
    {
        match address {
            0x02..=0x0B => self.octets[address as usize - 2],
            _ => Some(0),
        }
    }

    /// A page address was read as this octet.
    pub fn note(&mut self, address: u8, octet: u8)
        ensures { self.new ≡ page_noted self.old address octet }
    {
        if let 0x02..=0x0B = address {
            self.octets[address as usize - 2] = Some(octet);
        }
    }

    /// A good reply to a message with this control octet came.
    pub fn note_reply(&mut self, mc: Mc, reply: &[u8])
        ensures { self.new ≡ noted_by self.old mc reply.now }
    {
        if mc.read && mc.channel == Channel::Page {
            self.note(mc.address, first_octet(reply));
        }
    }

    /// The layouts that the page asks for, by the octets 0x03 to 0x06. Open: one of them isn't
    /// known, or they ask for none.
    pub fn layouts(&self) -> KnownLayouts
        ensures { result ≡ layouts_observed self.now }
    {
        let capability = self.octet(CAPABILITY).ok_or(Open::PageUnread)?;
        let revision = self.octet(REVISION).ok_or(Open::PageUnread)?;
        let input = self.octet(PROCESS_DATA_IN).ok_or(Open::PageUnread)?;
        let output = self.octet(PROCESS_DATA_OUT).ok_or(Open::PageUnread)?;
        layouts_of(capability, revision, input, output)
    }
}

/// The layouts that a page with these octets at 0x03 to 0x06 asks for.
#[tactic(auto, unfolding(crate::specs::Observed::layouts_by))]
fn layouts_of(capability: u8, revision: u8, input: u8, output: u8) -> KnownLayouts
    ensures { result ≡ layouts_by capability revision input output }
{
    let octets = [0, capability, revision, input, output, 0, 0, 0, 0, 0];
    match Page::from_octets(&octets).layouts() {
        Ok(layouts) => Ok(layouts),
        Err(_) => Err(Open::PageRefused),
    }
}
