//! A device with one parameter, and a simulated wire to it.
ghost use Rattle.std.specs.Prelude.{⊤};

use iol_device::{App, Device, FullRecord};
use iol_isdu::{Answer, Octets, Place, Request};
use iol_page::Page;
use iol_sim::{Sim, Step};
use std::alloc::{Allocator, Global};
use std::test::Fail;

/// How many requests a device records.
pub const ROOM: u32 = 8;

/// Where the parameter of each device here stands.
pub const PLACE: Place = Place { index: 16, sub: 0 };

/// The application of a device: its one parameter, an octet that is read only.
#[derive(PartialEq, Drop)]
pub struct Parameter(pub u8);

impl App for Parameter {
    ghost carry_out_gives = { λ before request answer after. ⊤ };

    fn carry_out(&mut self, request: &Request) -> Answer {
        match request {
            Request::Read(PLACE) => Answer::Read(octets_of(self.0)),
            Request::Read(_) => INDEX_NOT_AVAILABLE,
            Request::Write(..) => ACCESS_DENIED,
        }
    }
}

const INDEX_NOT_AVAILABLE: Answer = Answer::Refused(0x80, 0x11);

const ACCESS_DENIED: Answer = Answer::Refused(0x80, 0x23);

/// One octet.
pub fn octets_of(octet: u8) -> Octets {
    let mut octets = Octets::new();
    octets.push(octet);
    octets
}

/// A device of this page; none where its page has no layouts, or there is no memory.
pub fn open_device<P: App, A: Allocator + Copy>(
    alloc: A,
    app: P,
    page: &[u8; 10],
) -> Option<Device<P, FullRecord<A>>> {
    let page = Page::from_octets(page);
    if page.layouts().is_err() {
        return None;
    }
    Device::open(alloc, app, page, ROOM).ok()
}

/// A wire of this script to a device of this page.
pub fn device<P: App>(
    alloc: Global,
    app: P,
    page: &[u8; 10],
    steps: Vec<Step>,
) -> Result<Sim<P>, Fail> {
    let Some(device) = open_device(alloc, app, page) else {
        return Err("no device")?;
    };
    match Sim::new(alloc, device, steps) {
        Ok(wire) => Ok(wire),
        Err(_) => Err("no wire")?,
    }
}
