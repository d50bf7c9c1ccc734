//! The ports, each over a simulated line to a device of its own.
ghost use Rattle.std.specs.Prelude.{IfOk};
ghost use Rattle.iol_master.specs.Tickets.{HasIssued};

use anyhow::{Result, bail};
use iol_book::Limits;
use iol_device::Device;
use iol_image::Image;
use iol_isdu::Place;
use iol_page::Page;
use iol_port::Port;
use iol_sim::{Params, Sim};
use std::alloc::Global;

/// The one parameter of each device.
pub const PLACE: Place = Place { index: 40, sub: 0 };

/// V1.1, with ISDU, 8 octets of on-request data, 16 bits of process data in, none out.
const PAGE: [u8; 10] = [0x17, 0x2D, 0x11, 0x10, 0x00, 0x12, 0x34, 0x00, 0x01, 0x07];

/// How many requests a device's record has room for.
const ROOM: u32 = 100;

/// A port over a line, at whose far end is a device with this number as its
/// parameter and its process data.
pub fn open_port(alloc: Global, number: u16) -> Result<Port<Sim<Params>>>
    ensures { IfOk result (λ p. HasIssued p 0) }
{
    let octets = number.to_be_bytes();
    let mut params = Params::new();
    params.add(PLACE, false, &octets)?;
    let Ok(mut device) = Device::open(alloc, params, Page::from_octets(&PAGE), ROOM) else {
        bail!("no memory");
    };
    device.set_input(&Image::new(&octets)?)?;
    let Ok(line) = Sim::new(alloc, device, Vec::new(alloc)) else {
        bail!("no memory");
    };
    match Port::open(alloc, line, &Limits::default()) {
        Ok(port) => Ok(port),
        Err((fault, _)) => Err(fault.into()),
    }
}
