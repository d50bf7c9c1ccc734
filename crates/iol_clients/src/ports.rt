//! The ports of a plan, each over a simulated wire and device.
ghost use Rattle.std.specs.Prelude.{◌≡◌, All, IfOk, vec_len};
ghost use Rattle.iol_master.specs.Tickets.{HasIssued};

use iol_book::Limits;
use iol_device::Device;
use iol_isdu::Place;
use iol_page::Page;
use iol_port::Port;
use iol_sim::{Params, Sim};
use std::alloc::{AllocError, Global};

/// The one parameter of each device.
pub(crate) const PLACE: Place = Place { index: 16, sub: 0 };

/// The octets of that parameter.
const VALUE: [u8; 2] = [0x41, 0x42];

/// The page of each device: no process data, and 8 octets of on-request data.
const PAGE: [u8; 10] = [0x17, 0x2D, 0x11, 0x00, 0x00, 0x12, 0x34, 0x00, 0x01, 0x07];

/// The most requests that a device's record has room for.
const ROOM: u32 = 1_000;

/// A port over a clean wire, in operation after 15 turns.
fn open_port(alloc: Global) -> Result<Port<Sim<Params>>, AllocError>
    ensures { IfOk result (λ p. HasIssued p 0) }
{
    let mut params = Params::new();
    // The first parameter finds room.
    let _ = params.add(PLACE, false, &VALUE);
    let page = Page::from_octets(&PAGE);
    let Ok(device) = Device::open(alloc, params, page, ROOM) else {
        return Err(AllocError);
    };
    let Ok(wire) = Sim::new(alloc, device, Vec::new(alloc)) else {
        return Err(AllocError);
    };
    Port::open(alloc, wire, &Limits::default()).map_err(|_| AllocError)
}

/// So many ports, which gave no ticket yet.
pub(crate) fn open_ports(alloc: Global, count: u32) -> Result<Vec<Port<Sim<Params>>>, AllocError>
    ensures count { IfOk result (λ v. vec_len v ≡ count) }
    ensures fresh { IfOk result (λ v. All (λ p. HasIssued p 0) v.items) }
{
    let mut ports = Vec::new(alloc);
    for _ in 0..count {
        ports.push(open_port(alloc)?)?;
    }
    Ok(ports)
}
