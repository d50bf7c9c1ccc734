//! Ports over simulated wires, each with a device of its own.
ghost use Rattle.std.specs.Prelude.{IfOk, IsOk};
ghost use Rattle.iol_master.specs.Tickets.{HasIssued};
ghost use Rattle.iol_page.specs.Page.{layouts_of};

use crate::check_word::CheckWord;
use crate::fault::BenchFault;
use iol_app::Mode;
use iol_book::{JournalLimit, Limits};
use iol_device::Device;
use iol_image::Image;
use iol_isdu::Place;
use iol_link::Wire;
use iol_page::Page;
use iol_port::Port;
use iol_sim::{Params, Sim, Step};
use std::alloc::Global;

/// The page of a device without process data, and with 8 octets of on-request data.
pub(crate) const PLAIN: [u8; 10] = [0x17, 0x2D, 0x11, 0x00, 0x00, 0x12, 0x34, 0x00, 0x01, 0x07];

/// The page of a device with 32 octets of process data each way, and of on-request data.
pub(crate) const WIDE: [u8; 10] = [0x17, 0x2F, 0x11, 0x9F, 0x9F, 0x12, 0x34, 0x00, 0x01, 0x07];

/// Where the parameter of a device lies.
pub(crate) const PLACE: Place = Place { index: 16, sub: 0 };

/// How many requests a device carries out, so that its record holds them.
pub(crate) const ROOM: u32 = 10_000;

/// What each port is opened with: a journal that holds the entries of as many requests.
fn limits() -> Limits {
    Limits {
        journal: JournalLimit::new(50_000).unwrap(),
        ..Limits::default()
    }
}

/// How many turns a start-up takes.
pub(crate) const STARTUP: u32 = 15;

/// A port over a simulated wire. The link is down. Its device has one parameter,
/// where a value is given for it.
pub(crate) fn opened(
    alloc: Global,
    page: Page,
    value: Option<&[u8]>,
    steps: Vec<Step>,
) -> Result<Port<Sim<Params>>, BenchFault>
    requires { IsOk (layouts_of page) }
    ensures { IfOk result (λ p. HasIssued p 0) }
{
    let wire = wire_to(alloc, page, value, steps)?;
    match Port::open(alloc, wire, &limits()) {
        Ok(port) => Ok(port),
        Err(_) => Err(BenchFault::OutOfMemory),
    }
}

/// A simulated wire to such a device. A function of its own, whose stack is free
/// again before the port is opened.
#[inline(never)]
fn wire_to(
    alloc: Global,
    page: Page,
    value: Option<&[u8]>,
    steps: Vec<Step>,
) -> Result<Sim<Params>, BenchFault>
    requires { IsOk (layouts_of page) }
{
    let params = params_of(value)?;
    let Ok(device) = Device::open(alloc, params, page, ROOM) else {
        return Err(BenchFault::OutOfMemory);
    };
    match Sim::new(alloc, device, steps) {
        Ok(wire) => Ok(wire),
        Err(_) => Err(BenchFault::OutOfMemory),
    }
}

/// The parameter of a device, where a value is given for it.
fn params_of(value: Option<&[u8]>) -> Result<Params, BenchFault> {
    let mut params = Params::new();
    if let Some(value) = value {
        params.add(PLACE, true, value)?;
    }
    Ok(params)
}

/// Makes so many turns.
pub(crate) fn turn<W: Wire>(port: &mut Port<W>, count: u64) {
    for _ in 0..count {
        port.turn();
    }
}

/// A start-up, at whose end the link is in OPERATE.
pub(crate) fn start<W: Wire>(port: &mut Port<W>) -> Result<(), BenchFault> {
    turn(port, u64::from(STARTUP));
    if port.status().mode == Mode::Operate {
        Ok(())
    } else {
        Err(BenchFault::Unexpected)
    }
}

/// What a port and its device show at the end.
pub(crate) fn shown(port: &Port<Sim<Params>>) -> CheckWord {
    let mut word = CheckWord::new();
    add_port(&mut word, port);
    word
}

/// The same, behind what came out before.
pub(crate) fn add_port(word: &mut CheckWord, port: &Port<Sim<Params>>) {
    word.add(match port.status().mode {
        Mode::Down => 0,
        Mode::Startup => 1,
        Mode::Preoperate => 2,
        Mode::Operate => 3,
    });
    add_image(word, port.image());
    let device = port.wire().device();
    add_image(word, device.output());
    word.add(device.carried().len() as u64);
}

/// The octets of an image, where there is one.
fn add_image(word: &mut CheckWord, image: Option<&Image>) {
    if let Some(image) = image {
        word.add_octets(image.octets());
    }
}
