//! Devices, ports and masters, opened where no memory is lacking.
ghost use Rattle.std.specs.Prelude.{◌≡◌, ◌≤◌, ◌∷◌, [], All, IfOk, vec_len};
ghost use Rattle.iol_master.specs.Tickets.{HasIssued};
ghost use Rattle.iol_master.specs.Ledgers.{IsBlankFor};

use iol_book::Limits;
use iol_cell::Handle;
use iol_device::Device;
use iol_isdu::Place;
use iol_link::Wire;
use iol_master::Master;
use iol_page::Page;
use iol_peers::PLAIN;
use iol_port::Port;
use iol_sim::{Params, Sim, Step};
use std::alloc::{AllocError, Allocator, Global};
use std::process::Abort;
use std::sync::ledger::{Blank, Ledger};
use std::test::Fail;

/// A wire with these steps, to a device with this page, which keeps this value at 16/0.
pub fn wired(
    alloc: Global,
    page: &[u8; 10],
    value: &[u8],
    steps: Vec<Step>,
) -> Result<Sim<Params>, Fail> {
    let mut params = Params::new();
    params.add(Place { index: 16, sub: 0 }, false, value)?;
    let page = Page::from_octets(page);
    if page.layouts().is_err() {
        return Err("a page without layouts")?;
    }
    let device = match Device::open(alloc, params, page, 1_000) {
        Ok(device) => device,
        Err((fault, _)) => return Err(Fail::from(fault)),
    };
    match Sim::new(alloc, device, steps) {
        Ok(sim) => Ok(sim),
        Err((fault, _, _)) => Err(Fail::from(fault)),
    }
}

/// A port over this wire.
pub fn open_port<W: Wire + Drop>(alloc: Global, wire: W) -> Result<Port<W>, Fail>
    ensures { IfOk result (λ p. HasIssued p 0) }
{
    match Port::open(alloc, wire, &Limits::default()) {
        Ok(port) => Ok(port),
        Err((fault, _)) => Err(Fail::from(fault)),
    }
}

/// A list of this alone.
pub fn alone<T: Drop, A: Allocator>(alloc: A, item: T) -> Result<Vec<T, A>, AllocError>
    ensures { IfOk result (λ v. (vec_len v ≡ 1) × (v.items ≡ item ∷ [])) }
{
    let mut items = Vec::with_capacity(alloc, 1)?;
    items.push_reserved(item);
    Ok(items)
}

/// A port whose device has a value of its own: 0x42, and this number.
pub fn numbered_port(alloc: Global, number: u8) -> Result<Port<Sim<Params>>, Fail>
    ensures { IfOk result (λ p. HasIssued p 0) }
{
    let wire = wired(alloc, &PLAIN, &[0x42, number], Vec::new(alloc))?;
    open_port(alloc, wire)
}

/// So many ports, numbered from 0.
pub fn numbered(alloc: Global, count: u8) -> Result<Vec<Port<Sim<Params>>>, Fail>
    ensures { IfOk result (λ v. (vec_len v ≡ count) × All (λ p. HasIssued p 0) v.items) }
{
    let mut ports = Vec::new(alloc);
    for index in 0..count {
        ports.push(numbered_port(alloc, index)?)?;
    }
    Ok(ports)
}

/// A master over these ports; the test fails where there is no memory for its locks.
pub fn open_master<W: Wire + Drop, L: Ledger, K: Ledger, A: Handle, R: Abort>(
    rt: &R,
    alloc: A,
    ports: Vec<Port<W, A>, A>,
    clients: Blank,
    tickets: Blank,
) -> Master<W, L, K, A>
    requires clients { IsBlankFor clients L.name L.parts 1025 }
    requires tickets { IsBlankFor tickets K.name K.parts (vec_len ports) }
    requires count { (1 ≤ vec_len ports) × (vec_len ports ≤ 32) }
    requires fresh { All (λ p. HasIssued p 0) ports.items }
{
    Master::open(alloc, ports, clients, tickets)
        .ok()
        .expect(rt, "memory")
}

/// A master over this port alone.
pub fn open_one<W: Wire + Drop, L: Ledger, K: Ledger, A: Handle, R: Abort>(
    rt: &R,
    alloc: A,
    port: Port<W, A>,
    clients: Blank,
    tickets: Blank,
) -> Result<Master<W, L, K, A>, AllocError>
    requires clients { IsBlankFor clients L.name L.parts 1025 }
    requires tickets { IsBlankFor tickets K.name K.parts 1 }
    requires fresh { HasIssued port 0 }
{
    let ports = alone(alloc, port)?;
    Ok(open_master(rt, alloc, ports, clients, tickets))
}
