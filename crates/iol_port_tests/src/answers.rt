//! Whose answers the record of a port's device has: those of the parameters with
//! which that device was opened.
ghost use Rattle.std.specs.Prelude.{IfOk};
ghost use Rattle.iol_sim.specs.Params.{AnsweredBy};

use crate::device::{PLACE, ROOM};
use crate::{first_app_follows_record, record_is_answered_by_the_first_params};
use iol_book::Limits;
use iol_device::Device;
use iol_isdu::Request;
use iol_page::Page;
use iol_peers::PLAIN;
use iol_port::{Call, Port};
use iol_sim::{Params, Sim};
use std::alloc::Global;
use std::test::Fail;

/// A port over a new device with these parameters, once these calls were made: the
/// parameters, as each request left them, answered all that its record has.
fn played(alloc: Global, params: Params, calls: &[Call]) -> Result<Port<Sim<Params>>, Fail>
    ensures { IfOk result (λ port. AnsweredBy params
        port.wire.device.far.carried
        port.wire.device.app) }
{
    let page = Page::from_octets(&PLAIN);
    if page.layouts().is_err() {
        return Err("a page without layouts")?;
    }
    let Ok(device) = Device::open(alloc, params, page, ROOM) else {
        return Err("no device")?;
    };
    let Ok(wire) = Sim::new(alloc, device, Vec::new(alloc)) else {
        return Err("no wire")?;
    };
    let Ok(mut port) = Port::open(alloc, wire, &Limits::default()) else {
        return Err("no port")?;
    };
    let _answers = port.run(alloc, calls)?;
    first_app_follows_record(&port);
    record_is_answered_by_the_first_params(&port);
    Ok(port)
}

/// What the device answers to a write that is lost, and to a read behind a restart, is in
/// `tests/rows`.
#[test]
fn the_first_parameters_answer(rt: HostRuntime) -> Result<(), Fail> {
    let mut params = Params::new();
    params.add(PLACE, true, &[0x41, 0x42])?;
    let calls = [Call::Submit(Request::read(PLACE)), Call::Turn];
    let port = played(rt.alloc(), params, &calls)?;
    assert!(rt; port.wire().device().carried().is_empty());
    Ok(())
}
