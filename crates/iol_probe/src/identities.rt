//! The lines of a device that is expected, and of cycle times.
use crate::messages::print_layout;
use crate::printing::{print_named, print_ok, print_refused};
use crate::reading::{Line, is};
use iol_app::Transmission;
use iol_page::{CycleFault, CycleTime, Identity, Page};
use iol_port::{Counting, PortCore};
use std::alloc::AllocError;

/// The largest DeviceID.
const LARGEST: u64 = 0xFF_FFFF;

/// Answers a line of identities and cycle times. Whether it is one.
pub(crate) fn answer_identities(
    output: &mut String,
    page: &Page,
    name: &[u8],
    line: &mut Line<'_>,
) -> Result<bool, AllocError> {
    if is(name, b"identity") {
        let Identity { vendor, device } = page.identity();
        writeln!(output, "identity {vendor} {device}")?;
    } else if is(name, b"expected") {
        let expected = page.is_expected(Some(identity(line)));
        output.push_str(if expected { "expected\n" } else { "another\n" })?;
    } else if is(name, b"cycle") {
        print_cycle(output, CycleTime::from_octet(line.octet()))?;
    } else if is(name, b"micros") {
        print_cycle(output, CycleTime::from_micros(line.number(200_000) as u32))?;
    } else {
        return Ok(false);
    }
    Ok(true)
}

/// A VendorID and a DeviceID.
fn identity(line: &mut Line<'_>) -> Identity {
    Identity {
        vendor: line.number(u64::from(u16::MAX)) as u16,
        device: line.number(LARGEST) as u32,
    }
}

fn print_cycle(
    output: &mut String,
    cycle: Result<CycleTime, CycleFault>,
) -> Result<(), AllocError> {
    match cycle {
        Ok(cycle) => {
            let octet = cycle.octet();
            let micros = cycle.micros();
            writeln!(output, "cycle {octet:02X} {micros}")
        }
        Err(fault) => print_refused(output, fault.code(), &fault),
    }
}

/// Answers a line of what a port asks of its device. Whether it is one.
pub(crate) fn answer_asked(
    output: &mut String,
    port: &mut PortCore,
    name: &[u8],
    line: &mut Line<'_>,
) -> Result<bool, AllocError> {
    if is(name, b"expect") {
        print_counting(output, port.expect(identity(line)))?;
    } else if is(name, b"any") {
        print_counting(output, port.expect_any())?;
    } else if is(name, b"pace") {
        set_cycle(output, port, line)?;
    } else if is(name, b"page") {
        print_page(output, port.page())?;
    } else if is(name, b"reply") {
        print_reply(output, &port.asks())?;
    } else {
        return Ok(false);
    }
    Ok(true)
}

/// The cycle time of an octet, or the least one.
fn set_cycle(
    output: &mut String,
    port: &mut PortCore,
    line: &mut Line<'_>,
) -> Result<(), AllocError> {
    match CycleTime::from_octet(line.octet()) {
        Ok(cycle) => print_counting(output, port.set_cycle(Some(cycle))),
        Err(_) => print_counting(output, port.set_cycle(None)),
    }
}

fn print_counting(output: &mut String, counting: Counting) -> Result<(), AllocError> {
    match counting {
        Counting::Now => print_ok(output),
        Counting::Later => output.push_str("ok later\n"),
    }
}

fn print_page(output: &mut String, page: Option<Page>) -> Result<(), AllocError> {
    match page {
        Some(page) => print_named(output, "page", page.octets()),
        None => output.push_str("page none\n"),
    }
}

/// The layout of what goes out next, and how many octets a good reply has.
fn print_reply(output: &mut String, asked: &Transmission) -> Result<(), AllocError> {
    match asked {
        Transmission::Wake => output.push_str("wake\n"),
        Transmission::Exchange(out) => {
            output.push_str("layout")?;
            print_layout(output, &out.layout)?;
            let reply = out.reply;
            writeln!(output, " reply {reply}")
        }
    }
}
