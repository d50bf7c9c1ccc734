//! The lines of single octets and checksums.
use crate::printing::{channel_name, print_flow, print_refused, yes_or_no};
use crate::reading::{Line, is};
use iol_octets::{Cks, Ckt, Flow, Mc, checksum6, has_checksum6};
use std::alloc::AllocError;

/// Answers a line of single octets. Whether it is one.
pub(crate) fn answer_octets(
    output: &mut String,
    name: &[u8],
    line: &mut Line<'_>,
) -> Result<bool, AllocError> {
    if is(name, b"checksum") {
        let sum = checksum6(line.octets().as_slice());
        writeln!(output, "checksum {sum:02X}")?;
    } else if is(name, b"sealed") {
        answer_sealed(output, line)?;
    } else if is(name, b"mc") {
        print_control(output, Mc::from_octet(line.octet()))?;
    } else if is(name, b"flow") {
        let address = line.flow().address();
        writeln!(output, "flow {address:02X}")?;
    } else if is(name, b"ckt") {
        print_ckt(output, line.octet())?;
    } else if is(name, b"cks") {
        print_cks(output, Cks::from_octet(line.octet()))?;
    } else {
        return Ok(false);
    }
    Ok(true)
}

/// A place and octets: whether the octet there has their checksum.
fn answer_sealed(output: &mut String, line: &mut Line<'_>) -> Result<(), AllocError> {
    let place = line.number(255) as usize;
    let octets = line.octets();
    if place >= octets.len() {
        line.refuse();
        return Ok(());
    }
    let is_sealed = yes_or_no(has_checksum6(octets.as_slice(), place));
    writeln!(output, "sealed {is_sealed}")
}

/// A control octet, the flow of its address, and the octet that it is written as.
fn print_control(output: &mut String, mc: Mc) -> Result<(), AllocError> {
    let direction = if mc.read { "read" } else { "write" };
    let channel = channel_name(mc.channel);
    let address = mc.address;
    write!(output, "mc {direction} {channel} {address:02X} flow ")?;
    print_flow(output, Flow::from_address(address))?;
    let octet = mc.octet();
    writeln!(output, " octet {octet:02X}")
}

fn print_ckt(output: &mut String, octet: u8) -> Result<(), AllocError> {
    match Ckt::from_octet(octet) {
        Ok(ckt) => {
            let kind = ckt.kind.bits();
            let sum = ckt.sum;
            writeln!(output, "ckt type {kind} sum {sum:02X}")
        }
        Err(fault) => print_refused(output, fault.code(), &fault),
    }
}

fn print_cks(output: &mut String, cks: Cks) -> Result<(), AllocError> {
    let event = u8::from(cks.event);
    let status = if cks.invalid { "invalid" } else { "valid" };
    let sum = cks.sum;
    writeln!(output, "cks event {event} pd {status} sum {sum:02X}")
}
