//! What several answers have.
use iol_isdu::{Answer, Place, Request};
use iol_octets::{Channel, Flow};
use std::alloc::AllocError;
use std::fmt::Display;

/// The octets, each behind a space.
pub(crate) fn print_octets(output: &mut String, octets: &[u8]) -> Result<(), AllocError> {
    for octet in octets {
        write!(output, " {octet:02X}")?;
    }
    Ok(())
}

/// A name, the octets and the end of the line.
pub(crate) fn print_named(
    output: &mut String,
    name: &str,
    octets: &[u8],
) -> Result<(), AllocError> {
    output.push_str(name)?;
    print_octets(output, octets)?;
    output.push_str("\n")
}

/// The octets, each behind a space, or a dash where there is none.
pub(crate) fn print_listed(output: &mut String, octets: &[u8]) -> Result<(), AllocError> {
    if octets.is_empty() {
        return output.push_str(" -");
    }
    print_octets(output, octets)
}

/// The number and the name of a refusal.
pub(crate) fn print_refused<F: Display>(
    output: &mut String,
    number: u8,
    fault: &F,
) -> Result<(), AllocError> {
    writeln!(output, "refused {number} {fault}")
}

pub(crate) fn print_ok(output: &mut String) -> Result<(), AllocError> {
    output.push_str("ok\n")
}

pub(crate) fn yes_or_no(is: bool) -> &'static str {
    if is { "yes" } else { "no" }
}

pub(crate) fn channel_name(channel: Channel) -> &'static str {
    match channel {
        Channel::Process => "process",
        Channel::Page => "page",
        Channel::Diagnosis => "diagnosis",
        Channel::Isdu => "isdu",
    }
}

/// A flow as a line says it; a reserved one by its address.
pub(crate) fn print_flow(output: &mut String, flow: Flow) -> Result<(), AllocError> {
    match flow {
        Flow::Start => output.push_str("start"),
        Flow::Count(count) => write!(output, "{count}"),
        Flow::Idle1 => output.push_str("idle1"),
        Flow::Idle2 => output.push_str("idle2"),
        Flow::Abort => output.push_str("abort"),
        Flow::Reserved(address) => write!(output, "reserved{address:02X}"),
    }
}

/// A request as a line says it, but the octets of a write each behind a space.
pub(crate) fn print_request(output: &mut String, request: &Request) -> Result<(), AllocError> {
    match request {
        Request::Read(Place { index, sub }) => write!(output, " read {index} {sub}"),
        Request::Write(Place { index, sub }, octets) => {
            write!(output, " write {index} {sub}")?;
            print_listed(output, octets.as_slice())
        }
    }
}

/// A request, and the answer to it.
pub(crate) fn print_pair(
    output: &mut String,
    request: &Request,
    answer: &Answer,
) -> Result<(), AllocError> {
    print_request(output, request)?;
    output.push_str(" answer")?;
    print_answer(output, answer)
}

/// An answer as a line says it, but the octets each behind a space.
pub(crate) fn print_answer(output: &mut String, answer: &Answer) -> Result<(), AllocError> {
    match answer {
        Answer::Read(octets) => {
            output.push_str(" read")?;
            print_listed(output, octets.as_slice())
        }
        Answer::Written => output.push_str(" written"),
        Answer::Refused(error, additional) => {
            output.push_str(" refused")?;
            print_octets(output, &[*error, *additional])
        }
    }
}
