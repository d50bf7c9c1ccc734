//! The lines of a port without a wire.
//!
//! ```text
//! port open JOURNAL BUSY GIVEN [QUEUE]
//! port send|asks|awaits|receive OCTETS|silence|woken com1|com2|com3|none
//! port submit|urgent REQUEST|collect T|withdraw T|cancel T|abandon T|archive
//! port restart|output OCTETS|clear|image|event|status|counters|last
//! port expect VENDOR DEVICE|any|pace OO|page|reply
//! ```
use crate::devices::print_image;
use crate::events::print_event;
use crate::identities::answer_asked;
use crate::printing::{print_named, print_octets, print_ok, print_refused};
use crate::reading::{Line, is};
use crate::tickets::{
    limits, print_archived, print_collected, print_done, print_submitted, ticket,
};
use iol_app::{Status, Transmission};
use iol_event::Event;
use iol_image::Image;
use iol_link::Rate;
use iol_mode::Why;
use iol_mseq::Message;
use iol_page::Identity;
use iol_port::{AwaitedAnswer, PortCore, PortFault};
use std::alloc::{AllocError, Global};

/// A line of a port, behind `port`.
pub(crate) fn answer_port(
    output: &mut String,
    alloc: Global,
    port: &mut Option<PortCore>,
    line: &mut Line<'_>,
) -> Result<(), AllocError> {
    let name = line.word();
    if is(name, b"open") {
        let Ok(opened) = PortCore::open(alloc, &limits(line)) else {
            return Err(AllocError);
        };
        *port = Some(opened);
        return print_ok(output);
    }
    match port {
        Some(port) => answer_call(output, port, name, line),
        None => {
            line.refuse();
            Ok(())
        }
    }
}

/// The lines of a request or a ticket, and others.
fn answer_call(
    output: &mut String,
    port: &mut PortCore,
    name: &[u8],
    line: &mut Line<'_>,
) -> Result<(), AllocError> {
    if is(name, b"submit") {
        print_submitted(output, port.submit(line.request()))
    } else if is(name, b"urgent") {
        print_submitted(output, port.submit_urgent(line.request()))
    } else if is(name, b"collect") {
        print_collected(output, port.collect(ticket(line)))
    } else if is(name, b"withdraw") {
        print_done(output, port.withdraw(ticket(line)))
    } else if is(name, b"abandon") {
        print_done(output, port.abandon(ticket(line)))
    } else if is(name, b"cancel") {
        print_done(output, port.cancel(ticket(line)))
    } else if is(name, b"output") {
        set_output(output, port, line.octets().as_slice())
    } else if is(name, b"archive") {
        print_archived(output, port.archive())
    } else if answer_asked(output, port, name, line)? {
        Ok(())
    } else {
        answer_bare(output, port, name, line)
    }
}

/// The lines of one word, and others.
fn answer_bare(
    output: &mut String,
    port: &mut PortCore,
    name: &[u8],
    line: &mut Line<'_>,
) -> Result<(), AllocError> {
    if is(name, b"send") {
        print_asked(output, "send", port.send())
    } else if is(name, b"asks") {
        print_asked(output, "asks", port.asks())
    } else if is(name, b"awaits") {
        let awaits = port.awaits();
        writeln!(output, "awaits {awaits:?}")
    } else if is(name, b"event") {
        print_taken(output, port.take_event())
    } else if is(name, b"image") {
        print_image(output, "image", port.image())
    } else if is(name, b"status") {
        print_status(output, port.status())
    } else if is(name, b"last") {
        print_loss(output, port.last_loss())
    } else if is(name, b"counters") {
        let counters = port.counters();
        writeln!(output, "{counters:?}")
    } else {
        act(port, name, line);
        print_ok(output)
    }
}

/// The lines that change something, and are told no more than that.
fn act(port: &mut PortCore, name: &[u8], line: &mut Line<'_>) {
    if is(name, b"receive") {
        receive(port, line);
    } else if is(name, b"silence") {
        silence(port, line);
    } else if is(name, b"woken") {
        woken(port, line);
    } else if is(name, b"restart") {
        restart(port, line);
    } else if is(name, b"clear") {
        port.clear_output();
    } else {
        line.refuse();
    }
}

/// What came back to the octets that were sent, at most 66.
fn receive(port: &mut PortCore, line: &mut Line<'_>) {
    match Message::try_from(line.octets().as_slice()) {
        Ok(received) if port.awaits() == AwaitedAnswer::Reply => port.receive(&Some(received)),
        _ => line.refuse(),
    }
}

/// Nothing came back.
fn silence(port: &mut PortCore, line: &mut Line<'_>) {
    if port.awaits() == AwaitedAnswer::Reply {
        port.receive(&None);
    } else {
        line.refuse();
    }
}

/// What came of a wake-up request.
fn woken(port: &mut PortCore, line: &mut Line<'_>) {
    let rate = rate(line);
    if port.awaits() == AwaitedAnswer::Wake {
        port.receive_wake(rate);
    } else {
        line.refuse();
    }
}

fn rate(line: &mut Line<'_>) -> Option<Rate> {
    let name = line.word();
    if is(name, b"com1") {
        return Some(Rate::Com1);
    }
    if is(name, b"com2") {
        return Some(Rate::Com2);
    }
    if is(name, b"com3") {
        return Some(Rate::Com3);
    }
    if !is(name, b"none") {
        line.refuse();
    }
    None
}

fn restart(port: &mut PortCore, line: &mut Line<'_>) {
    if port.awaits() == AwaitedAnswer::Nothing {
        port.restart();
    } else {
        line.refuse();
    }
}

fn set_output(output: &mut String, port: &mut PortCore, octets: &[u8]) -> Result<(), AllocError> {
    match Image::new(octets) {
        Ok(image) => print_done(output, port.set_output(&image)),
        Err(fault) => print_refused(output, fault.code(), &fault),
    }
}

fn print_taken(output: &mut String, taken: Result<Event, PortFault>) -> Result<(), AllocError> {
    match taken {
        Ok(event) => {
            output.push_str("event")?;
            print_event(output, event)?;
            output.push_str("\n")
        }
        Err(fault) => print_refused(output, fault.code(), &fault),
    }
}

/// A wake-up request, or the octets of a message.
fn print_asked(output: &mut String, name: &str, asked: Transmission) -> Result<(), AllocError> {
    match asked {
        Transmission::Wake => writeln!(output, "{name} wake"),
        Transmission::Exchange(out) => print_named(output, name, out.octets.as_slice()),
    }
}

/// The number and the name of why a link is down; behind that of a RevisionID the octet, behind
/// that of another device its identity.
fn print_why(output: &mut String, why: Why) -> Result<(), AllocError> {
    let number = why.code();
    write!(output, " {number} {why}")?;
    match why {
        Why::Revision(octet) => print_octets(output, &[octet]),
        Why::WrongDevice(Identity { vendor, device }) => write!(output, " {vendor} {device}"),
        Why::NoWake | Why::Lost | Why::BadPdLength | Why::UnsupportedCode | Why::Interleaved => Ok(
            (),
        ),
    }
}

/// Why the last session ended.
fn print_loss(output: &mut String, loss: Option<Why>) -> Result<(), AllocError> {
    output.push_str("last")?;
    match loss {
        Some(why) => print_why(output, why)?,
        None => output.push_str(" none")?,
    }
    output.push_str("\n")
}

/// The mode, why the link is down, and whether a StatusCode was refused.
fn print_status(output: &mut String, status: Status) -> Result<(), AllocError> {
    let mode = status.mode;
    write!(output, "status {mode:?}")?;
    if let Some(why) = status.why {
        print_why(output, why)?;
    }
    output.push_str(if status.event_form {
        " eventform\n"
    } else {
        "\n"
    })
}
