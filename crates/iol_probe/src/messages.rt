//! The lines of messages and replies, in the present layout.
use crate::printing::{channel_name, print_named, print_octets, print_refused};
use crate::reading::{Direction, Line, is};
use iol_mseq::{
    Layout, MasterMsg, MseqFault, Reply, encode_master, encode_reply, read_master, read_reply,
    view_master, view_reply,
};
use iol_octets::{Channel, Mc};
use std::alloc::AllocError;

/// Answers a line of layouts, messages and replies. Whether it is one.
pub(crate) fn answer_messages(
    output: &mut String,
    layout: &mut Layout,
    name: &[u8],
    line: &mut Line<'_>,
) -> Result<bool, AllocError> {
    if is(name, b"layout") {
        answer_layout(output, layout, line)?;
    } else if is(name, b"master") {
        answer_master(output, layout, line.octets().as_slice())?;
    } else if is(name, b"reply") {
        let direction = line.direction();
        answer_reply(output, layout, direction, line.octets().as_slice())?;
    } else if is(name, b"view") {
        answer_view(output, layout, line)?;
    } else if is(name, b"spell") {
        answer_spell(output, layout, line)?;
    } else {
        return Ok(false);
    }
    Ok(true)
}

/// The layout that a line asks for, where one is there.
fn asked_layout(line: &mut Line<'_>) -> Result<Layout, MseqFault> {
    let mode = line.word();
    if is(mode, b"preoperate") {
        return Layout::preoperate(line.small());
    }
    if is(mode, b"operate") {
        return Layout::operate(line.small(), line.small(), line.small());
    }
    if !is(mode, b"startup") {
        line.refuse();
    }
    Ok(Layout::startup())
}

/// A layout that is taken is the present one from then on.
fn answer_layout(
    output: &mut String,
    layout: &mut Layout,
    line: &mut Line<'_>,
) -> Result<(), AllocError> {
    match asked_layout(line) {
        Ok(taken) => {
            *layout = taken;
            output.push_str("layout")?;
            print_layout(output, &taken)?;
            output.push_str("\n")
        }
        Err(fault) => print_refused(output, fault.code(), &fault),
    }
}

/// The sizes of a layout.
pub(crate) fn print_layout(output: &mut String, layout: &Layout) -> Result<(), AllocError> {
    let kind = layout.kind().bits();
    let od = layout.od().get();
    write!(output, " type {kind} od {od}")?;
    let input = layout.pd_in();
    let out = layout.pd_out();
    write!(output, " in {input} out {out}")
}

/// The name of a part and its octets, where it has any.
fn print_part(output: &mut String, name: &str, octets: &[u8]) -> Result<(), AllocError> {
    if octets.is_empty() {
        return Ok(());
    }
    output.push_str(name)?;
    print_octets(output, octets)
}

fn print_message(output: &mut String, mc: Mc, out: &[u8], od: &[u8]) -> Result<(), AllocError> {
    let direction = if mc.read { "read" } else { "write" };
    let channel = channel_name(mc.channel);
    let address = mc.address;
    write!(output, "{direction} {channel} {address:02X}")?;
    print_part(output, " out", out)?;
    print_part(output, " od", od)?;
    output.push_str("\n")
}

/// The on-request data, `ack` where there is none; the process data in; the two bits.
fn print_reply(
    output: &mut String,
    od: &[u8],
    input: &[u8],
    bits: (bool, bool),
) -> Result<(), AllocError> {
    output.push_str(if od.is_empty() { "ack" } else { "od" })?;
    print_octets(output, od)?;
    print_part(output, " in", input)?;
    let event = u8::from(bits.0);
    let status = if bits.1 { "invalid" } else { "valid" };
    writeln!(output, " event {event} pd {status}")
}

fn answer_master(output: &mut String, layout: &Layout, octets: &[u8]) -> Result<(), AllocError> {
    match read_master(layout, octets) {
        Ok(message) => print_message(output, message.mc, &message.out, &message.od),
        Err(fault) => print_refused(output, fault.code(), &fault),
    }
}

fn answer_reply(
    output: &mut String,
    layout: &Layout,
    direction: Direction,
    octets: &[u8],
) -> Result<(), AllocError> {
    match read_reply(layout, direction.is_read(), octets) {
        Ok(reply) => print_reply(
            output,
            &reply.od,
            &reply.input,
            (reply.event, reply.invalid),
        ),
        Err(fault) => print_refused(output, fault.code(), &fault),
    }
}

/// The same, read in place.
fn answer_view(
    output: &mut String,
    layout: &Layout,
    line: &mut Line<'_>,
) -> Result<(), AllocError> {
    let name = line.word();
    if is(name, b"master") {
        view_message(output, layout, line.octets().as_slice())
    } else if is(name, b"reply") {
        let direction = line.direction();
        view_answer(output, layout, direction, line.octets().as_slice())
    } else {
        line.refuse();
        Ok(())
    }
}

fn view_message(output: &mut String, layout: &Layout, octets: &[u8]) -> Result<(), AllocError> {
    match view_master(layout, octets) {
        Ok(view) => print_message(output, view.mc(), view.out(), view.od()),
        Err(fault) => print_refused(output, fault.code(), &fault),
    }
}

fn view_answer(
    output: &mut String,
    layout: &Layout,
    direction: Direction,
    octets: &[u8],
) -> Result<(), AllocError> {
    match view_reply(layout, direction.is_read(), octets) {
        Ok(view) => print_reply(
            output,
            view.od(),
            view.input(),
            (view.event(), view.invalid()),
        ),
        Err(fault) => print_refused(output, fault.code(), &fault),
    }
}

/// The octets of a message or a reply, whose parts have the layout's sizes.
fn answer_spell(
    output: &mut String,
    layout: &Layout,
    line: &mut Line<'_>,
) -> Result<(), AllocError> {
    let name = line.word();
    if is(name, b"reply") {
        spell_reply(output, layout, line)
    } else if is(name, b"read") {
        spell_message(output, layout, Direction::Read, line)
    } else if is(name, b"write") {
        spell_message(output, layout, Direction::Write, line)
    } else {
        line.refuse();
        Ok(())
    }
}

fn channel(line: &mut Line<'_>) -> Channel {
    let name = line.word();
    if is(name, b"process") {
        return Channel::Process;
    }
    if is(name, b"page") {
        return Channel::Page;
    }
    if is(name, b"diagnosis") {
        return Channel::Diagnosis;
    }
    if !is(name, b"isdu") {
        line.refuse();
    }
    Channel::Isdu
}

/// A channel and an address.
fn control(line: &mut Line<'_>, direction: Direction) -> Mc {
    let channel = channel(line);
    let address = line.octet();
    if address > 31 {
        line.refuse();
    }
    Mc {
        read: direction.is_read(),
        channel,
        address: address % 32,
    }
}

/// The octets of a message: its control octet, its process data out and its on-request data.
fn spell_message(
    output: &mut String,
    layout: &Layout,
    direction: Direction,
    line: &mut Line<'_>,
) -> Result<(), AllocError> {
    let mc = control(line, direction);
    let message = MasterMsg {
        mc,
        out: line.packed(),
        od: line.packed(),
    };
    let size = if mc.read { 0 } else { layout.od().get() };
    let out = usize::from(layout.pd_out());
    if message.out.len() != out || message.od.len() != usize::from(size) {
        line.refuse();
        return Ok(());
    }
    print_named(
        output,
        "spelled",
        encode_master(layout, &message).as_slice(),
    )
}

/// The octets of a reply: its on-request data, its process data in and its two bits.
fn spell_reply(
    output: &mut String,
    layout: &Layout,
    line: &mut Line<'_>,
) -> Result<(), AllocError> {
    let reply = Reply {
        od: line.packed(),
        input: line.packed(),
        event: line.bit(),
        invalid: invalid(line),
    };
    let od = reply.od.len();
    let is_read = od == usize::from(layout.od().get());
    if reply.input.len() != usize::from(layout.pd_in()) || !(is_read || od == 0) {
        line.refuse();
        return Ok(());
    }
    print_named(output, "spelled", encode_reply(layout, &reply).as_slice())
}

/// `valid` or `invalid`, as the process data in is.
pub(crate) fn invalid(line: &mut Line<'_>) -> bool {
    let name = line.word();
    let is_invalid = is(name, b"invalid");
    if !is_invalid && !is(name, b"valid") {
        line.refuse();
    }
    is_invalid
}
