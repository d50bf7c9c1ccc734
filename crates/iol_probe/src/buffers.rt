//! The lines of parts, and of the buffer that a message is written into.
ghost use Rattle.std.specs.Prelude.{◌≤◌};

use crate::messages::invalid;
use crate::printing::print_named;
use crate::reading::{Line, is};
use iol_mseq::{
    Message, Part, append, append_first, append_zeros, close_reply, first, first_of_zeros, part_of,
    zeros,
};
use iol_octets::OdLength;
use std::alloc::AllocError;

/// Answers a line of parts or of the buffer. Whether it is one.
pub(crate) fn answer_buffers(
    output: &mut String,
    buffer: &mut Message,
    name: &[u8],
    line: &mut Line<'_>,
) -> Result<bool, AllocError> {
    if is(name, b"buffer") {
        write_buffer(buffer, line);
        print_named(output, "buffer", buffer.as_slice())?;
    } else if is(name, b"part") {
        let part = part(line);
        print_named(output, "part", part.as_slice())?;
    } else if is(name, b"first") {
        let octet = first(line.octets().as_slice());
        writeln!(output, "first {octet:02X}")?;
    } else {
        return Ok(false);
    }
    Ok(true)
}

/// Writes into the buffer.
fn write_buffer(buffer: &mut Message, line: &mut Line<'_>) {
    let name = line.word();
    if is(name, b"new") {
        buffer.clear();
    } else if is(name, b"append") {
        append_octets(buffer, line);
    } else if is(name, b"zeros") {
        append_nothing(buffer, line);
    } else if is(name, b"first") {
        append_one(buffer, line);
    } else if is(name, b"close") {
        close(buffer, line);
    } else {
        line.refuse();
    }
}

fn append_octets(buffer: &mut Message, line: &mut Line<'_>) {
    let octets = line.octets();
    if buffer.len() + octets.len() > 66 {
        line.refuse();
    } else {
        append(buffer, octets.as_slice());
    }
}

fn append_nothing(buffer: &mut Message, line: &mut Line<'_>) {
    let size = line.small();
    if buffer.len() + usize::from(size) > 66 {
        line.refuse();
    } else {
        append_zeros(buffer, size);
    }
}

fn append_one(buffer: &mut Message, line: &mut Line<'_>) {
    let size = line.small();
    let octet = line.octet();
    match OdLength::new(size) {
        Some(size) if buffer.len() + usize::from(size.get()) <= 66 => {
            append_first(buffer, size, octet);
        }
        _ => line.refuse(),
    }
}

/// The two bits above the checksum, and the checksum.
fn close(buffer: &mut Message, line: &mut Line<'_>) {
    let event = line.bit();
    let invalid = invalid(line);
    if buffer.len() >= 66 {
        line.refuse();
    } else {
        close_reply(buffer, event, invalid);
    }
}

fn part(line: &mut Line<'_>) -> Part {
    let name = line.word();
    if is(name, b"of") {
        octets_part(line)
    } else if is(name, b"zeros") {
        zeros(size_of_part(line))
    } else if is(name, b"first") {
        first_part(line)
    } else {
        line.refuse();
        Part::new()
    }
}

/// Octets, as many as a part may have.
fn octets_part(line: &mut Line<'_>) -> Part {
    let octets = line.octets();
    if octets.len() > 32 {
        line.refuse();
        return Part::new();
    }
    part_of(octets.as_slice())
}

/// A size, and the octet that is followed by zeros.
fn first_part(line: &mut Line<'_>) -> Part {
    let size = size_of_part(line);
    let octet = line.octet();
    let Some(size) = OdLength::new(size) else {
        line.refuse();
        return Part::new();
    };
    first_of_zeros(size, octet)
}

/// How many octets a part has.
fn size_of_part(line: &mut Line<'_>) -> u8
    ensures { result ≤ 32 }
{
    line.number(32) as u8
}
