//! Sizes from which on something could say that there is no memory. No clause says that memory is
//! lacking only where a growth was refused. What lines can say is in `tests/rows`.
ghost use Rattle.std.specs.Prelude.{◌≤◌};

use crate::calls::check;
use crate::opening::open_port;
use iol_cell::{CellFault, ImageSeat, image_cell};
use iol_image::Image;
use iol_link::Wire;
use iol_mseq::Message;
use iol_port::{Call, Port};
use iol_sim::Raw;
use std::alloc::Global;
use std::sync::Wait;
use std::test::Fail;

/// Whether each seat has this image.
fn all_read<R: Wait>(rt: &R, seats: &mut [ImageSeat], image: &Image) -> bool {
    for seat in seats {
        if seat.read(rt).as_ref() != Some(image) {
            return false;
        }
    }
    true
}

/// Whether a cell has a seat for each of so many readers, who all read what is published.
fn has_seats<R: Wait>(
    rt: &R,
    alloc: Global,
    readers: usize,
    image: &Image,
) -> Result<bool, CellFault>
    requires { (1 ≤ readers) × (readers ≤ 16) }
{
    let (mut writer, mut seats) = image_cell(rt, alloc, readers)?;
    writer.publish(rt, Some(image));
    Ok(seats.len() == readers && all_read(rt, seats.as_mut_slice(), image))
}

/// Refuses a cell that has no memory, or no seat of its own, for a number of readers.
#[test]
fn a_cell_has_a_seat_for_each_reader(rt: HostRuntime) -> Result<(), Fail> {
    let image = Image::new(&[0x5A; 32])?;
    for readers in 1..17 {
        check(&rt, has_seats(&rt, rt.alloc(), readers, &image) == Ok(true));
    }
    Ok(())
}

/// So many messages, each with its number.
fn messages(alloc: Global, count: u16) -> Result<Vec<Message>, Fail> {
    let mut messages = Vec::new(alloc);
    for number in 0..count {
        let octets = number.to_be_bytes();
        messages.push(Message::try_from(octets.as_slice())?)?;
    }
    Ok(messages)
}

/// Whether a wire has these messages, and no more.
fn has_each(wire: &mut Raw, messages: &[Message]) -> bool {
    for message in messages {
        if wire.exchange(&[]).as_ref() != Some(message) {
            return false;
        }
    }
    wire.exchange(&[]).is_none()
}

/// Whether a wire has so many messages.
fn has_messages(alloc: Global, count: u16) -> Result<bool, Fail> {
    let messages = messages(alloc, count)?;
    let mut wire = Raw::new(alloc, messages.as_slice())?;
    Ok(has_each(&mut wire, messages.as_slice()))
}

/// Refuses a wire that has no memory for many messages.
#[test]
fn a_raw_wire_has_each_message(rt: HostRuntime) -> Result<(), Fail> {
    for &count in &[0, 1, 2, 255, 256, 257, 1_000, 1_001, 65_535] {
        check(&rt, has_messages(rt.alloc(), count)?);
    }
    Ok(())
}

/// Whether a port runs a list of so many calls.
fn runs<W: Wire>(alloc: Global, port: &mut Port<W>, count: usize) -> Result<bool, Fail> {
    let mut calls = Vec::new(alloc);
    for _ in 0..count {
        calls.push(Call::Look)?;
    }
    let answers = port.run(alloc, calls.as_slice())?;
    Ok(answers.len() == count)
}

/// Whether a port over this wire runs a list of each length.
fn runs_all<W: Wire + Drop>(alloc: Global, wire: W) -> Result<bool, Fail> {
    let mut port = open_port(alloc, wire)?;
    for &count in &[0, 1, 255, 256, 257, 1_000] {
        if !runs(alloc, &mut port, count)? {
            return Ok(false);
        }
    }
    Ok(true)
}

/// Refuses a run that has no memory for an empty list of calls, or for a long one.
#[test]
fn a_port_runs_lists_of_each_length(rt: HostRuntime) -> Result<(), Fail> {
    let wire = Raw::new(rt.alloc(), &[])?;
    check(&rt, runs_all(rt.alloc(), wire)?);
    Ok(())
}
