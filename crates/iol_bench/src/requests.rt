//! Requests of one client at one port.
use crate::check_word::CheckWord;
use crate::devices::{PLACE, PLAIN, ROOM, add_port, opened, start};
use crate::fault::BenchFault;
use iol_book::{BookFault, Outcome};
use iol_isdu::{Answer, Request};
use iol_link::Wire;
use iol_page::Page;
use iol_port::{Port, PortFault};
use std::alloc::Global;

/// More turns than any of these requests takes.
const TURNS: u32 = 1_000;

/// Reads of 14 octets.
#[inline(never)]
pub(crate) fn read(alloc: Global, count: u64) -> Result<CheckWord, BenchFault> {
    repeat(alloc, &Request::read(PLACE), &[0x41; 14], count)
}

/// Writes of 232 octets.
#[inline(never)]
pub(crate) fn write(alloc: Global, count: u64) -> Result<CheckWord, BenchFault> {
    repeat(
        alloc,
        &Request::write(PLACE, &[0x5A; 232])?,
        &[0; 232],
        count,
    )
}

/// A request so many times, of a device whose parameter has this value at first.
/// The port and its device are new whenever the device's record is full.
fn repeat(
    alloc: Global,
    request: &Request,
    value: &[u8],
    count: u64,
) -> Result<CheckWord, BenchFault> {
    let mut word = CheckWord::new();
    let room = u64::from(ROOM);
    for _ in 0..count / room {
        repeat_once_opened(alloc, &mut word, request, value, room)?;
    }
    repeat_once_opened(alloc, &mut word, request, value, count % room)?;
    Ok(word)
}

/// A request so many times, of a new device.
fn repeat_once_opened(
    alloc: Global,
    word: &mut CheckWord,
    request: &Request,
    value: &[u8],
    count: u64,
) -> Result<(), BenchFault> {
    let page = Page::from_octets(&PLAIN);
    let mut port = opened(alloc, page, Some(value), Vec::new(alloc))?;
    start(&mut port)?;
    carry_all(word, &mut port, request, count)?;
    add_port(word, &port);
    Ok(())
}

/// A request so many times, one after the other.
fn carry_all<W: Wire>(
    word: &mut CheckWord,
    port: &mut Port<W>,
    request: &Request,
    count: u64,
) -> Result<(), BenchFault> {
    let mut outcome = Outcome::Withdrawn;
    for _ in 0..count {
        carry(port, request, &mut outcome)?;
        add_outcome(word, &outcome)?;
    }
    Ok(())
}

/// A client submits a request, and asks for its outcome after each turn until it is there.
#[inline(never)]
fn carry<W: Wire>(
    port: &mut Port<W>,
    request: &Request,
    outcome: &mut Outcome,
) -> Result<(), BenchFault> {
    let ticket = port.submit(request.clone()?)?;
    for _ in 0..TURNS {
        port.turn();
        match port.collect_into(ticket, outcome) {
            Ok(()) => return Ok(()),
            Err(PortFault::Book(BookFault::NotYet)) => {}
            Err(fault) => return Err(BenchFault::Port(fault)),
        }
    }
    Err(BenchFault::Unexpected)
}

/// A request that is done.
fn add_outcome(word: &mut CheckWord, outcome: &Outcome) -> Result<(), BenchFault> {
    match outcome {
        Outcome::Done(Answer::Read(octets)) => word.add_octets(octets.as_slice()),
        Outcome::Done(Answer::Written) => word.add(1),
        _ => return Err(BenchFault::Unexpected),
    }
    Ok(())
}
