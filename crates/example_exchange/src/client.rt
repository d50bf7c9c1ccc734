//! A client: it reads a parameter, and writes two of them as one block.
use crate::gateway::{Gateway, TURNS};
use crate::parameters::{LOWER_LIMIT, UPPER_LIMIT};
use anyhow::Result;
use iol_book::Outcome;
use iol_isdu::{Answer, Place, Request};
use iol_storage::{DownloadResult, Keep, Objects};

/// Reads a limit. The request waits until Data Storage has its standing.
pub fn read_limit(rt: &impl Print, gateway: &mut Gateway<'_>, place: Place) -> Result<()> {
    let ticket = gateway.port.submit(Request::read(place))?;
    for _ in 0..TURNS {
        gateway.turn(rt)?;
        if let Ok(outcome) = gateway.port.collect(ticket) {
            print!(rt; "read {}/{}: ", place.index, place.sub)?;
            tell_limit(rt, &outcome)?;
        }
    }
    Ok(())
}

/// Prints the limit that was read, or what came in its place.
fn tell_limit(rt: &impl Print, outcome: &Outcome) -> Result<()> {
    if let Outcome::Done(Answer::Read(octets)) = outcome {
        if let [high, low] = octets.as_slice() {
            println!(rt; "{} tenths", u16::from_be_bytes([*high, *low]))?;
            return Ok(());
        }
    }
    println!(rt; "{outcome:?}")?;
    Ok(())
}

/// Writes both limits as one block, so that the sensor sees them together: a lower limit above the
/// upper one in force is refused if it is written alone. `Keep::Yes` has the sensor ask the port to
/// fetch what was written.
pub fn write_limits(
    rt: &impl Print,
    gateway: &mut Gateway<'_>,
    lower: u16,
    upper: u16,
) -> Result<()> {
    println!(rt; "block of the limits {lower} and {upper} tenths")?;
    let mut writes = Objects::new();
    writes.push(LOWER_LIMIT, &lower.to_be_bytes())?;
    writes.push(UPPER_LIMIT, &upper.to_be_bytes())?;
    let block = gateway.port.submit_block(&mut writes, Keep::Yes)?;
    for _ in 0..TURNS {
        gateway.turn(rt)?;
        if let Ok(end) = gateway.port.collect_block(block) {
            tell_end(rt, &end)?;
        }
    }
    Ok(())
}

/// Prints what came of a block.
fn tell_end(rt: &impl Print, end: &DownloadResult) -> Result<()> {
    if let DownloadResult::Refused(why) = end {
        let place = why.place;
        print!(rt; "block refused at {}/{}", place.index, place.sub)?;
        println!(rt; " by {:02X} {:02X}", why.error, why.additional)?;
    } else {
        println!(rt; "block {end:?}")?;
    }
    Ok(())
}
