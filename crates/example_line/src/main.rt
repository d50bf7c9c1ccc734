//! A master's port over a line of one's own: a thermometer is read and set, and
//! what it tells is printed.
//!
//! In place of a UART the line is this program's input and output, so that whoever stands at the
//! far end, a device in another process or a list of its replies, is told each message and answers
//! it with a line: a wake-up request with the rate of the device, a message with the octets of the
//! reply. An empty line is an answer that is lost. What comes of it is printed on standard error.
#![tactic(auto)]

mod line;

use crate::line::{exchange, wake};
use anyhow::Result;
use iol_app::Transmission;
use iol_book::{Limits, Ticket};
use iol_isdu::{Place, Request};
use iol_port::PortCore;

/// By how much it has to get colder until it is no longer hot, in tenths of a degree.
const HYSTERESIS: Place = Place { index: 40, sub: 0 };

/// The temperature above which there is an event, in tenths of a degree.
const SWITCHING_POINT: Place = Place { index: 41, sub: 0 };

/// 24 degrees, in tenths.
const NEW_POINT: u16 = 240;

const TURNS: u32 = 60;

/// One turn: what the port sends goes out, and the port is told what came back.
fn turn(rt: &(impl Input + Print + AllocGlobal), port: &mut PortCore) -> Result<()> {
    match port.send() {
        Transmission::Wake => {
            let rate = wake(rt)?;
            port.receive_wake(rate);
        }
        Transmission::Exchange(sent) => {
            let received = exchange(rt, sent.octets.as_slice())?;
            port.receive(&received);
        }
    }
    Ok(())
}

/// Prints an event, where the device told one, and each outcome that is there.
fn report(rt: &impl Eprint, port: &mut PortCore, tickets: &[Ticket]) -> Result<()> {
    if let Ok(event) = port.take_event() {
        eprintln!(rt; "event {:02X} {:04X}", event.qualifier, event.code)?;
    }
    for ticket in tickets {
        if let Ok(outcome) = port.collect(*ticket) {
            eprintln!(rt; "{outcome:?}")?;
        }
    }
    Ok(())
}

fn main(rt: HostRuntime) -> Result<()> {
    let mut port = PortCore::open(rt.alloc(), &Limits::default())?;
    let tickets = [
        port.submit(Request::read(HYSTERESIS))?,
        port.submit(Request::write(SWITCHING_POINT, &NEW_POINT.to_be_bytes())?)?,
        port.submit(Request::read(SWITCHING_POINT))?,
    ];
    for _ in 0..TURNS {
        turn(&rt, &mut port)?;
        report(&rt, &mut port, &tickets)?;
    }
    let tenths = port.image().map(|image| image.octets());
    eprintln!(rt; "at the end: {tenths:?}, {:?}", port.status().mode)?;
    Ok(())
}
