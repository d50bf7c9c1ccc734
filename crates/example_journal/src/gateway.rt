//! The gateway: it reads what was kept, tells what is open, and then makes its turns.
use crate::lines::{next_line, octets_of, request_of};
use crate::past::{Past, Stand};
use crate::text::{EntryText, OutcomeText};
use anyhow::{Result, bail};
use iol_app::Transmission;
use iol_book::{BookFault, Journal, Limits, Outcome, Ticket};
use iol_link::Rate;
use iol_port::{AwaitedAnswer, PortCore, PortFault};
use std::alloc::Global;
use std::collections::VecDeque;
use std::rt::Runtime;

/// What every line begins with that is to be kept.
const KEPT: &str = "journal ";

/// Reads the lines that were kept, up to `start`.
fn read_past<R: Runtime<A = Global>>(rt: &R) -> Result<Past> {
    let mut past = Past::new(rt.alloc());
    for _ in 0..u64::MAX {
        let Some(line) = next_line(rt)? else {
            bail!("there is no start");
        };
        let line = line.as_str().trim();
        if line == "start" {
            break;
        }
        let Some(entry) = line.strip_prefix(KEPT) else {
            bail!("a line was never kept");
        };
        past.read(entry)?;
    }
    Ok(past)
}

/// Tells what an earlier process left open. It is written before it is told, so that a process
/// which ends between tells the same again.
fn tell_past<R: Runtime<A = Global>>(rt: &R, past: &Past) -> Result<()> {
    for open in &past.open {
        let ticket = open.ticket;
        match &open.stand {
            Stand::Waits => {
                println!(rt; "{KEPT}withdrawn {ticket}")?;
                println!(rt; "told {ticket} withdrawn")?;
            }
            Stand::Taken => {
                println!(rt; "{KEPT}answered {ticket} unknown Restarted")?;
                println!(rt; "told {ticket} unknown Restarted")?;
            }
            Stand::Ended(outcome) => println!(rt; "told {ticket} {outcome}")?,
        }
        println!(rt; "{KEPT}collected {ticket}")?;
    }
    Ok(())
}

/// A port, and what goes on at it.
#[derive(Drop)]
struct Gateway {
    port: PortCore,
    /// The tickets of the clients, which are outstanding.
    tickets: VecDeque<Ticket>,
    /// For the entries of a drain. It keeps its memory.
    entries: Journal,
}

impl Gateway {
    /// Writes each entry that wasn't written yet.
    fn write<R: Runtime<A = Global>>(&mut self, rt: &R) -> Result<()> {
        self.entries.clear();
        let restated = self.port.drain_into(&mut self.entries)?;
        for entry in self.entries.iter().skip(restated) {
            println!(rt; "{KEPT}{}", EntryText(&entry))?;
        }
        Ok(())
    }

    /// Tells each outcome that is there. Its entry was written.
    fn tell<R: Runtime<A = Global>>(&mut self, rt: &R) -> Result<()> {
        let mut outcome = Outcome::Withdrawn;
        for _ in 0..self.tickets.len() {
            let Some(ticket) = self.tickets.pop_front() else {
                break;
            };
            match self.port.collect_into(ticket, &mut outcome) {
                Ok(()) => println!(rt; "told {} {}", ticket.0, OutcomeText(&outcome))?,
                Err(PortFault::Book(BookFault::NotYet)) => self.tickets.push_back(ticket)?,
                Err(fault) => return Err(fault.into()),
            }
        }
        Ok(())
    }

    /// What came, behind what clients asked for meanwhile. None where the input has ended.
    fn received<R: Runtime<A = Global>>(&mut self, rt: &R) -> Result<Option<String>> {
        for _ in 0..u64::MAX {
            let Some(line) = next_line(rt)? else {
                break;
            };
            if let Some(received) = line.as_str().trim().strip_prefix("came") {
                return Ok(Some(String::from_str(rt.alloc(), received)?));
            }
            match self.port.submit(request_of(line.as_str())?) {
                Ok(ticket) => self.tickets.push_back(ticket)?,
                Err(fault) => println!(rt; "refused {}", fault.code())?,
            }
        }
        Ok(None)
    }

    /// One turn. What it begins is written before its message goes out, and so is what the last one
    /// ended, before that is told. Answers whether there was an answer.
    fn turn<R: Runtime<A = Global>>(&mut self, rt: &R) -> Result<Line> {
        let asked = self.port.send();
        self.write(rt)?;
        self.tell(rt)?;
        put_out(rt, &asked)?;
        let Some(received) = self.received(rt)? else {
            return Ok(Line::Closed);
        };
        match self.port.awaits() {
            AwaitedAnswer::Wake => {
                let rate = rate_of(received.as_str())?;
                self.port.receive_wake(rate);
            }
            AwaitedAnswer::Reply => {
                let octets = octets_of(received.as_str())?;
                self.port.receive(&octets);
            }
            AwaitedAnswer::Nothing => {}
        }
        Ok(Line::Open)
    }
}

/// Whether the line has ended.
#[derive(Clone, Copy, PartialEq, Eq)]
enum Line {
    Open,
    Closed,
}

/// What goes out, as a line.
fn put_out<R: Runtime<A = Global>>(rt: &R, asked: &Transmission) -> Result<()> {
    match asked {
        Transmission::Wake => println!(rt; "wake")?,
        Transmission::Exchange(sent) => {
            print!(rt; "send")?;
            for octet in sent.octets.as_slice() {
                print!(rt; " {octet:02X}")?;
            }
            println!(rt;)?;
        }
    }
    Ok(())
}

fn rate_of(received: &str) -> Result<Option<Rate>> {
    match received.trim() {
        "" => Ok(None),
        "COM1" => Ok(Some(Rate::Com1)),
        "COM2" => Ok(Some(Rate::Com2)),
        "COM3" => Ok(Some(Rate::Com3)),
        _ => bail!("the answer to a wake-up request is no rate"),
    }
}

/// Serves the port until the input ends.
pub fn serve_gateway<R: Runtime<A = Global>>(rt: &R) -> Result<()> {
    let past = read_past(rt)?;
    tell_past(rt, &past)?;
    let limits = Limits {
        given: past.given,
        ..Limits::default()
    };
    let mut gateway = Gateway {
        port: PortCore::open(rt.alloc(), &limits)?,
        tickets: VecDeque::new(rt.alloc()),
        entries: Journal::new(rt.alloc()),
    };
    for _ in 0..u64::MAX {
        if gateway.turn(rt)? == Line::Closed {
            break;
        }
    }
    Ok(())
}
