//! Ports over the simulated wire.
use crate::device::{Parameter, device, octets_of};
use iol_book::{Limits, Outcome, Ticket};
use iol_cell::{Handle, ImageSeat, ImageWriter, image_cell};
use iol_device::App;
use iol_image::Image;
use iol_isdu::{Answer, Cause, Place, Request};
use iol_link::Wire;
use iol_peers::{PLAIN, PROCESS_DATA};
use iol_port::{Answered, Call, Port};
use iol_sim::{Fate, Sim, Step};
use std::alloc::Global;
use std::sync::Wait;
use std::test::Fail;

/// What most tests ask of a port. It has no clauses, since they only look at what is answered: so
/// they are proved without what a port promises.
pub trait Calls {
    fn call(&mut self, call: &Call) -> Answered;

    fn turn(&mut self);
}

impl<W: Wire, A: Handle> Calls for Port<W, A> {
    fn call(&mut self, call: &Call) -> Answered {
        Port::call(self, call)
    }

    fn turn(&mut self) {
        Port::turn(self);
    }
}

pub fn read() -> Request {
    Request::read(Place { index: 16, sub: 0 })
}

pub fn turn<P: Calls>(port: &mut P, turns: u32) {
    for _ in 0..turns {
        port.turn();
    }
}

/// Whether a read gets this ticket, and comes to this in so many turns.
fn comes_to<P: Calls>(port: &mut P, ticket: Ticket, turns: u32, outcome: Outcome) -> bool {
    let is_issued = port.call(&Call::Submit(read())) == Answered::Ticket(ticket);
    turn(port, turns);
    is_issued && port.call(&Call::Collect(ticket)) == Answered::Outcome(outcome)
}

/// The wire of a port that gave so many tickets before, over which a read comes to this in so
/// many turns; none where it doesn't.
fn handed_back<W: Wire + Drop>(
    alloc: Global,
    wire: W,
    given: u64,
    turns: u32,
    outcome: Outcome,
) -> Option<W> {
    let Ok(mut port) = Port::open(
        alloc,
        wire,
        &Limits {
            given,
            ..Limits::default()
        },
    ) else {
        return None;
    };
    if !comes_to(&mut port, Ticket(given.saturating_add(1)), turns, outcome) {
        return None;
    }
    Some(port.into_wire())
}

/// What changes on the wire: its device's input, or what becomes of a call.
#[derive(Clone, Copy)]
enum Change {
    Input([u8; 2]),
    NoInput,
    Call(Fate),
}

impl Change {
    fn step(self) -> Result<Step, Fail> {
        Ok(match self {
            Change::Input(octets) => Step::Input(Image::new(&octets)?),
            Change::NoInput => Step::NoInput,
            Change::Call(fate) => Step::Fate(fate),
        })
    }
}

/// The script of these changes, each so many times.
fn script(alloc: Global, changes: &[(u32, Change)]) -> Result<Vec<Step>, Fail> {
    let mut steps = Vec::new(alloc);
    for (count, change) in changes {
        for _ in 0..*count {
            steps.push(change.step()?)?;
        }
    }
    Ok(steps)
}

/// The wire falls silent in turn 17.
const SILENT: [(u32, Change); 2] = [
    (16, Change::Call(Fate::Clean)),
    (1, Change::Call(Fate::Silent)),
];

/// How many requests a device carried out whose wire two ports had: a request of the first one is
/// cut off where the wire falls silent; that of the next one, over the wire mended, is answered.
fn carried_out<P: App>(alloc: Global, wire: Sim<P>, done: Outcome) -> Option<usize> {
    let cut_off = Outcome::Unknown(Cause::LinkLost);
    let mut wire = handed_back(alloc, wire, 0, 30, cut_off)?;
    wire.mend();
    let wire = handed_back(alloc, wire, 1, 18, done)?;
    Some(wire.device().carried().len())
}

/// A request is cut off when the wire falls silent; the next port over that wire,
/// mended, has its own carried out, and nothing else.
#[test]
fn a_wire_that_is_given_back_serves_another_port(rt: HostRuntime) -> Result<(), Fail> {
    let steps = script(rt.alloc(), &SILENT)?;
    let wire = device(rt.alloc(), Parameter(0x41), &PLAIN, steps)?;
    let done = Outcome::Done(Answer::Read(octets_of(0x41)));
    assert!(rt; carried_out(rt.alloc(), wire, done) == Some(1));
    Ok(())
}

/// Input 12 34 for 17 calls of the wire, none for one, 56 78 from then on; the last
/// three replies are lost.
const CHANGES: [(u32, Change); 8] = [
    (1, Change::Input([0x12, 0x34])),
    (16, Change::Call(Fate::Clean)),
    (1, Change::Call(Fate::BackLost)),
    (1, Change::NoInput),
    (1, Change::Call(Fate::Clean)),
    (1, Change::Input([0x56, 0x78])),
    (1, Change::Call(Fate::Clean)),
    (3, Change::Call(Fate::OutLost)),
];

/// What the port shows after turn 16 and on.
static SHOWN: [Option<&[u8]>; 7] = [
    Some(&[0x12, 0x34]),
    Some(&[0x12, 0x34]),
    None,
    Some(&[0x56, 0x78]),
    Some(&[0x56, 0x78]),
    Some(&[0x56, 0x78]),
    None,
];

/// A port that publishes its image. It has no clauses, as [`Calls`].
trait Shows {
    fn image(&self) -> Option<&Image>;

    fn turn_shown<R: Wait>(&mut self, rt: &R);

    fn restart_shown<R: Wait>(&mut self, rt: &R);
}

impl<W: Wire, A: Handle> Shows for Port<W, A> {
    fn image(&self) -> Option<&Image> {
        Port::image(self)
    }

    fn turn_shown<R: Wait>(&mut self, rt: &R) {
        Port::turn_shown(self, rt);
    }

    fn restart_shown<R: Wait>(&mut self, rt: &R) {
        Port::restart_shown(self, rt);
    }
}

fn is_image(image: Option<&Image>, wanted: Option<&[u8]>) -> bool {
    match image {
        Some(image) => wanted == Some(image.octets()),
        None => wanted.is_none(),
    }
}

/// Whether a seat reads this.
fn reads<R: Wait>(rt: &R, seat: &mut ImageSeat, wanted: Option<&[u8]>) -> bool {
    is_image(seat.read(rt).as_ref(), wanted)
}

/// Whether the port and the seat show what is wanted at each turn.
fn is_shown<P: Shows, R: Wait>(rt: &R, port: &mut P, seat: &mut ImageSeat) -> bool {
    let mut is_right = true;
    for wanted in SHOWN {
        port.turn_shown(rt);
        is_right &= is_image(port.image(), wanted) && reads(rt, seat, wanted);
    }
    is_right
}

/// Whether they show the last input up to a restart, and none then.
fn is_shown_up_to_restart<P: Shows, R: Wait>(rt: &R, port: &mut P, seat: &mut ImageSeat) -> bool {
    for _ in 0..16 {
        port.turn_shown(rt);
    }
    let is_last = reads(rt, seat, Some(&[0x56, 0x78]));
    port.restart_shown(rt);
    is_last && port.image().is_none() && reads(rt, seat, None)
}

/// Whether a port over this wire, which gets the writer once it is up, shows the seat what it
/// should.
fn publishes<W: Wire + Drop, R: Wait>(
    rt: &R,
    wire: W,
    writer: ImageWriter,
    seat: &mut ImageSeat,
    alloc: Global,
) -> bool {
    let Ok(mut port) = Port::open(alloc, wire, &Limits::default()) else {
        return false;
    };
    turn(&mut port, 15);
    let is_empty = reads(rt, seat, None);
    port.publish_to(writer);
    is_empty && is_shown(rt, &mut port, seat) && is_shown_up_to_restart(rt, &mut port, seat)
}

#[test]
fn a_seat_reads_what_the_port_shows(rt: HostRuntime) -> Result<(), Fail> {
    let steps = script(rt.alloc(), &CHANGES)?;
    let wire = device(rt.alloc(), Parameter(0x41), &PROCESS_DATA, steps)?;
    let (writer, mut seats) = image_cell(&rt, rt.alloc(), 1)?;
    let Some(seat) = seats.first_mut() else {
        return Err("no seat")?;
    };
    assert!(rt; publishes(&rt, wire, writer, seat, rt.alloc()));
    Ok(())
}
