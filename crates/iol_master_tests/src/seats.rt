//! A seat of a port's image cell reads without the port's lock.
ghost use Rattle.std.specs.Prelude.{IfOk};
ghost use Rattle.iol_master.specs.Tickets.{HasIssued};
ghost use Rattle.iol_master.specs.Ledgers.{IsBlankFor};

use crate::calls::{check, turns};
use crate::opening::{open_one, open_port};
use crate::slow::{Flags, INPUT, START_UP, is_set, slow_wire};
use iol_cell::{ImageSeat, image_cell};
use iol_image::Image;
use iol_link::Wire;
use iol_master::Master;
use iol_port::Port;
use std::alloc::Global;
use std::marker::Brand;
use std::process::Abort;
use std::sync::Wait;
use std::sync::atomic::Ordering;
use std::sync::ledger::{Blank, Ledger};
use std::test::Fail;
use std::thread;
use std::thread::Threads;

/// Gives a port a cell for its images, and hands out a seat there.
fn seat_at<W: Wire, R: Wait>(rt: &R, alloc: Global, port: &mut Port<W>) -> Result<ImageSeat, Fail>
    ensures { HasIssued port.old 0 → HasIssued port.new 0 }
{
    let (writer, mut seats) = image_cell(rt, alloc, 1)?;
    port.publish_to(writer);
    let seat = seats.pop().ok_or("no seat")?;
    Ok(seat)
}

/// A port over this wire, and a seat of its images.
pub fn shown_port<W: Wire + Drop, R: Wait>(
    rt: &R,
    alloc: Global,
    wire: W,
) -> Result<(Port<W>, ImageSeat), Fail>
    ensures { IfOk result (λ r. HasIssued r.0 0) }
{
    let mut port = open_port(alloc, wire)?;
    let seat = seat_at(rt, alloc, &mut port)?;
    Ok((port, seat))
}

/// Whether an image is there, and has these octets.
pub fn is_image(image: Option<&Image>, octets: &[u8]) -> bool {
    match image {
        Some(image) => image.octets() == octets,
        None => false,
    }
}

/// Whether a seat has these octets.
pub fn shows<R: Wait>(rt: &R, seat: &mut ImageSeat, octets: &[u8]) -> bool {
    is_image(seat.read(rt).as_ref(), octets)
}

/// Whether a seat has no image.
pub fn is_empty<R: Wait>(rt: &R, seat: &mut ImageSeat) -> bool {
    seat.read(rt).is_none()
}

fn restarts<W: Wire, L: Ledger, K: Ledger, R: Wait>(rt: &R, master: &Master<W, L, K>) -> bool {
    match master.lock(rt, 1) {
        Ok(mut held) => {
            held.restart(rt);
            true
        }
        Err(_) => false,
    }
}

/// An image is there from the turn on that brought it, and up to a restart.
fn publishes<W: Wire, L: Ledger, K: Ledger, R: Wait>(
    rt: &R,
    master: &Master<W, L, K>,
    seat: &mut ImageSeat,
) -> bool {
    turns(rt, master, 1, START_UP - 1)
        && is_empty(rt, seat)
        && turns(rt, master, 1, 1)
        && shows(rt, seat, &INPUT)
        && restarts(rt, master)
        && is_empty(rt, seat)
}

/// Reads a seat once an exchange waits for it. Answers whether it found the image.
fn read_beside<R: Wait>(rt: &R, seat: ImageSeat, flags: &Flags) -> bool {
    let mut seat = seat;
    if !is_set(&flags.waiting) {
        return false;
    }
    let has_read = shows(rt, &mut seat, &INPUT);
    flags.let_go.store(true, Ordering::SeqCst);
    has_read
}

/// A turn under the port's lock, and a read in another thread meanwhile: what each of them found.
fn beside<W: Wire, L: Ledger, K: Ledger, R: Threads + Wait + Sync>(
    rt: &R,
    master: &Master<W, L, K>,
    seat: ImageSeat,
    flags: &Flags,
) -> (bool, bool) {
    flags.armed.store(true, Ordering::SeqCst);
    thread::join(
        rt,
        move || read_beside(rt, seat, flags),
        move || turns(rt, master, 1, 1),
    )
}

/// A seat reads what turns publish, and also while a turn is under way.
fn is_read<W: Wire + Drop, L: Ledger, K: Ledger, R: Threads + Wait + Abort + Sync>(
    rt: &R,
    alloc: Global,
    wire: W,
    flags: &Flags,
    clients: Blank,
    tickets: Blank,
) -> Result<(), Fail>
    requires clients { IsBlankFor clients L.name L.parts 1025 }
    requires tickets { IsBlankFor tickets K.name K.parts 1 }
{
    let (port, mut seat) = shown_port(rt, alloc, wire)?;
    let master = open_one::<W, L, K, Global, R>(rt, alloc, port, clients, tickets)?;
    check(rt, publishes(rt, &master, &mut seat));
    check(rt, turns(rt, &master, 1, START_UP));
    check(rt, beside(rt, &master, seat, flags) == (true, true));
    check(rt, flags.was_let_go.load(Ordering::SeqCst));
    Ok(())
}

/// Refuses a turn or a restart that leaves the cell as it was, and a read that waits for the lock.
#[test]
fn a_seat_is_read_while_the_lock_is_held(rt: HostRuntime) -> Result<(), Fail> {
    let (wire, flags) = slow_wire(rt.alloc())?;
    let (clients, tickets) = (Blank::new(1025), Blank::new(1));
    is_read::<_, Brand, Brand, HostRuntime>(&rt, rt.alloc(), wire, &flags, clients, tickets)
}
