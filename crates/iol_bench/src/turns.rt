//! Turns of one port.
use crate::check_word::CheckWord;
use crate::devices::{PLAIN, STARTUP, WIDE, opened, shown, start, turn};
use crate::fault::BenchFault;
use iol_image::Image;
use iol_link::Wire;
use iol_page::Page;
use iol_port::Port;
use iol_sim::{Fate, Step};
use std::alloc::Global;

/// The octets of the process data, each way.
const DATA: [u8; 32] = [0x5A; 32];

/// Turns in OPERATE without process data, in which there is nothing to do.
#[inline(never)]
pub(crate) fn idle(alloc: Global, count: u64) -> Result<CheckWord, BenchFault> {
    let page = Page::from_octets(&PLAIN);
    let mut port = opened(alloc, page, None, Vec::new(alloc))?;
    start(&mut port)?;
    turn(&mut port, count);
    Ok(shown(&port))
}

/// The same with 32 octets of process data each way.
#[inline(never)]
pub(crate) fn idle_data(alloc: Global, count: u64) -> Result<CheckWord, BenchFault> {
    let steps = only(alloc, Step::Input(Image::new(&DATA)?))?;
    let page = Page::from_octets(&WIDE);
    let mut port = opened(alloc, page, None, steps)?;
    put_out(&mut port)?;
    turn(&mut port, count);
    Ok(shown(&port))
}

/// A start-up, and an output that the device is told of.
fn put_out<W: Wire>(port: &mut Port<W>) -> Result<(), BenchFault> {
    start(port)?;
    port.set_output(&Image::new(&DATA)?)?;
    port.turn();
    Ok(())
}

/// A script of one step.
fn only(alloc: Global, step: Step) -> Result<Vec<Step>, BenchFault> {
    let mut steps = Vec::with_capacity(alloc, 1)?;
    steps.push_reserved(step);
    Ok(steps)
}

/// Turns in which a wake-up request goes out, and nothing comes back.
#[inline(never)]
pub(crate) fn down(alloc: Global, count: u64) -> Result<CheckWord, BenchFault> {
    let steps = only(alloc, Step::Fate(Fate::Silent))?;
    let page = Page::from_octets(&PLAIN);
    let mut port = opened(alloc, page, None, steps)?;
    turn(&mut port, count);
    Ok(shown(&port))
}

/// Restarts, each with all turns of the start-up that follows it.
#[inline(never)]
pub(crate) fn startup(alloc: Global, count: u64) -> Result<CheckWord, BenchFault> {
    let page = Page::from_octets(&PLAIN);
    let mut port = opened(alloc, page, None, Vec::new(alloc))?;
    for _ in 0..count {
        port.restart();
        turn(&mut port, u64::from(STARTUP));
    }
    Ok(shown(&port))
}
