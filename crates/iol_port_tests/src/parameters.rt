//! A port over a simulated device with a table of parameters: a block is in force at its end
//! alone, and a power cut in the middle of it leaves nothing of it.

use crate::device::{ROOM, octets_of};
use iol_book::Limits;
use iol_device::{Apart, Device};
use iol_isdu::{Answer, Place, Request};
use iol_link::Wire;
use iol_page::Page;
use iol_param_sim::Parameters;
use iol_params::{Access, DataType, IntegerWidth, Member, Table};
use iol_peers::PLAIN;
use iol_port::Port;
use iol_sim::{ChangeOctets, Fate, Sim, Step};
use std::alloc::Global;
use std::test::Fail;

/// SystemCommand, and the commands that begin and end the download of a block.
const COMMAND: Place = Place { index: 2, sub: 0 };

const BEGIN: u8 = 0x03;

const END: u8 = 0x04;

/// A number from 0 to 100, 10 at first, which Data Storage keeps.
const NUMBER: Place = Place { index: 64, sub: 0 };

const MEMBER: Member<'static> = Member {
    place: NUMBER,
    data_type: DataType::UInteger(IntegerWidth::One, 0, 100),
    access: Access::Stored,
    default: &[10],
};

/// The number is 20 in a block, and then many turns are made.
fn write_a_block<W: Wire>(port: &mut Port<W>) -> Result<(), Fail> {
    let _begun = port.submit(Request::write(COMMAND, &[BEGIN])?)?;
    let _written = port.submit(Request::write(NUMBER, &[20])?)?;
    let _ended = port.submit(Request::write(COMMAND, &[END])?)?;
    for _ in 0..200 {
        port.turn();
    }
    Ok(())
}

/// The number behind a block over a wire of this script.
fn number_behind(alloc: Global, steps: Vec<Step, Global>) -> Result<Answer, Fail> {
    let members = [MEMBER];
    let table = Table::new(&members, &[])?;
    let page = Page::from_octets(&PLAIN);
    if page.layouts().is_err() {
        return Err("a page without layouts")?;
    }
    let Ok(device) = Device::open(alloc, Apart, page, ROOM) else {
        return Err("no device")?;
    };
    let parameters = Parameters::open(alloc, &table, ROOM)?;
    let Ok(wire) = Sim::beside(alloc, device, parameters, steps) else {
        return Err("no wire")?;
    };
    let Ok(mut port) = Port::open(alloc, wire, &Limits::default()) else {
        return Err("no port")?;
    };
    write_a_block(&mut port)?;
    Ok(port.wire().beside_device().manager().read(NUMBER))
}

/// So many clean calls, in the middle of the block, and behind it, and then this.
fn behind_calls(alloc: Global, count: usize, step: Step) -> Result<Vec<Step, Global>, Fail> {
    let mut steps = Vec::new(alloc);
    for _ in 0..count {
        steps.push(Step::Fate(Fate::Clean))?;
    }
    steps.push(step)?;
    Ok(steps)
}

const IN_THE_BLOCK: usize = 20;

const BEHIND_IT: usize = 100;

fn change(octet: u8) -> Step {
    let mut octets = ChangeOctets::new();
    octets.push(octet);
    Step::Change(NUMBER, octets)
}

#[test]
fn a_block_is_in_force_at_its_end(rt: HostRuntime) -> Result<(), Fail> {
    let number = number_behind(rt.alloc(), Vec::new(rt.alloc()))?;
    assert_eq!(rt; number, Answer::Read(octets_of(20)));
    Ok(())
}

#[test]
fn a_power_cut_in_a_block_leaves_nothing_of_it(rt: HostRuntime) -> Result<(), Fail> {
    let steps = behind_calls(rt.alloc(), IN_THE_BLOCK, Step::Power)?;
    let number = number_behind(rt.alloc(), steps)?;
    assert_eq!(rt; number, Answer::Read(octets_of(10)));
    let steps = behind_calls(rt.alloc(), BEHIND_IT, Step::Power)?;
    let number = number_behind(rt.alloc(), steps)?;
    assert_eq!(rt; number, Answer::Read(octets_of(20)));
    Ok(())
}

#[test]
fn a_local_change_in_a_block_is_refused(rt: HostRuntime) -> Result<(), Fail> {
    let steps = behind_calls(rt.alloc(), IN_THE_BLOCK, change(30))?;
    let number = number_behind(rt.alloc(), steps)?;
    assert_eq!(rt; number, Answer::Read(octets_of(20)));
    let steps = behind_calls(rt.alloc(), BEHIND_IT, change(30))?;
    let number = number_behind(rt.alloc(), steps)?;
    assert_eq!(rt; number, Answer::Read(octets_of(30)));
    Ok(())
}
