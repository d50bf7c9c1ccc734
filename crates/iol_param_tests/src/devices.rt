//! A device whose master falls silent in a block.
use iol_isdu::{Answer, Place};
use iol_page::Page;
use iol_param_device::{ParamDevice, slot_size};
use iol_params::{Access, DataType, IntegerWidth, Member, Table};
use iol_slots::RamSlots;
use std::test::Fail;

const PLACE: Place = Place { index: 64, sub: 0 };

const MEMBERS: [Member<'static>; 1] = [Member {
    place: PLACE,
    data_type: DataType::UInteger(IntegerWidth::One, 0, 100),
    access: Access::ReadWrite,
    default: &[10],
}];

// V1.1, with ISDU, one octet of on-request data, no process data.
const PAGE: [u8; 10] = [0x17, 0x01, 0x11, 0x00, 0x00, 0x12, 0x34, 0x00, 0x01, 0x07];

// 3 is written to 2/0, in STARTUP: a block begins. The last message hands the request over.
const BEGIN: [&[u8]; 5] = [
    &[0x70, 0x03, 0x14],
    &[0x61, 0x21, 0x02],
    &[0x62, 0x00, 0x03],
    &[0x63, 0x36, 0x15],
    &[0xF0, 0x2D],
];

// 20 is written to 64/0.
const WRITE: [&[u8]; 5] = [
    &[0x70, 0x03, 0x14],
    &[0x61, 0x18, 0x40],
    &[0x62, 0x36, 0x14],
    &[0x63, 0x39, 0x40],
    &[0xF0, 0x2D],
];

type Device<'t> = ParamDevice<'t, RamSlots>;

/// Whether a device answers each of these messages.
fn hears(device: &mut Device, messages: &[&[u8]]) -> bool {
    for message in messages {
        if device.hear(message).is_none() {
            return false;
        }
    }
    true
}

/// A block begins, and a write of it was handed over.
fn begins(device: &mut Device) -> bool {
    if !hears(device, &BEGIN) {
        return false;
    }
    device.work();
    device.manager().activity().is_download()
        && hears(device, &WRITE)
        && device.device().handed().is_some()
}

/// The block ends with the master's silence, and the write of it is carried out no more.
fn is_cut_off(device: &mut Device) -> bool {
    device.silence();
    let is_at_rest = device.manager().activity().is_at_rest();
    device.work();
    is_at_rest && device.device().handed().is_none()
}

/// A further write isn't in force either.
fn keeps_its_value(device: &mut Device) -> bool {
    if !hears(device, &WRITE) {
        return false;
    }
    device.work();
    match device.manager().read(PLACE) {
        Answer::Read(octets) => octets.as_slice() == &[10][..],
        _ => false,
    }
}

#[test]
fn a_write_of_a_block_cut_off_by_silence_is_not_in_force(rt: HostRuntime) -> Result<(), Fail> {
    let table = Table::new(&MEMBERS, &[])?;
    let slots = RamSlots::open(rt.alloc(), slot_size(&table))?;
    let page = Page::from_octets(&PAGE);
    let mut device = ParamDevice::open(rt.alloc(), &table, page, slots)?;
    device.wake();
    let holds = begins(&mut device) && is_cut_off(&mut device) && keeps_its_value(&mut device);
    assert!(rt; holds);
    Ok(())
}
