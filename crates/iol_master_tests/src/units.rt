//! Units whose limit Data Storage keeps, and ports for them.
ghost use Rattle.std.specs.Prelude.{◌≡◌, IfOk};
ghost use Rattle.iol_port.specs.CorePort.{awaited_answer};
ghost use Rattle.iol_port.specs.declared.awaited.AwaitedAnswer.TheVariants as AwaitedAnswer;

use crate::slow::INPUT;
use iol_book::Limits;
use iol_image::Image;
use iol_isdu::{Answer, Place, Request};
use iol_link::Rate;
use iol_mode::Devices;
use iol_mseq::Message;
use iol_page::{Identity, Page};
use iol_param_device::{ParamDevice, slot_size};
use iol_params::{Access, DataType, IntegerWidth, Member, Table};
use iol_peers::{PROCESS_DATA, Peer};
use iol_slots::RamSlots;
use iol_storage::{Set, StorageMode, StoredFault, StoredPort};
use std::alloc::Global;
use std::test::Fail;

/// What Data Storage keeps of the unit.
pub const LIMIT: Place = Place { index: 65, sub: 0 };

/// The limit as it leaves the factory, and as a user sets it.
pub const FACTORY: u8 = 90;

pub const CHANGED: u8 = 50;
/// The one of a block.
pub const WRITTEN: u8 = 95;

/// More turns than a start-up takes, with a fetch behind it up to the set that waits to be saved.
pub const MANY: u64 = 400;

/// The set of a unit whose limit is 50, by its octets.
pub const SET: [u8; 16] = [
    0, 0, 0, 0, 0x12, 0x34, 0x00, 0x01, 0x07, 0, 0, // checksum, device
    0, 65, 0, 1, CHANGED,
];

/// A device that isn't there.
pub const OTHER: Identity = Identity {
    vendor: 0x1234,
    device: 0x000108,
};

pub const MEMBERS: [Member; 1] = [Member {
    place: LIMIT,
    data_type: DataType::UInteger(IntegerWidth::One, 0, 100),
    access: Access::Stored,
    default: &[FACTORY],
}];

/// A unit, at the far end of a line.
#[derive(Drop)]
pub struct Unit<'t> {
    pub device: ParamDevice<'t, RamSlots>,
}

impl<'t> Unit<'t> {
    /// A unit as it leaves the factory, which measures.
    pub fn new(alloc: Global, table: &'t Table<'t>) -> Result<Unit<'t>, Fail> {
        let page = Page::from_octets(&PROCESS_DATA);
        if page.layouts().is_err() {
            return Err("a page without layouts")?;
        }
        let slots = RamSlots::open(alloc, slot_size(table))?;
        let Ok(mut device) = ParamDevice::open(alloc, table, page, slots) else {
            return Err("no device")?;
        };
        device.set_input(&Image::new(&INPUT)?)?;
        Ok(Unit { device })
    }

    pub fn has_limit(&self, limit: u8) -> bool {
        match self.device.manager().read(LIMIT) {
            Answer::Read(octets) => octets.as_slice() == &[limit][..],
            _ => false,
        }
    }
}

impl<'t> Peer for Unit<'t> {
    fn wake(&mut self) -> Option<Rate> {
        self.device.wake();
        Some(Rate::Com2)
    }

    fn exchange(&mut self, sent: &[u8]) -> Option<Message> {
        self.device.work();
        self.device.hear(sent)
    }
}

/// A read of that value.
pub fn read_limit() -> Request {
    Request::read(LIMIT)
}

/// A port with this set.
pub fn port_with(alloc: Global, backup: Option<Set>) -> Result<StoredPort, StoredFault>
    ensures { IfOk result (λ p. awaited_answer p.port ≡ AwaitedAnswer.Nothing) }
{
    let limits = Limits::default();
    StoredPort::open(alloc, &limits, Devices::Own, StorageMode::Both, backup)
}
