//! The line of the third port: a cable, with one sensor at its end, and another one beside it.
ghost use Rattle.std.specs.Prelude.{IsOk};
ghost use Rattle.std.proofs.Common.{rules};
ghost use Rattle.iol_page.specs.Page.{layouts_of};
ghost use Rattle.iol_link.specs.WireFacts.{unknown};

use anyhow::{Result, bail};
use iol_isdu::Place;
use iol_link::{Rate, Wire};
use iol_mseq::Message;
use iol_page::Page;
use iol_param_device::{ParamDevice, slot_size};
use iol_params::{Access, DataType, IntegerWidth, Member, Table};
use iol_slots::RamSlots;
use std::alloc::Global;
use std::sync::atomic::{AtomicBool, Ordering};

/// Above this temperature it is too hot, in tenths of a degree.
pub const UPPER_LIMIT: Place = Place { index: 41, sub: 0 };

/// V1.1, with ISDU, 8 octets of on-request data, no process data.
const PAGE: [u8; 10] = [0x17, 0x2D, 0x11, 0x00, 0x00, 0x12, 0x34, 0x00, 0x01, 0x07];

/// The table's one row: a limit of 23 degrees, as it leaves the factory.
pub const MEMBERS: [Member; 1] = [Member {
    place: UPPER_LIMIT,
    data_type: DataType::UInteger(IntegerWidth::Two, 0, 1000),
    access: Access::Stored,
    default: &[0, 230],
}];

/// 23.5 degrees, in tenths: what a user makes of the limit.
const BY_KEY: [u8; 2] = [0, 235];

/// A sensor whose parameters are those of the table.
pub type Sensor<'a> = ParamDevice<'a, RamSlots>;

/// A sensor as it leaves the factory.
pub fn open_sensor<'a>(alloc: Global, table: &'a Table<'a>) -> Result<Sensor<'a>> {
    let page = Page::from_octets(&PAGE);
    if page.layouts().is_err() {
        bail!("the sensor's page has no layouts");
    }
    let slots = RamSlots::open(alloc, slot_size(table))?;
    Ok(ParamDevice::open(alloc, table, page, slots)?)
}

/// A sensor whose limit a user has set at its key.
pub fn open_used_sensor<'a>(alloc: Global, table: &'a Table<'a>) -> Result<Sensor<'a>> {
    let mut sensor = open_sensor(alloc, table)?;
    if sensor.set(UPPER_LIMIT, &BY_KEY).is_err() {
        bail!("the sensor takes no key now");
    }
    Ok(sensor)
}

/// A cable. The sensor at its end is exchanged for the one beside it, once somebody wants that.
#[derive(Drop)]
pub struct Cable<'a> {
    pub plugged: Sensor<'a>,
    pub beside: Option<Sensor<'a>>,
    pub is_exchange_wanted: &'a AtomicBool,
}

impl Cable<'_> {
    /// The sensor that is plugged in now, which has power from then on.
    fn sensor(&mut self) {
        if self.is_exchange_wanted.load(Ordering::SeqCst) {
            if let Some(mut other) = self.beside.take() {
                other.power_cycle();
                self.plugged = other;
            }
        }
    }
}

/// Nothing is promised of this line: the sensor at its end may be another one at each call.
impl Wire for Cable<'_> {
    ghost facts = { unknown };

    ghost clean_exchanges = { λ old sent answer new never. Prim.search rules };

    ghost clean_wakes = { λ old answer new never. Prim.search rules };

    fn wake(&mut self) -> Option<Rate> {
        self.sensor();
        self.plugged.wake();
        Some(Rate::Com2)
    }

    fn exchange(&mut self, sent: &[u8]) -> Option<Message> {
        self.sensor();
        let reply = self.plugged.hear(sent);
        self.plugged.work();
        reply
    }
}
