//! The simulated line: a cable, and the sensor that is plugged in, if one is.
ghost use Rattle.std.specs.Prelude.{IsOk};
ghost use Rattle.iol_page.specs.Page.{layouts_of};

use crate::parameters::UPPER_LIMIT;
use anyhow::{Result, bail};
use iol_image::Image;
use iol_isdu::{Answer, Request};
use iol_link::Rate;
use iol_mseq::Message;
use iol_page::Page;
use iol_param_device::{ParamDevice, slot_size};
use iol_params::Table;
use iol_slots::RamSlots;
use std::alloc::Global;

/// 20 degrees, in tenths: what each sensor measures.
const MEASURED: u16 = 200;

/// Half a degree, in tenths: what a press of the key makes of the upper limit.
const PRESS: u16 = 5;

/// A sensor, and what it did.
#[derive(Drop)]
pub struct Sensor<'a> {
    pub name: &'static str,
    device: ParamDevice<'a, RamSlots>,
    /// How many requests it has carried out.
    pub carried: u32,
}

impl<'a> Sensor<'a> {
    /// A sensor with the values that it has from the factory.
    pub fn new(
        alloc: Global,
        name: &'static str,
        table: &'a Table<'a>,
        page: Page,
    ) -> Result<Sensor<'a>>
        requires page { IsOk (layouts_of page) }
    {
        let slots = RamSlots::open(alloc, slot_size(table))?;
        Ok(Sensor {
            name,
            device: ParamDevice::open(alloc, table, page, slots)?,
            carried: 0,
        })
    }

    /// Its key is pressed: the upper limit is half a degree higher. The new one is answered.
    pub fn press_key(&mut self) -> Result<u16> {
        let Answer::Read(octets) = self.device.manager().read(UPPER_LIMIT) else {
            bail!("the sensor has no upper limit");
        };
        let [high, low] = octets.as_slice() else {
            bail!("the upper limit is no number of two octets");
        };
        let limit = u16::from_be_bytes([*high, *low]).saturating_add(PRESS);
        if self.device.set(UPPER_LIMIT, &limit.to_be_bytes()).is_err() {
            bail!("the sensor takes no key now");
        }
        Ok(limit)
    }

    /// Carries out the request that came whole, if one did; a write is printed. An event is raised,
    /// if one is due.
    fn work(&mut self, rt: &impl Print) -> Result<()> {
        if let Some(request) = self.device.device().handed() {
            if let Request::Write(place, octets) = request {
                print!(rt; "  written at {}: {}/{}", self.name, place.index, place.sub)?;
                for octet in octets.as_slice() {
                    print!(rt; " {octet:02X}")?;
                }
                println!(rt;)?;
            }
            self.carried = self.carried.saturating_add(1);
        }
        self.device.work();
        Ok(())
    }
}

/// A cable, and what is plugged in at its far end.
#[derive(Drop)]
pub struct Cable<'a> {
    pub sensor: Option<Sensor<'a>>,
}

impl<'a> Cable<'a> {
    /// Plugs a sensor in, which has power from then on, and measures.
    pub fn plug_in(&mut self, mut sensor: Sensor<'a>) -> Result<()> {
        sensor.device.power_cycle();
        let measured = Image::new(&MEASURED.to_be_bytes())?;
        sensor.device.set_input(&measured)?;
        self.sensor = Some(sensor);
        Ok(())
    }

    /// A wake-up request: the rate of the sensor that answers.
    pub fn wake(&mut self) -> Option<Rate> {
        let sensor = self.sensor.as_mut()?;
        sensor.device.wake();
        Some(Rate::Com2)
    }

    /// A message: the sensor's reply, none where nothing is plugged in.
    pub fn exchange(&mut self, rt: &impl Print, octets: &[u8]) -> Result<Option<Message>> {
        let Some(sensor) = &mut self.sensor else {
            return Ok(None);
        };
        let reply = sensor.device.hear(octets);
        sensor.work(rt)?;
        Ok(reply)
    }
}
