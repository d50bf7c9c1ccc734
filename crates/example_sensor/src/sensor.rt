//! The device: what it measures becomes its process data and its events.
use crate::parameters::{HYSTERESIS, SWITCHING_POINT};
use anyhow::Result;
use iol_event::Event;
use iol_image::Image;
use iol_isdu::{Answer, Place};
use iol_mseq::Message;
use iol_param_device::ParamDevice;
use iol_params::{ErrorType, Restart};
use iol_slots::RamSlots;

/// 20 degrees, in tenths.
const FIRST: u16 = 200;

/// Half a degree, in tenths: what a press of a button makes of the switching point.
const PRESS: u16 = 5;

/// The process variable is out of its range: a warning of the application, with the
/// two modes that it has.
const OUT_OF_RANGE: u16 = 0x8C10;

/// How many messages a master has to fetch the answer to a reset, before the sensor restarts.
const FETCHES: u8 = 4;

const APPEARS: u8 = 0xE4;

const DISAPPEARS: u8 = 0xA4;

/// A button of the sensor.
#[derive(Clone, Copy, Debug, PartialEq, Eq)]
pub enum Button {
    /// The switching point is half a degree higher.
    Up,
    /// It is half a degree lower.
    Down,
    /// Everything is as the sensor left the factory.
    Reset,
}

/// A device with a table of parameters, the temperature that it measures, and whether its last
/// event said that it is hot.
#[derive(Drop)]
pub struct Sensor<'a> {
    device: ParamDevice<'a, RamSlots>,
    tenths: u16,
    is_hot: bool,
    fetches: u8,
}

impl<'a> Sensor<'a> {
    /// A sensor of this device, which needs no more memory, however long it runs.
    pub fn new(device: ParamDevice<'a, RamSlots>) -> Sensor<'a> {
        Sensor {
            device,
            tenths: FIRST,
            is_hot: false,
            fetches: FETCHES,
        }
    }

    /// It is a tenth of a degree warmer than before: the process data follows, and
    /// the events where they are due.
    pub fn measure(&mut self) -> Result<()> {
        self.tenths = self.tenths.saturating_add(1);
        self.device
            .set_input(&Image::new(&self.tenths.to_be_bytes())?)?;
        let is_hot = self.is_hot_now();
        if is_hot != self.is_hot {
            let qualifier = if is_hot { APPEARS } else { DISAPPEARS };
            self.device.raise(Event {
                qualifier,
                code: OUT_OF_RANGE,
            })?;
            self.is_hot = is_hot;
        }
        Ok(())
    }

    /// Whether it is hot: once it was above the switching point, until it is below that by more
    /// than the hysteresis.
    fn is_hot_now(&self) -> bool {
        let point = self.number(SWITCHING_POINT);
        let width = if self.is_hot {
            self.number(HYSTERESIS)
        } else {
            0
        };
        self.tenths > point.saturating_sub(width)
    }

    /// The number in force at a place.
    fn number(&self, place: Place) -> u16 {
        match self.device.manager().read(place) {
            Answer::Read(octets) => match octets.as_slice() {
                [high, low] => u16::from_be_bytes([*high, *low]),
                _ => 0,
            },
            Answer::Written | Answer::Refused(..) => 0,
        }
    }

    /// A button is pressed. Refused while the master reads or writes what belongs together, or
    /// has locked local changes.
    pub fn press(&mut self, button: Button) -> Result<(), ErrorType> {
        let point = self.number(SWITCHING_POINT);
        let new = match button {
            Button::Up => point.saturating_add(PRESS),
            Button::Down => point.saturating_sub(PRESS),
            Button::Reset => return self.device.reset(),
        };
        self.device.set(SWITCHING_POINT, &new.to_be_bytes())
    }

    /// The power fails and comes back.
    pub fn power_cycle(&mut self) {
        self.device.power_cycle();
        self.is_hot = false;
        self.fetches = FETCHES;
    }

    pub fn wake(&mut self) {
        self.device.wake();
    }

    /// The reply to these octets, where it has one. A request that came whole with
    /// them is carried out at once.
    pub fn hear(&mut self, octets: &[u8]) -> Option<Message> {
        if self.restarts() {
            return None;
        }
        let reply = self.device.hear(octets);
        self.device.work();
        reply
    }

    /// Whether the master asked for a restart, and had time to fetch the answer. Then the sensor
    /// begins anew, or it is silent until its power is back.
    fn restarts(&mut self) -> bool {
        let restart = self.device.manager().restart();
        if restart == Restart::NotDue {
            return false;
        }
        if self.fetches > 0 {
            self.fetches -= 1;
            return false;
        }
        if restart == Restart::Warm {
            self.power_cycle();
        }
        true
    }
}
