//! What lies behind a handle, and what the line and the clock make of it.
ghost use Rattle.std.specs.Prelude.{◌≡◌};
ghost use Rattle.iol_page.specs.Page.{layouts_of};
ghost use Rattle.iol_far.specs.Far.{hear};
ghost use Rattle.iol_far.specs.Octets.{octets_in};
ghost use Rattle.iol_far.specs.Local.{far_after_wake};
ghost use Rattle.iol_device.specs.Hearing.{device_after_hearing};
ghost use Rattle.iol_params.specs.State.{after_end};
ghost use Rattle.iol_param_device.specs.Device.{goes_back, ended_if};
ghost use Rattle.iolink_params_c.specs.Line.{sensor_after_octets, sensor_after_wake, sensor_after_silence};

use iol_device::{Apart, Device, NoRecord};
use iol_mseq::Message;
use iol_param_device::goes_back;
use iol_params::OwnedManager;
use std::alloc::Global;

/// What is still to be saved.
#[derive(Clone, Copy, Debug, PartialEq, Eq)]
pub enum Unsaved {
    /// Nothing: what outlives the power is as it was saved last.
    Nothing,
    /// A change at the device itself.
    Change,
    /// What the write of this number changed. It has its answer behind that.
    Write(u64),
}

/// A device, its parameters, and what of them is still to be saved.
#[derive(Drop)]
pub struct ParamSensor {
    pub device: Device<Apart, NoRecord>,
    pub manager: OwnedManager<Global>,
    pub unsaved: Unsaved,
}

impl ParamSensor {
    /// Octets came: the reply, where there is one. An activity ends where it goes back.
    pub(crate) fn hear(&mut self, octets: &[u8]) -> Option<Message>
        ensures hears { self.new ≡ sensor_after_octets octets.now self.old }
        ensures reply { octets_in result ≡ (hear self.old.device.far octets.now).reply }
    {
        let before = self.device.mode();
        let reply = self.device.hear(octets);
        if goes_back(before, self.device.mode()) {
            self.manager.over();
        }
        reply
    }

    /// A wake-up request came; an activity ends.
    pub(crate) fn wake(&mut self)
        ensures { self.new ≡ sensor_after_wake self.old }
    {
        self.device.wake();
        self.manager.over();
    }

    /// The master counts as silent; an activity ends, and a download was cut off.
    pub(crate) fn silence(&mut self)
        ensures { self.new ≡ sensor_after_silence self.old }
    {
        self.device.silence();
        self.manager.silence();
    }
}
