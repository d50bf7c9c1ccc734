//! What stands at the far end of a simulated wire.
ghost use Rattle.std.specs.Prelude.{◌≡◌, ◌↔◌, true, IsErr, IsTrue};
ghost use Rattle.iol_event.specs.Memory.{is_full};
ghost use Rattle.iol_far.specs.Far.{hear};
ghost use Rattle.iol_far.specs.Octets.{octets_in_buffer};
ghost use Rattle.iol_far.specs.Laws.{IsRegular};
ghost use Rattle.iol_far.specs.Local.{LocalStep};
ghost use Rattle.iol_far.specs.Orderly.{IsOrderly};
ghost use Rattle.iol_device.specs.Pulses.{is_orderly};

use crate::beside::Beside;
use iol_device::{App, Device, DeviceFault, FullRecord};
use iol_event::Event;
use iol_image::Image;
use iol_isdu::Place;
use iol_mseq::Message;
use std::alloc::Allocator;
use std::marker::Model;

/// A device, and what stands beside it.
#[derive(Drop)]
pub(crate) struct DeviceStand<P: App, A: Allocator + Copy, B: Beside<P>> {
    pub(crate) device: Device<P, FullRecord<A>>,
    pub(crate) beside: B,
}

impl<P: App, A: Allocator + Copy, B: Beside<P>> Model for DeviceStand<P, A, B> {
    ghost use Rattle.iol_sim.specs.Beside.{Stand};

    ghost Value = { Stand P B };

    ghost view = { λ s. record { device = s.device; beside = s.beside } };

    ghost inverse = { λ s. record { device = s.device; beside = s.beside } };
}

impl<P: App, A: Allocator + Copy, B: Beside<P>> DeviceStand<P, A, B> {
    ghost use Rattle.iol_sim.specs.Beside.{after_hearing, after_wake_up, after_power, after_silence, after_local_change, after_step};

    /// Octets come. Answers whether there is a reply, which then stands in the buffer.
    pub(crate) fn hear_into(&mut self, octets: &[u8], reply: &mut Message) -> bool
        ensures stand { self.new ≡ after_hearing B.facts self.old octets.now }
        ensures reply { octets_in_buffer result reply.new
            ≡ (hear self.old.device.far octets.now).reply }
    {
        let before = self.device.mode();
        let answers = self.device.hear_into(octets, reply);
        self.beside.hear(before, self.device.mode());
        answers
    }

    /// Whether the device is as one is that may miss pulses, as [`Device::is_orderly`] says.
    pub(crate) fn is_orderly(&self) -> bool
        ensures value { result ≡ is_orderly self.now.device.far }
        ensures orderly { result ≡ true → IsOrderly self.now.device.far }
    {
        self.device.is_orderly()
    }

    /// A law of each device, without code of its own, as [`Device::parts_are_regular`] says.
    pub(crate) fn parts_are_regular(&self)
        ensures { IsRegular self.now.device.far }
    {
        self.device.parts_are_regular();
    }

    /// The application works.
    pub(crate) fn work(&mut self)
        ensures { B.facts.works self.old self.new }
    {
        self.beside.work(&mut self.device);
    }

    /// A wake-up request comes.
    pub(crate) fn wake(&mut self)
        ensures { self.new ≡ after_wake_up B.facts self.old }
    {
        self.device.wake();
        self.beside.end();
    }

    /// The master counts as silent.
    pub(crate) fn silence(&mut self)
        ensures { self.new ≡ after_silence B.facts self.old }
    {
        self.device.silence();
        self.beside.silence();
    }

    /// The power fails and comes back.
    pub(crate) fn power_cycle(&mut self)
        ensures { self.new ≡ after_power B.facts self.old }
    {
        self.device.power_cycle();
        self.beside.power_cycle();
    }

    /// Octets are to be the value at a place, by the device itself.
    pub(crate) fn change(&mut self, place: Place, octets: &[u8])
        ensures { self.new ≡ after_local_change B.facts self.old place octets.now }
    {
        self.beside.change(place, octets);
    }

    /// An event is raised, as [`Device::raise`] says.
    pub(crate) fn raise(&mut self, event: Event) -> Result<(), DeviceFault>
        ensures stand { self.new ≡ after_step self.old (LocalStep.Raise event) }
        ensures full { IsErr result ↔ IsTrue (is_full self.old.device.far.events) }
    {
        self.device.raise(event)
    }

    /// The process data in from now on, where it is of the page's length.
    pub(crate) fn set_input(&mut self, image: &Image)
        ensures { self.new ≡ after_step self.old (LocalStep.Input image.now) }
    {
        // A refusal changes nothing.
        let _ = self.device.set_input(image);
    }

    /// From now on there is no valid process data in.
    pub(crate) fn clear_input(&mut self)
        ensures { self.new ≡ after_step self.old LocalStep.NoInput }
    {
        self.device.clear_input();
    }
}
