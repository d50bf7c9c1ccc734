//! What stands beside a simulated device.
ghost use Rattle.std.specs.Prelude.{◌≡◌};
ghost use Rattle.iol_sim.specs.Beside.{BesideFacts, stand};

use iol_device::{App, Device, FullRecord};
use iol_far::DeviceMode;
use iol_isdu::Place;
use std::alloc::Allocator;

/// What stands beside a simulated device: it sees to its requests, is told what becomes of its
/// line and of its power, and takes what changes at the device itself.
pub trait Beside<P: App>: Drop {
    /// What it is to a contract: what each call of it gives, and what its work leaves of the far
    /// end.
    ghost facts: { BesideFacts P Self };

    /// The application works: a request that was handed over is carried out, once.
    fn work<A: Allocator + Copy>(&mut self, device: &mut Device<P, FullRecord<A>>)
        ensures { facts.works (stand device.old self.old) (stand device.new self.new) };

    /// A wake-up request came.
    fn end(&mut self)
        ensures { self.new ≡ facts.ended self.old };

    /// The master counts as silent.
    fn silence(&mut self)
        ensures { self.new ≡ facts.silenced self.old };

    /// Octets came, before and behind which the device was in these modes.
    fn hear(&mut self, before: DeviceMode, now: DeviceMode)
        ensures { self.new ≡ facts.heard before now self.old };

    /// The power fails and comes back.
    fn power_cycle(&mut self)
        ensures { self.new ≡ facts.cycled self.old };

    /// Octets are to be the value at a place, by the device itself; where they can't, nothing
    /// changes.
    fn change(&mut self, place: Place, octets: &[u8])
        ensures { self.new ≡ facts.changed self.old place octets.now };
}

/// Nothing stands beside the device: its application carries requests out, and nothing changes at
/// the device itself.
#[derive(Clone, Copy, Debug, PartialEq, Eq)]
pub struct Nothing;

impl<P: App> Beside<P> for Nothing {
    ghost use Rattle.iol_sim.specs.Beside.{plain_facts};

    ghost facts = { plain_facts P.carry_out_gives };

    fn work<A: Allocator + Copy>(&mut self, device: &mut Device<P, FullRecord<A>>) {
        device.work();
    }

    fn end(&mut self) {}

    fn silence(&mut self) {}

    fn hear(&mut self, _before: DeviceMode, _now: DeviceMode) {}

    fn power_cycle(&mut self) {}

    fn change(&mut self, _place: Place, _octets: &[u8]) {}
}
