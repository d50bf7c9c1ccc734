//! The parameters of a simulated device, as a table lists them.
ghost use Rattle.std.specs.Prelude.{◌≡◌, ◌<◌, Some, IfOk, length};
ghost use Rattle.iol_far.specs.Local.{local, LocalStep};
ghost use Rattle.iol_far.specs.Isdu.{handed_request};
ghost use Rattle.iol_device.specs.Number.{handed_number};
ghost use Rattle.iol_params.specs.Image.{lasting_of, with_lasting, image_size};
ghost use Rattle.iol_params.specs.Manager.{new_manager};
ghost use Rattle.iol_param_device.specs.Device.{both, after_request, after_event};

use iol_device::{Apart, Device, FullRecord};
use iol_far::DeviceMode;
use iol_isdu::{Answer, Place};
use iol_param_device::{UPLOAD_REQUEST, goes_back};
use iol_params::{Manager, Table};
use iol_sim::Beside;
use std::alloc::{AllocError, Allocator, Global};
use std::marker::Model;

/// The parameters of a simulated device, as a table lists them.
///
/// Its values, locks and flag outlive the power at each moment, as those of a device that saves
/// each change before it answers.
#[derive(Drop)]
pub struct Parameters<'t, A: Allocator + Copy = Global> {
    manager: Manager<'t, A>,
    /// The room of an image of what outlives the power.
    image: Vec<u8, A>,
    /// How many requests the device's record has room for.
    room: u32,
}

impl<'t, A: Allocator + Copy> Model for Parameters<'t, A> {
    ghost use Rattle.std.specs.Prelude.{◌≡◌, length};
    ghost use Rattle.iol_params.specs.Image.{image_size};
    ghost use Rattle.iol_param_sim.specs.Parameters.{ParametersValue};

    ghost Value = { ParametersValue };

    ghost view = { λ p. record { manager = p.manager; room = p.room } };

    ghost invariant = { λ p. length p.image.items ≡ image_size p.manager.table };
}

impl<'t, A: Allocator + Copy> Parameters<'t, A> {
    ghost use Rattle.iol_param_sim.specs.Parameters.{with_param_state};

    /// The parameters of a table, with its defaults, beside a device whose record has room for so
    /// many requests. No other call takes memory.
    pub fn open(alloc: A, table: &'t Table<'t>, room: u32) -> Result<Parameters<'t, A>, AllocError>
        ensures { IfOk result (λ p. p
            ≡ record { manager = new_manager table.now; room = room }) }
    {
        Ok(Parameters {
            manager: Manager::open(alloc, table)?,
            image: zeros(alloc, table.image_size())?,
            room,
        })
    }

    /// The manager of the table.
    pub fn manager(&self) -> &Manager<'t, A>
        ensures { result.now ≡ self.now.manager }
    {
        &self.manager
    }

    // The request that is handed over, if any, has its answer.
    fn answer_request<C: Allocator + Copy>(&mut self, device: &mut Device<Apart, FullRecord<C>>)
        ensures works { both device.new.far self.new.manager.state
            ≡ after_request (handed_request device.old.far.isdu) self.old.manager.table
            (both device.old.far self.old.manager.state) }
        ensures device { device.new ≡ record device.old { far = device.new.far } }
        ensures rest { self.new ≡ with_param_state self.old self.new.manager.state }
    {
        if let (Some(number), Some(request)) = (device.handed_number(), device.handed()) {
            let answer = self.manager.carry(request);
            answer_handed(device, number, answer);
        }
    }

    // The event is raised, if it is due and the memory takes it.
    fn tell_event<C: Allocator + Copy>(&mut self, device: &mut Device<Apart, FullRecord<C>>)
        ensures works { both device.new.far self.new.manager.state
            ≡ after_event (both device.old.far self.old.manager.state) }
        ensures device { device.new ≡ record device.old { far = device.new.far } }
        ensures rest { self.new ≡ with_param_state self.old self.new.manager.state }
    {
        if self.manager.is_event_due() && device.raise(UPLOAD_REQUEST).is_ok() {
            self.manager.event_raised();
        }
    }
}

impl<'t, A: Allocator + Copy> Beside<Apart> for Parameters<'t, A> {
    ghost use Rattle.iol_param_sim.specs.Parameters.{parameters_facts};

    ghost facts = { parameters_facts };

    /// A request that is handed over is answered by the manager, where the record has room for
    /// it. Then the event of Data Storage is raised, if it is due.
    fn work<C: Allocator + Copy>(&mut self, device: &mut Device<Apart, FullRecord<C>>) {
        if device.carried().len() < self.room as usize {
            self.answer_request(device);
        }
        self.tell_event(device);
    }

    /// An activity ends without effect.
    fn end(&mut self) {
        self.manager.over();
    }

    /// An activity ends without effect, and a download was cut off.
    fn silence(&mut self) {
        self.manager.silence();
    }

    /// An activity ends where the device goes back from OPERATE, or to STARTUP.
    fn hear(&mut self, before: DeviceMode, now: DeviceMode) {
        if goes_back(before, now) {
            self.manager.over();
        }
    }

    /// What was saved last is in force, and no activity is under way.
    fn power_cycle(&mut self) {
        restart(&mut self.manager, &mut self.image);
    }

    /// A change at the device itself, where the manager takes it: not in an activity.
    fn change(&mut self, place: Place, octets: &[u8]) {
        // A refusal changes nothing.
        let _ = self.manager.set(place, octets);
    }
}

/// The request that is handed over has this answer, if it fits.
#[tactic(auto, using(iol_param_device::proofs::Answering::answered))]
fn answer_handed<C: Allocator + Copy>(
    device: &mut Device<Apart, FullRecord<C>>,
    number: u64,
    answer: Answer,
)
    requires { handed_number device.old ≡ Some number }
    ensures { device.new ≡ record device.old {
      far = local device.old.far (LocalStep.Carry answer);
    } }
{
    let _ = device.answer(number, answer);
}

/// The manager is as one with what of it outlives the power, and nothing else.
fn restart<A: Allocator + Copy>(manager: &mut Manager<A>, image: &mut [u8])
    requires { length image.old ≡ image_size manager.old.table }
    ensures manager { manager.new ≡ record manager.old {
      state = with_lasting manager.old.state (Some (lasting_of manager.old.state));
    } }
    ensures room { length image.new ≡ length image.old }
{
    manager.image_into(image);
    manager.restore(image);
}

/// So many octets, all of them 0.
fn zeros<A: Allocator + Copy>(alloc: A, size: usize) -> Result<Vec<u8, A>, AllocError>
    ensures { IfOk result (λ octets. length octets.items ≡ size) }
{
    let mut octets = Vec::with_capacity(alloc, size)?;
    octets.resize(size, 0)?;
    Ok(octets)
}
