//! The device: its end of the line, its parameters, and what it keeps over the power.
ghost use Rattle.std.specs.Prelude.{◌≡◌, ◌+◌, true, IsOk, IsErr, IfOk, IfErr, OnOk, OnErr, IsTrue, ◌↔◌, None, Some, option_copied};
ghost use Rattle.std.specs.Result.{result_err};
ghost use Rattle.iol_event.specs.Memory.{is_full};
ghost use Rattle.iol_page.specs.Page.{layouts_of};
ghost use Rattle.iol_far.specs.Isdu.{own, handed_request};
ghost use Rattle.iol_far.specs.Far.{hear};
ghost use Rattle.iol_far.specs.Octets.{octets_in};
ghost use Rattle.iol_far.specs.Local.{local, far_after_wake, is_input, LocalStep};
ghost use Rattle.iol_device.specs.Device.{opened_device};
ghost use Rattle.iol_device.specs.Number.{handed_number};
ghost use Rattle.iol_device.specs.Hearing.{device_after_hearing, HearsInto};
ghost use Rattle.iol_device.specs.Silence.{device_output};
ghost use Rattle.iol_device.specs.Awaited.{awaited_length};
ghost use Rattle.iol_device.specs.declared.fault.DeviceFault.{DeviceFault};
ghost use Rattle.iol_slots.specs.Images.{has_size};
ghost use Rattle.iol_params.specs.Image.{image_size};
ghost use Rattle.iol_params.specs.State.{after_end, after_quiet};
ghost use Rattle.iol_params.specs.Carry.{local_change, local_reset};
ghost use Rattle.iol_param_device.specs.Saved.{Saves, SavesUnless, opened_manager};
ghost use Rattle.iol_param_device.specs.Faults.{open_fault};
ghost use Rattle.iol_param_device.specs.Device.{ParamDeviceValue, both, after_request, after_event, after_work, works_on_read, goes_back, ended_if};

use crate::fault::OpenFault;
use crate::saved::SavedManager;
use iol_device::{Apart, Device, DeviceFault, DeviceMode, NoRecord};
use iol_event::Event;
use iol_image::Image;
use iol_isdu::{Answer, Place};
use iol_mseq::Message;
use iol_page::Page;
use iol_params::{ErrorType, Manager, Table};
use iol_slots::Slots;
use std::alloc::{Allocator, Global};
use std::marker::Model;

/// DS_UPLOAD_REQ: Data Storage has something new to fetch. A single notification of the
/// application (IEC 61131-9, Annex D, cited from memory).
pub const UPLOAD_REQUEST: Event = Event {
    qualifier: 0x54,
    code: 0xFF91,
};

/// A device whose parameters are those of a table.
///
/// Its record isn't kept, so it takes no memory but that of its values, however long it runs.
#[derive(Drop)]
pub struct ParamDevice<'a, S: Slots, A: Allocator + Copy = Global> {
    device: Device<Apart, NoRecord>,
    saved: SavedManager<'a, S, A>,
}

impl<'a, S: Slots, A: Allocator + Copy> Model for ParamDevice<'a, S, A> {
    ghost use Rattle.iol_param_device.specs.Device.{ParamDeviceValue};

    ghost Value = { ParamDeviceValue S };

    ghost view = { λ d. record {
      device = d.device;
      manager = d.saved.manager;
      slots = d.saved.slots;
    } };
}

impl<'a, S: Slots, A: Allocator + Copy> ParamDevice<'a, S, A> {
    /// A device of this page and table, asleep, with what its slots keep.
    ///
    /// The page asks for good layouts. Refused as
    /// [`SavedManager::open`] is: 59 WrongSlotSize; 24 OutOfMemory.
    pub fn open(
        alloc: A,
        table: &'a Table<'a>,
        page: Page,
        slots: S,
    ) -> Result<ParamDevice<'a, S, A>, OpenFault>
        requires page { IsOk (layouts_of page) }
        ensures opened { IfOk result (λ d. d ≡ record {
          device = opened_device own page None d.device.app;
          manager = opened_manager table.now (S.memory slots);
          slots = slots;
        }) }
        ensures size { IsOk result → has_size (S.memory slots) (image_size table.now + 2) ≡ true }
        ensures refused { IfErr result (λ why. why
            ≡ open_fault (has_size (S.memory slots) (image_size table.now + 2))) }
    {
        let saved = SavedManager::open(alloc, table, slots)?;
        Ok(ParamDevice {
            device: Device::new(Apart, page),
            saved,
        })
    }

    /// Octets came, whatever they are: the reply, where the device is awake and accepts them.
    /// Where it goes back from OPERATE, or to STARTUP, an activity ends.
    pub fn hear(&mut self, octets: &[u8]) -> Option<Message>
        ensures device { self.new.device ≡ device_after_hearing self.old.device octets.now }
        ensures reply { octets_in result ≡ (hear self.old.device.far octets.now).reply }
        ensures manager { self.new.manager ≡ record self.old.manager {
          state = ended_if
              (goes_back self.old.device.far.mode self.new.device.far.mode)
              self.old.manager.state;
        } }
        ensures slots { self.new.slots ≡ self.old.slots }
    {
        let before = self.device.mode();
        let reply = self.device.hear(octets);
        self.end_if_back(before);
        reply
    }

    /// Octets came, as [`hear`](ParamDevice::hear) says. Answers whether there is a reply, which
    /// then stands in the buffer; else the buffer is empty.
    pub fn hear_into(&mut self, octets: &[u8], reply: &mut Message) -> bool
        ensures device { HearsInto self.old.device octets.now result reply.new self.new.device }
        ensures manager { self.new.manager ≡ record self.old.manager {
          state = ended_if
              (goes_back self.old.device.far.mode self.new.device.far.mode)
              self.old.manager.state;
        } }
        ensures slots { self.new.slots ≡ self.old.slots }
    {
        let before = self.device.mode();
        let answers = self.device.hear_into(octets, reply);
        self.end_if_back(before);
        answers
    }

    /// How many octets the message has that begins with these, as [`Device::expects`] says.
    pub fn expects(&self, begun: &[u8]) -> u8
        ensures { result ≡ awaited_length self.now.device.far begun.now }
    {
        self.device.expects(begun)
    }

    // An activity ends if the device went back.
    fn end_if_back(&mut self, before: DeviceMode)
        ensures { self.new ≡ record self.old {
          manager = record self.old.manager {
            state = ended_if (goes_back before self.old.device.far.mode)
                self.old.manager.state;
          };
        } }
    {
        if goes_back(before, self.device.mode()) {
            self.saved.over();
        }
    }

    /// A request that was handed over is carried out, once; what it changed is saved, and then it
    /// has its answer. An event that is due is raised, if the event memory takes it.
    ///
    /// Rule DSD-6.
    pub fn work(&mut self)
        ensures works { both self.new.device.far self.new.manager.state
            ≡ after_work self.old.manager.table
            (both self.old.device.far self.old.manager.state) }
        ensures rest { self.new.device
            ≡ record self.old.device { far = self.new.device.far } }
        ensures table { self.new.manager.table ≡ self.old.manager.table }
        ensures saves { SavesUnless S.memory
            (works_on_read (handed_request self.old.device.far.isdu)) S.store_gives self.old.slots
            (record { manager = self.new.manager; slots = self.new.slots }) }
    {
        self.answer_request();
        self.tell_event();
    }

    // The request that is handed over, if any, has its answer.
    fn answer_request(&mut self)
        ensures works { both self.new.device.far self.new.manager.state
            ≡ after_request (handed_request self.old.device.far.isdu) self.old.manager.table
            (both self.old.device.far self.old.manager.state) }
        ensures rest { self.new.device
            ≡ record self.old.device { far = self.new.device.far } }
        ensures table { self.new.manager.table ≡ self.old.manager.table }
        ensures saves { SavesUnless S.memory
            (works_on_read (handed_request self.old.device.far.isdu)) S.store_gives self.old.slots
            (record { manager = self.new.manager; slots = self.new.slots }) }
    {
        if let (Some(number), Some(request)) = (self.device.handed_number(), self.device.handed()) {
            let answer = self.saved.carry(request);
            answer_handed(&mut self.device, number, answer);
        }
    }

    // The event is raised, if it is due and the memory takes it.
    fn tell_event(&mut self)
        ensures works { both self.new.device.far self.new.manager.state
            ≡ after_event
            (both self.old.device.far self.old.manager.state) }
        ensures rest { self.new.device
            ≡ record self.old.device { far = self.new.device.far } }
        ensures table { self.new.manager.table ≡ self.old.manager.table }
        ensures slots { self.new.slots ≡ self.old.slots }
    {
        if self.saved.manager().is_event_due() && self.device.raise(UPLOAD_REQUEST).is_ok() {
            self.saved.event_raised();
        }
    }

    /// A change at the device itself, as by its buttons: it is saved, and [`work`] raises the
    /// event, if Data Storage keeps the value.
    ///
    /// Refused as [`Manager::set`] is, and nothing changed.
    ///
    /// [`work`]: ParamDevice::work
    pub fn set(&mut self, place: Place, octets: &[u8]) -> Result<(), ErrorType>
        ensures manager { let old = self.old.manager in self.new.manager ≡ record old {
          state = (local_change old.table old.state place octets.now).1;
        } }
        ensures refusal { let old = self.old.manager in result_err result
            ≡ (local_change old.table old.state place octets.now).0 }
        ensures saves { OnOk result (Saves S.memory S.store_gives self.old.slots
            (record { manager = self.new.manager; slots = self.new.slots })) }
        ensures unchanged { OnErr result (self.new.slots ≡ self.old.slots) }
        ensures device { self.new.device ≡ self.old.device }
    {
        self.saved.set(place, octets)
    }

    /// A factory reset at the device itself, as [`Manager::local_reset`] makes it, and saved.
    ///
    /// Refused with 0x8036, and nothing changed, while an activity is under way: try again.
    pub fn reset(&mut self) -> Result<(), ErrorType>
        ensures manager { let old = self.old.manager in self.new.manager ≡ record old {
          state = (local_reset old.table old.state).1;
        } }
        ensures refusal { let old = self.old.manager in result_err result
            ≡ (local_reset old.table old.state).0 }
        ensures saves { OnOk result (Saves S.memory S.store_gives self.old.slots
            (record { manager = self.new.manager; slots = self.new.slots })) }
        ensures unchanged { OnErr result (self.new.slots ≡ self.old.slots) }
        ensures device { self.new.device ≡ self.old.device }
    {
        self.saved.reset()
    }

    /// A wake-up request came, as [`Device::wake`] says; an activity ends. A request that was
    /// handed over is dropped, so nothing of a block that was cut off comes into force.
    pub fn wake(&mut self)
        ensures { self.new ≡ record self.old {
          device = record self.old.device { far = far_after_wake self.old.device.far };
          manager = record self.old.manager { state = after_end self.old.manager.state };
        } }
    {
        self.device.wake();
        self.saved.over();
    }

    /// The master counts as silent, as [`Device::silence`] says; an activity ends, as
    /// [`Manager::silence`] says. So nothing of a block that was cut off comes into force, nor does
    /// a write of it that was handed over, or that still comes.
    ///
    /// Rule ACT-5.
    pub fn silence(&mut self)
        ensures { self.new ≡ record self.old {
          device = record self.old.device { silent = true };
          manager = record self.old.manager { state = after_quiet self.old.manager.state };
        } }
    {
        self.device.silence();
        self.saved.silence();
    }

    /// The power fails and comes back: asleep, with what the slots keep.
    pub fn power_cycle(&mut self)
        ensures { self.new ≡ record self.old {
          device = record self.old.device {
            far = local self.old.device.far LocalStep.Power;
          };
          manager = opened_manager self.old.manager.table (S.memory self.old.slots);
        } }
    {
        self.device.power_cycle();
        self.saved.power_cycle();
    }

    /// An event of its own is raised, as [`Device::raise`] says: 16 MemoryFull.
    pub fn raise(&mut self, event: Event) -> Result<(), DeviceFault>
        ensures raises { self.new ≡ record self.old {
          device = record self.old.device {
            far = local self.old.device.far (LocalStep.Raise event);
          };
        } }
        ensures full { IsErr result ↔ IsTrue (is_full self.old.device.far.events) }
        ensures refused { IfErr result (λ e. e ≡ DeviceFault.MemoryFull) }
    {
        self.device.raise(event)
    }

    /// The process data in from now on, as [`Device::set_input`] says: 29 WrongImageLength.
    pub fn set_input(&mut self, image: &Image) -> Result<(), DeviceFault>
        ensures sets { self.new ≡ record self.old {
          device = record self.old.device {
            far = local self.old.device.far (LocalStep.Input image.now);
          };
        } }
        ensures fits { IsOk result ↔ IsTrue (is_input self.old.device.far image.now) }
        ensures refused { IfErr result (λ e. e ≡ DeviceFault.WrongImageLength) }
    {
        self.device.set_input(image)
    }

    /// From now on there is no valid process data in.
    pub fn clear_input(&mut self)
        ensures { self.new ≡ record self.old {
          device = record self.old.device {
            far = local self.old.device.far LocalStep.NoInput;
          };
        } }
    {
        self.device.clear_input();
    }

    /// Its end of the line.
    pub fn device(&self) -> &Device<Apart, NoRecord>
        ensures { result.now ≡ self.now.device }
    {
        &self.device
    }

    /// Its parameters.
    pub fn manager(&self) -> &Manager<'a, A>
        ensures { result.now ≡ self.now.manager }
    {
        self.saved.manager()
    }

    /// Its slots, as of a device that is switched off.
    pub fn into_slots(self) -> S
        ensures { result ≡ self.entry.slots }
    {
        let ParamDevice { device: _, saved } = self;
        saved.into_slots()
    }
}

/// Whether a device goes back from OPERATE, or to STARTUP: then an activity ends.
pub fn goes_back(before: DeviceMode, now: DeviceMode) -> bool
    ensures { result ≡ goes_back before now }
{
    match before {
        DeviceMode::Operate => now != DeviceMode::Operate,
        DeviceMode::Preoperate => now == DeviceMode::Startup,
        DeviceMode::Startup => false,
    }
}

/// The request that is handed over has this answer, if it fits.
#[tactic(auto, using(crate::proofs::Answering::answered))]
fn answer_handed(device: &mut Device<Apart, NoRecord>, number: u64, answer: Answer)
    requires { handed_number device.old ≡ Some number }
    ensures { device.new ≡ record device.old {
      far = local device.old.far (LocalStep.Carry answer);
    } }
{
    let _ = device.answer(number, answer);
}
