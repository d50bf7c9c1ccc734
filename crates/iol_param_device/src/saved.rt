//! A manager whose values outlive the power.
ghost use Rattle.std.specs.Prelude.{◌≡◌, ◌+◌, ◌≤◌, Some, true, false, length, IfOk, IfErr, IsOk, OnOk, OnErr};
ghost use Rattle.std.specs.Result.{result_err};
ghost use Rattle.iol_isdu.specs.Answers.{is_read};
ghost use Rattle.iol_slots.specs.Images.{has_size, FitsIn};
ghost use Rattle.iol_params.specs.State.{after_end, after_quiet};
ghost use Rattle.iol_params.specs.Carry.{local_change, local_reset};
ghost use Rattle.iol_params.specs.Requests.{request_result};
ghost use Rattle.iol_params.specs.Image.{lasting_of, with_lasting, image_size};
ghost use Rattle.iol_param_device.specs.Saved.{SavedValue, Saves, SavesUnless, IsSaved, opened_manager};
ghost use Rattle.iol_param_device.specs.Faults.{open_fault};

use crate::fault::OpenFault;
use iol_isdu::{Answer, Place, Request};
use iol_params::{ErrorType, Manager, Table};
use iol_slots::{Slots, has_size, load, save};
use std::alloc::{AllocError, Allocator, Global};
use std::marker::Model;

/// The marks of an image in its slot.
const MARKS: usize = 2;

/// A manager whose values, locks and flag outlive the power.
///
/// Each change is saved before the call returns that makes it, so before it is answered. Wherever
/// the power fails, opening it anew with the same slots brings the state before that call, or
/// behind it.
#[derive(Drop)]
pub struct SavedManager<'a, S: Slots, A: Allocator + Copy = Global> {
    manager: Manager<'a, A>,
    slots: S,
    image: Vec<u8, A>,
}

impl<'a, S: Slots, A: Allocator + Copy> Model for SavedManager<'a, S, A> {
    ghost use Rattle.iol_param_device.specs.Saved.{SavedValue, IsSavedIn};

    ghost Value = { SavedValue S };

    ghost view = { λ m. record { manager = m.manager; slots = m.slots } };

    ghost invariant = { λ m. IsSavedIn S.memory m.manager m.slots m.image.items };
}

impl<'a, S: Slots, A: Allocator + Copy> SavedManager<'a, S, A> {
    /// The manager of a table, with what its slots keep; the table's defaults where they keep
    /// nothing that it allows.
    ///
    /// Refused with 59 WrongSlotSize, where a slot has another size than
    /// [`slot_size`]; 24 OutOfMemory, where there is no memory for the
    /// values. No other call takes memory.
    pub fn open(
        alloc: A,
        table: &'a Table<'a>,
        slots: S,
    ) -> Result<SavedManager<'a, S, A>, OpenFault>
        ensures opened { IfOk result (λ m. m
            ≡ record { manager = opened_manager table.now (S.memory slots); slots = slots }) }
        ensures size { IsOk result → has_size (S.memory slots) (image_size table.now + 2) ≡ true }
        ensures refused { IfErr result (λ why. why
            ≡ open_fault (has_size (S.memory slots) (image_size table.now + 2))) }
    {
        if !has_size(&slots, slot_size(table)) {
            return Err(OpenFault::WrongSlotSize);
        }
        let Ok(mut manager) = Manager::open(alloc, table) else {
            return Err(OpenFault::OutOfMemory);
        };
        let Ok(image) = zeros(alloc, table.image_size()) else {
            return Err(OpenFault::OutOfMemory);
        };
        if let Some(image) = load(&slots) {
            manager.restore(image);
        }
        Ok(SavedManager {
            manager,
            slots,
            image,
        })
    }

    /// Carries out a request, as [`Manager::carry`] does, saves what it changed, and answers it.
    ///
    /// Rule SAVE-3.
    pub fn carry(&mut self, request: &Request) -> Answer
        ensures manager { self.new.manager ≡ record self.old.manager {
          state = (request_result self.old.manager.table self.old.manager.state request.now).1;
        } }
        ensures answer { result
            ≡ (request_result self.old.manager.table self.old.manager.state request.now).0 }
        ensures saves { SavesUnless S.memory (is_read request.now) S.store_gives self.old.slots
            self.new }
    {
        let answer = self.manager.carry(request);
        if let Request::Write(..) = request {
            save_state(&self.manager, &mut self.slots, &mut self.image);
        }
        answer
    }

    /// A change at the device itself, as [`Manager::set`] makes it, and saved.
    ///
    /// Refused as that is, and nothing changed.
    pub fn set(&mut self, place: Place, octets: &[u8]) -> Result<(), ErrorType>
        ensures manager { let old = self.old.manager in self.new.manager ≡ record old {
          state = (local_change old.table old.state place octets.now).1;
        } }
        ensures refusal { let old = self.old.manager in result_err result
            ≡ (local_change old.table old.state place octets.now).0 }
        ensures saves { OnOk result (Saves S.memory S.store_gives self.old.slots self.new) }
        ensures unchanged { OnErr result (self.new.slots ≡ self.old.slots) }
    {
        self.manager.set(place, octets)?;
        save_state(&self.manager, &mut self.slots, &mut self.image);
        Ok(())
    }

    /// A factory reset at the device itself, as [`Manager::local_reset`] makes it, and saved.
    ///
    /// Refused with 0x8036, and nothing changed, while an activity is under way: try again.
    #[tactic(auto, using(crate::proofs::Saving::reset_refused))]
    pub fn reset(&mut self) -> Result<(), ErrorType>
        ensures manager { let old = self.old.manager in self.new.manager ≡ record old {
          state = (local_reset old.table old.state).1;
        } }
        ensures refusal { let old = self.old.manager in result_err result
            ≡ (local_reset old.table old.state).0 }
        ensures saves { OnOk result (Saves S.memory S.store_gives self.old.slots self.new) }
        ensures unchanged { OnErr result (self.new.slots ≡ self.old.slots) }
    {
        self.manager.local_reset()?;
        save_state(&self.manager, &mut self.slots, &mut self.image);
        Ok(())
    }

    /// An activity ends, without effect, as [`Manager::over`] does it.
    pub fn over(&mut self)
        ensures { self.new ≡ record self.old {
          manager = record self.old.manager { state = after_end self.old.manager.state };
        } }
    {
        self.manager.over();
    }

    /// The master was silent, as [`Manager::silence`] says.
    pub fn silence(&mut self)
        ensures { self.new ≡ record self.old {
          manager = record self.old.manager { state = after_quiet self.old.manager.state };
        } }
    {
        self.manager.silence();
    }

    /// The event FF91 was raised.
    pub fn event_raised(&mut self)
        ensures { self.new ≡ record self.old {
          manager = record self.old.manager {
            state = record self.old.manager.state { event_due = false };
          };
        } }
    {
        self.manager.event_raised();
    }

    /// The power fails and comes back: the state is that of a manager that is opened anew with
    /// these slots.
    pub fn power_cycle(&mut self)
        ensures { self.new ≡ record self.old {
          manager = opened_manager self.old.manager.table (S.memory self.old.slots);
        } }
    {
        restart(&mut self.manager, &mut self.image);
    }

    /// The manager.
    pub fn manager(&self) -> &Manager<'a, A>
        ensures { result.now ≡ self.now.manager }
    {
        &self.manager
    }

    /// The slots, as of a device that is switched off.
    pub fn into_slots(self) -> S
        ensures { result ≡ self.entry.slots }
    {
        let SavedManager {
            manager: _,
            slots,
            image: _,
        } = self;
        slots
    }

    /// A law of each saved manager, without code of its own: a manager that is opened anew with
    /// its slots has its values, its locks and its flag. So the power undoes nothing that was
    /// answered.
    pub fn is_saved(&self)
        ensures { IsSaved S.memory self.now }
    {
        let _ = &self.slots;
    }
}

/// How many octets each slot has that keeps a table's values.
pub fn slot_size(table: &Table) -> usize
    ensures value { result ≡ image_size table.now + 2 }
    ensures bound { result ≤ 256003 }
{
    table.image_size() + MARKS
}

/// So many octets, all of them 0.
fn zeros<A: Allocator + Copy>(alloc: A, size: usize) -> Result<Vec<u8, A>, AllocError>
    ensures { IfOk result (λ octets. length octets.items ≡ size) }
{
    let mut octets = Vec::with_capacity(alloc, size)?;
    octets.resize(size, 0)?;
    Ok(octets)
}

/// The manager is as one with what of it outlives the power, and nothing else.
fn restart<A: Allocator + Copy>(manager: &mut Manager<A>, image: &mut [u8])
    requires { length image.old ≡ image_size manager.old.table }
    ensures manager { manager.new ≡ record manager.old {
      state = with_lasting manager.old.state (Some (lasting_of manager.old.state));
    } }
    ensures room { length image.new ≡ length image.old }
{
    manager.image_into(image);
    manager.restore(image);
}

/// Saves what of a manager outlives the power.
fn save_state<S: Slots, A: Allocator + Copy>(manager: &Manager<A>, slots: &mut S, image: &mut [u8])
    requires room { length image.old ≡ image_size manager.now.table }
    requires fits { FitsIn (S.memory slots.old) image.old }
    ensures saves { Saves S.memory S.store_gives slots.old
        (record { manager = manager.now; slots = slots.new }) }
    ensures saved { IsSaved S.memory (record { manager = manager.now; slots = slots.new }) }
    ensures room { length image.new ≡ length image.old }
    ensures fits { FitsIn (S.memory slots.new) image.new }
{
    manager.image_into(image);
    save(slots, image);
}
