//! Requests: carried out by the table, saved by C, and then answered.
ghost use Rattle.std.specs.Prelude.{◌≡◌, true, IsTrue};
ghost use Rattle.std.specs.Result.{result_err};
ghost use Rattle.iol_far.specs.Isdu.{handed_request};
ghost use Rattle.iol_params.specs.Image.{lasting_of};
ghost use Rattle.iol_params.specs.Carry.{local_change, local_reset};
ghost use Rattle.iolink_params_c.specs.Work.{is_saved_first, far_answered, after_handed, after_report, sensor_after_work, sensor_after_save, sensor_after_change, is_nothing};

use crate::sensor::{ParamSensor, Unsaved};
use iol_device::{Apart, Device, NoRecord};
use iol_event::Event;
use iol_isdu::{Answer, Place};
use iol_params::{Activity, ErrorType};

/// DS_UPLOAD_REQ: Data Storage has something new to fetch. A single notification of the
/// application.
const UPLOAD_REQUEST: Event = Event {
    qualifier: 0x54,
    code: 0xFF91,
};

impl Unsaved {
    /// Whether nothing is to be saved.
    pub(crate) fn is_nothing(self) -> bool
        ensures { result ≡ is_nothing self }
    {
        matches!(self, Unsaved::Nothing)
    }
}

/// Whether an answer tells of what has to be saved first.
fn is_saved_first(answer: &Answer, activity: Activity) -> bool
    ensures { result ≡ is_saved_first answer.now activity }
{
    matches!(answer, Answer::Written) && activity.is_at_rest()
}

/// The request of this number has this answer, where it still waits for one.
fn answer_to(device: &mut Device<Apart, NoRecord>, number: u64, answer: Answer)
    ensures { device.new ≡ record device.old { far = far_answered device.old number answer } }
{
    let _ = device.answer(number, answer);
}

impl ParamSensor {
    /// Unless something is to be saved, the request that is handed over is carried out. It has its
    /// answer, unless that has to be saved first. The event that is due is raised then, if the
    /// event memory takes it.
    ///
    /// Rule SAVE-3.
    pub(crate) fn work(&mut self)
        ensures does { self.new ≡ sensor_after_work self.old }
        ensures lasting { IsTrue (is_nothing self.new.unsaved) →
            lasting_of self.new.manager.state ≡ lasting_of self.old.manager.state }
    {
        if !self.unsaved.is_nothing() {
            return;
        }
        self.answer_request();
        if self.unsaved.is_nothing() {
            self.tell_event();
        }
    }

    // The request that is handed over, if any, is carried out.
    fn answer_request(&mut self)
        ensures { self.new ≡ after_handed (handed_request self.old.device.far.isdu) self.old }
    {
        if let (Some(number), Some(request)) = (self.device.handed_number(), self.device.handed()) {
            let answer = self.manager.carry(request);
            if is_saved_first(&answer, self.manager.activity()) {
                self.unsaved = Unsaved::Write(number);
            } else {
                answer_to(&mut self.device, number, answer);
            }
        }
    }

    // The event is raised, if it is due and the memory takes it.
    fn tell_event(&mut self)
        ensures { self.new ≡ after_report self.old }
    {
        if self.manager.is_event_due() && self.device.raise(UPLOAD_REQUEST).is_ok() {
            self.manager.event_raised();
        }
    }

    /// What was to be saved is saved: the write that waits for it has its answer.
    pub(crate) fn saved(&mut self)
        ensures { self.new ≡ sensor_after_save self.old.unsaved self.old }
    {
        if let Unsaved::Write(number) = self.unsaved {
            answer_to(&mut self.device, number, Answer::Written);
        }
        self.unsaved = Unsaved::Nothing;
    }

    /// A change at the device itself, to be saved.
    pub(crate) fn set(&mut self, place: Place, octets: &[u8]) -> Result<(), ErrorType>
        ensures does { let s = self.old.manager in self.new
            ≡ sensor_after_change (local_change s.table s.state place octets.now) self.old }
        ensures refusal { let s = self.old.manager in result_err result
            ≡ (local_change s.table s.state place octets.now).0 }
    {
        self.manager.set(place, octets)?;
        self.unsaved = Unsaved::Change;
        Ok(())
    }

    /// A factory reset at the device itself, to be saved.
    pub(crate) fn reset(&mut self) -> Result<(), ErrorType>
        ensures does { let s = self.old.manager in
            self.new ≡ sensor_after_change (local_reset s.table s.state) self.old }
        ensures refusal { let s = self.old.manager in result_err result
            ≡ (local_reset s.table s.state).0 }
    {
        self.manager.local_reset()?;
        self.unsaved = Unsaved::Change;
        Ok(())
    }
}
