//! The parameters of a device, and what becomes of them.
ghost use Rattle.std.specs.Prelude.{◌≡◌, ◌≤◌, ◌++◌, ◌∷◌, [], Option, Some, None, IfOk, IfErr, length, true, false};
ghost use Rattle.std.specs.Result.{result_err};
ghost use Rattle.iol_params.specs.Values.{values_in, room_for, defaults, overlay, all_fit, fits_place};
ghost use Rattle.iol_params.specs.Table.{is_of_index};
ghost use Rattle.iol_params.specs.State.{is_uploading, after_end, after_quiet, with_flag_cleared, with_flag_set};
ghost use Rattle.iol_params.specs.Carry.{write, command, upload_settled, place_refusal, access_refusal, content_refusal, alone_refusal, write_refusal, local_change, local_refusal, local_reset, download_end, with_reset, rules_hold, is_consistent};
ghost use Rattle.iol_params.specs.Storage.{storage_value, state_octet};
ghost use Rattle.iol_params.specs.Image.{with_lasting};
ghost use Rattle.iol_params.specs.Manager.{new_manager, read_answer, IsFitting, parts_view, ArePartsOf};

use crate::error_type::ErrorType;
use crate::parts::ManagerParts;
use crate::state::{Activity, Command, Locks, Restart, Scope, WritesSoFar};
use crate::table::{Table, has_index, has_place, has_read_only, has_stored, most_at};
use crate::{cells, storage};
use iol_isdu::{Answer, Octets, Place, Request};
use std::alloc::{AllocError, Allocator, Global};
use std::marker::Model;

/// The parameters of a device: their values, and what the master does with them.
///
/// Two copies of the values take all the memory, and it is taken at the opening.
#[derive(Drop)]
pub struct Manager<'a, A: Allocator + Copy = Global> {
    table: &'a Table<'a>,
    values: Vec<u8, A>,
    copy: Vec<u8, A>,
    activity: Activity,
    locks: Locks,
    flag: bool,
    event_due: bool,
    restart: Restart,
}

impl<'a, A: Allocator + Copy> Model for Manager<'a, A> {
    ghost use Rattle.iol_params.specs.Manager.{IsSoundManager, manager_view, ManagerValue};

    ghost Value = { ManagerValue };

    ghost view = { λ m. manager_view m };

    ghost invariant = { λ m. IsSoundManager m };
}

impl<'a, A: Allocator + Copy> Manager<'a, A> {
    /// The manager of a table, with the values that it has at first. An AllocError where there is
    /// no memory for them; no other call takes memory.
    pub fn open(alloc: A, table: &'a Table<'a>) -> Result<Manager<'a, A>, AllocError>
        ensures { IfOk result (λ m. m ≡ new_manager table.now) }
    {
        table.is_sound();
        let room = cells::room_for(table.members());
        let mut values = Vec::with_capacity(alloc, room)?;
        values.resize(room, 0)?;
        cells::set_defaults(table.members(), &mut values);
        let mut copy = Vec::with_capacity(alloc, room)?;
        copy.resize(room, 0)?;
        Ok(Manager {
            table,
            values,
            copy,
            activity: Activity::Idle,
            locks: Locks::none(),
            flag: false,
            event_due: false,
            restart: Restart::NotDue,
        })
    }

    /// A manager of these parts beside the table that they are of. It takes no memory.
    pub(crate) fn of_parts(table: &'a Table<'a>, parts: ManagerParts<A>) -> Manager<'a, A>
        requires { ArePartsOf table.now parts }
        ensures { result ≡ parts_view table.now parts }
    {
        let ManagerParts {
            values,
            copy,
            activity,
            locks,
            flag,
            event_due,
            restart,
        } = parts;
        Manager {
            table,
            values,
            copy,
            activity,
            locks,
            flag,
            event_due,
            restart,
        }
    }

    /// Its parts, without its table.
    pub(crate) fn into_parts(self) -> ManagerParts<A>
        ensures sound { ArePartsOf self.entry.table result }
        ensures value { parts_view self.entry.table result ≡ self.entry }
    {
        let Manager {
            table: _,
            values,
            copy,
            activity,
            locks,
            flag,
            event_due,
            restart,
        } = self;
        ManagerParts {
            values,
            copy,
            activity,
            locks,
            flag,
            event_due,
            restart,
        }
    }

    /// Answers a read of a parameter of the table: its value in force, in a download too.
    ///
    /// Rule PAR-5.
    pub fn read(&self, place: Place) -> Answer
        ensures { result ≡ read_answer self.now.table self.now.state place }
    {
        if let Some(why) = self.place_refusal(place) {
            return why.answer();
        }
        self.table.is_sound();
        let mut value = Octets::new();
        cells::read_into(self.table.members(), &self.values, place, &mut value);
        Answer::Read(value)
    }

    /// Writes a parameter of the table: at once, or in a download to its copy.
    ///
    /// Refused with the first of these: 0x8011, 0x8012, there is no such place; 0x8023, it can't
    /// be written, or is locked; 0x8036, an upload is under way, or a download was cut off by
    /// silence; 0x8033, 0x8034, too many octets, or too few; 0x8030, a number out of its range;
    /// 0x8040, alone it would break an order rule. Then no value changes, and a download can't be
    /// applied any more.
    ///
    /// Rules PAR-4, ACT-2, ACT-3.
    #[tactic(auto, using(crate::proofs::ManagerLemmas::write_taken))]
    pub fn write(&mut self, place: Place, octets: &[u8]) -> Result<(), ErrorType>
        ensures state { let after = write self.old.table self.old.state place octets.now in
            self.new ≡ record self.old { state = after.1 } }
        ensures refusal { result_err result
            ≡ (write self.old.table self.old.state place octets.now).0 }
    {
        if let Some(why) = self.write_refusal(place, octets) {
            self.activity = self.activity.spoiled();
            return Err(why);
        }
        match self.activity {
            Activity::Idle => self.put(place, octets),
            Activity::Upload(_) | Activity::CutOff => {}
            Activity::Download(..) => {
                cells::write(self.table.members(), &mut self.copy, place, octets);
            }
        }
        Ok(())
    }

    /// A change at the device itself, as by its buttons; Data Storage is asked to keep it.
    ///
    /// Refused with the first of these, and nothing changed: 0x8011, 0x8012, there is no such
    /// place; 0x8023, it is locked; 0x8036, an activity is under way, so try again; 0x8033,
    /// 0x8034, too many octets, or too few; 0x8030, a number out of its range; 0x8040, it would
    /// break an order rule.
    ///
    /// Rules ACT-4, DSD-5.
    #[tactic(auto, using(crate::proofs::ManagerLemmas::local_taken))]
    pub fn set(&mut self, place: Place, octets: &[u8]) -> Result<(), ErrorType>
        ensures state { let after = local_change self.old.table self.old.state place octets.now in
            self.new ≡ record self.old { state = after.1 } }
        ensures refusal { result_err result
            ≡ (local_change self.old.table self.old.state place octets.now).0 }
    {
        if let Some(why) = self.local_refusal(place, octets) {
            return Err(why);
        }
        self.put(place, octets);
        if has_stored(self.table.members(), place) {
            self.set_flag();
        }
        Ok(())
    }

    /// DS_UPLOAD_FLAG: whether there is something new for Data Storage to keep.
    pub fn flag(&self) -> bool
        ensures { result ≡ self.now.state.flag }
    {
        self.flag
    }

    /// Whether the event FF91 is to be raised.
    pub fn is_event_due(&self) -> bool
        ensures { result ≡ self.now.state.event_due }
    {
        self.event_due
    }

    /// The event FF91 was raised.
    pub fn event_raised(&mut self)
        ensures { self.new ≡ record self.old {
          state = record self.old.state {
            event_due = false;
          };
        } }
    {
        self.event_due = false;
    }

    /// What the program itself has to do since a reset that the master asked for. No call but
    /// [`restore`](Manager::restore) ends it.
    ///
    /// Rule PAR-9.
    pub fn restart(&self) -> Restart
        ensures { result ≡ self.now.state.restart }
    {
        self.restart
    }

    /// What is under way.
    pub fn activity(&self) -> Activity
        ensures { result ≡ self.now.state.activity }
    {
        self.activity
    }

    /// What Data Storage reads at Subindex 2 to 5 of Index 3.
    ///
    /// Rules DSD-1, DSD-2, DSD-3.
    pub(crate) fn storage_value(&self, sub: u8) -> Octets
        ensures { result.items ≡ storage_value self.now.table self.now.state sub }
    {
        self.table.is_sound();
        match sub {
            2 => cells::octets_of(&[self.state_octet()]),
            3 => cells::octets_of(&(storage::size(self.table.members()) as u32).to_be_bytes()),
            4 => cells::octets_of(&storage::checksum(self.table, &self.values).to_be_bytes()),
            _ => storage::list(self.table),
        }
    }

    fn state_octet(&self) -> u8
        ensures { result ≡ state_octet self.now.state }
    {
        let doing = if self.locks.storage {
            3
        } else {
            self.activity.storage_activity()
        };
        128 * u8::from(self.flag) + 2 * doing
    }

    /// From now on these locks hold.
    pub(crate) fn set_locks(&mut self, locks: Locks)
        ensures { self.new ≡ record self.old { state = record self.old.state { locks = locks } } }
    {
        self.locks = locks;
    }

    /// Its table.
    pub fn table(&self) -> &'a Table<'a>
        ensures { result.now ≡ self.now.table }
    {
        self.table
    }

    /// The cells of the values in force.
    pub(crate) fn cells(&self) -> &[u8]
        ensures values { values_in self.now.table.members result.now ≡ self.now.state.values }
        ensures room { length result.now ≡ room_for self.now.table.members }
        ensures fit { all_fit self.now.table.members self.now.state.values ≡ true }
        ensures rules { is_consistent self.now.table self.now.state.values ≡ true }
    {
        &self.values
    }

    /// The values in these cells are in force, with these locks and this flag; nothing is under
    /// way, and a flag that is set asks for its event again.
    pub(crate) fn set_lasting(&mut self, cells: &[u8], locks: Locks, flag: bool)
        requires room { length cells.now ≡ room_for self.old.table.members }
        requires fit { all_fit self.old.table.members
            (values_in self.old.table.members cells.now) ≡ true }
        requires rules { is_consistent self.old.table
            (values_in self.old.table.members cells.now) ≡ true }
        ensures { self.new ≡ record self.old {
          state = with_lasting self.old.state (Some (record {
            values = values_in self.old.table.members cells.now;
            locks = locks;
            flag = flag;
          }));
        } }
    {
        self.values.copy_from_slice(cells);
        self.activity = Activity::Idle;
        self.locks = locks;
        self.flag = flag;
        self.event_due = flag;
        self.restart = Restart::NotDue;
    }

    /// The locks.
    pub fn locks(&self) -> Locks
        ensures { result ≡ self.now.state.locks }
    {
        self.locks
    }

    /// Carries out a command.
    ///
    /// Refused with 0x8036, where an activity of the other scope is under way, or none is for its
    /// end; the end of a download with 0x8041, where a write of it was refused, or an order rule
    /// would be broken. Then no value changes.
    ///
    /// Rules ACT-3, ACT-6.
    pub fn command(&mut self, scope: Scope, asked: Command) -> Result<(), ErrorType>
        ensures state { let after = command self.old.table self.old.state scope asked in
            self.new ≡ record self.old { state = after.1 } }
        ensures refusal { result_err result
            ≡ (command self.old.table self.old.state scope asked).0 }
    {
        if self.activity.is_foreign(scope) {
            return Err(ErrorType::FunctionUnavailable);
        }
        match asked {
            Command::UploadStart => self.activity = Activity::Upload(scope),
            Command::UploadEnd => return self.end_upload(scope),
            Command::DownloadStart => self.begin_download(scope),
            Command::DownloadEnd => {
                self.end_download()?;
                self.clear_flag(scope);
            }
            Command::DownloadStore => {
                self.end_download()?;
                self.set_flag();
            }
            Command::Break => self.end(),
            Command::ApplicationReset => {
                self.reset();
                self.set_flag();
            }
            Command::FactoryReset => {
                self.reset();
                self.clear_flag(Scope::Storage);
            }
            Command::DeviceReset => {
                self.end();
                self.restart = Restart::Warm;
            }
            Command::BackToBox => {
                self.reset();
                self.clear_flag(Scope::Storage);
                self.restart = Restart::Silent;
            }
        }
        Ok(())
    }

    /// A factory reset at the device itself, as SystemCommand `82` makes it; but what silence cut
    /// off stays cut off.
    ///
    /// Refused with 0x8036, and nothing changed, while an activity is under way: try again.
    #[tactic(auto, using(crate::proofs::Consistency::rest_downloads_nothing))]
    pub fn local_reset(&mut self) -> Result<(), ErrorType>
        ensures state { let after = local_reset self.old.table self.old.state in
            self.new ≡ record self.old { state = after.1 } }
        ensures refusal { result_err result ≡ (local_reset self.old.table self.old.state).0 }
    {
        let before = self.activity;
        if !before.is_at_rest() {
            return Err(ErrorType::FunctionUnavailable);
        }
        self.reset();
        self.clear_flag(Scope::Storage);
        self.activity = before;
        Ok(())
    }

    /// The link was lost or began anew, or the master went back from OPERATE or to STARTUP: an
    /// activity ends, without effect.
    ///
    /// Rule ACT-5.
    pub fn over(&mut self)
        ensures { self.new ≡ record self.old { state = after_end self.old.state } }
    {
        self.end();
    }

    /// The master was silent, and may go on as if it hadn't been: an activity ends, without effect.
    /// Behind a download the master's writes are refused with 0x8036, up to its next start, break
    /// or reset, or to [`over`](Manager::over). A reset at the device lets none of them in.
    ///
    /// Rule ACT-7.
    pub fn silence(&mut self)
        ensures { self.new ≡ record self.old { state = after_quiet self.old.state } }
    {
        let left = self.activity.left_in_silence();
        self.end();
        self.activity = left;
    }

    // A value that fits there, and breaks no order rule, is in force.
    fn put(&mut self, place: Place, octets: &[u8])
        requires fits { fits_place self.old.table.members place octets.now ≡ true }
        requires rules { is_consistent self.old.table
            (overlay self.old.table.members self.old.state.values place octets.now) ≡ true }
        ensures { self.new ≡ record self.old {
          state = record self.old.state {
            values = overlay self.old.table.members self.old.state.values place octets.now;
          };
        } }
    {
        cells::write(self.table.members(), &mut self.values, place, octets);
    }

    // Why there is nothing at a place.
    fn place_refusal(&self, place: Place) -> Option<ErrorType>
        ensures { result ≡ place_refusal self.now.table.members place }
    {
        let members = self.table.members();
        if !has_index(members, place.index) {
            Some(ErrorType::IndexNotAvailable)
        } else if !has_place(members, place) {
            Some(ErrorType::SubindexNotAvailable)
        } else {
            None
        }
    }

    // Why the master may not write there now.
    fn access_refusal(&self, place: Place) -> Option<ErrorType>
        ensures { result ≡ access_refusal self.now.table self.now.state place }
    {
        let members = self.table.members();
        if self.locks.parameters || has_read_only(members, place) {
            Some(ErrorType::AccessDenied)
        } else if !self.activity.takes_writes() {
            Some(ErrorType::FunctionUnavailable)
        } else {
            None
        }
    }

    // Why octets are no value of a place.
    fn content_refusal(&self, place: Place, octets: &[u8]) -> Option<ErrorType>
        ensures { result ≡ content_refusal self.now.table.members place octets.now }
    {
        self.table.is_sound();
        let members = self.table.members();
        if octets.len() > most_at(members, place) {
            Some(ErrorType::TooLong)
        } else if octets.len() < cells::least_at(members, place) {
            Some(ErrorType::TooShort)
        } else if !cells::fit(members, place, octets) {
            Some(ErrorType::ValueOutOfRange)
        } else {
            None
        }
    }

    // Why a write alone can't stand. The copy, which nothing needs then, has its outcome.
    fn alone_refusal(&mut self, place: Place, octets: &[u8]) -> Option<ErrorType>
        requires { IsFitting self.old place octets.now }
        ensures state { self.new ≡ self.old }
        ensures value { result ≡ alone_refusal self.old.table self.old.state place octets.now }
    {
        if !self.activity.is_at_rest() {
            return None;
        }
        self.copy.copy_from_slice(&self.values);
        cells::write(self.table.members(), &mut self.copy, place, octets);
        if cells::are_consistent(self.table, &self.copy) {
            None
        } else {
            Some(ErrorType::InvalidSet)
        }
    }

    // Why a write is refused.
    fn write_refusal(&mut self, place: Place, octets: &[u8]) -> Option<ErrorType>
        ensures state { self.new ≡ self.old }
        ensures value { result ≡ write_refusal self.old.table self.old.state place octets.now }
    {
        if let Some(why) = self.place_refusal(place) {
            return Some(why);
        }
        if let Some(why) = self.access_refusal(place) {
            return Some(why);
        }
        if let Some(why) = self.content_refusal(place, octets) {
            return Some(why);
        }
        self.alone_refusal(place, octets)
    }

    // Why the device itself may not change a value.
    fn local_refusal(&mut self, place: Place, octets: &[u8]) -> Option<ErrorType>
        ensures state { self.new ≡ self.old }
        ensures value { result ≡ local_refusal self.old.table self.old.state place octets.now }
    {
        if let Some(why) = self.place_refusal(place) {
            return Some(why);
        }
        if self.locks.local {
            return Some(ErrorType::AccessDenied);
        }
        if !self.activity.is_at_rest() {
            return Some(ErrorType::FunctionUnavailable);
        }
        if let Some(why) = self.content_refusal(place, octets) {
            return Some(why);
        }
        self.alone_refusal(place, octets)
    }

    // An activity ends, without effect.
    fn end(&mut self)
        ensures { self.new ≡ record self.old { state = after_end self.old.state } }
    {
        self.event_due = self.event_due || (self.activity.is_in(Scope::Block) && self.flag);
        self.activity = Activity::Idle;
    }

    fn clear_flag(&mut self, scope: Scope)
        ensures { self.new ≡ record self.old { state = with_flag_cleared scope self.old.state } }
    {
        if scope == Scope::Storage {
            self.flag = false;
            self.event_due = false;
        }
    }

    fn set_flag(&mut self)
        ensures { self.new ≡ record self.old { state = with_flag_set self.old.state } }
    {
        self.flag = true;
        self.event_due = true;
    }

    fn begin_download(&mut self, scope: Scope)
        ensures { self.new ≡ record self.old {
          state = record self.old.state {
            activity = Activity.Download scope WritesSoFar.AllTaken;
            copy = self.old.state.values;
          };
        } }
    {
        self.copy.copy_from_slice(&self.values);
        self.activity = Activity::Download(scope, WritesSoFar::AllTaken);
    }
}

impl<'a, A: Allocator + Copy> Manager<'a, A> {
    // The end of an upload.
    fn end_upload(&mut self, scope: Scope) -> Result<(), ErrorType>
        ensures state { let state = self.old.state in
            let after = upload_settled (is_uploading state.activity) scope state in
            self.new ≡ record self.old { state = after.1 } }
        ensures refusal { let state = self.old.state in result_err result
            ≡ (upload_settled (is_uploading state.activity) scope state).0 }
    {
        if !self.activity.is_upload() {
            return Err(ErrorType::FunctionUnavailable);
        }
        self.end();
        self.clear_flag(scope);
        Ok(())
    }

    // The end of a download: its copy is in force, if it is whole and no order rule is broken.
    #[tactic(auto, using(crate::proofs::ManagerLemmas::download_ways))]
    fn end_download(&mut self) -> Result<(), ErrorType>
        ensures state { let after = download_end self.old.table self.old.state (λ s. s) in
            self.new ≡ record self.old { state = after.1 } }
        ensures refusal { result_err result
            ≡ (download_end self.old.table self.old.state (λ s. s)).0 }
    {
        if !self.activity.is_download() {
            return Err(ErrorType::FunctionUnavailable);
        }
        if !self.activity.took_each_write() || !cells::are_consistent(self.table, &self.copy) {
            self.end();
            return Err(ErrorType::InconsistentSet);
        }
        self.values.copy_from_slice(&self.copy);
        self.end();
        Ok(())
    }

    /// Defaults where the master may write, and no locks; an activity ends.
    ///
    /// Rule PAR-8.
    fn reset(&mut self)
        ensures { self.new ≡ record self.old {
          state = with_reset self.old.table (after_end self.old.state);
        } }
    {
        self.end();
        self.table.is_sound();
        cells::reset(self.table.members(), &mut self.values);
        self.locks = Locks::none();
    }
}
