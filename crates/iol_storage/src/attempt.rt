//! One attempt of a check of Data Storage: it looks at the device, and then fetches the device's
//! set, or restores the kept one, or finds that nothing is to be done (IEC 61131-9, 11.4).
ghost use Rattle.std.specs.Prelude.{◌≡◌};
ghost use Rattle.std.specs.Option.{option_copied};
ghost use Rattle.iol_storage.specs.Attempts.{attempt_begun, attempt_asks, attempt_after, attempt_saved, result_of_attempt, is_unsaved, restore_asks, restore_purpose, counts_flag, decision, decision_beside, after_state, behind_size, size_read, after_checksum, after_serial_number, serial_number_read, after_fetch, behind_fetch, behind_end, after_confirmed, behind_restore, restore_result, look_result, refusal_result, passes, is_unsupported, checksum_octets};

use crate::download::{
    Download, DownloadPurpose, DownloadResult, DownloadStage, Flag, Refusal, STORAGE_COMMAND,
    STORAGE_STATE, session_lasts,
};
use crate::objects::Objects;
use crate::set::{MOST_SERIAL, SERIAL_NUMBER, SerialNumber, Set};
use crate::upload::{BREAK, STORAGE_CHECKSUM, Upload, UploadResult, UploadStage, command};
use iol_book::Outcome;
use iol_isdu::{Answer, Place, Request};

/// How long the stored parameters of the device are (B.2.3).
const STORAGE_SIZE: Place = Place { index: 3, sub: 3 };
/// The DS_Command behind an upload.
const UPLOAD_END: u8 = 2;
/// The bit of the state by which a user's change waits to be fetched.
const FLAG: u8 = 128;
/// What bits 2 and 1 of the state are where it is locked.
const LOCKED: u8 = 3;
/// The most octets that a device may need for its set.
const MOST_SIZE: u32 = 2048;
/// The ErrorCode of what a device's application refuses (C.2).
const APPLICATION: u8 = 0x80;
/// The most fetches of one attempt.
const MOST_FETCHES: u8 = 3;

/// How Data Storage is used at a port (11.4).
///
/// Rule STO-1.
#[derive(Clone, Copy, Debug, PartialEq, Eq)]
pub enum StorageMode {
    /// Not at all: an attempt asks nothing.
    Off,
    /// The kept set is restored, and none is fetched.
    Restore,
    /// Both: what was changed at the device replaces the kept set.
    Both,
    /// Both, but only a change at the unit of the kept set replaces it.
    Own,
}

/// Why an attempt is made.
#[derive(Clone, Copy, Debug, PartialEq, Eq)]
pub enum AttemptPurpose {
    /// A session begins.
    StartUp,
    /// The device was served already: nothing is restored.
    InService,
}

/// How an attempt ended.
#[derive(Clone, Copy, Debug, PartialEq, Eq)]
pub enum AttemptResult {
    /// The device has no Data Storage, or no ISDU.
    Unsupported,
    /// The device's Data Storage is locked.
    Locked,
    /// The device's values are more than a set may have.
    TooLarge,
    /// The octets of the Index_List are none.
    BadList,
    /// Nothing is kept, and nothing may be fetched.
    Empty,
    /// The device has the checksum of the kept set.
    Same,
    /// The device was served already, and has no change to be fetched.
    Unchanged,
    /// The device has applied the kept set.
    Restored,
    /// The device's set was saved, the device was told, and has its checksum still.
    Fetched,
    /// The device refused a request.
    Refused(Refusal),
    /// It was cut off, or the device was changed meanwhile or could not serve it now: another
    /// attempt may do better.
    Transient,
}

/// Where an attempt is.
#[derive(Clone, Copy, Debug, PartialEq, Eq)]
pub enum AttemptStage {
    /// The state of the device's Data Storage is read.
    State,
    /// The size of its values is read.
    Size,
    /// Their checksum is read.
    Checksum,
    /// The SerialNumber of the unit is read.
    SerialNumber,
    /// The device's set is fetched.
    Fetching,
    /// The set is whole, and waits to be saved. Nothing is asked.
    Unsaved,
    /// It was saved, and the device is told that the upload ends.
    Ending,
    /// The checksum is read once more.
    Confirming,
    /// The kept set is restored.
    Restoring(DownloadStage),
    /// The end of the upload was cut off, and the device is told to break it off.
    Breaking(AttemptResult),
    /// Nothing more is asked.
    Over(AttemptResult),
}

/// One attempt under way. It asks one request, hears what came of it, and so on to its end. The
/// kept set that it is told has to be the same each time, until a fetched one is saved.
#[derive(Drop)]
pub struct StorageAttempt {
    pub mode: StorageMode,
    pub purpose: AttemptPurpose,
    pub stage: AttemptStage,
    /// Whether the device's flag was set: a change waits to be fetched.
    pub flag: bool,
    /// The SerialNumber of the unit, in mode Own; empty where it is not known.
    pub unit: SerialNumber,
    /// The fetch, with the checksum that was read last.
    pub upload: Upload,
    /// Which fetch of the attempt it is, 1 the first.
    pub fetches: u8,
}

impl StorageAttempt {
    /// An attempt of which nothing was asked yet. With Data Storage off it is over: `Unchanged`.
    pub fn new(mode: StorageMode, purpose: AttemptPurpose) -> StorageAttempt
        ensures { result ≡ attempt_begun mode purpose }
    {
        let stage = match mode {
            StorageMode::Off => AttemptStage::Over(AttemptResult::Unchanged),
            StorageMode::Restore | StorageMode::Both | StorageMode::Own => AttemptStage::State,
        };
        StorageAttempt {
            mode,
            purpose,
            stage,
            flag: false,
            unit: SerialNumber::new(),
            upload: Upload::new([0; 4]),
            fetches: 1,
        }
    }

    /// How it ended, if it is over.
    pub fn result(&self) -> Option<AttemptResult>
        ensures { result ≡ result_of_attempt self.now }
    {
        match self.stage {
            AttemptStage::Over(result) => Some(result),
            _ => None,
        }
    }

    /// Whether a set was fetched, whole, and waits to be saved.
    pub fn wants_saved(&self) -> bool
        ensures { result ≡ is_unsaved self.now.stage }
    {
        matches!(self.stage, AttemptStage::Unsaved)
    }

    /// The set that was fetched is saved, so that the device may be told. Without one, nothing.
    ///
    /// Rule STO-8.
    pub fn saved(&mut self)
        ensures { self.new ≡ attempt_saved self.old }
    {
        if self.wants_saved() {
            self.stage = AttemptStage::Ending;
        }
    }

    /// What is to be asked next, with this kept set and what was fetched so far; none while a set
    /// waits to be saved, and behind the end.
    pub fn asks(&self, backup: Option<&Set>, draft: &Objects) -> Option<Request>
        ensures { result ≡ attempt_asks self.now (option_copied backup.entry) draft.now }
    {
        match self.stage {
            AttemptStage::State => Some(Request::Read(STORAGE_STATE)),
            AttemptStage::Size => Some(Request::Read(STORAGE_SIZE)),
            AttemptStage::Checksum | AttemptStage::Confirming => {
                Some(Request::Read(STORAGE_CHECKSUM))
            }
            AttemptStage::SerialNumber => Some(Request::Read(SERIAL_NUMBER)),
            AttemptStage::Fetching => self.upload.asks(draft),
            AttemptStage::Restoring(stage) => self.restore_asks(stage, backup),
            AttemptStage::Ending => Some(command(UPLOAD_END)),
            AttemptStage::Breaking(_) => Some(command(BREAK)),
            AttemptStage::Unsaved | AttemptStage::Over(_) => None,
        }
    }

    /// What came of the request that was asked last, with this kept set and what was fetched so
    /// far.
    pub fn hear(&mut self, backup: Option<&Set>, draft: &mut Objects, outcome: &Outcome)
        ensures attempt { self.new
            ≡ (attempt_after self.old (option_copied backup.entry) draft.old outcome.now).0 }
        ensures draft { draft.new
            ≡ (attempt_after self.old (option_copied backup.entry) draft.old outcome.now).1 }
    {
        match self.stage {
            AttemptStage::State => self.hear_state(outcome),
            AttemptStage::Size => self.stage = behind_size(outcome),
            AttemptStage::Checksum => self.hear_checksum(backup, outcome),
            AttemptStage::SerialNumber => self.hear_serial_number(backup, outcome),
            AttemptStage::Fetching => self.hear_fetched(draft, outcome),
            AttemptStage::Unsaved | AttemptStage::Over(_) => {}
            AttemptStage::Ending => self.stage = behind_end(outcome),
            AttemptStage::Confirming => self.hear_confirmed(outcome),
            AttemptStage::Restoring(stage) => {
                self.stage = self.behind_restore(stage, backup, outcome);
            }
            AttemptStage::Breaking(result) => self.stage = AttemptStage::Over(result),
        }
    }

    /// The state of the device's Data Storage, or what came in its place.
    ///
    /// Rule STO-5.
    fn hear_state(&mut self, outcome: &Outcome)
        ensures { self.new ≡ after_state self.old outcome.now }
    {
        self.stage = match outcome {
            Outcome::Done(Answer::Read(octets)) => match octets.as_slice() {
                [state] if *state / 2 % 4 == LOCKED => AttemptStage::Over(AttemptResult::Locked),
                [state] => {
                    self.flag = *state >= FLAG;
                    AttemptStage::Size
                }
                _ => AttemptStage::Over(AttemptResult::Transient),
            },
            Outcome::Done(Answer::Refused(error, additional))
                if is_unsupported(*error, *additional) => {
                AttemptStage::Over(AttemptResult::Unsupported)
            }
            _ => AttemptStage::Over(look_result(STORAGE_STATE, outcome)),
        };
    }

    /// The checksum, or what came in its place.
    fn hear_checksum(&mut self, backup: Option<&Set>, outcome: &Outcome)
        ensures { self.new ≡ after_checksum self.old (option_copied backup.entry) outcome.now }
    {
        let Outcome::Done(Answer::Read(octets)) = outcome else {
            self.stage = AttemptStage::Over(look_result(STORAGE_CHECKSUM, outcome));
            return;
        };
        let Some(checksum) = checksum_octets(octets) else {
            self.stage = AttemptStage::Over(AttemptResult::Transient);
            return;
        };
        self.upload = Upload::new(checksum);
        self.stage = match self.mode {
            StorageMode::Own => AttemptStage::SerialNumber,
            StorageMode::Off | StorageMode::Restore | StorageMode::Both => self.decision(backup),
        };
    }

    /// The SerialNumber of the unit, or what came in its place.
    fn hear_serial_number(&mut self, backup: Option<&Set>, outcome: &Outcome)
        ensures { self.new ≡ after_serial_number self.old (option_copied backup.entry) outcome.now }
    {
        self.unit = match outcome {
            Outcome::Done(Answer::Read(octets)) => serial_number_read(octets),
            Outcome::Done(Answer::Refused(error, additional)) if !passes(*error, *additional) => {
                SerialNumber::new()
            }
            _ => {
                self.stage = AttemptStage::Over(look_result(SERIAL_NUMBER, outcome));
                return;
            }
        };
        self.stage = self.decision(backup);
    }

    /// What is done behind the looks.
    ///
    /// Rule STO-6.
    fn decision(&self, backup: Option<&Set>) -> AttemptStage
        ensures { result ≡ decision self.now (option_copied backup.entry) }
    {
        match (backup, self.mode) {
            (Some(set), _) => self.decision_beside(set),
            (None, StorageMode::Both | StorageMode::Own) => AttemptStage::Fetching,
            (None, StorageMode::Off | StorageMode::Restore) => {
                AttemptStage::Over(AttemptResult::Empty)
            }
        }
    }

    /// What is done beside this kept set.
    fn decision_beside(&self, set: &Set) -> AttemptStage
        ensures { result ≡ decision_beside self.now set.now }
    {
        if self.flag && self.counts_flag(set) {
            AttemptStage::Fetching
        } else if self.purpose == AttemptPurpose::InService {
            AttemptStage::Over(AttemptResult::Unchanged)
        } else if self.upload.checksum.as_slice() == set.checksum.as_slice() {
            AttemptStage::Over(AttemptResult::Same)
        } else {
            AttemptStage::Restoring(DownloadStage::Asking(0))
        }
    }

    /// Whether the device's flag counts beside this kept set.
    fn counts_flag(&self, set: &Set) -> bool
        ensures { result ≡ counts_flag self.now.mode self.now.unit.items set.now }
    {
        match self.mode {
            StorageMode::Off | StorageMode::Restore => false,
            StorageMode::Both => true,
            StorageMode::Own => {
                !self.unit.is_empty() && self.unit.as_slice() == set.unit.as_slice()
            }
        }
    }

    /// What came of a request of the fetch.
    fn hear_fetched(&mut self, draft: &mut Objects, outcome: &Outcome)
        ensures attempt { self.new ≡ (after_fetch self.old draft.old outcome.now).0 }
        ensures draft { draft.new ≡ (after_fetch self.old draft.old outcome.now).1 }
    {
        self.upload.hear(draft, outcome);
        self.stage = behind_fetch(self.upload.stage);
    }

    /// The checksum once more, or what came in its place.
    ///
    /// Rule STO-9.
    fn hear_confirmed(&mut self, outcome: &Outcome)
        ensures { self.new ≡ after_confirmed self.old outcome.now }
    {
        let Outcome::Done(Answer::Read(octets)) = outcome else {
            self.stage = AttemptStage::Over(look_result(STORAGE_CHECKSUM, outcome));
            return;
        };
        self.stage = match checksum_octets(octets) {
            Some(checksum) if checksum.as_slice() == self.upload.checksum.as_slice() => {
                AttemptStage::Over(AttemptResult::Fetched)
            }
            Some(checksum) if self.fetches < MOST_FETCHES => {
                self.fetches += 1;
                self.upload = Upload::new(checksum);
                AttemptStage::Fetching
            }
            _ => AttemptStage::Over(AttemptResult::Transient),
        };
    }

    /// The restore of this set, where it is at a stage.
    fn restore(&self, stage: DownloadStage, set: &Set) -> Download
        ensures { result ≡ record {
          purpose = restore_purpose self.now.mode self.now.unit.items set.now;
          stage = stage;
        } }
    {
        let flag = if self.counts_flag(set) {
            Flag::Counts
        } else {
            Flag::Ignored
        };
        Download {
            purpose: DownloadPurpose::Restore(flag),
            stage,
        }
    }

    /// What the restore asks.
    fn restore_asks(&self, stage: DownloadStage, backup: Option<&Set>) -> Option<Request>
        ensures { result ≡ restore_asks self.now stage (option_copied backup.entry) }
    {
        let set = backup?;
        self.restore(stage, set).asks(&set.objects)
    }

    /// Behind an outcome of a request of the restore.
    fn behind_restore(
        &self,
        stage: DownloadStage,
        backup: Option<&Set>,
        outcome: &Outcome,
    ) -> AttemptStage
        ensures { result
            ≡ behind_restore self.now stage (option_copied backup.entry) outcome.now }
    {
        let Some(set) = backup else {
            return AttemptStage::Over(AttemptResult::Transient);
        };
        let mut download = self.restore(stage, set);
        download.hear(&set.objects, outcome);
        match download.stage {
            DownloadStage::Over(result) => AttemptStage::Over(restore_result(result)),
            stage => AttemptStage::Restoring(stage),
        }
    }
}

/// Behind the size of the device's values, or what came in its place.
fn behind_size(outcome: &Outcome) -> AttemptStage
    ensures { result ≡ behind_size outcome.now }
{
    match outcome {
        Outcome::Done(Answer::Read(octets)) => size_read(octets),
        _ => AttemptStage::Over(look_result(STORAGE_SIZE, outcome)),
    }
}

/// Behind the size, which is a number of four octets.
fn size_read(octets: &[u8]) -> AttemptStage
    ensures { result ≡ size_read octets.now }
{
    match octets {
        [first, second, third, last] => {
            if u32::from_be_bytes([*first, *second, *third, *last]) <= MOST_SIZE {
                AttemptStage::Checksum
            } else {
                AttemptStage::Over(AttemptResult::TooLarge)
            }
        }
        _ => AttemptStage::Over(AttemptResult::Transient),
    }
}

/// The octets, if they are four, as a checksum's are.
fn checksum_octets(octets: &[u8]) -> Option<[u8; 4]>
    ensures { result ≡ checksum_octets octets.now }
{
    match octets {
        [first, second, third, last] => Some([*first, *second, *third, *last]),
        _ => None,
    }
}

/// The SerialNumber that was read; a longer one is none.
fn serial_number_read(octets: &[u8]) -> SerialNumber
    ensures { result.items ≡ serial_number_read octets.now }
{
    let mut unit = SerialNumber::new();
    if octets.len() <= MOST_SERIAL {
        unit.try_extend_from_slice(octets).unwrap();
    }
    unit
}

/// Where an attempt is behind a fetch, which may go on.
fn behind_fetch(stage: UploadStage) -> AttemptStage
    ensures { result ≡ behind_fetch stage }
{
    let UploadStage::Over(result) = stage else {
        return AttemptStage::Fetching;
    };
    AttemptStage::Over(match result {
        UploadResult::Whole => return AttemptStage::Unsaved,
        UploadResult::Refused(refusal) => refusal_result(refusal),
        UploadResult::BadList => AttemptResult::BadList,
        UploadResult::TooLarge => AttemptResult::TooLarge,
        UploadResult::Changed | UploadResult::CutOff => AttemptResult::Transient,
    })
}

/// Behind the end of an upload. Where that is cut off and the session goes on, a break goes out.
fn behind_end(outcome: &Outcome) -> AttemptStage
    ensures { result ≡ behind_end outcome.now }
{
    match outcome {
        Outcome::Done(Answer::Written) => AttemptStage::Confirming,
        Outcome::Done(Answer::Refused(error, additional)) => {
            AttemptStage::Over(refusal_result(Refusal {
                place: STORAGE_COMMAND,
                error: *error,
                additional: *additional,
            }))
        }
        Outcome::Done(Answer::Read(_)) => AttemptStage::Breaking(AttemptResult::Transient),
        Outcome::Unknown(cause) if session_lasts(*cause) => {
            AttemptStage::Breaking(AttemptResult::Transient)
        }
        Outcome::Unknown(_) | Outcome::Withdrawn | Outcome::NoIsdu => {
            AttemptStage::Over(AttemptResult::Transient)
        }
    }
}

/// How an attempt ends by the end of its restore.
fn restore_result(ended: DownloadResult) -> AttemptResult
    ensures { result ≡ restore_result ended }
{
    match ended {
        DownloadResult::Applied => AttemptResult::Restored,
        DownloadResult::Refused(refusal) => refusal_result(refusal),
        DownloadResult::NoIsdu => AttemptResult::Unsupported,
        DownloadResult::FlagSet | DownloadResult::NotApplied | DownloadResult::Unknown(_) => {
            AttemptResult::Transient
        }
    }
}

/// How an attempt ends where a read at this place brings anything else.
fn look_result(place: Place, outcome: &Outcome) -> AttemptResult
    ensures { result ≡ look_result place outcome.now }
{
    match outcome {
        Outcome::Done(Answer::Refused(error, additional)) => refusal_result(Refusal {
            place,
            error: *error,
            additional: *additional,
        }),
        Outcome::NoIsdu => AttemptResult::Unsupported,
        Outcome::Done(_) | Outcome::Unknown(_) | Outcome::Withdrawn => AttemptResult::Transient,
    }
}

/// How an attempt ends by a refusal.
///
/// Rule STO-11.
fn refusal_result(refusal: Refusal) -> AttemptResult
    ensures { result ≡ refusal_result refusal }
{
    if passes(refusal.error, refusal.additional) {
        AttemptResult::Transient
    } else {
        AttemptResult::Refused(refusal)
    }
}

/// Whether a refusal passes by itself: the service is not available now, or the device is in
/// another state (C.2).
fn passes(error: u8, additional: u8) -> bool
    ensures { result ≡ passes error additional }
{
    error == APPLICATION && matches!(additional, 0x20..=0x22 | 0x36)
}

/// Whether a refusal says that the device has no such place (C.2).
fn is_unsupported(error: u8, additional: u8) -> bool
    ensures { result ≡ is_unsupported error additional }
{
    error == APPLICATION && matches!(additional, 0x11 | 0x12)
}
