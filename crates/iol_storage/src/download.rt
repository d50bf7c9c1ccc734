//! A download: a block of a client, or the set that Data Storage restores (IEC 61131-9, 10.3.5 and
//! 11.4).
ghost use Rattle.std.specs.Prelude.{◌≡◌, ◌<◌, length, slice_get, Some};
ghost use Rattle.iol_storage.specs.Downloads.{command_place, download_command, end_command, break_command, start_requests, is_look, purpose_flag, lets_go_on, flag_allows, download_requests, download_asks, download_after, stage_behind, place_asked, behind_taken, behind_refusal, behind_cut, session_lasts};

use crate::objects::Objects;
use iol_book::Outcome;
use iol_isdu::{Answer, Cause, Octets, Place, Request};

/// SystemCommand, by which a block begins and ends (B.2.2).
pub(crate) const SYSTEM_COMMAND: Place = Place { index: 2, sub: 0 };
/// DS_Command, by which Data Storage does (B.2.3).
pub(crate) const STORAGE_COMMAND: Place = Place { index: 3, sub: 1 };
/// The state of Data Storage at the device (B.2.3).
pub(crate) const STORAGE_STATE: Place = Place { index: 3, sub: 2 };

/// The commands of both.
const DOWNLOAD_START: u8 = 3;

const DOWNLOAD_END: u8 = 4;

const DOWNLOAD_STORE: u8 = 5;

const BLOCK_BREAK: u8 = 6;

const STORAGE_BREAK: u8 = 5;

/// The bit of the state that says that parameters were changed which Data Storage doesn't have.
const FLAG: u8 = 128;

/// Whether Data Storage is to keep what a block wrote.
#[derive(Clone, Copy, Debug, PartialEq, Eq)]
pub enum Keep {
    No,
    Yes,
}

/// Whether a flag that is set at the device ends a restore.
#[derive(Clone, Copy, Debug, PartialEq, Eq)]
pub enum Flag {
    Ignored,
    Counts,
}

/// What a download is for.
#[derive(Clone, Copy, Debug, PartialEq, Eq)]
pub enum DownloadPurpose {
    /// A block of a client.
    Block(Keep),
    /// A set of Data Storage. The state is read behind the start, and a flag that counts ends it.
    Restore(Flag),
}

/// What the device refused, and how.
#[derive(Clone, Copy, Debug, PartialEq, Eq)]
pub struct Refusal {
    /// The place of the request.
    pub place: Place,
    /// The ErrorType: ErrorCode and AdditionalCode (C.2).
    pub error: u8,
    pub additional: u8,
}

/// How a download ended.
#[derive(Clone, Copy, Debug, PartialEq, Eq)]
pub enum DownloadResult {
    /// Each request was answered by Written, in order: the device has applied all of them.
    Applied,
    /// The device refused one, and applied none.
    Refused(Refusal),
    /// The device's flag is set, and counts. None was applied.
    FlagSet,
    /// It was cut off before its end went out. None was applied.
    NotApplied,
    /// Its end was cut off: whether the device applied all of them or none is not known.
    Unknown(Cause),
    /// 20: the device has no ISDU, and nothing was sent.
    NoIsdu,
}

/// Where a download is.
#[derive(Clone, Copy, Debug, PartialEq, Eq)]
pub enum DownloadStage {
    /// So many of its requests were taken, and the one behind them is asked.
    Asking(usize),
    /// It has failed, and the device is told to break it off.
    Breaking(DownloadResult),
    /// Nothing more is asked.
    Over(DownloadResult),
}

/// A download under way. Its requests are a start, for a restore a read of the device's state, a
/// write of each object in order, and an end. Each is asked once, if the one before it was taken.
///
/// Rules JOB-3, JOB-4, STO-10.
#[derive(Clone, Copy, Debug, PartialEq, Eq)]
pub struct Download {
    pub purpose: DownloadPurpose,
    pub stage: DownloadStage,
}

impl DownloadPurpose {
    /// Where the commands are written.
    fn command_place(self) -> Place
        ensures { result ≡ command_place self }
    {
        match self {
            DownloadPurpose::Block(_) => SYSTEM_COMMAND,
            DownloadPurpose::Restore(_) => STORAGE_COMMAND,
        }
    }

    /// A command.
    fn command(self, octet: u8) -> Request
        ensures { result ≡ download_command self octet }
    {
        let mut octets = Octets::new();
        octets.push(octet);
        Request::Write(self.command_place(), octets)
    }

    /// The command behind the last write.
    fn end(self) -> u8
        ensures { result ≡ end_command self }
    {
        match self {
            DownloadPurpose::Block(Keep::Yes) => DOWNLOAD_STORE,
            DownloadPurpose::Block(Keep::No) | DownloadPurpose::Restore(_) => DOWNLOAD_END,
        }
    }

    /// The command that breaks a download off.
    fn break_off(self) -> u8
        ensures { result ≡ break_command self }
    {
        match self {
            DownloadPurpose::Block(_) => BLOCK_BREAK,
            DownloadPurpose::Restore(_) => STORAGE_BREAK,
        }
    }

    /// How many requests come before the writes.
    fn starts(self) -> usize
        ensures { result ≡ length (start_requests self) }
    {
        match self {
            DownloadPurpose::Block(_) => 1,
            DownloadPurpose::Restore(_) => 2,
        }
    }

    /// One of the requests before the writes.
    fn start(self, index: usize) -> Request
        requires { index < length (start_requests self) }
        ensures { Some result ≡ slice_get (start_requests self) index }
    {
        if index == 0 {
            self.command(DOWNLOAD_START)
        } else {
            Request::Read(STORAGE_STATE)
        }
    }

    /// Whether the request of this index reads the device's state.
    fn is_look(self, index: usize) -> bool
        ensures { result ≡ is_look self index }
    {
        matches!(self, DownloadPurpose::Restore(_)) && index == 1
    }

    /// Whether an answer to one of its requests lets the download go on.
    fn takes(self, index: usize, answer: &Answer) -> bool
        ensures { result ≡ lets_go_on self index answer.now }
    {
        match answer {
            Answer::Written => !self.is_look(index),
            Answer::Read(octets) => self.is_look(index) && self.flag().allows(octets),
            Answer::Refused(_, _) => false,
        }
    }

    /// Whether a flag counts. A block reads none.
    fn flag(self) -> Flag
        ensures { result ≡ purpose_flag self }
    {
        match self {
            DownloadPurpose::Block(_) => Flag::Ignored,
            DownloadPurpose::Restore(flag) => flag,
        }
    }
}

impl Flag {
    /// Whether a state of Data Storage lets a restore go on.
    fn allows(self, state: &[u8]) -> bool
        ensures { result ≡ flag_allows self state.now }
    {
        match (self, state) {
            (Flag::Ignored, _) => true,
            (Flag::Counts, [octet]) => *octet < FLAG,
            (Flag::Counts, _) => false,
        }
    }
}

impl Download {
    /// A download of which nothing was asked yet.
    pub fn new(purpose: DownloadPurpose) -> Download
        ensures { result ≡ record { purpose = purpose; stage = DownloadStage.Asking 0 } }
    {
        Download {
            purpose,
            stage: DownloadStage::Asking(0),
        }
    }

    /// What is to be asked next, of these objects; none behind its end.
    pub fn asks(&self, objects: &Objects) -> Option<Request>
        ensures { result ≡ download_asks self.now objects.now }
    {
        match self.stage {
            DownloadStage::Asking(taken) => self.request(objects, taken),
            DownloadStage::Breaking(_) => Some(self.purpose.command(self.purpose.break_off())),
            DownloadStage::Over(_) => None,
        }
    }

    /// One of its requests.
    fn request(&self, objects: &Objects, index: usize) -> Option<Request>
        ensures { result ≡ slice_get (download_requests self.now.purpose objects.now) index }
    {
        let starts = self.purpose.starts();
        if index < starts {
            return Some(self.purpose.start(index));
        }
        match objects.get(index - starts) {
            Some(object) => Some(object.write()),
            None if index - starts == objects.len() => {
                Some(self.purpose.command(self.purpose.end()))
            }
            None => None,
        }
    }

    /// What came of the request that was asked last, of these objects.
    pub fn hear(&mut self, objects: &Objects, outcome: &Outcome)
        ensures { self.new ≡ download_after self.old objects.now outcome.now }
    {
        self.stage = match self.stage {
            DownloadStage::Asking(index) => self.behind(objects, index, outcome),
            DownloadStage::Breaking(result) | DownloadStage::Over(result) => DownloadStage::Over(
                result,
            ),
        };
    }

    /// Where the download is behind an outcome of one of its requests.
    fn behind(&self, objects: &Objects, index: usize, outcome: &Outcome) -> DownloadStage
        ensures { result ≡ stage_behind self.now.purpose objects.now index outcome.now }
    {
        let last = self.purpose.starts() + objects.len();
        match outcome {
            Outcome::Done(answer) if self.purpose.takes(index, answer) => behind_taken(index, last),
            Outcome::Done(Answer::Refused(error, additional)) => {
                let refusal = Refusal {
                    place: self.place(objects, index),
                    error: *error,
                    additional: *additional,
                };
                behind_refusal(index, last, refusal)
            }
            Outcome::Done(_) if self.purpose.is_look(index) => {
                DownloadStage::Breaking(DownloadResult::FlagSet)
            }
            Outcome::Done(_) => behind_cut(index, last, Cause::Protocol),
            Outcome::Unknown(cause) => behind_cut(index, last, *cause),
            Outcome::NoIsdu if index == 0 => DownloadStage::Over(DownloadResult::NoIsdu),
            Outcome::Withdrawn | Outcome::NoIsdu => DownloadStage::Over(DownloadResult::NotApplied),
        }
    }

    /// The place of one of its requests.
    fn place(&self, objects: &Objects, index: usize) -> Place
        ensures { result ≡ place_asked self.now.purpose objects.now index }
    {
        match self.request(objects, index) {
            Some(Request::Read(place) | Request::Write(place, _)) => place,
            None => self.purpose.command_place(),
        }
    }
}

/// Behind a request that was taken.
fn behind_taken(index: usize, last: usize) -> DownloadStage
    ensures { result ≡ behind_taken index last }
{
    if index < last {
        DownloadStage::Asking(index + 1)
    } else {
        DownloadStage::Over(DownloadResult::Applied)
    }
}

/// Behind one that was refused. A start that is refused begins nothing, and an end ends all.
fn behind_refusal(index: usize, last: usize, refusal: Refusal) -> DownloadStage
    ensures { result ≡ behind_refusal index last refusal }
{
    let result = DownloadResult::Refused(refusal);
    if index == 0 || index == last {
        DownloadStage::Over(result)
    } else {
        DownloadStage::Breaking(result)
    }
}

/// Behind one that was cut off.
fn behind_cut(index: usize, last: usize, cause: Cause) -> DownloadStage
    ensures { result ≡ behind_cut index last cause }
{
    let result = if index == last {
        DownloadResult::Unknown(cause)
    } else {
        DownloadResult::NotApplied
    };
    if session_lasts(cause) {
        DownloadStage::Breaking(result)
    } else {
        DownloadStage::Over(result)
    }
}

/// Whether the session goes on behind this. If not, the device has ended what it began.
pub(crate) fn session_lasts(cause: Cause) -> bool
    ensures { result ≡ session_lasts cause }
{
    match cause {
        Cause::LinkLost | Cause::Restarted => false,
        Cause::BusyTooLong | Cause::Protocol | Cause::Cancelled => true,
    }
}
