//! An upload: what Data Storage fetches of a device (IEC 61131-9, 10.4 and 11.4).
ghost use Rattle.std.specs.Prelude.{◌≡◌, ◌≤◌, []};
ghost use Rattle.iol_storage.specs.Uploads.{storage_command, is_list, names_more, place_read, upload_asks, upload_place, upload_after, stage_listed, list_taken, objects_listed, stage_with, objects_with, stage_read, objects_read, behind_checksum, behind_other};

use crate::download::{Refusal, STORAGE_COMMAND, session_lasts};
use crate::objects::{Objects, is_command_place};
use iol_book::Outcome;
use iol_isdu::{Answer, Octets, Place, Request};

/// The checksum of the device's parameters (B.2.3).
pub(crate) const STORAGE_CHECKSUM: Place = Place { index: 3, sub: 4 };
/// The Index_List, which names the parameters of the set (B.2.3).
const STORAGE_LIST: Place = Place { index: 3, sub: 5 };

/// DS_Commands.
const UPLOAD_START: u8 = 1;

/// The DS_Command that breaks an upload off.
pub(crate) const BREAK: u8 = 5;

/// The octets of one place in the list: Index and Subindex.
const PLACE: usize = 3;

/// How an upload ended.
#[derive(Clone, Copy, Debug, PartialEq, Eq)]
pub enum UploadResult {
    /// The list, each value that it names, and the checksum that was expected: a set. The device's
    /// activity goes on until it is ended.
    Whole,
    /// The device refused a request.
    Refused(Refusal),
    /// The octets of the Index_List are none, or it names a place of commands.
    BadList,
    /// The values are more than a set may have.
    TooLarge,
    /// The checksum is another one: the device was changed meanwhile.
    Changed,
    /// It was cut off.
    CutOff,
}

/// Where an upload is.
#[derive(Clone, Copy, Debug, PartialEq, Eq)]
pub enum UploadStage {
    /// The device is told that an upload begins.
    Starting,
    /// The Index_List is read.
    Listing,
    /// The values that it names are read, one behind the other, and the checksum behind the last.
    Reading,
    /// It has failed, and the device is told to break it off.
    Breaking(UploadResult),
    /// Nothing more is asked.
    Over(UploadResult),
}

/// An upload under way. Its values go into objects of the caller, which are the set in the end.
///
/// Rule STO-7.
#[derive(Drop)]
pub struct Upload {
    /// The checksum that the device had before.
    pub checksum: [u8; 4],
    /// The Index_List that was read.
    pub list: Octets,
    pub stage: UploadStage,
}

impl Upload {
    /// An upload of which nothing was asked yet, from a device with this checksum.
    pub fn new(checksum: [u8; 4]) -> Upload
        ensures { result ≡ record {
          checksum = checksum;
          list = record { items = [] };
          stage = UploadStage.Starting;
        } }
    {
        Upload {
            checksum,
            list: Octets::new(),
            stage: UploadStage::Starting,
        }
    }

    /// What is to be asked next; none behind its end.
    pub fn asks(&self, objects: &Objects) -> Option<Request>
        ensures { result ≡ upload_asks self.now objects.now }
    {
        match self.stage {
            UploadStage::Starting => Some(command(UPLOAD_START)),
            UploadStage::Listing => Some(Request::Read(STORAGE_LIST)),
            UploadStage::Reading => Some(Request::Read(self.place(objects.len()))),
            UploadStage::Breaking(_) => Some(command(BREAK)),
            UploadStage::Over(_) => None,
        }
    }

    /// What is read next, once so many values were: a value, or behind the last the checksum.
    fn place(&self, count: usize) -> Place
        requires { count ≤ 76 }
        ensures { result ≡ place_read self.now.list.items count }
    {
        if self.names(count) {
            let at = count * PLACE;
            Place {
                index: u16::from_be_bytes([self.list[at], self.list[at + 1]]),
                sub: self.list[at + 2],
            }
        } else {
            STORAGE_CHECKSUM
        }
    }

    /// Whether the list names a value behind so many.
    fn names(&self, count: usize) -> bool
        requires { count ≤ 76 }
        ensures { result ≡ names_more self.now.list.items count }
    {
        count * PLACE + PLACE <= self.list.len()
    }

    /// What came of the request that was asked last.
    pub fn hear(&mut self, objects: &mut Objects, outcome: &Outcome)
        ensures upload { self.new ≡ (upload_after self.old objects.old outcome.now).0 }
        ensures objects { objects.new ≡ (upload_after self.old objects.old outcome.now).1 }
    {
        self.stage = match (self.stage, outcome) {
            (UploadStage::Starting, Outcome::Done(Answer::Written)) => UploadStage::Listing,
            (UploadStage::Listing, Outcome::Done(Answer::Read(octets))) => {
                self.hear_list(objects, octets)
            }
            (UploadStage::Reading, Outcome::Done(Answer::Read(octets))) => {
                self.hear_octets(objects, octets)
            }
            (UploadStage::Breaking(result) | UploadStage::Over(result), _) => {
                UploadStage::Over(result)
            }
            (_, outcome) => self.behind_other(self.place_asked(objects), outcome),
        };
    }

    /// The Index_List came.
    fn hear_list(&mut self, objects: &mut Objects, octets: &Octets) -> UploadStage
        ensures stage { result ≡ stage_listed octets.now.items }
        ensures list { self.new ≡ record self.old {
          list = record { items = list_taken self.old.list.items octets.now.items };
        } }
        ensures objects { objects.new ≡ objects_listed objects.old octets.now.items }
    {
        if !is_list(octets) {
            return UploadStage::Breaking(UploadResult::BadList);
        }
        objects.clear();
        self.list.clear();
        self.list.try_extend_from_slice(octets).unwrap();
        UploadStage::Reading
    }

    /// A value came, or behind the last the checksum.
    fn hear_octets(&self, objects: &mut Objects, octets: &[u8]) -> UploadStage
        ensures stage { result ≡ stage_read self.now objects.old octets.now }
        ensures objects { objects.new ≡ objects_read self.now objects.old octets.now }
    {
        let count = objects.len();
        if !self.names(count) {
            return self.behind_checksum(octets);
        }
        hear_value(objects, self.place(count), octets)
    }

    /// Behind the checksum.
    fn behind_checksum(&self, octets: &[u8]) -> UploadStage
        ensures { result ≡ behind_checksum self.now.checksum octets.now }
    {
        if octets == self.checksum.as_slice() {
            UploadStage::Over(UploadResult::Whole)
        } else {
            UploadStage::Breaking(UploadResult::Changed)
        }
    }

    /// The place of the request that is asked.
    fn place_asked(&self, objects: &Objects) -> Place
        ensures { result ≡ upload_place self.now objects.now }
    {
        match self.stage {
            UploadStage::Listing => STORAGE_LIST,
            UploadStage::Reading => self.place(objects.len()),
            UploadStage::Starting | UploadStage::Breaking(_) | UploadStage::Over(_) => {
                STORAGE_COMMAND
            }
        }
    }

    /// Behind any other outcome of a request at this place.
    fn behind_other(&self, place: Place, outcome: &Outcome) -> UploadStage
        ensures { result ≡ behind_other self.now.stage place outcome.now }
    {
        match outcome {
            Outcome::Done(Answer::Refused(error, additional)) => {
                let result = UploadResult::Refused(Refusal {
                    place,
                    error: *error,
                    additional: *additional,
                });
                // A start that is refused begins nothing.
                match self.stage {
                    UploadStage::Starting => UploadStage::Over(result),
                    _ => UploadStage::Breaking(result),
                }
            }
            Outcome::Done(_) => UploadStage::Breaking(UploadResult::CutOff),
            Outcome::Unknown(cause) if session_lasts(*cause) => {
                UploadStage::Breaking(UploadResult::CutOff)
            }
            Outcome::Unknown(_) | Outcome::Withdrawn | Outcome::NoIsdu => {
                UploadStage::Over(UploadResult::CutOff)
            }
        }
    }
}

/// The value of this place came.
fn hear_value(objects: &mut Objects, place: Place, octets: &[u8]) -> UploadStage
    ensures stage { result ≡ stage_with objects.old place octets.now }
    ensures objects { objects.new ≡ objects_with objects.old place octets.now }
{
    if is_command_place(place) {
        return UploadStage::Breaking(UploadResult::BadList);
    }
    match objects.push(place, octets) {
        Ok(()) => UploadStage::Reading,
        Err(_) => UploadStage::Breaking(UploadResult::TooLarge),
    }
}

/// Whether octets are an Index_List: three of each place, and an Index 0 behind them.
fn is_list(octets: &[u8]) -> bool
    ensures { result ≡ is_list octets.now }
{
    let count = octets.len();
    count % PLACE == 2 && octets[count - 2] == 0 && octets[count - 1] == 0
}

/// A DS_Command.
pub(crate) fn command(octet: u8) -> Request
    ensures { result ≡ storage_command octet }
{
    let mut octets = Octets::new();
    octets.push(octet);
    Request::Write(STORAGE_COMMAND, octets)
}
