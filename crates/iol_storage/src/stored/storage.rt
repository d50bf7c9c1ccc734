//! What is known of Data Storage and of blocks at one port: the job that is under way, the set that
//! is kept, and whether clients are served.
ghost use Rattle.std.specs.Prelude.{◌≡◌, ◌∷◌, [], length, drop, is_some, OnOk, OnErr};
ghost use Rattle.std.specs.Option.{option_map, option_copied};
ghost use Rattle.std.specs.Result.{result_err};
ghost use Rattle.iol_storage.specs.Stored.{storage_at_opening, storage_asks, is_breaking, is_cut_off, storage_heard, storage_concluded, job_end, storage_keeping, storage_settled, settled_standing, standing_without, retry_behind, storage_left, block_left, storage_watched, storage_looked, storage_begun, obstacle, purpose_due, storage_noticed, storage_saved, clients_wait, storage_serves, is_unserved, has_storage, page_device, block_refusal, saved_refusal, block_answer, storage_with_block, block_collected, storage_behind_block, load_refusal, storage_loaded, storage_released};
ghost use Rattle.iol_storage.specs.Sets.{is_no_set};

use crate::attempt::{AttemptPurpose, AttemptResult, AttemptStage, StorageAttempt, StorageMode};
use crate::download::{
    Download, DownloadPurpose, DownloadResult, DownloadStage, Keep, session_lasts,
};
use crate::objects::Objects;
use crate::set::{SerialNumber, Set};
use crate::stored::fault::StoredFault;
use crate::stored::standing::{Agreement, StorageStanding, Trouble};
use crate::upload::UploadStage;
use iol_book::{Outcome, Serve, Ticket};
use iol_event::Event;
use iol_isdu::Request;
use iol_page::{Capability, Page};
use std::mem::replace;

/// The event by which a device says that its parameters were changed (D.2).
const UPLOAD_REQUEST: u16 = 0xFF91;
/// RevisionID of V1.1, the first with Data Storage (B.1.5).
const REVISION_1_1: u8 = 0x11;
/// Where the page has the M-sequence Capability (B.1.4).
const CAPABILITY: u8 = 3;
/// For how many turns no attempt is made behind the first one in vain, the second and the third.
const FIRST_PAUSE: u8 = 8;

const SECOND_PAUSE: u8 = 16;

const LONG_PAUSE: u8 = 200;
/// How often in a row a break goes out again that was cut off.
const MOST_BREAKS: u8 = 20;

/// The name of one block. Its number is given again only behind 2^64 others.
#[derive(Clone, Copy, Debug, PartialEq, Eq)]
pub struct BlockTicket(pub u64);

/// The name of one set that was fetched. Its number is given again only behind 2^64 others.
#[derive(Clone, Copy, Debug, PartialEq, Eq)]
pub struct SetNumber(pub u64);

/// What several requests are asked for, one behind the other.
#[derive(Drop)]
pub enum StorageJob {
    /// No job is under way.
    Idle,
    /// An attempt of a check of Data Storage.
    Check(StorageAttempt),
    /// A block of a client. Its writes are the draft.
    Block(Download),
}

/// What an outcome leads a job to.
#[derive(Clone, Copy, Debug, PartialEq, Eq)]
pub enum JobEnd {
    /// Another request.
    GoesOn,
    /// A set was fetched, whole.
    Fetched,
    /// The attempt is over.
    Check(AttemptResult),
    /// The block is over.
    Block(DownloadResult),
}

impl StorageJob {
    /// Whether it has failed, and the device is told to break it off.
    fn is_breaking(&self) -> bool
        ensures { result ≡ is_breaking self.now }
    {
        match self {
            StorageJob::Idle => false,
            StorageJob::Check(attempt) => match attempt.stage {
                AttemptStage::Breaking(_) | AttemptStage::Restoring(DownloadStage::Breaking(_)) => {
                    true
                }
                AttemptStage::Fetching => matches!(attempt.upload.stage, UploadStage::Breaking(_)),
                _ => false,
            },
            StorageJob::Block(download) => matches!(download.stage, DownloadStage::Breaking(_)),
        }
    }

    /// Where it is led.
    fn end(&self) -> JobEnd
        ensures { result ≡ job_end self.now }
    {
        match self {
            StorageJob::Idle => JobEnd::GoesOn,
            StorageJob::Check(attempt) => match attempt.result() {
                Some(end) => JobEnd::Check(end),
                None if attempt.wants_saved() => JobEnd::Fetched,
                None => JobEnd::GoesOn,
            },
            StorageJob::Block(download) => match download.stage {
                DownloadStage::Over(end) => JobEnd::Block(end),
                DownloadStage::Asking(_) | DownloadStage::Breaking(_) => JobEnd::GoesOn,
            },
        }
    }
}

/// When the next attempt of a check is made.
#[derive(Clone, Copy, Debug, PartialEq, Eq)]
pub struct Retry {
    /// How many attempts in a row were in vain.
    pub tries: u8,
    /// For how many turns none is made.
    pub pause: u8,
    /// A check is due, though the session has its standing.
    pub due: bool,
}

impl Retry {
    /// Behind three in vain, or one that met a trouble in service.
    const LATER: Retry = Retry {
        tries: 0,
        pause: LONG_PAUSE,
        due: true,
    };

    /// Behind an attempt with this result.
    ///
    /// Rule STO-12.
    fn behind(self, end: AttemptResult) -> Retry
        ensures { result ≡ retry_behind self end }
    {
        match (end, self.tries) {
            (AttemptResult::Transient, 0) => Retry {
                tries: 1,
                pause: FIRST_PAUSE,
                due: true,
            },
            (AttemptResult::Transient, 1) => Retry {
                tries: 2,
                pause: SECOND_PAUSE,
                due: true,
            },
            (AttemptResult::Transient, _) => Retry::LATER,
            _ => Retry {
                tries: 0,
                pause: 0,
                due: self.due,
            },
        }
    }
}

/// Data Storage and blocks at one port.
///
/// It calls no port: it says what is asked next, and hears what came of it.
#[derive(Drop)]
pub struct Storage {
    pub mode: StorageMode,
    /// The set that is kept.
    pub backup: Option<Set>,
    /// How many sets were fetched.
    pub fetched: u64,
    /// The program hasn't saved the last one yet, which is kept.
    pub unsaved: bool,
    /// What is fetched, or the writes of a block.
    pub draft: Objects,
    /// VendorID and DeviceID of the device that is checked.
    pub device: [u8; 5],
    pub job: StorageJob,
    /// The ticket of the job's request, until its outcome was collected.
    pub asked: Option<Ticket>,
    /// How often in a row its break was cut off, and goes out again.
    pub breaks: u8,
    /// How many blocks were submitted.
    pub blocks: u64,
    /// What came of the last one, until that was collected.
    pub ended: Option<DownloadResult>,
    pub standing: StorageStanding,
    pub retry: Retry,
}

impl Storage {
    /// Data Storage before the first session, with this set.
    pub(crate) fn new(mode: StorageMode, backup: Option<Set>) -> Storage
        ensures { result ≡ storage_at_opening mode backup }
    {
        Storage {
            mode,
            backup,
            fetched: 0,
            unsaved: false,
            draft: Objects::new(),
            device: [0; 5],
            job: StorageJob::Idle,
            asked: None,
            breaks: 0,
            blocks: 0,
            ended: None,
            standing: StorageStanding::Awaited,
            retry: Retry {
                tries: 0,
                pause: 0,
                due: false,
            },
        }
    }

    /// What a job asks next.
    pub(crate) fn asks(&self) -> Option<Request>
        ensures { result ≡ storage_asks self.now }
    {
        match &self.job {
            StorageJob::Idle => None,
            StorageJob::Check(attempt) => attempt.asks(self.backup.as_ref(), &self.draft),
            StorageJob::Block(download) => download.asks(&self.draft),
        }
    }

    /// What came of the job's request. A break that was cut off goes out again: what a client
    /// writes next would be part of what the job has begun.
    ///
    /// Rule JOB-3.
    pub(crate) fn hear(&mut self, outcome: &Outcome)
        ensures { self.new ≡ storage_heard self.old outcome.now }
    {
        self.asked = None;
        if self.breaks < MOST_BREAKS && self.job.is_breaking() && is_cut_off(outcome) {
            self.breaks += 1;
            return;
        }
        self.breaks = 0;
        match &mut self.job {
            StorageJob::Idle => {}
            StorageJob::Check(attempt) => attempt.hear(
                self.backup.as_ref(),
                &mut self.draft,
                outcome,
            ),
            StorageJob::Block(download) => download.hear(&self.draft, outcome),
        }
        self.conclude();
    }

    /// Behind an outcome: a set that was fetched is kept, and a job may be over.
    fn conclude(&mut self)
        ensures { self.new ≡ storage_concluded self.old }
    {
        match self.job.end() {
            JobEnd::GoesOn => {}
            JobEnd::Fetched => self.keep(),
            JobEnd::Check(end) => self.settle(end),
            JobEnd::Block(end) => {
                self.ended = Some(end);
                self.job = StorageJob::Idle;
            }
        }
    }

    /// What was fetched is the kept set from now on, in one step, and has to be saved.
    ///
    /// Rule STO-8.
    fn keep(&mut self)
        ensures { self.new ≡ storage_keeping self.old }
    {
        let StorageJob::Check(attempt) = &self.job else {
            return;
        };
        self.backup = Some(Set {
            checksum: attempt.upload.checksum,
            device: self.device,
            unit: attempt.unit.clone().unwrap(),
            objects: replace(&mut self.draft, Objects::new()),
        });
        self.fetched = self.fetched.wrapping_add(1);
        self.unsaved = true;
    }

    /// An attempt is over.
    fn settle(&mut self, end: AttemptResult)
        ensures { self.new ≡ storage_settled self.old end }
    {
        let proposed = self.proposed_standing(end);
        self.job = StorageJob::Idle;
        self.retry = if self.standing.stays_at(proposed) {
            Retry::LATER
        } else {
            self.retry.behind(end)
        };
        self.standing = self.standing.behind(proposed);
    }

    /// The standing behind an attempt.
    ///
    /// Rules STO-3, STO-12.
    fn proposed_standing(&self, end: AttemptResult) -> StorageStanding
        ensures { result ≡ settled_standing self.now.standing (is_some self.now.backup)
            self.now.retry.tries end }
    {
        match end {
            AttemptResult::Unsupported => self.without_storage(),
            AttemptResult::Locked => StorageStanding::Trouble(Trouble::Locked),
            AttemptResult::TooLarge => StorageStanding::Trouble(Trouble::TooLarge),
            AttemptResult::BadList => StorageStanding::Trouble(Trouble::BadList),
            AttemptResult::Refused(refusal) => StorageStanding::Trouble(Trouble::Refused(refusal)),
            AttemptResult::Empty => StorageStanding::Served(Agreement::Empty),
            AttemptResult::Same => StorageStanding::Served(Agreement::Same),
            AttemptResult::Restored => StorageStanding::Served(Agreement::Restored),
            AttemptResult::Fetched => StorageStanding::Served(Agreement::Fetched),
            AttemptResult::Transient
                if self.standing == StorageStanding::Awaited && self.retry.tries >= 2 => {
                StorageStanding::Trouble(Trouble::Attempts)
            }
            AttemptResult::Unchanged | AttemptResult::Transient => self.standing,
        }
    }

    /// The standing at a device that has no Data Storage.
    fn without_storage(&self) -> StorageStanding
        ensures { result ≡ standing_without (is_some self.now.backup) }
    {
        match self.backup {
            Some(_) => StorageStanding::Trouble(Trouble::NoStorage),
            None => StorageStanding::Served(Agreement::Unsupported),
        }
    }

    /// Looks at the session before a turn: none, or the one with this page. Where it is over, so is
    /// each job; where it has begun, a check begins.
    pub(crate) fn watch(&mut self, page: &Option<Page>)
        ensures { self.new ≡ storage_watched self.old page.now }
    {
        match page {
            _ if self.asked.is_some() => {}
            None => self.leave(),
            Some(page) => {
                if let StorageJob::Idle = self.job {
                    self.look(page);
                }
            }
        }
    }

    /// No session lasts.
    fn leave(&mut self)
        ensures { self.new ≡ storage_left self.old }
    {
        if let StorageJob::Block(download) = &self.job {
            self.ended = Some(left_at(download.stage));
        }
        self.job = StorageJob::Idle;
        self.standing = StorageStanding::Awaited;
        self.retry = Retry {
            tries: 0,
            pause: 0,
            due: false,
        };
    }

    /// In a session without a job: a check begins, if one is due.
    fn look(&mut self, page: &Page)
        ensures { self.new ≡ storage_looked self.old page.now }
    {
        if self.retry.pause > 0 {
            self.retry.pause -= 1;
        } else if let Some(purpose) = self.purpose_due() {
            self.begin(page, purpose);
        }
    }

    /// Why a check is due, if one is.
    ///
    /// Rule STO-13.
    fn purpose_due(&self) -> Option<AttemptPurpose>
        ensures { result ≡ purpose_due self.now.standing self.now.retry.due }
    {
        match self.standing {
            StorageStanding::Awaited => Some(AttemptPurpose::StartUp),
            _ if !self.retry.due => None,
            StorageStanding::Served(_) | StorageStanding::Released(_) => Some(
                AttemptPurpose::InService,
            ),
            StorageStanding::Trouble(_) => Some(AttemptPurpose::StartUp),
        }
    }

    /// Begins a check, where nothing stands in its way.
    fn begin(&mut self, page: &Page, purpose: AttemptPurpose)
        ensures { self.new ≡ storage_begun self.old page.now purpose }
    {
        self.retry.due = false;
        match self.obstacle(page) {
            Some(proposed) => {
                if self.standing.stays_at(proposed) {
                    self.retry = Retry::LATER;
                }
                self.standing = self.standing.behind(proposed);
            }
            None => {
                self.device = page_device(page);
                self.job = StorageJob::Check(StorageAttempt::new(self.mode, purpose));
            }
        }
    }

    /// What is said without a request.
    ///
    /// Rules STO-3, STO-4.
    fn obstacle(&self, page: &Page) -> Option<StorageStanding>
        ensures { result ≡ obstacle self.now.mode (option_map (λ set. set.device) self.now.backup)
            page.now }
    {
        if let StorageMode::Off = self.mode {
            return Some(StorageStanding::Served(Agreement::Off));
        }
        if !has_storage(page) {
            return Some(self.without_storage());
        }
        match &self.backup {
            Some(set) if set.device != page_device(page) => {
                Some(StorageStanding::Trouble(Trouble::WrongIdentity))
            }
            _ => None,
        }
    }

    /// An event was handed out. By one of them the device asks for a check.
    pub(crate) fn notice(&mut self, event: Event)
        ensures { self.new ≡ storage_noticed self.old event }
    {
        if event.code == UPLOAD_REQUEST {
            self.retry = Retry {
                tries: 0,
                pause: 0,
                due: true,
            };
        }
    }

    /// A block of a client is the job from now on. Its writes are taken, and none are left there.
    ///
    /// Refused, with nothing changed, by the first of 45, 60, 61 and 41.
    pub(crate) fn submit_block(
        &mut self,
        writes: &mut Objects,
        keep: Keep,
    ) -> Result<BlockTicket, StoredFault>
        ensures answer { result ≡ block_answer self.old writes.old }
        ensures storage { OnOk result (self.new ≡ storage_with_block self.old writes.old keep) }
        ensures writes { OnOk result (writes.new ≡ []) }
        ensures unchanged { OnErr result ((self.new ≡ self.old) × (writes.new ≡ writes.old)) }
    {
        if let Some(fault) = self.block_refusal() {
            return Err(fault);
        }
        if writes.any_owned() {
            return Err(StoredFault::OwnedIndex);
        }
        self.draft = replace(writes, Objects::new());
        self.job = StorageJob::Block(Download::new(DownloadPurpose::Block(keep)));
        self.blocks = self.blocks.wrapping_add(1);
        Ok(BlockTicket(self.blocks))
    }

    /// Why no block can begin now, whatever it writes.
    fn block_refusal(&self) -> Option<StoredFault>
        ensures { result ≡ block_refusal self.now }
    {
        match self.job {
            StorageJob::Check(_) | StorageJob::Block(_) => Some(StoredFault::Storing),
            StorageJob::Idle if self.standing == StorageStanding::Awaited => {
                Some(StoredFault::NoStanding)
            }
            StorageJob::Idle if self.ended.is_some() => Some(StoredFault::Uncollected),
            StorageJob::Idle => None,
        }
    }

    /// What came of a block, which is then done with.
    ///
    /// Refused, with nothing changed, by 46 where it isn't the last one, or was collected, and by
    /// 47 where it isn't over.
    pub(crate) fn collect_block(
        &mut self,
        block: BlockTicket,
    ) -> Result<DownloadResult, StoredFault>
        ensures answer { result ≡ block_collected self.old block }
        ensures storage { self.new ≡ storage_behind_block self.old block }
    {
        if block.0 != self.blocks {
            return Err(StoredFault::UnknownBlock);
        }
        match (self.ended.take(), &self.job) {
            (Some(ended), _) => Ok(ended),
            (None, StorageJob::Block(_)) => Err(StoredFault::BlockNotOver),
            (None, StorageJob::Idle | StorageJob::Check(_)) => Err(StoredFault::UnknownBlock),
        }
    }

    /// Keeps this set from now on, or none. In trouble a check follows.
    ///
    /// Refused, with nothing changed, by the first of 45 in a job, and 41 where the set has a value
    /// where commands are written.
    ///
    /// Rule STO-16.
    pub(crate) fn load(&mut self, backup: Option<Set>) -> Result<(), StoredFault>
        ensures answer { result_err result ≡ load_refusal self.old backup }
        ensures storage { OnOk result (self.new ≡ storage_loaded self.old backup) }
        ensures unchanged { OnErr result (self.new ≡ self.old) }
    {
        if !matches!(self.job, StorageJob::Idle) {
            return Err(StoredFault::Storing);
        }
        if is_no_set(&backup) {
            return Err(StoredFault::OwnedIndex);
        }
        self.backup = backup;
        self.unsaved = false;
        if let StorageStanding::Trouble(_) | StorageStanding::Released(_) = self.standing {
            self.standing = StorageStanding::Awaited;
            self.retry = Retry {
                tries: 0,
                pause: 0,
                due: false,
            };
        }
        Ok(())
    }

    /// Serves the device in spite of a trouble; but not in a check, which may restore the set.
    pub(crate) fn release(&mut self)
        ensures { self.new ≡ storage_released self.old }
    {
        if let StorageJob::Check(_) = self.job {
            return;
        }
        if let StorageStanding::Trouble(trouble) = self.standing {
            self.standing = StorageStanding::Released(trouble);
        }
    }

    /// The program has saved this set.
    ///
    /// Refused, with nothing changed, by 62 where another waits to be saved, or none does.
    pub(crate) fn saved(&mut self, number: SetNumber) -> Result<(), StoredFault>
        ensures answer { result_err result ≡ saved_refusal self.old number }
        ensures storage { OnOk result (self.new ≡ storage_saved self.old) }
        ensures unchanged { OnErr result (self.new ≡ self.old) }
    {
        if !self.unsaved || number.0 != self.fetched {
            return Err(StoredFault::OtherSet);
        }
        self.unsaved = false;
        if let StorageJob::Check(attempt) = &mut self.job {
            attempt.saved();
        }
        Ok(())
    }

    /// Whether clients' requests wait for a job, or for what comes of Data Storage.
    fn clients_wait(&self) -> bool
        ensures { result ≡ clients_wait self.now }
    {
        match self.job {
            StorageJob::Idle => self.standing == StorageStanding::Awaited
                && self.mode != StorageMode::Off,
            StorageJob::Check(_) | StorageJob::Block(_) => true,
        }
    }

    /// Which requests may be taken.
    ///
    /// Rule JOB-2.
    pub(crate) fn serves(&self) -> Serve
        ensures { result ≡ storage_serves self.now }
    {
        match self.asked {
            Some(ticket) => Serve::Only(ticket),
            None if self.clients_wait() => Serve::Nobody,
            None => Serve::All,
        }
    }

    /// Whether no image is handed out, and no output wanted.
    ///
    /// Rule STO-14.
    pub(crate) fn is_unserved(&self) -> bool
        ensures { result ≡ is_unserved self.now }
    {
        self.mode != StorageMode::Off && !self.standing.is_served()
    }
}

/// Whether a request was cut off, and its session goes on.
fn is_cut_off(outcome: &Outcome) -> bool
    ensures { result ≡ is_cut_off outcome.now }
{
    match outcome {
        Outcome::Unknown(cause) => session_lasts(*cause),
        Outcome::Done(_) | Outcome::Withdrawn | Outcome::NoIsdu => false,
    }
}

/// What is known of a block that ends where it is.
fn left_at(stage: DownloadStage) -> DownloadResult
    ensures { result ≡ block_left stage }
{
    match stage {
        DownloadStage::Asking(_) => DownloadResult::NotApplied,
        DownloadStage::Breaking(result) | DownloadStage::Over(result) => result,
    }
}

/// Whether a set has a value where commands are written, as no device's has.
pub(crate) fn is_no_set(backup: &Option<Set>) -> bool
    ensures { result ≡ is_no_set backup.now }
{
    match backup {
        Some(set) => set.objects.any_owned(),
        None => false,
    }
}

/// Whether the device of a page may have Data Storage: it is of V1.1, and has ISDUs.
fn has_storage(page: &Page) -> bool
    ensures { result ≡ has_storage page.now }
{
    page.revision() >= REVISION_1_1 && Capability::from_octet(page.octet(CAPABILITY)).isdu
}

/// VendorID and DeviceID, as a page has them.
fn page_device(page: &Page) -> [u8; 5]
    ensures { result ≡ page_device page.now }
{
    [
        page.octet(7),
        page.octet(8),
        page.octet(9),
        page.octet(10),
        page.octet(11),
    ]
}
