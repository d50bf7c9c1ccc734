//! Whole blocks of parameters, and Data Storage, at the master (IEC 61131-9, 10.3, 10.4, 11.3 and
//! 11.4, cited from memory).
//!
//! A job is what many requests do together. Each of them is asked once, in order, when the one
//! before it has its outcome; a job says what is asked next, and hears what came of it.
//!
//! Definitions: `specs/Objects`, `Downloads`, `Uploads`, `Sets`, `Attempts`; the theorems in `Laws`
//! and `AttemptLaws`.
#![tactic(auto)]

mod attempt;
mod download;
mod fault;
mod laws;
mod objects;
mod set;
mod stored;
mod upload;

pub use attempt::{AttemptPurpose, AttemptResult, AttemptStage, StorageAttempt, StorageMode};
pub use download::{Download, DownloadPurpose, DownloadResult, DownloadStage, Flag, Keep, Refusal};
pub use fault::StorageFault;
pub use laws::{
    acknowledged_sets_are_saved, applied_is_whole, asked_requests_stay,
    attempts_are_for_the_device, attempts_ask_few, attempts_ask_no_more, backups_hold_no_command,
    blocks_are_whole, ended_uploads_were_saved, fetched_sets_are_whole, jobs_are_alone,
    others_are_cut_off, restored_sets_are_taken, restored_standings_are_taken, sets_are_whole,
    stored_ports_are_ports, unsaved_sets_are_whole,
};
pub use objects::{MOST_OBJECTS, MOST_OCTETS, Object, Objects};
pub use set::{SerialNumber, Set, SetImage};
pub use stored::{
    Agreement, BlockTicket, Retry, SetNumber, Storage, StorageJob, StorageStanding, StoredFault,
    StoredPort, Trouble,
};
pub use upload::{Upload, UploadResult, UploadStage};
