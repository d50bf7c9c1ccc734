//! What those calls of a stored port answer that a plain port hasn't.
use iol_storage::{BlockTicket, DownloadResult, SetImage, SetNumber, StorageStanding};

/// What a call of a stored port answered that a plain port hasn't, where it wasn't refused.
#[derive(Drop)]
pub enum StorageAnswer {
    /// The ticket of a block that was submitted.
    Block(BlockTicket),
    /// What came of a block.
    Outcome(BlockTicket, DownloadResult),
    /// What came of Data Storage in the present session.
    Standing(StorageStanding),
    /// The octets of the set that is kept, if one is.
    Backup(Option<SetImage>),
    /// The number of the set that waited to be saved, if one did.
    Saved(Option<SetNumber>),
    /// The octets are no set's, and none was loaded.
    NoSet,
    /// The call has no answer.
    Nothing,
}
