//! What a reader may conclude of a download, of an upload, and of an attempt: laws, without code.
ghost use Rattle.iol_storage.specs.StoredStories.{AskedRequestsStay, BlocksAreWhole};
ghost use Rattle.iol_storage.specs.StoredChecks.{FetchedSetsAreWhole, BackupsHoldNoCommand, EndedUploadsWereSaved, RestoredStandingsAreTaken};
ghost use Rattle.iol_storage.specs.StoredLaws.{StepsAreCalls, MovesAreRuns, JobsAreAlone, AttemptsAreForTheDevice};
ghost use Rattle.iol_storage.specs.Laws.{AppliedIsWhole, OthersAreCutOff, SetsAreWhole};
ghost use Rattle.iol_storage.specs.AttemptLaws.{UnsavedSetsAreWhole, AcknowledgedSetsAreSaved, RestoredSetsAreTaken, AttemptsAskNoMore, AttemptsAskFew};

/// A law of the definitions: a download ends as Applied only if the device took each of its
/// requests, each once, in order, and if nothing else was asked. For a restore the state that was
/// read behind the start has no flag that counts.
///
/// Rules JOB-4, STO-10.
///
/// For who replaces a device: one whose download was applied has the whole set.
pub fn applied_is_whole()
    ensures { AppliedIsWhole }
{}

/// A law of the definitions: a download with any other result was cut off at one of its requests,
/// which gives the result, and behind which only a break was asked. All requests before it were
/// taken, so the end never was. `Unknown` is said of the end alone.
///
/// For who is told that a download failed: which values the device may have.
pub fn others_are_cut_off()
    ensures { OthersAreCutOff }
{}

/// A law of the definitions: an upload ends as Whole only with a whole set. Behind its start the
/// device's list was read, then each value that it names, each once, in order, and then the
/// checksum, which is the one that was expected.
///
/// Rule STO-7.
///
/// For who keeps what an upload brought.
pub fn sets_are_whole()
    ensures { SetsAreWhole }
{}

/// A law of the definitions: where a set that an attempt fetched waits to be saved, it is a whole
/// one, by the last upload that was asked, whatever was asked before.
///
/// For a program that saves a set only later.
pub fn unsaved_sets_are_whole()
    ensures { UnsavedSetsAreWhole }
{}

/// A law of the definitions: an attempt tells the device that an upload ends only if the set that
/// waited was saved, and if nothing was asked since. The kept set has no value where commands are
/// written.
///
/// For a device: what its master says is saved needs no more upload.
pub fn acknowledged_sets_are_saved()
    ensures { AcknowledgedSetsAreSaved }
{}

/// A law of the definitions: an attempt ends as Restored only if the device took, behind the looks,
/// each request of the restore of the kept set, each once, in order, and if nothing else was asked.
///
/// For who replaces a device: one that is restored has the kept set.
pub fn restored_sets_are_taken()
    ensures { RestoredSetsAreTaken }
{}

/// A law of the definitions: an attempt asks only reads of Data Storage's own places, reads of
/// those that the device's Index_List names, DS_Commands 01 to 05, and writes of the kept set's
/// values. Such a write is the next one of a restore, behind the looks and all requests before it.
///
/// Needed by the promises of assurance.md.
pub fn attempts_ask_no_more()
    ensures { AttemptsAskNoMore }
{}

/// A law of the definitions: an attempt asks at most 247 requests, whatever comes of them. A set
/// has at most 76 values (`Objects::len`).
///
/// For who reckons how long an attempt may keep clients out.
#[tactic(auto, using(crate::proofs::AttemptBounds::attempts_ask_few))]
pub fn attempts_ask_few()
    ensures { AttemptsAskFew }
{}

/// A law of each stored port: it is the port within. A job's step is a list of calls of that port,
/// and whatever happens at it is a run, in pieces, of each abstract port that it stands for. So all
/// that is promised of a port is promised of a stored one.
///
/// Needed by the promises of assurance.md.
#[tactic(auto, using(crate::proofs::StoredSteps::steps_are_calls))]
pub fn stored_ports_are_ports()
    ensures steps { StepsAreCalls }
    ensures runs { MovesAreRuns }
{}

/// A law of each stored port: behind a job's step, a request that may be taken is the job's own, if
/// a job is under way; and none may be taken until Data Storage has its standing.
///
/// Rules JOB-2, STO-14.
///
/// Needed by the promises of assurance.md.
pub fn jobs_are_alone()
    ensures { JobsAreAlone }
{}

/// A law of the definitions: an attempt begins in a session alone, whose device is the one of the
/// kept set, if one is kept.
///
/// Rule STO-4.
///
/// Needed by the promises of assurance.md.
#[tactic(auto, using(crate::proofs::StoredSteps::attempts_are_for_the_device))]
pub fn attempts_are_for_the_device()
    ensures { AttemptsAreForTheDevice }
{}

/// A law of the definitions: between the submit of a job's request and its outcome, whatever is
/// called, the job asks that very request. So what it hears is the outcome of what it asked.
///
/// Rule JOB-1.
///
/// Needed by the promises of assurance.md.
pub fn asked_requests_stay()
    ensures { AskedRequestsStay }
{}

/// A law of the definitions: whatever happens from the submit of a block on, it ends with a result,
/// and by what its job asked and heard. `Applied`: each of its requests was taken, in order, and
/// nothing else was asked. Any other: it was cut off at one of them, or left before its end was
/// asked, so that the end never was taken; `Unknown` is said of the end alone.
///
/// Needed by the promises of assurance.md.
pub fn blocks_are_whole()
    ensures { BlocksAreWhole }
{}

/// A law of the definitions: whatever happens from the turn on in which a check begins, where a set
/// that was fetched waits to be saved, that set is kept, is of the session's device, and is a whole
/// one, by the last upload that the check asked.
///
/// Needed by the promises of assurance.md.
#[tactic(auto, using(crate::proofs::StoredChecks::fetched_sets_are_whole))]
pub fn fetched_sets_are_whole()
    ensures { FetchedSetsAreWhole }
{}

/// A law of the definitions: from the opening of a port on, whatever happens, no set that is kept
/// has a value at the Index of Data Storage or of SystemCommand.
///
/// Needed by the promises of assurance.md.
#[tactic(auto, using(crate::proofs::StoredSets::backups_hold_no_command))]
pub fn backups_hold_no_command()
    ensures { BackupsHoldNoCommand }
{}

/// A law of the definitions: a check tells the device that an upload ends only if the set that
/// waited was saved, is kept still, and nothing was asked since. So a crash loses no change that a
/// device has flagged.
///
/// Needed by the promises of assurance.md.
#[tactic(auto, using(crate::proofs::StoredChecks::ended_uploads_were_saved))]
pub fn ended_uploads_were_saved()
    ensures { EndedUploadsWereSaved }
{}

/// A law of the definitions: a check leads to the standing `Restored` only if, whatever happened
/// meanwhile, the device took behind the looks each request of the restore of the kept set, each
/// once, in order, and nothing else was asked.
///
/// Needed by the promises of assurance.md.
#[tactic(auto, using(crate::proofs::StoredChecks::restored_standings_are_taken))]
pub fn restored_standings_are_taken()
    ensures { RestoredStandingsAreTaken }
{}
