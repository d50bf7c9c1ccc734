//! What a client may conclude of a whole run of a port: laws, without code.
ghost use Rattle.iol_port.specs.Promises.{OpensSound, RunsSound, GoodLinkStays, NothingIsNoTurn, EventsAreRead, NoneIsSwallowed, AsleepAnswersNothing, OnlyMissesUnreport, ImagesHaveLength, StartsByPage};
ghost use Rattle.iol_port.specs.Promises.{WrongPagesStayUnread, RunsJoin};
ghost use Rattle.iol_port.specs.Promises.{PiecesSound, PiecesJoin, HalvesAreTurns};
ghost use Rattle.iol_port.specs.Promises.{CancelledWasAsked, AskedByCancel};
ghost use Rattle.iol_port.specs.Clean.{CleanLaws};
ghost use Rattle.iol_port.specs.Denials.{CarriesNone, IsDeniedWithoutIsdu};
ghost use Rattle.iol_port.specs.CarriesOut.{EachDoneHasItsPair, LateEnds, CutForGoodStaysOut};
ghost use Rattle.iol_port.specs.History.{EachFitsHistory, EachIsReportedOnce};

use iol_far::{modes_have_layouts, page_and_room_stay, replies_are_read, requests_are_received};
use iol_isdu::one_text_each;
use iol_segment::{cut_is_whole, segments_join, texts_join};

/// A law of the definitions, over whole runs of the abstract port: the device's
/// record fits the journal.
///
/// A port is sound when it is opened, and each run keeps it so, whatever calls and
/// turns it has, whole or in two pieces with calls between them. Of a sound port the
/// journal says where each ticket stands. Joined with what drains handed out since the last
/// archive it is one journal. The record's pairs have their owners, which are the requests that
/// this one says were taken: in the order taken, at most one pair for each, and exactly one, with
/// that answer, for each that is done. A request of them that was cut off, and that the device may
/// still carry out, is in doubt by the journal alone: it is the one taken last. Of a request that
/// the device may carry out more than once, the record may have more pairs. At a port for our own
/// devices whose device forgets its answer once the last segment was sent, the answer that is told
/// may be another than that of the pair.
///
/// Rule BOOK-10.
///
/// Needed by `honest_port::keeps_record` and the promises of assurance.md.
#[tactic(auto, using(crate::proofs::OwnerRuns::opened_sound, crate::proofs::OwnerRuns::runs_sound, crate::proofs::OwnerRuns::pieces_sound))]
pub fn record_fits_journal()
    ensures opens { OpensSound }
    ensures runs { RunsSound }
    ensures pieces { PiecesSound }
{}

/// A law of the definitions: what no turn of the abstract port is.
///
/// With a good reply in OPERATE the link stays in OPERATE; and in OPERATE, where the last reply is
/// missing, leaving all as it was is no turn. Events come with a good reply in OPERATE alone, and
/// are those that the device had frozen when the turn began. With a good reply none of these that
/// wasn't reported yet is gone: it is frozen still, or is reported. A device that had a power cycle
/// brings no good reply, until a wake. What was reported counts as unreported again, outside down,
/// only at a port for any device, by an exchange in OPERATE without a good reply. An image that a
/// good reply in OPERATE brings has the length that the page says. A start-up that has not read the
/// page goes on to no mode but down, and it does not read the page of a device that is not the
/// expected one. What a turn does on every wire is said by the clause `gives` of
/// [`Port::turn`](crate::Port::turn).
///
/// Needed by the promises of assurance.md.
pub fn turns_rule_out()
    ensures stays { GoodLinkStays }
    ensures nothing { NothingIsNoTurn }
    ensures events { EventsAreRead }
    ensures frozen { NoneIsSwallowed }
    ensures asleep { AsleepAnswersNothing }
    ensures repeat { OnlyMissesUnreport }
    ensures images { ImagesHaveLength }
    ensures pages { StartsByPage }
    ensures wrong { WrongPagesStayUnread }
{}

/// A law of the definitions, over whole runs of a port that is opened, and over their pieces: what
/// is said of events, images and outputs is of what happened at the device.
///
/// The device's history goes on by some entries: each event that was raised and taken, each input
/// that was set, each power cycle, in order. Each event that the port reported was raised in them,
/// or was in the device's memory when the port was opened. Each image that was handed out was the
/// input at a moment of them. The output that the device has is one that a client set, or the one
/// that it had at the opening.
///
/// In a run in which nothing that was reported counts as unreported again, each event is reported
/// at most once, in the order of raising. It counts so behind a wake or a reset of the device, and,
/// at a port for any device, where a confirm had no good reply: then it may come once more.
///
/// Needed by the promises of assurance.md.
#[tactic(auto, using(crate::proofs::HistoryRuns::each_fits_history, crate::proofs::HistoryRuns::each_is_reported_once))]
pub fn runs_fit_history()
    ensures fits { EachFitsHistory }
    ensures once { EachIsReportedOnce }
{}

/// A law of the definitions: the two pieces of a turn, with no call between, are that turn.
///
/// Needed by the promises of assurance.md.
pub fn pieces_are_turns()
    ensures { HalvesAreTurns }
{}

/// A law of the definitions: a run, and one that goes on from where it led, are one run.
///
/// Needed by `iol_commands::playing::play_lines`, `iol_commands::playing::play_turns`,
/// `iol_commands::tracing::follow` and 2 more.
#[tactic(auto, using(crate::proofs::PieceLemmas::runs_join, crate::proofs::PieceLemmas::pieces_join))]
pub fn runs_join()
    ensures runs { RunsJoin }
    ensures pieces { PiecesJoin }
{}

/// A law of the definitions, over whole runs of a port that is opened: each pair by which
/// the device's record grew is that of a request which was submitted under a ticket of its
/// own, and each outcome Done that was collected is that of such a request, whose last pair has
/// that answer.
///
/// The pairs stand behind what the record had at the opening, and no two owners have one ticket,
/// nor one of them two pairs, across losses, restarts, drains and archives: so each request is
/// carried out once at most, one that was cut off as well. Before them may stand one pair that has
/// no owner: that of the request which the device had been handed when the port was opened.
///
/// It is otherwise only at a port for our own devices whose device hands a request over with its
/// last segment. There a request whose text fits in one START write may have several pairs, next
/// to each other. And at a port for our own devices whose device forgets its answer once the last
/// segment was sent, the answer that is told may be another than that of the pair.
///
/// Rule REQ-15.
///
/// Needed by the promises of assurance.md.
#[tactic(auto, using(crate::proofs::OwnerRuns::each_done_has_its_pair))]
pub fn each_done_has_its_pair()
    ensures { EachDoneHasItsPair }
{}

/// A law of the definitions, over whole runs of a port that is opened: a request that
/// was cut off is not carried out after a wake that had success; at a port for any device, not
/// after a start-up that led on, to PREOPERATE or OPERATE.
///
/// The run has a turn, or the second piece of one, that leads out of down; at a port for any
/// device one that leads out of STARTUP, and not back to down. Over the whole of it the pairs are
/// as [`each_done_has_its_pair`] says; and no request that the device carries out after that had
/// been cut off before it, nor was it handed over before the opening. One that was cut off for
/// another cause than a lost link or a restart, as a cancelled one, isn't carried out after that at
/// all.
///
/// Rule REQ-12.
///
/// Needed by the promises of assurance.md.
pub fn late_requests_end()
    ensures wakes { LateEnds }
    ensures for_good { CutForGoodStaysOut }
{}

/// A law of the definitions, over whole runs of a port that is opened: a device without ISDU
/// carries nothing out but, once, what it had been handed when the port was opened; and each
/// outcome NoIsdu that was collected is that of such a device.
///
/// Needed by the promises of assurance.md.
#[tactic(auto, using(crate::proofs::OwnerRuns::carries_none, crate::proofs::OwnerRuns::denied_without_isdu))]
pub fn denied_requests_stay_out()
    ensures carries { CarriesNone }
    ensures denied { IsDeniedWithoutIsdu }
{}

/// A law of the definitions: a request is said to be cancelled only where the program asked for it.
///
/// The turn that says so began with the request marked, and only a cancel of its
/// ticket sets the mark.
///
/// Needed by the promises of assurance.md.
pub fn cancelled_requests_were_asked()
    ensures turns { CancelledWasAsked }
    ensures marks { AskedByCancel }
{}

/// What the number of turns on a clean wire rests on.
///
/// Needed by `port::run` and `port_core::turn`.
pub(crate) fn clean_laws()
    ensures { CleanLaws }
{
    requests_are_received();
    cut_is_whole();
    texts_join();
    segments_join();
    one_text_each();
    replies_are_read();
    modes_have_layouts();
    page_and_room_stay();
}
