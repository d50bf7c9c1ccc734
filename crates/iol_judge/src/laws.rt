//! The law of the judge, carried by a function that does nothing when it runs.
ghost use Rattle.iol_judge.specs.Admitted.{NeverBlamed, ResumedIsFair};

use iol_far::{
    modes_have_layouts, page_and_room_stay, parts_stay_regular, replies_are_read,
    requests_are_received,
};
use iol_page::pages_ask_for_layouts;
use iol_segment::{cut_is_whole, texts_join};

/// Whatever device by the rules brings a capture over a line that loses messages and replies, or
/// damages them so that it shows, it is never called not honest, and nothing in it is odd,
/// whatever is done with odd replies: be it of whatever kind the standard lets be, in all of its
/// states, whatever it does by itself between the exchanges, and at each wake-up request and power
/// cycle. Of wake-up requests in a row the last alone may be told. Its kind is among those that are
/// left.
///
/// Needed by `iol_capture::laws::honest_captures_are_never_blamed`,
/// `iol_capture::split_laws::octets_are_never_blamed` and the promises of assurance.md.
pub fn honest_lines_are_never_blamed()
    ensures { NeverBlamed }
{
    pages_ask_for_layouts();
    modes_have_layouts();
    cut_is_whole();
    texts_join();
    requests_are_received();
    parts_stay_regular();
    page_and_room_stay();
    replies_are_read();
}

/// Whatever a device did meanwhile, a judge that is told its mode goes on fairly.
///
/// Needed by the promises of assurance.md.
#[tactic(auto, using(crate::proofs::Resuming::resumed_is_fair))]
pub fn resumed_judges_are_fair()
    ensures { ResumedIsFair }
{}
