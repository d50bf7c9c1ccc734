//! Laws of the definitions, each carried by a function that does nothing when it runs.
ghost use Rattle.iol_app.specs.Moves.{MessagesAreMoves, AnswersAreTakenUp};
ghost use Rattle.iol_app.specs.StationLaws.{StationLaws};
ghost use Rattle.iol_app.specs.Exchange.{TextNamesAnswer};
ghost use Rattle.iol_app.specs.CoreTurns.{WakesDevice, Rises, Receives, Sends};

use iol_event::{memory_stays_valid, reading_gives_the_frozen_list};
use iol_far::{
    devices_leave_their_mode, ends_stay_level, events_stay_until_confirmed, modes_have_layouts,
    page_and_room_stay, replies_are_read, requests_are_received, texts_are_heard,
};
use iol_isdu::{one_text_each, one_text_in_front};
use iol_page::pages_ask_for_layouts;
use iol_segment::texts_join;

/// Each new message of a session is the move that the request's progress asks for:
/// its next segment, START until the answer begins, the COUNT of the answer's next
/// segment, or none of these.
///
/// Needed by `laws::send_gives`.
pub(crate) fn messages_are_moves()
    ensures { MessagesAreMoves }
{
    requests_are_received();
    texts_join();
}

/// No segment of an answer that fits the request is refused, and the answer that is
/// whole with its last one is that one.
///
/// Needed by `laws::receive_gives`.
pub(crate) fn answers_are_taken_up()
    ensures { AnswersAreTakenUp }
{
    requests_are_received();
    texts_join();
    one_text_each();
}

/// A wake.
///
/// Needed by `laws::station_laws`.
#[tactic(auto, using(crate::proofs::Waking::wakes))]
pub(crate) fn wake_gives()
    ensures { WakesDevice }
{
    ends_stay_level();
    page_and_room_stay();
    replies_are_read();
    events_stay_until_confirmed();
    modes_have_layouts();
    devices_leave_their_mode();
    texts_are_heard();
}

/// An exchange of a start-up, in STARTUP and in PREOPERATE.
///
/// Needed by `laws::station_laws`.
#[tactic(auto, using(crate::proofs::Starting::rises))]
pub(crate) fn rise_gives()
    ensures { Rises }
{
    ends_stay_level();
    page_and_room_stay();
    replies_are_read();
    events_stay_until_confirmed();
    modes_have_layouts();
    devices_leave_their_mode();
    texts_are_heard();
    pages_ask_for_layouts();
}

/// Octets that begin with the text of an answer to a request name it: they are the
/// text, or the first segments of the text, of no other answer.
///
/// Needed by `laws::receive_gives`.
pub(crate) fn text_names_its_answer()
    ensures { TextNamesAnswer }
{
    one_text_in_front();
    one_text_each();
}

/// What comes back in OPERATE.
///
/// Needed by `laws::station_laws`.
pub(crate) fn receive_gives()
    ensures { Receives }
{
    ends_stay_level();
    page_and_room_stay();
    replies_are_read();
    events_stay_until_confirmed();
    modes_have_layouts();
    texts_are_heard();
    memory_stays_valid();
    reading_gives_the_frozen_list();
    text_names_its_answer();
    answers_are_taken_up();
}

/// A new message goes out in OPERATE.
///
/// Needed by `laws::station_laws`.
pub(crate) fn send_gives()
    ensures { Sends }
{
    ends_stay_level();
    modes_have_layouts();
    messages_are_moves();
}

/// What one call of an honest wire gives.
///
/// Needed by `core_data::put_due`, `core_data::receive_wake`, `core_data::receive` and 2 more.
pub(crate) fn station_laws()
    ensures { StationLaws }
{
    wake_gives();
    rise_gives();
    send_gives();
    receive_gives();
}
