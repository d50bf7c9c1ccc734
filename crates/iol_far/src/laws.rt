//! Laws of the definitions, each carried by a function that does nothing when it runs.
ghost use Rattle.std.specs.Prelude.{◌≤◌, ℕ, List};
ghost use Rattle.iol_event.specs.declared.event.Event.{Event};
ghost use Rattle.iol_far.specs.SegmentLaws.{SegmentLaws};
ghost use Rattle.iol_far.specs.Laws.{OnceIsEnough, MessagesAreHeard, ModesHaveLayouts, RepliesAreRead, InputStaysSized, MuchStays, OutputStaysInOperate, LevelLaws, EventLaws};
ghost use Rattle.iol_far.specs.Orderly.{OrderlyLaws};
ghost use Rattle.iol_far.specs.Linked.{LinkLaws, TextsAreHeard};
ghost use Rattle.iol_far.specs.Regular.{RegularStays};

use iol_event::memory_stays_valid;
use iol_mseq::what_is_written_is_read;
use iol_page::pages_ask_for_layouts;
use iol_segment::{cut_is_whole, texts_join};

/// Hearing the same message again, after whatever the device does by itself,
/// changes nothing: for every message but a START read.
///
/// For a master that repeats a message whose reply is missing.
#[tactic(auto, using(crate::proofs::LawProofs::once_is_enough))]
pub fn hearing_again_changes_nothing()
    ensures { OnceIsEnough }
{}

/// Octets that spell a message in a layout are heard there as that message.
///
/// For who has a master of another make at our device.
#[tactic(auto, unfolding(crate::specs::Codec::message_in))]
pub fn messages_are_heard()
    ensures { MessagesAreHeard }
{
    what_is_written_is_read();
}

/// The layout of each mode, whatever the page, is a layout, and has on-request data.
///
/// Needed by `iol_app::laws::wake_gives`, `iol_app::laws::rise_gives`,
/// `iol_app::laws::receive_gives` and 6 more.
#[tactic(auto, using(crate::proofs::LawProofs::modes_have_layouts))]
pub fn modes_have_layouts()
    ensures { ModesHaveLayouts }
{
    pages_ask_for_layouts();
}

/// What a device answers, in the layout that it speaks, is read back as that reply.
///
/// Needed by `iol_app::laws::wake_gives`, `iol_app::laws::rise_gives`,
/// `iol_app::laws::receive_gives` and 4 more.
#[tactic(auto, using(crate::proofs::LawProofs::replies_are_read, crate::proofs::LawProofs::input_stays_sized))]
pub fn replies_are_read()
    ensures read { RepliesAreRead }
    ensures sized { InputStaysSized }
{
    pages_ask_for_layouts();
    cut_is_whole();
    what_is_written_is_read();
}

/// Hearing carries nothing out, and nothing changes the page or the record's room;
/// the output is valid in OPERATE alone.
///
/// Needed by `iol_app::core_data::turn`, `iol_app::laws::wake_gives`, `iol_app::laws::rise_gives`
/// and 7 more.
#[tactic(auto, using(crate::proofs::LawProofs::much_stays, crate::proofs::LawProofs::output_stays_in_operate))]
pub fn page_and_room_stay()
    ensures much { MuchStays }
    ensures output { OutputStaysInOperate }
{}

/// The segments of a request are received one by one, and the last makes it whole; an
/// answer that fits its request has a text of its kind, which doesn't begin as busy does.
///
/// Needed by `iol_app::laws::messages_are_moves`, `iol_app::laws::answers_are_taken_up`,
/// `iol_judge::laws::honest_lines_are_never_blamed` and `iol_port::laws::clean_laws`.
pub fn requests_are_received()
    ensures { (size : ℕ) → 1 ≤ size → SegmentLaws size }
{
    texts_join();
}

/// What a master may conclude of a device of any kind: while a message is out, and from one good
/// reply. From one good reply to IDLE or ABORT to the next such the record gains a request under
/// way at most once, unless a message that hands the whole of it over was out more than once.
///
/// A master that never lets that be sends such a request to a device that surely holds nothing.
/// Where no good reply comes, a START read goes out in place of the repeat, whose reply says
/// whether it was heard. One that repeats it knows with the good reply that the device has it now,
/// however often it carried it out before.
///
/// Needed by `iol_app::laws::wake_gives`, `iol_app::laws::rise_gives`,
/// `iol_app::laws::receive_gives` and 4 more.
pub fn ends_stay_level()
    ensures { (size : ℕ) → 1 ≤ size → LevelLaws size }
{
    texts_join();
    cut_is_whole();
}

/// A list of frozen events stays while it is read, and its confirm, however often
/// it is heard, clears nothing else.
///
/// Needed by `iol_app::laws::wake_gives`, `iol_app::laws::rise_gives` and
/// `iol_app::laws::receive_gives`.
#[tactic(auto, using(crate::proofs::LawProofs::event_laws))]
pub fn events_stay_until_confirmed()
    ensures { (first : Event) (rest : List Event) → EventLaws first rest }
{}

/// What a master may conclude of the device's mode while a message is out, and from
/// one good reply, whatever is under way on the ISDU channel.
///
/// Needed by `iol_link::laws::exchanges_keep_ends_level` and `iol_mode::exchange::laws`.
#[tactic(auto, using(crate::proofs::Hearings::link_laws))]
pub fn links_stay_level()
    ensures { LinkLaws }
{}

/// The octets that a master writes for a message are heard as that message.
///
/// Needed by `iol_app::laws::wake_gives`, `iol_app::laws::rise_gives`,
/// `iol_app::laws::receive_gives` and 2 more.
#[tactic(auto, unfolding(crate::specs::Codec::message_in))]
pub fn texts_are_heard()
    ensures { TextsAreHeard }
{
    what_is_written_is_read();
}

/// The parts of a device stay as they can be, whatever it hears or does by itself,
/// and at a wake-up request: the page has ten octets, the input the page's length,
/// and the event memory is one that events and messages lead to.
///
/// Rule WIRE-6.
///
/// Needed by `iol_judge::laws::honest_lines_are_never_blamed`.
#[tactic(auto, using(crate::proofs::LawProofs::regular_stays))]
pub fn parts_stay_regular()
    ensures { RegularStays }
{
    memory_stays_valid();
    modes_have_layouts();
}

/// What a device makes of messages to the page in STARTUP's layout, whatever its mode: it stays as
/// it can be, keeps what it held or nothing, and behind a reply to DeviceStartup it is in STARTUP,
/// or leaves its mode for it with the next other message.
///
/// Needed by `iol_app::laws::wake_gives`, `iol_app::laws::rise_gives` and
/// `iol_mode::exchange::laws`.
#[tactic(auto, using(crate::proofs::LawProofs::orderly_laws))]
pub fn devices_leave_their_mode()
    ensures { OrderlyLaws }
{
    modes_have_layouts();
}
