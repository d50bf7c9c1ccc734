//! Laws of the definitions, each carried by a function that does nothing when it runs.
ghost use Rattle.iol_mseq.specs.Flips.{MasterFlipIsRefused, ReplyFlipIsRefused};
ghost use Rattle.iol_mseq.specs.ReadBack.{SpelledIsRead, MasterIsReadBack, ReplyIsReadBack};

use iol_octets::{checksums_fit, control_octets_are_read_back, one_flip_is_seen};

/// One flipped bit is always seen.
///
/// A well-formed master message with any one bit flipped is a well-formed master message
/// in no layout, a well-formed reply with any one bit flipped a well-formed reply in none.
///
/// Rule CHK-3.
///
/// Needed by `iol_link::laws::damaged_replies_are_unread` and the promises of assurance.md.
pub fn one_flip_is_refused()
    ensures master { MasterFlipIsRefused }
    ensures reply { ReplyFlipIsRefused }
{
    one_flip_is_seen();
}

/// What is written of a message, whose parts have the layout's sizes, is read back as that message.
///
/// A master message is so read from all octets that spell it.
///
/// Needed by `iol_far::laws::messages_are_heard`, `iol_far::laws::replies_are_read`,
/// `iol_far::laws::texts_are_heard` and the promises of assurance.md.
#[tactic(auto, using(crate::proofs::MasterBack::spelled_is_read, crate::proofs::MasterBack::master_is_read_back, crate::proofs::ReplyBack::reply_is_read_back))]
pub fn what_is_written_is_read()
    ensures spelled { SpelledIsRead }
    ensures master { MasterIsReadBack }
    ensures reply { ReplyIsReadBack }
{
    checksums_fit();
    control_octets_are_read_back();
}
