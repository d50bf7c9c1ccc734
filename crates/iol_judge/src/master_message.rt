//! Replies, as a master takes them.
ghost use Rattle.std.specs.Prelude.{◌≡◌, option_and_then, option_copied};
ghost use Rattle.iol_mseq.specs.Replies.{reply_in};

use iol_mseq::{Layout, ReplyView, view_reply};

/// The good reply that came, if one did.
pub(crate) fn reply_in<'a>(
    layout: &Layout,
    read: bool,
    answer: Option<&'a [u8]>,
) -> Option<ReplyView<'a>>
    ensures { result ≡ option_and_then (reply_in layout.now read) (option_copied answer.entry) }
{
    match answer {
        Some(octets) => view_reply(layout, read, octets).ok(),
        None => None,
    }
}
