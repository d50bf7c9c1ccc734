//! Which replies can be read.
ghost use Rattle.std.specs.Prelude.{◌≡◌};
ghost use Rattle.iol_judge.specs.Replies.{can_be_read, is_read_in};

use crate::observed::KnownLayouts;
use crate::open::Open;
use crate::take::layout_in;
use iol_far::{DeviceMode, message_in};
use iol_mseq::{Layout, view_reply};

/// Whether a reply can be read: it is a good one to what was sent, in the layout of some mode of
/// the device. One that can't be read was damaged on the line.
pub(crate) fn is_readable(layouts: &KnownLayouts, sent: &[u8], reply: &[u8]) -> bool
    ensures { result ≡ can_be_read layouts.now sent.now reply.now }
{
    // Most often it is in OPERATE.
    is_read_in(layout_in(layouts, DeviceMode::Operate), sent, reply)
        || is_read_in(layout_in(layouts, DeviceMode::Startup), sent, reply)
        || is_read_in(layout_in(layouts, DeviceMode::Preoperate), sent, reply)
}

/// Whether a reply can be read in this layout, where it is known.
fn is_read_in(layout: Result<Layout, Open>, sent: &[u8], reply: &[u8]) -> bool
    ensures { result ≡ is_read_in layout sent.now reply.now }
{
    let Ok(layout) = layout else {
        return false;
    };
    match message_in(&layout, sent) {
        Some(message) => view_reply(&layout, message.mc().read, reply).is_ok(),
        None => false,
    }
}
