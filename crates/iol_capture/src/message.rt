//! What the octets of a message are.
ghost use Rattle.std.specs.Prelude.{◌≡◌, ◌≤◌};
ghost use Rattle.iol_capture.specs.Lengths.{is_read_message, is_test_read, meaning_in, message_length, reply_length};

use crate::splitter::Requests;
use iol_mseq::{Layout, first};
use iol_octets::SequenceType;

/// How many octets a message has at most.
pub(crate) const LONGEST: usize = 66;

/// The test read, a read of page address 0x02 in STARTUP: its first octet.
pub(crate) const TEST_CONTROL: u8 = 0xA2;

/// Its second octet.
pub(crate) const TEST_CHECK: u8 = 0x00;

/// What octets are that a message begins with.
#[derive(Clone, Copy, Debug, PartialEq, Eq)]
pub(crate) enum Meaning {
    /// A message that isn't whole.
    Part,
    /// A whole message.
    Whole,
    /// The test read behind a wake-up request: it is no message of the layout.
    TestRead,
    /// A whole message, and maybe the test read behind a wake-up request.
    ReadOrTest,
}

/// What octets are that a message in this layout begins with.
pub(crate) fn meaning_in(layout: &Layout, requests: Requests, octets: &[u8]) -> Meaning
    ensures { result ≡ meaning_in layout.now requests octets.now }
{
    if is_test_read(octets) && layout.kind() != SequenceType::Type0 {
        Meaning::TestRead
    } else if octets.len() < message_length(layout, octets) {
        Meaning::Part
    } else if is_test_read(octets) && requests == Requests::Unshown {
        Meaning::ReadOrTest
    } else {
        Meaning::Whole
    }
}

/// Whether octets are those of the test read.
pub(crate) fn is_test_read(octets: &[u8]) -> bool
    ensures { result ≡ is_test_read octets.now }
{
    matches!(octets, [TEST_CONTROL, TEST_CHECK])
}

/// Whether a message is a read, by its first octet.
fn is_read(octets: &[u8]) -> bool
    ensures { result ≡ is_read_message octets.now }
{
    first(octets) >= 128
}

/// How many octets a message has, by its first.
fn message_length(layout: &Layout, octets: &[u8]) -> usize
    ensures value { result ≡ message_length layout.now octets.now }
    ensures most { result ≤ 66 }
{
    let od = if is_read(octets) {
        0
    } else {
        layout.od().get()
    };
    2 + layout.pd_out() as usize + od as usize
}

/// How many octets the reply to a message has.
pub(crate) fn reply_length(layout: &Layout, sent: &[u8]) -> usize
    ensures { result ≡ reply_length layout.now sent.now }
{
    let od = if is_read(sent) { layout.od().get() } else { 0 };
    od as usize + layout.pd_in() as usize + 1
}
