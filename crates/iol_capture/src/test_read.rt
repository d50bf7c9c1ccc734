//! The test read behind a wake-up request.
ghost use Rattle.std.specs.Prelude.{◌≡◌};
ghost use Rattle.iol_capture.specs.Waking.{in_message, in_reply, begins_reply, is_test_reply, line_in_test, test_heard, waking_heard, line_in_startup};
ghost use Rattle.iol_capture.specs.SplitSteps.{good_step};

use crate::gap::Gap;
use crate::link::Spoken;
use crate::message::{TEST_CHECK, TEST_CONTROL, is_test_read};
use crate::passed::SplitItem;
use crate::splitter::{Phase, Splitter};
use iol_judge::Wake;
use iol_mseq::{Layout, first, view_reply};

impl Splitter {
    /// Before an answered test read. Octets that are none of one are of no exchange.
    pub(crate) fn hear_waking(&mut self, gap: Gap, octet: u8) -> Option<SplitItem>
        ensures { good_step self.new result ≡ waking_heard gap self.old octet }
    {
        if is_test_read(self.sent.as_slice()) {
            return self.hear_test_reply(gap, octet);
        }
        if self.sent.len() == 1 && octet == TEST_CHECK && gap.is_in_message() {
            self.sent.push(octet);
        } else {
            self.seek(octet);
        }
        None
    }

    /// The test read may begin anew.
    fn seek(&mut self, octet: u8)
        ensures { self.new ≡ line_in_test self.old octet }
    {
        self.sent.clear();
        self.answer.clear();
        if octet == TEST_CONTROL {
            self.sent.push(octet);
        }
    }

    /// Behind a test read.
    fn hear_test_reply(&mut self, gap: Gap, octet: u8) -> Option<SplitItem>
        ensures { good_step self.new result ≡ test_heard gap self.old octet }
    {
        if self.answer.is_empty() && gap.begins_reply() {
            self.answer.push(octet);
            return None;
        }
        if self.answer.len() == 1
            && gap.is_in_reply()
            && is_test_reply(first(self.answer.as_slice()), octet)
        {
            self.start();
            return Some(SplitItem::Wake(Wake::Answered));
        }
        self.seek(octet);
        None
    }

    /// The device is in STARTUP.
    fn start(&mut self)
        ensures { self.new ≡ line_in_startup self.old }
    {
        self.sent.clear();
        self.answer.clear();
        self.link = Spoken::started();
        self.phase = Phase::Rest;
    }
}

/// Whether two octets are a good reply to the test read.
fn is_test_reply(value: u8, check: u8) -> bool
    ensures { result ≡ is_test_reply value check }
{
    view_reply(&Layout::startup(), true, &[value, check]).is_ok()
}

impl Gap {
    /// Whether the octet behind it goes on with a message.
    pub(crate) fn is_in_message(self) -> bool
        ensures { result ≡ in_message self }
    {
        matches!(self, Gap::Close | Gap::Message)
    }

    /// Whether the octet behind it goes on with a reply.
    fn is_in_reply(self) -> bool
        ensures { result ≡ in_reply self }
    {
        matches!(self, Gap::Close | Gap::Message | Gap::Reply)
    }

    /// Whether the octet behind it begins the reply to a message.
    fn begins_reply(self) -> bool
        ensures { result ≡ begins_reply self }
    {
        matches!(self, Gap::Message | Gap::Reply | Gap::Response)
    }
}
