//! A call of the wire that octets were split into, and when it began.
ghost use Rattle.std.specs.Prelude.{◌≡◌};
ghost use Rattle.iol_capture.specs.Timed.{begun_pending, call_emitted, none_begun, time_of};

use crate::passed::SplitItem;
use iol_mseq::Layout;

/// A call of the wire that was split out of a capture of octets.
#[derive(Debug, Drop)]
pub struct TimedCall {
    /// When its message or its wake-up request began, in nanoseconds. Of a request that isn't
    /// shown, when its test read did.
    pub time: u64,
    /// As the judge counts the calls. None: an unanswered wake-up request that isn't shown, and may
    /// have been none.
    pub number: Option<u64>,
    /// That in which a message was split. Behind a wake-up request it says nothing.
    pub layout: Layout,
    pub item: SplitItem,
}

/// When what isn't told yet began, in nanoseconds.
#[derive(Clone, Copy, Debug, PartialEq, Eq)]
pub(crate) struct Beginnings {
    /// The last message or test read.
    pub octet: u64,
    /// The last wake-up request, where it is shown, and isn't told yet.
    pub request: Option<u64>,
}

impl Beginnings {
    /// Nothing began.
    pub fn none() -> Beginnings
        ensures { result ≡ none_begun }
    {
        Beginnings {
            octet: 0,
            request: None,
        }
    }

    /// The call of this number that was told, where one was, with this layout.
    pub fn emit(
        &mut self,
        number: Option<u64>,
        layout: Layout,
        passed: Option<SplitItem>,
    ) -> Option<TimedCall>
        ensures begun { self.new ≡ begun_pending self.old passed }
        ensures call { result ≡ call_emitted self.old number layout passed }
    {
        let item = passed?;
        if let SplitItem::Resumed(_) = item {
            return None;
        }
        let time = self.time_of(&item);
        if let SplitItem::Wake(_) = item {
            self.request = None;
        }
        Some(TimedCall {
            time,
            number,
            layout,
            item,
        })
    }

    /// When this began, which is told now.
    fn time_of(&self, item: &SplitItem) -> u64
        ensures { result ≡ time_of self.now item.now }
    {
        match (item, self.request) {
            (SplitItem::Wake(_), Some(time)) => time,
            _ => self.octet,
        }
    }
}
