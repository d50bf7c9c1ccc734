//! The splitter.
ghost use Rattle.std.specs.Prelude.{◌≡◌};
ghost use Rattle.iol_judge.specs.Observed.{whole_page};
ghost use Rattle.iol_capture.specs.Splitting.{is_unheard, pending_at_end, octet_split, wake_split};
ghost use Rattle.iol_capture.specs.Damage.{is_at_begin, line_joined};
ghost use Rattle.iol_capture.specs.SplitSteps.{split_step, good_step};
ghost use Rattle.iol_capture.specs.SplitterState.{begins_call, new_splitter};

use crate::link::Spoken;
use crate::passed::SplitItem;
use crate::split_fault::SplitFault;
use iol_judge::{ObservedPage, Wake};
use iol_link::Rate;
use iol_mseq::{Layout, Message};
use std::marker::Model;

/// What a splitter waits for.
#[derive(Clone, Copy, Debug, PartialEq, Eq)]
pub(crate) enum Phase {
    /// An answered test read. Nothing was told before.
    Asleep,
    /// A message in OPERATE, or a wake-up request. Nothing was told before.
    Joined,
    /// An answered test read, behind a wake-up request.
    Waking,
    /// More of a message.
    Message,
    /// The reply to a whole message, or more of it.
    Reply,
    /// A message.
    Rest,
    /// Behind damage: octets are passed over up to a pause.
    Damaged,
    /// Behind a pause there: the octets of a message, if they are one.
    Trial,
    /// Behind a message whose reply is damaged: octets are passed over up to the next message.
    Spoiled,
}

impl Phase {
    /// Whether nothing was told of the line.
    pub(crate) fn is_at_begin(self) -> bool
        ensures { result ≡ is_at_begin self }
    {
        matches!(self, Phase::Asleep | Phase::Joined)
    }

    /// Whether what goes over the line isn't known.
    pub(crate) fn is_unheard(self) -> bool
        ensures { result ≡ is_unheard self }
    {
        matches!(self, Phase::Message | Phase::Damaged | Phase::Trial)
    }
}

/// Whether the decoder shows wake-up requests.
#[derive(Clone, Copy, Debug, PartialEq, Eq)]
pub(crate) enum Requests {
    /// It showed none so far.
    Unshown,
    Shown,
}

/// What splits the octets of one line. It is told each octet in its order, and tells what went
/// over the line as soon as that is known. What it keeps doesn't grow with the stream.
///
/// Times are nanoseconds from any begin. Before the first answered test read (a read of page
/// address 0x02 in STARTUP, `A2 00`), and behind each wake-up request up to such a read, octets are
/// of none of its exchanges: a master tries other rates there.
///
/// A clause sees what is known of the page, the mode, and the message and the reply under way.
#[derive(Drop)]
pub struct Splitter {
    pub(crate) rate: Rate,
    pub(crate) requests: Requests,
    pub(crate) observed: ObservedPage,
    pub(crate) link: Spoken,
    /// That of the message under way, once it is whole.
    pub(crate) layout: Layout,
    pub(crate) phase: Phase,
    pub(crate) sent: Message,
    pub(crate) answer: Message,
    /// When the last octet, or the last wake-up request, began.
    pub(crate) last: u64,
    /// How many octets were passed over.
    pub(crate) passed_over: u64,
}

impl Model for Splitter {
    ghost use Rattle.iol_capture.specs.SplitterState.{Splitting};

    ghost Value = { Splitting };

    ghost view = { λ s. record {
      rate = s.rate;
      requests = s.requests;
      observed = s.observed;
      link = s.link;
      layout = s.layout;
      phase = s.phase;
      sent = s.sent.items;
      answer = s.answer.items;
      last = s.last;
      passed_over = s.passed_over;
    } };
}

impl Splitter {
    /// A splitter of a line with this rate, of which nothing is known.
    pub fn new(rate: Rate) -> Splitter
        ensures { result ≡ new_splitter rate }
    {
        Splitter {
            rate,
            requests: Requests::Unshown,
            observed: ObservedPage::nothing(),
            link: Spoken::started(),
            layout: Layout::startup(),
            phase: Phase::Asleep,
            sent: Message::new(),
            answer: Message::new(),
            last: 0,
            passed_over: 0,
        }
    }

    /// The device has this page: the octets of 0x02 to 0x0B. A page that was read needn't be told.
    pub fn page(&mut self, octets: &[u8; 10])
        ensures { self.new ≡ record self.old { observed = whole_page octets.now } }
    {
        self.observed = ObservedPage::whole(octets);
    }

    /// The stream begins while a device with this page is in OPERATE: the octets of 0x02 to 0x0B.
    /// Octets are passed over up to the first pause. Once anything of the line was told, it changes
    /// nothing.
    pub fn join(&mut self, octets: &[u8; 10])
        ensures { self.new ≡ line_joined self.old octets.now }
    {
        if !self.phase.is_at_begin() {
            return;
        }
        self.page(octets);
        self.link = Spoken::operating();
        self.phase = Phase::Joined;
        self.sent.clear();
        self.answer.clear();
    }

    /// Whether nothing of the line was told.
    pub(crate) fn is_at_begin(&self) -> bool
        ensures { result ≡ is_at_begin self.now.phase }
    {
        self.phase.is_at_begin()
    }

    /// An octet began at this time. None: what went over the line isn't known yet. Refusals: each
    /// of [`SplitFault`]. Behind one the rest can't be split.
    pub fn octet(&mut self, time: u64, octet: u8) -> Result<Option<SplitItem>, SplitFault>
        ensures { split_step self.new result ≡ octet_split self.old time octet }
    {
        if time < self.last {
            return Err(SplitFault::TimeBack);
        }
        let elapsed = time - self.last;
        self.last = time;
        self.hear(elapsed, octet)
    }

    /// The decoder shows a wake-up request at this time. None: nothing is known that went over the
    /// line before. Refusal: 1 TimeBack.
    pub fn wake(&mut self, time: u64) -> Result<Option<SplitItem>, SplitFault>
        ensures { split_step self.new result ≡ wake_split self.old time }
    {
        if time < self.last {
            return Err(SplitFault::TimeBack);
        }
        let passed = self.cut();
        self.last = time;
        self.requests = Requests::Shown;
        self.phase = Phase::Waking;
        Ok(passed)
    }

    /// The rate of the line.
    pub fn rate(&self) -> Rate
        ensures { result ≡ self.now.rate }
    {
        self.rate
    }

    /// How many octets were passed over, for they or those about them are damaged. The count stops
    /// at 2^64 - 1.
    pub fn passed_over(&self) -> u64
        ensures { result ≡ self.now.passed_over }
    {
        self.passed_over
    }

    /// Whether the octet told last begins a message, or a test read behind a wake-up request.
    pub fn begins(&self) -> bool
        ensures { result ≡ begins_call self.now }
    {
        self.sent.len() == 1
    }

    /// The layout in which the last whole message was split, and in which its reply is.
    pub fn layout(&self) -> Layout
        ensures { result ≡ self.now.layout }
    {
        self.layout
    }

    /// The stream has ended: what isn't told yet. A message without its last octets is none.
    pub fn end(mut self) -> Option<SplitItem>
        ensures { result ≡ pending_at_end self }
    {
        self.finish()
    }
}

impl Splitter {
    ghost use Rattle.iol_capture.specs.Splitting.{cut_by_wake};
    ghost use Rattle.iol_capture.specs.Damage.{cleared_line};

    /// What a wake-up request tells that cuts off what is under way.
    fn cut(&mut self) -> Option<SplitItem>
        ensures { good_step self.new result ≡ cut_by_wake self.old }
    {
        if !self.phase.is_unheard() {
            return self.finish();
        }
        let mode = self.link.mode_of(&[]);
        self.lose(0);
        Some(SplitItem::Resumed(mode))
    }

    /// What isn't told yet. No octet is under way any more.
    fn finish(&mut self) -> Option<SplitItem>
        ensures { good_step self.new result
            ≡ good_step (cleared_line self.old) (pending_at_end self.old) }
    {
        let passed = match self.phase {
            Phase::Asleep | Phase::Joined => None,
            Phase::Waking => Some(SplitItem::Wake(Wake::Unanswered)),
            Phase::Message => None,
            Phase::Reply => Some(self.exchange()),
            Phase::Rest => None,
            Phase::Damaged | Phase::Trial | Phase::Spoiled => None,
        };
        self.sent.clear();
        self.answer.clear();
        passed
    }
}
