//! What a splitter makes of an octet.
ghost use Rattle.std.specs.Prelude.{◌≡◌, Some, None, Ok};
ghost use Rattle.iol_capture.specs.Splitting.{answered_more, concluding_step, first_heard, further_heard, octet_heard, line_after_reply, step_in_layout, looked_in, message_heard, pause_heard, reply_heard, rest_heard, sent_more};
ghost use Rattle.iol_capture.specs.Linking.{mode_begun};
ghost use Rattle.iol_capture.specs.Damage.{damaged_line, line_on_trial, layout_begun, line_awaiting_reply, line_in_message, cleared_line, exchange_of};
ghost use Rattle.iol_capture.specs.SplitSteps.{split_step, good_step};

use crate::gap::Gap;
use crate::message::{LONGEST, Meaning, meaning_in, reply_length};
use crate::passed::{Exchange, SplitItem};
use crate::split_fault::SplitFault;
use crate::splitter::{Phase, Splitter};
use iol_far::DeviceMode;
use iol_judge::{Open, Wake, layout_in};
use iol_mseq::{Layout, Message, view_master, view_reply};
use std::mem::replace;

impl Splitter {
    /// An octet begins so long behind the last one.
    pub(crate) fn hear(&mut self, elapsed: u64, octet: u8) -> Result<Option<SplitItem>, SplitFault>
        ensures { split_step self.new result ≡ octet_heard self.old elapsed octet }
    {
        let gap = Gap::of(self.rate, elapsed);
        match self.phase {
            Phase::Asleep => Ok(self.hear_waking(gap, octet)),
            Phase::Joined => Ok(self.hear_joined(gap, octet)),
            Phase::Waking => Ok(self.hear_waking(gap, octet)),
            Phase::Message => self.hear_message(gap, octet),
            Phase::Reply => self.hear_reply(gap, octet),
            Phase::Rest => self.hear_at_rest(gap, octet),
            Phase::Damaged => self.hear_damaged(gap, octet),
            Phase::Trial => self.hear_on_trial(gap, octet),
            Phase::Spoiled => self.hear_spoiled(gap, octet),
        }
    }

    /// Behind a whole reply.
    fn hear_at_rest(&mut self, gap: Gap, octet: u8) -> Result<Option<SplitItem>, SplitFault>
        ensures { split_step self.new result ≡ rest_heard gap self.old octet }
    {
        match gap {
            Gap::Overlap => Err(SplitFault::Overlap),
            Gap::Close => Ok(self.lose_item(1)),
            Gap::Message => Ok(self.lose_item(1)),
            Gap::Reply => Ok(self.lose_item(1)),
            Gap::Response => Ok(self.begin(octet)),
            Gap::Pause => Ok(self.begin(octet)),
        }
    }

    /// A message begins.
    pub(crate) fn begin(&mut self, octet: u8) -> Option<SplitItem>
        ensures { good_step self.new result ≡ good_step (line_in_message self.old octet) None }
    {
        self.phase = Phase::Message;
        self.answer.clear();
        self.sent.clear();
        self.sent.push(octet);
        None
    }

    /// In a message.
    fn hear_message(&mut self, gap: Gap, octet: u8) -> Result<Option<SplitItem>, SplitFault>
        ensures { split_step self.new result ≡ message_heard gap self.old octet }
    {
        match gap {
            Gap::Overlap => Err(SplitFault::Overlap),
            Gap::Close => self.send_more(octet),
            Gap::Message => self.send_more(octet),
            Gap::Reply => Ok(self.lose_item(1)),
            Gap::Response => Ok(self.lose_item(1)),
            Gap::Pause => Ok(self.try_anew(octet)),
        }
    }

    /// One more octet of a message.
    fn send_more(&mut self, octet: u8) -> Result<Option<SplitItem>, SplitFault>
        ensures { split_step self.new result ≡ sent_more self.old octet }
    {
        if self.sent.len() == LONGEST {
            return Ok(self.lose_item(1));
        }
        self.sent.push(octet);
        let found = self.layout_begun();
        self.look_in(found)
    }

    /// The layout of a message that begins with the octets so far, where it is known.
    pub(crate) fn layout_begun(&self) -> Result<Layout, Open>
        ensures { result ≡ layout_begun self.now }
    {
        layout_in(&self.observed.layouts(), self.mode_begun())
    }

    /// The mode in whose layout it is.
    pub(crate) fn mode_begun(&self) -> DeviceMode
        ensures { result ≡ mode_begun self.now.link self.now.sent }
    {
        self.link.mode_of(self.sent.as_slice())
    }

    /// What the octets so far are in this layout, where it is known.
    fn look_in(&mut self, found: Result<Layout, Open>) -> Result<Option<SplitItem>, SplitFault>
        ensures { split_step self.new result ≡ looked_in self.old found }
    {
        match found {
            Ok(layout) => Ok(self.look(layout)),
            Err(why) => Err(SplitFault::NoLayout(why)),
        }
    }

    /// What the octets so far are in this layout.
    fn look(&mut self, layout: Layout) -> Option<SplitItem>
        ensures { split_step self.new (Ok result) ≡ step_in_layout self.old layout }
    {
        match meaning_in(&layout, self.requests, self.sent.as_slice()) {
            Meaning::Part => None,
            Meaning::Whole => {
                self.await_reply(layout);
                None
            }
            Meaning::TestRead => {
                self.phase = Phase::Waking;
                None
            }
            Meaning::ReadOrTest => {
                self.await_reply(layout);
                Some(SplitItem::Wake(Wake::Unanswered))
            }
        }
    }

    pub(crate) fn await_reply(&mut self, layout: Layout)
        ensures { self.new ≡ line_awaiting_reply self.old layout }
    {
        self.layout = layout;
        self.phase = Phase::Reply;
    }

    /// Behind a whole message.
    fn hear_reply(&mut self, gap: Gap, octet: u8) -> Result<Option<SplitItem>, SplitFault>
        ensures { split_step self.new result ≡ reply_heard gap self.old octet }
    {
        if self.answer.is_empty() {
            self.hear_first(gap, octet)
        } else {
            self.hear_further(gap, octet)
        }
    }

    /// No octet of a reply came yet.
    fn hear_first(&mut self, gap: Gap, octet: u8) -> Result<Option<SplitItem>, SplitFault>
        ensures { split_step self.new result ≡ first_heard gap self.old octet }
    {
        match gap {
            Gap::Overlap => Err(SplitFault::Overlap),
            Gap::Close => Ok(self.lose_item(1)),
            Gap::Message => self.answer_more(octet),
            Gap::Reply => self.answer_more(octet),
            Gap::Response => self.answer_more(octet),
            Gap::Pause => Ok(Some(self.hear_behind_pause(octet))),
        }
    }

    /// In a reply.
    fn hear_further(&mut self, gap: Gap, octet: u8) -> Result<Option<SplitItem>, SplitFault>
        ensures { split_step self.new result ≡ further_heard gap self.old octet }
    {
        match gap {
            Gap::Overlap => Err(SplitFault::Overlap),
            Gap::Close => self.answer_more(octet),
            Gap::Message => self.answer_more(octet),
            Gap::Reply => self.answer_more(octet),
            Gap::Response => Ok(Some(self.spoil(1))),
            Gap::Pause => Ok(Some(self.hear_behind_pause(octet))),
        }
    }

    /// No reply came, or not all of it, and the next message begins.
    pub(crate) fn hear_behind_pause(&mut self, octet: u8) -> SplitItem
        ensures { split_step self.new (Ok (Some result)) ≡ pause_heard self.old octet }
    {
        let passed = self.exchange();
        let _ = self.begin(octet);
        passed
    }

    /// One more octet of a reply.
    fn answer_more(&mut self, octet: u8) -> Result<Option<SplitItem>, SplitFault>
        ensures { split_step self.new result ≡ answered_more self.old octet }
    {
        if self.answer.len() == LONGEST {
            return Ok(self.lose_item(1));
        }
        self.answer.push(octet);
        if self.answer.len() == reply_length(&self.layout, self.sent.as_slice()) {
            Ok(Some(self.conclude()))
        } else {
            Ok(None)
        }
    }

    /// The reply is whole.
    fn conclude(&mut self) -> SplitItem
        ensures { split_step self.new (Ok (Some result)) ≡ concluding_step self.old }
    {
        self.learn();
        self.phase = Phase::Rest;
        self.exchange()
    }

    /// What a good reply says of the page and the mode.
    fn learn(&mut self)
        ensures { self.new ≡ line_after_reply self.old }
    {
        let Ok(message) = view_master(&self.layout, self.sent.as_slice()) else {
            return;
        };
        if view_reply(&self.layout, message.mc().read, self.answer.as_slice()).is_err() {
            return;
        }
        let layouts = self.observed.layouts();
        self.link.turn(&layouts, self.sent.as_slice(), &message);
        self.observed
            .note_reply(message.mc(), self.answer.as_slice());
    }

    /// The message and the reply under way, which are over.
    pub(crate) fn exchange(&mut self) -> SplitItem
        ensures { good_step self.new (Some result)
            ≡ good_step (cleared_line self.old) (Some (exchange_of self.old)) }
    {
        let sent = replace(&mut self.sent, Message::new());
        let answer = replace(&mut self.answer, Message::new());
        SplitItem::Exchange(Exchange {
            sent,
            answer: if answer.is_empty() {
                None
            } else {
                Some(answer)
            },
        })
    }
}
