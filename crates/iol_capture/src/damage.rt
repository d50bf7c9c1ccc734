//! What a splitter makes of damage: it passes octets over up to the next message that fits.
ghost use Rattle.std.specs.Prelude.{◌≡◌, ◌≤◌, Some, None, Ok};
ghost use Rattle.iol_capture.specs.Damage.{damage_split, damaged_before, damaged_heard, damaged_line, joined_heard, line_on_trial, spoiled_heard, spoiled_step, tried_as, tried_in, tried_more, trial_heard};
ghost use Rattle.iol_capture.specs.SplitSteps.{good_step, split_step};

use crate::gap::Gap;
use crate::message::{LONGEST, Meaning, meaning_in};
use crate::passed::{Exchange, SplitItem};
use crate::split_fault::SplitFault;
use crate::splitter::{Phase, Splitter};
use iol_judge::Open;
use iol_mseq::{Layout, Message, view_master};
use std::mem::replace;

impl Splitter {
    /// What is under way is damaged, and so many octets behind it.
    pub(crate) fn lose(&mut self, behind: u64)
        ensures { self.new ≡ damaged_line self.old behind }
    {
        let sent = self.sent.len() as u64;
        let answer = self.answer.len() as u64;
        self.pass_over(sent);
        self.pass_over(answer);
        self.pass_over(behind);
        self.sent.clear();
        self.answer.clear();
        self.phase = Phase::Damaged;
    }

    /// The same, where nothing is told of it.
    pub(crate) fn lose_item(&mut self, behind: u64) -> Option<SplitItem>
        ensures { good_step self.new result ≡ good_step (damaged_line self.old behind) None }
    {
        self.lose(behind);
        None
    }

    /// So many octets more are passed over.
    fn pass_over(&mut self, count: u64)
        ensures { self.new
            ≡ record self.old { passed_over = passed_more self.old.passed_over count } }
    {
        self.passed_over = self.passed_over.saturating_add(count);
    }

    ghost use Rattle.iol_capture.specs.Damage.{passed_more};

    /// The message is whole, its reply is damaged, and so many octets behind it: as if none came.
    pub(crate) fn spoil(&mut self, behind: u64) -> SplitItem
        ensures { good_step self.new (Some result) ≡ spoiled_step self.old behind }
    {
        let sent = replace(&mut self.sent, Message::new());
        self.lose(behind);
        self.phase = Phase::Spoiled;
        SplitItem::Exchange(Exchange { sent, answer: None })
    }

    /// Behind damage, octets are tried as a message.
    fn try_octet(&mut self, octet: u8) -> Option<SplitItem>
        ensures { good_step self.new result ≡ good_step (line_on_trial self.old octet) None }
    {
        let _ = self.begin(octet);
        self.phase = Phase::Trial;
        None
    }

    /// What is under way is damaged, and octets behind a pause are tried as a message.
    pub(crate) fn try_anew(&mut self, octet: u8) -> Option<SplitItem>
        ensures { good_step self.new result
            ≡ good_step (line_on_trial (damaged_line self.old 0) octet) None }
    {
        self.lose(0);
        self.try_octet(octet)
    }

    /// Behind damage.
    pub(crate) fn hear_damaged(
        &mut self,
        gap: Gap,
        octet: u8,
    ) -> Result<Option<SplitItem>, SplitFault>
        ensures { split_step self.new result ≡ damaged_heard gap self.old octet }
    {
        match gap {
            Gap::Overlap => Err(SplitFault::Overlap),
            Gap::Pause => Ok(self.try_octet(octet)),
            _ => {
                self.pass_over(1);
                Ok(None)
            }
        }
    }

    /// Where a stream begins in OPERATE, maybe amid a message.
    pub(crate) fn hear_joined(&mut self, gap: Gap, octet: u8) -> Option<SplitItem>
        ensures { good_step self.new result ≡ joined_heard gap self.old octet }
    {
        match gap {
            Gap::Pause => self.try_octet(octet),
            Gap::Overlap | Gap::Close | Gap::Message => self.lose_item(1),
            Gap::Reply | Gap::Response => self.lose_item(1),
        }
    }

    /// Behind a damaged reply.
    pub(crate) fn hear_spoiled(
        &mut self,
        gap: Gap,
        octet: u8,
    ) -> Result<Option<SplitItem>, SplitFault>
        ensures { split_step self.new result ≡ spoiled_heard gap self.old octet }
    {
        match gap {
            Gap::Overlap => Err(SplitFault::Overlap),
            Gap::Response | Gap::Pause => Ok(self.begin(octet)),
            _ => {
                self.pass_over(1);
                Ok(None)
            }
        }
    }

    /// In what may be a message.
    pub(crate) fn hear_on_trial(
        &mut self,
        gap: Gap,
        octet: u8,
    ) -> Result<Option<SplitItem>, SplitFault>
        ensures { split_step self.new result ≡ trial_heard gap self.old octet }
    {
        match gap {
            Gap::Overlap => Err(SplitFault::Overlap),
            Gap::Close | Gap::Message => self.try_more(octet),
            Gap::Reply | Gap::Response => Ok(self.lose_item(1)),
            Gap::Pause => Ok(self.try_anew(octet)),
        }
    }

    /// One more octet of it.
    fn try_more(&mut self, octet: u8) -> Result<Option<SplitItem>, SplitFault>
        ensures { split_step self.new result ≡ tried_more self.old octet }
    {
        if self.sent.len() == LONGEST {
            return Ok(self.lose_item(1));
        }
        self.sent.push(octet);
        let found = self.layout_begun();
        self.try_in(found)
    }

    /// What the octets so far are in this layout, where it is known.
    fn try_in(&mut self, found: Result<Layout, Open>) -> Result<Option<SplitItem>, SplitFault>
        ensures { split_step self.new result ≡ tried_in self.old found }
    {
        match found {
            Ok(layout) => Ok(self.try_as(layout)),
            Err(why) => Err(SplitFault::NoLayout(why)),
        }
    }

    /// What the octets so far are in this layout.
    fn try_as(&mut self, layout: Layout) -> Option<SplitItem>
        ensures { good_step self.new result ≡ tried_as self.old layout }
    {
        let mode = self.mode_begun();
        match meaning_in(&layout, self.requests, self.sent.as_slice()) {
            Meaning::Part => None,
            Meaning::TestRead => {
                self.phase = Phase::Waking;
                Some(SplitItem::Resumed(mode))
            }
            Meaning::Whole | Meaning::ReadOrTest => {
                if view_master(&layout, self.sent.as_slice()).is_err() {
                    return self.lose_item(0);
                }
                self.await_reply(layout);
                Some(SplitItem::Resumed(mode))
            }
        }
    }

    /// An octet begins at this time that has a framing or parity error. None: what went over the
    /// line before isn't known. Refusal: 1 TimeBack.
    pub fn damaged(&mut self, time: u64) -> Result<Option<SplitItem>, SplitFault>
        ensures { split_step self.new result ≡ damage_split self.old time }
    {
        if time < self.last {
            return Err(SplitFault::TimeBack);
        }
        let gap = Gap::of(self.rate, time - self.last);
        self.last = time;
        Ok(match (self.phase, gap) {
            (Phase::Asleep | Phase::Waking, _) => {
                self.sent.clear();
                self.answer.clear();
                None
            }
            (Phase::Reply, Gap::Pause) => {
                let passed = self.exchange();
                self.lose(1);
                Some(passed)
            }
            (Phase::Reply, _) => Some(self.spoil(1)),
            _ => self.lose_item(1),
        })
    }

    /// The octet told last had such an error.
    pub fn damaged_before(&mut self) -> Option<SplitItem>
        ensures { good_step self.new result ≡ damaged_before self.old }
    {
        match self.phase {
            Phase::Asleep | Phase::Waking => {
                self.sent.clear();
                self.answer.clear();
                None
            }
            Phase::Damaged | Phase::Spoiled => None,
            Phase::Reply if !self.answer.is_empty() => Some(self.spoil(0)),
            Phase::Rest => self.lose_item(1),
            _ => self.lose_item(0),
        }
    }
}
