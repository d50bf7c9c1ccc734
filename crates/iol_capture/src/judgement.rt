//! A judge of the device and a watch of the master, told what went over the line.
ghost use Rattle.std.specs.Prelude.{◌≡◌, ◌==◌, option_copied};
ghost use Rattle.iol_judge.specs.Judged.{one_more};
ghost use Rattle.iol_capture.specs.Judging.{judging_after_exchange, judging_in_call, counts_after_exchange, is_verdict_open, maybe_woken, new_judging, no_counts, judging_with_page, passed_next, line_skipped, passed_on, judging_in_mode, wake_judged, with_odd};

use crate::passed::SplitItem;
use crate::spacing::RateDoubt;
use crate::watching::CallWatch;
use arrayvec::ArrayVec;
use iol_far::DeviceMode;
use iol_judge::{Judge, Odd, Reason, Verdict, Wake};
use std::marker::Model;

/// How many exchanges there were. Each count stops at 2^64 - 1.
#[derive(Clone, Copy, Debug, PartialEq, Eq)]
pub(crate) struct ExchangeCounts {
    /// Those before the first answered wake-up request.
    pub unjudged: u64,
    /// Those that were judged.
    pub judged: u64,
    /// Of these, those in which nothing came back.
    pub lost: u64,
}

impl ExchangeCounts {
    /// None.
    fn none() -> ExchangeCounts
        ensures { result ≡ no_counts }
    {
        ExchangeCounts {
            unjudged: 0,
            judged: 0,
            lost: 0,
        }
    }

    /// One more exchange, while the verdict was this.
    fn with(self, verdict: Verdict, received: Option<&[u8]>) -> ExchangeCounts
        ensures { result ≡ counts_after_exchange verdict self (option_copied received.entry) }
    {
        let mut counts = self;
        match verdict {
            Verdict::Unjudged => counts.unjudged = one_more(self.unjudged),
            Verdict::Honest => {
                counts.judged = one_more(self.judged);
                if received.is_none() {
                    counts.lost = one_more(self.lost);
                }
            }
            Verdict::NotHonest(..) | Verdict::CantSay(..) => {}
        }
        counts
    }
}

/// One more, up to the largest number.
pub(crate) fn one_more(count: u64) -> u64
    ensures { result ≡ one_more count }
{
    count.saturating_add(1)
}

/// How many odd exchanges are shown.
pub(crate) const ODD_SHOWN: usize = 100;

/// An exchange in which something is odd, and passed over.
#[derive(Clone, Copy, Debug, PartialEq, Eq)]
pub(crate) struct OddExchange {
    pub call: u64,
    pub reason: Reason,
}

impl Default for OddExchange {
    fn default() -> OddExchange {
        OddExchange {
            call: 0,
            reason: Reason::NotTaken,
        }
    }
}

/// The first odd exchanges.
pub(crate) type OddExchanges = ArrayVec<OddExchange, ODD_SHOWN>;

/// What a judge of the device, and a watch of the master, make of a capture.
#[derive(Drop)]
pub struct Judgement {
    pub(crate) judge: Judge,
    /// The same of the master.
    pub(crate) watching: CallWatch,
    /// The number of the last call of the wire, 0 before the first.
    pub(crate) call: u64,
    /// The call on which the verdict rests.
    pub(crate) decided: u64,
    pub(crate) counts: ExchangeCounts,
    pub(crate) odd: OddExchanges,
    /// How many octets were passed over.
    pub(crate) passed_over: u64,
    /// How many lines were skipped.
    pub(crate) skipped: u64,
    /// Why the rate of the line can't be the one that was given.
    pub(crate) rate_doubt: Option<RateDoubt>,
}

impl Model for Judgement {
    ghost use Rattle.iol_capture.specs.Judging.{Judging};
    ghost use Rattle.std.specs.Prelude.{None};

    ghost Value = { Judging };

    ghost view = { λ j. record {
      judged = j.judge;
      watching = j.watching;
      call = j.call;
      sent = None;
      decided = j.decided;
      counts = j.counts;
      odd = j.odd.items;
      passed_over = j.passed_over;
      skipped = j.skipped;
      rate_doubt = j.rate_doubt;
    } };
}

impl Judgement {
    /// Nothing was told.
    pub(crate) fn new(odd: Odd) -> Judgement
        ensures { result ≡ new_judging odd }
    {
        Judgement {
            judge: Judge::new(odd),
            watching: CallWatch::new(),
            call: 0,
            decided: 0,
            counts: ExchangeCounts::none(),
            odd: OddExchanges::new(),
            passed_over: 0,
            skipped: 0,
            rate_doubt: None,
        }
    }

    /// The page counts before the first call alone: later it is what a port read.
    pub(crate) fn submit_page(&mut self, octets: &[u8; 10])
        ensures { self.new ≡ judging_with_page self.old octets.now }
    {
        if self.call == 0 {
            self.judge.page(octets);
            self.watching.page(octets);
        }
    }

    /// A wake-up request was made.
    pub(crate) fn wake(&mut self, answer: Wake)
        ensures { self.new ≡ wake_judged self.old answer }
    {
        self.judge.wake(answer);
        self.watching.wake(answer);
    }

    /// A wake-up request may have been made that isn't shown, and wasn't answered.
    pub(crate) fn maybe_wake(&mut self)
        ensures { self.new ≡ maybe_woken self.old }
    {
        self.judge.wake(Wake::Unanswered);
        self.watching.expect_test_read();
    }

    /// A line was skipped.
    pub(crate) fn skip(&mut self)
        ensures { self.new ≡ line_skipped self.old }
    {
        self.skipped = one_more(self.skipped);
    }

    /// Whether no call was told.
    pub(crate) fn has_no_call(&self) -> bool
        ensures { result ≡ (self.now.call == 0) }
    {
        self.call == 0
    }

    /// Behind octets that were passed over, the device is in this mode.
    pub(crate) fn resume(&mut self, mode: DeviceMode)
        ensures { self.new ≡ judging_in_mode self.old mode }
    {
        self.judge.resume(mode);
        self.watching.miss(one_more(self.call));
    }

    /// The call of this number has begun.
    pub(crate) fn call(&mut self, number: u64)
        ensures { self.new ≡ judging_in_call self.old number }
    {
        self.call = number;
        if is_open(self.judge.verdict()) {
            self.decided = number;
        }
    }

    /// A message, and what came back.
    pub(crate) fn exchange(&mut self, sent: &[u8], received: Option<&[u8]>)
        ensures { self.new
            ≡ judging_after_exchange self.old sent.now (option_copied received.entry) }
    {
        self.counts = self.counts.with(self.judge.verdict(), received);
        self.judge.exchange(sent, received);
        self.watching.exchange(self.call, sent, received);
        note_odd(&mut self.odd, self.call, self.judge.oddity());
    }

    /// What went over the line next, in the call of this number.
    pub(crate) fn pass_next(&mut self, passed: &SplitItem) -> u64
        ensures judged { self.new ≡ passed_next self.old passed.now }
        ensures number { result ≡ one_more self.old.call }
    {
        let number = one_more(self.call);
        self.call(number);
        self.pass(passed);
        number
    }

    /// What went over the line, in the call that began last.
    fn pass(&mut self, passed: &SplitItem)
        ensures { self.new ≡ passed_on self.old passed.now }
    {
        match passed {
            SplitItem::Wake(answer) => self.wake(*answer),
            SplitItem::Resumed(mode) => self.resume(*mode),
            SplitItem::Exchange(exchange) => self.exchange(
                exchange.sent.as_slice(),
                exchange.answer.as_ref().map(|octets| octets.as_slice()),
            ),
        }
    }
}

/// Where something was odd in an exchange, and passed over, it is noted, while there is room.
fn note_odd(odd: &mut OddExchanges, call: u64, oddity: Option<Reason>)
    ensures { odd.new.items ≡ with_odd odd.old.items call oddity }
{
    if let Some(reason) = oddity {
        // Past the first of them they are counted only.
        let _ = odd.try_push(OddExchange { call, reason });
    }
}

/// Whether more can change a verdict.
fn is_open(verdict: Verdict) -> bool
    ensures { result ≡ is_verdict_open verdict }
{
    matches!(verdict, Verdict::Unjudged | Verdict::Honest)
}
