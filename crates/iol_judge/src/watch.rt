//! The watch.
ghost use Rattle.std.specs.Prelude.{◌≡◌, option_copied};
ghost use Rattle.iol_judge.specs.Observed.{whole_page};
ghost use Rattle.iol_judge.specs.Watched.{watch_after_exchange, new_watch, watch_with_page, watch_after_wake};

use crate::master::MasterState;
use crate::master_verdict::MasterVerdict;
use crate::observed::ObservedPage;
use crate::verdict::Wake;
use std::marker::Model;
use std::mem::replace;

/// A watch of the master's side of one capture. It is told what went over the line, in its order,
/// and has a verdict at any time. What it keeps doesn't grow with the capture.
///
/// A clause sees what was told of the page, how far the master has come, the verdict, and how many
/// exchanges it was told.
#[derive(Drop)]
pub struct Watch {
    preset: ObservedPage,
    master: MasterState,
    verdict: MasterVerdict,
    exchanges: u64,
}

impl Model for Watch {
    ghost use Rattle.iol_judge.specs.Watched.{WatchState};

    ghost Value = { WatchState };

    ghost view = { λ w. record {
      preset = w.preset;
      master = w.master;
      verdict = w.verdict;
      exchanges = w.exchanges;
    } };
}

impl Watch {
    /// A watch of a capture of which nothing is known.
    pub fn new() -> Watch
        ensures { result ≡ new_watch }
    {
        Watch {
            preset: ObservedPage::nothing(),
            master: MasterState::new(),
            verdict: MasterVerdict::Unjudged,
            exchanges: 0,
        }
    }

    /// The device has this page: the octets of 0x02 to 0x0B. The master may know it without a
    /// start-up that reads it.
    pub fn page(&mut self, octets: &[u8; 10])
        ensures { self.new ≡ watch_with_page self.old (whole_page octets.now) }
    {
        self.preset = ObservedPage::whole(octets);
        self.master.observed = self.preset;
    }

    /// A wake-up request was sent. It is by the rules at any time: a restart.
    pub fn wake(&mut self, answer: Wake)
        ensures { self.new ≡ watch_after_wake self.old answer }
    {
        if let MasterVerdict::NotByTheRules(..) = self.verdict {
            return;
        }
        self.verdict = MasterVerdict::ByTheRules;
        let master = replace(&mut self.master, MasterState::new());
        self.master = master.woken(self.preset, answer);
    }

    /// These octets were sent, and those came in the time of a reply, if any.
    pub fn exchange(&mut self, sent: &[u8], answer: Option<&[u8]>)
        ensures { self.new ≡ watch_after_exchange self.old sent.now (option_copied answer.entry) }
    {
        self.exchanges = self.exchanges.saturating_add(1);
        if self.verdict != MasterVerdict::ByTheRules {
            return;
        }
        match self.master.send(sent) {
            Ok(()) => self.master.hear(sent, answer),
            Err(fault) => {
                self.master = MasterState::new();
                self.verdict = MasterVerdict::NotByTheRules(self.exchanges, fault);
            }
        }
    }

    /// What can be said so far.
    pub fn verdict(&self) -> MasterVerdict
        ensures { result ≡ self.now.verdict }
    {
        self.verdict
    }
}
