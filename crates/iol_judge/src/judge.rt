//! The judge.
ghost use Rattle.std.specs.Prelude.{◌≡◌, ◌∷◌, option_copied, [], Ok, Err, OnErr, IsTrue, length};
ghost use Rattle.iol_judge.specs.Observed.{whole_page};
ghost use Rattle.iol_judge.specs.Family.{no_kinds};
ghost use Rattle.iol_judge.specs.State.{KnownState, parts};
ghost use Rattle.iol_judge.specs.Taking.{and_then, taken_by_state};
ghost use Rattle.iol_judge.specs.Replies.{explained_as, explanation_of};
ghost use Rattle.iol_judge.specs.Judged.{concluded_lost, judge_after_exchange, judge_resumed, kinds_left, kinds_with, new_judge, page_after_reply, judge_after_wake};

use crate::events::ShownEvents;
use crate::kinds::Kinds;
use crate::next::{copy_states, lose, reply, wake};
use crate::observed::{KnownLayouts, ObservedPage};
use crate::octets::first_octet;
use crate::open::Open;
use crate::possible::PossibleState;
use crate::readable::is_readable;
use crate::reason::Reason;
use crate::taken::{Heard, NextStates, States};
use crate::verdict::{Odd, Verdict, Wake};
use iol_far::DeviceMode;
use iol_octets::{Channel, Mc};
use std::marker::Model;

/// A judge of one capture. It is told what went over the line, in its order, and has a verdict at
/// any time. What it keeps doesn't grow with the capture.
///
/// A clause sees what is known of the page, the states, the verdict, how many exchanges it was
/// told, and of odd replies what is done with them, that of the last exchange, and in how many
/// there was one.
#[derive(Drop)]
pub struct Judge {
    observed: ObservedPage,
    /// The layouts that it asks for.
    layouts: KnownLayouts,
    states: States,
    /// Where those after an exchange are put together, so that no turn makes room anew.
    next: NextStates,
    verdict: Verdict,
    exchanges: u64,
    odd: Odd,
    oddity: Option<Reason>,
    oddities: u64,
}

impl Model for Judge {
    ghost use Rattle.std.specs.Prelude.{◌≡◌};
    ghost use Rattle.iol_judge.specs.Judged.{JudgeState};
    ghost use Rattle.iol_judge.specs.Observed.{layouts_observed};

    ghost Value = { JudgeState };

    ghost view = { λ j. record {
      observed = j.observed;
      states = j.states.items;
      verdict = j.verdict;
      exchanges = j.exchanges;
      odd = j.odd;
      oddity = j.oddity;
      oddities = j.oddities;
    } };

    ghost invariant = { λ j. j.layouts ≡ layouts_observed j.observed };
}

impl Judge {
    /// A judge of a capture of which nothing is known, and what it does with odd replies.
    pub fn new(odd: Odd) -> Judge
        ensures { result ≡ new_judge odd }
    {
        let observed = ObservedPage::nothing();
        Judge {
            observed,
            layouts: observed.layouts(),
            states: States::new(),
            next: NextStates::none(),
            verdict: Verdict::Unjudged,
            exchanges: 0,
            odd,
            oddity: None,
            oddities: 0,
        }
    }

    /// The device has this page: the octets of 0x02 to 0x0B.
    pub fn page(&mut self, octets: &[u8; 10])
        ensures { self.new ≡ record self.old { observed = whole_page octets.now } }
    {
        self.observe(ObservedPage::whole(octets));
    }

    /// A wake-up request was sent.
    pub fn wake(&mut self, answer: Wake)
        ensures { self.new ≡ judge_after_wake self.old answer }
    {
        match (self.verdict, answer) {
            (Verdict::Unjudged, Wake::Answered) => self.begin(),
            (Verdict::Honest, _) => self.wake_all(answer),
            _ => {}
        }
    }

    /// These octets were sent, and those came in the time of a reply, if any.
    pub fn exchange(&mut self, sent: &[u8], answer: Option<&[u8]>)
        ensures { self.new ≡ judge_after_exchange self.old sent.now (option_copied answer.entry) }
    {
        self.exchanges = self.exchanges.saturating_add(1);
        self.oddity = None;
        if self.verdict != Verdict::Honest {
            return;
        }
        match answer {
            Some(octets) if is_readable(&self.layouts, sent, octets) => {
                self.hear_reply(sent, octets);
            }
            _ => self.hear_nothing(sent),
        }
    }

    /// Some of what went over the line isn't known. Now the device is awake in this mode, and no
    /// mode command waits there: the judge goes on, or begins. A verdict that is final stays.
    pub fn resume(&mut self, mode: DeviceMode)
        ensures { self.new ≡ judge_resumed self.old mode }
    {
        if !matches!(self.verdict, Verdict::Unjudged | Verdict::Honest) {
            return;
        }
        self.states.clear();
        self.states
            .push(PossibleState::resumed(mode, ShownEvents::Any));
        self.states
            .push(PossibleState::resumed(mode, ShownEvents::Held));
        self.verdict = Verdict::Honest;
    }

    /// What can be said so far.
    pub fn verdict(&self) -> Verdict
        ensures { result ≡ self.now.verdict }
    {
        self.verdict
    }

    /// Which kinds of device the exchanges so far admit: none where the verdict is `NotHonest`, and
    /// all where nothing is said.
    pub fn kinds(&self) -> Kinds
        ensures { result ≡ kinds_left self.now }
    {
        match self.verdict {
            Verdict::Honest => kinds_of(&self.states),
            Verdict::NotHonest(..) => Kinds::none(),
            Verdict::Unjudged | Verdict::CantSay(..) => Kinds::all(),
        }
    }

    /// What was odd in the last exchange, and passed over.
    pub fn oddity(&self) -> Option<Reason>
        ensures { result ≡ self.now.oddity }
    {
        self.oddity
    }

    /// In how many exchanges something was odd, and passed over: so many at least, of whatever
    /// device. The count stops at 2^64 - 1.
    pub fn oddities(&self) -> u64
        ensures { result ≡ self.now.oddities }
    {
        self.oddities
    }
}

impl Judge {
    ghost use Rattle.iol_judge.specs.State.{first_state};
    ghost use Rattle.iol_judge.specs.Judged.{each_in_turn, judge_after_reply, judge_without_reply, with_oddity, woken_into};
    ghost use Rattle.iol_judge.specs.declared.verdict.Verdict.TheVariants.{Honest, NotHonest};

    /// The first answered wake-up request.
    fn begin(&mut self)
        ensures { self.new
            ≡ record self.old { states = first_state ∷ []; verdict = Honest } }
    {
        self.states.clear();
        self.states.push(PossibleState::first());
        self.verdict = Verdict::Honest;
    }

    fn wake_all(&mut self, answer: Wake)
        ensures { self.new
            ≡ concluded_lost self.old (each_in_turn (woken_into answer) [] self.old.states) }
    {
        self.next.clear();
        match wake(&self.states, answer, &mut self.next.states) {
            Ok(()) => copy_states(&self.next.states, &mut self.states),
            Err(why) => self.verdict = Verdict::CantSay(self.exchanges, why),
        }
    }

    /// No reply came that can be read.
    fn hear_nothing(&mut self, sent: &[u8])
        ensures { self.new ≡ judge_without_reply self.old sent.now }
    {
        self.next.clear();
        match lose(&self.states, &self.layouts, sent, &mut self.next.states) {
            Ok(()) => copy_states(&self.next.states, &mut self.states),
            Err(why) => self.verdict = Verdict::CantSay(self.exchanges, why),
        }
    }

    /// A reply came that can be read: the states that explain it, or that there is none.
    fn hear_reply(&mut self, sent: &[u8], octets: &[u8])
        ensures { self.new ≡ judge_after_reply self.old sent.now octets.now }
    {
        if self.is_alone(sent) {
            self.hear_alone(sent, octets);
        } else {
            self.hear_all(sent, octets);
        }
    }

    /// Whether one state alone is left, of which all devices do the same on these octets.
    fn is_alone(&self, sent: &[u8]) -> bool
        ensures { IsTrue result → (state : KnownState) × (self.now.states ≡ state ∷ [])
            × (parts state sent.now ≡ state ∷ []) }
    {
        match self.states.as_slice() {
            [state] => !state.tells_apart(sent),
            _ => false,
        }
    }

    /// That state hears the reply where it lies.
    fn hear_alone(&mut self, sent: &[u8], octets: &[u8])
        requires { (state : KnownState) × (self.old.states ≡ state ∷ [])
            × (parts state sent.now ≡ state ∷ []) }
        ensures { self.new ≡ judge_after_reply self.old sent.now octets.now }
    {
        let (layouts, observed) = (&self.layouts, &self.observed);
        match explain_alone(&mut self.states, layouts, self.odd, observed, sent, octets) {
            Err(why) => self.verdict = Verdict::CantSay(self.exchanges, why),
            Ok(Heard::Refused(reason)) => self.blame(Reason::NotTaken.or_later(reason)),
            Ok(Heard::Explained(oddity)) => {
                self.note(sent, octets);
                self.pass_over(oddity);
            }
        }
    }

    /// Each of the states hears the reply.
    fn hear_all(&mut self, sent: &[u8], octets: &[u8])
        ensures { self.new ≡ judge_after_reply self.old sent.now octets.now }
    {
        self.next.clear();
        match reply(
            &self.states,
            &self.layouts,
            self.odd,
            &self.observed,
            sent,
            octets,
            &mut self.next,
        ) {
            Err(why) => self.verdict = Verdict::CantSay(self.exchanges, why),
            Ok(()) if self.next.states.is_empty() => {
                let reason = self.next.reason;
                self.blame(reason);
            }
            Ok(()) => {
                let oddity = self.next.oddity;
                copy_states(&self.next.states, &mut self.states);
                self.note(sent, octets);
                self.pass_over(oddity);
            }
        }
    }

    /// No state is left.
    fn blame(&mut self, reason: Reason)
        ensures { self.new ≡ record self.old {
          states = [];
          verdict = NotHonest self.old.exchanges reason;
        } }
    {
        self.states.clear();
        self.verdict = Verdict::NotHonest(self.exchanges, reason);
    }

    /// What is odd in the reply is counted.
    fn pass_over(&mut self, oddity: Option<Reason>)
        ensures { self.new ≡ with_oddity self.old oddity }
    {
        if oddity.is_some() {
            self.oddity = oddity;
            self.oddities = self.oddities.saturating_add(1);
        }
    }

    /// The octet of the page that a reply brings.
    fn note(&mut self, sent: &[u8], octets: &[u8])
        ensures { self.new
            ≡ record self.old {
              observed = page_after_reply self.old.observed sent.now octets.now;
            } }
    {
        let mc = Mc::from_octet(first_octet(sent));
        if mc.read && mc.channel == Channel::Page {
            let mut observed = self.observed;
            observed.note_reply(mc, octets);
            self.observe(observed);
        }
    }

    /// This is known of the page.
    fn observe(&mut self, observed: ObservedPage)
        ensures { self.new ≡ record self.old { observed = observed } }
    {
        self.observed = observed;
        self.layouts = observed.layouts();
    }
}

/// The one state hears a reply.
fn explain_alone(
    states: &mut States,
    layouts: &KnownLayouts,
    odd: Odd,
    observed: &ObservedPage,
    sent: &[u8],
    octets: &[u8],
) -> Result<Heard, Open>
    requires { length states.old.items ≡ 1 }
    ensures { (state : KnownState) → states.old.items ≡ state ∷ []
        → (left : KnownState) × (states.new.items ≡ left ∷ [])
        × (explained_as result left ≡ and_then (taken_by_state layouts.now state sent.now)
        (λ taken. Ok (explanation_of odd observed.now taken octets.now)))
        × OnErr result (left ≡ state) }
{
    states[0].explain(layouts, odd, observed, sent, octets)
}

/// The kinds that states stand for.
fn kinds_of(states: &[PossibleState]) -> Kinds
    ensures { result ≡ kinds_with no_kinds states.now }
{
    let mut kinds = Kinds::none();
    for state in states {
        kinds = kinds.with(&state.kinds);
    }
    kinds
}
