//! A plan, as far as its lines are read.
ghost use Rattle.std.specs.Prelude.{◌≡◌, ◌≤◌, IfSome};
ghost use Rattle.iol_script.specs.Plan.{plan_draft_after, field_of, shown_by, words_after, IsPlanned};
ghost use Rattle.iol_script.specs.Text.{words_left};

use crate::fields::{end_of, is};
use crate::numerals::decimal_number;
use crate::parts::Words;
use crate::plan::ShownCounts;

/// The most requests that the clients of one port submit.
const REQUESTS: u32 = 64;

/// A plan, as far as its lines are read.
#[derive(Clone, Copy, Debug, PartialEq, Eq)]
pub(crate) enum PlanDraft {
    /// No line is read.
    Empty,
    /// How many ports there are.
    Ports(u32),
    /// That, and how many clients each port has.
    Clients(u32, u32),
    /// Both, and how many requests each client submits.
    Each(u32, u32, u32),
    /// All three, how many turns each port makes, and what is shown of it: no line is missing.
    Turns(u32, u32, u32, u32, ShownCounts),
}

impl PlanDraft {
    /// One more line is read, where it is good in its place.
    pub(crate) fn after(self, line: &[u8]) -> Option<PlanDraft>
        requires { IsPlanned self }
        ensures draft { result ≡ plan_draft_after self line.now }
        ensures planned { IfSome result IsPlanned }
    {
        self.after_words(Words::of(line)?)
    }

    /// A line without words says nothing.
    fn after_words(self, mut words: Words) -> Option<PlanDraft>
        requires { IsPlanned self }
        ensures draft { result ≡ words_after self (words_left words.entry) }
        ensures planned { IfSome result IsPlanned }
    {
        let Some(name) = words.next() else {
            return Some(self);
        };
        match self {
            PlanDraft::Empty => {
                let ports = field_of(name, b"ports", 32, words)?;
                Some(PlanDraft::Ports(ports))
            }
            PlanDraft::Ports(ports) => {
                let clients = field_of(name, b"clients", 16, words)?;
                Some(PlanDraft::Clients(ports, clients))
            }
            PlanDraft::Clients(ports, clients) => {
                let each = field_of(name, b"each", 64, words)?;
                if clients * each > REQUESTS {
                    return None;
                }
                Some(PlanDraft::Each(ports, clients, each))
            }
            PlanDraft::Each(ports, clients, each) => {
                let turns = field_of(name, b"turns", 100_000, words)?;
                Some(PlanDraft::Turns(ports, clients, each, turns, ShownCounts::Tickets))
            }
            PlanDraft::Turns(ports, clients, each, turns, ShownCounts::Tickets) => {
                let shown = shown_by(name, words)?;
                Some(PlanDraft::Turns(ports, clients, each, turns, shown))
            }
            PlanDraft::Turns(..) => None,
        }
    }
}

/// What a line that follows the four shows: `counters`, and nothing behind it.
fn shown_by(name: &[u8], words: Words) -> Option<ShownCounts>
    ensures { result ≡ shown_by name.now (words_left words.entry) }
{
    if !is(name, b"counters") {
        return None;
    }
    end_of(words)?;
    Some(ShownCounts::Counters)
}

/// The number of a line of this name, 1 to `most`.
fn field_of(name: &[u8], wanted: &[u8], most: u32, mut words: Words) -> Option<u32>
    ensures value { result ≡ field_of name.now wanted.now most (words_left words.entry) }
    ensures least { IfSome result (λ n. 1 ≤ n) }
    ensures most { IfSome result (λ n. n ≤ most) }
{
    if !is(name, wanted) {
        return None;
    }
    let number = decimal_number(words.next()?, 1, u64::from(most))?;
    end_of(words)?;
    Some(number as u32)
}
