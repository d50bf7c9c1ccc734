//! The states that come of an exchange.
ghost use Rattle.std.specs.Prelude.{◌≡◌, ◌≤◌, [], Ok, Err, length};
ghost use Rattle.iol_judge.specs.State.{all_parts};
ghost use Rattle.iol_judge.specs.Judged.{states_with, each_in_turn, has_state, lost_into, lost_part, replied_into, replied_part, result_with, uncovered_states, united_state, woken_into};

use crate::observed::{KnownLayouts, ObservedPage};
use crate::open::Open;
use crate::possible::PossibleState;
use crate::reason::Reason;
use crate::taken::{Heard, MAX_STATES, NextStates, States};
use crate::verdict::{Odd, Wake};

/// Puts a state to the others, where none of them covers it: in the place of those that it covers,
/// and, for their kinds too, of those that are alike.
pub(crate) fn add(states: &mut States, mut state: PossibleState) -> Result<(), Open>
    ensures { result_with result states.new.items ≡ states_with states.old.items state }
{
    if has_state(states, &state) {
        return Ok(());
    }
    unite(states, &mut state);
    remove_covered(states, &state);
    if states.len() == MAX_STATES {
        return Err(Open::TooManyStates);
    }
    states.push(state);
    Ok(())
}

/// Gives a state the kinds of those that are alike.
fn unite(states: &[PossibleState], state: &mut PossibleState)
    ensures { state.new ≡ united_state states.now state.old }
{
    for other in states {
        if other.is_alike(state) {
            state.kinds = state.kinds.with(&other.kinds);
        }
    }
}

/// Copies states into the place of others, one by one: most often they are few.
pub(crate) fn copy_states(from: &[PossibleState], into: &mut States)
    requires { length from.now ≤ MAX_STATES }
    ensures { into.new.items ≡ from.now }
{
    into.clear();
    for state in from {
        into.push(state.copy());
    }
}

/// Whether one of the others covers a state.
fn has_state(states: &[PossibleState], state: &PossibleState) -> bool
    ensures { result ≡ has_state states.now state.now }
{
    states.iter().any(|other| other.covers(state))
}

/// Takes out those that a state covers.
fn remove_covered(states: &mut States, state: &PossibleState)
    ensures { states.new.items ≡ uncovered_states states.old.items state.now }
{
    states.retain(|other| !state.covers(other));
}

/// The states after an exchange without a reply that can be read: each as it was, for the message
/// may be lost, and with the message worked, for the reply may be.
pub(crate) fn lose(
    states: &[PossibleState],
    layouts: &KnownLayouts,
    sent: &[u8],
    next: &mut States,
) -> Result<(), Open>
    ensures { result_with result next.new.items
        ≡ each_in_turn (lost_into layouts.now sent.now) next.old.items states.now }
{
    for state in states {
        lose_one(state, layouts, sent, next)?;
    }
    Ok(())
}

/// One of them.
fn lose_one(
    state: &PossibleState,
    layouts: &KnownLayouts,
    sent: &[u8],
    next: &mut States,
) -> Result<(), Open>
    ensures { result_with result next.new.items
        ≡ lost_into layouts.now sent.now next.old.items state.now }
{
    let unheard = state.copy();
    add(next, unheard)?;
    if state.tells_apart(sent) {
        lose_apart(state, layouts, sent, next)
    } else {
        lose_part(state, layouts, sent, next)
    }
}

/// The states after the message was worked by what one state stands for, told apart by kinds.
// Its locals are large, and seldom needed.
#[inline(never)]
fn lose_apart(
    state: &PossibleState,
    layouts: &KnownLayouts,
    sent: &[u8],
    next: &mut States,
) -> Result<(), Open>
    ensures { result_with result next.new.items
        ≡ each_in_turn (lost_part layouts.now sent.now) next.old.items (all_parts state.now) }
{
    for part in state.parts().as_slice() {
        lose_part(part, layouts, sent, next)?;
    }
    Ok(())
}

/// One of them.
fn lose_part(
    part: &PossibleState,
    layouts: &KnownLayouts,
    sent: &[u8],
    next: &mut States,
) -> Result<(), Open>
    ensures { result_with result next.new.items
        ≡ lost_part layouts.now sent.now next.old.items part.now }
{
    let mut state = part.copy();
    match state.work(layouts, sent)? {
        Some(_) => add(next, state),
        None => Ok(()),
    }
}

impl NextStates {
    ghost use Rattle.iol_judge.specs.Judged.{explained_into, no_next};
    ghost use Rattle.iol_judge.specs.Replies.{By};

    /// None yet.
    pub fn none() -> NextStates
        ensures { result ≡ no_next }
    {
        NextStates {
            states: States::new(),
            reason: Reason::NotTaken,
            oddity: None,
        }
    }

    /// None yet, where some were.
    pub fn clear(&mut self)
        ensures { self.new ≡ no_next }
    {
        self.states.clear();
        self.reason = Reason::NotTaken;
        self.oddity = None;
    }

    /// One more state explains the reply, with what is odd then.
    fn add(&mut self, state: PossibleState, oddity: Option<Reason>) -> Result<(), Open>
        ensures { result_with result self.new ≡ explained_into self.old (By state oddity) }
    {
        if self.states.is_empty() || oddity.is_none() {
            self.oddity = oddity;
        }
        add(&mut self.states, state)
    }
}

/// The states after a reply that can be read: each that explains it.
pub(crate) fn reply(
    states: &[PossibleState],
    layouts: &KnownLayouts,
    odd: Odd,
    observed: &ObservedPage,
    sent: &[u8],
    octets: &[u8],
    next: &mut NextStates,
) -> Result<(), Open>
    ensures { result_with result next.new ≡ each_in_turn
        (replied_into layouts.now odd observed.now sent.now octets.now) next.old states.now }
{
    for state in states {
        reply_one(state, layouts, odd, observed, sent, octets, next)?;
    }
    Ok(())
}

/// One of them.
fn reply_one(
    state: &PossibleState,
    layouts: &KnownLayouts,
    odd: Odd,
    observed: &ObservedPage,
    sent: &[u8],
    octets: &[u8],
    next: &mut NextStates,
) -> Result<(), Open>
    ensures { result_with result next.new
        ≡ replied_into layouts.now odd observed.now sent.now octets.now next.old state.now }
{
    if state.tells_apart(sent) {
        reply_apart(state, layouts, odd, observed, sent, octets, next)
    } else {
        reply_part(state, layouts, odd, observed, sent, octets, next)
    }
}

/// The states after a reply of what one state stands for, told apart by kinds.
// Its locals are large, and seldom needed.
#[inline(never)]
fn reply_apart(
    state: &PossibleState,
    layouts: &KnownLayouts,
    odd: Odd,
    observed: &ObservedPage,
    sent: &[u8],
    octets: &[u8],
    next: &mut NextStates,
) -> Result<(), Open>
    ensures { result_with result next.new ≡ each_in_turn
        (replied_part layouts.now odd observed.now sent.now octets.now) next.old
        (all_parts state.now) }
{
    for part in state.parts().as_slice() {
        reply_part(part, layouts, odd, observed, sent, octets, next)?;
    }
    Ok(())
}

/// One of them.
fn reply_part(
    part: &PossibleState,
    layouts: &KnownLayouts,
    odd: Odd,
    observed: &ObservedPage,
    sent: &[u8],
    octets: &[u8],
    next: &mut NextStates,
) -> Result<(), Open>
    ensures { result_with result next.new
        ≡ replied_part layouts.now odd observed.now sent.now octets.now next.old part.now }
{
    let mut state = part.copy();
    match state.explain(layouts, odd, observed, sent, octets)? {
        Heard::Explained(oddity) => next.add(state, oddity),
        Heard::Refused(reason) => {
            next.reason = next.reason.or_later(reason);
            Ok(())
        }
    }
}

/// The states after a wake-up request: each as woken, as it is or after a power cycle, and, where
/// it wasn't answered, as it was too, for the request may be lost.
pub(crate) fn wake(states: &[PossibleState], wake: Wake, next: &mut States) -> Result<(), Open>
    ensures { result_with result next.new.items
        ≡ each_in_turn (woken_into wake) next.old.items states.now }
{
    for state in states {
        wake_one(state, wake, next)?;
    }
    Ok(())
}

/// One of them.
fn wake_one(state: &PossibleState, wake: Wake, next: &mut States) -> Result<(), Open>
    ensures { result_with result next.new.items ≡ woken_into wake next.old.items state.now }
{
    if wake == Wake::Unanswered {
        add(next, state.copy())?;
    }
    add(next, state.woken())?;
    add(next, state.powered())
}
