//! What a drain takes out of a journal, and the numbers that the lines which stay have then.
#![tactic(auto, using(std::proofs::lemmas::Grind::common_steps, crate::proofs::LineLemmas::line_steps))]

ghost use Rattle.std.specs.Prelude.{◌≡◌, ◌≤◌, ◌+◌, ◌++◌, [], length, drop, None, false, filter};
ghost use Rattle.std.specs.Vec.{vec_len, vec_capacity};
ghost use Rattle.std.specs.VecDeque.{deque_capacity};
ghost use Rattle.std.specs.Option.{option_map_or, option_to_list};
ghost use Rattle.iol_book.specs.Replay.{same_ticket};
ghost use Rattle.iol_book.specs.Lines.{entry_ticket, is_still_open_by, lines_after, with_numbers, moved_number};
ghost use Rattle.iol_book.specs.Drained.{last_taken, in_doubt};
ghost use Rattle.iol_book.specs.JournalModel.{octet_sum, HasPlaces};

use crate::lines::{Outcomes, Queue, is_line_of, outcome_at, place_in};
use crate::{Entry, Journal, Ticket};
use std::alloc::Allocator;

// A copy of each entry, at the end of a list that has room for them.
pub(crate) fn copy_entries<A: Allocator + Copy>(journal: &Journal<A>, list: &mut Journal<A>)
    requires { HasPlaces list.old (length journal.now.items) (octet_sum journal.now.items) }
    ensures items { list.new.items ≡ list.old.items ++ journal.now.items }
    ensures places { list.new.places ≡ list.old.places }
    ensures octet_places { list.new.octet_places ≡ list.old.octet_places }
{
    for place in 0..journal.len() {
        list.push(&journal.entry_at(place));
    }
}

// The ticket in doubt.
pub(crate) fn in_doubt<A: Allocator + Copy>(unsure: bool, journal: &Journal<A>) -> Option<Ticket>
    ensures { result ≡ in_doubt unsure journal.now.items }
{
    if !unsure {
        return None;
    }
    last_taken(journal)
}

// The ticket that was taken last.
fn last_taken<A: Allocator + Copy>(journal: &Journal<A>) -> Option<Ticket>
    ensures { result ≡ last_taken None journal.now.items }
{
    let mut last = None;
    for place in 0..journal.len() {
        if let Entry::Taken(ticket) = journal.entry_at(place) {
            last = Some(ticket);
        }
    }
    last
}

// Whether a ticket is outstanding, by the lines of those that are, or in doubt.
fn is_still_open<A: Allocator>(
    ticket: Ticket,
    doubt: Option<Ticket>,
    urgent: &Queue<A>,
    waiting: &Queue<A>,
    taken: Option<(Ticket, usize)>,
    outcomes: &[(Ticket, usize)],
) -> bool
    ensures { result ≡ is_still_open_by doubt urgent.now.items waiting.now.items taken outcomes.now
        ticket }
{
    place_in(urgent, ticket).is_some()
        || place_in(waiting, ticket).is_some()
        || is_line_of(taken, ticket)
        || outcome_at(outcomes, ticket).is_some()
        || is_in_doubt(doubt, ticket)
}

// Whether a ticket is the one in doubt.
fn is_in_doubt(doubt: Option<Ticket>, ticket: Ticket) -> bool
    ensures { result ≡ option_map_or (same_ticket ticket) doubt false }
{
    match doubt {
        Some(own) => own == ticket,
        None => false,
    }
}

// Gives each line the number that it has once the entries of all tickets that aren't open are gone.
pub(crate) fn renumber<A: Allocator + Copy>(
    journal: &Journal<A>,
    doubt: Option<Ticket>,
    urgent: &mut Queue<A>,
    waiting: &mut Queue<A>,
    taken: &mut Option<(Ticket, usize)>,
    outcomes: &mut Outcomes<A>,
)
    ensures urgent { urgent.new.items ≡ lines_after (is_still_open_by doubt urgent.old.items
        waiting.old.items taken.old outcomes.old.items) journal.now.items urgent.old.items }
    ensures waiting { waiting.new.items ≡ lines_after (is_still_open_by doubt urgent.old.items
        waiting.old.items taken.old outcomes.old.items) journal.now.items waiting.old.items }
    ensures taken { option_to_list taken.new ≡ lines_after (is_still_open_by doubt urgent.old.items
        waiting.old.items taken.old outcomes.old.items) journal.now.items
        (option_to_list taken.old) }
    ensures outcomes { outcomes.new.items ≡ lines_after (is_still_open_by doubt urgent.old.items
        waiting.old.items taken.old outcomes.old.items) journal.now.items outcomes.old.items }
    ensures urgent_room { deque_capacity urgent.new ≡ deque_capacity urgent.old }
    ensures queue_room { deque_capacity waiting.new ≡ deque_capacity waiting.old }
    ensures outcome_room { vec_capacity outcomes.new ≡ vec_capacity outcomes.old }
{
    let mut retained = 0;
    for line in 0..journal.len() {
        let ticket = journal.ticket_at(line);
        if is_still_open(ticket, doubt, urgent, waiting, *taken, outcomes) {
            move_queue(urgent, line, retained);
            move_queue(waiting, line, retained);
            move_taken(taken, line, retained);
            move_outcomes(outcomes, line, retained);
            retained += 1;
        }
    }
}

// The line with this number gets another one.
fn move_queue<A: Allocator>(queue: &mut Queue<A>, from: usize, to: usize)
    ensures lines { queue.new.items ≡ with_numbers (moved_number from to) queue.old.items }
    ensures room { deque_capacity queue.new ≡ deque_capacity queue.old }
{
    queue.retain_mut(|line| {
        line.1 = moved_number(line.1, from, to);
        true
    });
}

// The same among the outcomes.
fn move_outcomes<A: Allocator>(outcomes: &mut Outcomes<A>, from: usize, to: usize)
    ensures lines { outcomes.new.items ≡ with_numbers (moved_number from to) outcomes.old.items }
    ensures room { vec_capacity outcomes.new ≡ vec_capacity outcomes.old }
{
    outcomes.retain_mut(|line| {
        line.1 = moved_number(line.1, from, to);
        true
    });
}

// The same of the request that is taken.
fn move_taken(taken: &mut Option<(Ticket, usize)>, from: usize, to: usize)
    ensures { option_to_list taken.new
        ≡ with_numbers (moved_number from to) (option_to_list taken.old) }
{
    if let Some((_, line)) = taken {
        *line = moved_number(*line, from, to);
    }
}

// A number that is this one becomes another.
fn moved_number(number: usize, from: usize, to: usize) -> usize
    ensures { result ≡ moved_number from to number }
{
    if number == from { to } else { number }
}

// Puts the entries of all tickets that are open, of those of a list from a place on, into a journal
// that has none.
pub(crate) fn keep_open<A: Allocator + Copy>(
    journal: &mut Journal<A>,
    list: &Journal<A>,
    first: usize,
    doubt: Option<Ticket>,
    urgent: &Queue<A>,
    waiting: &Queue<A>,
    taken: Option<(Ticket, usize)>,
    outcomes: &[(Ticket, usize)],
)
    requires empty { journal.old.items ≡ [] }
    requires fits { HasPlaces journal.old (length (drop first list.now.items))
        (octet_sum (drop first list.now.items)) }
    ensures entries { journal.new.items ≡ filter (λ e. is_still_open_by doubt urgent.now.items
        waiting.now.items taken outcomes.now (entry_ticket e)) (drop first list.now.items) }
    ensures places { journal.new.places ≡ journal.old.places }
    ensures octet_places { journal.new.octet_places ≡ journal.old.octet_places }
{
    for place in first..list.len() {
        let entry = list.entry_at(place);
        if is_still_open(entry.ticket(), doubt, urgent, waiting, taken, outcomes) {
            journal.push(&entry);
        }
    }
}
