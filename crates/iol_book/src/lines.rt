//! The lines of the journal that a book keeps: of each outstanding ticket the one that has its
//! request, or its outcome.
#![tactic(auto, using(std::proofs::lemmas::Grind::common_steps, crate::proofs::LineLemmas::line_steps))]

ghost use Rattle.std.specs.Prelude.{◌≡◌, ◌<◌, ◌+◌, ◌++◌, ◌||◌, IsTrue, length, remove, position, find, is_some, IfSome, IfNone, false};
ghost use Rattle.std.specs.Map.{remove_entry};
ghost use Rattle.std.specs.Option.{option_map_or};
ghost use Rattle.std.specs.VecDeque.{deque_capacity};
ghost use Rattle.iol_book.specs.Replay.{same_ticket, is_among, without, others_without};
ghost use Rattle.iol_book.specs.Lines.{IsLineAt};
ghost use Rattle.iol_book.specs.BookModel.{is_served};

use crate::{Serve, Ticket};
use std::alloc::Allocator;
use std::collections::VecDeque;

// Requests that wait, the one that waited longest first: of each the line of the journal that
// has it.
pub(crate) type Queue<A> = VecDeque<(Ticket, usize), A>;

// Outcomes that wait to be collected, in the order in which the requests ended: of each the line
// of the journal that says it.
pub(crate) type Outcomes<A> = Vec<(Ticket, usize), A>;

// Whether there is a line, and it is the ticket's.
pub(crate) fn is_line_of(line: Option<(Ticket, usize)>, ticket: Ticket) -> bool
    ensures { result ≡ option_map_or (λ own. same_ticket ticket own.0) line false }
{
    match line {
        Some((own, _)) => own == ticket,
        None => false,
    }
}

// Where the ticket stands in a queue.
pub(crate) fn place_in<A: Allocator>(queue: &Queue<A>, ticket: Ticket) -> Option<usize>
    ensures found { is_some result ≡ is_among ticket queue.now.items }
    ensures within { IfSome result (λ i. i < length queue.now.items) }
    ensures none { IfNone result (without ticket queue.now.items ≡ queue.now.items) }
    ensures rest { IfSome result (λ i. remove queue.now.items i ≡ without ticket queue.now.items) }
{
    first_at(queue, ticket)
}

// Where the ticket stands among those that have an outcome.
pub(crate) fn outcome_at(outcomes: &[(Ticket, usize)], ticket: Ticket) -> Option<usize>
    ensures found { is_some result ≡ is_among ticket outcomes.now }
    ensures within { IfSome result (λ i. i < length outcomes.now) }
    ensures its_own { IfSome result (IsLineAt ticket outcomes.now) }
    ensures rest { IfSome result (λ i. remove outcomes.now i
        ≡ remove_entry (same_ticket ticket) outcomes.now) }
{
    place_of(outcomes, ticket)
}

fn place_of(outcomes: &[(Ticket, usize)], ticket: Ticket) -> Option<usize>
    ensures { result ≡ position (λ w. same_ticket ticket w.0) outcomes.now }
{
    outcomes.iter().position(|w| ticket == w.0)
}

fn first_at<A: Allocator>(queue: &Queue<A>, ticket: Ticket) -> Option<usize>
    ensures { result ≡ position (λ w. same_ticket ticket w.0) queue.now.items }
{
    queue.iter().position(|w| ticket == w.0)
}

// The first of a queue that is served.
fn first_served<A: Allocator>(queue: &Queue<A>, serve: Serve) -> Option<(Ticket, usize)>
    ensures { result ≡ find (λ w. is_served serve w.0) queue.now.items }
{
    let place = served_at(queue, serve)?;
    let line = queue.get(place)?;
    Some(*line)
}

fn served_at<A: Allocator>(queue: &Queue<A>, serve: Serve) -> Option<usize>
    ensures { result ≡ position (λ w. is_served serve w.0) queue.now.items }
{
    queue.iter().position(|w| serve.serves(w.0))
}

// The request that is taken next, by its line.
/// Rule BOOK-4.
pub(crate) fn next_of<A: Allocator>(
    urgent: &Queue<A>,
    waiting: &Queue<A>,
    serve: Serve,
) -> Option<(Ticket, usize)>
    ensures { result
        ≡ find (λ w. is_served serve w.0) (urgent.now.items ++ waiting.now.items) }
{
    match first_served(urgent, serve) {
        Some(first) => Some(first),
        None => first_served(waiting, serve),
    }
}

// It leaves its queue.
pub(crate) fn pop_next<A: Allocator>(
    urgent: &mut Queue<A>,
    waiting: &mut Queue<A>,
    serve: Serve,
) -> Option<(Ticket, usize)>
    ensures next { result
        ≡ find (λ w. is_served serve w.0) (urgent.old.items ++ waiting.old.items) }
    ensures no_urgent { IfNone result (urgent.new.items ≡ urgent.old.items) }
    ensures no_other { IfNone result (waiting.new.items ≡ waiting.old.items) }
    ensures fewer { IfSome result (λ _. length urgent.new.items + length waiting.new.items + 1
        ≡ length urgent.old.items + length waiting.old.items) }
    ensures urgent { IfSome result (λ w. urgent.new.items ≡ without w.0 urgent.old.items) }
    ensures waiting { IfSome result (λ w. waiting.new.items
        ≡ others_without w.0 urgent.old.items waiting.old.items) }
    ensures urgent_room { deque_capacity urgent.new ≡ deque_capacity urgent.old }
    ensures queue_room { deque_capacity waiting.new ≡ deque_capacity waiting.old }
{
    let next = next_of(urgent, waiting, serve)?;
    remove_from(urgent, waiting, next.0);
    Some(next)
}

// The ticket's request leaves its queue, that of the urgent ones where it is there.
pub(crate) fn remove_from<A: Allocator>(
    urgent: &mut Queue<A>,
    waiting: &mut Queue<A>,
    ticket: Ticket,
)
    requires { IsTrue (is_among ticket urgent.old.items || is_among ticket waiting.old.items) }
    ensures fewer { length urgent.new.items + length waiting.new.items + 1
        ≡ length urgent.old.items + length waiting.old.items }
    ensures urgent { urgent.new.items ≡ without ticket urgent.old.items }
    ensures waiting { waiting.new.items ≡ others_without ticket urgent.old.items waiting.old.items }
    ensures urgent_room { deque_capacity urgent.new ≡ deque_capacity urgent.old }
    ensures queue_room { deque_capacity waiting.new ≡ deque_capacity waiting.old }
{
    if let Some(place) = place_in(urgent, ticket) {
        let _request = urgent.remove(place);
    } else if let Some(place) = place_in(waiting, ticket) {
        let _request = waiting.remove(place);
    }
}
