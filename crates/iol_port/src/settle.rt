//! The pieces of a turn: the next request is begun, and what the turn says goes to
//! the book and to the kept events.
ghost use Rattle.std.specs.Prelude.{◌≡◌, ◌≢◌, ◌+◌, ◌≤◌, ◌&&◌, [], ◌∷◌, ◌++◌, cond, not, length, None, Some, false, IsSome, IfSome, IsTrue};
ghost use Rattle.iol_isdu.specs.Texts.{IsRequest};
ghost use Rattle.iol_book.specs.BookModel.{next_taken, book_after_take};
ghost use Rattle.iol_app.specs.Asking.{core_with_request};
ghost use Rattle.iol_app.specs.Due.{is_ready};
ghost use Rattle.iol_app.specs.CallSteps.{BeginSteps};
ghost use Rattle.iol_app.specs.State.{session_after_begin};
ghost use Rattle.iol_app.specs.StationState.{operates, mode_in};
ghost use Rattle.iol_port.specs.Asks.{lacks_isdu, to_begin};
ghost use Rattle.iol_port.specs.EveryWire.{book_after_taking};
ghost use Rattle.iol_app.specs.declared.mode.Mode.TheVariants as mode;
ghost use Rattle.iol_app.specs.Abstract.Steps.{Reset, through_steps};
ghost use Rattle.iol_app.specs.Abstract.OfMaster.{steps_for_book, steps_for_queue};
ghost use Rattle.iol_port.specs.Replies.{by_book, by_output};
ghost use Rattle.iol_port.specs.View.{BeginsNext, TakesNext, Asks, ReportHasRoom};
ghost use Rattle.iol_port.specs.Steps.{book_after, queued_after};

use crate::PortFault;
use arrayvec::ArrayVec;
use iol_app::{Core, EventRoom, OutputFault, Said};
use iol_book::{Book, BookFault, Outcome};
use iol_event::{Event, EventList};
use std::alloc::Allocator;
use std::mem::replace;

/// How many events a port keeps.
pub(crate) const MOST_QUEUED: usize = 64;

/// How many there may be where it begins to read more.
pub(crate) const ROOM: usize = 58;

/// The book's refusals are the port's.
pub(crate) fn by_book<T>(answer: Result<T, BookFault>) -> Result<T, PortFault>
    ensures { result ≡ by_book answer }
{
    match answer {
        Ok(value) => Ok(value),
        Err(fault) => Err(PortFault::Book(fault)),
    }
}

/// And so are those of an output.
pub(crate) fn by_output(answer: Result<(), OutputFault>) -> Result<(), PortFault>
    ensures { result ≡ by_output answer }
{
    match answer {
        Ok(()) => Ok(()),
        Err(fault) => Err(PortFault::Output(fault)),
    }
}

/// A turn in which the device came to be known to be reset: it was not before, and is behind it.
pub(crate) fn resets(began: bool, ended: bool) -> bool
    ensures { result ≡ (not began && ended) }
{
    !began && ended
}

/// Whether a start-up told that the device has no ISDU.
pub(crate) fn lacks_isdu(isdu: Option<bool>) -> bool
    ensures { result ≡ lacks_isdu isdu }
{
    matches!(isdu, Some(false))
}

/// The next request is taken and begun, or denied where the device has no ISDU,
/// where nothing else is to be sent.
///
/// Rules REQ-2, REQ-3.
pub(crate) fn begin_next<A: Allocator + Copy>(core: &mut Core, book: &mut Book<A>, room: EventRoom)
    ensures next { BeginsNext core.old book.old.state core.new book.new.state }
    ensures exact { core.new ≡ core_with_request
        (to_begin (lacks_isdu core.old.session.isdu) (next_taken book.old.state))
        core.old room }
    ensures taken { book.new.state ≡ book_after_taking
        (operates core.old.state && is_ready core.old.session room)
        (lacks_isdu core.old.session.isdu) (next_taken book.old.state) book.old.state }
    ensures takes { TakesNext room core.old book.old.state core.new book.new.state }
    ensures begun { IsTrue (operates core.old.state && is_ready core.old.session room)
        → IfSome (to_begin (lacks_isdu core.old.session.isdu) (next_taken book.old.state))
        IsRequest }
    ensures memory { book.new.memory ≡ book.old.memory }
{
    // Most turns find no request that waits.
    if !book.has_next() || !core.ready(room) {
        return;
    }
    if lacks_isdu(core.isdu()) {
        core.may_deny();
        let _denied = book.deny();
    } else {
        take_next(core, book);
    }
}

/// The request that is next is taken and begun. Out of line, since most turns take
/// none, and a request is large.
#[inline(never)]
fn take_next<A: Allocator + Copy>(core: &mut Core, book: &mut Book<A>)
    requires operate { mode_in core.old.state ≡ mode.Operate }
    requires free { core.old.session.current ≡ None }
    requires isdu { core.old.session.isdu ≢ Some false }
    requires waits { IsSome (next_taken book.old.state) }
    ensures core { IfSome (next_taken book.old.state) (λ next. core.new
        ≡ record core.old { session = session_after_begin next.1 core.old.session }) }
    ensures book { IfSome (next_taken book.old.state) (λ next. book.new.state
        ≡ book_after_take book.old.state next) }
    ensures steps { IfSome (next_taken book.old.state) (λ next.
        BeginSteps next.1 core.old core.new) }
    ensures request { IfSome (next_taken book.old.state) (λ next. IsRequest next.1) }
    ensures memory { book.new.memory ≡ book.old.memory }
{
    let (_, request) = book.take().unwrap();
    core.begin(request);
}

/// What a turn says goes to the book and to the kept events; in one that reset the device the
/// book hears of that first. What is said is taken out of its place.
///
/// Rule PORT-1.
pub(crate) fn settle<A: Allocator + Copy>(
    book: &mut Book<A>,
    queued: &mut ArrayVec<Event, MOST_QUEUED>,
    reset: bool,
    report: &mut Said,
)
    requires asked { Asks report.old book.old.state.standing.taken }
    requires room { ReportHasRoom report.old queued.old.items }
    ensures book { book.new.state ≡ through_steps book_after
        (cond reset (Reset ∷ []) [] ++ steps_for_book report.old) book.old.state }
    ensures memory { book.new.memory ≡ book.old.memory }
    ensures queued { queued.new.items
        ≡ through_steps queued_after (steps_for_queue report.old) queued.old.items }
{
    if reset {
        book.reset();
    }
    match report {
        Said::Idle | Said::Busy => {}
        report => deliver(book, queued, report),
    }
}

/// Out of line, since most turns say nothing, and what the others say is large.
#[inline(never)]
fn deliver<A: Allocator + Copy>(
    book: &mut Book<A>,
    queued: &mut ArrayVec<Event, MOST_QUEUED>,
    report: &mut Said,
)
    requires asked { Asks report.old book.old.state.standing.taken }
    requires room { ReportHasRoom report.old queued.old.items }
    ensures book { book.new.state
        ≡ through_steps book_after (steps_for_book report.old) book.old.state }
    ensures memory { book.new.memory ≡ book.old.memory }
    ensures queued { queued.new.items
        ≡ through_steps queued_after (steps_for_queue report.old) queued.old.items }
{
    match replace(report, Said::Idle) {
        Said::Idle | Said::Busy => {}
        Said::Answered(answer) => book.post(Outcome::Done(answer)),
        Said::Cut(cause) => book.post(Outcome::Unknown(cause)),
        Said::Reported(events) => enqueue(queued, &events),
    }
}

/// Rules EVT-8, PORT-5.
fn enqueue(queued: &mut ArrayVec<Event, MOST_QUEUED>, events: &EventList)
    requires { length queued.old.items + 6 ≤ 64 }
    ensures { queued.new.items ≡ queued.old.items ++ events.now }
{
    let _fits = queued.try_extend_from_slice(events.as_slice());
}
