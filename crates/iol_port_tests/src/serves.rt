//! Which of the requests that wait may be taken: of a book, and of a port whose line answers.
use crate::device::{Parameter, device, octets_of};
use crate::ports::{Calls, read, turn};
use iol_book::{Book, BookFault, Limits, Outcome, Serve, Ticket};
use iol_cell::Handle;
use iol_isdu::Answer;
use iol_link::Wire;
use iol_peers::ONE_OCTET;
use iol_port::{Answered, Call, Port, PortFault};
use std::test::Fail;

const FIRST: Ticket = Ticket(1);

const LATER: Ticket = Ticket(2);

const URGENT: Ticket = Ticket(3);

const UNKNOWN: Ticket = Ticket(9);

/// A book in which two requests wait, and an urgent one.
fn with_three<A: Handle>(alloc: A) -> Option<Book<A>> {
    let mut book = Book::open(alloc, &Limits::default()).ok()?;
    let are_issued = book.submit(read()) == Ok(FIRST)
        && book.submit(read()) == Ok(LATER)
        && book.submit_urgent(read()) == Ok(URGENT);
    if are_issued { Some(book) } else { None }
}

/// Whether the next request of a book is this ticket's, once it serves these.
fn takes<A: Handle>(book: &mut Book<A>, which: Serve, wanted: Option<Ticket>) -> bool {
    book.serve(which);
    let has_next = book.next().is_some() == wanted.is_some();
    let taken = match book.take() {
        Some((ticket, _)) => Some(ticket),
        None => None,
    };
    has_next && taken == wanted
}

/// The same of a new book.
fn takes_of_three<A: Handle>(alloc: A, which: Serve, wanted: Option<Ticket>) -> bool {
    match with_three(alloc) {
        Some(mut book) => takes(&mut book, which, wanted),
        None => false,
    }
}

#[test]
fn a_book_takes_what_it_serves(rt: HostRuntime) {
    assert!(rt; takes_of_three(rt.alloc(), Serve::All, Some(URGENT)));
    assert!(rt; takes_of_three(rt.alloc(), Serve::Only(LATER), Some(LATER)));
    assert!(rt; takes_of_three(rt.alloc(), Serve::Only(URGENT), Some(URGENT)));
    assert!(rt; takes_of_three(rt.alloc(), Serve::Only(UNKNOWN), None));
    assert!(rt; takes_of_three(rt.alloc(), Serve::Nobody, None));
}

/// Whether a book that served nobody goes on in order once it serves all.
fn goes_on<A: Handle>(alloc: A) -> bool {
    match with_three(alloc) {
        Some(mut book) => {
            takes(&mut book, Serve::Nobody, None) && takes(&mut book, Serve::All, Some(URGENT))
        }
        None => false,
    }
}

#[test]
fn a_book_serves_all_again(rt: HostRuntime) {
    assert!(rt; goes_on(rt.alloc()));
}

/// Whether the later request alone is denied, and is outstanding up to its collect.
fn denies_one<A: Handle>(alloc: A) -> bool {
    let Some(mut book) = with_three(alloc) else {
        return false;
    };
    book.serve(Serve::Only(LATER));
    let is_denied = book.deny() == Some(LATER) && book.deny().is_none();
    let is_outstanding = book.is_outstanding(LATER) && book.is_outstanding(FIRST);
    is_denied
        && is_outstanding
        && book.collect(LATER) == Ok(Outcome::NoIsdu)
        && !book.is_outstanding(LATER)
        && !book.is_outstanding(UNKNOWN)
}

#[test]
fn a_book_denies_what_it_serves(rt: HostRuntime) {
    assert!(rt; denies_one(rt.alloc()));
}

/// The last turn of start-up; the next one takes a request.
const START_UP: u32 = 15;

/// Turns that a request takes at most.
const REQUEST: u32 = 8;

const NOT_YET: Answered = Answered::Refused(PortFault::Book(BookFault::NotYet));

/// Whether a request was read.
fn is_read<P: Calls>(port: &mut P, ticket: Ticket) -> bool {
    let answer = Answer::Read(octets_of(0x41));
    port.call(&Call::Collect(ticket)) == Answered::Outcome(Outcome::Done(answer))
}

/// Whether the line idles while nobody is served, and then the later request is carried out alone,
/// before the other one.
fn serves_one<P: Calls>(port: &mut P) -> bool {
    let are_submitted = port.call(&Call::Submit(read())) == Answered::Ticket(FIRST)
        && port.call(&Call::Submit(read())) == Answered::Ticket(LATER);
    let is_nobody = port.call(&Call::Serve(Serve::Nobody)) == Answered::Nothing;
    turn(port, START_UP + 2 * REQUEST);
    let idles = port.call(&Call::Collect(FIRST)) == NOT_YET
        && port.call(&Call::Collect(LATER)) == NOT_YET;
    let is_one = port.call(&Call::Serve(Serve::Only(LATER))) == Answered::Nothing;
    turn(port, 2 * REQUEST);
    let is_alone = is_read(port, LATER) && port.call(&Call::Collect(FIRST)) == NOT_YET;
    let are_all = port.call(&Call::Serve(Serve::All)) == Answered::Nothing;
    turn(port, REQUEST);
    are_submitted && is_nobody && idles && is_one && is_alone && are_all && is_read(port, FIRST)
}

/// The same of a port over this wire.
fn serves_one_over<W: Wire + Drop, A: Handle>(alloc: A, wire: W) -> bool {
    match Port::open(alloc, wire, &Limits::default()) {
        Ok(mut port) => serves_one(&mut port),
        Err(_) => false,
    }
}

#[test]
fn a_port_serves_one_request(rt: HostRuntime) -> Result<(), Fail> {
    let wire = device(
        rt.alloc(),
        Parameter(0x41),
        &ONE_OCTET,
        Vec::new(rt.alloc()),
    )?;
    assert!(rt; serves_one_over(rt.alloc(), wire));
    Ok(())
}
