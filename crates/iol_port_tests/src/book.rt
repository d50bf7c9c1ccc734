//! Tests of a book: memory refused in turn. What it answers to a thousand lists of calls is in
//! `tests/books`.
use crate::journals::is_journal;
use iol_book::{Book, BookFault, Entry, Journal, Limits, Ticket};
use iol_cell::Handle;
use iol_isdu::{Place, Request};
use refusing_alloc::{Refusal, RefusingAlloc};

fn read() -> Request {
    Request::Read(Place { index: 16, sub: 0 })
}

#[derive(Clone, Copy)]
enum Kind {
    Ordinary,
    Urgent,
}

impl Kind {
    fn submit<A: Handle>(self, book: &mut Book<A>) -> Result<Ticket, BookFault> {
        match self {
            Kind::Ordinary => book.submit(read()),
            Kind::Urgent => book.submit_urgent(read()),
        }
    }

    fn entry(self, ticket: Ticket) -> Entry {
        match self {
            Kind::Ordinary => Entry::Submitted(ticket, read()),
            Kind::Urgent => Entry::Urgent(ticket, read()),
        }
    }
}

/// Whether a journal has these submits of one kind and nothing else, from the first ticket on.
fn are_submits<A: Handle>(journal: &Journal<A>, kind: Kind, count: u64) -> bool {
    let mut number = 0u64;
    let mut is_right = true;
    for entry in journal.iter() {
        number = number.saturating_add(1);
        is_right &= entry == kind.entry(Ticket(number));
    }
    is_right && number == count
}

/// Which of the first eight submits is refused for want of memory; none where another one is, or
/// none.
fn refused_at<A: Handle>(book: &mut Book<A>, kind: Kind) -> Option<u64> {
    for number in 1..=8u64 {
        match kind.submit(book) {
            Ok(ticket) if ticket == Ticket(number) => {}
            Err(BookFault::OutOfMemory) => return Some(number),
            _ => return None,
        }
    }
    None
}

/// Whether the submits from this one to the eighth go through.
fn go_through<A: Handle>(book: &mut Book<A>, kind: Kind, first: u64) -> bool {
    let mut is_right = true;
    for number in first..=8u64 {
        is_right &= kind.submit(book) == Ok(Ticket(number));
    }
    is_right
}

/// Eight requests of one kind are submitted. The one that is refused leaves the book as it was,
/// and goes through once memory is there.
fn eight_go_through<A: Handle>(
    alloc: A,
    refusing: &RefusingAlloc,
    kind: Kind,
    refusal: Refusal,
) -> bool {
    refusing.order(Refusal::Never);
    let Ok(mut book) = Book::open(alloc, &Limits::default()) else {
        return false;
    };
    refusing.order(refusal);
    let Some(number) = refused_at(&mut book, kind) else {
        return false;
    };
    let is_as_it_was = refusing.has_refused()
        && are_submits(book.journal(), kind, number.saturating_sub(1));
    refusing.order(Refusal::Never);
    is_as_it_was
        && go_through(&mut book, kind, number)
        && are_submits(book.journal(), kind, 8)
        && book.take() == Some((Ticket(1), read()))
}

/// How many requests for memory the first eight submits make.
const AT_SUBMITS: u64 = 6;

#[test]
fn each_request_for_memory_is_refused(rt: HostRuntime) {
    let refusing = RefusingAlloc::new(rt.alloc());
    for refusal in [Refusal::Only(0), Refusal::Only(1)] {
        refusing.order(refusal);
        let refused = Book::open(&refusing, &Limits::default()).err();
        assert!(rt; refused == Some(BookFault::OutOfMemory));
    }
    for number in 0..AT_SUBMITS {
        for refusal in [Refusal::Only(number), Refusal::From(number)] {
            assert!(rt; eight_go_through(&refusing, &refusing, Kind::Ordinary, refusal));
            assert!(rt; eight_go_through(&refusing, &refusing, Kind::Urgent, refusal));
        }
    }
}

/// Whether a book with this journal, of which none is in a journal before it, hands it out as it
/// is, and begins the next one with it.
fn is_drained<A: Handle>(book: &mut Book<A>, journal: &[Entry]) -> bool {
    let is_new = book.restated() == 0;
    let is_handed_out = match book.drain() {
        Ok(drained) => is_journal(&drained, journal),
        Err(_) => false,
    };
    is_new
        && is_handed_out
        && book.restated() == journal.len()
        && is_journal(book.journal(), journal)
}

/// A drain for which there is no memory is refused, and hands the journal out once there is.
fn drain_waits_for_memory<A: Handle>(alloc: A, refusing: &RefusingAlloc) -> bool {
    refusing.order(Refusal::Never);
    let Ok(mut book) = Book::open(alloc, &Limits::default()) else {
        return false;
    };
    let is_submitted = book.submit(read()) == Ok(Ticket(1));
    refusing.order(Refusal::Only(0));
    let is_refused = match book.drain() {
        Ok(_) => false,
        Err(fault) => fault == BookFault::OutOfMemory,
    };
    let is_as_it_was = refusing.has_refused() && are_submits(book.journal(), Kind::Ordinary, 1);
    refusing.order(Refusal::Never);
    is_submitted
        && is_refused
        && is_as_it_was
        && is_drained(&mut book, &[Kind::Ordinary.entry(Ticket(1))])
}

#[test]
fn a_drain_waits_for_memory(rt: HostRuntime) {
    let refusing = RefusingAlloc::new(rt.alloc());
    assert!(rt; drain_waits_for_memory(&refusing, &refusing));
}
