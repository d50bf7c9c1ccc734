//! The memory of a port that has one ticket at a time.
use iol_book::{Book, BookFault, JournalLimit, Limits, Outcome, QueueLimit, Ticket};
use iol_cell::Handle;
use iol_isdu::{Answer, IsduFault, Place, Request};
use iol_port::{PortCore, PortFault};
use linked_list_allocator::LocalHeap;
use std::process::Abort;
use std::test::Fail;

/// How many octets of memory are there.
const HEAP: usize = 2_048;

/// How many octets of it a new port takes, for one place in each of its two queues.
const AT_OPENING: usize = 32;

/// How many it takes once it had a ticket, for four outcomes and four entries besides, and for the
/// octets of a request and of an answer.
const AT_SUBMIT: usize = 688;

const FULL: Option<PortFault> = Some(PortFault::Book(BookFault::Full));

fn read() -> Request {
    Request::Read(Place { index: 16, sub: 0 })
}

/// Whether the port gives this ticket and no other one before it is withdrawn and collected.
fn has_one_ticket<A: Handle>(port: &mut PortCore<A>, ticket: Ticket) -> bool {
    let is_issued = port.submit(read()) == Ok(ticket);
    let is_full = port.submit(read()).err() == FULL && port.submit_urgent(read()).err() == FULL;
    let is_withdrawn = port.withdraw(ticket).is_ok();
    let is_collected = port.collect(ticket) == Ok(Outcome::Withdrawn);
    is_issued && is_full && is_withdrawn && is_collected
}

/// How many entries the journal had, which is handed out and given back.
fn archived<A: Handle>(port: &mut PortCore<A>) -> Option<usize> {
    match port.archive() {
        Ok(entries) => Some(entries.len()),
        Err(_) => None,
    }
}

#[test]
fn one_ticket_at_a_time_fits_in_two_kilobytes(rt: HostRuntime) -> Result<(), Fail> {
    let heap = LocalHeap::new(rt.alloc(), HEAP)?;
    // The journal has room for one ticket, and has to be handed out after each.
    let limits = Limits {
        journal: JournalLimit::new(4).unwrap(),
        queue: QueueLimit::new(1).unwrap(),
        ..Limits::default()
    };
    let mut port = PortCore::open(&heap, &limits)?;
    assert!(rt; heap.used() == AT_OPENING);
    for number in 1..=3u64 {
        assert!(rt; has_one_ticket(&mut port, Ticket(number)));
        assert!(rt; heap.used() == AT_SUBMIT);
        assert!(rt; archived(&mut port) == Some(3));
    }
    Ok(())
}

/// How many requests are carried out, each once the one before was collected.
const REQUESTS: usize = 1_000;

/// How many octets four entries take beside their data.
const ENTRIES: usize = 4 * 32;

/// How much memory there may be for what is held: so many tenths of it.
const TENTHS: usize = 12;

/// Enough for them.
const LARGE_HEAP: usize = 1 << 20;

const MOST_DATA: [u8; 232] = [0xA5; 232];

/// What is asked for, once and again.
#[derive(Clone, Copy)]
enum Asked {
    ReadOfTwo,
    LongestWrite,
}

impl Asked {
    /// The request, and how it ends.
    fn request(self) -> Result<(Request, Outcome), IsduFault> {
        let place = Place { index: 16, sub: 0 };
        Ok(match self {
            Asked::ReadOfTwo => {
                let mut answer = Answer::Written;
                answer.set_read(&MOST_DATA[..2]);
                (Request::read(place), Outcome::Done(answer))
            }
            Asked::LongestWrite => {
                let request = Request::write(place, &MOST_DATA)?;
                (request, Outcome::Done(Answer::Written))
            }
        })
    }

    /// How many octets it has.
    fn octets(self) -> usize {
        match self {
            Asked::ReadOfTwo => 2,
            Asked::LongestWrite => MOST_DATA.len(),
        }
    }
}

/// Whether a request goes all its way.
fn goes_through<A: Handle>(book: &mut Book<A>, asked: Asked) -> bool {
    let Ok((request, outcome)) = asked.request() else {
        return false;
    };
    let Ok(ticket) = book.submit(request) else {
        return false;
    };
    if book.take().is_none() {
        return false;
    }
    book.post(outcome);
    book.collect(ticket).is_ok()
}

/// Whether they all do, in a new book with such a journal.
fn all_go_through<A: Handle>(alloc: A, journal: JournalLimit, asked: Asked) -> Option<Book<A>> {
    let limits = Limits {
        journal,
        queue: QueueLimit::new(1).unwrap(),
        ..Limits::default()
    };
    let mut book = Book::open(alloc, &limits).ok()?;
    for _ in 0..REQUESTS {
        if !goes_through(&mut book, asked) {
            return None;
        }
    }
    Some(book)
}

#[test]
fn a_journal_takes_little_more_than_its_octets(rt: HostRuntime) -> Result<(), Fail> {
    for asked in [Asked::ReadOfTwo, Asked::LongestWrite] {
        let heap = LocalHeap::new(rt.alloc(), LARGE_HEAP)?;
        let journal = JournalLimit::new(10_000).unwrap();
        let book = all_go_through(&heap, journal, asked);
        let held = asked
            .octets()
            .saturating_add(ENTRIES)
            .saturating_mul(REQUESTS);
        let used = heap.used();
        assert!(rt; book.is_some_and(|book| book.journal().len() == 4 * REQUESTS));
        assert!(rt; used >= held && used.saturating_mul(10) <= held.saturating_mul(TENTHS));
    }
    Ok(())
}

/// How many octets a book takes at most that keeps no journal, for one ticket at a time: some
/// 40 entries, and the octets of ten requests.
const WITHOUT_JOURNAL: usize = 16 * 1_024;

#[test]
fn a_book_without_a_journal_takes_a_constant_memory(rt: HostRuntime) -> Result<(), Fail> {
    for asked in [Asked::ReadOfTwo, Asked::LongestWrite] {
        let heap = LocalHeap::new(rt.alloc(), LARGE_HEAP)?;
        let book = all_go_through(&heap, JournalLimit::NONE, asked);
        let used = heap.used();
        assert!(rt; used <= WITHOUT_JOURNAL);
        let Some(mut book) = book else {
            return Err(Fail::new("a request didn't go through"));
        };
        for _ in 0..REQUESTS {
            assert!(rt; goes_through(&mut book, asked));
        }
        assert!(rt; heap.used() == used);
        assert!(rt; book.archive().err() == Some(BookFault::NoJournal));
        assert!(rt; book.drain().err() == Some(BookFault::NoJournal));
    }
    Ok(())
}
