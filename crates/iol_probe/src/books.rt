//! The lines of a book alone.
use crate::printing::{print_ok, print_refused, print_request};
use crate::reading::{Line, is};
use crate::tickets::{
    limits, print_archived, print_collected, print_done, print_entries, print_submitted, ticket,
};
use iol_book::{Book, BookFault, Outcome, Ticket};
use iol_isdu::{Cause, Request};
use iol_port::PortFault;
use std::alloc::{AllocError, Global};

/// A line of a book, behind `book`.
pub(crate) fn answer_book(
    output: &mut String,
    alloc: Global,
    book: &mut Option<Book>,
    line: &mut Line<'_>,
) -> Result<(), AllocError> {
    let name = line.word();
    if is(name, b"open") {
        let Ok(opened) = Book::open(alloc, &limits(line)) else {
            return Err(AllocError);
        };
        *book = Some(opened);
        return print_ok(output);
    }
    match book {
        Some(book) => answer_call(output, book, name, line),
        None => {
            line.refuse();
            Ok(())
        }
    }
}

/// The lines of a request or a ticket, and others.
fn answer_call(
    output: &mut String,
    book: &mut Book,
    name: &[u8],
    line: &mut Line<'_>,
) -> Result<(), AllocError> {
    if is(name, b"submit") {
        print_submitted(output, book.submit(line.request()).map_err(PortFault::Book))
    } else if is(name, b"urgent") {
        print_submitted(
            output,
            book.submit_urgent(line.request()).map_err(PortFault::Book),
        )
    } else if is(name, b"collect") {
        print_collected(output, book.collect(ticket(line)).map_err(PortFault::Book))
    } else if is(name, b"take") {
        print_taken(output, book.take())
    } else if is(name, b"deny") {
        print_denied(output, book.deny())
    } else if is(name, b"next") {
        print_next(output, book.next().as_ref())
    } else if is(name, b"archive") {
        print_archived(output, book.archive().map_err(PortFault::Book))
    } else if is(name, b"drain") {
        print_drained(output, book)
    } else if is(name, b"journal") {
        output.push_str("journal")?;
        print_entries(output, book.journal())
    } else if is(name, b"restated") {
        let count = book.restated();
        writeln!(output, "restated {count}")
    } else {
        print_done(output, settle(book, name, line).map_err(PortFault::Book))
    }
}

/// The lines that are told no more than that they are done.
fn settle(book: &mut Book, name: &[u8], line: &mut Line<'_>) -> Result<(), BookFault> {
    if is(name, b"post") {
        let ticket = ticket(line);
        return post(book, ticket, outcome(line));
    }
    if is(name, b"withdraw") {
        return book.withdraw(ticket(line));
    }
    if is(name, b"abandon") {
        return book.abandon(ticket(line));
    }
    if is(name, b"flight") {
        return book.in_flight(ticket(line));
    }
    if is(name, b"reset") {
        book.reset();
    } else {
        line.refuse();
    }
    Ok(())
}

/// `done` and an answer, or `unknown` and a cause.
fn outcome(line: &mut Line<'_>) -> Outcome {
    let name = line.word();
    if is(name, b"done") {
        return Outcome::Done(line.answer());
    }
    if !is(name, b"unknown") {
        line.refuse();
    }
    Outcome::Unknown(cause(line))
}

fn cause(line: &mut Line<'_>) -> Cause {
    let name = line.word();
    if is(name, b"LinkLost") {
        Cause::LinkLost
    } else if is(name, b"Restarted") {
        Cause::Restarted
    } else if is(name, b"BusyTooLong") {
        Cause::BusyTooLong
    } else if is(name, b"Protocol") {
        Cause::Protocol
    } else {
        if !is(name, b"Cancelled") {
            line.refuse();
        }
        Cause::Cancelled
    }
}

/// Gives the request that is taken its outcome, where this ticket is its own.
fn post(book: &mut Book, ticket: Ticket, outcome: Outcome) -> Result<(), BookFault> {
    book.in_flight(ticket)?;
    book.post(outcome);
    Ok(())
}

fn print_taken(output: &mut String, taken: Option<(Ticket, Request)>) -> Result<(), AllocError> {
    match taken {
        Some((Ticket(number), request)) => {
            write!(output, "taken {number}")?;
            print_request(output, &request)?;
            output.push_str("\n")
        }
        None => output.push_str("taken none\n"),
    }
}

/// How many of the entries that are handed out were restated, and all of them.
fn print_drained(output: &mut String, book: &mut Book) -> Result<(), AllocError> {
    let head = book.restated();
    match book.drain() {
        Ok(entries) => {
            write!(output, "drained {head} of")?;
            print_entries(output, &entries)
        }
        Err(fault) => print_refused(output, fault.code(), &fault),
    }
}

fn print_denied(output: &mut String, denied: Option<Ticket>) -> Result<(), AllocError> {
    match denied {
        Some(Ticket(number)) => writeln!(output, "denied {number}"),
        None => output.push_str("denied none\n"),
    }
}

fn print_next(output: &mut String, next: Option<&Request>) -> Result<(), AllocError> {
    match next {
        Some(request) => {
            output.push_str("next")?;
            print_request(output, request)?;
            output.push_str("\n")
        }
        None => output.push_str("next none\n"),
    }
}
