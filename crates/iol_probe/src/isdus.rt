//! The lines of whole texts of requests and answers.
ghost use Rattle.iol_isdu.specs.Answers.{AnswersKind, is_read};

use crate::printing::{print_answer, print_named, print_refused, print_request};
use crate::reading::{Bytes, Direction, Line, is};
use iol_isdu::{
    Answer, IsduFault, Octets, Place, Request, encode_answer, encode_request, read_answer,
    read_request, total_of,
};
use iol_segment::Reaction;
use std::alloc::AllocError;

/// Answers a line of whole texts. Whether it is one.
pub(crate) fn answer_isdus(
    output: &mut String,
    name: &[u8],
    line: &mut Line<'_>,
) -> Result<bool, AllocError> {
    if is(name, b"total") {
        print_total(output, total_of(line.octets().as_slice()))?;
    } else if is(name, b"request") {
        print_read_request(output, read_request(line.octets().as_slice()))?;
    } else if is(name, b"answer") {
        let asked = asked(line.direction());
        print_read_answer(output, read_answer(&asked, line.octets().as_slice()))?;
    } else if is(name, b"encode") {
        answer_encode(output, line)?;
    } else {
        return Ok(false);
    }
    Ok(true)
}

/// A request of this kind.
pub(crate) fn asked(direction: Direction) -> Request {
    let place = Place { index: 16, sub: 0 };
    match direction {
        Direction::Read => Request::Read(place),
        Direction::Write => Request::Write(place, Octets::new()),
    }
}

fn print_total(output: &mut String, total: Result<usize, IsduFault>) -> Result<(), AllocError> {
    match total {
        Ok(total) => writeln!(output, "total {total}"),
        Err(fault) => print_refused(output, fault.code(), &fault),
    }
}

/// A request that was read, or its refusal.
pub(crate) fn print_read_request(
    output: &mut String,
    read: Result<Request, IsduFault>,
) -> Result<(), AllocError> {
    match read {
        Ok(request) => {
            output.push_str("request")?;
            print_request(output, &request)?;
            output.push_str("\n")
        }
        Err(fault) => print_refused(output, fault.code(), &fault),
    }
}

/// An answer that was read, or its refusal.
pub(crate) fn print_read_answer(
    output: &mut String,
    read: Result<Answer, IsduFault>,
) -> Result<(), AllocError> {
    match read {
        Ok(answer) => {
            output.push_str("answer")?;
            print_answer(output, &answer)?;
            output.push_str("\n")
        }
        Err(fault) => print_refused(output, fault.code(), &fault),
    }
}

/// `read` or `write`, and an answer to it.
pub(crate) fn reaction(line: &mut Line<'_>) -> Reaction
    ensures { AnswersKind (is_read result.request) result.answer }
{
    let request = asked(line.direction());
    let answer = line.answer();
    match (&request, &answer) {
        (Request::Read(_), Answer::Read(_)) | (Request::Write(_, _), Answer::Written) => {}
        (_, Answer::Refused(_, _)) => {}
        _ => {
            line.refuse();
            return Reaction {
                request,
                answer: Answer::Refused(0, 0),
            };
        }
    }
    Reaction { request, answer }
}

/// The text of a request, or of an answer.
fn answer_encode(output: &mut String, line: &mut Line<'_>) -> Result<(), AllocError> {
    let name = line.word();
    if is(name, b"read") {
        let request = Request::read(line.place());
        print_named(output, "text", encode_request(&request).as_slice())
    } else if is(name, b"write") {
        let place = line.place();
        let octets: Bytes = line.packed();
        encode_write(output, place, octets.as_slice())
    } else if is(name, b"answer") {
        let reaction = reaction(line);
        let text = encode_answer(&reaction.request, &reaction.answer);
        print_named(output, "text", text.as_slice())
    } else {
        line.refuse();
        Ok(())
    }
}

/// The text of a write, of which there may be too many octets.
fn encode_write(output: &mut String, place: Place, octets: &[u8]) -> Result<(), AllocError> {
    match Request::write(place, octets) {
        Ok(request) => print_named(output, "text", encode_request(&request).as_slice()),
        Err(fault) => print_refused(output, fault.code(), &fault),
    }
}
