//! The lines of texts that are cut into segments, and of segments that are joined.
use crate::isdus::{asked, print_read_answer, print_read_request, reaction};
use crate::printing::{
    print_flow, print_octets, print_ok, print_pair, print_refused, print_request, yes_or_no,
};
use crate::reading::{Line, is};
use iol_isdu::Request;
use iol_octets::{Flow, OdLength};
use iol_segment::{Cutter, JoinFault, Joiner, Reaction, Segment, Took};
use std::alloc::AllocError;
use std::mem;

/// The text that is being cut.
#[derive(Drop)]
enum Cut {
    Nothing,
    Request(Cutter<Request>),
    Answer(Cutter<Reaction>),
}

/// What is being cut, and what is being joined.
#[derive(Drop)]
pub(crate) struct Segments {
    cut: Cut,
    joiner: Joiner,
    /// Whether requests are joined, else answers.
    joins_requests: bool,
}

impl Segments {
    pub fn new() -> Segments {
        Segments {
            cut: Cut::Nothing,
            joiner: Joiner::new(),
            joins_requests: true,
        }
    }

    /// A line of a text that is cut, behind `cut`.
    pub fn answer_cut(
        &mut self,
        output: &mut String,
        line: &mut Line<'_>,
    ) -> Result<(), AllocError> {
        answer_cut(output, &mut self.cut, line)
    }

    /// A line of segments that are joined, behind `join`.
    pub fn answer_join(
        &mut self,
        output: &mut String,
        line: &mut Line<'_>,
    ) -> Result<(), AllocError> {
        let name = line.word();
        if is(name, b"take") {
            self.take(output, line)
        } else if is(name, b"answer") {
            self.join_answer(output, line)
        } else if is(name, b"request") {
            self.join_request(output, line)
        } else if is(name, b"whole") {
            let is_whole = yes_or_no(self.joiner.is_whole());
            writeln!(output, "whole {is_whole}")
        } else {
            self.begin(name, line);
            print_ok(output)
        }
    }

    /// The lines of one word that begin anew.
    fn begin(&mut self, name: &[u8], line: &mut Line<'_>) {
        if is(name, b"requests") || is(name, b"answers") {
            self.joiner = Joiner::new();
            self.joins_requests = is(name, b"requests");
        } else {
            line.refuse();
        }
    }

    fn take(&mut self, output: &mut String, line: &mut Line<'_>) -> Result<(), AllocError> {
        let flow = line.flow();
        let octets = line.octets();
        print_took(output, self.joiner.take(flow, octets.as_slice()))
    }

    /// The request that was joined.
    fn join_request(&self, output: &mut String, line: &mut Line<'_>) -> Result<(), AllocError> {
        if !self.joins_requests || !self.joiner.is_whole() {
            line.refuse();
            return Ok(());
        }
        print_read_request(output, self.joiner.request())
    }

    /// The answer that was joined, to a read or a write, for which the joiner is given up.
    fn join_answer(&mut self, output: &mut String, line: &mut Line<'_>) -> Result<(), AllocError> {
        let asked = asked(line.direction());
        if self.joins_requests || !self.joiner.is_whole() {
            line.refuse();
            return Ok(());
        }
        let joiner = mem::replace(&mut self.joiner, Joiner::new());
        print_read_answer(output, joiner.into_answer(&asked))
    }
}

fn print_took(output: &mut String, took: Result<Took, JoinFault>) -> Result<(), AllocError> {
    match took {
        Ok(took) => writeln!(output, "took {took:?}"),
        Err(fault) => print_refused(output, fault.code(), &fault),
    }
}

fn answer_cut(output: &mut String, cut: &mut Cut, line: &mut Line<'_>) -> Result<(), AllocError> {
    let name = line.word();
    if is(name, b"next") {
        print_segment(output, next(cut))
    } else if is(name, b"again") {
        print_segment(output, again(cut))
    } else if is(name, b"source") {
        print_source(output, cut)
    } else {
        *cut = cutting(name, line);
        print_ok(output)
    }
}

/// How many octets a segment has, and a text that is cut anew.
fn cutting(name: &[u8], line: &mut Line<'_>) -> Cut {
    let size = size(line);
    if is(name, b"request") {
        Cut::Request(Cutter::new(line.request(), size))
    } else if is(name, b"answer") {
        Cut::Answer(Cutter::new(reaction(line), size))
    } else {
        line.refuse();
        Cut::Nothing
    }
}

/// How many octets a segment has.
fn size(line: &mut Line<'_>) -> OdLength {
    OdLength::new(line.between(1, 32) as u8).unwrap()
}

fn next(cut: &mut Cut) -> Option<(Flow, Segment)> {
    match cut {
        Cut::Nothing => None,
        Cut::Request(cutter) => cutter.next(),
        Cut::Answer(cutter) => cutter.next(),
    }
}

fn again(cut: &Cut) -> Option<(Flow, Segment)> {
    match cut {
        Cut::Nothing => None,
        Cut::Request(cutter) => cutter.again(),
        Cut::Answer(cutter) => cutter.again(),
    }
}

/// What is cut: a request, and the answer to it where that is cut.
fn print_source(output: &mut String, cut: &Cut) -> Result<(), AllocError> {
    output.push_str("source")?;
    match cut {
        Cut::Nothing => output.push_str(" none")?,
        Cut::Request(cutter) => print_request(output, cutter.source())?,
        Cut::Answer(cutter) => {
            let reaction = cutter.source();
            print_pair(output, &reaction.request, &reaction.answer)?;
        }
    }
    output.push_str("\n")
}

fn print_segment(output: &mut String, segment: Option<(Flow, Segment)>) -> Result<(), AllocError> {
    match segment {
        Some((flow, octets)) => {
            output.push_str("segment ")?;
            print_flow(output, flow)?;
            print_octets(output, octets.as_slice())?;
            output.push_str("\n")
        }
        None => output.push_str("segment none\n"),
    }
}
