//! The commands over readers and writers of which one read or write fails.
use iol_cell::Handle;
use iol_commands::{ProgramFault, check, many, run, trace};
use std::alloc::{AllocError, Global};
use std::io;
use std::io::{ErrorKind, Read, Write};
use std::process::Abort;
use std::test::Fail;

/// A command that takes any allocator.
#[derive(Clone, Copy)]
pub(crate) enum Command {
    Check,
    Run,
    Trace,
}

impl Command {
    pub(crate) fn perform<A: Handle, R: Read, W: Write>(
        self,
        alloc: A,
        reader: &mut R,
        writer: &mut W,
    ) -> Result<(), ProgramFault> {
        match self {
            Command::Check => check(alloc, reader, writer),
            Command::Run => run(alloc, reader, writer),
            Command::Trace => trace(alloc, reader, writer),
        }
    }
}

/// A command, its input and its output.
pub(crate) struct Case {
    pub(crate) command: Command,
    pub(crate) input: &'static str,
    pub(crate) output: &'static str,
}

pub(crate) static CHECK: Case = Case {
    command: Command::Check,
    input: "# two good lines\nm A2 00\n\nr 17 1B\n",
    output: "read page 02\nod 17 event 0 pd valid\n",
};

/// No line, for which nothing but the flush is done.
static NOTHING: Case = Case {
    command: Command::Check,
    input: "",
    output: "",
};

/// A parameter is read.
pub(crate) const READING: &str = "param 16 0 ro 4142\nread 16 0\nturn 18\ncollect 1\n";

pub(crate) static RUN: Case = Case {
    command: Command::Run,
    input: READING,
    output: "ticket 1\nticket 1 done read 41 42\nrecord 1\ncarried read 16 0: read 41 42\n",
};

/// One request: eight reads take it, and eight writes and a flush its output.
const PLAN: &str = "ports 1\nclients 1\neach 1\nturns 18\n";

const COUNTS: &str = "port 1 tickets 1 done 1 unknown 0 waiting 0\ntotal 1\n";

/// Gives five bytes at each read. The read of this number fails, counted from 0, and no other.
#[derive(Drop)]
pub(crate) struct Source<'a> {
    left: &'a [u8],
    fails_at: u32,
}

impl Read for Source<'_> {
    fn read(&mut self, buf: &mut [u8]) -> io::Result<usize> {
        if self.fails_at == 0 {
            self.fails_at = u32::MAX;
            return Err(ErrorKind::BrokenPipe.into());
        }
        self.fails_at -= 1;
        let count = buf.len().min(self.left.len()).min(5);
        let (now, later) = self.left.split_at(count);
        buf[..count].copy_from_slice(now);
        self.left = later;
        Ok(count)
    }
}

/// Takes seven bytes at each write, and shows them once it is flushed. The write or flush of this
/// number fails, counted from 0, and no other.
#[derive(Drop)]
pub(crate) struct Sink {
    pub(crate) held: Vec<u8>,
    /// How many bytes were held at each flush that shows more of them.
    shown: Vec<usize>,
    fails_at: u32,
}

impl Sink {
    /// One more write or flush.
    fn begin(&mut self) -> io::Result<()> {
        if self.fails_at == 0 {
            self.fails_at = u32::MAX;
            return Err(ErrorKind::BrokenPipe.into());
        }
        self.fails_at -= 1;
        Ok(())
    }

    /// Whether this is what it shows, and all that it holds. Refuses a command that flushes before
    /// its last write.
    fn shows(&self, output: &str) -> bool {
        let shown = self.shown.last().copied().unwrap_or(0);
        self.held.as_slice() == output.as_bytes() && shown == self.held.len()
    }
}

impl Write for Sink {
    fn write(&mut self, buf: &[u8]) -> io::Result<usize> {
        self.begin()?;
        let count = buf.len().min(7);
        self.held.extend_from_slice(&buf[..count])?;
        Ok(count)
    }

    fn flush(&mut self) -> io::Result<()> {
        self.begin()?;
        if self.shown.last().copied().unwrap_or(0) < self.held.len() {
            self.shown.push(self.held.len())?;
        }
        Ok(())
    }
}

/// A reader and a writer of which the read or the write of a number fails.
pub(crate) fn failing(alloc: Global, input: &str, read: u32, write: u32) -> (Source<'_>, Sink) {
    let source = Source {
        left: input.as_bytes(),
        fails_at: read,
    };
    let sink = Sink {
        held: Vec::new(alloc),
        shown: Vec::new(alloc),
        fails_at: write,
    };
    (source, sink)
}

/// Fails each of a case's so many reads in turn: no read follows it, and nothing is written.
fn fail_reads(rt: &impl Abort, alloc: Global, case: &Case, reads: u32) {
    for read in 0..reads {
        let (mut source, mut sink) = failing(alloc, case.input, read, u32::MAX);
        let result = case.command.perform(alloc, &mut source, &mut sink);
        let is_failed = result == Err(ProgramFault::ReadFailed);
        let is_last = source.fails_at == u32::MAX;
        assert!(rt; is_failed && is_last && sink.held.is_empty(), "at {read}");
    }
    let (mut source, mut sink) = failing(alloc, case.input, reads, u32::MAX);
    let result = case.command.perform(alloc, &mut source, &mut sink);
    assert!(rt; result == Ok(()));
    assert!(rt; source.fails_at == 0);
    assert!(rt; sink.held.as_slice() == case.output.as_bytes());
}

/// Fails each of a case's so many writes and flushes in turn: nothing but the front of the output
/// is written.
fn fail_writes(rt: &impl Abort, alloc: Global, case: &Case, writes: u32) {
    for write in 0..writes {
        let (mut source, mut sink) = failing(alloc, case.input, u32::MAX, write);
        let result = case.command.perform(alloc, &mut source, &mut sink);
        let is_failed = result == Err(ProgramFault::WriteFailed);
        let begun = case.output.as_bytes().starts_with(sink.held.as_slice());
        assert!(rt; is_failed && begun, "at {write}");
    }
    let (mut source, mut sink) = failing(alloc, case.input, u32::MAX, writes);
    let result = case.command.perform(alloc, &mut source, &mut sink);
    assert!(rt; result == Ok(()));
    assert!(rt; sink.shows(case.output));
}

#[test]
fn fails_at_each_read(rt: HostRuntime) {
    fail_reads(&rt, rt.alloc(), &CHECK, 8);
    fail_reads(&rt, rt.alloc(), &RUN, 11);
}

/// Refuses a command that doesn't flush what it has no line for.
#[test]
fn fails_at_each_write(rt: HostRuntime) {
    fail_writes(&rt, rt.alloc(), &NOTHING, 1);
    fail_writes(&rt, rt.alloc(), &CHECK, 7);
    fail_writes(&rt, rt.alloc(), &RUN, 12);
}

#[test]
fn many_fails_at_each_read(rt: HostRuntime) {
    for read in 0..8 {
        let (mut source, mut sink) = failing(rt.alloc(), PLAN, read, u32::MAX);
        let result = many(&rt, rt.alloc(), &mut source, &mut sink);
        assert!(rt; result == Err(ProgramFault::ReadFailed), "at {read}");
        assert!(rt; sink.held.is_empty());
    }
}

#[test]
fn many_fails_at_each_write(rt: HostRuntime) {
    for write in 0..9 {
        let (mut source, mut sink) = failing(rt.alloc(), PLAN, 8, write);
        let result = many(&rt, rt.alloc(), &mut source, &mut sink);
        assert!(rt; result == Err(ProgramFault::WriteFailed), "at {write}");
    }
    let (mut source, mut sink) = failing(rt.alloc(), PLAN, 8, 9);
    let result = many(&rt, rt.alloc(), &mut source, &mut sink);
    assert!(rt; result == Ok(()));
    assert!(rt; sink.shows(COUNTS));
}

/// A script whose calls print 9 bytes, so often 25 and so often 18, and then 25.
fn printing(alloc: Global, unknown: u32, waiting: u32) -> Result<String, AllocError> {
    let mut script = String::from_str(alloc, "read 16 0\n")?;
    for _ in 0..unknown {
        script.push_str("collect 9\n")?;
    }
    for _ in 0..waiting {
        script.push_str("collect 1\n")?;
    }
    script.push_str("collect 9\n")?;
    Ok(script)
}

/// A trace is written as soon as 65,536 bytes of it wait, and at the end, which prints 9. Refuses
/// every other size of a piece, and a trace that is kept until its end.
#[test]
fn writes_as_it_goes(rt: HostRuntime) -> Result<(), Fail> {
    // 9 + 25 + 3,639 * 18 are 65,536; 9 + 6 * 25 + 3,632 * 18 are 65,535, and 25 more are written.
    for &(unknown, waiting, first, whole) in &[
        (1, 3_639, 65_536, 65_570),
        (6, 3_632, 65_560, 65_569),
    ] {
        let script = printing(rt.alloc(), unknown, waiting)?;
        let (mut source, mut sink) = failing(rt.alloc(), script.as_str(), u32::MAX, u32::MAX);
        assert!(rt; trace(rt.alloc(), &mut source, &mut sink) == Ok(()));
        assert!(rt; sink.shown.as_slice() == [first, whole].as_slice());
    }
    Ok(())
}
