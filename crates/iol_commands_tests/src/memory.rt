//! The commands and the reading of scripts where a request for memory is refused.
use crate::streams::{CHECK, Case, Command, READING, RUN, failing};
use iol_commands::ProgramFault;
use iol_script::{Script, ScriptFault};
use refusing_alloc::{Refusal, RefusingAlloc};
use std::alloc::Global;
use std::process::Abort;
use std::test::Fail;

/// What a trace ends with is compared: its last exchange, and what follows.
static TRACE: Case = Case {
    command: Command::Trace,
    input: READING,
    output: "18 < D4 41 42 D7 00 00 00 00 2D: od D4 41 42 D7 00 00 00 00 event 0 pd valid\n\
        ticket 1 done read 41 42\nrecord 1\ncarried read 16 0: read 41 42\n",
};

/// Two devices with a table, whose saved values take memory too.
static TABLE: Case = Case {
    command: Command::Run,
    input: "param 64 0 rw 0A\nkept 64\nrange 64 0 1 100\nother 17 2D 11 00 00 12 34 00 01 07\n\
        wire local 64 0 0C\nwrite 64 0 65\nread 64 0\nturn 30\ncollect 1\ncollect 2\nevent\n",
    output: "ticket 1\nticket 2\nticket 1 done refused 80 30\nticket 2 done read 0C\n\
        event 54 FF91\nrecord 2\ncarried write 64 0 65: refused 80 30\n\
        carried read 64 0: read 0C\naway 0\n",
};

/// Whether a case was refused memory under this order: then it has to say so, and to write
/// nothing. A trace is written as it comes.
fn is_refused(
    rt: &impl Abort,
    alloc: Global,
    refusing: &RefusingAlloc,
    case: &Case,
    refusal: Refusal,
) -> bool {
    let (mut source, mut sink) = failing(alloc, case.input, u32::MAX, u32::MAX);
    refusing.order(refusal);
    let result = case.command.perform(refusing, &mut source, &mut sink);
    let refused = refusing.has_refused();
    if refused {
        assert!(rt; result == Err(ProgramFault::OutOfMemory));
        let is_trace = matches!(case.command, Command::Trace);
        assert!(rt; is_trace || sink.held.is_empty());
    } else {
        assert!(rt; result == Ok(()));
        assert!(rt; is_whole(case, sink.held.as_slice()));
    }
    refused
}

/// Whether a case prints this; of a trace the end is compared.
fn is_whole(case: &Case, printed: &[u8]) -> bool {
    match case.command {
        Command::Trace => printed.ends_with(case.output.as_bytes()),
        Command::Check | Command::Run => printed == case.output.as_bytes(),
    }
}

/// Refuses each request of a case in turn, alone and with all that follow, until it makes no
/// further one.
fn refuse_each(rt: &impl Abort, alloc: Global, case: &Case) -> Result<(), Fail> {
    let refusing = RefusingAlloc::new(alloc);
    for number in 0..1000 {
        if !is_refused(rt, alloc, &refusing, case, Refusal::Only(number)) {
            assert!(rt; number > 1);
            return Ok(());
        }
        assert!(rt; is_refused(rt, alloc, &refusing, case, Refusal::From(number)));
    }
    Err(Fail::from("no end"))
}

#[test]
fn fails_at_each_request_for_memory(rt: HostRuntime) -> Result<(), Fail> {
    refuse_each(&rt, rt.alloc(), &CHECK)?;
    refuse_each(&rt, rt.alloc(), &RUN)?;
    refuse_each(&rt, rt.alloc(), &TABLE)?;
    refuse_each(&rt, rt.alloc(), &TRACE)
}

/// Lines of each kind, and four steps of the wire.
const SCRIPT: &[u8] = b"limits 3 4
param 16 0 ro 4142
page 17 01 11 10 08 12 34 00 01 07
wire auto off
read 16 0
wire clean 2
turn 20
wire silent";

/// Whether the reading of a script was refused memory under this order: then it has to say so.
fn is_script_refused(rt: &impl Abort, refusing: &RefusingAlloc, refusal: Refusal) -> bool {
    refusing.order(refusal);
    let result = Script::read(refusing, SCRIPT);
    let refused = refusing.has_refused();
    match result {
        Ok(script) => assert!(rt; !refused && script.steps.len() == 4),
        Err(fault) => assert!(rt; refused && fault == ScriptFault::OutOfMemory),
    }
    refused
}

#[test]
fn a_script_fails_at_each_request_for_memory(rt: HostRuntime) -> Result<(), Fail> {
    let refusing = RefusingAlloc::new(rt.alloc());
    for number in 0..100 {
        if !is_script_refused(&rt, &refusing, Refusal::Only(number)) {
            assert!(rt; number > 0);
            return Ok(());
        }
        assert!(rt; is_script_refused(&rt, &refusing, Refusal::From(number)));
    }
    Err(Fail::from("no end"))
}

#[test]
fn finds_bad_lines_without_memory(rt: HostRuntime) {
    let refusing = RefusingAlloc::new(rt.alloc());
    refusing.order(Refusal::From(0));
    let page = b"page 17 01 11 10 08 12 34 00 01 07\nturn 1\nturn 0".as_slice();
    assert!(rt; Script::read(&refusing, page).err() == Some(ScriptFault::Line(3)));
    let turns = b"turn 100000\nturn 100000\nparam 16 0 ro 41".as_slice();
    assert!(rt; Script::read(&refusing, turns).err() == Some(ScriptFault::Line(3)));
}
