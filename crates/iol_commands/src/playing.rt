//! The calls of a script, made on a port, with what each of them answers.
ghost use Rattle.std.specs.Prelude.{◌≡◌, IfOk, replicate};
ghost use Rattle.std.specs.List.{list_any};
ghost use Rattle.iol_port.specs.declared.call.Call.TheVariants.{Turn};
ghost use Rattle.iol_port.specs.View.{over};
ghost use Rattle.iol_script.specs.Printing.{Prints};
ghost use Rattle.iol_script.specs.Script.{calls_in, line_calls};
ghost use Rattle.iol_script.specs.Text.{numbered_lines};
ghost use Rattle.iol_commands.specs.Printed.{PrintsSome};
ghost use Rattle.iol_commands.specs.RunPlayed.{lacks_memory, PortPlays};
ghost use Rattle.iol_commands.specs.RunPrinted.{answers_text};

use crate::run_printing::print_answer;
use iol_book::{BookFault, Limits};
use iol_cell::Handle;
use iol_link::Wire;
use iol_mode::Devices;
use iol_port::{Answered, Call, Port, PortFault, runs_join};
use iol_script::{CallLine, RunLine, TextLines};
use std::alloc::{AllocError, Allocator};
use std::slice;

/// What a script says of its port: how it is opened, and the lines that have its calls.
#[derive(Clone, Copy)]
pub(crate) struct PortScript<'a> {
    /// For which devices the port is opened.
    pub(crate) devices: Devices,
    /// With what limits it is.
    pub(crate) limits: Limits,
    /// The lines of the script.
    pub(crate) input: &'a [u8],
}

/// How many turns are made at once.
const PIECE: usize = 256;

/// Makes the calls of a script's lines, and prints what each of them answers.
pub(crate) fn play_lines<W: Wire, A: Handle>(
    alloc: A,
    output: &mut String<A>,
    port: &mut Port<W, A>,
    input: &[u8],
) -> Result<(), AllocError>
    ensures { PrintsSome result output.old output.new
        (PortPlays W.facts (over port.old) (calls_in (numbered_lines input.now)) (over port.new)) }
{
    runs_join();
    let turns = turns_of(alloc)?;
    for (_, line) in TextLines::of(input) {
        if let Some(RunLine::Call(call)) = RunLine::parse(line) {
            play_line(alloc, output, port, turns.as_slice(), &call)?;
        }
    }
    Ok(())
}

/// A piece of turns.
fn turns_of<A: Handle>(alloc: A) -> Result<Vec<Call, A>, AllocError>
    ensures { IfOk result (λ turns. turns.items ≡ replicate PIECE Turn) }
{
    let mut turns = Vec::new(alloc);
    for _ in 0..PIECE {
        turns.push(Call::Turn)?;
    }
    Ok(turns)
}

/// Makes the calls of one line. The turns that are passed are a piece of those that it may ask for.
fn play_line<W: Wire, A: Handle>(
    alloc: A,
    output: &mut String<A>,
    port: &mut Port<W, A>,
    turns: &[Call],
    line: &CallLine,
) -> Result<(), AllocError>
    requires { turns.now ≡ replicate PIECE Turn }
    ensures { PrintsSome result output.old output.new
        (PortPlays W.facts (over port.old) (line_calls line.now) (over port.new)) }
{
    match line {
        CallLine::Once(call) => play(alloc, output, port, slice::from_ref(call)),
        CallLine::Turns(count) => play_turns(alloc, output, port, turns, *count as usize),
    }
}

/// Makes so many turns, in pieces, so that the list of their answers stays short.
fn play_turns<W: Wire, A: Handle>(
    alloc: A,
    output: &mut String<A>,
    port: &mut Port<W, A>,
    turns: &[Call],
    count: usize,
) -> Result<(), AllocError>
    requires { turns.now ≡ replicate PIECE Turn }
    ensures { PrintsSome result output.old output.new
        (PortPlays W.facts (over port.old) (replicate count Turn) (over port.new)) }
{
    runs_join();
    let mut made = 0;
    while made < count {
        let piece = PIECE.min(count - made);
        play(alloc, output, port, &turns[..piece])?;
        made += piece;
    }
    Ok(())
}

/// Makes calls, and prints what each of them answers.
fn play<W: Wire, A: Handle>(
    alloc: A,
    output: &mut String<A>,
    port: &mut Port<W, A>,
    calls: &[Call],
) -> Result<(), AllocError>
    ensures { PrintsSome result output.old output.new
        (PortPlays W.facts (over port.old) calls.now (over port.new)) }
{
    let Ok(answers) = port.run(alloc, calls) else {
        return Err(AllocError);
    };
    if any_lacks_memory(answers.as_slice()) {
        return Err(AllocError);
    }
    print_answers(output, calls, answers.as_slice())
}

/// Whether a call was refused for want of memory.
pub(crate) fn lacks_memory(answer: &Answered) -> bool
    ensures { result ≡ lacks_memory answer.now }
{
    matches!(
        answer,
        Answered::Refused(PortFault::Book(BookFault::OutOfMemory))
    )
}

fn any_lacks_memory(answers: &[Answered]) -> bool
    ensures { result ≡ list_any lacks_memory answers.now }
{
    answers.iter().any(|answer| lacks_memory(answer))
}

/// What calls answered, one after the other.
fn print_answers<A: Allocator>(
    output: &mut String<A>,
    calls: &[Call],
    answers: &[Answered],
) -> Result<(), AllocError>
    ensures { Prints result output.old output.new (answers_text calls.now answers.now) }
{
    for (call, answer) in calls.iter().zip(answers) {
        print_answer(output, call, answer)?;
    }
    Ok(())
}
