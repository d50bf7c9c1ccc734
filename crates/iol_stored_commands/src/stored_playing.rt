//! The calls of a script, made on a stored port, with what each of them answers.
ghost use Rattle.std.specs.Prelude.{◌≡◌, ◌∷◌, [], None, map, replicate};
ghost use Rattle.iol_port.specs.declared.call.Call.TheVariants.{Turn};
ghost use Rattle.std.specs.Option.{option_map_or};
ghost use Rattle.iol_script.specs.RunLines.{run_form};
ghost use Rattle.iol_script.specs.Script.{calls_of, line_calls};
ghost use Rattle.iol_script.specs.Text.{numbered_lines};
ghost use Rattle.iol_commands.specs.Printed.{PrintsSome};
ghost use Rattle.iol_stored_script.specs.StorageLines.{storage_form};
ghost use Rattle.iol_stored_commands.specs.StoredPlayed.{Plain, Storing, StoredPlays, line_stored_calls, stored_calls_in};

use crate::stored_printing::{print_port_answer, print_storage_answer};
use crate::wired_port::{WiredPort, lacks_room};
use iol_book::Limits;
use iol_cell::Handle;
use iol_link::Wire;
use iol_mode::Devices;
use iol_port::Call;
use iol_script::{CallLine, RunLine, TextLines};
use iol_storage::StorageMode;
use iol_stored_script::{StorageCall, StorageLine};
use std::alloc::AllocError;

/// What a script says of its port: how it is opened, and the lines that have its calls.
#[derive(Clone, Copy)]
pub(crate) struct StoredScript<'a> {
    /// The mode of its Data Storage.
    pub(crate) mode: StorageMode,
    /// For which devices the port is opened.
    pub(crate) devices: Devices,
    /// With what limits it is.
    pub(crate) limits: Limits,
    /// The lines of the script.
    pub(crate) input: &'a [u8],
    /// The same, as those of a plain port are read.
    pub(crate) plain: &'a [u8],
}

/// Makes the calls of a script's lines, and prints what each of them answers.
pub(crate) fn play_stored<W: Wire, A: Handle>(
    output: &mut String<A>,
    port: &mut WiredPort<W, A>,
    input: &[u8],
) -> Result<(), AllocError>
    ensures { PrintsSome result output.old output.new
        (StoredPlays W.facts port.old (stored_calls_in (numbered_lines input.now)) port.new) }
{
    for (_, line) in TextLines::of(input) {
        play_line(output, port, line)?;
    }
    Ok(())
}

/// Makes the calls of one line.
fn play_line<W: Wire, A: Handle>(
    output: &mut String<A>,
    port: &mut WiredPort<W, A>,
    line: &[u8],
) -> Result<(), AllocError>
    ensures { PrintsSome result output.old output.new
        (StoredPlays W.facts port.old
        (line_stored_calls (storage_form line.now) (run_form line.now)) port.new) }
{
    match StorageLine::parse(line) {
        Some(StorageLine::Call(call)) => play_storage(output, port, call),
        Some(StorageLine::Store(_)) => Ok(()),
        None => play_plain_line(output, port, line),
    }
}

/// Makes the calls of a line that a plain port has, too.
fn play_plain_line<W: Wire, A: Handle>(
    output: &mut String<A>,
    port: &mut WiredPort<W, A>,
    line: &[u8],
) -> Result<(), AllocError>
    ensures { PrintsSome result output.old output.new
        (StoredPlays W.facts port.old (line_stored_calls None (run_form line.now)) port.new) }
{
    match plain_call_of(line) {
        Some(CallLine::Once(call)) => play_call(output, port, &call),
        Some(CallLine::Turns(count)) => {
            make_turns(port, count);
            Ok(())
        }
        None => Ok(()),
    }
}

/// The calls of a line that a plain port has, too.
pub(crate) fn plain_call_of(line: &[u8]) -> Option<CallLine>
    ensures { option_map_or line_calls result [] ≡ option_map_or calls_of (run_form line.now) [] }
{
    call_in(RunLine::parse(line)?)
}

/// The calls that a line makes, if any.
fn call_in(line: RunLine) -> Option<CallLine>
    ensures { option_map_or line_calls result [] ≡ calls_of line }
{
    match line {
        RunLine::Call(call) => Some(call),
        RunLine::Skip | RunLine::Setting(_) | RunLine::Wire(_) => None,
    }
}

/// Makes so many turns, which print nothing.
fn make_turns<W: Wire, A: Handle>(port: &mut WiredPort<W, A>, count: u32)
    ensures { StoredPlays W.facts port.old (map Plain (replicate count Turn)) port.new [] }
{
    for _ in 0..count {
        port.turn();
    }
}

/// Makes a call, and prints what it answers.
pub(crate) fn play_call<W: Wire, A: Handle>(
    output: &mut String<A>,
    port: &mut WiredPort<W, A>,
    call: &Call,
) -> Result<(), AllocError>
    ensures { PrintsSome result output.old output.new
        (StoredPlays W.facts port.old (Plain call.now ∷ []) port.new) }
{
    let answer = port.call(call);
    if lacks_room(&answer) {
        return Err(AllocError);
    }
    print_port_answer(output, call, &answer)
}

/// The same of a call that a plain port hasn't.
pub(crate) fn play_storage<W: Wire, A: Handle>(
    output: &mut String<A>,
    port: &mut WiredPort<W, A>,
    call: StorageCall,
) -> Result<(), AllocError>
    ensures { PrintsSome result output.old output.new
        (StoredPlays W.facts port.old (Storing call ∷ []) port.new) }
{
    let answer = port.store(call);
    print_storage_answer(output, &answer)
}
