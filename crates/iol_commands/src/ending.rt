//! What `run` and `trace` print behind the last call.
ghost use Rattle.std.specs.Prelude.{◌≡◌, []};
ghost use Rattle.std.specs.List.{list_any};
ghost use Rattle.std.specs.Option.{option_map_or};
ghost use Rattle.iol_script.specs.Printing.{Prints};
ghost use Rattle.iol_script.specs.RunLines.{run_form};
ghost use Rattle.iol_script.specs.Script.{calls_in, calls_of};
ghost use Rattle.iol_script.specs.Text.{numbered_lines};
ghost use Rattle.iol_commands.specs.RunPlayed.{ending_text};
ghost use Rattle.iol_commands.specs.RunPrinted.{is_counters, refused_events_text};

use crate::run_printing::print_records;
use iol_device::App;
use iol_port::Call;
use iol_script::{CallLine, RunLine, TextLines};
use iol_sim::{Beside, Sim};
use std::alloc::{AllocError, Allocator};

/// What is printed behind the calls of these lines: the records, and how many events were
/// refused.
pub fn print_ending<P: App, C: Allocator + Copy, B: Beside<P>, A: Allocator>(
    output: &mut String<A>,
    sim: &Sim<P, C, B>,
    input: &[u8],
) -> Result<(), AllocError>
    ensures { Prints result output.old output.new
        (ending_text (calls_in (numbered_lines input.now)) sim.now) }
{
    print_records(output, sim)?;
    print_refused_events(output, input, sim.refused_events())
}

/// How many events were refused, where there was one and a line asks for the counters.
fn print_refused_events<A: Allocator>(
    output: &mut String<A>,
    input: &[u8],
    count: u64,
) -> Result<(), AllocError>
    ensures { Prints result output.old output.new
        (refused_events_text (calls_in (numbered_lines input.now)) count) }
{
    // The lines are read once more only where there is something to say.
    if count > 0 && any_asks_for_counters(input) {
        writeln!(output, "events refused {count}")?;
    }
    Ok(())
}

/// Whether one of these lines asks for the counters.
#[tactic(auto, using(crate::proofs::EndingLemmas::first_asks))]
fn any_asks_for_counters(input: &[u8]) -> bool
    ensures { result ≡ list_any is_counters (calls_in (numbered_lines input.now)) }
{
    for (_, line) in TextLines::of(input) {
        if asks_for_counters(line) {
            return true;
        }
    }
    false
}

/// Whether a line asks for the counters.
fn asks_for_counters(line: &[u8]) -> bool
    ensures { result ≡ list_any is_counters (option_map_or calls_of (run_form line.now) []) }
{
    match RunLine::parse(line) {
        Some(line) => line_asks(&line),
        None => false,
    }
}

/// Whether it is a call that asks for them.
#[tactic(auto, using(crate::proofs::EndingLemmas::no_turn_asks))]
fn line_asks(line: &RunLine) -> bool
    ensures { result ≡ list_any is_counters (calls_of line.now) }
{
    match line {
        RunLine::Call(CallLine::Once(call)) => is_counters(call),
        _ => false,
    }
}

/// Whether a call asks for them.
fn is_counters(call: &Call) -> bool
    ensures { result ≡ is_counters call.now }
{
    matches!(call, Call::Counters)
}
