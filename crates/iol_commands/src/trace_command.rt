//! `trace`: what `run` prints, and what goes over the wire.
ghost use Rattle.std.specs.Prelude.{◌≡◌, ◌≢◌, ◌≤◌, ◌⊎◌, length, List, ℕ, Err, OnErr, OnOk, IfErr};
ghost use Rattle.std.specs.Io.KnownBytes.{Appends, Keeps};
ghost use Rattle.iol_params.specs.declared.table.TableFault.{TableFault};
ghost use Rattle.iol_param_sim.specs.Parameters.{parameters_facts};
ghost use Rattle.iol_script.specs.Script.{IsScript, calls_in, value_of};
ghost use Rattle.iol_script.specs.Text.{numbered_lines};
ghost use Rattle.iol_commands.specs.declared.fault.ProgramFault.TheVariants.{NoThread, OutOfMemory, WriteFailed};
ghost use Rattle.iol_commands.specs.declared.fault.ProgramFault.TheVariants as fault;
ghost use Rattle.iol_commands.specs.RunPlayed.{first_table_wire, HasFlaw, OverTable};
ghost use Rattle.iol_commands.specs.TracePrinted.{TracesOut, TracesScript, trace_reading};
ghost use Rattle.iol_commands.specs.Input.{AnswersInput};

use crate::ending::print_ending;
use crate::fault::ProgramFault;
use crate::playing::PortScript;
use crate::run_command::{table_wire_of, wire_of};
use crate::streams::{read_input, write_output};
use crate::tracing::Tracer;
use iol_cell::Handle;
use iol_device::App;
use iol_params::Table;
use iol_port::Port;
use iol_script::Script;
use iol_sim::{Beside, Sim, Tap};
use std::alloc::Allocator;
use std::io::{Read, Write};
use std::mem::replace;

/// Reads a script as `run` does, makes its calls, and prints what `run` prints; and for
/// each call of the wire what went over it, before the line of the call that made it.
///
/// The input is read whole, up to 1,048,576 bytes, and its lines are read from first to
/// last, before the first call is made. What is printed is written as it comes, in pieces,
/// so that a trace of any length takes little memory: where memory is short or a write
/// fails, part of the output may be written. Where any other fault is met, nothing is.
pub fn trace<A: Handle, R: Read, W: Write>(
    alloc: A,
    reader: &mut R,
    writer: &mut W,
) -> Result<(), ProgramFault>
    ensures answers { AnswersInput trace_reading (record {
      input = R.remaining reader.old;
      input_left = R.remaining reader.new;
      output = W.contents writer.old;
      output_new = W.contents writer.new;
    }) result }
    ensures nothing { OnErr result (result ≢ Err WriteFailed → result ≢ Err OutOfMemory
        → Keeps (W.contents writer.old) (W.contents writer.new)) }
    ensures threads { result ≢ Err NoThread }
{
    let input = read_input(alloc, reader)?;
    let script = Script::read(alloc, input.as_slice())?;
    traced(alloc, script, input.as_slice(), writer)
}

/// Makes the calls of the lines of this script.
pub fn traced<A: Handle, W: Write>(
    alloc: A,
    script: Script<A>,
    input: &[u8],
    writer: &mut W,
) -> Result<(), ProgramFault>
    requires sound { IsScript script }
    requires calls { length (calls_in (numbered_lines input.now)) ≤ 1000000 }
    ensures printed { OnOk result
        ((text : List ℕ) × Appends (W.contents writer.old) (W.contents writer.new) text
        × TracesScript (value_of script) (calls_in (numbered_lines input.now)) text) }
    ensures flaw { (why : TableFault) → result ≡ Err (fault.Table why)
        → HasFlaw (value_of script) why }
    ensures unwritten { (why : TableFault) → result ≡ Err (fault.Table why)
        → Keeps (W.contents writer.old) (W.contents writer.new) }
    ensures faults { IfErr result (λ e. (e ≡ OutOfMemory) ⊎ ((e ≡ WriteFailed)
        ⊎ ((why : TableFault) × (e ≡ fault.Table why)))) }
{
    let play = PortScript {
        devices: script.devices,
        limits: script.limits,
        input,
    };
    if script.table.is_empty() {
        traced_over(alloc, wire_of(alloc, script)?, &play, writer)
    } else {
        traced_by_table(alloc, script, &play, writer)
    }
}

/// Makes the calls, where the device has a table.
fn traced_by_table<A: Handle, W: Write>(
    alloc: A,
    script: Script<A>,
    play: &PortScript,
    writer: &mut W,
) -> Result<(), ProgramFault>
    requires sound { IsScript script }
    requires calls { length (calls_in (numbered_lines play.now.input.now)) ≤ 1000000 }
    ensures printed { OnOk result
        ((text : List ℕ) × Appends (W.contents writer.old) (W.contents writer.new) text
        × OverTable (value_of script) (λ table.
        TracesOut parameters_facts play.now.devices play.now.limits
        (first_table_wire (value_of script) table)
        (calls_in (numbered_lines play.now.input.now)) text)) }
    ensures flaw { (why : TableFault) → result ≡ Err (fault.Table why)
        → HasFlaw (value_of script) why }
    ensures unwritten { (why : TableFault) → result ≡ Err (fault.Table why)
        → Keeps (W.contents writer.old) (W.contents writer.new) }
    ensures faults { IfErr result (λ e. (e ≡ OutOfMemory) ⊎ ((e ≡ WriteFailed)
        ⊎ ((why : TableFault) × (e ≡ fault.Table why)))) }
{
    let mut script = script;
    let steps = replace(&mut script.steps, Vec::new(alloc));
    let members = script.members(alloc)?;
    let rules = script.table.rules(alloc)?;
    let table = match Table::new(&members, &rules) {
        Ok(table) => table,
        Err(why) => return Err(ProgramFault::Table(why)),
    };
    let wire = table_wire_of(alloc, &script, &table, steps)?;
    traced_over(alloc, wire, play, writer)
}

/// Makes the calls on a new port over this wire.
fn traced_over<P: App, A: Handle, B: Beside<P>, W: Write>(
    alloc: A,
    wire: Sim<P, A, B>,
    play: &PortScript,
    writer: &mut W,
) -> Result<(), ProgramFault>
    requires { length (calls_in (numbered_lines play.now.input.now)) ≤ 1000000 }
    ensures printed { OnOk result
        ((text : List ℕ) × Appends (W.contents writer.old) (W.contents writer.new) text
        × TracesOut B.facts play.now.devices play.now.limits wire
        (calls_in (numbered_lines play.now.input.now)) text) }
    ensures faults { IfErr result (λ e. (e ≡ OutOfMemory) ⊎ (e ≡ WriteFailed)) }
{
    let tap = Tap::new(wire);
    let Ok(mut port) = Port::open_for(alloc, tap, &play.limits, play.devices) else {
        return Err(ProgramFault::OutOfMemory);
    };
    let mut tracer = Tracer::new(alloc);
    tracer.follow(&mut port, writer, play.input)?;
    print_ending(&mut tracer.output, port.wire().wire(), play.input)?;
    write_output(writer, tracer.output.as_str())
}
