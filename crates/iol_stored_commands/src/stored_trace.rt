//! What `trace` prints for a script of a port with Data Storage.
ghost use Rattle.std.specs.Prelude.{◌≡◌, ◌⊎◌, ◌≤◌, ℕ, Err, IfErr, List, None, OnOk, Some, length};
ghost use Rattle.std.specs.Io.KnownBytes.{Appends, Keeps};
ghost use Rattle.iol_params.specs.declared.table.TableFault.{TableFault};
ghost use Rattle.iol_param_sim.specs.Parameters.{parameters_facts};
ghost use Rattle.iol_script.specs.Script.{IsScript, calls_in, first_bad_run, value_of};
ghost use Rattle.iol_script.specs.Text.{numbered_lines};
ghost use Rattle.iol_commands.specs.declared.fault.ProgramFault.TheVariants.{Line, OutOfMemory, WriteFailed};
ghost use Rattle.iol_commands.specs.declared.fault.ProgramFault.TheVariants as fault;
ghost use Rattle.iol_commands.specs.RunPlayed.{HasFlaw, IsBadTable, OverTable, first_table_wire};
ghost use Rattle.iol_stored_script.specs.PlainText.{plain_lines};
ghost use Rattle.iol_stored_script.specs.declared.as_plain.StoreLine.TheVariants.{Awaited};
ghost use Rattle.iol_stored_commands.specs.StoredPlayed.{stored_calls_in};
ghost use Rattle.iol_stored_commands.specs.StoredTraced.{StoredTracesOut, TracesByMode, TracesOn};

use crate::stored_playing::StoredScript;
use crate::stored_run::opened_none;
use crate::stored_tracing::StoredTracer;
use crate::wired_port::WiredPort;
use iol_cell::Handle;
use iol_commands::{ProgramFault, print_ending, table_wire_of, wire_of, write_output};
use iol_device::App;
use iol_params::Table;
use iol_script::Script;
use iol_sim::{Beside, Sim, Tap};
use iol_storage::{StorageMode, StoredFault};
use iol_stored_script::plain_text;
use std::io::Write;
use std::mem::replace;

/// Makes the calls of the whole input, where the port has this mode of Data Storage.
pub(crate) fn traced_stored<A: Handle, W: Write>(
    alloc: A,
    mode: StorageMode,
    input: &[u8],
    writer: &mut W,
) -> Result<(), ProgramFault>
    ensures good { OnOk result
        (first_bad_run (plain_lines Awaited (numbered_lines input.now)) ≡ None) }
    ensures printed { OnOk result
        ((text : List ℕ) × Appends (W.contents writer.old) (W.contents writer.new) text
        × TracesByMode (Some mode) (numbered_lines input.now) text) }
    ensures line { (n : ℕ) → result ≡ Err (Line n)
        → first_bad_run (plain_lines Awaited (numbered_lines input.now)) ≡ Some n }
    ensures table { (why : TableFault) → result ≡ Err (fault.Table why)
        → IsBadTable (plain_lines Awaited (numbered_lines input.now)) why }
    ensures unwritten { IfErr result (λ e. (e ≡ OutOfMemory) ⊎ ((e ≡ WriteFailed)
        ⊎ Keeps (W.contents writer.old) (W.contents writer.new))) }
    ensures faults { IfErr result (λ e. (e ≡ OutOfMemory) ⊎ ((e ≡ WriteFailed)
        ⊎ (((n : ℕ) × (e ≡ Line n)) ⊎ ((why : TableFault) × (e ≡ fault.Table why))))) }
{
    let plain = plain_text(alloc, input)?;
    let script = Script::read(alloc, plain.as_slice())?;
    let play = StoredScript {
        mode,
        devices: script.devices,
        limits: script.limits,
        input,
        plain: plain.as_slice(),
    };
    if script.table.is_empty() {
        traced_over(alloc, wire_of(alloc, script)?, &play, writer)
    } else {
        traced_by_table(alloc, script, &play, writer)
    }
}

/// Makes the calls, where the device has a table.
fn traced_by_table<A: Handle, W: Write>(
    alloc: A,
    script: Script<A>,
    play: &StoredScript,
    writer: &mut W,
) -> Result<(), ProgramFault>
    requires sound { IsScript script }
    requires calls { length (stored_calls_in (numbered_lines play.now.input.now)) ≤ 1000000 }
    ensures printed { OnOk result
        ((text : List ℕ) × Appends (W.contents writer.old) (W.contents writer.new) text
        × OverTable (value_of script) (λ table.
        StoredTracesOut parameters_facts play.now.mode play.now.devices play.now.limits
        (first_table_wire (value_of script) table)
        (stored_calls_in (numbered_lines play.now.input.now))
        (calls_in (numbered_lines play.now.plain.now)) text)) }
    ensures flaw { (why : TableFault) → result ≡ Err (fault.Table why)
        → HasFlaw (value_of script) why }
    ensures unwritten { (why : TableFault) → result ≡ Err (fault.Table why)
        → Keeps (W.contents writer.old) (W.contents writer.new) }
    ensures faults { IfErr result (λ e. (e ≡ OutOfMemory) ⊎ ((e ≡ WriteFailed)
        ⊎ ((why : TableFault) × (e ≡ fault.Table why)))) }
{
    let mut script = script;
    let steps = replace(&mut script.steps, Vec::new(alloc));
    let members = script.members(alloc)?;
    let rules = script.table.rules(alloc)?;
    let table = match Table::new(&members, &rules) {
        Ok(table) => table,
        Err(why) => return Err(ProgramFault::Table(why)),
    };
    let wire = table_wire_of(alloc, &script, &table, steps)?;
    traced_over(alloc, wire, play, writer)
}

/// Makes the calls on a new port over this wire.
fn traced_over<P: App, A: Handle, B: Beside<P>, W: Write>(
    alloc: A,
    wire: Sim<P, A, B>,
    play: &StoredScript,
    writer: &mut W,
) -> Result<(), ProgramFault>
    requires { length (stored_calls_in (numbered_lines play.now.input.now)) ≤ 1000000 }
    ensures printed { OnOk result
        ((text : List ℕ) × Appends (W.contents writer.old) (W.contents writer.new) text
        × StoredTracesOut B.facts play.now.mode play.now.devices play.now.limits wire
        (stored_calls_in (numbered_lines play.now.input.now))
        (calls_in (numbered_lines play.now.plain.now)) text) }
    ensures faults { IfErr result (λ e. (e ≡ OutOfMemory) ⊎ (e ≡ WriteFailed)) }
{
    let tap = Tap::new(wire);
    match WiredPort::open(alloc, tap, &play.limits, play.devices, play.mode) {
        Ok(port) => traced_on(alloc, port, play, writer),
        Err((StoredFault::SmallQueue, tap)) => {
            let output = opened_none(alloc, tap.wire(), play)?;
            write_output(writer, output.as_str())
        }
        Err(_) => Err(ProgramFault::OutOfMemory),
    }
}

/// Makes the calls on this port.
fn traced_on<P: App, A: Handle, B: Beside<P>, W: Write>(
    alloc: A,
    port: WiredPort<Tap<Sim<P, A, B>>, A>,
    play: &StoredScript,
    writer: &mut W,
) -> Result<(), ProgramFault>
    requires { length (stored_calls_in (numbered_lines play.now.input.now)) ≤ 1000000 }
    ensures printed { OnOk result
        ((text : List ℕ) × Appends (W.contents writer.old) (W.contents writer.new) text
        × TracesOn B.facts port (stored_calls_in (numbered_lines play.now.input.now))
        (calls_in (numbered_lines play.now.plain.now)) text) }
    ensures faults { IfErr result (λ e. (e ≡ OutOfMemory) ⊎ (e ≡ WriteFailed)) }
{
    let mut port = port;
    let mut tracer = StoredTracer::new(alloc);
    tracer.follow(&mut port, writer, play.input)?;
    print_ending(&mut tracer.output, port.wire().wire(), play.plain)?;
    write_output(writer, tracer.output.as_str())
}
