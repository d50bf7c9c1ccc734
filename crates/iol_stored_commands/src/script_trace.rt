//! `trace`: what `run` prints, and what goes over the wire.
ghost use Rattle.std.specs.Prelude.{◌≡◌, ◌≢◌, ◌⊎◌, ℕ, Err, IfErr, List, None, OnErr, OnOk, Some};
ghost use Rattle.std.specs.Io.KnownBytes.{Appends, Keeps};
ghost use Rattle.iol_params.specs.declared.table.TableFault.{TableFault};
ghost use Rattle.iol_script.specs.Script.{first_bad_run};
ghost use Rattle.iol_script.specs.Text.{numbered_lines};
ghost use Rattle.iol_commands.specs.declared.fault.ProgramFault.TheVariants.{Line, NoThread, OutOfMemory, WriteFailed};
ghost use Rattle.iol_commands.specs.declared.fault.ProgramFault.TheVariants as fault;
ghost use Rattle.iol_commands.specs.Input.{AnswersInput};
ghost use Rattle.iol_commands.specs.RunPlayed.{IsBadTable};
ghost use Rattle.iol_commands.specs.TracePrinted.{PrintsTrace};
ghost use Rattle.iol_stored_commands.specs.StoredPlayed.{lines_by_mode};
ghost use Rattle.iol_stored_commands.specs.StoredTraced.{TracesByMode, script_trace_reading};

use crate::stored_trace::traced_stored;
use iol_cell::Handle;
use iol_commands::{ProgramFault, read_input, traced};
use iol_script::Script;
use iol_storage::StorageMode;
use iol_stored_script::mode_of;
use std::io::{Read, Write};

/// Reads a script as [`run_script`](crate::run_script) does, makes its calls, and prints what that
/// prints; and for each call of the wire what went over it, as [`trace`](iol_commands::trace).
pub fn trace_script<A: Handle, R: Read, W: Write>(
    alloc: A,
    reader: &mut R,
    writer: &mut W,
) -> Result<(), ProgramFault>
    ensures answers { AnswersInput script_trace_reading (record {
      input = R.remaining reader.old;
      input_left = R.remaining reader.new;
      output = W.contents writer.old;
      output_new = W.contents writer.new;
    }) result }
    ensures nothing { OnErr result (result ≢ Err WriteFailed → result ≢ Err OutOfMemory
        → Keeps (W.contents writer.old) (W.contents writer.new)) }
    ensures threads { result ≢ Err NoThread }
{
    let input = read_input(alloc, reader)?;
    let mode = mode_of(input.as_slice());
    traced_by_mode(alloc, mode, input.as_slice(), writer)
}

/// Makes the calls of the whole input, where it asks for this mode of Data Storage, or for none.
fn traced_by_mode<A: Handle, W: Write>(
    alloc: A,
    mode: Option<StorageMode>,
    input: &[u8],
    writer: &mut W,
) -> Result<(), ProgramFault>
    ensures good { OnOk result
        (first_bad_run (lines_by_mode mode (numbered_lines input.now)) ≡ None) }
    ensures printed { OnOk result
        ((text : List ℕ) × Appends (W.contents writer.old) (W.contents writer.new) text
        × TracesByMode mode (numbered_lines input.now) text) }
    ensures line { (n : ℕ) → result ≡ Err (Line n)
        → first_bad_run (lines_by_mode mode (numbered_lines input.now)) ≡ Some n }
    ensures table { (why : TableFault) → result ≡ Err (fault.Table why)
        → IsBadTable (lines_by_mode mode (numbered_lines input.now)) why }
    ensures unwritten { IfErr result (λ e. (e ≡ OutOfMemory) ⊎ ((e ≡ WriteFailed)
        ⊎ Keeps (W.contents writer.old) (W.contents writer.new))) }
    ensures faults { IfErr result (λ e. (e ≡ OutOfMemory) ⊎ ((e ≡ WriteFailed)
        ⊎ (((n : ℕ) × (e ≡ Line n)) ⊎ ((why : TableFault) × (e ≡ fault.Table why))))) }
{
    match mode {
        Some(mode) => traced_stored(alloc, mode, input, writer),
        None => traced_plain(alloc, input, writer),
    }
}

/// The same where it asks for none.
fn traced_plain<A: Handle, W: Write>(
    alloc: A,
    input: &[u8],
    writer: &mut W,
) -> Result<(), ProgramFault>
    ensures good { OnOk result (first_bad_run (numbered_lines input.now) ≡ None) }
    ensures printed { OnOk result
        ((text : List ℕ) × Appends (W.contents writer.old) (W.contents writer.new) text
        × PrintsTrace (numbered_lines input.now) text) }
    ensures line { (n : ℕ) → result ≡ Err (Line n)
        → first_bad_run (numbered_lines input.now) ≡ Some n }
    ensures table { (why : TableFault) → result ≡ Err (fault.Table why)
        → IsBadTable (numbered_lines input.now) why }
    ensures unwritten { IfErr result (λ e. (e ≡ OutOfMemory) ⊎ ((e ≡ WriteFailed)
        ⊎ Keeps (W.contents writer.old) (W.contents writer.new))) }
    ensures faults { IfErr result (λ e. (e ≡ OutOfMemory) ⊎ ((e ≡ WriteFailed)
        ⊎ (((n : ℕ) × (e ≡ Line n)) ⊎ ((why : TableFault) × (e ≡ fault.Table why))))) }
{
    let script = Script::read(alloc, input)?;
    traced(alloc, script, input, writer)
}
