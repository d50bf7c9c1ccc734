//! `many`: many ports, and clients in threads of their own.
ghost use Rattle.std.specs.Prelude.{◌≡◌, ◌≢◌, ◌≤◌, ◌⊎◌, length, ℕ};
ghost use Rattle.std.specs.Prelude.{Err, IfErr, IfOk, IsOk, OnErr, OnOk};
ghost use Rattle.std.specs.Io.KnownBytes.{Keeps};
ghost use Rattle.std.specs.String.{string_bytes};
ghost use Rattle.iol_script.specs.Plan.{plan_of};
ghost use Rattle.iol_script.specs.Text.{numbered_lines};
ghost use Rattle.iol_commands.specs.declared.fault.ProgramFault.TheVariants.{Line, NoDesk};
ghost use Rattle.iol_commands.specs.declared.fault.ProgramFault.TheVariants.{NoThread, OutOfMemory};
ghost use Rattle.iol_commands.specs.declared.fault.ProgramFault.TheVariants.{WriteFailed};
ghost use Rattle.iol_commands.specs.ManyPrinted.{PrintsCounts, many_reading};
ghost use Rattle.iol_commands.specs.Input.{AnswersInput, OfLines};

use crate::fault::ProgramFault;
use crate::many_printing::print_counts;
use crate::streams::{LIMIT, read_input, write_output};
use iol_clients::serve_clients;
use iol_script::Plan;
use std::alloc::Global;
use std::io::{Read, Write};
use std::sync::Wait;
use std::thread::Threads;

/// Reads a plan, lets its clients submit while its ports make turns, and prints
/// what became of the tickets.
///
/// The input is read whole, up to 1,048,576 bytes. Its lines are then read from first to last,
/// and the plan that they say is carried out. A line is printed for each port, from port 1, behind
/// it one for its counters if the plan shows them, and at the end one for the total. The output is
/// written at the end. The first fault that is met ends the call: nothing is written then, but
/// where it is a write that fails part of the output may be.
pub fn many<T: Threads + Wait + Sync, R: Read, W: Write>(
    rt: &T,
    alloc: Global,
    reader: &mut R,
    writer: &mut W,
) -> Result<(), ProgramFault>
    ensures answers { AnswersInput many_reading (record {
      input = R.remaining reader.old;
      input_left = R.remaining reader.new;
      output = W.contents writer.old;
      output_new = W.contents writer.new;
    }) result }
    ensures no_thread { result ≡ Err NoThread
        → OfLines (R.remaining reader.old) many_reading.are_good }
    ensures nothing { OnErr result (result ≢ Err WriteFailed
        → Keeps (W.contents writer.old) (W.contents writer.new)) }
{
    let input = read_input(alloc, reader)?;
    let output = served(rt, alloc, input.as_slice())?;
    write_output(writer, output.as_str())
}

/// What is printed for the whole input.
fn served<T: Threads + Wait + Sync>(
    rt: &T,
    alloc: Global,
    input: &[u8],
) -> Result<String, ProgramFault>
    requires { length input.now ≤ LIMIT }
    ensures good { OnOk result (IsOk (plan_of (numbered_lines input.now))) }
    ensures printed { IfOk result (λ output. PrintsCounts (numbered_lines input.now)
        (string_bytes output)) }
    ensures line { (n : ℕ) → result ≡ Err (Line n) → plan_of (numbered_lines input.now) ≡ Err n }
    ensures no_thread { result ≡ Err NoThread → IsOk (plan_of (numbered_lines input.now)) }
    ensures faults { IfErr result (λ e. (e ≡ OutOfMemory) ⊎ (e ≡ NoThread) ⊎ (e ≡ NoDesk)
        ⊎ ((n : ℕ) × (e ≡ Line n))) }
{
    let plan = Plan::read(input)?;
    let counts = serve_clients(rt, alloc, &plan)?;
    let mut output = String::new(alloc);
    print_counts(&mut output, &counts, plan.shown)?;
    Ok(output)
}
