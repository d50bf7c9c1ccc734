//! `run`: a port over a simulated wire, as a script says.
ghost use Rattle.std.specs.Prelude.{◌≢◌, Err, None, OnErr, Some};
ghost use Rattle.std.specs.Io.KnownBytes.{Keeps};
ghost use Rattle.iol_commands.specs.declared.fault.ProgramFault.TheVariants.{NoThread, WriteFailed};
ghost use Rattle.iol_commands.specs.Input.{AnswersInput};
ghost use Rattle.iol_stored_commands.specs.StoredPlayed.{script_reading};

use crate::stored_run::played_stored;
use iol_cell::Handle;
use iol_commands::{ProgramFault, played, read_input, write_output};
use iol_stored_script::mode_of;
use std::io::{Read, Write};

/// Reads a script, and makes its calls on a port over a simulated wire, which the script describes
/// too: as [`run`](iol_commands::run) on a plain port, or, where a line says `store`, on one with
/// Data Storage.
pub fn run_script<A: Handle, R: Read, W: Write>(
    alloc: A,
    reader: &mut R,
    writer: &mut W,
) -> Result<(), ProgramFault>
    ensures answers { AnswersInput script_reading (record {
      input = R.remaining reader.old;
      input_left = R.remaining reader.new;
      output = W.contents writer.old;
      output_new = W.contents writer.new;
    }) result }
    ensures nothing { OnErr result (result ≢ Err WriteFailed
        → Keeps (W.contents writer.old) (W.contents writer.new)) }
    ensures threads { result ≢ Err NoThread }
{
    let input = read_input(alloc, reader)?;
    let output = match mode_of(input.as_slice()) {
        Some(mode) => played_stored(alloc, mode, input.as_slice())?,
        None => played(alloc, input.as_slice())?,
    };
    write_output(writer, output.as_str())
}
