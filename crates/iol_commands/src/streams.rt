//! The input read whole, and the output written at the end.
ghost use Rattle.std.specs.Prelude.{◌≡◌, ◌≤◌, ◌⊎◌, vec_len, Err, OnOk, IfOk, IfErr, IfSome};
ghost use Rattle.std.specs.Io.KnownBytes.{Appends};
ghost use Rattle.iol_commands.specs.declared.fault.ProgramFault.TheVariants.{TooLong, ReadFailed, WriteFailed, OutOfMemory};
ghost use Rattle.iol_commands.specs.Input.{IsTooLong, TakesInput};

use crate::fault::ProgramFault;
use std::alloc::Allocator;
use std::io::{Read, Write};

/// The most bytes that the input of a command may have.
pub const LIMIT: usize = 1_048_576;

/// How many bytes are asked for at once.
const PIECE: usize = 4096;

/// All that the reader has. At most one byte past the limit is read, and no read
/// follows one that failed.
pub fn read_input<A: Allocator, R: Read>(
    alloc: A,
    reader: &mut R,
) -> Result<Vec<u8, A>, ProgramFault>
    ensures all { IfOk result (λ v. IfSome (R.remaining reader.old) (λ xs. v.items ≡ xs)) }
    ensures within { IfOk result (λ v. vec_len v ≤ LIMIT) }
    ensures too_long { result ≡ Err TooLong → IsTooLong (R.remaining reader.old) }
    ensures faults { IfErr result (λ e. (e ≡ TooLong) ⊎ ((e ≡ ReadFailed) ⊎ (e ≡ OutOfMemory))) }
    ensures taken { TakesInput (R.remaining reader.old) (R.remaining reader.new) }
{
    let mut input = Vec::new(alloc);
    let mut piece = [0u8; PIECE];
    for _ in 0..LIMIT + 1 {
        let room = PIECE.min(LIMIT + 1 - input.len());
        let Ok(count) = reader.read(&mut piece[..room]) else {
            return Err(ProgramFault::ReadFailed);
        };
        if count == 0 {
            return Ok(input);
        }
        if count > LIMIT - input.len() {
            return Err(ProgramFault::TooLong);
        }
        input.extend_from_slice(&piece[..count])?;
    }
    unreachable!()
}

/// Writes the text whole.
pub fn write_output<W: Write>(writer: &mut W, text: &str) -> Result<(), ProgramFault>
    ensures ok { OnOk result (Appends (W.contents writer.old) (W.contents writer.new) text.now) }
    ensures err { IfErr result (λ e. e ≡ WriteFailed) }
{
    if writer.write_all(text.as_bytes()).is_err() || writer.flush().is_err() {
        return Err(ProgramFault::WriteFailed);
    }
    Ok(())
}
