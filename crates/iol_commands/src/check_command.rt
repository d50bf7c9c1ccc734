//! `check`: what the octets of each line spell.
ghost use Rattle.std.specs.Prelude.{◌≡◌, ◌≢◌, ◌⊎◌, ℕ, Err, OnErr, OnOk, IfOk, IfErr, Some, None};
ghost use Rattle.std.specs.Io.KnownBytes.{Keeps};
ghost use Rattle.std.specs.String.{string_bytes};
ghost use Rattle.iol_mseq.specs.Shape.{startup_shape};
ghost use Rattle.iol_commands.specs.declared.fault.ProgramFault.TheVariants.{Line, NoThread, OutOfMemory, WriteFailed};
ghost use Rattle.iol_script.specs.CheckLines.{first_bad, parsed_form};
ghost use Rattle.iol_commands.specs.Printed.{PrintsSome};
ghost use Rattle.iol_commands.specs.Checked.{asked_layout, layout_after, PrintsLine, PrintsAll, check_reading};
ghost use Rattle.iol_script.specs.Text.{numbered_lines};
ghost use Rattle.iol_commands.specs.Input.{AnswersInput};

use crate::fault::ProgramFault;
use crate::printing::print_layout;
use crate::streams::{read_input, write_output};
use iol_mseq::{Layout, MseqFault};
use iol_print::{print_message_of, print_refusal, print_reply_of};
use iol_script::{CheckLine, LayoutLine, TextLines};
use std::alloc::{AllocError, Allocator};
use std::io::{Read, Write};

/// Reads lines that name layouts or spell master messages and replies, and prints
/// one line for each of them.
///
/// The input is read whole, up to 1,048,576 bytes. Its lines are then worked from
/// first to last, in the layout of STARTUP at first, and the output is written at
/// the end. The first fault that is met ends the call: nothing is written then, but
/// where it is a write that fails part of the output may be.
pub fn check<A: Allocator + Copy, R: Read, W: Write>(
    alloc: A,
    reader: &mut R,
    writer: &mut W,
) -> Result<(), ProgramFault>
    ensures answers { AnswersInput check_reading (record {
      input = R.remaining reader.old;
      input_left = R.remaining reader.new;
      output = W.contents writer.old;
      output_new = W.contents writer.new;
    }) result }
    ensures nothing { OnErr result (result ≢ Err WriteFailed
        → Keeps (W.contents writer.old) (W.contents writer.new)) }
    ensures threads { result ≢ Err NoThread }
{
    let input = read_input(alloc, reader)?;
    let output = checked(alloc, input.as_slice())?;
    write_output(writer, output.as_str())
}

/// What is printed for the whole input.
fn checked<A: Allocator>(alloc: A, input: &[u8]) -> Result<String<A>, ProgramFault>
    ensures good { OnOk result (first_bad (numbered_lines input.now) ≡ None) }
    ensures printed { IfOk result (λ output. PrintsAll startup_shape (numbered_lines input.now)
        (string_bytes output)) }
    ensures line { (n : ℕ) → result ≡ Err (Line n) → first_bad (numbered_lines input.now) ≡ Some n }
    ensures faults { IfErr result (λ e. (e ≡ OutOfMemory) ⊎ ((n : ℕ) × (e ≡ Line n))) }
{
    let mut output = String::new(alloc);
    let mut layout = Layout::startup();
    for (number, line) in TextLines::of(input) {
        let Some(line) = CheckLine::parse(line) else {
            return Err(ProgramFault::Line(number));
        };
        answer(&mut output, &mut layout, &line)?;
    }
    Ok(output)
}

/// Prints what one line says. A layout that is taken is the present one from then on.
fn answer<A: Allocator>(
    output: &mut String<A>,
    layout: &mut Layout,
    line: &CheckLine,
) -> Result<(), AllocError>
    ensures printed { PrintsSome result output.old output.new
        (PrintsLine layout.old (parsed_form line.now)) }
    ensures layout { layout.new ≡ layout_after layout.old (parsed_form line.now) }
{
    match line {
        CheckLine::Skip => Ok(()),
        CheckLine::Layout(asked) => match layout_of(*asked) {
            Ok(taken) => {
                *layout = taken;
                print_layout(output, &taken)
            }
            Err(fault) => print_refusal(output, &fault),
        },
        CheckLine::Master(octets) => print_message_of(output, layout, octets.as_slice()),
        CheckLine::ReadReply(octets) => print_reply_of(output, layout, true, octets.as_slice()),
        CheckLine::WriteReply(octets) => print_reply_of(output, layout, false, octets.as_slice()),
    }
}

fn layout_of(line: LayoutLine) -> Result<Layout, MseqFault>
    ensures { result ≡ asked_layout line }
{
    match line {
        LayoutLine::Startup => Ok(Layout::startup()),
        LayoutLine::Preoperate(code) => Layout::preoperate(code),
        LayoutLine::Operate(code, input, output) => Layout::operate(code, input, output),
    }
}
