//! A command, carried out over a reader and a writer.
ghost use Rattle.std.specs.Prelude.{◌≡◌, ◌≢◌, ◌⊎◌, ℕ, Err, OnErr, OnOk};
ghost use Rattle.std.specs.Io.KnownBytes.{Keeps};
ghost use Rattle.iolink.specs.declared.command.PrintingCommand.TheVariants.{Many, Trace};
ghost use Rattle.iol_commands.specs.declared.fault.ProgramFault.TheVariants.{NoThread, OutOfMemory, WriteFailed};
ghost use Rattle.iolink.specs.Performed.{reading_of};
ghost use Rattle.iol_commands.specs.Input.{AnswersInput, OfLines};

use crate::command::PrintingCommand;
use crate::ending::Ending;
use iol_capture::{CaptureForm, Finding};
use iol_commands::{ProgramFault, check, judge, judge_traced, many};
use iol_judge::Odd;
use iol_link::Rate;
use iol_stored_commands::{run_script, trace_script};
use std::alloc::Global;
use std::io::{Read, Write};
use std::sync::Wait;
use std::thread::Threads;

/// Carries out a command. What it reads and writes is what that command reads and writes.
pub(crate) fn perform<T: Threads + Wait + Sync, R: Read, W: Write>(
    rt: &T,
    alloc: Global,
    mode: PrintingCommand,
    reader: &mut R,
    writer: &mut W,
) -> Result<(), ProgramFault>
    ensures answers { AnswersInput (reading_of mode) (record {
      input = R.remaining reader.old;
      input_left = R.remaining reader.new;
      output = W.contents writer.old;
      output_new = W.contents writer.new;
    }) result }
    ensures threads { mode ≢ Many → result ≢ Err NoThread }
    ensures no_thread { result ≡ Err NoThread → OfLines (R.remaining reader.old)
        (reading_of mode).are_good }
    ensures nothing { OnErr result
        (result ≢ Err WriteFailed → (mode ≡ Trace → result ≢ Err OutOfMemory)
        → Keeps (W.contents writer.old) (W.contents writer.new)) }
{
    match mode {
        PrintingCommand::Check => check(alloc, reader, writer),
        PrintingCommand::Run => run_script(alloc, reader, writer),
        PrintingCommand::Trace => trace_script(alloc, reader, writer),
        PrintingCommand::Many => many(rt, alloc, reader, writer),
    }
}

ghost use Rattle.std.specs.Prelude.{List, IfErr, IfSome};
ghost use Rattle.std.specs.Io.KnownBytes.{Appends};
ghost use Rattle.iol_capture.specs.Capture.{calls_of_capture, capture_judged};
ghost use Rattle.iol_capture.specs.declared.fault.CaptureFault.TheVariants as capture_fault;
ghost use Rattle.iol_capture.specs.declared.fault.LineFault.{LineFault};
ghost use Rattle.iol_capture.specs.declared.printing.Finding.{Finding};
ghost use Rattle.iol_capture.specs.declared.printing.Finding.TheVariants.{Honest, MasterAtFault};
ghost use Rattle.iolink.specs.declared.ending.Ending.TheVariants.{MasterAtFault as MasterEnding, NotHonest, NotJudged};
ghost use Rattle.iol_commands.specs.declared.judge_command.JudgeFault.TheVariants as judge_fault;
ghost use Rattle.iol_capture.specs.declared.telling.CaptureForm.TheVariants.{Octets};
ghost use Rattle.iol_commands.specs.JudgePrinted.{Judges};
ghost use Rattle.iol_commands.specs.OctetsTraced.{JudgesTraced, PrintsCalls};

/// Judges a capture in this form, and does this with odd replies. It ends well where nothing was
/// found, but what is passed over.
pub(crate) fn perform_judge<R: Read, W: Write>(
    alloc: Global,
    form: CaptureForm,
    odd: Odd,
    reader: &mut R,
    writer: &mut W,
) -> Result<(), Ending>
    // What is read.
    ensures bad_line { (n : ℕ) → (why : LineFault)
        → result ≡ Err (NotJudged (judge_fault.Capture (capture_fault.Line n why)))
        → IfSome (R.remaining reader.old)
        (λ capture. capture_judged form odd capture ≡ Err (capture_fault.Line n why)) }

    // What is written.
    ensures honest { OnOk result ((text : List ℕ)
        × Appends (W.contents writer.old) (W.contents writer.new) text
        × IfSome (R.remaining reader.old) (λ capture. Judges form odd capture Honest text)) }
    ensures not_honest { result ≡ Err NotHonest → (finding : Finding) × (text : List ℕ)
        × (finding ≢ Honest) × (finding ≢ MasterAtFault)
        × Appends (W.contents writer.old) (W.contents writer.new) text
        × IfSome (R.remaining reader.old) (λ capture. Judges form odd capture finding text) }
    ensures at_fault { result ≡ Err MasterEnding → (text : List ℕ)
        × Appends (W.contents writer.old) (W.contents writer.new) text
        × IfSome (R.remaining reader.old)
        (λ capture. Judges form odd capture MasterAtFault text) }
    ensures nothing { OnErr result
        (result ≢ Err NotHonest → result ≢ Err MasterEnding
        → result ≢ Err (NotJudged judge_fault.WriteFailed)
        → Keeps (W.contents writer.old) (W.contents writer.new)) }
{
    ended_by(judge(alloc, form, odd, reader, writer)?)
}

/// Judges the octets of a line with this rate as [`perform_judge`] does, and prints the calls that
/// they are split into.
pub(crate) fn perform_judge_traced<R: Read, W: Write>(
    alloc: Global,
    rate: Rate,
    odd: Odd,
    reader: &mut R,
    writer: &mut W,
) -> Result<(), Ending>
    // What is read.
    ensures bad_line { (n : ℕ) → (why : LineFault)
        → result ≡ Err (NotJudged (judge_fault.Capture (capture_fault.Line n why)))
        → IfSome (R.remaining reader.old) (λ capture.
        capture_judged (Octets rate) odd capture ≡ Err (capture_fault.Line n why)) }

    // What is written.
    ensures honest { OnOk result ((text : List ℕ)
        × Appends (W.contents writer.old) (W.contents writer.new) text
        × IfSome (R.remaining reader.old) (λ capture. JudgesTraced rate odd capture Honest text)) }
    ensures not_honest { result ≡ Err NotHonest → (finding : Finding) × (text : List ℕ)
        × (finding ≢ Honest) × (finding ≢ MasterAtFault)
        × Appends (W.contents writer.old) (W.contents writer.new) text
        × IfSome (R.remaining reader.old)
        (λ capture. JudgesTraced rate odd capture finding text) }
    ensures at_fault { result ≡ Err MasterEnding → (text : List ℕ)
        × Appends (W.contents writer.old) (W.contents writer.new) text
        × IfSome (R.remaining reader.old)
        (λ capture. JudgesTraced rate odd capture MasterAtFault text) }
    ensures before { (n : ℕ) → (why : LineFault)
        → result ≡ Err (NotJudged (judge_fault.Capture (capture_fault.Line n why)))
        → (text : List ℕ) × Appends (W.contents writer.old) (W.contents writer.new) text
        × IfSome (R.remaining reader.old)
        (λ capture. PrintsCalls rate (calls_of_capture (Octets rate) odd capture) text) }
    ensures appended { result ≢ Err (NotJudged judge_fault.WriteFailed)
        → (text : List ℕ) × Appends (W.contents writer.old) (W.contents writer.new) text }
{
    ended_by(judge_traced(alloc, rate, odd, reader, writer)?)
}

/// How the program ends where this was found.
fn ended_by(finding: Finding) -> Result<(), Ending>
    ensures honest { OnOk result (finding ≡ Honest) }
    ensures not_honest { result ≡ Err NotHonest → (finding ≢ Honest) × (finding ≢ MasterAtFault) }
    ensures at_fault { result ≡ Err MasterEnding → finding ≡ MasterAtFault }
    ensures others { IfErr result (λ ending. (ending ≡ NotHonest) ⊎ (ending ≡ MasterEnding)) }
{
    match finding {
        Finding::Honest => Ok(()),
        Finding::MasterAtFault => Err(Ending::MasterAtFault),
        Finding::NotHonest | Finding::CantSay => Err(Ending::NotHonest),
    }
}
