//! `judge`: whether a device by the rules could have brought a capture.
ghost use Rattle.std.specs.Prelude.{◌≡◌, ◌≢◌, ℕ, List, Err, IfErr, IfOk, IfSome, OnErr, OnOk};
ghost use Rattle.std.specs.Io.KnownBytes.{Appends, Keeps};
ghost use Rattle.std.specs.String.{string_bytes};
ghost use Rattle.iol_capture.specs.Capture.{calls_of_capture, capture_judged};
ghost use Rattle.iol_capture.specs.declared.fault.CaptureFault.{CaptureFault};
ghost use Rattle.iol_capture.specs.declared.fault.CaptureFault.TheVariants.{Line};
ghost use Rattle.iol_capture.specs.declared.fault.LineFault.{LineFault};
ghost use Rattle.iol_capture.specs.declared.telling.CaptureForm.TheVariants.{Octets};
ghost use Rattle.iol_commands.specs.declared.judge_command.JudgeFault.TheVariants.{Capture, OutOfMemory, WriteFailed};
ghost use Rattle.iol_script.specs.Printing.{Prints};
ghost use Rattle.iol_capture.specs.Findings.{finding_text};
ghost use Rattle.iol_commands.specs.JudgePrinted.{Judges};
ghost use Rattle.iol_commands.specs.OctetsTraced.{JudgesTraced, PrintsCalls};

use crate::octet_tracing::trace_octets;
use crate::streams::write_output;
use iol_capture::{CaptureFault, CaptureForm, Finding, Judgement, judge_capture};
use iol_judge::Odd;
use iol_link::Rate;
use std::alloc::{AllocError, Allocator};
use std::io::{Read, Write};
use thiserror::Error;

/// Why a capture isn't judged. Its text is what stands on standard error behind `iolink: `.
#[derive(Clone, Copy, Debug, PartialEq, Eq, Error)]
pub enum JudgeFault {
    /// It can't be read, or a line of it is bad in its place.
    #[error("{0}")]
    Capture(CaptureFault),
    /// A write of the output failed. Part of the output may be written.
    #[error("write failed")]
    WriteFailed,
    /// No memory was left.
    #[error("out of memory")]
    OutOfMemory,
}

impl From<AllocError> for JudgeFault {
    ghost from_gives = { λ _ fault. fault ≡ OutOfMemory };

    fn from(_error: AllocError) -> JudgeFault {
        JudgeFault::OutOfMemory
    }
}

impl From<CaptureFault> for JudgeFault {
    ghost from_gives = { λ why fault. fault ≡ Capture why };

    fn from(why: CaptureFault) -> JudgeFault {
        JudgeFault::Capture(why)
    }
}

/// Reads a capture in this form, of any length, and prints whether a device by the rules
/// could have brought it over a line that loses messages and replies, or damages them so that it
/// shows. Odd replies are blamed, or passed over.
///
/// The capture is read line by line, to its end or to its first bad line; then what was found is
/// written: the first 100 exchanges in which something was passed over, each in a line; how
/// many lines were skipped and octets passed over; what is said of the master, by its first fault
/// in the whole capture; of which kinds the device may be, where it can't be of each; the verdict.
/// Where any fault is met but that of a write, nothing is written.
pub fn judge<A: Allocator, R: Read, W: Write>(
    alloc: A,
    form: CaptureForm,
    odd: Odd,
    reader: &mut R,
    writer: &mut W,
) -> Result<Finding, JudgeFault>
    // What is read.
    ensures bad_line { (n : ℕ) → (why : LineFault) → result ≡ Err (Capture (Line n why))
        → IfSome (R.remaining reader.old) (λ capture. capture_judged form odd capture
        ≡ Err (Line n why)) }

    // What is written.
    ensures printed { IfOk result (λ finding. (text : List ℕ)
        × Appends (W.contents writer.old) (W.contents writer.new) text
        × IfSome (R.remaining reader.old) (λ capture. Judges form odd capture finding text)) }
    ensures nothing { OnErr result (result ≢ Err WriteFailed
        → Keeps (W.contents writer.old) (W.contents writer.new)) }
{
    let judgement = judge_capture(form, odd, reader)?;
    let text = judgement.text(alloc)?;
    if write_output(writer, text.as_str()).is_err() {
        return Err(JudgeFault::WriteFailed);
    }
    Ok(judgement.finding())
}

/// Reads a capture of the octets of a line with this rate, and prints what [`judge`] prints of it;
/// before that, as a trace, the calls that the octets are split into, each behind a line with the
/// time at which it began.
///
/// What is printed is written as it comes, in pieces, so that a capture of any length takes little
/// memory. Where a line is bad, or a read fails, the calls before it are written. Where memory is
/// short or a write fails, part of the output may be written.
pub fn judge_traced<A: Allocator + Copy, R: Read, W: Write>(
    alloc: A,
    rate: Rate,
    odd: Odd,
    reader: &mut R,
    writer: &mut W,
) -> Result<Finding, JudgeFault>
    // What is read.
    ensures bad_line { (n : ℕ) → (why : LineFault) → result ≡ Err (Capture (Line n why))
        → IfSome (R.remaining reader.old) (λ capture. capture_judged (Octets rate) odd capture
        ≡ Err (Line n why)) }

    // What is written.
    ensures printed { IfOk result (λ finding. (text : List ℕ)
        × Appends (W.contents writer.old) (W.contents writer.new) text
        × IfSome (R.remaining reader.old)
        (λ capture. JudgesTraced rate odd capture finding text)) }
    ensures before { (n : ℕ) → (why : LineFault) → result ≡ Err (Capture (Line n why))
        → (text : List ℕ) × Appends (W.contents writer.old) (W.contents writer.new) text
        × IfSome (R.remaining reader.old)
        (λ capture. PrintsCalls rate (calls_of_capture (Octets rate) odd capture) text) }
    ensures appended { result ≢ Err WriteFailed
        → (text : List ℕ) × Appends (W.contents writer.old) (W.contents writer.new) text }
{
    let mut output = String::new(alloc);
    match trace_octets(&mut output, rate, odd, reader, writer) {
        Ok(judgement) => {
            print_finding(alloc, &mut output, &judgement)?;
            write_rest(writer, &output)?;
            let finding = judgement.finding();
            Ok(finding)
        }
        Err(fault) => Err(stop(writer, &output, fault)),
    }
}

/// Why it ends before the end of the capture. Where a line is bad, or a read fails, what was
/// printed is written.
fn stop<A: Allocator, W: Write>(writer: &mut W, output: &String<A>, fault: JudgeFault) -> JudgeFault
    ensures same { result ≢ WriteFailed → result ≡ fault }
    ensures written { (why : CaptureFault) → result ≡ Capture why
        → Appends (W.contents writer.old) (W.contents writer.new) (string_bytes output.now) }
    ensures unchanged { result ≡ OutOfMemory
        → Keeps (W.contents writer.old) (W.contents writer.new) }
{
    match fault {
        JudgeFault::Capture(_) => match write_rest(writer, output) {
            Ok(()) => fault,
            Err(failed) => failed,
        },
        JudgeFault::WriteFailed | JudgeFault::OutOfMemory => fault,
    }
}

/// What was found.
fn print_finding<A: Allocator>(
    alloc: A,
    output: &mut String<A>,
    judgement: &Judgement,
) -> Result<(), AllocError>
    ensures { Prints result output.old output.new (finding_text judgement.now) }
{
    let text = judgement.text(alloc)?;
    output.push_str(text.as_str())
}

/// Writes what is left to be written.
fn write_rest<A: Allocator, W: Write>(writer: &mut W, output: &String<A>) -> Result<(), JudgeFault>
    ensures written { OnOk result
        (Appends (W.contents writer.old) (W.contents writer.new) (string_bytes output.now)) }
    ensures fault { IfErr result (λ e. e ≡ WriteFailed) }
{
    if write_output(writer, output.as_str()).is_err() {
        return Err(JudgeFault::WriteFailed);
    }
    Ok(())
}
