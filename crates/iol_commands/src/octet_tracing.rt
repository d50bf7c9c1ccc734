//! The calls that a capture of octets is split into, printed as they come.
ghost use Rattle.std.specs.Prelude.{◌≡◌, ◌⊎◌, ◌∷◌, ◌≢◌, [], ℕ, List, Err, IfErr, IfOk, OnOk, Ok};
ghost use Rattle.std.specs.Io.KnownBytes.{Appends, Keeps};
ghost use Rattle.std.specs.List.{cons_option};
ghost use Rattle.std.specs.String.{string_bytes};
ghost use Rattle.iol_script.specs.Printing.{Prints};
ghost use Rattle.iol_capture.specs.declared.fault.CaptureFault.TheVariants.{Line};
ghost use Rattle.iol_capture.specs.declared.fault.LineFault.{LineFault};
ghost use Rattle.iol_commands.specs.declared.judge_command.JudgeFault.TheVariants.{Capture, OutOfMemory, WriteFailed};
ghost use Rattle.iol_commands.specs.Printed.{PrintsSome};
ghost use Rattle.iol_commands.specs.OctetsTraced.{FlowsCalls, PrintsItem, PrintsTimed, ReadsEnd, ReadsText, TracesReader, fraction_text, octets_place, rate_answered, time_text};

use crate::judge_command::JudgeFault;
use crate::tracing::pass_on;
use iol_capture::{CaptureFault, CaptureForm, CaptureReader, Judgement, SplitItem, TimedCall};
use iol_judge::{Odd, Wake};
use iol_link::Rate;
use iol_print::{print_exchange, print_wake};
use std::alloc::{AllocError, Allocator};
use std::io::{Read, Write};

/// How many bytes are asked for at once.
const PIECE: usize = 4096;

/// A second, in nanoseconds.
const SECOND: u64 = 1_000_000_000;

/// Reads a capture of the octets of a line with this rate to its end, or to its first bad line, and
/// prints the calls that it is split into. What is printed is written, but for a rest.
pub(crate) fn trace_octets<A: Allocator, R: Read, W: Write>(
    output: &mut String<A>,
    rate: Rate,
    odd: Odd,
    reader: &mut R,
    writer: &mut W,
) -> Result<Judgement, JudgeFault>
    ensures whole { IfOk result (λ judgement. TracesReader rate odd (R.remaining reader.old)
        (Ok judgement) (string_bytes output.old) (W.contents writer.old)
        (string_bytes output.new) (W.contents writer.new)) }
    ensures bad { (n : ℕ) → (why : LineFault) → result ≡ Err (Capture (Line n why))
        → TracesReader rate odd (R.remaining reader.old)
        (Err (Line n why)) (string_bytes output.old) (W.contents writer.old)
        (string_bytes output.new) (W.contents writer.new) }
    ensures appended { result ≢ Err WriteFailed
        → (text : List ℕ) × Appends (W.contents writer.old) (W.contents writer.new) text }
{
    let mut opened = CaptureReader::new(CaptureForm::Octets(rate), odd);
    let mut piece = [0u8; PIECE];
    for _ in 0..u64::MAX {
        let Ok(count) = reader.read(&mut piece) else {
            return Err(JudgeFault::Capture(CaptureFault::ReadFailed));
        };
        if count == 0 {
            return trace_end(output, rate, opened, writer);
        }
        trace_text(output, rate, &mut opened, &piece[..count], writer)?;
    }
    Err(JudgeFault::Capture(CaptureFault::ReadFailed))
}

/// More of the text is read.
fn trace_text<A: Allocator, W: Write>(
    output: &mut String<A>,
    rate: Rate,
    opened: &mut CaptureReader,
    text: &[u8],
    writer: &mut W,
) -> Result<(), JudgeFault>
    ensures { ReadsText result rate
        (octets_place opened.old (string_bytes output.old) (W.contents writer.old)) text.now
        (octets_place opened.new (string_bytes output.new) (W.contents writer.new)) }
{
    for octet in text {
        trace_octet(output, rate, opened, *octet, writer)?;
    }
    Ok(())
}

/// One more octet of the text is read.
fn trace_octet<A: Allocator, W: Write>(
    output: &mut String<A>,
    rate: Rate,
    opened: &mut CaptureReader,
    octet: u8,
    writer: &mut W,
) -> Result<(), JudgeFault>
    ensures { ReadsText result rate
        (octets_place opened.old (string_bytes output.old) (W.contents writer.old)) (octet ∷ [])
        (octets_place opened.new (string_bytes output.new) (W.contents writer.new)) }
{
    let call = opened.take_octet(octet)?;
    show(output, rate, &call, writer)
}

/// The text has ended.
fn trace_end<A: Allocator, W: Write>(
    output: &mut String<A>,
    rate: Rate,
    mut opened: CaptureReader,
    writer: &mut W,
) -> Result<Judgement, JudgeFault>
    ensures { ReadsEnd result rate
        (octets_place opened (string_bytes output.old) (W.contents writer.old))
        (string_bytes output.new) (W.contents writer.new) }
{
    let call = opened.end_text()?;
    show(output, rate, &call, writer)?;
    let (judgement, call) = opened.finish()?;
    show(output, rate, &call, writer)?;
    Ok(judgement)
}

/// Prints a call that was told, if one was, and writes what is printed, once there is enough of it.
fn show<A: Allocator, W: Write>(
    output: &mut String<A>,
    rate: Rate,
    call: &Option<TimedCall>,
    writer: &mut W,
) -> Result<(), JudgeFault>
    ensures shown { OnOk result (FlowsCalls rate (cons_option call.now [])
        (string_bytes output.old) (W.contents writer.old)
        (string_bytes output.new) (W.contents writer.new)) }
    ensures faults { IfErr result (λ e. (e ≡ OutOfMemory) ⊎ (e ≡ WriteFailed)) }
    ensures unchanged { result ≡ Err OutOfMemory
        → Keeps (W.contents writer.old) (W.contents writer.new) }
{
    let Some(call) = call else {
        return Ok(());
    };
    print_timed(output, rate, call)?;
    if pass_on(output, writer).is_err() {
        return Err(JudgeFault::WriteFailed);
    }
    Ok(())
}

/// A call, its time before it.
fn print_timed<A: Allocator>(
    output: &mut String<A>,
    rate: Rate,
    call: &TimedCall,
) -> Result<(), AllocError>
    ensures { PrintsSome result output.old output.new (PrintsTimed rate call.now) }
{
    print_time(output, call.time)?;
    print_item(output, rate, call)
}

/// A time in nanoseconds, as seconds.
fn print_time<A: Allocator>(output: &mut String<A>, time: u64) -> Result<(), AllocError>
    ensures { Prints result output.old output.new (time_text time) }
{
    let seconds = time / SECOND;
    write!(output, "time {seconds}.")?;
    print_fraction(output, time % SECOND)?;
    output.push_str("\n")
}

/// Nanoseconds, with nine digits.
fn print_fraction<A: Allocator>(output: &mut String<A>, nanoseconds: u64) -> Result<(), AllocError>
    ensures { Prints result output.old output.new (fraction_text nanoseconds) }
{
    write!(output, "{nanoseconds:09}")
}

/// What went over the line in a call. Without a number it may have been none.
fn print_item<A: Allocator>(
    output: &mut String<A>,
    rate: Rate,
    call: &TimedCall,
) -> Result<(), AllocError>
    ensures { PrintsSome result output.old output.new
        (PrintsItem rate call.now.number call.now.layout call.now.item) }
{
    let Some(number) = call.number else {
        return output.push_str("maybe wake\n");
    };
    match &call.item {
        SplitItem::Wake(answer) => print_wake(output, number, rate_answered(rate, *answer)),
        SplitItem::Exchange(exchange) => print_exchange(
            output,
            number,
            &call.layout,
            exchange.sent.as_slice(),
            &exchange.answer,
        ),
        // Damage is no call.
        SplitItem::Resumed(_) => Ok(()),
    }
}

/// The rate that a wake-up request was answered with, on a line with this one.
fn rate_answered(rate: Rate, answer: Wake) -> Option<Rate>
    ensures { result ≡ rate_answered rate answer }
{
    match answer {
        Wake::Answered => Some(rate),
        Wake::Unanswered => None,
    }
}
