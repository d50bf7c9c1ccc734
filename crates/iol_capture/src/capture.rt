//! A capture, read from a reader to its end.
ghost use Rattle.std.specs.Prelude.{◌≡◌, ◌≢◌, [], Err, Ok, IfOk, IfErr, IfSome};
ghost use Rattle.iol_capture.specs.Capture.{capture_judged, judging_after_rest};
ghost use Rattle.iol_capture.specs.declared.fault.CaptureFault.TheVariants.{ReadFailed};

use crate::fault::CaptureFault;
use crate::judgement::Judgement;
use crate::opened::CaptureReader;
use crate::telling::CaptureForm;
use iol_judge::Odd;
use std::io::Read;

/// How many bytes are asked for at once.
const PIECE: usize = 4096;

/// Reads a capture in this form to its end, line by line, and tells what its lines say to a judge
/// that does this with odd replies.
///
/// It takes no memory, and keeps one line at a time. The first bad line ends it; of the text behind
/// that, part may be read. No read follows one that failed.
pub fn judge_capture<R: Read>(
    form: CaptureForm,
    odd: Odd,
    reader: &mut R,
) -> Result<Judgement, CaptureFault>
    ensures judged { IfOk result (λ judgement. IfSome (R.remaining reader.old)
        (λ text. capture_judged form odd text ≡ Ok judgement)) }
    ensures bad { IfErr result (λ fault. fault ≢ ReadFailed → IfSome (R.remaining reader.old)
        (λ text. capture_judged form odd text ≡ Err fault)) }
{
    let mut opened = CaptureReader::new(form, odd);
    let mut piece = [0u8; PIECE];
    for _ in 0..u64::MAX {
        let Ok(count) = reader.read(&mut piece) else {
            return Err(CaptureFault::ReadFailed);
        };
        if count == 0 {
            return finish(opened);
        }
        opened.take(&piece[..count])?;
    }
    Err(CaptureFault::ReadFailed)
}

/// What is judged of a capture whose text has ended.
fn finish(mut opened: CaptureReader) -> Result<Judgement, CaptureFault>
    ensures { result ≡ judging_after_rest opened [] }
{
    let _call = opened.end_text()?;
    match opened.finish() {
        Ok((judgement, _)) => Ok(judgement),
        Err(fault) => Err(fault),
    }
}
