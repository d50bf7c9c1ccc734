//! How a request ended, as C sees it.
ghost use Rattle.std.specs.Prelude.{◌≡◌};
ghost use Rattle.iolink_handle.specs.Shown.{AreShown};
ghost use Rattle.iolink_port_forms.specs.Shown.{OutcomeIsShown, answer_kind, answer_octets, cause_number};

use iol_book::Outcome;
use iol_isdu::{Answer, Cause};
use iolink_handle::put;

/// The device answered the read, and these are its octets.
const READ: u8 = 1;
/// The device wrote the octets.
const WRITTEN: u8 = 2;
/// The device refused: two octets, its ErrorCode and AdditionalCode.
const REFUSED: u8 = 3;
/// It was cut off, so that nobody knows whether it was carried out.
const UNKNOWN: u8 = 8;
/// It was withdrawn while it waited.
const WITHDRAWN: u8 = 12;
/// The device has no ISDU.
const NO_ISDU: u8 = 16;

/// How a request ended.
#[repr(C)]
pub struct IolOutcome {
    /// 1 read, 2 written, 3 refused by the device, 8 unknown, 12 withdrawn, 16 no ISDU.
    pub kind: u8,
    /// Why it is unknown: 1 the link was lost, 2 restarted, 3 busy too long, 4 no
    /// text of an answer, 5 cancelled. Else 0.
    pub cause: u8,
    /// How many octets there are.
    pub length: u8,
    /// Of a read the octets that were read; of a refusal ErrorCode and AdditionalCode.
    pub octets: [u8; 232],
}

/// Shows C how a request ended.
pub fn show_outcome(outcome: &Outcome, out: &mut IolOutcome)
    ensures { OutcomeIsShown outcome.now out.new }
{
    out.cause = 0;
    out.length = 0;
    match outcome {
        Outcome::Done(answer) => show_answer(answer, out),
        Outcome::Unknown(cause) => {
            out.kind = UNKNOWN;
            out.cause = cause_number(*cause);
        }
        Outcome::Withdrawn => out.kind = WITHDRAWN,
        Outcome::NoIsdu => out.kind = NO_ISDU,
    }
}

fn show_answer(answer: &Answer, out: &mut IolOutcome)
    ensures kind { out.new.kind ≡ answer_kind answer.now }
    ensures octets { AreShown (answer_octets answer.now) out.new.length out.new.octets }
    ensures cause { out.new.cause ≡ out.old.cause }
{
    match answer {
        Answer::Read(octets) => {
            out.kind = READ;
            out.length = octets.len() as u8;
            put(octets.as_slice(), &mut out.octets);
        }
        Answer::Written => {
            out.kind = WRITTEN;
            out.length = 0;
        }
        Answer::Refused(code, additional) => {
            out.kind = REFUSED;
            out.length = 2;
            put(&[*code, *additional], &mut out.octets);
        }
    }
}

/// The number of a cause, as C sees it.
pub fn cause_number(cause: Cause) -> u8
    ensures { result ≡ cause_number cause }
{
    match cause {
        Cause::LinkLost => 1,
        Cause::Restarted => 2,
        Cause::BusyTooLong => 3,
        Cause::Protocol => 4,
        Cause::Cancelled => 5,
    }
}
