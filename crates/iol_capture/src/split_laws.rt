//! The laws of splitting, each carried by a function that does nothing when it runs.
ghost use Rattle.iol_capture.specs.SplitExample.{SomeAreWritten};
ghost use Rattle.iol_capture.specs.FairSplits.{OctetsNeverBlamed};
ghost use Rattle.iol_capture.specs.Written.{WrittenIsSplit};

use iol_judge::honest_lines_are_never_blamed;

/// Exchanges and wake-up requests that are written on a line by the rules, whatever their octets
/// are, are split into exactly these, and some can be written so.
///
/// By the rules each message is as its layout has it, with gaps of up to 1 T_BIT. The reply to it,
/// or a beginning of that, comes 1 to 10 T_BIT behind it, with gaps of up to 3. A pause of 11 T_BIT
/// or more is behind a reply that isn't whole. A wake-up request is shown by the decoder, or by its
/// test read: at the begin of a stream, or in a layout in which that is no message. A good reply
/// comes to a test read, or none, or up to two octets that are none, and behind that one more test
/// read. Of requests in a row that aren't shown the last alone is told. Where a test read may be a
/// read of page address 0x02 as well, both are told, the request as unanswered.
///
/// Needed by `split_laws::octets_are_never_blamed` and the promises of assurance.md.
#[tactic(auto, using(crate::proofs::Splits::written_is_split, crate::proofs::ExampleSplits::some_are_written))]
pub fn what_is_written_is_split()
    ensures split { WrittenIsSplit }
    ensures some { SomeAreWritten }
{}

/// Whatever device by the rules brings octets over a line that loses messages and replies, or
/// damages them so that it shows, a judge that is told what they are split into never calls it not
/// honest, nor anything in it odd, where they are written by the rules. The device may hear wake-up
/// requests that aren't shown, nor told.
///
/// Needed by `laws::honest_octets_are_never_blamed`.
pub fn octets_are_never_blamed()
    ensures { OctetsNeverBlamed }
{
    honest_lines_are_never_blamed();
    what_is_written_is_split();
}
