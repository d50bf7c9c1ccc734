//! The laws of captures, each carried by a function that does nothing when it runs.
ghost use Rattle.iol_capture.specs.HonestCapture.{CapturesNeverBlamed, OctetTextsNeverBlamed};
ghost use Rattle.iol_capture.specs.Watching.{UnseenWakesAreFair};

use crate::split_laws::octets_are_never_blamed;
use iol_judge::honest_lines_are_never_blamed;

/// Whatever device by the rules brings a capture over a line that loses messages and replies, or
/// damages them so that it shows, what is printed of it isn't that it is not honest, nor that
/// something in it is odd.
///
/// Needed by the promises of assurance.md.
#[tactic(auto, using(crate::proofs::FairLemmas::captures))]
pub fn honest_captures_are_never_blamed()
    ensures { CapturesNeverBlamed }
{
    honest_lines_are_never_blamed();
}

/// Whatever device by the rules brings octets over a line that loses messages and replies, or
/// damages them so that it shows, what is printed of their export isn't that it is not honest, nor
/// that something in it is odd, where they are written by the rules. Wake-up requests need not be
/// shown.
///
/// Needed by the promises of assurance.md.
pub fn honest_octets_are_never_blamed()
    ensures { OctetTextsNeverBlamed }
{
    octets_are_never_blamed();
}

/// Where a decoder shows no wake-up requests, no master is blamed for a read that may be the test
/// read of one.
///
/// For who judges a capture of a decoder that shows octets alone.
#[tactic(auto, unfolding(iol_octets::specs::Checksum::has_checksum, iol_octets::specs::Checksum::checksum_of, iol_octets::specs::Checksum::six_bits_of, iol_octets::specs::Control::control_of, iol_far::specs::Codec::message_in))]
pub fn unseen_wakes_are_fair()
    ensures { UnseenWakesAreFair }
{}
