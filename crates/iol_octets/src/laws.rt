//! Laws of the definitions, each carried by a function that does nothing when it runs.
ghost use Rattle.iol_octets.specs.Checksum.{ChecksumsFit, FlipIsDetected};
ghost use Rattle.iol_octets.specs.Control.{ControlsAreReadBack};

/// A checksum has six bits, and octets have theirs once it is put where six zeros stand.
///
/// Needed by `iol_mseq::laws::what_is_written_is_read`.
#[tactic(auto, using(crate::proofs::Flips::checksums_fit))]
pub fn checksums_fit()
    ensures { ChecksumsFit }
{}

/// Octets that have their checksum and of which one bit is flipped don't have it.
/// Two flipped bits may go unseen.
///
/// Needed by `iol_mseq::laws::one_flip_is_refused`, `iol_sim::sim::exchange` and the promises of
/// assurance.md.
#[tactic(auto, using(crate::proofs::Flips::flip_is_detected))]
pub fn one_flip_is_seen()
    ensures { FlipIsDetected }
{}

/// What is written of a control octet is read back as it.
///
/// Needed by `iol_mseq::laws::what_is_written_is_read`.
#[tactic(auto, using(crate::proofs::ControlLemmas::controls_are_read_back))]
pub fn control_octets_are_read_back()
    ensures { ControlsAreReadBack }
{}
