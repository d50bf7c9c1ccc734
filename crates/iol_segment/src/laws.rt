//! Laws of texts in segments, without code.
ghost use Rattle.std.specs.Prelude.{◌≤◌, ℕ};
ghost use Rattle.iol_segment.specs.Cut.{CutIsPairs, SegmentsHaveSize};
ghost use Rattle.iol_segment.specs.JoinLaws.{JoinLaws};
ghost use Rattle.iol_segment.specs.SourceLaws.{IsRequestSource, IsReactionSource};
ghost use Rattle.iol_segment.specs.TextLaws.{TextLaws};

use crate::source::{Reaction, Source};
use iol_isdu::{Request, one_text_each};

/// A law of the definitions, without code: what the octets of the two sources are.
///
/// Followed by their XOR they are the text that `iol_isdu` writes for the request,
/// or for the answer.
///
/// For who cuts a text that lies in two places, as a request and its data do.
pub fn sources_are_texts()
    ensures request { IsRequestSource ⟦<Request as Source>⟧.octets }
    ensures reaction { IsReactionSource ⟦<Reaction as Source>⟧.octets }
{
    one_text_each();
}

/// A law of the definitions, without code: what a [`Cutter`](crate::Cutter) gives, one pair after
/// the other and then none, is the cut of its text. Each segment has the size that is asked for.
///
/// Needed by `iol_device::isdu::append_data`, `iol_far::laws::replies_are_read`,
/// `iol_far::laws::ends_stay_level` and 2 more.
pub fn cut_is_whole()
    ensures whole { (size : ℕ) → 1 ≤ size → CutIsPairs size }
    ensures sized { SegmentsHaveSize }
{}

/// A law of the definitions, without code: what the segments of a text say once they are joined.
///
/// The segments of a text are those that begin within it. A text that holds its own
/// length isn't whole before its last segment, and is whole with it. Each request's
/// and answer's text holds its own length. No answer's is refused, or begins with
/// 00 or with 01, which the device sends where it has no answer, or none yet.
///
/// Needed by `iol_app::laws::messages_are_moves`, `iol_app::laws::answers_are_taken_up`,
/// `iol_by_the_rules::laws::ports_are_by_the_rules` and 4 more.
pub fn texts_join()
    ensures { (size : ℕ) → 1 ≤ size → TextLaws size }
{
    one_text_each();
}

/// A law of the definitions, without code: what a [`Joiner`](crate::Joiner) says of the
/// segments of a text that holds its own length, each given one or more times running.
///
/// It answers `Whole` at the first giving of the last, and `More` or `Repeat` before. It then holds
/// the text, without the octets that fill the last segment.
///
/// Rule SEG-6.
///
/// Needed by `iol_port::laws::clean_laws` and the promises of assurance.md.
pub fn segments_join()
    ensures { (size : ℕ) → 1 ≤ size → JoinLaws size }
{}
