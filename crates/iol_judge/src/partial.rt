//! What is known of an answer, once a segment was sent.
ghost use Rattle.std.specs.Prelude.{◌≡◌, ◌⊎◌, ◌<◌, ◌≤◌, IsTrue};
ghost use Rattle.iol_judge.specs.Answers.{partial_with, has_answer, is_busy, is_next_count, unread_answer, no_known_octets, reaching, same_partial, segment_fault, was_sent};
ghost use Rattle.iol_judge.specs.declared.answer.Look.TheVariants.{Padding};
ghost use Rattle.iol_judge.specs.declared.partial.Further.TheVariants.{Ends};
ghost use Rattle.iol_judge.specs.Transfers.{further};

use crate::answer::{KnownOctets, LONGEST_ANSWER, Look, MOST_OBSERVED, has_answer, text_fault};
use crate::octets::{are_as_known, first_octet, from_place, note_octets, rest_of};
use crate::reason::Reason;
use iol_mseq::ReplyView;
use iol_octets::{are_zeros, segment_number};

/// Whether an answer has a segment behind one that was sent.
#[derive(Clone, Copy, Debug, PartialEq, Eq)]
pub(crate) enum Further {
    GoesOn,
    /// Its length isn't known.
    MayEnd,
    Ends,
}

/// What is known of an answer that is sent.
#[derive(Clone, Copy, Debug)]
pub(crate) struct PartialAnswer {
    /// Whether it is one to a read.
    pub read: bool,
    /// The octets of the segments that were had.
    pub octets: KnownOctets,
    /// Where in the answer the last segment begins that is known to be there.
    pub begun: u16,
    /// Where the segment begins that was sent last.
    pub at: u16,
    /// Its COUNT, 0 for the first.
    pub count: u8,
}

impl PartialAnswer {
    /// The first segment was sent, and not had.
    pub fn none(read: bool) -> PartialAnswer
        ensures { result ≡ unread_answer read }
    {
        PartialAnswer {
            read,
            octets: no_known_octets(),
            begun: 0,
            at: 0,
            count: 0,
        }
    }

    pub fn is(&self, other: &PartialAnswer) -> bool
        ensures { result ≡ same_partial self.now other.now }
    {
        self.read == other.read
            && self.octets == other.octets
            && self.begun == other.begun
            && self.at == other.at
            && self.count == other.count
    }

    /// Another segment was sent.
    pub fn going_on(self, at: u16, count: u8) -> PartialAnswer
        ensures { result ≡ record self { at = at; count = count } }
    {
        let mut partial = self;
        partial.at = at;
        partial.count = count;
        partial
    }

    /// It has a segment at this place.
    pub fn reaching(self, place: u16) -> PartialAnswer
        ensures { result ≡ reaching place self }
    {
        let mut partial = self;
        partial.begun = partial.begun.max(place);
        partial
    }

    /// Whether the segment sent last, behind the first, has this COUNT.
    pub fn was_sent(&self, count: u8) -> bool
        ensures { result ≡ was_sent self.now count }
    {
        self.at > 0 && count == self.count
    }

    /// Whether the segment behind it has this COUNT.
    pub fn is_next(&self, count: u8) -> bool
        ensures { result ≡ is_next_count self.now count }
    {
        count == segment_number(self.count as usize + 1)
    }

    /// Whether it has a segment at a place behind one that was sent.
    pub fn further(&self, next: usize) -> Further
        ensures value { result ≡ further self.now next }
        ensures near { (result ≡ Ends) ⊎ (next ≤ MOST_OBSERVED) }
    {
        let least = (self.begun as usize).max(next);
        let most = next.min(LONGEST_ANSWER);
        if !self.has_answer(least, LONGEST_ANSWER) {
            Further::Ends
        } else if self.has_answer(self.begun as usize, most) {
            Further::MayEnd
        } else {
            Further::GoesOn
        }
    }

    /// Whether an answer that is longer than so many octets, and at most so long, has those that
    /// were had.
    fn has_answer(&self, above: usize, most: usize) -> bool
        requires { most ≤ LONGEST_ANSWER }
        ensures value { result ≡ has_answer Padding self.now.read self.now.octets above most }
        ensures within { IsTrue result → above < most }
    {
        has_answer(Look::Padding, self.read, &self.octets, above, most)
    }

    /// Why the segment sent last can't have the octets of this reply, none where it can.
    pub fn fault(&self, reply: &ReplyView<'_>) -> Option<Reason>
        ensures { result ≡ segment_fault self.now reply.now.od.items }
    {
        let od = reply.od();
        if self.at == 0 && is_busy(od) {
            return Some(Reason::BusyAgain);
        }
        if !are_as_known(from_place(&self.octets, self.at as usize), od) {
            return Some(Reason::SegmentChanged);
        }
        text_fault(self.read, self.begun as usize, &self.with(reply).octets)
    }

    /// Once it had the octets of this reply.
    pub fn with(self, reply: &ReplyView<'_>) -> PartialAnswer
        ensures { result ≡ partial_with self reply.now.od.items }
    {
        let mut partial = self;
        let place = partial.at as usize;
        note_octets(&mut partial.octets, place, reply.od());
        partial
    }
}

/// No octet is known.
fn no_known_octets() -> KnownOctets
    ensures { result ≡ no_known_octets }
{
    [None; MOST_OBSERVED]
}

/// Whether octets say that the application isn't ready.
pub(crate) fn is_busy(od: &[u8]) -> bool
    ensures { result ≡ is_busy od.now }
{
    first_octet(od) == 1 && are_zeros(rest_of(od))
}
