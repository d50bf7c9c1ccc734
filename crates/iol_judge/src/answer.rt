//! Which answers have octets that are known.
ghost use Rattle.std.specs.Prelude.{◌≡◌, ◌-◌, ◌<◌, ◌≤◌, IsTrue, drop, length, not};
ghost use Rattle.std.specs.List.{list_all, list_any, range_with_len};
ghost use Rattle.iol_isdu.specs.Answers.{is_read};
ghost use Rattle.iol_isdu.specs.Frame.{total_at, xor_of};
ghost use Rattle.iol_judge.specs.Answers.{has_answer, known_head, answer_head, head_reason, is_some_answer, is_such_answer, looks_right, text_fault};
ghost use Rattle.iol_judge.specs.Octets.{is_other, may_be_even};

use crate::octets::{are_as_known, from_place, is_other, may_be_even};
use crate::reason::Reason;
use arrayvec::ArrayVec;
use iol_isdu::{IsduFault, Octets, Place, Request, chkpdu_of, total_of};

/// The least total length that stands in an ExtLength.
const SHORTEST_LONG: usize = 17;

/// How many octets the longest answer has.
pub(crate) const LONGEST_ANSWER: usize = 235;

/// The most octets that are kept of an answer: those of the longest text, and of a segment.
pub(crate) const MOST_OBSERVED: usize = 270;

/// The octets of an answer and those behind it, where they are known.
pub(crate) type KnownOctets = [Option<u8>; MOST_OBSERVED];

/// The services that answer.
const SERVICES: [u8; 4] = [0x4, 0x5, 0xC, 0xD];

/// The parts of an answer that are looked at.
#[derive(Clone, Copy, Debug, PartialEq, Eq)]
pub(crate) enum Look {
    /// What stands before the body.
    Head,
    /// That, and the XOR of all octets.
    Sum,
    /// Those, and the octets behind it.
    Padding,
}

/// Why no answer to a read, or to a write, of more octets than so many has these.
pub(crate) fn text_fault(read: bool, begun: usize, octets: &KnownOctets) -> Option<Reason>
    ensures { result ≡ text_fault read begun octets.now }
{
    if has_answer(Look::Padding, read, octets, begun, LONGEST_ANSWER) {
        None
    } else if has_answer(Look::Sum, read, octets, begun, LONGEST_ANSWER) {
        Some(Reason::AnswerPadding)
    } else if has_answer(Look::Head, read, octets, begun, LONGEST_ANSWER) {
        Some(Reason::AnswerSum)
    } else {
        Some(head_reason(octets))
    }
}

/// Why the first octets are those of no answer.
fn head_reason(octets: &KnownOctets) -> Reason
    ensures { result ≡ head_reason (total_at (known_head octets.now)) }
{
    let total = match (octets[0], octets[1]) {
        (Some(first), Some(second)) => total_of(&[first, second]),
        (Some(first), None) => total_of(&[first]),
        (None, _) => total_of(&[]),
    };
    match total {
        Err(IsduFault::BadIsduLength) => Reason::AnswerLength,
        _ => Reason::AnswerKind,
    }
}

/// Whether some answer to a read, or to a write, that is longer than so many octets, and at most so
/// long, has these.
pub(crate) fn has_answer(
    look: Look,
    read: bool,
    octets: &KnownOctets,
    above: usize,
    most: usize,
) -> bool
    requires { most ≤ LONGEST_ANSWER }
    ensures value { result ≡ has_answer look read octets.now above most }
    ensures within { IsTrue result → above < most }
{
    if above < most {
        has_answer_of(look, read, octets, above + 1, most + 1)
    } else {
        false
    }
}

/// Whether some answer of at least so many octets, and of fewer than that, has them.
fn has_answer_of(look: Look, read: bool, octets: &KnownOctets, least: usize, end: usize) -> bool
    ensures { result ≡ list_any (is_some_answer look read octets.now)
        (range_with_len least (end - least)) }
{
    for total in least..end {
        if is_some_answer(look, read, octets, total) {
            return true;
        }
    }
    false
}

/// Whether some answer of this total length has them.
fn is_some_answer(look: Look, read: bool, octets: &KnownOctets, total: usize) -> bool
    ensures { result ≡ is_some_answer look read octets.now total }
{
    SERVICES.iter().any(|service| is_such_answer(look, read, *service, total, octets))
}

/// Whether such a request is answered by a text of this service and total length, and these may be
/// its octets.
fn is_such_answer(look: Look, read: bool, service: u8, total: usize, octets: &KnownOctets) -> bool
    ensures { result ≡ is_such_answer look read octets.now total service }
{
    let can_be = match (service, read) {
        (0x4, false) | (0xC, true) => total == 4,
        (0x5, false) => total == 2,
        (0xD, true) => total != 16 && (2..=LONGEST_ANSWER).contains(&total),
        _ => false,
    };
    can_be && looks_right(look, service, total, octets)
}

/// Whether these may be the octets of a text of this service and total length.
fn looks_right(look: Look, service: u8, total: usize, octets: &KnownOctets) -> bool
    requires service { service ≤ 13 }
    requires total { total ≤ LONGEST_ANSWER }
    ensures { result ≡ looks_right look service total octets.now }
{
    let head = answer_head(service, total);
    if !are_as_known(octets, &head) {
        return false;
    }
    match look {
        Look::Head => true,
        Look::Sum => is_even(&head, &octets[..total]),
        Look::Padding => is_even(&head, &octets[..total]) && are_no_others(&octets[total..]),
    }
}

/// What stands before the body of a text of this service and total length.
fn answer_head(service: u8, total: usize) -> ArrayVec<u8, 2>
    requires service { service ≤ 13 }
    requires total { total ≤ LONGEST_ANSWER }
    ensures { result.items ≡ answer_head service total }
{
    let mut head = ArrayVec::new();
    if total < SHORTEST_LONG {
        head.push(16 * service + total as u8);
    } else {
        head.push(16 * service + 1);
        head.push(total as u8);
    }
    head
}

/// Whether the XOR of a text's octets may be 0: it is, where all are known but those of its head,
/// which are these.
fn is_even(head: &[u8], text: &[Option<u8>]) -> bool
    ensures { result ≡ may_be_even (xor_of head.now) (drop (length head.now) text.now) }
{
    may_be_even(chkpdu_of(&[], head), from_place(text, head.len()))
}

/// Whether octets are zeros, where they are known.
fn are_no_others(octets: &[Option<u8>]) -> bool
    ensures { result ≡ list_all (λ octet. not (is_other octet 0)) octets.now }
{
    octets.iter().all(|octet| !is_other(octet, 0))
}

/// Some read, or write.
pub(crate) fn request_of(read: bool) -> Request
    ensures { is_read result ≡ read }
{
    let place = Place { index: 0, sub: 0 };
    if read {
        Request::Read(place)
    } else {
        Request::Write(place, Octets::new())
    }
}
