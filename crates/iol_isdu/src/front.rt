//! A text but its CHKPDU, in two pieces: what whole texts are written from, and
//! segments are cut from.
ghost use Rattle.std.specs.Prelude.{◌≡◌, ◌≤◌, ◌<◌, ◌+◌, ◌++◌, length, slice_index};
ghost use Rattle.iol_isdu.specs.Services.{service_number};
ghost use Rattle.iol_isdu.specs.Frame.{head, xor_of};
ghost use Rattle.iol_isdu.specs.Answers.{is_read, answer_body, answer_data};
ghost use Rattle.iol_isdu.specs.Requests.{written_octets};
ghost use Rattle.iol_isdu.specs.Texts.{with_chkpdu, front_of, IsRequest, request_front, answer_front};

use crate::frame::{EXTENDED, LONGEST_PLAIN, xor_of, xor_on};
use crate::service::{Form, Service};
use crate::values::{Answer, Request, Text};
use arrayvec::ArrayVec;

/// A text but its CHKPDU, in two pieces, so that the octets of the parameter stay where they are
/// (IEC 61131-9, A.5.1).
#[derive(Clone, Debug, Drop)]
pub struct Front<'a> {
    /// The first octet, the ExtLength of a long text, then a request's index part
    /// or the codes of a refusal.
    pub head: ArrayVec<u8, 5>,
    /// The octets of the parameter.
    pub octets: &'a [u8],
}

impl Front<'_> {
    /// How many octets there are.
    pub fn len(&self) -> usize
        ensures { result ≡ length self.now.head.items + length self.now.octets.now }
    {
        self.head.len() + self.octets.len()
    }

    /// The octet at this place.
    pub fn octet(&self, i: usize) -> u8
        requires { i < length self.now.head.items + length self.now.octets.now }
        ensures { result ≡ slice_index (self.now.head.items ++ self.now.octets.now) i }
    {
        if i < self.head.len() {
            self.head[i]
        } else {
            self.octets[i - self.head.len()]
        }
    }

    /// The CHKPDU that ends the text, the XOR of all octets before it (IEC 61131-9, A.5.6).
    ///
    /// Rule ISDU-1.
    pub fn chkpdu(&self) -> u8
        ensures { result ≡ xor_of (self.now.head.items ++ self.now.octets.now) }
    {
        chkpdu_of(&self.head, self.octets)
    }

    /// The text, of at most 238 octets.
    pub(crate) fn text(&self) -> Text
        requires { length self.now.head.items + length self.now.octets.now ≤ 237 }
        ensures { result.items ≡ with_chkpdu (self.now.head.items ++ self.now.octets.now) }
    {
        let mut text = Text::new();
        text.try_extend_from_slice(&self.head).unwrap();
        text.try_extend_from_slice(self.octets).unwrap();
        text.push(self.chkpdu());
        text
    }
}

/// The CHKPDU that ends a text, of which the octets before it are these, in two pieces
/// (IEC 61131-9, A.5.6).
pub fn chkpdu_of(head: &[u8], octets: &[u8]) -> u8
    ensures { result ≡ xor_of (head.now ++ octets.now) }
{
    xor_on(xor_of(head), octets)
}

/// The text of a request but its CHKPDU, its place in the shortest form that says it
/// (IEC 61131-9, A.5.1 to A.5.5).
#[tactic(auto, unfolding(crate::specs::Texts::request_front))]
pub fn request_front(request: &Request) -> Front<'_>
    ensures valid { IsRequest request.now }
    ensures octets { result.head.items ++ result.octets.now ≡ request_front request.now }
    ensures body { result.octets.now ≡ written_octets request.now }
    ensures fits { length result.head.items + length result.octets.now ≤ 237 }
{
    match request {
        Request::Read(place) => {
            let form = Form::shortest(place);
            front_of(Service::Read(form), &form.index_part(place), &[])
        }
        Request::Write(place, octets) => {
            let form = Form::shortest(place);
            front_of(Service::Write(form), &form.index_part(place), octets)
        }
    }
}

/// The text of an answer to this request but its CHKPDU (IEC 61131-9, A.5.1 to A.5.5).
#[tactic(auto, unfolding(crate::specs::Texts::answer_front))]
pub fn answer_front<'a>(request: &Request, answer: &'a Answer) -> Front<'a>
    ensures valid { length (answer_body answer.now) ≤ 232 }
    ensures octets { result.head.items ++ result.octets.now
        ≡ answer_front (is_read request.now) answer.now }
    ensures body { result.octets.now ≡ answer_data answer.now }
    ensures fits { length result.head.items + length result.octets.now ≤ 237 }
{
    match (answer, request) {
        (Answer::Read(octets), _) => front_of(Service::ReadDone, &[], octets),
        (Answer::Written, _) => front_of(Service::WriteDone, &[], &[]),
        (Answer::Refused(error, additional), Request::Read(_)) => {
            front_of(Service::ReadRefused, &[*error, *additional], &[])
        }
        (Answer::Refused(error, additional), Request::Write(_, _)) => {
            front_of(Service::WriteRefused, &[*error, *additional], &[])
        }
    }
}

/// A service and a body in two pieces.
fn front_of<'a>(service: Service, part: &[u8], octets: &'a [u8]) -> Front<'a>
    requires part { length part.now ≤ 3 }
    requires octets { length octets.now ≤ 232 }
    ensures octets { result.head.items ++ result.octets.now
        ≡ front_of (service_number service) (part.now ++ octets.now) }
    ensures body { result.octets.now ≡ octets.now }
    ensures fits { length result.head.items + length result.octets.now ≤ 237 }
{
    Front {
        head: head_of(service, part, part.len() + octets.len()),
        octets,
    }
}

/// The head of a body of this size, of which this part stands in it.
fn head_of(service: Service, part: &[u8], size: usize) -> ArrayVec<u8, 5>
    requires part { length part.now ≤ 3 }
    requires size { size ≤ 235 }
    ensures { result.items ≡ head (service_number service) size ++ part.now }
{
    let high = service.bits() << 4;
    let mut octets = ArrayVec::new();
    if size + 2 <= LONGEST_PLAIN {
        octets.push(high + (size as u8 + 2));
    } else {
        octets.push(high + EXTENDED);
        octets.push(size as u8 + 3);
    }
    octets.try_extend_from_slice(part).unwrap();
    octets
}
