//! What a text is cut from, octet by octet: a request, or a request's answer.
ghost use Rattle.std.specs.Prelude.{◌≡◌, ◌≤◌, ◌<◌, ◌+◌, ◌++◌, ℕ, List, length, slice_index};

use iol_isdu::{Answer, Front, Request, answer_front, request_front};

/// A value whose ISDU text can be had in pieces, with no copy of it.
///
/// The text is the octets that the source gives, followed by their XOR, the CHKPDU
/// (IEC 61131-9, A.5.6).
pub trait Source {
    /// The octets of the text before its CHKPDU.
    ghost octets: { Self → List ℕ };

    /// The second piece of them.
    ghost body: { Self → List ℕ };

    /// The text before its CHKPDU, in two pieces of at most 237 octets together.
    fn front(&self) -> Front<'_>
        ensures octets { result.head.items ++ result.octets.now ≡ octets self.now }
        ensures body { result.octets.now ≡ body self.now }
        ensures fits { length result.head.items + length result.octets.now ≤ 237 };

    /// The second piece, the octets of the parameter.
    fn body(&self) -> &[u8]
        ensures { result.now ≡ body self.now };

    /// How many octets the text has before its CHKPDU: at most 237.
    fn len(&self) -> usize
        ensures length { result ≡ length (octets self.now) }
        ensures fits { result ≤ 237 }
    {
        self.front().len()
    }

    /// The octet at this place of the text, before its CHKPDU.
    fn octet(&self, i: usize) -> u8
        requires { i < length (octets self.now) }
        ensures { result ≡ slice_index (octets self.now) i }
    {
        self.front().octet(i)
    }
}

/// An answer, with the request that it answers: its text says whether that is a read or a write.
#[derive(Clone, Debug, PartialEq, Eq, Drop)]
pub struct Reaction {
    /// What was asked.
    pub request: Request,
    /// What is answered.
    pub answer: Answer,
}

/// A request's text is the one that `iol_isdu::encode_request` writes.
impl Source for Request {
    ghost use Rattle.iol_isdu.specs.Texts.{request_front};
    ghost use Rattle.iol_isdu.specs.Requests.{written_octets};

    ghost octets = { request_front };

    ghost body = { written_octets };

    fn front(&self) -> Front<'_> {
        request_front(self)
    }

    fn body(&self) -> &[u8] {
        match self {
            Request::Read(_) => &[],
            Request::Write(_, octets) => octets,
        }
    }
}

/// A reaction's text is the one that `iol_isdu::encode_answer` writes.
impl Source for Reaction {
    ghost use Rattle.iol_isdu.specs.Texts.{answer_front};
    ghost use Rattle.iol_isdu.specs.Answers.{is_read};
    ghost use Rattle.iol_isdu.specs.Answers.{answer_data};

    ghost octets = { λ r. answer_front (is_read r.request) r.answer };

    ghost body = { λ r. answer_data r.answer };

    fn front(&self) -> Front<'_> {
        answer_front(&self.request, &self.answer)
    }

    fn body(&self) -> &[u8] {
        match &self.answer {
            Answer::Read(octets) => octets,
            Answer::Written | Answer::Refused(_, _) => &[],
        }
    }
}
