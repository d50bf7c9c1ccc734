//! Texts of answers, written and read (IEC 61131-9, A.5.2 to A.5.6).
ghost use Rattle.std.specs.Prelude.{◌≡◌, ◌/◌, slice_index, IfOk, IfSome, OnOk, IsOk, Ok, is_some, length};
ghost use Rattle.std.specs.Result.{result_err};
ghost use Rattle.iol_isdu.specs.Frame.{text_at, isdu_fault, total_of};
ghost use Rattle.iol_isdu.specs.Answers.{BeginsWithAnswer, IsAnswerBody, IsAnswerText, AnswersKind, answer_accepts, answer_fault, answers_read, is_read};
ghost use Rattle.iol_isdu.specs.Texts.{answer_text};
ghost use Rattle.iol_isdu.specs.declared.values.Answer.{Answer};

use crate::fault::IsduFault;
use crate::frame::{frame_of, xor_of};
use crate::front::answer_front;
use crate::service::Service;
use crate::values::{Answer, Request, Text};

/// The text of the answer to this request (IEC 61131-9, A.5.1 to A.5.6).
///
/// Only a read is answered by `Read`, and only a write by `Written`.
///
/// Rule ISDU-4.
pub fn encode_answer(request: &Request, answer: &Answer) -> Text
    requires { AnswersKind (is_read request.now) answer.now }
    ensures spells { IsAnswerText (is_read request.now) answer.now result.items }
    ensures text { result.items ≡ answer_text (is_read request.now) answer.now }
{
    answer_front(request, answer).text()
}

/// The answer to this request whose text the octets begin with; what stands behind the text is
/// ignored (IEC 61131-9, A.5.1 to A.5.6).
///
/// The first of these that holds refuses:
/// - 10 `Truncated`: no octet;
/// - 11 `BadIsduLength`: the low four bits of the first octet are 0;
/// - 10 `Truncated`: they are 1, and there is no ExtLength;
/// - 11 `BadIsduLength`: they are 1, and ExtLength is not 17 to 238;
/// - 10 `Truncated`: fewer octets than the total length;
/// - 12 `BadService`: the service is no answer's, or its texts don't have this total length;
/// - 13 `BadChkpdu`: the XOR of all octets of the text is not 0;
/// - 14 `WrongAnswerKind`: it answers a write and the request is a read, or the other way round.
///
/// Rule ISDU-4.
pub fn read_answer(request: &Request, octets: &[u8]) -> Result<Answer, IsduFault>
    ensures refused { result_err result ≡ answer_fault (is_read request.now) octets.now }
    ensures found { IfOk result (BeginsWithAnswer (is_read request.now) octets.now) }
    ensures only { (a : Answer) → BeginsWithAnswer (is_read request.now) octets.now a → result
        ≡ Ok a }
{
    let mut answer = Answer::Written;
    answer_into(request, octets, &mut answer)?;
    Ok(answer)
}

/// Puts in place the answer to this request whose text the octets begin with.
///
/// It reads and refuses as [`read_answer`] does, with 10 to 14. A refusal may leave another
/// answer there.
pub fn answer_into(request: &Request, octets: &[u8], into: &mut Answer) -> Result<(), IsduFault>
    ensures refused { result_err result ≡ answer_fault (is_read request.now) octets.now }
    ensures found { OnOk result (BeginsWithAnswer (is_read request.now) octets.now into.new) }
    ensures only { (a : Answer) → BeginsWithAnswer (is_read request.now) octets.now a
        → IsOk result × (into.new ≡ a) }
{
    put_answer_to(is_read(request), octets, into)
}

fn is_read(request: &Request) -> bool
    ensures { result ≡ is_read request.now }
{
    matches!(request, Request::Read(_))
}

/// Puts in place the answer to a read or to a write whose text the octets begin with.
///
/// Rules ISDU-8, ISDU-9.
fn put_answer_to(read: bool, octets: &[u8], into: &mut Answer) -> Result<(), IsduFault>
    ensures refused { result_err result ≡ answer_fault read octets.now }
    ensures found { OnOk result (IsAnswerText read into.new (text_at octets.now)) }
{
    let to_read = put_framed(octets, into)?;
    if to_read != read {
        return Err(IsduFault::WrongAnswerKind);
    }
    Ok(())
}

/// Puts in place the answer of the frame that the octets begin with. Answers whether it is to
/// a read.
fn put_framed(octets: &[u8], into: &mut Answer) -> Result<bool, IsduFault>
    ensures refused { result_err result ≡ isdu_fault answer_accepts octets.now }
    ensures kind { IfOk result (λ read. read ≡ answers_read (slice_index octets.now 0 / 16)) }
    ensures found { IfOk result (λ read. IsAnswerText read into.new (text_at octets.now)) }
{
    let frame = frame_of(octets)?;
    let Some(read) = put_body(frame.service, frame.body, into) else {
        return Err(IsduFault::BadService);
    };
    if xor_of(frame.text) != 0 {
        return Err(IsduFault::BadChkpdu);
    }
    Ok(read)
}

/// Puts in place the answer of a service and the octets between its first octets and its CHKPDU.
/// Answers whether it is to a read.
fn put_body(service: u8, body: &[u8], into: &mut Answer) -> Option<bool>
    ensures accepted { is_some result ≡ answer_accepts service (total_of (length body.now)) }
    ensures kind { IfSome result (λ read. read ≡ answers_read service) }
    ensures found { IfSome result (λ read. IsAnswerBody read into.new service body.now) }
{
    match (Service::from_bits(service)?, body) {
        (Service::WriteRefused, [error, additional]) => {
            *into = Answer::Refused(*error, *additional);
            Some(false)
        }
        (Service::WriteDone, []) => {
            *into = Answer::Written;
            Some(false)
        }
        (Service::ReadRefused, [error, additional]) => {
            *into = Answer::Refused(*error, *additional);
            Some(true)
        }
        (Service::ReadDone, octets) if octets.len() <= 232 => {
            into.set_read(octets);
            Some(true)
        }
        _ => None,
    }
}
