//! Texts of requests, written and read, in three forms of index (IEC 61131-9, A.5.4 and A.5.5).
ghost use Rattle.std.specs.Prelude.{◌≡◌, ◌+◌, ◌++◌, ◌∷◌, [], IfOk, OnOk, OnSome, IsOk, IsSome, Ok, Some, is_some, nat_le, length};
ghost use Rattle.std.specs.Result.{result_err, result_ok};
ghost use Rattle.iol_isdu.specs.Frame.{text_at, isdu_fault, total_of};
ghost use Rattle.iol_isdu.specs.Requests.{Holds, index_part, BeginsWithRequest, IsRequestBody, IsRequestText, IsShortText, request_accepts};
ghost use Rattle.iol_isdu.specs.Texts.{request_text};
ghost use Rattle.iol_isdu.specs.Parse.{request_of};
ghost use Rattle.iol_isdu.specs.declared.service.Form.TheVariants.{WideIndexSub};
ghost use Rattle.iol_isdu.specs.declared.values.Request.{Request};

use crate::fault::IsduFault;
use crate::frame::{frame_of, xor_of};
use crate::front::request_front;
use crate::service::{Form, Service};
use crate::values::{Place, Request, Text};

/// The text that the master sends for a request, in the shortest form that says its place
/// (IEC 61131-9, A.5.1 to A.5.6).
///
/// Rule ISDU-6.
pub fn encode_request(request: &Request) -> Text
    ensures short { IsShortText request.now result.items }
    ensures text { result.items ≡ request_text request.now }
{
    request_front(request).text()
}

/// The request whose text the octets begin with; what stands behind the text is ignored
/// (IEC 61131-9, A.5.1 to A.5.6).
///
/// A place is taken in each form that says it, also in one that isn't the shortest (profile).
/// The first of these that holds refuses:
/// - 10 `Truncated`: no octet;
/// - 11 `BadIsduLength`: the low four bits of the first octet are 0;
/// - 10 `Truncated`: they are 1, and there is no ExtLength;
/// - 11 `BadIsduLength`: they are 1, and ExtLength is not 17 to 238;
/// - 10 `Truncated`: fewer octets than the total length;
/// - 12 `BadService`: the service is no request's, or its texts don't have this total length;
/// - 13 `BadChkpdu`: the XOR of all octets of the text is not 0.
///
/// Rules ISDU-3, ISDU-6.
pub fn read_request(octets: &[u8]) -> Result<Request, IsduFault>
    ensures refused { result_err result ≡ isdu_fault request_accepts octets.now }
    ensures found { IfOk result (BeginsWithRequest octets.now) }
    ensures only { (r : Request) → BeginsWithRequest octets.now r → result ≡ Ok r }
    ensures value { result_ok result ≡ request_of octets.now }
{
    let mut request = Request::Read(Place { index: 0, sub: 0 });
    request_into(octets, &mut request)?;
    Ok(request)
}

/// Puts in place the request whose text the octets begin with.
///
/// It reads and refuses as [`read_request`] does, with 10 to 13. A refusal may leave another
/// request there.
pub fn request_into(octets: &[u8], into: &mut Request) -> Result<(), IsduFault>
    ensures refused { result_err result ≡ isdu_fault request_accepts octets.now }
    ensures found { OnOk result (BeginsWithRequest octets.now into.new) }
    ensures only { (r : Request) → BeginsWithRequest octets.now r → IsOk result × (into.new ≡ r) }
    ensures value { OnOk result (request_of octets.now ≡ Some into.new) }
{
    put_framed(octets, into)
}

/// Puts in place the request of the frame that the octets begin with.
fn put_framed(octets: &[u8], into: &mut Request) -> Result<(), IsduFault>
    ensures refused { result_err result ≡ isdu_fault request_accepts octets.now }
    ensures found { OnOk result (IsRequestText into.new (text_at octets.now)) }
{
    let frame = frame_of(octets)?;
    if put_body(frame.service, frame.body, into).is_none() {
        return Err(IsduFault::BadService);
    }
    if xor_of(frame.text) != 0 {
        return Err(IsduFault::BadChkpdu);
    }
    Ok(())
}

/// Puts in place the request of a service and the octets between its first octets and its CHKPDU.
fn put_body(service: u8, body: &[u8], into: &mut Request) -> Option<()>
    ensures accepted { is_some result ≡ request_accepts service (total_of (length body.now)) }
    ensures found { OnSome result (IsRequestBody into.new service body.now) }
{
    match (Service::from_bits(service)?, body) {
        (Service::Write(Form::Index), [index, octets @ ..]) => {
            put_write(narrow(*index, 0), octets, into)
        }
        (Service::Write(Form::IndexSub), [index, sub, octets @ ..]) => {
            put_write(narrow(*index, *sub), octets, into)
        }
        (Service::Write(Form::WideIndexSub), [high, low, sub, octets @ ..]) => {
            put_write(wide([*high, *low], *sub), octets, into)
        }
        (Service::Read(Form::Index), [index]) => put_read(narrow(*index, 0), into),
        (Service::Read(Form::IndexSub), [index, sub]) => put_read(narrow(*index, *sub), into),
        (Service::Read(Form::WideIndexSub), [high, low, sub]) => {
            put_read(wide([*high, *low], *sub), into)
        }
        _ => None,
    }
}

/// Puts in place a write, where one text holds that many octets.
fn put_write(place: Place, octets: &[u8], into: &mut Request) -> Option<()>
    ensures fits { is_some result ≡ nat_le (length octets.now) 232 }
    ensures value { OnSome result (into.new
        ≡ Request.Write place (record { items = octets.now })) }
{
    if octets.len() > 232 {
        return None;
    }
    into.set_write(place, octets);
    Some(())
}

/// Puts in place a read.
fn put_read(place: Place, into: &mut Request) -> Option<()>
    ensures some { IsSome result }
    ensures value { into.new ≡ Request.Read place }
{
    *into = Request::Read(place);
    Some(())
}

/// The place of an 8-bit index.
fn narrow(index: u8, sub: u8) -> Place
    ensures { result ≡ record { index = index; sub = sub } }
{
    Place {
        index: u16::from(index),
        sub,
    }
}

/// The place of a 16-bit index, whose high octet comes first.
fn wide(index: [u8; 2], sub: u8) -> Place
    ensures holds { Holds WideIndexSub result }
    ensures says { index_part WideIndexSub result ≡ index ++ sub ∷ [] }
{
    Place {
        index: u16::from_be_bytes(index),
        sub,
    }
}
