//! A device's replies, written and read (IEC 61131-9, A.1.5 and A.2).
ghost use Rattle.std.specs.Prelude.{◌≡◌, Bool, ◌%◌, ◌<◌, ◌≤◌, ◌↔◌, [], ◌∷◌, ◌++◌, length, IsOk, IfOk, IsTrue, Ok};
ghost use Rattle.arrayvec.specs.ArrayVec.{array_vec_len};
ghost use Rattle.std.specs.Result.{result_err, result_ok};
ghost use Rattle.iol_octets.specs.CheckOctets.{status_bits};
ghost use Rattle.iol_octets.specs.Checksum.{checksum_of, has_checksum};
ghost use Rattle.iol_mseq.specs.Replies.{answered_od, reply_fault, reply_in, reply_of, HasReplyParts, FitsReply, SpellsReply, IsGoodReply};
ghost use Rattle.iol_mseq.specs.Texts.{closed_by, reply_text};
ghost use Rattle.iol_mseq.specs.declared.reply.Reply.{Reply};

use crate::fault::MseqFault;
use crate::layouts::Layout;
use crate::parts::{Message, Part, append, fill, push_sealed};
use iol_octets::{Cks, has_checksum6};
use std::marker::Model;

/// What a device says in one reply.
#[derive(Clone, Debug, PartialEq, Eq, Drop)]
pub struct Reply {
    /// The on-request data, to a read: as many octets as the layout has. To a write there is none.
    pub od: Part,
    /// The process data in: as many octets as the layout has.
    pub input: Part,
    /// The Event flag: the device has an event to be read.
    pub event: bool,
    /// PD status 1: the process data in is invalid.
    pub invalid: bool,
}

/// A reply read in place: its parts are octets of what was read.
///
/// A clause sees the reply that it shows.
#[derive(Drop)]
pub struct ReplyView<'a> {
    od: &'a [u8],
    input: &'a [u8],
    event: bool,
    invalid: bool,
}

impl<'a> Model for ReplyView<'a> {
    ghost use Rattle.std.specs.Prelude.{length, ◌≤◌};
    ghost use Rattle.iol_mseq.specs.declared.reply.Reply.{Reply};

    ghost Value = { Reply };

    ghost view = { λ v. record {
      od = record { items = v.od.now };
      input = record { items = v.input.now };
      event = v.event;
      invalid = v.invalid;
    } };

    ghost invariant = { λ v. (length v.od.now ≤ 32) × (length v.input.now ≤ 32) };
}

impl<'a> ReplyView<'a> {
    /// The on-request data, to a read: at most 32 octets.
    pub fn od(&self) -> &'a [u8]
        ensures value { result.now ≡ self.now.od.items }
        ensures most { length result.now ≤ 32 }
    {
        self.od
    }

    /// The process data in, at most 32 octets.
    pub fn input(&self) -> &'a [u8]
        ensures value { result.now ≡ self.now.input.items }
        ensures most { length result.now ≤ 32 }
    {
        self.input
    }

    /// The Event flag.
    pub fn event(&self) -> bool
        ensures { result ≡ self.now.event }
    {
        self.event
    }

    /// PD status 1: the process data in is invalid.
    pub fn invalid(&self) -> bool
        ensures { result ≡ self.now.invalid }
    {
        self.invalid
    }
}

/// Reads a reply in a layout, to a read or to a write (IEC 61131-9, A.2), and copies its parts.
///
/// Octets that are well-formed there spell one reply, and that is the answer.
/// Refusals, the first that holds: 4 WrongLength; 6 BadChecksum.
pub fn read_reply(layout: &Layout, read: bool, octets: &[u8]) -> Result<Reply, MseqFault>
    ensures good { IsOk result ↔ IsGoodReply layout.now read octets.now }
    ensures refused { result_err result ≡ reply_fault layout.now read octets.now }
    ensures spelled { IfOk result (λ r. SpellsReply layout.now read r octets.now) }
    ensures only { (r : Reply) → SpellsReply layout.now read r octets.now → result ≡ Ok r }
    ensures value { result_ok result ≡ reply_in layout.now read octets.now }
{
    let view = view_reply(layout, read, octets)?;
    let mut reply = Reply {
        od: Part::new(),
        input: Part::new(),
        event: view.event,
        invalid: view.invalid,
    };
    fill(&mut reply.od, view.od);
    fill(&mut reply.input, view.input);
    Ok(reply)
}

/// Reads a reply in a layout, as [`read_reply`] does, and copies nothing.
///
/// Rule MSG-4.
pub fn view_reply<'a>(
    layout: &Layout,
    read: bool,
    octets: &'a [u8],
) -> Result<ReplyView<'a>, MseqFault>
    ensures good { IsOk result ↔ IsGoodReply layout.now read octets.now }
    ensures refused { result_err result ≡ reply_fault layout.now read octets.now }
    ensures spelled { IfOk result (λ r. SpellsReply layout.now read r octets.now) }
    ensures only { (r : Reply) → SpellsReply layout.now read r octets.now → result ≡ Ok r }
    ensures value { result_ok result ≡ reply_in layout.now read octets.now }
{
    match fault_of(layout, read, octets) {
        Some(fault) => Err(fault),
        None => Ok(spelled_by(layout, read, octets)),
    }
}

/// Writes a reply in a layout, whose parts have the layout's sizes: to a read if
/// there is on-request data, to a write if there is none.
///
/// Rule MSG-2.
pub fn encode_reply(layout: &Layout, reply: &Reply) -> Message
    requires { FitsReply layout.now reply.now }
    ensures spelled { (read : Bool) → HasReplyParts layout.now read reply.now
        → SpellsReply layout.now read reply.now result.items }
    ensures text { result.items ≡ reply_text reply.now }
{
    let mut octets = Message::new();
    append(&mut octets, &reply.od);
    append(&mut octets, &reply.input);
    close_reply(&mut octets, reply.event, reply.invalid);
    octets
}

/// Puts the check octet of a reply behind its on-request data and its process data in.
///
/// Rule MSG-2.
pub fn close_reply(octets: &mut Message, event: bool, invalid: bool)
    requires { array_vec_len octets.old < 66 }
    ensures text { octets.new.items ≡ closed_by octets.old.items (status_bits event invalid) }
    ensures small { checksum_of (octets.old.items ++ status_bits event invalid ∷ []) < 64 }
    ensures sealed { IsTrue (has_checksum (array_vec_len octets.old) octets.new.items) }
{
    push_sealed(octets, status_of(event, invalid));
}

/// The two bits above the checksum.
fn status_of(event: bool, invalid: bool) -> u8
    ensures value { result ≡ status_bits event invalid }
    ensures clear { result % 64 ≡ 0 }
{
    match (event, invalid) {
        (true, true) => 0xC0,
        (true, false) => 0x80,
        (false, true) => 0x40,
        (false, false) => 0,
    }
}

/// How many octets of on-request data the reply has.
fn answered_od(layout: &Layout, read: bool) -> usize
    ensures value { result ≡ answered_od layout.now read }
    ensures small { result ≤ 32 }
{
    if read { layout.od().get() as usize } else { 0 }
}

/// The first part of being well-formed that fails.
///
/// Rule MSG-5.
fn fault_of(layout: &Layout, read: bool, octets: &[u8]) -> Option<MseqFault>
    ensures { result ≡ reply_fault layout.now read octets.now }
{
    let place = answered_od(layout, read) + layout.pd_in() as usize;
    if octets.len() != place + 1 {
        return Some(MseqFault::WrongLength);
    }
    if !has_checksum6(octets, place) {
        return Some(MseqFault::BadChecksum);
    }
    None
}

/// The reply that well-formed octets spell.
fn spelled_by<'a>(layout: &Layout, read: bool, octets: &'a [u8]) -> ReplyView<'a>
    requires { IsGoodReply layout.now read octets.now }
    ensures spelled { SpellsReply layout.now read result octets.now }
    ensures value { result ≡ reply_of layout.now read octets.now }
{
    let (od, rest) = octets.split_at(answered_od(layout, read));
    let (input, check) = rest.split_at(layout.pd_in() as usize);
    let cks = Cks::from_octet(check[0]);
    ReplyView {
        od,
        input,
        event: cks.event,
        invalid: cks.invalid,
    }
}
