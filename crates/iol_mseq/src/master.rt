//! A master's messages, written and read (IEC 61131-9, A.1.2, A.1.3 and A.2).
ghost use Rattle.std.specs.Prelude.{◌≡◌, ◌≤◌, ◌↔◌, [], length, IsOk, IfOk, Ok};
ghost use Rattle.std.specs.Result.{result_err, result_ok};
ghost use Rattle.iol_mseq.specs.Master.{master_fault, master_in, message_of, HasMasterParts, SpellsMaster, IsGoodMaster};
ghost use Rattle.iol_mseq.specs.Texts.{master_text};
ghost use Rattle.iol_mseq.specs.declared.master.MasterMsg.{MasterMsg};

use crate::fault::MseqFault;
use crate::layouts::Layout;
use crate::parts::{Message, Part, append, fill, seal};
use iol_octets::{Mc, has_checksum6};
use std::marker::Model;

/// What a master says in one message: a read or a write, and the process data that
/// goes out with it.
#[derive(Clone, Debug, PartialEq, Eq, Drop)]
pub struct MasterMsg {
    pub mc: Mc,
    /// The process data out: as many octets as the layout has.
    pub out: Part,
    /// The on-request data of a write: as many octets as the layout has. A read has none.
    pub od: Part,
}

/// A master message read in place: its parts are octets of what was read.
///
/// A clause sees the message that it shows.
#[derive(Drop)]
pub struct MasterView<'a> {
    mc: Mc,
    out: &'a [u8],
    od: &'a [u8],
}

impl<'a> Model for MasterView<'a> {
    ghost use Rattle.std.specs.Prelude.{length, ◌≤◌};
    ghost use Rattle.iol_mseq.specs.declared.master.MasterMsg.{MasterMsg};

    ghost Value = { MasterMsg };

    ghost view = { λ v. record {
      mc = v.mc;
      out = record { items = v.out.now };
      od = record { items = v.od.now };
    } };

    ghost invariant = { λ v. (length v.out.now ≤ 32) × (length v.od.now ≤ 32) };
}

impl<'a> MasterView<'a> {
    /// The control octet.
    pub fn mc(&self) -> Mc
        ensures { result ≡ self.now.mc }
    {
        self.mc
    }

    /// The process data out, at most 32 octets.
    pub fn out(&self) -> &'a [u8]
        ensures value { result.now ≡ self.now.out.items }
        ensures most { length result.now ≤ 32 }
    {
        self.out
    }

    /// The on-request data of a write, at most 32 octets.
    pub fn od(&self) -> &'a [u8]
        ensures value { result.now ≡ self.now.od.items }
        ensures most { length result.now ≤ 32 }
    {
        self.od
    }
}

/// Reads a master message in a layout (IEC 61131-9, A.2), and copies its parts.
///
/// Octets that are well-formed in the layout spell one message, and that is the
/// answer. Refusals, the first that holds: 4 WrongLength; 5 WrongType; 6 BadChecksum.
pub fn read_master(layout: &Layout, octets: &[u8]) -> Result<MasterMsg, MseqFault>
    ensures good { IsOk result ↔ IsGoodMaster layout.now octets.now }
    ensures refused { result_err result ≡ master_fault layout.now octets.now }
    ensures spelled { IfOk result (λ m. SpellsMaster layout.now m octets.now) }
    ensures only { (m : MasterMsg) → SpellsMaster layout.now m octets.now → result ≡ Ok m }
    ensures value { result_ok result ≡ master_in layout.now octets.now }
{
    let view = view_master(layout, octets)?;
    let mut message = MasterMsg {
        mc: view.mc,
        out: Part::new(),
        od: Part::new(),
    };
    fill(&mut message.out, view.out);
    fill(&mut message.od, view.od);
    Ok(message)
}

/// Reads a master message in a layout, as [`read_master`] does, and copies nothing.
///
/// Rule MSG-3.
pub fn view_master<'a>(layout: &Layout, octets: &'a [u8]) -> Result<MasterView<'a>, MseqFault>
    ensures good { IsOk result ↔ IsGoodMaster layout.now octets.now }
    ensures refused { result_err result ≡ master_fault layout.now octets.now }
    ensures spelled { IfOk result (λ m. SpellsMaster layout.now m octets.now) }
    ensures only { (m : MasterMsg) → SpellsMaster layout.now m octets.now → result ≡ Ok m }
    ensures value { result_ok result ≡ master_in layout.now octets.now }
{
    match fault_of(layout, octets) {
        Some(fault) => Err(fault),
        None => Ok(message_in(layout, octets)),
    }
}

/// Writes a master message in a layout, whose parts have the layout's sizes.
pub fn encode_master(layout: &Layout, message: &MasterMsg) -> Message
    requires { HasMasterParts layout.now message.now }
    ensures spelled { SpellsMaster layout.now message.now result.items }
    ensures text { result.items ≡ master_text layout.now message.now }
{
    let mut octets = Message::new();
    write_master(layout, message, &mut octets);
    octets
}

/// Writes a master message in a layout, as [`encode_master`] does, into a buffer that is empty.
///
/// Rule MSG-1.
#[inline(always)]
pub fn write_master(layout: &Layout, message: &MasterMsg, octets: &mut Message)
    requires parts { HasMasterParts layout.now message.now }
    requires empty { octets.old.items ≡ [] }
    ensures spelled { SpellsMaster layout.now message.now octets.new.items }
    ensures text { octets.new.items ≡ master_text layout.now message.now }
{
    octets.push(message.mc.octet());
    octets.push(layout.kind().bits() << 6);
    append(octets, &message.out);
    append(octets, &message.od);
    seal(octets, 1);
}

/// The first part of being well-formed that fails.
///
/// Rule MSG-5.
fn fault_of(layout: &Layout, octets: &[u8]) -> Option<MseqFault>
    ensures { result ≡ master_fault layout.now octets.now }
{
    if octets.len() < 2 {
        return Some(MseqFault::WrongLength);
    }
    let od = if octets[0] < 128 {
        layout.od().get()
    } else {
        0
    };
    if octets.len() != 2 + layout.pd_out() as usize + od as usize {
        return Some(MseqFault::WrongLength);
    }
    if octets[1] >> 6 != layout.kind().bits() {
        return Some(MseqFault::WrongType);
    }
    if !has_checksum6(octets, 1) {
        return Some(MseqFault::BadChecksum);
    }
    None
}

/// The message that well-formed octets spell.
fn message_in<'a>(layout: &Layout, octets: &'a [u8]) -> MasterView<'a>
    requires { IsGoodMaster layout.now octets.now }
    ensures spelled { SpellsMaster layout.now result octets.now }
    ensures only { (m : MasterMsg) → SpellsMaster layout.now m octets.now → result ≡ m }
    ensures value { result ≡ message_of layout.now octets.now }
{
    let (out, od) = octets[2..].split_at(layout.pd_out() as usize);
    MasterView {
        mc: Mc::from_octet(octets[0]),
        out,
        od,
    }
}
