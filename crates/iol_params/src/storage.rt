//! What Data Storage reads of a device: size, Index_List and checksum of its set (B.2.3).
ghost use Rattle.std.specs.Prelude.{◌≡◌, ◌≤◌, ◌++◌, fold, length, true, bit_xor};
ghost use Rattle.iol_params.specs.Values.{all_fit, values_in, room_for, most_at};
ghost use Rattle.iol_isdu.specs.declared.values.Place.{Place};
ghost use Rattle.iol_params.specs.Table.{whole, begins_stored, set_size, index_list};
ghost use Rattle.iol_params.specs.Storage.{set_entry, set_octets, crc_bit, crc_octet, crc32};

use crate::cells;
use crate::member::Member;
use crate::table::{Table, most_at};
use iol_isdu::{Octets, Place};

/// The polynomial of CRC-32, its lowest coefficient first.
const POLYNOMIAL: u32 = 0xEDB8_8320;

/// A checksum under way.
#[derive(Drop)]
struct Crc32 {
    register: u32,
}

impl Crc32 {
    fn new() -> Crc32
        ensures { result.register ≡ 4294967295 }
    {
        Crc32 { register: u32::MAX }
    }

    /// One octet more.
    #[tactic(auto, unfolding(crate::specs::Storage::crc_octet))]
    fn add(&mut self, octet: u8)
        ensures { self.new.register ≡ crc_octet self.old.register octet }
    {
        let mut register = self.register ^ u32::from(octet);
        for _ in 0..8u32 {
            register = with_bit(register);
        }
        self.register = register;
    }

    /// More octets.
    fn add_all(&mut self, octets: &[u8])
        ensures { self.new.register ≡ fold crc_octet self.old.register octets.now }
    {
        for octet in octets {
            self.add(*octet);
        }
    }

    /// A parameter's Index, Subindex 0, the length of its value, and the value.
    fn add_value(&mut self, index: u16, value: &Octets)
        ensures { self.new.register
            ≡ fold crc_octet self.old.register (set_entry index value.now.items) }
    {
        let [high, low] = index.to_be_bytes();
        self.add(high);
        self.add(low);
        self.add(0);
        self.add(value.len() as u8);
        self.add_all(value);
    }

    fn value(&self) -> u32
        ensures { result ≡ bit_xor self.now.register 4294967295 }
    {
        self.register ^ u32::MAX
    }
}

/// The register once its lowest bit is out.
fn with_bit(register: u32) -> u32
    ensures { result ≡ crc_bit register }
{
    if register % 2 == 1 {
        (register >> 1) ^ POLYNOMIAL
    } else {
        register >> 1
    }
}

/// Whether a parameter that Data Storage keeps begins with this member.
fn begins_stored(member: &Member) -> bool
    ensures { result ≡ begins_stored member.now }
{
    member.access.is_stored() && member.place.sub <= 1
}

/// The whole parameter of a member.
fn whole(member: &Member) -> Place
    ensures { result ≡ whole member.now.place.index }
{
    Place {
        index: member.place.index,
        sub: 0,
    }
}

/// How many octets a set has at most.
pub(crate) fn size(members: &[Member]) -> usize
    requires few { length members.now ≤ 1000 }
    requires short { (place : Place) → most_at members.now place ≤ 232 }
    ensures { result ≡ set_size members.now members.now }
{
    let mut size = 0;
    for member in members {
        if begins_stored(member) {
            size += 4 + most_at(members, whole(member));
        }
    }
    size
}

/// How many octets the Index_List has.
pub(crate) fn list_size(members: &[Member]) -> usize
    requires { length members.now ≤ 1000 }
    ensures { result ≡ length (index_list members.now) }
{
    let mut size = 2;
    for member in members {
        if begins_stored(member) {
            size += 3;
        }
    }
    size
}

/// The Index_List.
pub(crate) fn list(table: &Table) -> Octets
    ensures { result.items ≡ index_list table.now.members }
{
    table.is_sound();
    let mut list = Octets::new();
    for member in table.members() {
        if begins_stored(member) {
            let [high, low] = member.place.index.to_be_bytes();
            list.try_extend_from_slice(&[high, low, 0]).unwrap();
        }
    }
    list.try_extend_from_slice(&[0, 0]).unwrap();
    list
}

/// The checksum of the set that these values are.
#[tactic(auto, using(crate::proofs::StorageLemmas::folds))]
pub(crate) fn checksum(table: &Table, cells: &[u8]) -> u32
    requires room { room_for table.now.members ≤ length cells.now }
    requires fit { all_fit table.now.members (values_in table.now.members cells.now) ≡ true }
    ensures { result ≡ crc32 (set_octets table.now.members
        (values_in table.now.members cells.now) table.now.members) }
{
    table.is_sound();
    let members = table.members();
    let mut crc = Crc32::new();
    let mut value = Octets::new();
    for member in members {
        if begins_stored(member) {
            cells::read_into(members, cells, whole(member), &mut value);
            crc.add_value(member.place.index, &value);
        }
    }
    crc.value()
}
