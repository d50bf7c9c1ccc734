//! The values in memory: for each member of a table a cell, which is the number of the value's
//! octets and room for the most that it may have.
ghost use Rattle.std.specs.Prelude.{◌≡◌, ◌<◌, ◌≤◌, ◌+◌, ◌++◌, ◌∷◌, [], true, length, take, drop};
ghost use Rattle.iol_params.specs.Members.{selects, big_endian};
ghost use Rattle.iol_params.specs.Carry.{is_consistent};
ghost use Rattle.iol_params.specs.Values.{most_at, least_at, value_at, fits_place, overlay, all_fit, holds_rule, defaults, reset_values, room_for, values_in, cell_value, most_of};

use crate::member::{Member, number_of};
use crate::table::{OrderRule, Table};
use iol_isdu::{Octets, Place};

/// The octets of a value, in a cell of a member.
fn value_of<'a>(member: &Member, cell: &'a [u8]) -> &'a [u8]
    requires { 1 + most_of member.now ≤ length cell.now }
    ensures { result.now ≡ cell_value (most_of member.now) cell.now }
{
    let size = usize::from(cell[0]).min(member.data_type.longest());
    &cell[1..1 + size]
}

/// Puts the values of a place behind each other into a buffer.
#[tactic(auto, using(crate::proofs::TableLemmas::value_length))]
pub(crate) fn read_into(members: &[Member], cells: &[u8], place: Place, value: &mut Octets)
    requires room { room_for members.now ≤ length cells.now }
    requires fit { all_fit members.now (values_in members.now cells.now) ≡ true }
    requires most { most_at members.now place ≤ 232 }
    ensures { value.new.items
        ≡ value_at members.now (values_in members.now cells.now) place }
{
    value.clear();
    let mut cells = cells;
    for member in members {
        if member.is_at(place) {
            value
                .try_extend_from_slice(value_of(member, cells))
                .unwrap();
        }
        cells = &cells[1 + member.data_type.longest()..];
    }
}

/// Whether octets give each member of a place a value.
pub(crate) fn fit(members: &[Member], place: Place, octets: &[u8]) -> bool
    ensures { result ≡ fits_place members.now place octets.now }
{
    let mut octets = octets;
    for member in members {
        if member.is_at(place) {
            let size = member.data_type.longest().min(octets.len());
            let (value, rest) = octets.split_at(size);
            if !member.data_type.fits(value) {
                return false;
            }
            octets = rest;
        }
    }
    true
}

/// Puts a value into the cell that begins there.
fn put(cells: &mut [u8], at: usize, value: &[u8])
    requires room { at + 1 + length value.now ≤ length cells.old }
    requires short { length value.now < 256 }
    ensures { cells.new ≡ take at cells.old ++ (length value.now ∷ value.now)
        ++ drop (at + 1 + length value.now) cells.old }
{
    let size = value.len();
    cells[at] = size as u8;
    cells[at + 1..at + 1 + size].copy_from_slice(value);
}

/// Writes octets to a place: its members have them in order, the others stay.
pub(crate) fn write(members: &[Member], cells: &mut [u8], place: Place, octets: &[u8])
    requires room { room_for members.now ≡ length cells.old }
    ensures { values_in members.now cells.new
        ≡ overlay members.now (values_in members.now cells.old) place octets.now }
{
    let mut at = 0;
    let mut octets = octets;
    for member in members {
        let most = member.data_type.longest();
        if member.is_at(place) {
            let (value, rest) = octets.split_at(most.min(octets.len()));
            put(cells, at, value);
            octets = rest;
        }
        at += 1 + most;
    }
}

/// Gives each member that can be written its default.
pub(crate) fn reset(members: &[Member], cells: &mut [u8])
    requires room { room_for members.now ≡ length cells.old }
    requires fit { all_fit members.now (defaults members.now) ≡ true }
    ensures { values_in members.now cells.new
        ≡ reset_values members.now (values_in members.now cells.old) }
{
    let mut at = 0;
    for member in members {
        let most = member.data_type.longest();
        if member.access.is_writable() {
            put(cells, at, member.default);
        }
        at += 1 + most;
    }
}

/// Whether each member has a value that fits.
pub(crate) fn all_fit(members: &[Member], cells: &[u8]) -> bool
    requires { room_for members.now ≤ length cells.now }
    ensures { result ≡ all_fit members.now (values_in members.now cells.now) }
{
    let mut cells = cells;
    for member in members {
        if !member.data_type.fits(value_of(member, cells)) {
            return false;
        }
        cells = &cells[1 + member.data_type.longest()..];
    }
    true
}

/// Gives each member its default.
pub(crate) fn set_defaults(members: &[Member], cells: &mut [u8])
    requires room { room_for members.now ≡ length cells.old }
    requires fit { all_fit members.now (defaults members.now) ≡ true }
    ensures { values_in members.now cells.new ≡ defaults members.now }
{
    let mut at = 0;
    for member in members {
        let most = member.data_type.longest();
        put(cells, at, member.default);
        at += 1 + most;
    }
}

/// How many octets the cells of the members have.
pub(crate) fn room_for(members: &[Member]) -> usize
    requires { length members.now ≤ 1000 }
    ensures value { result ≡ room_for members.now }
    ensures bound { result ≤ 256000 }
{
    let mut room = 0;
    for member in members {
        room += 1 + member.data_type.longest();
    }
    room
}

/// How many octets the values of a place have at least.
pub(crate) fn least_at(members: &[Member], place: Place) -> usize
    requires { length members.now ≤ 1000 }
    ensures { result ≡ least_at members.now place }
{
    let mut least = 0;
    for member in members {
        if member.is_at(place) {
            least += member.data_type.fewest();
        }
    }
    least
}

/// The number at a place.
fn number_at(members: &[Member], cells: &[u8], place: Place) -> u32
    requires room { room_for members.now ≤ length cells.now }
    requires fit { all_fit members.now (values_in members.now cells.now) ≡ true }
    requires most { most_at members.now place ≤ 232 }
    ensures { result ≡ big_endian (value_at members.now (values_in members.now cells.now) place) }
{
    let mut value = Octets::new();
    read_into(members, cells, place, &mut value);
    number_of(&value)
}

/// Whether each order rule of a table holds.
pub(crate) fn are_consistent(table: &Table, cells: &[u8]) -> bool
    requires room { room_for table.now.members ≤ length cells.now }
    requires fit { all_fit table.now.members (values_in table.now.members cells.now) ≡ true }
    ensures { result ≡ is_consistent table.now (values_in table.now.members cells.now) }
{
    table.is_sound();
    let members = table.members();
    for rule in table.rules() {
        if number_at(members, cells, rule.low) > number_at(members, cells, rule.high) {
            return false;
        }
    }
    true
}

/// These octets, at most 232, as those of a value.
pub(crate) fn octets_of(octets: &[u8]) -> Octets
    requires { length octets.now ≤ 232 }
    ensures { result.items ≡ octets.now }
{
    let mut value = Octets::new();
    value.try_extend_from_slice(octets).unwrap();
    value
}
