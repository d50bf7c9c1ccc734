//! The table that a maker writes.
ghost use Rattle.std.specs.Prelude.{◌≡◌, ◌+◌, ◌++◌, ◌≤◌, ◌<◌, ◌^◌, [], take, drop, length, true, IfOk, IfErr, OnOk, Some, None, count_by};
ghost use Rattle.std.specs.Result.{result_err};
ghost use Rattle.iol_isdu.specs.declared.values.Place.{Place};
ghost use Rattle.iol_params.specs.Members.{selects, big_endian};
ghost use Rattle.iol_params.specs.Carry.{is_read_only_at, is_stored_at};
ghost use Rattle.std.specs.List.{list_any};
ghost use Rattle.iol_params.specs.Values.{all_fit, defaults, value_at, most_at};
ghost use Rattle.iol_params.specs.Table.{is_of_index, whole, is_managed, differs, sub_in_turn, has_length, member_flaw, members_fault, storage_fault, is_stored_number, are_stored_numbers, rule_flaw, rules_fault};

use crate::member::{DataType, Member, number_of};
use crate::storage;
use iol_isdu::{Octets, Place};
use std::marker::Model;
use thiserror::Error;

// The numbers of the refusals: their one table, which the definitions cite.
const TOO_MANY_MEMBERS: u8 = 50;

const MANAGED_INDEX: u8 = 51;

const SUBINDEX_OUT_OF_TURN: u8 = 52;

const MIXED_ACCESS: u8 = 53;

const BAD_LENGTH: u8 = 54;

const BAD_DEFAULT: u8 = 55;

const NO_STORED_NUMBER: u8 = 56;

const BROKEN_AT_FIRST: u8 = 57;

const TOO_MUCH_STORED: u8 = 58;

/// The most members that a table has.
const MOST_MEMBERS: usize = 1000;
/// The most octets that an Index_List has: those of one ISDU.
const MOST_LIST: usize = 232;
/// The most octets that a set of Data Storage has.
const MOST_STORED: usize = 2048;

/// Two stored numbers of which the first is at most the second, always (10.3.4).
#[derive(Clone, Copy, Debug, PartialEq, Eq)]
pub struct OrderRule {
    /// Where the lower number lies.
    pub low: Place,
    /// Where the higher one lies.
    pub high: Place,
}

/// Why a table can't be one.
#[derive(Clone, Copy, Debug, PartialEq, Eq, Error)]
pub enum Flaw {
    /// 50: more than 1,000 members.
    #[error("TooManyMembers")]
    TooManyMembers,
    /// 51: Indexes 0 to 3 and 12 are the manager's.
    #[error("ManagedIndex")]
    ManagedIndex,
    /// 52: one member of an Index has Subindex 0, several have 1, 2 and so on, in order.
    #[error("SubindexOutOfTurn")]
    SubindexOutOfTurn,
    /// 53: another member of the Index is changed by others.
    #[error("MixedAccess")]
    MixedAccess,
    /// 54: no octets, more than 232 in one parameter, or a text beside other members.
    #[error("BadLength")]
    BadLength,
    /// 55: the default doesn't fit the data type.
    #[error("BadDefault")]
    BadDefault,
    /// 56: an order rule's place has no stored number.
    #[error("NoStoredNumber")]
    NoStoredNumber,
    /// 57: the defaults break an order rule.
    #[error("BrokenAtFirst")]
    BrokenAtFirst,
    /// 58: more than 76 stored parameters, or more than 2,048 octets of them. The row is that
    /// behind the last member.
    #[error("TooMuchStored")]
    TooMuchStored,
}

impl Flaw {
    ghost use Rattle.iol_params.specs.Flaws.{flaw_number};

    /// The number of the refusal.
    pub fn code(self) -> u8
        ensures { result ≡ flaw_number self }
    {
        match self {
            Flaw::TooManyMembers => TOO_MANY_MEMBERS,
            Flaw::ManagedIndex => MANAGED_INDEX,
            Flaw::SubindexOutOfTurn => SUBINDEX_OUT_OF_TURN,
            Flaw::MixedAccess => MIXED_ACCESS,
            Flaw::BadLength => BAD_LENGTH,
            Flaw::BadDefault => BAD_DEFAULT,
            Flaw::NoStoredNumber => NO_STORED_NUMBER,
            Flaw::BrokenAtFirst => BROKEN_AT_FIRST,
            Flaw::TooMuchStored => TOO_MUCH_STORED,
        }
    }
}

/// The first flaw of a table, and where it is.
#[derive(Clone, Copy, Debug, PartialEq, Eq)]
pub struct TableFault {
    /// The row, 0 first: of a member, or of an order rule.
    pub row: usize,
    pub flaw: Flaw,
}

/// The parameters of a device: its members, and the order rules over them.
#[derive(Drop)]
pub struct Table<'a> {
    members: &'a [Member<'a>],
    rules: &'a [OrderRule],
}

impl<'a> Model for Table<'a> {
    ghost use Rattle.std.specs.Prelude.{◌≡◌, None};
    ghost use Rattle.iol_params.specs.Table.{ParamTable, table_fault};

    ghost Value = { ParamTable };

    ghost view = { λ t. record { members = t.members.now; rules = t.rules.now } };

    ghost invariant = { λ t. table_fault t.members.now t.rules.now ≡ None };
}

impl<'a> Table<'a> {
    ghost use Rattle.iol_params.specs.Table.{table_fault};
    ghost use Rattle.iol_params.specs.SoundTable.{IsSoundTable};

    /// The table of these members and order rules.
    ///
    /// Refused with 50 to 58 ([`Flaw`]), by the first row with a flaw, members first.
    ///
    /// Rules PAR-1, PAR-2.
    pub fn new(members: &'a [Member<'a>], rules: &'a [OrderRule]) -> Result<Table<'a>, TableFault>
        ensures table { IfOk result (λ t. t
            ≡ record { members = members.now; rules = rules.now }) }
        ensures sound { IfOk result (λ t. table_fault members.now rules.now ≡ None) }
        ensures fault { IfErr result (λ why. table_fault members.now rules.now ≡ Some why) }
    {
        if members.len() > MOST_MEMBERS {
            return Err(TableFault {
                row: MOST_MEMBERS,
                flaw: Flaw::TooManyMembers,
            });
        }
        check_members(members)?;
        check_storage(members)?;
        check_rules(members, rules)?;
        Ok(Table { members, rules })
    }

    /// The table of members and rules that were found to be without a flaw before. Nothing is
    /// looked at again.
    pub(crate) fn of_sound(members: &'a [Member<'a>], rules: &'a [OrderRule]) -> Table<'a>
        requires { table_fault members.now rules.now ≡ None }
        ensures { result ≡ record { members = members.now; rules = rules.now } }
    {
        Table { members, rules }
    }

    /// A law of each table, without code of its own: it has at most 1,000 members, each parameter
    /// fits into one ISDU, and the defaults fit and break no order rule.
    #[tactic(auto, using(crate::proofs::TableLemmas::sound_table))]
    pub fn is_sound(&self)
        ensures { IsSoundTable self.now }
    {
        let _ = &self.members;
    }

    /// Its members.
    pub fn members(&self) -> &'a [Member<'a>]
        ensures { result.now ≡ self.now.members }
    {
        self.members
    }

    /// Its order rules.
    pub fn rules(&self) -> &'a [OrderRule]
        ensures { result.now ≡ self.now.rules }
    {
        self.rules
    }
}

/// The first flaw of the members. Without one, the defaults fit, and each parameter fits into one
/// ISDU.
fn check_members(members: &[Member]) -> Result<(), TableFault>
    requires { length members.now ≤ 1000 }
    ensures fault { result_err result ≡ members_fault members.now [] 0 members.now }
    ensures fit { OnOk result (all_fit members.now (defaults members.now) ≡ true) }
    ensures short { OnOk result ((place : Place) → most_at members.now place ≤ 232) }
{
    for (row, member) in members.iter().enumerate() {
        if let Some(flaw) = flaw_of(members, &members[..row], member) {
            return Err(TableFault { row, flaw });
        }
    }
    Ok(())
}

/// Why a member can't stand behind these.
fn flaw_of(members: &[Member], before: &[Member], member: &Member) -> Option<Flaw>
    requires most { length members.now ≤ 1000 }
    requires front { length before.now ≤ 1000 }
    ensures { result ≡ member_flaw members.now before.now member.now }
{
    let place = member.place;
    let in_turn = sub_in_turn(
        count_of(members, place.index),
        count_of(before, place.index),
    );
    if is_managed(place.index) {
        Some(Flaw::ManagedIndex)
    } else if usize::from(place.sub) != in_turn {
        Some(Flaw::SubindexOutOfTurn)
    } else if has_other_access(members, member) {
        Some(Flaw::MixedAccess)
    } else if !has_length(members, member) {
        Some(Flaw::BadLength)
    } else if !member.data_type.fits(member.default) {
        Some(Flaw::BadDefault)
    } else {
        None
    }
}

/// Whether an Index is one of the manager's own.
fn is_managed(index: u16) -> bool
    ensures { result ≡ is_managed index }
{
    index <= 3 || index == 12
}

/// How many members an Index has.
fn count_of(members: &[Member], index: u16) -> usize
    ensures value { result ≡ count_by (is_of_index index) members.now }
    ensures bound { result ≤ length members.now }
{
    members
        .iter()
        .filter(|member| member.place.index == index)
        .count()
}

/// The Subindex of a member, by the members of its Index and those before it.
fn sub_in_turn(members: usize, before: usize) -> usize
    requires { before ≤ 1000 }
    ensures { result ≡ sub_in_turn members before }
{
    if members == 1 { 0 } else { before + 1 }
}

/// Whether another member of the same Index has other access.
fn differs(member: &Member, other: &Member) -> bool
    ensures { result ≡ differs member.now other.now }
{
    other.place.index == member.place.index && member.access != other.access
}

/// Whether another member of the same Index has other access.
fn has_other_access(members: &[Member], member: &Member) -> bool
    ensures { result ≡ list_any (differs member.now) members.now }
{
    members.iter().any(|other| differs(member, other))
}

/// Whether an Index has a member.
pub(crate) fn has_index(members: &[Member], index: u16) -> bool
    ensures { result ≡ list_any (is_of_index index) members.now }
{
    members.iter().any(|member| member.place.index == index)
}

/// Whether a place has a member.
pub(crate) fn has_place(members: &[Member], place: Place) -> bool
    ensures { result ≡ list_any (selects place) members.now }
{
    members.iter().any(|member| member.is_at(place))
}

/// Whether the master may not write a member of a place.
pub(crate) fn has_read_only(members: &[Member], place: Place) -> bool
    ensures { result ≡ list_any (is_read_only_at place) members.now }
{
    members.iter().any(|member| member.is_at(place) && !member.access.is_writable())
}

/// Whether Data Storage keeps a member of a place.
pub(crate) fn has_stored(members: &[Member], place: Place) -> bool
    ensures { result ≡ list_any (is_stored_at place) members.now }
{
    members
        .iter()
        .any(|member| member.is_at(place) && member.access.is_stored())
}

/// How many octets the values of a place have at most.
pub(crate) fn most_at(members: &[Member], place: Place) -> usize
    requires { length members.now ≤ 1000 }
    ensures { result ≡ most_at members.now place }
{
    let mut most = 0;
    for member in members {
        if member.is_at(place) {
            most += member.data_type.longest();
        }
    }
    most
}

/// Whether a member, and its whole parameter, has as many octets as it may.
fn has_length(members: &[Member], member: &Member) -> bool
    requires { length members.now ≤ 1000 }
    ensures { result ≡ has_length members.now member.now }
{
    let parameter = Place {
        index: member.place.index,
        sub: 0,
    };
    let alone = !matches!(member.data_type, DataType::Text(_)) || member.place.sub == 0;
    1 <= member.data_type.longest() && most_at(members, parameter) <= 232 && alone
}

/// Whether Data Storage keeps too much.
fn check_storage(members: &[Member]) -> Result<(), TableFault>
    requires few { length members.now ≤ 1000 }
    requires short { (place : Place) → most_at members.now place ≤ 232 }
    ensures { result_err result ≡ storage_fault members.now }
{
    if storage::list_size(members) <= MOST_LIST && storage::size(members) <= MOST_STORED {
        Ok(())
    } else {
        Err(TableFault {
            row: members.len(),
            flaw: Flaw::TooMuchStored,
        })
    }
}

/// The first flaw of the rules.
fn check_rules(members: &[Member], rules: &[OrderRule]) -> Result<(), TableFault>
    requires fit { all_fit members.now (defaults members.now) ≡ true }
    requires short { (place : Place) → most_at members.now place ≤ 232 }
    ensures { result_err result ≡ rules_fault members.now 0 rules.now }
{
    for (row, rule) in rules.iter().enumerate() {
        if !is_stored_number(members, rule.low) || !is_stored_number(members, rule.high) {
            return Err(TableFault {
                row,
                flaw: Flaw::NoStoredNumber,
            });
        }
        if default_at(members, rule.low) > default_at(members, rule.high) {
            return Err(TableFault {
                row,
                flaw: Flaw::BrokenAtFirst,
            });
        }
    }
    Ok(())
}

/// Whether a place is that of one stored number.
fn is_stored_number(members: &[Member], place: Place) -> bool
    ensures { result ≡ is_stored_number members.now place }
{
    count_at(members, place) == 1 && are_stored_numbers(members, place)
}

/// How many members a place has.
fn count_at(members: &[Member], place: Place) -> usize
    ensures { result ≡ count_by (selects place) members.now }
{
    members.iter().filter(|member| member.is_at(place)).count()
}

/// Whether each member of a place is a stored number.
fn are_stored_numbers(members: &[Member], place: Place) -> bool
    ensures { result ≡ are_stored_numbers place members.now }
{
    members
        .iter()
        .all(|member| !member.is_at(place) || member.is_stored_number())
}

/// The number that a place has at first.
#[tactic(auto, using(crate::proofs::TableLemmas::value_length))]
fn default_at(members: &[Member], place: Place) -> u32
    requires fit { all_fit members.now (defaults members.now) ≡ true }
    requires short { most_at members.now place ≤ 232 }
    ensures { result ≡ big_endian (value_at members.now (defaults members.now) place) }
{
    let mut value = Octets::new();
    for member in members {
        if member.is_at(place) {
            value.try_extend_from_slice(member.default).unwrap();
        }
    }
    number_of(&value)
}
