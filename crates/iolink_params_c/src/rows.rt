//! The table, as C writes it.
ghost use Rattle.std.specs.Prelude.{◌≡◌, IfOk, map};
ghost use Rattle.std.specs.List.{list_all};
ghost use Rattle.iolink_params_c.specs.Rows.{type_numbered, access_numbered, is_row, member_of, rule_of};

use iol_isdu::Place;
use iol_params::{Access, DataType, IntegerWidth, Member, OrderRule};
use std::alloc::{AllocError, Global};

/// A row of the table: one member of a parameter.
#[repr(C)]
pub struct IolParamRow<'a> {
    pub index: u16,
    pub sub: u8,
    /// 1, 2, 4 a number of so many octets; 5 octets; 6 a text.
    pub data_type: u8,
    /// 1 the device alone changes it, 2 the master too, 3 and Data Storage keeps it.
    pub access: u8,
    /// How many octets there are, or at most are of a text.
    pub count: u8,
    /// The least and the most that a number may be.
    pub least: u32,
    pub most: u32,
    /// Its value at first, and after a reset.
    pub octets: &'a [u8],
}

/// Two stored numbers of which the first is at most the second, always.
#[repr(C)]
pub struct IolOrderRule {
    pub low: u16,
    pub low_sub: u8,
    pub high: u16,
    pub high_sub: u8,
}

/// The data type of this number.
fn type_numbered(number: u8, count: u8, least: u32, most: u32) -> Option<DataType>
    ensures { result ≡ type_numbered number count least most }
{
    match number {
        1 => Some(DataType::UInteger(IntegerWidth::One, least, most)),
        2 => Some(DataType::UInteger(IntegerWidth::Two, least, most)),
        4 => Some(DataType::UInteger(IntegerWidth::Four, least, most)),
        5 => Some(DataType::OctetString(count)),
        6 => Some(DataType::Text(count)),
        _ => None,
    }
}

/// Who changes a parameter, by its number.
fn access_numbered(number: u8) -> Option<Access>
    ensures { result ≡ access_numbered number }
{
    match number {
        1 => Some(Access::ReadOnly),
        2 => Some(Access::ReadWrite),
        3 => Some(Access::Stored),
        _ => None,
    }
}

/// Whether the numbers of a row mean something.
fn is_row(row: &IolParamRow<'_>) -> bool
    ensures { result ≡ is_row row.now }
{
    type_numbered(row.data_type, row.count, row.least, row.most).is_some()
        && access_numbered(row.access).is_some()
}

/// Whether the numbers of each row mean something.
pub(crate) fn are_rows(rows: &[IolParamRow<'_>]) -> bool
    ensures { result ≡ list_all is_row rows.now }
{
    rows.iter().all(|row| is_row(row))
}

/// The member that a row means.
fn member_of<'a>(row: &IolParamRow<'a>) -> Member<'a>
    ensures { result ≡ member_of row.now }
{
    let data_type = type_numbered(row.data_type, row.count, row.least, row.most);
    Member {
        place: Place {
            index: row.index,
            sub: row.sub,
        },
        data_type: data_type.unwrap_or(DataType::Text(0)),
        access: access_numbered(row.access).unwrap_or(Access::ReadOnly),
        default: row.octets,
    }
}

fn rule_of(rule: &IolOrderRule) -> OrderRule
    ensures { result ≡ rule_of rule.now }
{
    OrderRule {
        low: Place {
            index: rule.low,
            sub: rule.low_sub,
        },
        high: Place {
            index: rule.high,
            sub: rule.high_sub,
        },
    }
}

/// The members that the rows mean.
pub(crate) fn members_of<'a>(
    alloc: Global,
    rows: &[IolParamRow<'a>],
) -> Result<Vec<Member<'a>, Global>, AllocError>
    ensures { IfOk result (λ members. members.items ≡ map member_of rows.now) }
{
    rows.iter().map(|row| member_of(row)).collect(alloc)
}

/// The order rules.
pub(crate) fn rules_of(
    alloc: Global,
    rules: &[IolOrderRule],
) -> Result<Vec<OrderRule, Global>, AllocError>
    ensures { IfOk result (λ made. made.items ≡ map rule_of rules.now) }
{
    rules.iter().map(|rule| rule_of(rule)).collect(alloc)
}
