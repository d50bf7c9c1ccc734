//! What the lines of a script say of the table of a device's parameters.
ghost use Rattle.std.specs.Prelude.{◌≡◌, IfOk, map, option_map};
ghost use Rattle.iol_script.specs.Tables.{access_of_param, AreMembers, has_no_table, is_stored_index, IsMember, no_table, range_at, range_number, order_rule_of, type_of_param, width_of_param, with_stored_index, with_range, with_rule};

use arrayvec::ArrayVec;
use iol_isdu::Place;
use iol_params::{Access, DataType, IntegerWidth, Member, OrderRule};
use iol_sim::ParameterEntry;
use std::alloc::{AllocError, Allocator};
use std::marker::Model;

/// A place that no list has.
const NO_PLACE: Place = Place { index: 0, sub: 0 };

/// The least and the most that the number at a place may be.
#[derive(Clone, Copy, Debug, PartialEq, Eq)]
pub struct NumberRange {
    /// Where the number lies.
    pub place: Place,
    /// The least that it may be.
    pub least: u32,
    /// The most.
    pub most: u32,
}

/// What stands where a list of them has no element.
impl Default for NumberRange {
    fn default() -> NumberRange {
        NumberRange {
            place: NO_PLACE,
            least: 0,
            most: 0,
        }
    }
}

/// Two places, the number at the first of which is at most that at the second.
#[derive(Clone, Copy, Debug, PartialEq, Eq)]
pub struct NumberOrder {
    /// Where the lower number lies.
    pub low: Place,
    /// Where the higher one lies.
    pub high: Place,
}

/// What stands where a list of them has no element.
impl Default for NumberOrder {
    fn default() -> NumberOrder {
        NumberOrder {
            low: NO_PLACE,
            high: NO_PLACE,
        }
    }
}

/// What lines say of the table of a device's parameters, beside the parameters themselves: at most
/// 32 lines of each sort. Where there is none, the device has no table.
#[derive(Debug, Drop)]
pub struct TableLines {
    /// The Indexes that Data Storage keeps.
    stored: ArrayVec<u16, 32>,
    /// The ranges of numbers.
    ranges: ArrayVec<NumberRange, 32>,
    /// The order rules.
    rules: ArrayVec<NumberOrder, 32>,
}

impl Model for TableLines {
    ghost use Rattle.iol_script.specs.Tables.{TableRules};

    ghost Value = { TableRules };

    ghost view = { λ t. record {
      stored = t.stored.items;
      ranges = t.ranges.items;
      rules = t.rules.items;
    } };
}

impl TableLines {
    /// No line.
    pub(crate) fn none() -> TableLines
        ensures { result ≡ no_table }
    {
        TableLines {
            stored: ArrayVec::new(),
            ranges: ArrayVec::new(),
            rules: ArrayVec::new(),
        }
    }

    /// Whether there is none.
    pub fn is_empty(&self) -> bool
        ensures { result ≡ has_no_table self.now }
    {
        self.stored.is_empty() && self.ranges.is_empty() && self.rules.is_empty()
    }

    /// The order rules, in the order of their lines.
    pub fn rules<A: Allocator>(&self, alloc: A) -> Result<Vec<OrderRule, A>, AllocError>
        ensures { IfOk result (λ rules. rules.items ≡ map order_rule_of self.now.rules) }
    {
        self.rules
            .iter()
            .map(|order| order_rule_of(order))
            .collect(alloc)
    }

    /// One more Index that Data Storage keeps: each once.
    pub(crate) fn keep(&mut self, index: u16) -> Option<()>
        ensures { option_map (λ _. self.new) result ≡ with_stored_index self.old index }
    {
        if self.keeps(index) {
            return None;
        }
        self.stored.try_push(index).ok()
    }

    /// One more range: at most one a place.
    pub(crate) fn limit(&mut self, range: NumberRange) -> Option<()>
        ensures { option_map (λ _. self.new) result ≡ with_range self.old range }
    {
        if self.range_at(range.place).is_some() {
            return None;
        }
        self.ranges.try_push(range).ok()
    }

    /// One more order rule.
    pub(crate) fn order(&mut self, rule: NumberOrder) -> Option<()>
        ensures { option_map (λ _. self.new) result ≡ with_rule self.old rule }
    {
        self.rules.try_push(rule).ok()
    }

    /// Whether Data Storage keeps an Index.
    fn keeps(&self, index: u16) -> bool
        ensures { result ≡ is_stored_index self.now index }
    {
        self.stored.iter().any(|stored| *stored == index)
    }

    /// The range of the number at a place, if it has one.
    fn range_at(&self, place: Place) -> Option<NumberRange>
        ensures { result ≡ range_at self.now.ranges place }
    {
        range_in(&self.ranges, place)
    }

    /// The members of the table: one for each parameter, in their order.
    pub(crate) fn members<'a, A: Allocator>(
        &self,
        alloc: A,
        params: &'a [ParameterEntry],
    ) -> Result<Vec<Member<'a>, A>, AllocError>
        ensures { IfOk result (λ members. AreMembers self.now params.now members.items) }
    {
        let mut members = Vec::new(alloc);
        for param in params {
            members.push(self.member(param))?;
        }
        Ok(members)
    }

    /// The member that a parameter is.
    fn member<'a>(&self, param: &'a ParameterEntry) -> Member<'a>
        ensures { IsMember self.now param.now result }
    {
        Member {
            place: param.place,
            data_type: self.data_type(param),
            access: self.access(param),
            default: param.value.as_slice(),
        }
    }

    /// A number, where it has a range, else just so many octets as it has.
    fn data_type(&self, param: &ParameterEntry) -> DataType
        ensures { result ≡ type_of_param self.now.ranges param.now }
    {
        match self.range_at(param.place) {
            Some(range) => DataType::UInteger(width_of(param), range.least, range.most),
            None => DataType::OctetString(param.value.len() as u8),
        }
    }

    /// Who changes it.
    fn access(&self, param: &ParameterEntry) -> Access
        ensures { result ≡ access_of_param self.now param.now }
    {
        if !param.writable {
            Access::ReadOnly
        } else if self.keeps(param.place.index) {
            Access::Stored
        } else {
            Access::ReadWrite
        }
    }
}

/// The range of the number at a place, if it has one.
fn range_in(ranges: &[NumberRange], place: Place) -> Option<NumberRange>
    ensures { result ≡ range_at ranges.now place }
{
    match position_in(ranges, place) {
        Some(at) => ranges.get(at).copied(),
        None => None,
    }
}

/// Where the range of a place stands among the others.
fn position_in(ranges: &[NumberRange], place: Place) -> Option<usize>
    ensures { result ≡ range_number ranges.now place }
{
    ranges.iter().position(|range| range.place == place)
}

fn order_rule_of(order: &NumberOrder) -> OrderRule
    ensures { result ≡ order_rule_of order.now }
{
    OrderRule {
        low: order.low,
        high: order.high,
    }
}

/// How wide a number is of these octets.
fn width_of(param: &ParameterEntry) -> IntegerWidth
    ensures { result ≡ width_of_param param.now }
{
    match param.value.len() {
        1 => IntegerWidth::One,
        2 => IntegerWidth::Two,
        _ => IntegerWidth::Four,
    }
}
