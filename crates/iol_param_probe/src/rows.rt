//! The rows of a table, as lines have them.
use crate::words::Words;
use anyhow::{Context, Result};
use iol_isdu::Place;
use iol_params::{Access, DataType, IntegerWidth, Member, OrderRule};
use std::alloc::Global;

/// A member, with octets of its own.
#[derive(Drop)]
pub struct Row {
    place: Place,
    data_type: DataType,
    access: Access,
    default: Vec<u8>,
}

/// The row of a line, behind `member`.
pub fn row_of(words: &mut Words, alloc: Global) -> Result<Row> {
    let place = words.place()?;
    let access = access_of(words.word()?)?;
    let default = words.octets(alloc)?;
    let data_type = data_type_of(words)?;
    Ok(Row {
        place,
        data_type,
        access,
        default,
    })
}

/// The member of a row.
pub fn member_of(row: &Row) -> Member<'_> {
    Member {
        place: row.place,
        data_type: row.data_type,
        access: row.access,
        default: &row.default,
    }
}

/// The order rule of a line, behind `rule`.
pub fn rule_of(words: &mut Words) -> Result<OrderRule> {
    let low = words.place()?;
    let high = words.place()?;
    Ok(OrderRule { low, high })
}

fn access_of(word: &str) -> Result<Access> {
    match word {
        "ro" => Ok(Access::ReadOnly),
        "rw" => Ok(Access::ReadWrite),
        "stored" => Ok(Access::Stored),
        _ => None.context("there is no such access"),
    }
}

fn data_type_of(words: &mut Words) -> Result<DataType> {
    match words.word()? {
        "number" => {
            let width = width_of(words.number()?)?;
            let least = words.number()?;
            let most = words.number()?;
            Ok(DataType::UInteger(width, least, most))
        }
        "octets" => Ok(DataType::OctetString(words.octet()?)),
        "text" => Ok(DataType::Text(words.octet()?)),
        _ => None.context("there is no such data type"),
    }
}

fn width_of(octets: u32) -> Result<IntegerWidth> {
    match octets {
        1 => Ok(IntegerWidth::One),
        2 => Ok(IntegerWidth::Two),
        4 => Ok(IntegerWidth::Four),
        _ => None.context("a number has 1, 2 or 4 octets"),
    }
}
