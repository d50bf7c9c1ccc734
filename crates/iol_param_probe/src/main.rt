//! The program `iol_param_probe`: a table, and lines that call one thing each of a device's saved
//! parameters, for tests.
//!
//! It reads its input whole, and prints a line for each one behind the table. WORD is octets in
//! one word, `-` for none; ACCESS is `ro`, `rw` or `stored`.
//!
//! ```text
//! member INDEX SUB ACCESS WORD number 1|2|4 LEAST MOST     the default and the data type
//! member INDEX SUB ACCESS WORD octets|text COUNT
//! rule INDEX SUB INDEX SUB
//! table                                                    the table ends: `ok`, or its fault
//! open                   anew, with erased slots           plug WORD WORD    with slots like these
//! unplug                 off: slots, stores, in order 0|1  power             off and on again
//! read INDEX SUB         write INDEX SUB WORD              set INDEX SUB WORD
//! reset                  over                              silence           raised
//! state
//! ```
#![tactic(auto)]

mod life;
mod logged;
mod rows;
mod words;

use crate::life::Life;
use crate::rows::{Row, member_of, row_of, rule_of};
use crate::words::Words;
use anyhow::{Context, Result};
use iol_params::Table;

/// Reads the rows, then lets lines call what they ask of a device of this table.
fn work(rt: &HostRuntime) -> Result<()> {
    let mut rows: Vec<Row> = Vec::new(rt.alloc());
    let mut rules = Vec::new(rt.alloc());
    let mut calls = Vec::new(rt.alloc());
    let mut is_table = true;
    for line in rt.lines(rt.alloc()) {
        let line = line?;
        let mut words = Words::of(line.as_str());
        if !is_table {
            calls.push(line)?;
            continue;
        }
        match words.word()? {
            "member" => rows.push(row_of(&mut words, rt.alloc())?)?,
            "rule" => rules.push(rule_of(&mut words)?)?,
            "table" => is_table = false,
            _ => return None.context("a line of the table is none"),
        }
    }
    let mut members = Vec::new(rt.alloc());
    for row in rows.iter() {
        members.push(member_of(row))?;
    }
    match Table::new(&members, &rules) {
        Ok(table) => answer_all(rt, &table, &calls),
        Err(fault) => {
            println!(rt; "refused {} {}", fault.row, fault.flaw)?;
            Ok(())
        }
    }
}

/// Answers each line behind the table.
fn answer_all(rt: &HostRuntime, table: &Table, calls: &[String]) -> Result<()> {
    println!(rt; "ok")?;
    let mut life = Life::new(rt.alloc(), table);
    for call in calls {
        life.answer(rt, &mut Words::of(call.as_str()))?;
    }
    Ok(())
}

fn main(rt: HostRuntime) -> Result<()> {
    work(&rt)
}
