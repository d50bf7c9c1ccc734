//! A sensor is exchanged, and its parameters come back without a tool: a port with Data Storage at
//! a simulated line.
//!
//! Of its input the program takes the last line `set ..`: the set that it saved before. Then
//! somebody changes sensor A at its key; A breaks; B comes in its place, then C, which is of
//! another type, then B again; at last a client writes parameters of B as blocks.
//!
//! A set that the port has fetched is saved as a line `set ..`. Each write that a sensor carries
//! out is printed. At 3/1 are the commands of Data Storage: 01 begins a fetch and 02 ends it, 03
//! begins a restore and 04 ends it. At 2/0 are those of a block: 03 begins it, 05 ends it and has
//! it stored.
#![tactic(auto)]

mod cable;
mod client;
mod gateway;
mod parameters;

use crate::cable::Sensor;
use crate::client::{read_limit, write_limits};
use crate::gateway::Gateway;
use crate::parameters::{LOWER_LIMIT, OTHER_TYPE, RULES, THERMOMETER, UPPER_LIMIT, members};
use anyhow::{Context, Result};
use example_kept::read_backup;
use iol_page::Page;
use iol_params::Table;
use iol_storage::Set;
use std::alloc::Global;

/// Plugs a sensor in.
fn plug_in<'a>(rt: &impl Print, gateway: &mut Gateway<'a>, sensor: Sensor<'a>) -> Result<()> {
    println!(rt; "{} is plugged in", sensor.name)?;
    gateway.cable.plug_in(sensor)
}

/// Pulls the sensor out, and goes on until the port has noticed.
fn pull_out<'a>(rt: &impl Print, gateway: &mut Gateway<'a>) -> Result<Sensor<'a>> {
    let sensor = gateway.cable.sensor.take();
    let sensor = sensor.context("nothing is plugged in")?;
    println!(rt;
        "{} is gone; {} requests carried out",
        sensor.name, sensor.carried
    )?;
    gateway.turns(rt)?;
    Ok(sensor)
}

/// Presses the key of the sensor that is plugged in.
fn press_key(rt: &impl Print, gateway: &mut Gateway<'_>) -> Result<()> {
    let sensor = gateway.cable.sensor.as_mut();
    let sensor = sensor.context("nothing is plugged in")?;
    let limit = sensor.press_key()?;
    println!(rt; "key of {}: the upper limit is {limit} tenths", sensor.name)?;
    gateway.turns(rt)
}

/// Somebody changes sensor A at its key; then it breaks.
fn change_and_break<'a>(
    rt: &impl Print,
    gateway: &mut Gateway<'a>,
    alloc: Global,
    table: &'a Table<'a>,
) -> Result<()> {
    let sensor = Sensor::new(alloc, "A", table, Page::from_octets(&THERMOMETER))?;
    plug_in(rt, gateway, sensor)?;
    gateway.turns(rt)?;
    press_key(rt, gateway)?;
    let _broken = pull_out(rt, gateway)?;
    Ok(())
}

/// Sensor B comes in its place. A client reads there what was changed at A.
fn replace<'a>(
    rt: &impl Print,
    gateway: &mut Gateway<'a>,
    alloc: Global,
    table: &'a Table<'a>,
) -> Result<Sensor<'a>> {
    let sensor = Sensor::new(alloc, "B", table, Page::from_octets(&THERMOMETER))?;
    plug_in(rt, gateway, sensor)?;
    read_limit(rt, gateway, UPPER_LIMIT)?;
    pull_out(rt, gateway)
}

/// Sensor C, of another type, is not served.
fn mistake<'a>(
    rt: &impl Print,
    gateway: &mut Gateway<'a>,
    alloc: Global,
    table: &'a Table<'a>,
) -> Result<()> {
    let sensor = Sensor::new(alloc, "C", table, Page::from_octets(&OTHER_TYPE))?;
    plug_in(rt, gateway, sensor)?;
    gateway.turns(rt)?;
    let _of_another_type = pull_out(rt, gateway)?;
    Ok(())
}

/// B is back, and a client writes its parameters as blocks.
fn write_blocks<'a>(rt: &impl Print, gateway: &mut Gateway<'a>, sensor: Sensor<'a>) -> Result<()> {
    plug_in(rt, gateway, sensor)?;
    gateway.turns(rt)?;
    write_limits(rt, gateway, 250, 300)?;
    write_limits(rt, gateway, 400, 350)?;
    read_limit(rt, gateway, LOWER_LIMIT)?;
    read_limit(rt, gateway, UPPER_LIMIT)
}

/// What happens at a port with this set.
fn play<'a>(rt: &HostRuntime, backup: Option<Set>, table: &'a Table<'a>) -> Result<()> {
    let mut gateway = Gateway::open(rt.alloc(), backup)?;
    change_and_break(rt, &mut gateway, rt.alloc(), table)?;
    let sensor = replace(rt, &mut gateway, rt.alloc(), table)?;
    mistake(rt, &mut gateway, rt.alloc(), table)?;
    write_blocks(rt, &mut gateway, sensor)
}

fn main(rt: HostRuntime) -> Result<()> {
    let backup = read_backup(&rt)?;
    println!(rt;
        "{}",
        if backup.is_some() {
            "a set was saved"
        } else {
            "no set was saved"
        }
    )?;
    let members = members();
    let table = Table::new(&members, &RULES).map_err(|fault| fault.flaw)?;
    play(&rt, backup, &table)
}
