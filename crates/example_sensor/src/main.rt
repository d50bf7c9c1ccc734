//! A device of one's own, a thermometer with parameters, whose line is this program's input and
//! output.
//!
//! It hears a line of its input and answers with a line of its output: `wake` with its
//! rate, `send A2 00` with the octets of its reply, or with an empty line where it has
//! none. `press up`, `down` or `reset` is a button at the sensor: `done`, or `refused` with the
//! ErrorType. `power` is a power cycle. It measures before each answer. The temperature is its
//! process data; an event comes when it rises above the switching point, and another when it no
//! longer is hot.
#![tactic(auto)]

mod parameters;
mod sensor;

use crate::parameters::{RULES, members};
use crate::sensor::{Button, Sensor};
use anyhow::{Context, Result};
use iol_mseq::Message;
use iol_page::Page;
use iol_param_device::{ParamDevice, slot_size};
use iol_params::Table;
use iol_slots::RamSlots;

/// V1.1, with ISDU, 8 octets of on-request data, 16 bits of process data in, none out.
const PAGE: [u8; 10] = [0x17, 0x2D, 0x11, 0x10, 0x00, 0x12, 0x34, 0x00, 0x01, 0x07];

/// The octets of `A2 00`; none where a word is no octet, or there are more than 66.
fn octets_of(words: &str) -> Option<Message> {
    let mut octets = Message::new();
    for word in words.split_whitespace() {
        let octet = u8::from_str_radix(word, 16).ok()?;
        octets.try_push(octet).ok()?;
    }
    Some(octets)
}

/// Prints the octets on a line.
fn print_octets(rt: &impl Print, octets: &[u8]) -> Result<()> {
    for (place, octet) in octets.iter().enumerate() {
        let space = if place == 0 { "" } else { " " };
        print!(rt; "{space}{octet:02X}")?;
    }
    println!(rt;)?;
    Ok(())
}

/// The button of a word.
fn button_of(word: &str) -> Option<Button> {
    match word {
        "up" => Some(Button::Up),
        "down" => Some(Button::Down),
        "reset" => Some(Button::Reset),
        _ => None,
    }
}

/// Presses the button of a word, and prints what comes of it.
fn press(rt: &impl Print, sensor: &mut Sensor<'_>, word: &str) -> Result<()> {
    let button = button_of(word).context("there is no such button")?;
    match sensor.press(button) {
        Ok(()) => println!(rt; "done")?,
        Err(why) => println!(rt; "refused 80 {:02X}", why.additional())?,
    }
    Ok(())
}

/// Answers a line of the input.
fn answer(rt: &impl Print, sensor: &mut Sensor<'_>, line: &str) -> Result<()> {
    if line == "wake" {
        sensor.wake();
        println!(rt; "COM2")?;
        return Ok(());
    }
    if line == "power" {
        sensor.power_cycle();
        println!(rt;)?;
        return Ok(());
    }
    if let Some(word) = line.strip_prefix("press ") {
        return press(rt, sensor, word);
    }
    let words = line
        .strip_prefix("send ")
        .context("a line is none of wake, send, press and power")?;
    let heard = octets_of(words).context("a message has a word that is no octet")?;
    let reply = sensor.hear(heard.as_slice());
    print_octets(rt, reply.unwrap_or_default().as_slice())
}

fn main(rt: HostRuntime) -> Result<()> {
    let members = members();
    let table = Table::new(&members, &RULES).map_err(|fault| fault.flaw)?;
    let slots = RamSlots::open(rt.alloc(), slot_size(&table))?;
    let page = Page::from_octets(&PAGE);
    let device = ParamDevice::open(rt.alloc(), &table, page, slots)?;
    let mut sensor = Sensor::new(device);
    for line in rt.lines(rt.alloc()) {
        sensor.measure()?;
        answer(&rt, &mut sensor, line?.as_str())?;
    }
    Ok(())
}
