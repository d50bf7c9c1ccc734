//! The program `iol_storage_probe`: lives of a port with Data Storage, by chances that a seed
//! decides, for tests.
//!
//! `iol_storage_probe SEED COUNT` plays so many lives, the first with this seed, and prints what
//! happens in them: a line each. WORD is octets in one word, `-` for none; REQUEST is
//! `read INDEX SUB` or `write INDEX SUB WORD`; ANSWER is `=WORD`, `written` or `!CODE`; OUTCOME is
//! ANSWER, `unknown`, `withdrawn` or `noisdu`. Without words it does nothing.
//!
//! ```text
//! seed SEED                             a life begins
//! life DEVICES MODE QUEUE JOURNAL LOST  how it is
//! unit UNIT PAGE MODEL                  a unit
//! state UNIT FLAG ACTIVITY LOCKS INDEX:WORD ..         what it keeps
//! carry UNIT PORT ENDED REQUEST ANSWER  what it carried out: handed over when so many had ended
//! local UNIT INDEX SUB WORD CODE        a user's change    factory UNIT 0|1   a user's reset
//! crowd UNIT                            its event memory is filled
//! full UNIT                             the event of a change is due, and has no room there yet
//! plug UNIT                             it stands at the line     power UNIT  it has power again
//! out UNIT 0|1                          whether its output is valid   silence UNIT
//! port PORT WORD                        the master begins anew, with this set
//! mode MODE TURN   image 0|1   kept UNSAVED WORD       what the port says otherwise
//! said TURN ENDED STANDING
//! ask REQUEST ticket T|refused N   collect T OUTCOME   takeback T N   abandon T N
//! try T N OUTSTANDING   blockend T RESULT
//! block KEEP LOW HIGH WORD COUNT COMMANDS ticket T|refused N
//! saved WORD   load ok|N   forget ok|N   release   restart   output set|none   event CODE
//! js T REQUEST   jt T   ja T OUTCOME    entries of the journal, as they are drained
//! calm   last   settled TURNS   never settled   end TURN STANDING
//! ```
#![tactic(auto)]

mod chance;
mod life;
mod line;
mod models;
mod program;
mod temper;
mod text;
mod unit;

use crate::chance::Chance;
use crate::life::Life;
use crate::models::{Model, OTHER, PLAIN, RULES};
use crate::unit::Unit;
use anyhow::{Context, Result};
use iol_params::Table;
use std::env;

/// How many kinds of units there are, by how often they are chosen.
const KINDS: u64 = 20;

/// Plays one life.
fn play<'t>(rt: &HostRuntime, seed: u64, plain: &'t Table<'t>, other: &'t Table<'t>) -> Result<()> {
    println!(rt; "seed {seed}")?;
    let mut chance = Chance::new(seed);
    let mut units = Vec::new(rt.alloc());
    for name in 0..1 + chance.below(3) {
        let model = Model::of(chance.below(KINDS));
        let table = match model {
            Model::Other => other,
            _ => plain,
        };
        units.push(Unit::open(rt.alloc(), name, model, table)?)?;
    }
    Life::open(rt, rt.alloc(), units, chance)?.play(rt)
}

/// The number that a word says.
fn number_of(word: Option<String>) -> Result<u64> {
    let word = word.context("a word is missing")?;
    word.as_str().parse().ok().context("a word is no number")
}

fn main(rt: HostRuntime) -> Result<()> {
    let mut words = env::args(&rt)?;
    let _program = words.next();
    let Some(seed) = words.next() else {
        return Ok(());
    };
    let seed = number_of(Some(seed))?;
    let count = number_of(words.next())?;
    let plain = Table::new(&PLAIN, &RULES).map_err(|fault| fault.flaw)?;
    let other = Table::new(&OTHER, &[]).map_err(|fault| fault.flaw)?;
    for life in 0..count {
        play(&rt, seed.wrapping_add(life), &plain, &other)?;
    }
    Ok(())
}
