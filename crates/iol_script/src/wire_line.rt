//! The lines of `run` that make steps of the wire.
ghost use Rattle.std.specs.Prelude.{◌≡◌, Some};
ghost use Rattle.std.specs.Option.{option_map_or};
ghost use Rattle.iol_script.specs.RunLines.{auto_form, change_form, fate_named, fates_form, raise_form, wire_form};
ghost use Rattle.iol_script.specs.Text.{alone, words_left};

use crate::fields::{count_of, end_of, is, parse_image, place_of};
use crate::numerals::{hexadecimal_code, hexadecimal_octet, hexadecimal_octets};
use crate::parts::Words;
use iol_event::Event;
use iol_image::Image;
use iol_sim::{ChangeOctets, Fate, Step};

/// A line that makes steps of the wire.
#[derive(Clone, Debug, PartialEq, Eq, Drop)]
pub enum WireLine {
    /// This fate for so many calls of the wire, 1 to 100,000.
    Fates(Fate, u32),
    /// One step.
    One(Step),
}

impl WireLine {
    ghost use Rattle.std.specs.Prelude.{length};
    ghost use Rattle.iol_script.specs.Script.{fates_in, is_change, is_swap, steps_of};

    /// How many steps it makes.
    pub(crate) fn count(&self) -> u32
        ensures { result ≡ length (steps_of self.now) }
    {
        match self {
            WireLine::Fates(_, count) => *count,
            WireLine::One(_) => 1,
        }
    }

    /// How many of them are fates.
    #[tactic(auto, using(crate::proofs::FatesLemmas::of_fates))]
    pub(crate) fn fates(&self) -> u32
        ensures { result ≡ fates_in (steps_of self.now) }
    {
        match self {
            WireLine::Fates(_, count) => *count,
            WireLine::One(Step::Fate(_)) => 1,
            WireLine::One(_) => 0,
        }
    }

    /// Whether it exchanges the devices.
    pub(crate) fn is_swap(&self) -> bool
        ensures { result ≡ is_swap self.now }
    {
        match self {
            WireLine::One(Step::Swap) => true,
            WireLine::One(_) | WireLine::Fates(_, _) => false,
        }
    }

    /// Whether it changes a parameter at the device itself.
    pub(crate) fn is_change(&self) -> bool
        ensures { result ≡ is_change self.now }
    {
        match self {
            WireLine::One(Step::Change(_, _)) => true,
            WireLine::One(_) | WireLine::Fates(_, _) => false,
        }
    }
}

/// The words behind `wire`.
pub(crate) fn parse_wire(mut words: Words) -> Option<WireLine>
    ensures { result ≡ wire_form (words_left words.entry) }
{
    let name = words.next()?;
    if is(name, b"silent") {
        alone(WireLine::Fates(Fate::Silent, 1), words)
    } else if is(name, b"work") {
        alone(WireLine::One(Step::Work), words)
    } else if is(name, b"power") {
        alone(WireLine::One(Step::Power), words)
    } else if is(name, b"quiet") {
        alone(WireLine::One(Step::Quiet), words)
    } else if is(name, b"swap") {
        alone(WireLine::One(Step::Swap), words)
    } else if is(name, b"auto") {
        Some(WireLine::One(parse_auto(words)?))
    } else if is(name, b"raise") {
        Some(WireLine::One(parse_raise(words)?))
    } else if is(name, b"local") {
        Some(WireLine::One(parse_change(words)?))
    } else if is(name, b"input") {
        Some(WireLine::One(input_step(parse_image(words)?)))
    } else {
        parse_fates(name, words)
    }
}

/// The line, where no word is left.
fn alone(line: WireLine, words: Words) -> Option<WireLine>
    ensures { result ≡ alone (Some line) (words_left words.entry) }
{
    end_of(words)?;
    Some(line)
}

/// A fate, so many times.
fn parse_fates(name: &[u8], mut words: Words) -> Option<WireLine>
    ensures { result ≡ fates_form name.now (words_left words.entry) }
{
    let count = words.next()?;
    end_of(words)?;
    Some(WireLine::Fates(fate_named(name)?, count_of(count)?))
}

fn fate_named(name: &[u8]) -> Option<Fate>
    ensures { result ≡ fate_named name.now }
{
    if is(name, b"clean") {
        Some(Fate::Clean)
    } else if is(name, b"outlost") {
        Some(Fate::OutLost)
    } else if is(name, b"backlost") {
        Some(Fate::BackLost)
    } else if is(name, b"outdamaged") {
        Some(Fate::OutDamaged)
    } else if is(name, b"backdamaged") {
        Some(Fate::BackDamaged)
    } else if is(name, b"nowake") {
        Some(Fate::NoWake)
    } else {
        None
    }
}

fn parse_auto(mut words: Words) -> Option<Step>
    ensures { result ≡ auto_form (words_left words.entry) }
{
    let word = words.next()?;
    end_of(words)?;
    match word {
        b"on" => Some(Step::Auto(true)),
        b"off" => Some(Step::Auto(false)),
        _ => None,
    }
}

/// A qualifier of two digits, and a code of four.
fn parse_raise(mut words: Words) -> Option<Step>
    ensures { result ≡ raise_form (words_left words.entry) }
{
    let qualifier = hexadecimal_octet(words.next()?)?;
    let code = hexadecimal_code(words.next()?)?;
    end_of(words)?;
    Some(Step::Raise(Event { qualifier, code }))
}

/// A place, and up to 32 octets.
fn parse_change(mut words: Words) -> Option<Step>
    ensures { result ≡ change_form (words_left words.entry) }
{
    let place = place_of(words.next()?, words.next()?)?;
    let octets: ChangeOctets = hexadecimal_octets(words.next()?)?;
    end_of(words)?;
    Some(Step::Change(place, octets))
}

fn input_step(image: Option<Image>) -> Step
    ensures { result ≡ option_map_or Step.Input image Step.NoInput }
{
    match image {
        Some(image) => Step::Input(image),
        None => Step::NoInput,
    }
}
