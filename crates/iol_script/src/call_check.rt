//! Whether the words of a line of `run` fit a call.
//!
//! While a script is read its calls are only counted. Nothing is built here: a
//! request has up to 232 octets.
ghost use Rattle.std.specs.Prelude.{◌≡◌, is_some};
ghost use Rattle.iol_script.specs.RunLines.{bare_call, call_form, read_form};
ghost use Rattle.iol_script.specs.RunLines.{request_form, ticket_form, urgent_form, write_form};
ghost use Rattle.iol_script.specs.Text.{words_left};

use crate::call_line::{bare_call, cycle_of, expect_of};
use crate::fields::{end_of, fits_image, fits_value, is, place_of};
use crate::numerals::decimal_number;
use crate::parts::Words;

/// Whether the words are those of one call.
pub(crate) fn fits_call(name: &[u8], words: Words) -> bool
    ensures { result ≡ is_some (call_form name.now (words_left words.entry)) }
{
    if is(name, b"read") || is(name, b"write") {
        fits_request(name, words)
    } else if is(name, b"urgent") {
        fits_urgent(words)
    } else if is(name, b"collect") {
        fits_ticket(words)
    } else if is(name, b"withdraw") {
        fits_ticket(words)
    } else if is(name, b"cancel") {
        fits_ticket(words)
    } else if is(name, b"abandon") {
        fits_ticket(words)
    } else if is(name, b"output") {
        fits_image(words)
    } else if is(name, b"expect") {
        expect_of(words).is_some()
    } else if is(name, b"cycle") {
        cycle_of(words).is_some()
    } else {
        end_of(words).is_some() && bare_call(name).is_some()
    }
}

#[tactic(auto, using(iol_sim::proofs::Scripts::mapped_some))]
fn fits_urgent(mut words: Words) -> bool
    ensures { result ≡ is_some (urgent_form (words_left words.entry)) }
{
    match words.next() {
        Some(name) => fits_request(name, words),
        None => false,
    }
}

fn fits_request(name: &[u8], words: Words) -> bool
    ensures { result ≡ is_some (request_form name.now (words_left words.entry)) }
{
    if is(name, b"read") {
        read_fits(words).is_some()
    } else if is(name, b"write") {
        write_fits(words).is_some()
    } else {
        false
    }
}

fn read_fits(mut words: Words) -> Option<()>
    ensures { is_some result ≡ is_some (read_form (words_left words.entry)) }
{
    place_of(words.next()?, words.next()?)?;
    end_of(words)
}

#[tactic(auto, using(crate::proofs::FitsLemmas::both_fit))]
fn write_fits(mut words: Words) -> Option<()>
    ensures { is_some result ≡ is_some (write_form (words_left words.entry)) }
{
    place_of(words.next()?, words.next()?)?;
    let value = words.next()?;
    end_of(words)?;
    if fits_value(value) { Some(()) } else { None }
}

fn fits_ticket(mut words: Words) -> bool
    ensures { result ≡ is_some (ticket_form (words_left words.entry)) }
{
    match words.next() {
        Some(number) => end_of(words).is_some() && decimal_number(number, 0, u64::MAX).is_some(),
        None => false,
    }
}
