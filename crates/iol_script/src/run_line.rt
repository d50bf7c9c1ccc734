//! What a line of `run` says.
ghost use Rattle.std.specs.Prelude.{◌≡◌, IfSome};
ghost use Rattle.std.specs.Option.{option_map};
ghost use Rattle.iol_script.specs.RunLines.{limits_form, page_line, param_form, run_words, IsGoodLine};
ghost use Rattle.iol_script.specs.Text.{words_left};

use crate::call_line::{CallLine, parse_call, turns_of};
use crate::fields::{end_of, is};
use crate::parts::Words;
use crate::setting::{
    Setting, at_most_of, devices_of, kind_of, limits_of, order_of, page_of, param_of, pulses_of,
    range_of, stored_of,
};
use crate::wire_line::{WireLine, parse_wire};
use iol_port::Call;

/// A line of `run`.
#[derive(Clone, Debug, PartialEq, Eq, Drop)]
pub enum RunLine {
    /// A blank line or a comment.
    Skip,
    /// It sets something up.
    Setting(Setting),
    /// It makes steps of the wire.
    Wire(WireLine),
    /// It makes calls of the port.
    Call(CallLine),
}

impl RunLine {
    ghost use Rattle.iol_script.specs.RunLines.{run_form};

    /// What a line says, where it fits a form.
    pub fn parse(line: &[u8]) -> Option<RunLine>
        ensures form { result ≡ run_form line.now }
        ensures range { IfSome result IsGoodLine }
    {
        parse_words(Words::of(line)?)
    }
}

fn parse_words(mut words: Words) -> Option<RunLine>
    ensures form { result ≡ run_words (words_left words.entry) }
    ensures range { IfSome result IsGoodLine }
{
    let Some(name) = words.next() else {
        return Some(RunLine::Skip);
    };
    if is(name, b"page") {
        parse_page(words)
    } else if is(name, b"other") {
        Some(RunLine::Setting(Setting::Other(page_of(words)?)))
    } else if is(name, b"kind") {
        Some(RunLine::Setting(Setting::Kind(kind_of(words)?)))
    } else if is(name, b"pulses") {
        pulses_of(words)?;
        Some(RunLine::Setting(Setting::MissesPulses))
    } else if is(name, b"in") {
        order_of(words)?;
        Some(RunLine::Setting(Setting::InOrder))
    } else if is(name, b"devices") {
        Some(RunLine::Setting(Setting::Devices(devices_of(words)?)))
    } else if is(name, b"limits") {
        limits_line(words)
    } else if is(name, b"param") {
        param_line(words)
    } else if is(name, b"kept") {
        Some(RunLine::Setting(Setting::Stored(stored_of(words)?)))
    } else if is(name, b"range") {
        Some(RunLine::Setting(Setting::Range(range_of(words)?)))
    } else if is(name, b"atmost") {
        Some(RunLine::Setting(Setting::AtMost(at_most_of(words)?)))
    } else if is(name, b"wire") {
        Some(RunLine::Wire(parse_wire(words)?))
    } else if is(name, b"turn") {
        Some(RunLine::Call(CallLine::Turns(turns_of(words)?)))
    } else {
        Some(RunLine::Call(CallLine::Once(parse_call(name, words)?)))
    }
}

fn limits_line(words: Words) -> Option<RunLine>
    ensures form { result ≡ option_map RunLine.Setting (limits_form (words_left words.entry)) }
    ensures range { IfSome result IsGoodLine }
{
    let limits = limits_of(words)?;
    Some(RunLine::Setting(Setting::Limits {
        busy: limits.busy,
        journal: limits.journal,
        queue: limits.queue,
    }))
}

fn param_line(words: Words) -> Option<RunLine>
    ensures form { result ≡ option_map RunLine.Setting (param_form (words_left words.entry)) }
    ensures range { IfSome result IsGoodLine }
{
    let param = param_of(words)?;
    Some(RunLine::Setting(Setting::Param {
        place: param.place,
        writable: param.writable,
        value: param.value,
    }))
}

/// The words behind `page`: with none it is the call.
fn parse_page(words: Words) -> Option<RunLine>
    ensures form { result ≡ page_line (words_left words.entry) }
    ensures range { IfSome result IsGoodLine }
{
    if end_of(words).is_some() {
        Some(RunLine::Call(CallLine::Once(Call::Page)))
    } else {
        Some(RunLine::Setting(Setting::Page(page_of(words)?)))
    }
}
