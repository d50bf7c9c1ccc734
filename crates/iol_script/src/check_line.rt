//! What a line of `check` says.
ghost use Rattle.std.specs.Prelude.{◌≡◌, Some, option_map};
ghost use Rattle.iol_script.specs.Numerals.{number_in};
ghost use Rattle.iol_script.specs.CheckLines.{message_form, words_form, layout_form, preoperate_form, operate_form, parsed_form};
ghost use Rattle.iol_script.specs.Text.{alone, words_left};
ghost use Rattle.iol_script.specs.declared.check_line.LayoutLine.TheVariants.{Startup};

use crate::numerals::{decimal_number, parted_octets};
use crate::parts::Words;
use arrayvec::ArrayVec;

/// Octets of a line.
pub type LineOctets = ArrayVec<u8, 128>;

/// Which layout a line asks for.
#[derive(Clone, Copy, Debug, PartialEq, Eq)]
pub enum LayoutLine {
    /// That of STARTUP.
    Startup,
    /// The code of PREOPERATE.
    Preoperate(u8),
    /// The code of OPERATE, and how many octets of process data go in and out.
    Operate(u8, u8, u8),
}

/// A line of `check`.
#[derive(Clone, Debug, PartialEq, Eq, Drop)]
pub enum CheckLine {
    /// A blank line or a comment.
    Skip,
    /// A layout is asked for.
    Layout(LayoutLine),
    /// A master message.
    Master(LineOctets),
    /// The reply to a read.
    ReadReply(LineOctets),
    /// The reply to a write.
    WriteReply(LineOctets),
}

impl CheckLine {
    ghost use Rattle.iol_script.specs.CheckLines.{check_form};

    /// What a line says, where it fits a form.
    pub fn parse(line: &[u8]) -> Option<CheckLine>
        ensures { option_map parsed_form result ≡ check_form line.now }
    {
        parse_words(Words::of(line)?)
    }
}

fn parse_words(mut words: Words) -> Option<CheckLine>
    ensures { option_map parsed_form result ≡ words_form (words_left words.entry) }
{
    let Some(name) = words.next() else {
        return Some(CheckLine::Skip);
    };
    match name {
        b"layout" => Some(CheckLine::Layout(parse_layout(words)?)),
        b"m" => Some(CheckLine::Master(parse_octets(words)?)),
        b"r" => Some(CheckLine::ReadReply(parse_octets(words)?)),
        b"w" => Some(CheckLine::WriteReply(parse_octets(words)?)),
        _ => None,
    }
}

/// Words of two digits each: 1 to 128.
fn parse_octets(words: Words) -> Option<LineOctets>
    ensures { option_map (λ octets. octets.items) result ≡ message_form (words_left words.entry) }
{
    let octets: LineOctets = parted_octets(words)?;
    if octets.is_empty() {
        None
    } else {
        Some(octets)
    }
}

fn parse_layout(mut words: Words) -> Option<LayoutLine>
    ensures { result ≡ layout_form (words_left words.entry) }
{
    match words.next()? {
        b"startup" => parse_startup(words),
        b"preoperate" => parse_preoperate(words),
        b"operate" => parse_operate(words),
        _ => None,
    }
}

fn parse_startup(mut words: Words) -> Option<LayoutLine>
    ensures { result ≡ alone (Some Startup) (words_left words.entry) }
{
    match words.next() {
        None => Some(LayoutLine::Startup),
        Some(_) => None,
    }
}

fn parse_preoperate(mut words: Words) -> Option<LayoutLine>
    ensures { result ≡ preoperate_form (words_left words.entry) }
{
    let code = small_number(words.next()?)?;
    match words.next() {
        None => Some(LayoutLine::Preoperate(code)),
        Some(_) => None,
    }
}

fn parse_operate(mut words: Words) -> Option<LayoutLine>
    ensures { result ≡ operate_form (words_left words.entry) }
{
    let code = small_number(words.next()?)?;
    let input = small_number(words.next()?)?;
    let output = small_number(words.next()?)?;
    match words.next() {
        None => Some(LayoutLine::Operate(code, input, output)),
        Some(_) => None,
    }
}

/// A decimal number of at most 255.
fn small_number(word: &[u8]) -> Option<u8>
    ensures { result ≡ number_in 0 255 word.now }
{
    Some(decimal_number(word, 0, 255)? as u8)
}
