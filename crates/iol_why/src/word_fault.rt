//! What is wrong with a word of a line, by the forms that the line fits furthest.
ghost use Rattle.std.specs.Prelude.{IfSome};
ghost use Rattle.iol_why.specs.Explained.{IsColumnOf};

use crate::departure::{Furthest, WantedList, furthest_of};
use crate::field::Unfit;
use crate::form::{LineForm, Lines, Part};
use crate::near::is_near;
use crate::quoted::Quoted;
use std::fmt;

/// How many words are listed, where none of them begins the line.
const LISTED: usize = 8;

/// What is wrong with a word of a line.
#[derive(Debug, Drop)]
pub enum WordFault<'a> {
    /// It isn't the value that is wanted, which is the one thing that is.
    Unfit(&'a [u8], Unfit),
    /// It may have been meant for a word that is wanted.
    Misspelled(&'a [u8], &'static str),
    /// It begins a line of another command.
    OfAnother(&'a [u8], Lines),
    /// It begins no line of this command.
    BeginsNone(&'a [u8], Lines),
    /// It is nothing of what is wanted.
    NoneOf(&'a [u8], WantedList),
    /// The line should have ended before it.
    OneTooMany(&'a [u8]),
    /// The line ends, and more is wanted.
    Ends(WantedList),
}

impl fmt::Display for WordFault<'_> {
    fn fmt<W: fmt::Write>(&self, f: &mut fmt::Formatter<W>) -> fmt::Result {
        match self {
            WordFault::Unfit(word, unfit) => write!(f, "{} {unfit}", Quoted(word)),
            WordFault::Misspelled(word, name) => {
                write!(f, "{} is no word here, perhaps \"{name}\"", Quoted(word))
            }
            WordFault::OfAnother(word, lines) => {
                write!(
                    f,
                    "{} begins a line of {lines}, not of this command",
                    Quoted(word)
                )
            }
            WordFault::BeginsNone(word, lines) => {
                write!(
                    f,
                    "{} begins no line of {lines}; its help has them",
                    Quoted(word)
                )
            }
            WordFault::NoneOf(word, wanted) => {
                write!(
                    f,
                    "{} can't stand here; wanted: {}",
                    Quoted(word),
                    Listed(wanted)
                )
            }
            WordFault::OneTooMany(word) => {
                write!(
                    f,
                    "{} is one word too many: the line ends before it",
                    Quoted(word)
                )
            }
            WordFault::Ends(wanted) => write!(f, "the line ends; wanted: {}", Listed(wanted)),
        }
    }
}

/// What is wanted, as a list.
#[derive(Clone, Copy, Debug)]
struct Listed<'a>(&'a WantedList);

impl fmt::Display for Listed<'_> {
    fn fmt<W: fmt::Write>(&self, f: &mut fmt::Formatter<W>) -> fmt::Result {
        for (place, part) in self.0.iter().enumerate() {
            if place > 0 {
                f.write_str(" or ")?;
            }
            write!(f, "{}", Either(part))?;
        }
        Ok(())
    }
}

/// The words and the value that a part may be, as a list.
#[derive(Clone, Copy, Debug)]
struct Either<'a>(&'a Part);

impl fmt::Display for Either<'_> {
    fn fmt<W: fmt::Write>(&self, f: &mut fmt::Formatter<W>) -> fmt::Result {
        let mut joint = "";
        for name in self.0.names() {
            write!(f, "{joint}{name}")?;
            joint = " or ";
        }
        match self.0.field() {
            Some(field) => write!(f, "{joint}{field}"),
            None => Ok(()),
        }
    }
}

/// What is wrong with the first word of a line that leaves the forms of these tables, which are
/// those that such lines may have there, and its column.
pub(crate) fn word_fault_of<'a>(
    lines: Lines,
    tables: &[&[LineForm]],
    line: &'a [u8],
) -> Option<(usize, WordFault<'a>)>
    ensures { IfSome result (λ found. IsColumnOf line.now found.0) }
{
    let furthest = furthest_of(tables, line)?;
    let column = furthest.place.column_in(line);
    let Some(word) = furthest.place.word() else {
        return Some((column, WordFault::Ends(furthest.wanted)));
    };
    Some((column, fault_at(lines, word, furthest)))
}

/// What is wrong with a word that is nothing of what is wanted in its place.
fn fault_at<'a>(lines: Lines, word: &'a [u8], furthest: Furthest<'a>) -> WordFault<'a> {
    if let Some(name) = near_name(&furthest.wanted, word) {
        return WordFault::Misspelled(word, name);
    }
    if furthest.words == 0 {
        if let Some(other) = lines.other_begun_by(word) {
            return WordFault::OfAnother(word, other);
        }
        if furthest.wanted.len() > LISTED {
            return WordFault::BeginsNone(word, lines);
        }
    }
    if furthest.wanted.is_empty() {
        return WordFault::OneTooMany(word);
    }
    match only_value(&furthest.wanted, word).and_then(|part| unfit(part, word)) {
        Some(unfit) => WordFault::Unfit(word, unfit),
        None => WordFault::NoneOf(word, furthest.wanted),
    }
}

/// A word that is wanted, and may have been meant.
fn near_name(wanted: &WantedList, word: &[u8]) -> Option<&'static str> {
    for part in wanted {
        for name in part.names() {
            if is_near(word, name.as_bytes()) {
                return Some(*name);
            }
        }
    }
    None
}

/// What has the one value that is wanted, if the word can have been meant for it alone: there is
/// one value, and no name, or the word begins with a digit.
fn only_value(wanted: &WantedList, word: &[u8]) -> Option<Part> {
    let mut only = None;
    for part in wanted {
        if !part.names().is_empty() && !matches!(word, [b'0'..=b'9', ..]) {
            return None;
        }
        match (only, part.field()) {
            (Some(_), Some(_)) => return None,
            (None, Some(_)) => only = Some(*part),
            (_, None) => {}
        }
    }
    only
}

/// Why a word isn't the value of a part.
fn unfit(part: Part, word: &[u8]) -> Option<Unfit> {
    let field = part.field()?;
    let fault = field.fault_of(word)?;
    let names = part.names();
    Some(Unfit {
        field,
        fault,
        names,
    })
}
