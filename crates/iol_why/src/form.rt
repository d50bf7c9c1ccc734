//! The forms of lines, each said once: what a line may say is asked of them, and what help prints.
use crate::field::Field;
use crate::tables;
use std::fmt;

/// A part of a form: most are of one word.
#[derive(Clone, Copy, Debug, PartialEq, Eq)]
pub enum Part {
    /// One of these words.
    Words(&'static [&'static str]),
    /// A value.
    Field(Field),
    /// One of these words, or a value.
    WordsOr(&'static [&'static str], Field),
    /// A value that may be missing.
    Optional(Field),
    /// So many values.
    Fields {
        /// Each of them.
        field: Field,
        /// The fewest.
        least: usize,
        /// The most.
        most: usize,
    },
    /// One of these words and these values behind it, several times. It stands last.
    Repeated(&'static [&'static str], &'static [Field]),
}

/// What fills the room of parts that were not added: no word fits it.
impl Default for Part {
    fn default() -> Part {
        Part::Words(&[])
    }
}

/// The form of a line.
#[derive(Clone, Copy, Debug)]
pub struct LineForm {
    /// What stands in the line.
    pub parts: &'static [Part],
    /// What it is for.
    pub about: &'static str,
}

impl Part {
    /// How many words it takes at least.
    pub(crate) fn least(&self) -> usize {
        match self {
            Part::Optional(_) | Part::Repeated(..) => 0,
            Part::Fields { least, .. } => *least,
            _ => 1,
        }
    }

    /// How many words it takes at most.
    pub(crate) fn most(&self) -> usize {
        match self {
            Part::Fields { most, .. } => *most,
            _ => 1,
        }
    }

    /// The words that it may be.
    pub(crate) fn names(&self) -> &'static [&'static str] {
        match *self {
            Part::Words(names) | Part::WordsOr(names, _) => names,
            _ => &[],
        }
    }

    /// The value that it may be.
    pub(crate) fn field(&self) -> Option<Field> {
        match *self {
            Part::Words(_) | Part::Repeated(..) => None,
            Part::WordsOr(_, field) | Part::Field(field) | Part::Optional(field) => Some(field),
            Part::Fields { field, .. } => Some(field),
        }
    }

    /// Whether a word fits it.
    pub(crate) fn fits(&self, word: &[u8]) -> bool {
        is_one_of(word, self.names())
            || self
                .field()
                .is_some_and(|field| field.fault_of(word).is_none())
    }
}

/// Whether a word is one of these.
fn is_one_of(word: &[u8], names: &[&'static str]) -> bool {
    names.iter().any(|name| is(word, name.as_bytes()))
}

/// Whether a word is this name.
fn is(word: &[u8], name: &[u8]) -> bool {
    word.len() == name.len() && word.iter().zip(name).all(|(octet, wanted)| octet == wanted)
}

impl LineForm {
    /// Whether a word begins it.
    fn begins_with(&self, word: &[u8]) -> bool {
        match self.parts {
            [part, ..] => is_one_of(word, part.names()),
            [] => false,
        }
    }
}

impl fmt::Display for Part {
    fn fmt<W: fmt::Write>(&self, f: &mut fmt::Formatter<W>) -> fmt::Result {
        let mut joint = "";
        for name in self.names() {
            write!(f, "{joint}{name}")?;
            joint = "|";
        }
        match self {
            Part::Words(_) => Ok(()),
            Part::WordsOr(_, field) => write!(f, "|{}", field.letters),
            Part::Field(field) => f.write_str(field.letters),
            Part::Optional(field) => write!(f, "[{}]", field.letters),
            Part::Fields { field, .. } => write!(f, "{} ..", field.letters),
            Part::Repeated(names, _) => write_repeated(f, names),
        }
    }
}

/// What parts stand several times: the word that begins them.
fn write_repeated<W: fmt::Write>(f: &mut fmt::Formatter<W>, names: &[&'static str]) -> fmt::Result {
    match names {
        [name, ..] => write!(f, "{name} .."),
        [] => Ok(()),
    }
}

impl fmt::Display for LineForm {
    fn fmt<W: fmt::Write>(&self, f: &mut fmt::Formatter<W>) -> fmt::Result {
        let mut joint = "";
        for part in self.parts {
            write!(f, "{joint}{part}")?;
            joint = " ";
        }
        Ok(())
    }
}

/// Which lines a command reads.
#[derive(Clone, Copy, Debug, PartialEq, Eq)]
pub enum Lines {
    /// Those of `check`.
    Check,
    /// Those of `run` and `trace`.
    Script,
    /// Those of `many`.
    Plan,
    /// Those of `judge`.
    Trace,
    /// Those of `judge --octets`.
    Octets,
}

impl Lines {
    /// The forms of these lines, in four tables at most.
    pub(crate) fn tables(self) -> [&'static [LineForm]; 4] {
        match self {
            Lines::Check => [&tables::CHECK, &[], &[], &[]],
            Lines::Script => [
                &tables::SETTINGS,
                &tables::WIRE,
                &tables::CALLS,
                &tables::STORAGE,
            ],
            Lines::Plan => [&tables::PLAN, &[], &[], &[]],
            Lines::Trace => [&tables::TRACE, &[], &[], &[]],
            Lines::Octets => [&tables::OCTETS, &[], &[], &[]],
        }
    }

    /// Whether a word begins one of these lines.
    pub(crate) fn are_begun_by(self, word: &[u8]) -> bool {
        for table in &self.tables() {
            if table.iter().any(|form| form.begins_with(word)) {
                return true;
            }
        }
        false
    }

    /// Other lines that a word begins.
    pub(crate) fn other_begun_by(self, word: &[u8]) -> Option<Lines> {
        for other in [Lines::Check, Lines::Script, Lines::Plan] {
            if other != self && other.are_begun_by(word) {
                return Some(other);
            }
        }
        None
    }
}

impl fmt::Display for Lines {
    fn fmt<W: fmt::Write>(&self, f: &mut fmt::Formatter<W>) -> fmt::Result {
        f.write_str(match self {
            Lines::Check => "iolink check",
            Lines::Script => "iolink run",
            Lines::Plan => "iolink many",
            Lines::Trace => "iolink judge",
            Lines::Octets => "iolink judge --octets",
        })
    }
}
