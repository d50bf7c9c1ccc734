//! What one word of a line says: an octet, a number, or several octets.
use arrayvec::ArrayVec;
use iol_capture::OctetLine;
use iol_script::{decimal_number, hexadecimal_code, hexadecimal_octet, hexadecimal_octets};
use std::fmt;

/// The most octets of one word.
const LONGEST_VALUE: usize = 512;

/// How a word says a value.
#[derive(Clone, Copy, Debug, PartialEq, Eq)]
pub enum Value {
    /// Two hexadecimal digits.
    Octet,
    /// Four hexadecimal digits.
    Code,
    /// Pairs of hexadecimal digits, so many of them; `-` is none.
    Octets {
        /// The fewest.
        least: usize,
        /// The most, up to 512.
        most: usize,
    },
    /// A decimal number without leading zeros.
    Number {
        /// The least.
        least: u64,
        /// The most.
        most: u64,
    },
    /// Seconds, with up to nine digits behind a point.
    Seconds,
    /// Two hexadecimal digits, with or without `0x`.
    ShownOctet,
}

/// A word that stands for a value.
#[derive(Clone, Copy, Debug, PartialEq, Eq)]
pub struct Field {
    /// How the help writes it.
    pub letters: &'static str,
    /// What it is, in a word or two.
    pub name: &'static str,
    /// How it is said.
    pub value: Value,
}

/// Why a word isn't such a field.
#[derive(Clone, Copy, Debug, PartialEq, Eq)]
pub enum FieldFault {
    /// It is written otherwise.
    Form,
    /// It is a number outside of the range.
    Range,
    /// It is a number with a zero in front.
    LeadingZero,
    /// It is of hexadecimal digits, and they are no pairs.
    OddDigits,
    /// It is of pairs, and they are too few or too many.
    Count(usize),
}

impl Field {
    /// Why a word isn't this field, if it isn't.
    pub(crate) fn fault_of(&self, word: &[u8]) -> Option<FieldFault> {
        if self.value.fits(word) {
            return None;
        }
        Some(match self.value {
            Value::Number { .. } => number_fault(word),
            Value::Octets { .. } => octets_fault(word),
            Value::Octet | Value::Code | Value::Seconds | Value::ShownOctet => FieldFault::Form,
        })
    }
}

impl Value {
    /// Whether a word says it, as those read it that take the line.
    fn fits(&self, word: &[u8]) -> bool {
        match *self {
            Value::Octet => hexadecimal_octet(word).is_some(),
            Value::Code => hexadecimal_code(word).is_some(),
            Value::Octets { least, most } => {
                octet_count(word).is_some_and(|count| least <= count && count <= most)
            }
            Value::Number { least, most } => decimal_number(word, least, most).is_some(),
            Value::Seconds => is_shown(word, b"00"),
            Value::ShownOctet => is_shown(b"0", word),
        }
    }
}

/// How many octets a word says.
fn octet_count(word: &[u8]) -> Option<usize> {
    let octets: ArrayVec<u8, LONGEST_VALUE> = hexadecimal_octets(word)?;
    Some(octets.len())
}

/// Whether a decoder shows an octet so, or a time.
fn is_shown(time: &[u8], octet: &[u8]) -> bool {
    let mut line: ArrayVec<u8, 1040> = ArrayVec::new();
    let fits = line.try_extend_from_slice(time).is_ok()
        && line.try_push(b' ').is_ok()
        && line.try_extend_from_slice(octet).is_ok();
    fits && matches!(
        OctetLine::parse(line.as_slice()),
        Some(OctetLine::Octet(..))
    )
}

/// Why a word is no number in a range.
fn number_fault(word: &[u8]) -> FieldFault {
    if !word.iter().all(|octet| octet.is_ascii_digit()) {
        return FieldFault::Form;
    }
    match word {
        [] => FieldFault::Form,
        [b'0', _, ..] => FieldFault::LeadingZero,
        _ => FieldFault::Range,
    }
}

/// Why a word isn't so many octets.
fn octets_fault(word: &[u8]) -> FieldFault {
    match word {
        b"-" => return FieldFault::Count(0),
        [] => return FieldFault::Form,
        _ => {}
    }
    if !word.iter().all(|octet| octet.is_ascii_hexdigit()) {
        FieldFault::Form
    } else if word.len() % 2 == 1 {
        FieldFault::OddDigits
    } else {
        FieldFault::Count(word.len() / 2)
    }
}

impl fmt::Display for Value {
    fn fmt<W: fmt::Write>(&self, f: &mut fmt::Formatter<W>) -> fmt::Result {
        match self {
            Value::Octet => f.write_str("two hexadecimal digits"),
            Value::Code => f.write_str("four hexadecimal digits"),
            Value::Octets { least: 0, most } => {
                write!(f, "pairs of hexadecimal digits, at most {most}, or -")
            }
            Value::Octets { least, most } => {
                write!(f, "pairs of hexadecimal digits, {least} to {most}")
            }
            Value::Number { least, most } => write!(f, "a number from {least} to {most}"),
            Value::Seconds => f.write_str("seconds, as 12.000042"),
            Value::ShownOctet => f.write_str("two hexadecimal digits, as A2 or 0xA2"),
        }
    }
}

impl fmt::Display for Field {
    fn fmt<W: fmt::Write>(&self, f: &mut fmt::Formatter<W>) -> fmt::Result {
        write!(f, "{} ({})", self.name, self.value)
    }
}

/// A field, why a word isn't one, and the words that could stand there too.
#[derive(Clone, Copy, Debug, PartialEq, Eq)]
pub struct Unfit {
    pub field: Field,
    pub fault: FieldFault,
    pub names: &'static [&'static str],
}

impl fmt::Display for Unfit {
    fn fmt<W: fmt::Write>(&self, f: &mut fmt::Formatter<W>) -> fmt::Result {
        self.write_fault(f)?;
        // What has the value's form but for a digit was not meant for one of these words.
        if matches!(self.fault, FieldFault::LeadingZero | FieldFault::OddDigits) {
            return Ok(());
        }
        for name in self.names {
            write!(f, ", or {name}")?;
        }
        Ok(())
    }
}

impl Unfit {
    /// Why the word isn't that field.
    fn write_fault<W: fmt::Write>(&self, f: &mut fmt::Formatter<W>) -> fmt::Result {
        let Unfit { field, fault, .. } = self;
        match fault {
            FieldFault::Form => write!(f, "is no {field}"),
            FieldFault::Range => write!(f, "is no {}: out of range, {}", field.name, field.value),
            FieldFault::LeadingZero => {
                write!(f, "is no {}: a number has no zero in front", field.name)
            }
            FieldFault::OddDigits => {
                write!(
                    f,
                    "is no {}: an odd count of digits, and an octet has two",
                    field.name
                )
            }
            FieldFault::Count(count) => {
                write!(
                    f,
                    "is no {}: {count} octets, and wanted are {}",
                    field.name, field.value
                )
            }
        }
    }
}
