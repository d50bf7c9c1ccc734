//! What is wrong with the blanks of a line, its end or its beginning, whatever its words.
ghost use Rattle.std.specs.Prelude.{IfSome};
ghost use Rattle.iol_why.specs.Explained.{IsColumnOf};

use std::fmt;

/// The most bytes of a line, its line feed not counted.
pub(crate) const LONGEST: usize = 1024;

/// What is wrong with the blanks of a line, its end or its beginning.
#[derive(Clone, Copy, Debug, PartialEq, Eq)]
pub enum TextFault {
    /// It has more than 1,024 bytes.
    TooLong,
    /// A byte order mark begins the text.
    ByteOrderMark,
    /// The byte order mark of UTF-16 begins the text.
    Utf16,
    /// A carriage return ends it.
    CarriageReturn,
    /// It has nothing but blanks.
    OnlyBlanks,
    /// A blank begins it.
    BlankInFront,
    /// Two blanks stand between two words.
    TwoBlanks,
    /// A blank ends it.
    BlankBehind,
    /// It has a tab.
    Tab,
}

impl fmt::Display for TextFault {
    fn fmt<W: fmt::Write>(&self, f: &mut fmt::Formatter<W>) -> fmt::Result {
        f.write_str(match self {
            TextFault::TooLong => "the line goes on, and a line has at most 1,024 bytes",
            TextFault::ByteOrderMark => {
                "a byte order mark begins the text: drop it, as by sed '1s/^\\xEF\\xBB\\xBF//'"
            }
            TextFault::Utf16 => "the text is UTF-16: convert it, as by iconv -f UTF-16 -t UTF-8",
            TextFault::CarriageReturn => {
                "a carriage return ends the line: drop them all, as by tr -d '\\r'"
            }
            TextFault::OnlyBlanks => "blanks without a word: drop them, an empty line is skipped",
            TextFault::BlankInFront => "a blank in front of the first word: drop it",
            TextFault::TwoBlanks => "a second blank: one parts two words",
            TextFault::BlankBehind => "a blank behind the last word: drop it",
            TextFault::Tab => "a tab: one blank parts two words",
        })
    }
}

/// What is wrong with the line of this number, and in which column, whatever its words.
pub(crate) fn text_fault_of(number: u64, line: &[u8]) -> Option<(usize, TextFault)>
    ensures { IfSome result (λ found. IsColumnOf line.now found.0) }
{
    if line.len() > LONGEST {
        return Some((LONGEST + 1, TextFault::TooLong));
    }
    match line {
        [0xEF, 0xBB, 0xBF, ..] if number == 1 => Some((1, TextFault::ByteOrderMark)),
        [0xFF, 0xFE, ..] | [0xFE, 0xFF, ..] if number == 1 => Some((1, TextFault::Utf16)),
        [.., b'\r'] => Some((line.len(), TextFault::CarriageReturn)),
        _ => blank_fault_of(line),
    }
}

/// What is wrong with the first blank that is, and its column.
fn blank_fault_of(line: &[u8]) -> Option<(usize, TextFault)>
    ensures { IfSome result (λ found. IsColumnOf line.now found.0) }
{
    if !line.is_empty() && line.iter().all(|octet| *octet == b' ') {
        return Some((1, TextFault::OnlyBlanks));
    }
    let mut before = None;
    for (place, octet) in line.iter().enumerate() {
        match (before, *octet) {
            (_, b'\t') => return Some((place + 1, TextFault::Tab)),
            (None, b' ') => return Some((place + 1, TextFault::BlankInFront)),
            (Some(b' '), b' ') => return Some((place + 1, TextFault::TwoBlanks)),
            _ => before = Some(*octet),
        }
    }
    match line {
        [.., b' '] => Some((line.len(), TextFault::BlankBehind)),
        _ => None,
    }
}
