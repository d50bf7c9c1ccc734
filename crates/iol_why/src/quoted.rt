//! A word of a line, as it is shown.
use std::fmt;

/// How many bytes of a word are shown.
const SHOWN: usize = 40;

/// A word between quotation marks, its end left out if it is long. A byte that is no printable one
/// of ASCII is shown by its two digits.
#[derive(Clone, Copy, Debug)]
pub(crate) struct Quoted<'a>(pub &'a [u8]);

impl fmt::Display for Quoted<'_> {
    fn fmt<W: fmt::Write>(&self, f: &mut fmt::Formatter<W>) -> fmt::Result {
        f.write_char('"')?;
        for octet in self.0.iter().take(SHOWN) {
            match octet {
                b' '..=b'~' => f.write_char(char::from(*octet))?,
                _ => write!(f, "\\x{octet:02X}")?,
            }
        }
        f.write_str(if self.0.len() > SHOWN { "..\"" } else { "\"" })
    }
}
