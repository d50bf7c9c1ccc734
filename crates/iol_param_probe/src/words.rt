//! The words of a line.
ghost use Rattle.std.specs.Prelude.{◌<◌, IfOk};

use anyhow::{Context, Result};
use iol_isdu::Place;
use std::alloc::Global;
use std::str::SplitWhitespace;

/// What of a line is still to be read.
#[derive(Drop)]
pub struct Words<'a> {
    words: SplitWhitespace<'a>,
}

impl<'a> Words<'a> {
    pub fn of(line: &'a str) -> Words<'a> {
        Words {
            words: line.split_whitespace(),
        }
    }

    /// The next word.
    pub fn word(&mut self) -> Result<&'a str> {
        self.words.next().context("a word is missing")
    }

    pub fn number(&mut self) -> Result<u32> {
        self.word()?.parse().ok().context("a word is no number")
    }

    pub fn octet(&mut self) -> Result<u8> {
        self.word()?.parse().ok().context("a word is no octet")
    }

    /// An Index and a Subindex.
    pub fn place(&mut self) -> Result<Place> {
        let index = self.word()?.parse().ok().context("a word is no Index")?;
        let sub = self.octet()?;
        Ok(Place { index, sub })
    }

    /// Octets in one word, `-` for none.
    pub fn octets(&mut self, alloc: Global) -> Result<Vec<u8>> {
        let word = self.word()?.as_bytes();
        let mut octets = Vec::new(alloc);
        if word != b"-".as_slice() {
            for at in 0..word.len() / 2 {
                octets.push(octet_of(word[2 * at], word[2 * at + 1])?)?;
            }
        }
        Ok(octets)
    }
}

/// The octet of two hexadecimal digits.
fn octet_of(high: u8, low: u8) -> Result<u8> {
    Ok(16 * digit_of(high)? + digit_of(low)?)
}

fn digit_of(digit: u8) -> Result<u8>
    ensures { IfOk result (λ value. value < 16) }
{
    match digit {
        b'0'..=b'9' => Ok(digit - b'0'),
        b'A'..=b'F' => Ok(digit - b'A' + 10),
        _ => None.context("a word has something that is no digit"),
    }
}
