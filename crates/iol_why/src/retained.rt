//! A reader that keeps what was read last.
ghost use Rattle.std.specs.Prelude.{◌≡◌};

use iol_script::TextLines;
use std::alloc::Allocator;
use std::io;
use std::io::Read;

/// How much is kept.
#[derive(Clone, Copy, Debug, PartialEq, Eq)]
pub enum Keeping {
    /// Nothing.
    Nothing,
    /// All that is read.
    All,
    /// Of a text of any length the lines that were read last, 16 to 64 KiB of them.
    LastLines,
}

/// Past so many bytes the first half of them goes.
const MOST: usize = 65_536;

/// Hands on what its reader gives, and keeps of it what is to be kept.
#[derive(Drop)]
pub struct RetainedInput<R, A: Allocator> {
    reader: R,
    keeping: Keeping,
    /// Whole lines, and the beginning of one more.
    octets: Vec<u8, A>,
    /// How many lines ended before them.
    lines: u64,
    /// Whether there was no memory for a piece.
    is_lost: bool,
}

impl<R: Read, A: Allocator> RetainedInput<R, A> {
    /// Nothing is read.
    pub fn new(alloc: A, reader: R, keeping: Keeping) -> RetainedInput<R, A> {
        RetainedInput {
            reader,
            keeping,
            octets: Vec::new(alloc),
            lines: 0,
            is_lost: false,
        }
    }

    /// What is kept, where there was memory for it, and it is to be kept.
    pub fn text(&self) -> Option<RetainedText<'_>> {
        if self.is_lost || self.keeping == Keeping::Nothing {
            return None;
        }
        Some(RetainedText {
            octets: self.octets.as_slice(),
            lines: self.lines,
        })
    }

    /// Keeps a piece that was read.
    fn retain(&mut self, piece: &[u8])
        ensures { self.new.reader ≡ self.old.reader }
    {
        match self.keeping {
            Keeping::Nothing => return,
            Keeping::All => {}
            Keeping::LastLines => self.drop_first(),
        }
        if self.octets.extend_from_slice(piece).is_err() {
            self.is_lost = true;
        }
    }

    /// Where much is kept, drops the first half, down to the end of a line.
    fn drop_first(&mut self)
        ensures { self.new.reader ≡ self.old.reader }
    {
        if self.octets.len() <= MOST {
            return;
        }
        let (first, later) = self.octets.as_slice().split_at(MOST / 2);
        let Some(place) = later.iter().position(|octet| *octet == b'\n') else {
            return;
        };
        let ended = first.iter().filter(|octet| **octet == b'\n').count();
        self.lines = self.lines.saturating_add(ended as u64).saturating_add(1);
        let _ = self.octets.drain(..MOST / 2 + place + 1);
    }
}

impl<R: Read, A: Allocator> Read for RetainedInput<R, A> {
    ghost remaining = { λ retained. R.remaining retained.reader };

    fn read(&mut self, buf: &mut [u8]) -> io::Result<usize> {
        let count = self.reader.read(buf)?;
        self.retain(&buf[..count]);
        Ok(count)
    }
}

/// Lines of an input, and how many stand above them.
#[derive(Clone, Copy, Debug)]
pub struct RetainedText<'a> {
    octets: &'a [u8],
    lines: u64,
}

impl<'a> RetainedText<'a> {
    ghost use Rattle.std.specs.Prelude.{option_map};
    ghost use Rattle.iol_why.specs.Explained.{line_in};

    /// The whole input.
    pub fn whole(octets: &'a [u8]) -> RetainedText<'a> {
        RetainedText { octets, lines: 0 }
    }

    /// The bytes of the lines.
    pub(crate) fn octets(&self) -> &'a [u8] {
        self.octets
    }

    /// How many of the lines stand above that of this number.
    pub(crate) fn lines_above(&self, number: u64) -> u64 {
        number.saturating_sub(self.lines).saturating_sub(1)
    }

    /// The line of this number.
    pub(crate) fn line(&self, number: u64) -> Option<&'a [u8]>
        ensures { option_map (λ line. line.now) result ≡ line_in self.now number }
    {
        let place = number.saturating_sub(self.lines);
        for (number, line) in TextLines::of(self.octets) {
            if number == place {
                return Some(line);
            }
        }
        None
    }
}
