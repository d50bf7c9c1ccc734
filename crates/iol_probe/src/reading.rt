//! What several lines have: octets, numbers, requests, answers.
ghost use Rattle.std.specs.Prelude.{◌≤◌};
ghost use Rattle.iol_octets.specs.Flow.{IsFlow};

use arrayvec::ArrayVec;
use iol_isdu::{Answer, Octets, Place, Request};
use iol_octets::Flow;
use iol_script::{
    Words, decimal_number, hexadecimal_code, hexadecimal_octet, hexadecimal_octets, parted_octets,
};

/// The octets of a line, more than the longest text and the longest message have.
pub(crate) type Bytes = ArrayVec<u8, 256>;

/// Whether a read or a write is spoken of.
#[derive(Clone, Copy)]
pub(crate) enum Direction {
    Read,
    Write,
}

impl Direction {
    pub fn is_read(self) -> bool {
        matches!(self, Direction::Read)
    }
}

pub(crate) fn is(word: &[u8], name: &[u8]) -> bool {
    word == name
}

/// The words of a line that are left, and whether the line is bad.
///
/// A word that is missing or fits no form makes it bad, and some value stands in its place. So a
/// line is answered to its end before anybody asks: what a bad line did and wrote is never seen.
#[derive(Drop)]
pub(crate) struct Line<'a> {
    words: Words<'a>,
    /// Whether all words are read, whatever `words` has.
    is_read: bool,
    is_bad: bool,
}

impl<'a> Line<'a> {
    /// A line of these words.
    pub fn of(words: Words<'a>) -> Line<'a> {
        Line {
            words,
            is_read: false,
            is_bad: false,
        }
    }

    /// It fits no form, or has no place where it stands.
    pub fn refuse(&mut self) {
        self.is_bad = true;
    }

    /// Whether it isn't bad, and no word is left.
    pub fn is_good(&mut self) -> bool {
        !self.is_bad && (self.is_read || self.words.next().is_none())
    }

    /// Whether no word is left.
    pub fn is_at_end(&self) -> bool {
        let mut words = self.words;
        self.is_read || words.next().is_none()
    }

    pub fn word(&mut self) -> &'a [u8] {
        match self.words.next() {
            Some(word) => word,
            None => {
                self.refuse();
                &[]
            }
        }
    }

    /// An octet in two hexadecimal digits.
    pub fn octet(&mut self) -> u8 {
        match hexadecimal_octet(self.word()) {
            Some(octet) => octet,
            None => {
                self.refuse();
                0
            }
        }
    }

    /// A number in four hexadecimal digits.
    pub fn code(&mut self) -> u16 {
        match hexadecimal_code(self.word()) {
            Some(code) => code,
            None => {
                self.refuse();
                0
            }
        }
    }

    /// The octets of all words that are left, two hexadecimal digits each.
    pub fn octets(&mut self) -> Bytes {
        self.is_read = true;
        match parted_octets(self.words) {
            Some(octets) => octets,
            None => {
                self.refuse();
                Bytes::new()
            }
        }
    }

    /// The octets of one word of pairs of hexadecimal digits, `-` for none.
    pub fn packed<const N: usize>(&mut self) -> ArrayVec<u8, N> {
        match hexadecimal_octets(self.word()) {
            Some(octets) => octets,
            None => {
                self.refuse();
                ArrayVec::new()
            }
        }
    }

    /// A decimal number in these bounds.
    pub fn between(&mut self, least: u64, most: u64) -> u64
        requires { least ≤ most }
        ensures least { least ≤ result }
        ensures most { result ≤ most }
    {
        match decimal_number(self.word(), least, most) {
            Some(number) => number,
            None => {
                self.refuse();
                least
            }
        }
    }

    /// A decimal number up to this one.
    pub fn number(&mut self, most: u64) -> u64
        ensures { result ≤ most }
    {
        self.between(0, most)
    }

    /// A decimal number up to 255.
    pub fn small(&mut self) -> u8 {
        self.number(255) as u8
    }

    /// `0` or `1`.
    pub fn bit(&mut self) -> bool {
        self.number(1) == 1
    }

    /// `read` or `write`.
    pub fn direction(&mut self) -> Direction {
        let name = self.word();
        if is(name, b"read") {
            return Direction::Read;
        }
        if !is(name, b"write") {
            self.refuse();
        }
        Direction::Write
    }

    /// A flow: `start`, `idle1`, `idle2`, `abort`, or the number of a COUNT.
    pub fn flow(&mut self) -> Flow
        ensures { IsFlow result }
    {
        let name = self.word();
        if is(name, b"start") {
            Flow::Start
        } else if is(name, b"idle1") {
            Flow::Idle1
        } else if is(name, b"idle2") {
            Flow::Idle2
        } else if is(name, b"abort") {
            Flow::Abort
        } else if let Some(count) = decimal_number(name, 0, 15) {
            Flow::Count(count as u8)
        } else {
            self.refuse();
            Flow::Start
        }
    }

    pub fn place(&mut self) -> Place {
        let index = self.number(65_535) as u16;
        let sub = self.small();
        Place { index, sub }
    }

    /// `read` and a place, or `write`, a place and one word of octets.
    pub fn request(&mut self) -> Request {
        let direction = self.direction();
        let place = self.place();
        match direction {
            Direction::Read => Request::Read(place),
            Direction::Write => Request::Write(place, self.packed()),
        }
    }

    /// `read` and one word of octets, `written`, or `refused` and two octets.
    pub fn answer(&mut self) -> Answer {
        let name = self.word();
        if is(name, b"read") {
            let octets: Octets = self.packed();
            return Answer::Read(octets);
        }
        if is(name, b"refused") {
            return Answer::Refused(self.octet(), self.octet());
        }
        if !is(name, b"written") {
            self.refuse();
        }
        Answer::Written
    }
}
