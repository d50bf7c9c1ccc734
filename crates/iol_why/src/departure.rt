//! How far the words of a line fit a form, and which forms they fit furthest.
use crate::cursor::Cursor;
use crate::field::Field;
use crate::form::{LineForm, Part};
use arrayvec::ArrayVec;

/// Where the words of a line leave a form.
#[derive(Clone, Copy, Debug)]
pub(crate) struct Departure<'a> {
    /// How many words fit.
    pub words: usize,
    /// Where the first stands that doesn't, or the line's end.
    pub place: Cursor<'a>,
    /// What is wanted there, or nothing more.
    pub wanted: Option<Part>,
}

/// As many parts as there are forms of a command.
const WANTED: usize = 50;

/// How often the parts are read that may stand several times.
const MOST_REPEATS: usize = 75;

/// What is wanted in a place: nothing more, or one of these parts.
pub type WantedList = ArrayVec<Part, WANTED>;

/// A line, as far as its words fit.
#[derive(Clone, Copy, Debug)]
struct Fitting<'a> {
    words: usize,
    place: Cursor<'a>,
}

impl<'a> Fitting<'a> {
    /// Reads the words of a part, and says whether they fit.
    fn reads(&mut self, part: &Part) -> bool {
        for count in 0..part.most() {
            let Some(word) = self.place.word() else {
                return count >= part.least();
            };
            if !part.fits(word) {
                return false;
            }
            self.words = self.words.saturating_add(1);
            self.place = self.place.behind();
        }
        true
    }

    /// Reads one of these words and these values, again and again, and says where the words leave
    /// them, if they do.
    fn leaves_repeated(
        mut self,
        names: &'static [&'static str],
        fields: &[Field],
    ) -> Option<Departure<'a>> {
        for _ in 0..MOST_REPEATS {
            self.place.word()?;
            let joint = Part::Words(names);
            if !self.reads(&joint) {
                return Some(self.leaves(Some(joint)));
            }
            for field in fields {
                let part = Part::Field(*field);
                if !self.reads(&part) {
                    return Some(self.leaves(Some(part)));
                }
            }
        }
        self.place.word()?;
        Some(self.leaves(None))
    }

    /// The form is left here, where this is wanted.
    fn leaves(&self, wanted: Option<Part>) -> Departure<'a> {
        Departure {
            words: self.words,
            place: self.place,
            wanted,
        }
    }
}

/// Where the words of a line leave a form, if they do.
pub(crate) fn departure_of<'a>(form: &LineForm, line: &'a [u8]) -> Option<Departure<'a>> {
    let mut fitting = Fitting {
        words: 0,
        place: Cursor::of(line),
    };
    for part in form.parts {
        if let Part::Repeated(names, fields) = part {
            return fitting.leaves_repeated(names, fields);
        }
        if !fitting.reads(part) {
            return Some(fitting.leaves(Some(*part)));
        }
    }
    fitting.place.word()?;
    Some(fitting.leaves(None))
}

/// Where the words of a line leave the forms that they fit furthest.
#[derive(Drop)]
pub(crate) struct Furthest<'a> {
    /// How many words fit.
    pub words: usize,
    /// Where the first stands that doesn't, or the line's end.
    pub place: Cursor<'a>,
    /// What is wanted there.
    pub wanted: WantedList,
}

impl<'a> Furthest<'a> {
    /// No form was tried.
    fn of(line: &'a [u8]) -> Furthest<'a> {
        Furthest {
            words: 0,
            place: Cursor::of(line),
            wanted: WantedList::new(),
        }
    }

    /// One more form is left here.
    fn add(&mut self, departure: &Departure<'a>) {
        if departure.words < self.words {
            return;
        }
        if departure.words > self.words {
            self.words = departure.words;
            self.place = departure.place;
            self.wanted.clear();
        }
        if let Some(part) = departure.wanted {
            self.add_part(part);
        }
    }

    /// One more part is wanted.
    fn add_part(&mut self, part: Part) {
        if !self.wanted.iter().any(|wanted| *wanted == part) {
            // There is room for a part of each form.
            let _ = self.wanted.try_push(part);
        }
    }
}

/// Where the words of a line leave the forms of these tables, if they leave each.
pub(crate) fn furthest_of<'a>(tables: &[&[LineForm]], line: &'a [u8]) -> Option<Furthest<'a>> {
    let mut furthest = Furthest::of(line);
    for table in tables {
        for form in *table {
            furthest.add(&departure_of(form, line)?);
        }
    }
    Some(furthest)
}
