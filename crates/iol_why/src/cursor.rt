//! A place in a line.
ghost use Rattle.std.specs.Prelude.{◌<◌, IfSome, length};
ghost use Rattle.iol_why.specs.Explained.{IsColumnOf};

/// What of a line stands behind the words that were read.
#[derive(Clone, Copy, Debug)]
pub(crate) struct Cursor<'a> {
    left: Option<&'a [u8]>,
}

impl<'a> Cursor<'a> {
    /// No word was read.
    pub fn of(line: &'a [u8]) -> Cursor<'a> {
        Cursor { left: Some(line) }
    }

    /// The column of the next word in its line, from 1; behind the last one that of its end.
    pub fn column_in(&self, line: &[u8]) -> usize
        ensures { IsColumnOf line.now result }
    {
        let left = self.left.map_or(0, |left| left.len());
        line.len().saturating_sub(left).saturating_add(1)
    }

    /// The next word, if there is one. One space parts two words.
    pub fn word(&self) -> Option<&'a [u8]> {
        let left = self.left?;
        Some(match space_in(left) {
            Some(place) => &left[..place],
            None => left,
        })
    }

    /// The place behind the next word.
    pub fn behind(&self) -> Cursor<'a> {
        Cursor {
            left: self.left.and_then(|left| behind_space(left)),
        }
    }
}

/// Where the first space stands.
fn space_in(text: &[u8]) -> Option<usize>
    ensures { IfSome result (λ place. place < length text.now) }
{
    text.iter().position(|octet| *octet == b' ')
}

/// What stands behind the first space.
fn behind_space(text: &[u8]) -> Option<&[u8]> {
    let place = space_in(text)?;
    Some(&text[place + 1..])
}
