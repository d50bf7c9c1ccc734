//! A text in its lines, and a line in its words.
ghost use Rattle.std.specs.Prelude.{◌≡◌, ◌+◌, ◌^◌, ◌<◌, ◌∷◌, ◌==◌, [], length, IfSome};
ghost use Rattle.std.specs.List.{after_first, before_first, position, slice_split};
ghost use Rattle.std.specs.Option.{option_map, option_map_or};

use memchr::memchr;

/// The most bytes of a line, its line feed not counted.
const LONGEST: usize = 1024;

/// The first line of a text, and what stands behind its line feed if there is one. A line may
/// be long, so many bytes are looked at at once.
fn first_line(text: &[u8]) -> (&[u8], Option<&[u8]>)
    ensures line { result.0.now ≡ before_first (λ b. b == 10) text.now }
    ensures rest { option_map_or (λ later. later.now) result.1 []
        ≡ after_first (λ b. b == 10) text.now }
    ensures shorter { IfSome result.1 (λ later. length result.0.now + length later.now + 1
        ≡ length text.now) }
{
    match memchr(b'\n', text) {
        Some(place) => (&text[..place], Some(&text[place + 1..])),
        None => (text, None),
    }
}

/// Where the first space stands.
fn space_in(line: &[u8]) -> Option<usize>
    ensures { result ≡ position (λ b. b == 32) line.now }
{
    line.iter().position(|byte| *byte == b' ')
}

/// The first word of a line, and what stands behind the space after it if there is one.
fn first_word(line: &[u8]) -> (&[u8], Option<&[u8]>)
    ensures parts { slice_split (λ b. b == 32) line.now
        ≡ result.0.now
        ∷ option_map_or (λ later. slice_split (λ b. b == 32) later.now) result.1 [] }
    ensures shorter { IfSome result.1 (λ later. length result.0.now + length later.now + 1
        ≡ length line.now) }
{
    match space_in(line) {
        Some(place) => (&line[..place], Some(&line[place + 1..])),
        None => (line, None),
    }
}

/// The lines of a text with their numbers, from 1 on. Each ends with a line feed,
/// which the last may lack.
#[derive(Clone, Copy, Debug)]
pub struct TextLines<'a> {
    left: &'a [u8],
    yielded: u64,
    ghost countable: { yielded + length left.now < 2 ^ 64 },
}

impl<'a> TextLines<'a> {
    ghost use Rattle.std.specs.Prelude.{◌≡◌};
    ghost use Rattle.iol_script.specs.Text.{numbered_lines, lines_left};

    /// The lines of a text, none of them given yet.
    pub fn of(text: &'a [u8]) -> TextLines<'a>
        ensures { lines_left result ≡ numbered_lines text.now }
    {
        TextLines {
            left: text,
            yielded: 0,
        }
    }
}

impl<'a> Iterator for TextLines<'a> {
    ghost use Rattle.std.specs.Iterator.{YieldsFirstBy, item_count};
    ghost use Rattle.iol_script.specs.Text.{lines_left};

    type Item = (u64, &'a [u8]);

    ghost next_gives = { YieldsFirstBy (λ item. (item.0, item.1.now)) lines_left };

    ghost remaining = { item_count lines_left };

    #[tactic(auto, using(crate::proofs::Cutting::first_line_is))]
    fn next(&mut self) -> Option<(u64, &'a [u8])> {
        if self.left.is_empty() {
            return None;
        }
        let (line, later) = first_line(self.left);
        self.left = later.unwrap_or(&[]);
        self.yielded += 1;
        Some((self.yielded, line))
    }
}

/// The words of a line, which one space parts.
#[derive(Clone, Copy, Debug)]
pub struct Words<'a> {
    left: Option<&'a [u8]>,
}

impl<'a> Words<'a> {
    ghost use Rattle.std.specs.Prelude.{◌≡◌};
    ghost use Rattle.iol_script.specs.Text.{line_words, words_left};

    /// The words of a line of at most 1,024 bytes. A blank line and a comment,
    /// which begins with `#`, have none.
    pub fn of(line: &'a [u8]) -> Option<Words<'a>>
        ensures { option_map words_left result ≡ line_words line.now }
    {
        if line.len() > LONGEST {
            return None;
        }
        let left = match line {
            [] | [b'#', ..] => None,
            _ => Some(line),
        };
        Some(Words { left })
    }
}

impl<'a> Iterator for Words<'a> {
    ghost use Rattle.std.specs.Iterator.{YieldsFirstRef, item_count};
    ghost use Rattle.iol_script.specs.Text.{words_left};

    type Item = &'a [u8];

    ghost next_gives = { YieldsFirstRef words_left };

    ghost remaining = { item_count words_left };

    fn next(&mut self) -> Option<&'a [u8]> {
        let (word, later) = first_word(self.left?);
        self.left = later;
        Some(word)
    }
}
