//! Names that a word may have been meant for.

/// How long a name is at least that may be meant by a word with other letters.
const SURE: usize = 4;

/// Whether a name may have been meant by a word. They differ by upper and lower case alone; or the
/// name is of letters, and a longer one, by one letter more, less or another, or by two side by
/// side.
pub(crate) fn is_near(word: &[u8], name: &[u8]) -> bool {
    let (longer, shorter) = (word.len().max(name.len()), word.len().min(name.len()));
    let same = same_in_front(word, name);
    if same == longer || !name.iter().all(|octet| octet.is_ascii_alphabetic()) {
        return same == longer;
    }
    let differing = longer
        .saturating_sub(same)
        .saturating_sub(same_behind(word, name));
    (shorter >= SURE && differing <= 1) || (shorter > SURE && longer == shorter && differing <= 2)
}

/// How many letters are the same from the front on.
fn same_in_front(word: &[u8], name: &[u8]) -> usize {
    let mut count = 0usize;
    for (one, other) in word.iter().zip(name) {
        if !one.eq_ignore_ascii_case(other) {
            return count;
        }
        count = count.saturating_add(1);
    }
    count
}

/// How many letters are the same from the end on.
fn same_behind(word: &[u8], name: &[u8]) -> usize {
    let mut count = 0usize;
    for (one, other) in word.iter().rev().zip(name.iter().rev()) {
        if !one.eq_ignore_ascii_case(other) {
            return count;
        }
        count = count.saturating_add(1);
    }
    count
}
