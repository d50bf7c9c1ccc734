//! The set of Data Storage that outlives a program: one line of its input, and of its output.
#![tactic(auto)]

use anyhow::{Context, Result, bail};
use iol_storage::{Set, SetImage};

/// What the line of a set begins with.
const SET: &str = "set";

/// The set of the last line that has one; none where no line has.
///
/// A line that was cut off is none: the program has never said of that set that it was saved.
pub fn read_backup(rt: &(impl Input + AllocGlobal)) -> Result<Option<Set>> {
    let mut backup = None;
    let mut line = String::new(rt.alloc());
    for _ in 0..u64::MAX {
        line.clear();
        if rt.read_line(&mut line)? == 0 {
            break;
        }
        if let Some(line) = line.as_str().strip_suffix("\n") {
            if let Some(words) = line.strip_prefix(SET) {
                backup = Some(read_set(words)?);
            }
        }
    }
    Ok(backup)
}

/// The set of these octets.
fn read_set(words: &str) -> Result<Set> {
    let mut image = SetImage::new();
    for word in words.split_whitespace() {
        let octet = u8::from_str_radix(word, 16).context("a set has a word that is no octet")?;
        if image.try_push(octet).is_err() {
            bail!("a set has too many octets");
        }
    }
    Ok(Set::read(image.as_slice())?)
}

/// Prints a set, as one line. Once that is written, it is saved.
pub fn print_set(rt: &impl Print, set: &Set) -> Result<()> {
    let mut image = SetImage::new();
    set.write_into(&mut image);
    print!(rt; "{SET}")?;
    for octet in image.as_slice() {
        print!(rt; " {octet:02X}")?;
    }
    println!(rt;)?;
    Ok(())
}
