//! The text of a script with Data Storage, as a script without it is read.
ghost use Rattle.std.specs.Prelude.{◌≡◌, ◌++◌, ◌∷◌, [], IfOk, OnOk};
ghost use Rattle.iol_script.specs.RunLines.{run_form};
ghost use Rattle.iol_script.specs.Text.{numbered_lines};
ghost use Rattle.iol_stored_script.specs.PlainText.{sets_up, storage_mode_in, store_behind, plain_line, plain_lines};
ghost use Rattle.iol_stored_script.specs.declared.as_plain.StoreLine.TheVariants.{Awaited};

use crate::storage_line::StorageLine;
use iol_script::{RunLine, TextLines};
use iol_storage::StorageMode;
use std::alloc::{AllocError, Allocator};

/// What stands where a call of Data Storage does: another call, so that it counts as one.
const CALL: &[u8; 6] = b"status";

/// The mode of Data Storage that a script asks for, none where it is for a plain port. The line
/// that says it stands before each line of the wire and each call.
pub fn mode_of(input: &[u8]) -> Option<StorageMode>
    ensures { result ≡ storage_mode_in (numbered_lines input.now) }
{
    for (_, line) in TextLines::of(input) {
        match StorageLine::parse(line) {
            Some(StorageLine::Store(mode)) => return Some(mode),
            _ if is_setting(line) => {}
            _ => return None,
        }
    }
    None
}

/// Whether `store` may stand behind this line: it sets something up, or says nothing.
fn is_setting(line: &[u8]) -> bool
    ensures { result ≡ sets_up (run_form line.now) }
{
    matches!(
        RunLine::parse(line),
        Some(RunLine::Skip | RunLine::Setting(_))
    )
}

/// Whether the setting of Data Storage was given.
#[derive(Clone, Copy, Debug, PartialEq, Eq)]
pub enum StoreLine {
    /// It wasn't yet.
    Awaited,
    /// It was, and may not be given again.
    Present,
}

impl StoreLine {
    /// Whether it was behind this line.
    fn behind(self, form: &Option<StorageLine>) -> StoreLine
        ensures { result ≡ store_behind self form.now }
    {
        match form {
            Some(StorageLine::Store(_)) => StoreLine::Present,
            _ => self,
        }
    }

    /// What stands where this line does.
    fn stand_in<'a>(self, form: &Option<StorageLine>, line: &'a [u8]) -> &'a [u8]
        ensures { result.now ≡ plain_line self form.now line.now }
    {
        match (self, form) {
            (_, Some(StorageLine::Call(_))) => CALL,
            (StoreLine::Awaited, Some(StorageLine::Store(_))) => &[],
            _ => line,
        }
    }
}

/// The text that is read as a script without Data Storage, and whose lines have the same numbers:
/// the first line `store` is a blank one there, and each call of Data Storage another call. Each
/// other line is as it was.
pub fn plain_text<A: Allocator>(alloc: A, input: &[u8]) -> Result<Vec<u8, A>, AllocError>
    ensures { IfOk result (λ text. numbered_lines text.items
        ≡ plain_lines Awaited (numbered_lines input.now)) }
{
    let mut text = Vec::new(alloc);
    let mut store = StoreLine::Awaited;
    for (_, line) in TextLines::of(input) {
        let form = StorageLine::parse(line);
        push_line(&mut text, store.stand_in(&form, line))?;
        store = store.behind(&form);
    }
    Ok(text)
}

/// Puts a line behind a text, with its line feed.
fn push_line<A: Allocator>(text: &mut Vec<u8, A>, line: &[u8]) -> Result<(), AllocError>
    ensures { OnOk result (text.new.items ≡ text.old.items ++ line.now ++ 10 ∷ []) }
{
    text.extend_from_slice(line)?;
    text.push(b'\n')?;
    Ok(())
}
