//! A line of a script that a plain port has no call for.
ghost use Rattle.std.specs.Prelude.{◌≡◌, ◌∷◌, ℕ, List, [], codes, is_some, option_map, option_and_then, MatchOption};
ghost use Rattle.std.specs.Str.{bytes_eq};
ghost use Rattle.iol_script.specs.Numerals.{octets_within, word_octets};
ghost use Rattle.iol_script.specs.RunLines.{place_of_words};
ghost use Rattle.iol_script.specs.Text.{alone, words_left};
ghost use Rattle.iol_stored_script.specs.StorageLines.{storage_mode_named, store_form, keep_named, block_form, write_taken, outcome_form, load_form, bare_storage_call, storage_call_form, storage_words};

use arrayvec::ArrayVec;
use iol_isdu::{Octets, Place};
use iol_script::{Words, decimal_number, hexadecimal_octets};
use iol_storage::{BlockTicket, Keep, Objects, StorageMode};

/// The octets of a set that a line can have: it has at most 1,024 bytes.
pub type LoadOctets = ArrayVec<u8, 512>;

/// A call of a port with Data Storage that a plain port hasn't.
#[derive(Drop)]
pub enum StorageCall {
    /// `submit_block`, with these writes.
    Block(Keep, Objects),
    /// `collect_block`.
    Outcome(BlockTicket),
    /// `standing`.
    Standing,
    /// `backup`.
    Backup,
    /// The set that waits, as `unsaved` says, is `saved`.
    Save,
    /// `load` of the set that has these octets.
    Load(LoadOctets),
    /// `forget`.
    Forget,
    /// `release`.
    Release,
}

/// A line that sets up a port with Data Storage, or makes a call that it alone has.
#[derive(Drop)]
pub enum StorageLine {
    /// The mode of Data Storage.
    Store(StorageMode),
    /// One call.
    Call(StorageCall),
}

impl StorageLine {
    ghost use Rattle.iol_stored_script.specs.StorageLines.{storage_form};

    /// What a line says, where it fits a form.
    pub fn parse(line: &[u8]) -> Option<StorageLine>
        ensures { result ≡ storage_form line.now }
    {
        parse_words(Words::of(line)?)
    }
}

fn parse_words(mut words: Words) -> Option<StorageLine>
    ensures { result ≡ storage_words (words_left words.entry) }
{
    let name = words.next()?;
    if is(name, b"store") {
        Some(StorageLine::Store(mode_of_words(words)?))
    } else {
        Some(StorageLine::Call(parse_call(name, words)?))
    }
}

/// The words of a call.
fn parse_call(name: &[u8], words: Words) -> Option<StorageCall>
    ensures { result ≡ storage_call_form name.now (words_left words.entry) }
{
    if is(name, b"block") {
        block_of(words)
    } else if is(name, b"outcome") {
        outcome_of(words)
    } else if is(name, b"load") {
        load_of(words)
    } else {
        parse_bare(name, words)
    }
}

fn parse_bare(name: &[u8], words: Words) -> Option<StorageCall>
    ensures { result ≡ alone (bare_storage_call name.now) (words_left words.entry) }
{
    end_of(words)?;
    bare_call(name)
}

/// Whether a word is this name. Names are short, so octets are compared one by one.
fn is(word: &[u8], name: &[u8]) -> bool
    ensures { result ≡ bytes_eq word.now name.now }
{
    word.len() == name.len() && word.iter().zip(name).all(|(octet, wanted)| octet == wanted)
}

/// No word is left.
fn end_of(mut words: Words) -> Option<()>
    ensures { MatchOption result ((word : List ℕ) × (rest : List (List ℕ))
        × (words_left words.entry ≡ word ∷ rest)) (λ _. words_left words.entry ≡ []) }
{
    match words.next() {
        None => Some(()),
        Some(_) => None,
    }
}

/// A call of one word.
fn bare_call(name: &[u8]) -> Option<StorageCall>
    ensures { result ≡ bare_storage_call name.now }
{
    if is(name, b"standing") {
        Some(StorageCall::Standing)
    } else if is(name, b"set") {
        Some(StorageCall::Backup)
    } else if is(name, b"save") {
        Some(StorageCall::Save)
    } else if is(name, b"forget") {
        Some(StorageCall::Forget)
    } else if is(name, b"release") {
        Some(StorageCall::Release)
    } else {
        None
    }
}

/// The word behind `store`.
fn mode_of_words(mut words: Words) -> Option<StorageMode>
    ensures { result ≡ store_form (words_left words.entry) }
{
    let word = words.next()?;
    end_of(words)?;
    mode_named(word)
}

fn mode_named(word: &[u8]) -> Option<StorageMode>
    ensures { result ≡ storage_mode_named word.now }
{
    if is(word, b"off") {
        Some(StorageMode::Off)
    } else if is(word, b"restore") {
        Some(StorageMode::Restore)
    } else if is(word, b"both") {
        Some(StorageMode::Both)
    } else if is(word, b"own") {
        Some(StorageMode::Own)
    } else {
        None
    }
}

/// The words behind `block`: whether the device asks for an upload behind it, and what is written,
/// a slash between two.
fn block_of(mut words: Words) -> Option<StorageCall>
    ensures { result ≡ block_form (words_left words.entry) }
{
    let keep = keep_of(words.next()?)?;
    let mut writes = Objects::new();
    put_write(&mut words, &mut writes)?;
    while let Some(word) = words.next() {
        slash_of(word)?;
        put_write(&mut words, &mut writes)?;
    }
    Some(StorageCall::Block(keep, writes))
}

/// What parts two writes.
fn slash_of(word: &[u8]) -> Option<()>
    ensures { is_some result ≡ bytes_eq word.now (codes "/") }
{
    match word {
        b"/" => Some(()),
        _ => None,
    }
}

fn keep_of(word: &[u8]) -> Option<Keep>
    ensures { result ≡ keep_named word.now }
{
    match word {
        b"plain" => Some(Keep::No),
        b"store" => Some(Keep::Yes),
        _ => None,
    }
}

/// Three words: a place and its octets, behind the other writes, where there is room.
fn put_write(words: &mut Words, writes: &mut Objects) -> Option<()>
    ensures { option_map (λ _. (writes.new, words_left words.new)) result
        ≡ write_taken writes.old (words_left words.old) }
{
    let place = place_of(words.next()?, words.next()?)?;
    let octets: Octets = hexadecimal_octets(words.next()?)?;
    writes.push(place, octets.as_slice()).ok()
}

/// An index and a subindex.
fn place_of(index: &[u8], sub: &[u8]) -> Option<Place>
    ensures { result ≡ place_of_words index.now sub.now }
{
    let index = decimal_number(index, 0, 65_535)? as u16;
    let sub = decimal_number(sub, 0, 255)? as u8;
    Some(Place { index, sub })
}

/// The word behind `outcome`: the number of a block.
fn outcome_of(mut words: Words) -> Option<StorageCall>
    ensures { result ≡ outcome_form (words_left words.entry) }
{
    let number = decimal_number(words.next()?, 0, u64::MAX)?;
    end_of(words)?;
    Some(StorageCall::Outcome(BlockTicket(number)))
}

/// The word behind `load`: the octets of a set.
fn load_of(mut words: Words) -> Option<StorageCall>
    ensures { result ≡ load_form (words_left words.entry) }
{
    let octets: LoadOctets = hexadecimal_octets(words.next()?)?;
    end_of(words)?;
    Some(StorageCall::Load(octets))
}
