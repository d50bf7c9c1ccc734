//! The journal of a book, in memory.
#![tactic(auto, using(crate::proofs::JournalLemmas::journal_steps))]

ghost use Rattle.std.specs.Prelude.{◌≡◌, ◌<◌, ◌≤◌, ◌+◌, ◌*◌, ◌++◌, ◌∷◌, ◌==◌, [], IsTrue, true, false, length, slice_get, slice_index_or, OnOk, OnErr};
ghost use Rattle.std.specs.Vec.{vec_len, vec_capacity};
ghost use Rattle.iol_book.specs.Lines.{entry_ticket, has_request, entry_request, outcome_in};
ghost use Rattle.iol_book.specs.Forms.{octets_of_request, octets_of_outcome, octets_of_entry, entry_from, most_octets};
ghost use Rattle.iol_book.specs.declared.entries.Entry.{Entry};
ghost use Rattle.iol_book.specs.declared.entries.Entry.TheVariants.{Submitted, Urgent, Answered};
ghost use Rattle.iol_book.specs.Limits.{most_data, most_entries};
ghost use Rattle.iol_book.specs.Entries.{entries_left};
ghost use Rattle.iol_book.specs.JournalInside.{line_octets};
ghost use Rattle.iol_book.specs.JournalModel.{octet_sum, HasPlaces, LacksPlaces, IsBlankJournal, IsWithin, IsRoomFor, HasPlacesOf, Grows};

use crate::entries::{Entry, Outcome, Ticket};
use crate::forms::{
    EntryForm, OutcomeForm, RequestForm, octets_of, octets_of_outcome, octets_of_request,
};
use crate::octets::{GROWTH, OctetList};
use iol_isdu::Request;
use std::alloc::{AllocError, Allocator, Global};
use std::marker::Model;

// The octets of one request, or of one answer, at most.
pub(crate) const MOST_DATA: usize = 232;

// One entry, without its octets, and where these lie.
#[derive(Clone, Copy, Debug, PartialEq, Eq)]
pub(crate) struct JournalLine {
    ticket: Ticket,
    start: usize,
    form: EntryForm,
    count: u8,
}

/// Entries of a book, the oldest first, in little memory: 32 octets each, and the octets of
/// requests and answers beside, as many as there are.
///
/// Contracts see the list of its entries, and for how many entries and octets it has memory.
#[derive(Drop)]
pub struct Journal<A: Allocator + Copy = Global> {
    lines: Vec<JournalLine, A>,
    octets: OctetList<A>,
}

impl<A: Allocator + Copy> Model for Journal<A> {
    ghost use Rattle.iol_book.specs.JournalModel.{JournalValue};

    ghost Value = { JournalValue };

    ghost use Rattle.iol_book.specs.JournalInside.{journal_view, AreLinesInOrder};

    ghost view = { journal_view };

    ghost invariant = { AreLinesInOrder };
}

impl<A: Allocator + Copy> Journal<A> {
    /// A journal without entries, and without memory for any.
    pub fn new(alloc: A) -> Journal<A>
        ensures { IsBlankJournal result }
    {
        Journal {
            lines: Vec::new(alloc),
            octets: OctetList::new(alloc),
        }
    }

    /// How many entries there are.
    pub fn len(&self) -> usize
        ensures value { result ≡ length self.now.items }
        ensures octets { octet_sum self.now.items ≤ most_data * result }
    {
        self.lines.len()
    }

    /// Whether there is none.
    pub fn is_empty(&self) -> bool
        ensures { result ≡ (length self.now.items == 0) }
    {
        self.lines.is_empty()
    }

    /// The entries, the oldest first.
    pub fn iter(&self) -> Entries<'_, A>
        ensures { entries_left result ≡ self.now.items }
    {
        Entries {
            journal: self,
            place: 0,
        }
    }

    /// The entry at this place, counted from 0, or None behind the last one.
    pub fn get(&self, place: usize) -> Option<Entry>
        ensures { result ≡ slice_get self.now.items place }
    {
        let line = line_at(&self.lines, place)?;
        Some(
            line.form
                .with(line.ticket, octets_at(self.octets.as_slice(), line)),
        )
    }

    // The same, of a place within.
    pub(crate) fn entry_at(&self, place: usize) -> Entry
        requires { place < length self.now.items }
        ensures { (e : Entry) → result ≡ slice_index_or self.now.items place e }
    {
        let line = self.lines[place];
        line.form
            .with(line.ticket, octets_at(self.octets.as_slice(), line))
    }

    // The ticket of the entry at this place.
    pub(crate) fn ticket_at(&self, place: usize) -> Ticket
        requires { place < length self.now.items }
        ensures { (e : Entry) → result ≡ entry_ticket (slice_index_or self.now.items place e) }
    {
        self.lines[place].ticket
    }

    // The request at this place, in place of another.
    pub(crate) fn put_request(&self, place: usize, into: &mut Request)
        requires { IsTrue (has_request (slice_get self.now.items place)) }
        ensures { into.new ≡ entry_request (slice_get self.now.items place) }
    {
        let Some(line) = line_at(&self.lines, place) else {
            return;
        };
        let Some(form) = line.form.request() else {
            return;
        };
        form.put(octets_at(self.octets.as_slice(), line), into);
    }

    // The outcome at this place, in place of another; that of a withdrawal where there is none.
    pub(crate) fn put_outcome(&self, place: usize, into: &mut Outcome)
        ensures { into.new ≡ outcome_in (slice_get self.now.items place) }
    {
        match line_at(&self.lines, place) {
            Some(line) => match line.form {
                EntryForm::Answered(form) => form.put(
                    octets_at(self.octets.as_slice(), line),
                    into,
                ),
                _ => *into = Outcome::Withdrawn,
            },
            None => *into = Outcome::Withdrawn,
        }
    }

    // One entry more, for which there is room.
    pub(crate) fn push(&mut self, entry: &Entry)
        requires place { length self.old.items < self.old.places }
        requires octets { IsRoomFor (octets_of_entry entry.now) self.old }
        ensures items { self.new.items ≡ self.old.items ++ entry.now ∷ [] }
        ensures places { HasPlacesOf self.old self.new }
    {
        self.add(entry.ticket(), EntryForm::of(entry), octets_of(entry));
    }

    // The entry that a request was submitted, urgent or not.
    pub(crate) fn push_submitted(&mut self, ticket: Ticket, request: &Request)
        requires place { length self.old.items < self.old.places }
        requires octets { IsRoomFor (octets_of_request request.now) self.old }
        ensures items { self.new.items ≡ self.old.items ++ Submitted ticket request.now ∷ [] }
        ensures places { HasPlacesOf self.old self.new }
        ensures most { length (octets_of_request request.now) ≤ most_data }
    {
        let form = EntryForm::Submitted(RequestForm::of(request));
        self.add(ticket, form, octets_of_request(request));
    }

    pub(crate) fn push_urgent(&mut self, ticket: Ticket, request: &Request)
        requires place { length self.old.items < self.old.places }
        requires octets { IsRoomFor (octets_of_request request.now) self.old }
        ensures items { self.new.items ≡ self.old.items ++ Urgent ticket request.now ∷ [] }
        ensures places { HasPlacesOf self.old self.new }
        ensures most { length (octets_of_request request.now) ≤ most_data }
    {
        let form = EntryForm::Urgent(RequestForm::of(request));
        self.add(ticket, form, octets_of_request(request));
    }

    // The entry that it has this outcome.
    pub(crate) fn push_answered(&mut self, ticket: Ticket, outcome: &Outcome)
        requires place { length self.old.items < self.old.places }
        requires octets { IsRoomFor (octets_of_outcome outcome.now) self.old }
        ensures items { self.new.items ≡ self.old.items ++ Answered ticket outcome.now ∷ [] }
        ensures places { HasPlacesOf self.old self.new }
        ensures most { length (octets_of_outcome outcome.now) ≤ most_data }
    {
        let form = EntryForm::Answered(OutcomeForm::of(outcome));
        self.add(ticket, form, octets_of_outcome(outcome));
    }

    // An entry without octets.
    pub(crate) fn push_bare(&mut self, ticket: Ticket, form: EntryForm)
        requires place { length self.old.items < self.old.places }
        requires octets { octet_sum self.old.items ≤ self.old.octet_places }
        ensures items { self.new.items ≡ self.old.items ++ entry_from form ticket [] ∷ [] }
        ensures places { HasPlacesOf self.old self.new }
    {
        self.add(ticket, form, &[]);
    }

    // An entry by its parts.
    fn add(&mut self, ticket: Ticket, form: EntryForm, octets: &[u8])
        requires place { length self.old.items < self.old.places }
        requires most { length octets.now ≤ most_octets form }
        requires octets { IsRoomFor octets.now self.old }
        ensures items { self.new.items ≡ self.old.items ++ entry_from form ticket octets.now ∷ [] }
        ensures places { HasPlacesOf self.old self.new }
    {
        self.lines.push_reserved(JournalLine {
            ticket,
            start: self.octets.len(),
            form,
            count: octets.len() as u8,
        });
        self.octets.append(octets);
    }

    // What its memory comes from.
    pub(crate) fn allocator(&self) -> A {
        *self.lines.allocator()
    }

    /// Takes all entries out, and keeps the memory.
    pub fn clear(&mut self)
        ensures { self.new ≡ record self.old { items = [] } }
    {
        self.lines.clear();
        self.octets.clear();
    }

    // Whether there is room for so many more entries with so many octets together.
    pub(crate) fn has_places(&self, entries: usize, octets: usize) -> bool
        ensures yes { result ≡ true → HasPlaces self.now entries octets }
        ensures no { result ≡ false → HasPlaces self.now entries octets → ⊥ }
    {
        entries <= self.lines.capacity() - self.lines.len() && self.octets.has_room(octets)
    }

    /// Gets room for so many more entries with so many octets together. Refused where there is no
    /// memory for them; the entries stay as they are.
    pub fn reserve(&mut self, entries: usize, octets: usize) -> Result<(), AllocError>
        ensures ok { OnOk result (HasPlaces self.new entries octets) }
        ensures grows { Grows self.old self.new }
        ensures full { OnErr result (HasPlaces self.old entries octets → ⊥) }
    {
        if self.lines.reserve(entries).is_err() || self.octets.reserve(octets).is_err() {
            return Err(AllocError);
        }
        Ok(())
    }

    // Gets room for the entries of another one.
    pub(crate) fn reserve_for(&mut self, other: &Journal<A>) -> Result<(), AllocError>
        ensures ok { OnOk result (HasPlaces self.new (length other.now.items)
            (octet_sum other.now.items)) }
        ensures grows { Grows self.old self.new }
        ensures full { OnErr result (LacksPlaces self.old other.now.items) }
    {
        self.reserve(other.lines.len(), other.octets.len())
    }

    // The same of a journal that has so many entries at most, with no more memory than for these.
    pub(crate) fn reserve_within(
        &mut self,
        entries: usize,
        octets: usize,
        most: usize,
    ) -> Result<(), AllocError>
        requires fits { length self.old.items + entries ≤ most }
        requires octets_fit { octet_sum self.old.items + octets ≤ most_data * most }
        requires number { most ≤ most_entries }
        requires within { IsWithin most self.old }
        ensures ok { OnOk result (HasPlaces self.new entries octets) }
        ensures grows { Grows self.old self.new }
        ensures within { IsWithin most self.new }
        ensures full { OnErr result (HasPlaces self.old entries octets → ⊥) }
    {
        if grow(&mut self.lines, entries, most).is_err()
            || self.octets.grow(octets, most * MOST_DATA).is_err()
        {
            return Err(AllocError);
        }
        Ok(())
    }
}

/// The entries of a journal, the oldest first, each as a value of its own.
#[derive(Clone, Copy)]
pub struct Entries<'a, A: Allocator + Copy = Global> {
    journal: &'a Journal<A>,
    place: usize,
}

impl<'a, A: Allocator + Copy> Iterator for Entries<'a, A> {
    ghost use Rattle.std.specs.Iterator.{YieldsFirst, item_count};
    ghost use Rattle.iol_book.specs.Entries.{entries_left};

    type Item = Entry;

    ghost next_gives = { YieldsFirst entries_left };

    ghost remaining = { item_count entries_left };

    fn next(&mut self) -> Option<Entry> {
        if self.place >= self.journal.len() {
            return None;
        }
        let entry = self.journal.entry_at(self.place);
        self.place += 1;
        Some(entry)
    }
}

fn line_at(lines: &[JournalLine], place: usize) -> Option<JournalLine>
    ensures { result ≡ slice_get lines.now place }
{
    lines.get(place).copied()
}

// The octets of a line.
fn octets_at(octets: &[u8], line: JournalLine) -> &[u8]
    requires { line.start + line.count ≤ length octets.now }
    ensures { result.now ≡ line_octets octets.now line }
{
    &octets[line.start..line.start + usize::from(line.count)]
}

// Room for so many more items, of a list of so many at most.
fn grow<T, A: Allocator>(list: &mut Vec<T, A>, more: usize, most: usize) -> Result<(), AllocError>
    requires fits { vec_len list.old + more ≤ most }
    requires within { vec_capacity list.old ≤ most }
    ensures items { list.new.items ≡ list.old.items }
    ensures ok { OnOk result (vec_len list.new + more ≤ vec_capacity list.new) }
    ensures grows { vec_capacity list.old ≤ vec_capacity list.new }
    ensures within { vec_capacity list.new ≤ most }
    ensures full { OnErr result (vec_capacity list.old < vec_len list.old + more) }
    ensures err { OnErr result (vec_capacity list.new ≡ vec_capacity list.old) }
{
    let length = list.len();
    if more <= list.capacity() - length {
        return Ok(());
    }
    list.reserve_exact(more.max(length / GROWTH).min(most - length))
}
