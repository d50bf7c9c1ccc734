//! Values of parameters, each with its place: the writes of a block, or the content of a set.
ghost use Rattle.std.specs.Prelude.{◌≡◌, ◌≤◌, ◌+◌, ◌*◌, ◌++◌, ◌∷◌, [], length, slice_get, nat_eq, nat_lt, is_some, IfSome, is_ok, OnOk, OnErr, IfErr};
ghost use Rattle.std.specs.Option.{option_map};
ghost use Rattle.iol_storage.specs.Objects.{fits_behind, values_size, fits_beside, objects_in, AreSpans, is_owned, is_command_place, any_owned};

use crate::StorageFault;
use arrayvec::ArrayVec;
use iol_isdu::{Octets, Place, Request};
use std::marker::Model;

/// The most parameters of a set, or of a block: as many as an Index_List in one ISDU names.
pub const MOST_OBJECTS: usize = 76;
/// The most octets of a set, with four of each parameter beside its value.
pub const MOST_OCTETS: usize = 2048;
/// The octets of a parameter in a set beside its value: Index, Subindex and length.
pub(crate) const HEADER: usize = 4;
/// The most octets of one value: those of one ISDU.
const MOST_VALUE: usize = 232;
/// The Index of SystemCommand (B.2.2).
const COMMAND_INDEX: u16 = 2;
/// The Index of Data Storage (B.2.3).
const STORAGE_INDEX: u16 = 3;

/// Whether a place is the port's own: the Index of Data Storage.
///
/// Rule STO-15.
pub(crate) fn is_owned(place: Place) -> bool
    ensures { result ≡ is_owned place }
{
    place.index == STORAGE_INDEX
}

/// Whether a place takes commands, of blocks or of Data Storage, and so is that of no parameter.
pub(crate) fn is_command_place(place: Place) -> bool
    ensures { result ≡ is_command_place place }
{
    place.index == COMMAND_INDEX || is_owned(place)
}

/// The value of one parameter, and where it lies.
#[derive(Clone, Copy, Debug, PartialEq, Eq)]
pub struct Object<'a> {
    pub place: Place,
    pub octets: &'a [u8],
}

impl Object<'_> {
    /// The request that writes it.
    pub(crate) fn write(&self) -> Request
        requires { length self.now.octets.now ≤ 232 }
        ensures { result ≡ Request.Write self.now.place (record { items = self.now.octets.now }) }
    {
        let mut octets = Octets::new();
        octets.try_extend_from_slice(self.octets).unwrap();
        Request::Write(self.place, octets)
    }
}

/// Where the value of a parameter lies among the octets of all.
#[derive(Clone, Copy, Default)]
struct Span {
    index: u16,
    sub: u8,
    from: u16,
    end: u16,
}

/// Values of parameters, in order.
#[derive(Drop)]
pub struct Objects {
    octets: ArrayVec<u8, MOST_OCTETS>,
    spans: ArrayVec<Span, MOST_OBJECTS>,
}

impl Model for Objects {
    ghost use Rattle.std.specs.Prelude.{◌≤◌, ◌+◌, ◌*◌, ℕ, List, length};
    ghost use Rattle.iol_isdu.specs.declared.values.Place.{Place};
    ghost use Rattle.iol_storage.specs.Objects.{objects_in, AreSpans};

    ghost Value = { List (Place × List ℕ) };

    ghost view = { λ o. objects_in o.octets.items o.spans.items };

    ghost invariant = { λ o. AreSpans 0 o.spans.items (length o.octets.items)
        × (length o.octets.items + 4 * length o.spans.items ≤ 2048) };
}

impl Objects {
    /// None yet.
    pub fn new() -> Objects
        ensures { result ≡ [] }
    {
        Objects {
            octets: ArrayVec::new(),
            spans: ArrayVec::new(),
        }
    }

    /// How many there are.
    pub fn len(&self) -> usize
        ensures value { result ≡ length self.now }
        ensures within { result ≤ 76 }
    {
        self.spans.len()
    }

    /// Whether there is none.
    pub fn is_empty(&self) -> bool
        ensures { result ≡ nat_eq (length self.now) 0 }
    {
        self.spans.is_empty()
    }

    /// A law, without code: they fit into a set.
    pub fn are_few(&self)
        ensures { values_size self.now + 4 * length self.now ≤ 2048 }
    {
        let _ = self.spans.len();
    }

    /// One of them, 0 the first.
    pub fn get(&self, index: usize) -> Option<Object<'_>>
        ensures value { option_map (λ o. (o.place, o.octets.now)) result
            ≡ slice_get self.now index }
        ensures found { is_some result ≡ nat_lt index (length self.now) }
        ensures short { IfSome result (λ o. length o.octets.now ≤ 232) }
    {
        object_at(&self.octets, &self.spans, index)
    }

    /// One more, behind all others.
    ///
    /// Refused, and then as they were, by 43 where there are 76, where the value has more than 232
    /// octets, or where all would have more than 2,048, with four of each beside its value.
    pub fn push(&mut self, place: Place, octets: &[u8]) -> Result<(), StorageFault>
        ensures room { is_ok result ≡ fits_behind self.old octets.now }
        ensures pushed { OnOk result (self.new ≡ self.old ++ (place, octets.now) ∷ []) }
        ensures refused { IfErr result (λ why. why ≡ StorageFault.TooLarge) }
        ensures unchanged { OnErr result (self.new ≡ self.old) }
    {
        if !fits_behind(self.octets.len(), self.spans.len(), octets.len()) {
            return Err(StorageFault::TooLarge);
        }
        let from = self.octets.len();
        self.octets.try_extend_from_slice(octets).unwrap();
        self.spans.push(Span {
            index: place.index,
            sub: place.sub,
            from: from as u16,
            end: (from + octets.len()) as u16,
        });
        Ok(())
    }

    /// Whether one of them lies where commands are written: it is no parameter, and as the write of
    /// a block it would end the block.
    pub(crate) fn any_owned(&self) -> bool
        ensures { result ≡ any_owned self.now }
    {
        for index in 0..self.len() {
            if is_command_place(self.get(index).unwrap().place) {
                return true;
            }
        }
        false
    }

    /// None any more.
    pub fn clear(&mut self)
        ensures { self.new ≡ [] }
    {
        self.octets.clear();
        self.spans.clear();
    }
}

/// Whether beside so many octets of so many values there is room for one with so many more.
fn fits_behind(octets: usize, count: usize, more: usize) -> bool
    requires { octets ≤ 2048 }
    ensures { result ≡ fits_beside octets count more }
{
    count < MOST_OBJECTS
        && more <= MOST_VALUE
        && octets + HEADER * (count + 1) + more <= MOST_OCTETS
}

/// The value of one of these spans.
fn object_at<'a>(octets: &'a [u8], spans: &[Span], index: usize) -> Option<Object<'a>>
    requires { AreSpans 0 spans.now (length octets.now) }
    ensures value { option_map (λ o. (o.place, o.octets.now)) result
        ≡ slice_get (objects_in octets.now spans.now) index }
    ensures found { is_some result ≡ nat_lt index (length (objects_in octets.now spans.now)) }
    ensures short { IfSome result (λ o. length o.octets.now ≤ 232) }
{
    let span = spans.get(index)?;
    Some(Object {
        place: Place {
            index: span.index,
            sub: span.sub,
        },
        octets: &octets[usize::from(span.from)..usize::from(span.end)],
    })
}
