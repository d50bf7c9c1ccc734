//! Where the record of a device stands.
ghost use Rattle.std.specs.Prelude.{◌≡◌, ◌≤◌, ℕ, [], List, Option, None, Some, IfOk, IsTrue};
ghost use Rattle.iol_isdu.specs.declared.values.Request.{Request};
ghost use Rattle.iol_isdu.specs.declared.values.Answer.{Answer};
ghost use Rattle.iol_far.specs.declared.carried.Carried.{Carried};
ghost use Rattle.iol_far.specs.Level.{grown_by};
ghost use Rattle.iol_far.specs.Record.{takes_more};
ghost use Rattle.iol_far.specs.History.{HistoryEntry};
ghost use Rattle.iol_device.specs.Record.{Noted, nothing_noted};
ghost use base.Fml.{ftrue};

use iol_far::Carried;
use iol_isdu::{Answer, Place, Request};
use std::alloc::{AllocError, Allocator, Global};
use std::marker::{Model, PhantomData, Send, Sync};

/// The record of a device: each request that was carried out, with the answer to
/// it, the oldest first.
pub trait Record: Drop {
    /// The pairs of the record.
    ghost carried: { Self → List Carried };

    /// The most pairs that the record may have; none where it has no bound.
    ghost room: { Self → Option ℕ };

    /// Whether the record takes one more pair.
    fn has_room(&self) -> bool
        ensures { result ≡ takes_more (room self.now) (carried self.now) };

    /// The pair goes to the end of the record.
    fn push(&mut self, request: &Request, answer: &Answer)
        requires room { IsTrue (takes_more (room self.old) (carried self.old)) }
        ensures appended { carried self.new ≡ grown_by (carried self.old) request.now answer.now }
        ensures room { room self.new ≡ room self.old };
}

/// A record in memory, of a room of 1 to 100,000 pairs that is taken at the opening.
#[derive(Drop)]
pub struct FullRecord<A: Allocator + Copy = Global> {
    pairs: Vec<Carried, A>,
    room: u32,
}

impl<A: Allocator + Copy> Model for FullRecord<A> {
    ghost use Rattle.std.specs.Prelude.{◌≤◌, vec_capacity};
    ghost use Rattle.iol_device.specs.Record.{RecordValue};

    ghost Value = { RecordValue };

    ghost view = { λ r. record { carried = r.pairs.items; room = r.room } };

    ghost invariant = { λ r. r.room ≤ vec_capacity r.pairs };
}

impl<A: Allocator + Copy> FullRecord<A> {
    /// An empty record with room for so many pairs.
    pub(crate) fn open(alloc: A, room: u32) -> Result<FullRecord<A>, AllocError>
        ensures { IfOk result (λ r. r ≡ record { carried = []; room = room }) }
    {
        Ok(FullRecord {
            pairs: Vec::with_capacity(alloc, room as usize)?,
            room,
        })
    }

    /// The pairs.
    pub(crate) fn carried(&self) -> &[Carried]
        ensures { result.now ≡ self.now.carried }
    {
        self.pairs.as_slice()
    }
}

impl<A: Allocator + Copy> Record for FullRecord<A> {
    ghost carried = { λ r. r.carried };

    ghost room = { λ r. Some r.room };

    fn has_room(&self) -> bool {
        self.pairs.len() < self.room as usize
    }

    fn push(&mut self, request: &Request, answer: &Answer) {
        self.pairs.push_reserved(Carried {
            request: Request::Read(Place { index: 0, sub: 0 }),
            answer: Answer::Written,
        });
        if let Some(last) = self.pairs.last_mut() {
            last.request.set(request);
            last.answer.set(answer);
        }
    }
}

/// What clauses alone know, at no cost of memory: a record without bound, or what else happened
/// at a device.
pub struct NoRecord {
    marker: PhantomData<u8>,
    pub ghost noted: { Noted },
}

impl Model for NoRecord {
    ghost also_owns = { λ _. ftrue };
}

impl NoRecord {
    /// What the caller says; it may speak of `near`.
    pub(crate) fn of<T>(near: &T) -> NoRecord
        ghost noted: { Noted }
        ensures { result.noted ≡ noted }
    {
        let _ = near;
        NoRecord {
            marker: PhantomData,
        }
    }

    /// Nothing yet.
    pub(crate) fn new() -> NoRecord
        ensures { result.noted ≡ nothing_noted }
    {
        NoRecord::of(&())
    }

    /// The record with one more pair.
    fn grown_by(&self, request: &Request, answer: &Answer) -> NoRecord
        ensures { result.noted ≡ record self.now.noted {
          carried = grown_by self.now.noted.carried request.now answer.now;
        } }
    {
        NoRecord::of(&(self, request, answer))
    }

    /// With this history.
    pub(crate) fn with_history<T>(&self, near: &T) -> NoRecord
        ghost history: { List HistoryEntry }
        ensures { result.noted ≡ record self.now.noted { history = history } }
    {
        NoRecord::of(&(self, near))
    }
}

impl Drop for NoRecord {
    fn drop(self) {
        let Self { marker: _ } = self;
    }
}

// It owns nothing, so it may go to any thread, and any thread may share it.
unsafe impl Send for NoRecord {}

unsafe impl Sync for NoRecord {}

impl Record for NoRecord {
    ghost carried = { λ r. r.noted.carried };

    ghost room = { λ r. None };

    fn has_room(&self) -> bool {
        true
    }

    fn push(&mut self, request: &Request, answer: &Answer) {
        *self = self.grown_by(request, answer);
    }
}
