//! Sets of kinds of device.
ghost use Rattle.std.specs.Prelude.{◌≡◌, ◌&&◌, ◌||◌};

use iol_far::{HandsOver, Kind, Recalls};

/// Which of the four kinds of device that the standard lets be.
#[derive(Clone, Copy, Debug, PartialEq, Eq)]
pub struct Kinds {
    /// Hands over at the first read, recalls until left: our own.
    pub first_left: bool,
    /// Hands over at the first read, recalls until sent.
    pub first_sent: bool,
    /// Hands over at the last segment, recalls until left.
    pub last_left: bool,
    /// Hands over at the last segment, recalls until sent.
    pub last_sent: bool,
}

impl Kinds {
    ghost use Rattle.iol_judge.specs.Family.{all_kinds, both_kinds, admits_kind, kind_in, kinds_within, no_kinds, only_kind};

    /// None of them.
    pub fn none() -> Kinds
        ensures { result ≡ no_kinds }
    {
        Kinds {
            first_left: false,
            first_sent: false,
            last_left: false,
            last_sent: false,
        }
    }

    /// All of them.
    pub fn all() -> Kinds
        ensures { result ≡ all_kinds }
    {
        Kinds {
            first_left: true,
            first_sent: true,
            last_left: true,
            last_sent: true,
        }
    }

    /// One alone.
    pub fn only(kind: Kind) -> Kinds
        ensures { result ≡ only_kind kind }
    {
        let mut kinds = Kinds::none();
        match (kind.hands_over, kind.recalls) {
            (HandsOver::FirstRead, Recalls::UntilLeft) => kinds.first_left = true,
            (HandsOver::FirstRead, Recalls::UntilSent) => kinds.first_sent = true,
            (HandsOver::LastSegment, Recalls::UntilLeft) => kinds.last_left = true,
            (HandsOver::LastSegment, Recalls::UntilSent) => kinds.last_sent = true,
        }
        kinds
    }

    /// Whether this kind is one of them.
    pub fn has(&self, kind: Kind) -> bool
        ensures { result ≡ admits_kind self.now kind }
    {
        match (kind.hands_over, kind.recalls) {
            (HandsOver::FirstRead, Recalls::UntilLeft) => self.first_left,
            (HandsOver::FirstRead, Recalls::UntilSent) => self.first_sent,
            (HandsOver::LastSegment, Recalls::UntilLeft) => self.last_left,
            (HandsOver::LastSegment, Recalls::UntilSent) => self.last_sent,
        }
    }

    /// These and the others.
    pub fn with(&self, others: &Kinds) -> Kinds
        ensures { result ≡ both_kinds self.now others.now }
    {
        Kinds {
            first_left: self.first_left || others.first_left,
            first_sent: self.first_sent || others.first_sent,
            last_left: self.last_left || others.last_left,
            last_sent: self.last_sent || others.last_sent,
        }
    }

    /// Whether each of them is one of the others.
    pub(crate) fn are_within(&self, others: &Kinds) -> bool
        ensures { result ≡ kinds_within self.now others.now }
    {
        (!self.first_left || others.first_left)
            && (!self.first_sent || others.first_sent)
            && (!self.last_left || others.last_left)
            && (!self.last_sent || others.last_sent)
    }

    /// One of them, where there is one.
    pub(crate) fn one(&self) -> Kind
        ensures { result ≡ kind_in self.now }
    {
        let hands_over = if self.first_left || self.first_sent {
            HandsOver::FirstRead
        } else {
            HandsOver::LastSegment
        };
        let until_left = match hands_over {
            HandsOver::FirstRead => self.first_left,
            HandsOver::LastSegment => self.last_left,
        };
        let recalls = if until_left {
            Recalls::UntilLeft
        } else {
            Recalls::UntilSent
        };
        Kind {
            hands_over,
            recalls,
        }
    }
}
