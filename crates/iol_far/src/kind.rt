//! The kinds of device that the standard lets be (IEC 61131-9, 7.3.6).

/// When a device hands a request to its application.
#[derive(Clone, Copy, Debug, PartialEq, Eq)]
pub enum HandsOver {
    /// At the first START read behind the whole text. A START write that is repeated, as its
    /// reply was lost, then only begins the text anew.
    FirstRead,
    /// With the last segment of the text. A START write that holds a whole text, and is repeated,
    /// is a new request there.
    LastSegment,
}

/// How long a device knows the answer to a request.
#[derive(Clone, Copy, Debug, PartialEq, Eq)]
pub enum Recalls {
    /// Until the master leaves it, by IDLE, ABORT or another START write.
    UntilLeft,
    /// Until its last segment was sent. Where that is lost, no read brings it again.
    UntilSent,
}

/// What devices by the standard differ in. It never changes.
#[derive(Clone, Copy, Debug, PartialEq, Eq)]
pub struct Kind {
    pub hands_over: HandsOver,
    pub recalls: Recalls,
}

impl Kind {
    ghost use Rattle.std.specs.Prelude.{◌≡◌};
    ghost use Rattle.iol_far.specs.Isdu.{own};

    /// The kind of our own device.
    pub fn own() -> Kind
        ensures { result ≡ own }
    {
        Kind {
            hands_over: HandsOver::FirstRead,
            recalls: Recalls::UntilLeft,
        }
    }
}
