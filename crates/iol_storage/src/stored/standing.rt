//! What came of Data Storage at a port, in the present session.
ghost use Rattle.std.specs.Prelude.{◌≡◌};
ghost use Rattle.iol_storage.specs.Stored.{is_served_standing, standing_behind, stays_served};

use crate::download::Refusal;

/// How the parameters of a device that is served and the kept set agree.
#[derive(Clone, Copy, Debug, PartialEq, Eq)]
pub enum Agreement {
    /// Data Storage is off.
    Off,
    /// The device has none, and no set is kept.
    Unsupported,
    /// No set is kept, and none is to be fetched.
    Empty,
    /// The device's checksum is that of the kept set.
    Same,
    /// The kept set was restored, whole.
    Restored,
    /// The device's set was fetched, saved, and told so.
    Fetched,
}

/// Why the device isn't served: somebody has to look.
#[derive(Clone, Copy, Debug, PartialEq, Eq)]
pub enum Trouble {
    /// The kept set is another device's.
    WrongIdentity,
    /// A set is kept, and the device has no Data Storage.
    NoStorage,
    /// The device's Data Storage is locked.
    Locked,
    /// The device says more than 2,048 octets of parameters, or has them.
    TooLarge,
    /// The device's Index_List is none.
    BadList,
    /// The device refused a request.
    Refused(Refusal),
    /// Three attempts in a row were cut off, or met a change. There will be others.
    Attempts,
}

/// What came of Data Storage in the present session.
#[derive(Clone, Copy, Debug, PartialEq, Eq)]
pub enum StorageStanding {
    /// Nothing yet. Clients' requests wait.
    Awaited,
    /// The device is served.
    Served(Agreement),
    /// It isn't: no image is handed out, and no output is wanted.
    Trouble(Trouble),
    /// It is served in spite of this.
    Released(Trouble),
}

impl StorageStanding {
    /// Whether images are handed out, and an output is wanted.
    pub fn is_served(self) -> bool
        ensures { result ≡ is_served_standing self }
    {
        matches!(
            self,
            StorageStanding::Served(_) | StorageStanding::Released(_)
        )
    }

    /// What stands behind a check that says this: a device that is served stays so, and a trouble
    /// that is met in service changes nothing.
    ///
    /// Rule STO-13.
    pub(crate) fn behind(self, proposed: StorageStanding) -> StorageStanding
        ensures { result ≡ standing_behind self proposed }
    {
        if self.stays_at(proposed) {
            self
        } else {
            proposed
        }
    }

    /// Whether a trouble is met in service.
    pub(crate) fn stays_at(self, proposed: StorageStanding) -> bool
        ensures { result ≡ stays_served self proposed }
    {
        self.is_served() && !proposed.is_served()
    }
}
