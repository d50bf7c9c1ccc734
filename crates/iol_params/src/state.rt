//! What a manager is doing.
ghost use Rattle.std.specs.Prelude.{◌≡◌, ◌<◌};

/// Which parameters an activity is about.
#[derive(Clone, Copy, Debug, PartialEq, Eq)]
pub enum Scope {
    /// Block parameterization, by SystemCommand (10.3.5).
    Block,
    /// Data Storage, by DS_Command (10.4).
    Storage,
}

/// What became of the writes of a download so far.
#[derive(Clone, Copy, Debug, PartialEq, Eq)]
pub enum WritesSoFar {
    AllTaken,
    OneRefused,
}

/// What is under way.
///
/// Rule ACT-1.
#[derive(Clone, Copy, Debug, PartialEq, Eq)]
pub enum Activity {
    Idle,
    /// The master reads what belongs together.
    Upload(Scope),
    /// The master writes what belongs together. Nothing is in force before its end.
    Download(Scope, WritesSoFar),
    /// Nothing, behind a download in which the master was silent: what it still writes of that
    /// would come into force alone.
    CutOff,
}

/// A SystemCommand (B.2.2), or a DS_Command (B.2.3).
#[derive(Clone, Copy, Debug, PartialEq, Eq)]
pub enum Command {
    UploadStart,
    UploadEnd,
    DownloadStart,
    /// Applies the download.
    DownloadEnd,
    /// Applies the download, and asks Data Storage to keep what is new.
    DownloadStore,
    Break,
    /// Defaults, and Data Storage keeps them.
    ApplicationReset,
    /// Defaults, and Data Storage isn't asked.
    FactoryReset,
    /// The device begins anew; nothing that outlives the power changes (10.7.2).
    DeviceReset,
    /// A factory reset, behind which the device is silent until its power is back (10.7.5).
    BackToBox,
}

/// What the program itself has to do since a reset that the master asked for.
#[derive(Clone, Copy, Debug, PartialEq, Eq)]
pub enum Restart {
    /// Nothing.
    NotDue,
    /// Behind 0x80: to begin anew, as after a power cycle, once the answer was sent.
    Warm,
    /// Behind 0x83: to send nothing more, once the answer was sent, until the power is back.
    Silent,
}

/// The Device access locks (B.2.4).
#[derive(Clone, Copy, Debug, PartialEq, Eq)]
pub struct Locks {
    /// Bit 0: the master writes no parameter.
    pub parameters: bool,
    /// Bit 1: no Data Storage.
    pub storage: bool,
    /// Bit 2: no local parameterization.
    pub local: bool,
    /// Bit 3: no local user interface. The maker's program looks at it.
    pub user_interface: bool,
}

impl Scope {
    ghost use Rattle.iol_params.specs.Commands.{param_command};

    /// The command that an octet is, in this scope.
    pub fn command(self, octet: u8) -> Option<Command>
        ensures { result ≡ param_command self octet }
    {
        match (self, octet) {
            (_, 0x01) => Some(Command::UploadStart),
            (_, 0x02) => Some(Command::UploadEnd),
            (_, 0x03) => Some(Command::DownloadStart),
            (_, 0x04) => Some(Command::DownloadEnd),
            (Scope::Storage, 0x05) | (Scope::Block, 0x06) => Some(Command::Break),
            (Scope::Block, 0x05) => Some(Command::DownloadStore),
            (Scope::Block, 0x80) => Some(Command::DeviceReset),
            (Scope::Block, 0x81) => Some(Command::ApplicationReset),
            (Scope::Block, 0x82) => Some(Command::FactoryReset),
            (Scope::Block, 0x83) => Some(Command::BackToBox),
            _ => None,
        }
    }
}

impl Activity {
    ghost use Rattle.iol_params.specs.State.{is_at_rest, is_uploading, is_downloading, takes_writes, took_each_write, is_in, is_foreign, left_in_silence};
    ghost use Rattle.iol_params.specs.Carry.{after_refused_write};
    ghost use Rattle.iol_params.specs.Storage.{storage_activity};

    /// Whether nothing is under way.
    pub fn is_at_rest(self) -> bool
        ensures { result ≡ is_at_rest self }
    {
        matches!(self, Activity::Idle | Activity::CutOff)
    }

    /// Whether the master may write a parameter.
    pub(crate) fn takes_writes(self) -> bool
        ensures { result ≡ takes_writes self }
    {
        matches!(self, Activity::Idle | Activity::Download(..))
    }

    /// Whether the master reads what belongs together.
    pub fn is_upload(self) -> bool
        ensures { result ≡ is_uploading self }
    {
        matches!(self, Activity::Upload(_))
    }

    /// Whether the master writes what belongs together.
    pub fn is_download(self) -> bool
        ensures { result ≡ is_downloading self }
    {
        matches!(self, Activity::Download(..))
    }

    /// Whether it does so, and each of its writes was taken.
    pub(crate) fn took_each_write(self) -> bool
        ensures { result ≡ took_each_write self }
    {
        matches!(self, Activity::Download(_, WritesSoFar::AllTaken))
    }

    /// Whether an activity of this scope is under way.
    pub fn is_in(self, scope: Scope) -> bool
        ensures { result ≡ is_in scope self }
    {
        match self {
            Activity::Idle | Activity::CutOff => false,
            Activity::Upload(own) | Activity::Download(own, _) => own == scope,
        }
    }

    /// Whether an activity of another scope is under way.
    pub fn is_foreign(self, scope: Scope) -> bool
        ensures { result ≡ is_foreign scope self }
    {
        !self.is_at_rest() && !self.is_in(scope)
    }

    /// What it is for Data Storage: none, upload or download (B.2.3).
    pub(crate) fn storage_activity(self) -> u8
        ensures value { result ≡ storage_activity self }
        ensures bound { result < 3 }
    {
        match self {
            Activity::Upload(Scope::Storage) => 1,
            Activity::Download(Scope::Storage, _) => 2,
            Activity::Upload(Scope::Block) | Activity::Download(Scope::Block, _) => 0,
            Activity::Idle | Activity::CutOff => 0,
        }
    }

    /// The activity once a write was refused.
    pub(crate) fn spoiled(self) -> Activity
        ensures { result ≡ after_refused_write self }
    {
        match self {
            Activity::Download(scope, _) => Activity::Download(scope, WritesSoFar::OneRefused),
            other => other,
        }
    }

    /// What it is once the master was silent.
    pub(crate) fn left_in_silence(self) -> Activity
        ensures { result ≡ left_in_silence self }
    {
        match self {
            Activity::Download(..) | Activity::CutOff => Activity::CutOff,
            Activity::Idle | Activity::Upload(_) => Activity::Idle,
        }
    }
}

impl Locks {
    ghost use Rattle.iol_params.specs.State.{no_locks, locks_octet, locks_in};

    /// Nothing is locked.
    pub fn none() -> Locks
        ensures { result ≡ no_locks }
    {
        Locks {
            parameters: false,
            storage: false,
            local: false,
            user_interface: false,
        }
    }

    /// The low octet of Index 12.
    pub fn octet(self) -> u8
        ensures value { result ≡ locks_octet self }
        ensures bits { result < 16 }
    {
        u8::from(self.parameters)
            + 2 * u8::from(self.storage)
            + 4 * u8::from(self.local)
            + 8 * u8::from(self.user_interface)
    }

    /// The locks that the low octet of Index 12 says; other bits count for nothing.
    pub fn of(octet: u8) -> Locks
        ensures { result ≡ locks_in octet }
    {
        Locks {
            parameters: octet % 2 == 1,
            storage: octet / 2 % 2 == 1,
            local: octet / 4 % 2 == 1,
            user_interface: octet / 8 % 2 == 1,
        }
    }
}
