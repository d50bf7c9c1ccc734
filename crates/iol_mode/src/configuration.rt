//! What a start-up asks of the device, and for which devices a port is.
ghost use Rattle.std.specs.Prelude.{◌≡◌};

use iol_page::{CycleTime, Identity};

/// For which devices a port is: those at which it has a request carried out at most once, over a
/// lossy line.
#[derive(Clone, Copy, Debug, PartialEq, Eq)]
pub enum Devices {
    /// Our own, which hand a request over at the first START read, recall the answer until the
    /// master leaves it, and are reset by each wake that they answer. A start-up begins with the
    /// page, and a message that had no good reply goes out again.
    ///
    /// At one that hands a request over with its last segment, a request of one START write may be
    /// carried out more than once; at one that forgets its answer, another may be told. All else
    /// holds there too, as long as it is reset by each wake that it answers.
    Own,
    /// Any by the standard. One that hands a request over with its last segment would do it again
    /// at a repeat: a START write of a whole request isn't repeated, but asked for. Where it can't
    /// be known what the device made of it, the request is cut off for `Protocol`.
    ///
    /// One that answers a wake which didn't reset it still has its mode, and a request with it: a
    /// start-up begins with DeviceStartup, so that it leaves both first.
    Any,
}

/// What a start-up asks of the device.
#[derive(Clone, Copy, Debug, PartialEq, Eq)]
pub struct Configuration {
    /// The device that is expected; none where any may be there.
    pub expected: Option<Identity>,
    /// The cycle time to be written to MasterCycleTime, where it is at least the device's
    /// MinCycleTime; else, and where none is given, MinCycleTime is written.
    pub cycle: Option<CycleTime>,
    /// For which devices the port is.
    pub devices: Devices,
}

impl Configuration {
    ghost use Rattle.iol_mode.specs.States.{any_device};

    /// Whichever device of our own kind is there, as fast as it allows.
    pub fn any() -> Configuration
        ensures { result ≡ any_device }
    {
        Configuration {
            expected: None,
            cycle: None,
            devices: Devices::Own,
        }
    }
}
