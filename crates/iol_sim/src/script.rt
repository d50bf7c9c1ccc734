//! The steps of a script: what happens to each call of the wire, and at the device.
use arrayvec::ArrayVec;
use iol_event::Event;
use iol_image::Image;
use iol_isdu::Place;

/// The octets of a change at the device itself: at most 32, so that a step stays small.
pub type ChangeOctets = ArrayVec<u8, 32>;

/// What becomes of one call of the wire. Damage flips bit 0 of the last octet.
#[derive(Clone, Copy, Debug, PartialEq, Eq)]
pub enum Fate {
    /// Nothing happens to it.
    Clean,
    /// What the master sends is lost.
    OutLost,
    /// The device's reply is lost; that to a wake as well, so that the master doesn't see it.
    BackLost,
    /// What the master sends comes damaged; a wake is lost.
    OutDamaged,
    /// The device's reply comes damaged; that to a wake isn't seen.
    BackDamaged,
    /// A wake is lost, and so is a message. Where the device may miss pulses, the pulse of the
    /// wake alone is lost, and the test read behind it is heard.
    NoWake,
    /// This call and all after it are lost, until the wire is mended.
    Silent,
}

/// One step of a script.
#[derive(Clone, Debug, PartialEq, Eq, Drop)]
pub enum Step {
    /// What becomes of the next call, for which no further step is used.
    Fate(Fate),
    /// The application carries out a request that was handed over.
    Work,
    /// Whether it does so before each call from now on, behind the steps.
    Auto(bool),
    /// The device raises an event; where it takes no further one, that is counted.
    Raise(Event),
    /// The device has this process data in; where it isn't of its length, nothing happens.
    Input(Image),
    /// It has no valid process data in.
    NoInput,
    /// A power cycle of the device.
    Power,
    /// The device itself gives a parameter these octets; where it may not, nothing happens, and
    /// neither where nothing stands beside the device.
    Change(Place, ChangeOctets),
    /// The device's driver says that no message came for longer than it allows.
    Quiet,
    /// The device is pulled, and the other one is plugged in, with a power cycle;
    /// where there is no other one, nothing happens.
    Swap,
}
