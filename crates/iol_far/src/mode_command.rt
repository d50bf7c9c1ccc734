//! A command into another mode.
ghost use Rattle.std.specs.Prelude.{◌≡◌};

use crate::mode::DeviceMode;
use iol_mseq::Message;
use std::marker::Model;

/// A command into another mode that had a good reply, with its octets, until a message comes in
/// that mode's layout.
#[derive(Debug, Drop)]
pub struct ModeCommand {
    /// The mode that it asks for.
    pub into: DeviceMode,
    /// The message that it is.
    pub octets: Message,
}

impl Model for ModeCommand {
    ghost use Rattle.iol_far.specs.Far.{WaitingCommand};

    ghost Value = { WaitingCommand };

    ghost view = { λ w. record { into = w.into; octets = w.octets.items } };

    ghost inverse = { λ w. record { into = w.into; octets = record { items = w.octets } } };
}

impl ModeCommand {
    /// The same command. It takes no memory.
    pub fn copy(&self) -> ModeCommand
        ensures { result ≡ self.now }
    {
        ModeCommand {
            into: self.into,
            octets: self.octets.clone().unwrap(),
        }
    }
}
