//! The mode whose layout a line speaks.
ghost use Rattle.std.specs.Prelude.{◌≡◌, ◌≤◌, length};
ghost use Rattle.iol_capture.specs.Linking.{mode_into};

use iol_far::{DeviceMode, ModeCommand, command_in, mode_asked};
use iol_judge::KnownLayouts;
use iol_mseq::{MasterView, Message};
use std::marker::Model;

/// The mode whose layout is spoken, and the command into another one that was answered.
#[derive(Debug, Drop)]
pub(crate) struct Spoken {
    mode: DeviceMode,
    waits: Option<ModeCommand>,
}

impl Model for Spoken {
    ghost use Rattle.iol_far.specs.Level.{FarLink};

    ghost Value = { FarLink };

    ghost view = { λ s. record { mode = s.mode; waits = s.waits } };

    ghost inverse = { λ l. record { mode = l.mode; waits = l.waits } };
}

impl Spoken {
    ghost use Rattle.iol_capture.specs.Linking.{mode_begun, link_after, operating_link, started_link};

    /// Right after a wake-up request.
    pub fn started() -> Spoken
        ensures { result ≡ started_link }
    {
        Spoken {
            mode: DeviceMode::Startup,
            waits: None,
        }
    }

    /// In OPERATE.
    pub fn operating() -> Spoken
        ensures { result ≡ operating_link }
    {
        Spoken {
            mode: DeviceMode::Operate,
            waits: None,
        }
    }

    /// The mode in whose layout a message is that begins with these octets. Behind a mode command
    /// the command itself is in the old one.
    pub fn mode_of(&self, begun: &[u8]) -> DeviceMode
        ensures { result ≡ mode_begun self.now begun.now }
    {
        match &self.waits {
            None => self.mode,
            Some(command) if command.octets.as_slice().starts_with(begun) => self.mode,
            Some(command) => command.into,
        }
    }

    /// Once a message had a good reply.
    pub fn turn(&mut self, layouts: &KnownLayouts, octets: &[u8], message: &MasterView<'_>)
        requires { length octets.now ≤ 66 }
        ensures { self.new ≡ link_after self.old layouts.now octets.now message.now }
    {
        self.take(octets);
        let asked = mode_into(layouts, mode_asked(command_in(message)));
        if let Some(into) = asked
            && into != self.mode
        {
            self.waits = Some(ModeCommand {
                into,
                octets: Message::try_from(octets).unwrap(),
            });
        }
    }

    /// A message other than the command that waits is in the new layout.
    fn take(&mut self, octets: &[u8])
        ensures { self.new ≡ accepting_link self.old octets.now }
    {
        if let Some(command) = &self.waits
            && command.octets.as_slice() != octets
        {
            self.mode = command.into;
            self.waits = None;
        }
    }

    ghost use Rattle.iol_far.specs.Level.{accepting_link};
}

/// The mode asked for, unless the device is known not to have it.
fn mode_into(layouts: &KnownLayouts, asked: Option<DeviceMode>) -> Option<DeviceMode>
    ensures { result ≡ mode_into layouts.now asked }
{
    match (asked, layouts) {
        (Some(DeviceMode::Preoperate), Ok(layouts)) if layouts.pre.is_none() => None,
        _ => asked,
    }
}
