//! What a message makes of a kept state.
ghost use Rattle.std.specs.Prelude.{◌≡◌, ◌≤◌, None, OnErr, length, slice_index};
ghost use Rattle.std.specs.Option.{option_map_or};
ghost use Rattle.iol_far.specs.Far.{waits_after};
ghost use Rattle.iol_far.specs.Level.{accepting_link};
ghost use Rattle.iol_judge.specs.Transfers.{isdu_known, transfer_in};
ghost use Rattle.iol_judge.specs.Taking.{cycle_after, mode_known, mode_layout, state_after, taken_by_state, worked_by};
ghost use Rattle.iol_judge.specs.declared.transfer.Transfer.{Transfer};
ghost use Rattle.iol_judge.specs.declared.transfer.Transfer.TheVariants.{Quiet};

use crate::observed::KnownLayouts;
use crate::open::Open;
use crate::possible::PossibleState;
use crate::taken::TakenMessage;
use crate::transfer::Transfer;
use iol_far::{DeviceMode, ModeCommand, command_in, is_confirm, message_in, mode_asked};
use iol_mseq::{Layout, MasterView, Message, first};
use iol_octets::Channel;

impl PossibleState {
    /// The mode that it changes to before it takes these octets: they aren't those of the command
    /// that waits there.
    fn change_due(&self, octets: &[u8]) -> Option<DeviceMode>
        ensures link { accepting_link self.now.link octets.now ≡ option_map_or
            (λ mode. record { mode = mode; waits = None }) result self.now.link }
        ensures transfer { (transfer : Transfer) → transfer_in self.now.link.waits octets.now
            transfer ≡ option_map_or (λ mode. Quiet) result transfer }
    {
        match &self.waits {
            Some(command) if octets != command.octets.as_slice() => Some(command.into),
            _ => None,
        }
    }

    /// The mode in whose layout it takes these octets.
    fn mode_for(&self, octets: &[u8]) -> DeviceMode
        ensures { result ≡ (accepting_link self.now.link octets.now).mode }
    {
        self.change_due(octets).unwrap_or(self.mode)
    }

    /// Works octets, where it takes them. Open, and as before, where the page's layouts would have
    /// to be known.
    pub fn work<'a>(
        &mut self,
        layouts: &KnownLayouts,
        octets: &'a [u8],
    ) -> Result<Option<TakenMessage<'a>>, Open>
        ensures value { worked_by result self.new ≡ taken_by_state layouts.now self.old octets.now }
        ensures open { OnErr result (self.new ≡ self.old) }
    {
        let layout = layout_in(layouts, self.mode_for(octets))?;
        let Some(message) = message_in(&layout, octets) else {
            return Ok(None);
        };
        let asked = known_mode(layouts, mode_asked(command_in(&message)))?;
        self.turn(layouts, octets, &layout, &message, asked);
        Ok(Some(TakenMessage { layout, message }))
    }

    /// Once it worked this message, which asks for this mode.
    fn turn(
        &mut self,
        layouts: &KnownLayouts,
        octets: &[u8],
        layout: &Layout,
        message: &MasterView<'_>,
        asked: Option<DeviceMode>,
    )
        requires { length octets.now ≤ 66 }
        ensures { self.new ≡ state_after layouts.now (accepting_link self.old.link octets.now)
            self.old octets.now layout.now message.now asked }
    {
        self.change_mode(octets);
        self.await_mode(octets, asked);
        self.cycle = cycle_after(self.cycle, message);
        self.events.pass(is_confirm(message.mc()));
        let kind = self.kinds.one();
        self.transfer
            .pass(kind, isdu_of(layouts), layout.od().get(), message);
    }

    /// It takes these octets: a device that changes its mode drops the transfer.
    fn change_mode(&mut self, octets: &[u8])
        ensures { self.new ≡ record self.old {
          link = accepting_link self.old.link octets.now;
          transfer = transfer_in self.old.link.waits octets.now self.old.transfer;
        } }
    {
        if let Some(mode) = self.change_due(octets) {
            self.mode = mode;
            self.waits = None;
            self.transfer = Transfer::Quiet;
        }
    }

    /// The command that waits there once one asked for this mode.
    fn await_mode(&mut self, octets: &[u8], asked: Option<DeviceMode>)
        requires { length octets.now ≤ 66 }
        ensures { self.new ≡ record self.old {
          link = record self.old.link {
            waits = waits_after self.old.link.mode self.old.link.waits octets.now asked;
          };
        } }
    {
        match asked {
            Some(into) if into != self.mode => {
                self.waits = Some(ModeCommand {
                    into,
                    octets: Message::try_from(octets).unwrap(),
                });
            }
            _ => {}
        }
    }
}

/// Whether the device has ISDU, where that is known.
fn isdu_of(layouts: &KnownLayouts) -> Option<bool>
    ensures { result ≡ isdu_known layouts.now }
{
    match layouts {
        Ok(layouts) => Some(layouts.isdu),
        Err(_) => None,
    }
}

/// The layout of a mode, where it is known.
pub fn layout_in(layouts: &KnownLayouts, mode: DeviceMode) -> Result<Layout, Open>
    ensures { result ≡ mode_layout layouts.now mode }
{
    match (mode, layouts) {
        (DeviceMode::Startup, _) => Ok(Layout::startup()),
        (DeviceMode::Preoperate, Ok(layouts)) => Ok(layouts.pre.unwrap_or(Layout::startup())),
        (DeviceMode::Operate, Ok(layouts)) => Ok(layouts.run),
        (_, Err(why)) => Err(*why),
    }
}

/// The mode asked for, where the device has it.
fn known_mode(layouts: &KnownLayouts, asked: Option<DeviceMode>) -> Result<Option<DeviceMode>, Open>
    ensures { result ≡ mode_known layouts.now asked }
{
    match (asked, layouts) {
        (None | Some(DeviceMode::Startup), _) => Ok(asked),
        (Some(DeviceMode::Preoperate), Ok(layouts)) if layouts.pre.is_none() => Ok(None),
        (_, Ok(_)) => Ok(asked),
        (_, Err(why)) => Err(*why),
    }
}

/// The octet of page address 0x01 once a message was worked.
fn cycle_after(old: Option<u8>, message: &MasterView<'_>) -> Option<u8>
    ensures { result ≡ cycle_after old message.now.mc.channel message.now.mc.read
        message.now.mc.address (slice_index message.now.od.items 0) }
{
    let mc = message.mc();
    if mc.channel == Channel::Page && !mc.read && mc.address == 1 {
        Some(first(message.od()))
    } else {
        old
    }
}
