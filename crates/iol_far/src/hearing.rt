//! What a message says to a device (IEC 61131-9, A.1 and B.1.2).
ghost use Rattle.std.specs.Prelude.{◌≡◌, ◌≤◌, length, OnSome};
ghost use Rattle.iol_far.specs.Codec.{flow_of, message_in};
ghost use Rattle.iol_far.specs.Far.{command_in, is_confirm, mode_asked};

use crate::mode::DeviceMode;
use iol_mseq::{Layout, MasterView, first, view_master};
use iol_octets::{Channel, Flow, Mc};
use iol_page::MasterCommand;

/// The message that octets are in a layout.
#[tactic(auto, unfolding(crate::specs::Codec::message_in))]
pub fn message_in<'a>(layout: &Layout, octets: &'a [u8]) -> Option<MasterView<'a>>
    ensures value { result ≡ message_in layout.now octets.now }
    ensures length { OnSome result (length octets.now ≤ 66) }
{
    let _ = layout.od();
    view_master(layout, octets).ok()
}

/// The flow control that a message on the ISDU channel has.
#[tactic(auto, unfolding(crate::specs::Codec::flow_of))]
pub fn flow_of(mc: Mc) -> Flow
    ensures { result ≡ flow_of mc.address }
{
    Flow::from_address(mc.address)
}

/// The master command that a message is.
pub fn command_in(message: &MasterView<'_>) -> Option<MasterCommand>
    ensures { result ≡ command_in message.now }
{
    let mc = message.mc();
    if !mc.read && mc.channel == Channel::Page && mc.address == 0 {
        MasterCommand::from_octet(first(message.od()))
    } else {
        None
    }
}

/// The mode that a command asks for.
///
/// Rule DEV-5.
pub fn mode_asked(command: Option<MasterCommand>) -> Option<DeviceMode>
    ensures { result ≡ mode_asked command }
{
    match command {
        Some(MasterCommand::DeviceStartup) => Some(DeviceMode::Startup),
        Some(MasterCommand::DevicePreoperate) => Some(DeviceMode::Preoperate),
        Some(MasterCommand::DeviceOperate) => Some(DeviceMode::Operate),
        _ => None,
    }
}

/// Whether a message is the confirm of events.
///
/// Rule EVT-2.
pub fn is_confirm(mc: Mc) -> bool
    ensures { result ≡ is_confirm mc.channel mc.read mc.address }
{
    mc.channel == Channel::Diagnosis && !mc.read && mc.address == 0
}
