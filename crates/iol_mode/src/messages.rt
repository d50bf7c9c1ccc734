//! The messages of a start-up, not sent yet (IEC 61131-9, A.1.2 and B.1).
ghost use Rattle.std.specs.Prelude.{◌≡◌, ◌-◌, ◌≤◌, true, false};
ghost use Rattle.iol_mseq.specs.Shape.{startup_shape};
ghost use Rattle.iol_mseq.specs.Master.{HasMasterParts};
ghost use Rattle.iol_mode.specs.Messages.{page_control, page_read, page_write, command_message, cycle_message, new_sending};

use iol_link::Handler;
use iol_mseq::{Layout, MasterMsg, Part, first_of_zeros, part_of};
use iol_octets::{Channel, Mc};
use iol_page::MasterCommand;

const COMMAND: u8 = 0x00;

const CYCLE_TIME: u8 = 0x01;

/// The control octet of a message to the page.
fn page_control(read: bool, address: u8) -> Mc
    requires { address ≤ 31 }
    ensures { result ≡ page_control read address }
{
    Mc {
        read,
        channel: Channel::Page,
        address,
    }
}

/// Reads the page at an address, in STARTUP.
#[tactic(auto, using(crate::proofs::Controls::read_parts))]
pub(crate) fn page_read(address: u8) -> Handler
    requires { address ≤ 31 }
    ensures value { result ≡ new_sending (page_read address) }
    ensures parts { HasMasterParts startup_shape (page_read address) }
{
    Handler::new(MasterMsg {
        mc: page_control(true, address),
        out: Part::new(),
        od: Part::new(),
    })
}

/// Writes an octet to the page, in a layout without process data.
fn page_write(layout: &Layout, address: u8, octet: u8) -> Handler
    requires address { address ≤ 31 }
    requires plain { layout.now.pd_out ≡ 0 }
    ensures value { result ≡ new_sending (page_write layout.now address octet) }
    ensures parts { HasMasterParts layout.now (page_write layout.now address octet) }
{
    Handler::new(MasterMsg {
        mc: page_control(false, address),
        out: Part::new(),
        od: first_of_zeros(layout.od(), octet),
    })
}

/// A master command.
pub(crate) fn command_message(layout: &Layout, command: MasterCommand) -> Handler
    requires { layout.now.pd_out ≡ 0 }
    ensures value { result ≡ new_sending (command_message layout.now command) }
    ensures parts { HasMasterParts layout.now (command_message layout.now command) }
{
    page_write(layout, COMMAND, command.octet())
}

/// MasterCycleTime.
pub(crate) fn cycle_message(layout: &Layout, octet: u8) -> Handler
    requires { layout.now.pd_out ≡ 0 }
    ensures value { result ≡ new_sending (cycle_message layout.now octet) }
    ensures parts { HasMasterParts layout.now (cycle_message layout.now octet) }
{
    page_write(layout, CYCLE_TIME, octet)
}

/// A copy of a message.
pub(crate) fn copy_of(message: &MasterMsg) -> MasterMsg
    ensures { result ≡ message.now }
{
    MasterMsg {
        mc: message.mc,
        out: part_of(&message.out),
        od: part_of(&message.od),
    }
}
