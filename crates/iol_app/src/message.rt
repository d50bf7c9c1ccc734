//! What the messages of OPERATE say (IEC 61131-9, A.1.2 and 7.3.6).
ghost use Rattle.std.specs.Prelude.{◌≡◌, ◌≤◌, [], length, IfSome};
ghost use Rattle.iol_octets.specs.Flow.{IsFlow, flow_address};
ghost use Rattle.iol_octets.specs.declared.control.Channel.TheVariants.{Page, Isdu};
ghost use Rattle.iol_mseq.specs.Parts.{first_of_zeros as octet_and_zeros};
ghost use Rattle.iol_page.specs.Commands.{command_octet};
ghost use Rattle.iol_app.specs.Requests.{IsCurrent};
ghost use Rattle.iol_app.specs.Messages.{IsBlank, head_of, head_for, data_for, question, check, read_with, request_head, request_data, read_head, write_of};

use crate::event_work::EventWork;
use crate::request::{Current, RequestProgress};
use crate::session::Purpose;
use iol_mseq::{MasterMsg, Part, first_of_zeros};
use iol_octets::{Channel, Flow, Mc, OdLength, segment_number};
use iol_page::MasterCommand;

/// The control octet of a START read (IEC 61131-9, A.1.2 and 7.3.6).
const START_READ: u8 = 0xF0;

/// That of a read of the StatusCode (IEC 61131-9, A.1.2 and A.6).
const STATUS_READ: u8 = 0xC0;

/// A message that says nothing yet.
pub(crate) fn blank() -> MasterMsg
    ensures { IsBlank result }
{
    MasterMsg {
        mc: ask(Flow::Idle1),
        out: Part::new(),
        od: Part::new(),
    }
}

/// Puts these octets, at most 32, into a part that is empty.
pub(crate) fn put(part: &mut Part, octets: &[u8])
    requires empty { part.old.items ≡ [] }
    requires most { length octets.now ≤ 32 }
    ensures { part.new.items ≡ octets.now }
{
    // Many a part has no octet.
    if !octets.is_empty() {
        part.try_extend_from_slice(octets).unwrap();
    }
}

/// The control octet of a new message for this, whose on-request data, in a write of that size, go
/// into a part that is empty.
pub(crate) fn body_for(
    exchange: Purpose,
    size: OdLength,
    events: &EventWork,
    current: &Option<Current>,
    od: &mut Part,
) -> Mc
    requires valid { IfSome current.now IsCurrent }
    requires empty { od.old.items ≡ [] }
    ensures head { head_of result ≡ head_for exchange events.now.reading current.now }
    ensures od { od.new.items ≡ data_for exchange size current.now }
{
    match exchange {
        Purpose::EnableOutput => command(size, MasterCommand::ProcessDataOutputOperate, od),
        Purpose::DropOutput => command(size, MasterCommand::DeviceOperate, od),
        Purpose::Abort => ask(Flow::Abort),
        Purpose::ReadEvent => read(Channel::Diagnosis, events.address()),
        Purpose::CheckEvents => read(Channel::Diagnosis, 0),
        Purpose::ConfirmEvents => {
            *od = first_of_zeros(size, 0);
            write(Channel::Diagnosis, 0)
        }
        Purpose::Request => request_body(current, od),
        Purpose::Idle => ask(Flow::Idle1),
    }
}

/// The same for the request's next message.
fn request_body(current: &Option<Current>, od: &mut Part) -> Mc
    requires valid { IfSome current.now IsCurrent }
    requires empty { od.old.items ≡ [] }
    ensures head { head_of result ≡ request_head current.now }
    ensures od { od.new.items ≡ request_data current.now }
{
    let Some(current) = current else {
        return ask(Flow::Idle1);
    };
    match &current.progress {
        RequestProgress::Sending(flow, segment) => {
            put(od, segment);
            write(Channel::Isdu, flow.address())
        }
        RequestProgress::Doubting | RequestProgress::Asking(_) => ask(Flow::Start),
        RequestProgress::Receiving(_, last) => ask(Flow::Count(segment_number(*last as usize + 1))),
        RequestProgress::Refused => ask(Flow::Idle1),
    }
}

/// A START read that carries these process data: whether the device has a request.
pub(crate) fn question(out: Part) -> MasterMsg
    ensures { result ≡ question out.items }
{
    read_with(START_READ, out)
}

/// A read of the StatusCode that carries these process data: whether the device has events.
pub(crate) fn check(out: Part) -> MasterMsg
    ensures { result ≡ check out.items }
{
    read_with(STATUS_READ, out)
}

/// The read of this control octet, with these process data.
fn read_with(control: u8, out: Part) -> MasterMsg
    ensures { result ≡ read_with control out.items }
{
    MasterMsg {
        mc: Mc::from_octet(control),
        out,
        od: Part::new(),
    }
}

/// The write of a master command.
fn command(size: OdLength, command: MasterCommand, od: &mut Part) -> Mc
    ensures head { head_of result ≡ write_of Page 0 }
    ensures od { od.new.items ≡ octet_and_zeros size (command_octet command) }
{
    *od = first_of_zeros(size, command.octet());
    write(Channel::Page, 0)
}

/// A read on the ISDU channel.
fn ask(flow: Flow) -> Mc
    requires { IsFlow flow }
    ensures { head_of result ≡ read_head Isdu (flow_address flow) }
{
    read(Channel::Isdu, flow.address())
}

fn read(channel: Channel, address: u8) -> Mc
    requires { address ≤ 31 }
    ensures { head_of result ≡ read_head channel address }
{
    Mc {
        read: true,
        channel,
        address,
    }
}

fn write(channel: Channel, address: u8) -> Mc
    requires { address ≤ 31 }
    ensures { head_of result ≡ write_of channel address }
{
    Mc {
        read: false,
        channel,
        address,
    }
}
