//! Single messages, and the device that hears them.
ghost use Rattle.std.specs.Prelude.{IfOk, true};
ghost use Rattle.iol_mseq.specs.Master.{HasMasterParts};
ghost use Rattle.iol_mseq.specs.Replies.{HasReplyParts};

use crate::check_word::CheckWord;
use crate::devices::PLAIN;
use crate::fault::BenchFault;
use iol_device::Device;
use iol_mseq::{
    Layout, MasterMsg, Message, Part, Reply, encode_master, encode_reply, part_of, read_master,
    read_reply, zeros,
};
use iol_octets::{Channel, Mc, checksum6};
use iol_page::Page;
use iol_sim::Params;
use std::alloc::Global;

/// A device hears an idle message in OPERATE, and answers.
#[inline(never)]
pub(crate) fn hear(alloc: Global, count: u64) -> Result<CheckWord, BenchFault> {
    let page = Page::from_octets(&PLAIN);
    let mut opened = Device::open(alloc, Params::new(), page, 1);
    let Ok(device) = &mut opened else {
        return Err(BenchFault::OutOfMemory);
    };
    let idle = idle_read()?;
    hear_all(device, idle.as_slice(), count)
}

/// A device is woken and led to OPERATE, and hears a message there so many times.
fn hear_all(
    device: &mut Device<Params>,
    octets: &[u8],
    count: u64,
) -> Result<CheckWord, BenchFault> {
    device.wake();
    if device.hear(device_operate().as_slice()).is_none() {
        return Err(BenchFault::Unexpected);
    }
    let mut word = CheckWord::new();
    for _ in 0..count {
        let Some(reply) = device.hear(octets) else {
            return Err(BenchFault::Unexpected);
        };
        add_end(&mut word, &reply);
    }
    Ok(word)
}

/// How many octets a message has, and its last one.
fn add_end(word: &mut CheckWord, message: &Message) {
    word.add(message.len() as u64);
    if let Some(octet) = message.last() {
        word.add(u64::from(*octet));
    }
}

/// The command DeviceOperate, in the layout of STARTUP.
fn device_operate() -> Message {
    let mc = Mc {
        read: false,
        channel: Channel::Page,
        address: 0,
    };
    let message = MasterMsg {
        mc,
        out: Part::new(),
        od: part_of(&[0x99]),
    };
    encode_master(&Layout::startup(), &message)
}

/// The read IDLE 1, with 8 octets of on-request data and no process data.
fn idle_read() -> Result<Message, BenchFault> {
    let layout = Layout::operate(6, 0, 0)?;
    let mc = Mc {
        read: true,
        channel: Channel::Isdu,
        address: 0x11,
    };
    let message = MasterMsg {
        mc,
        out: Part::new(),
        od: Part::new(),
    };
    Ok(encode_master(&layout, &message))
}

/// The longest message of a master is written and read, and so is the longest reply.
#[inline(never)]
pub(crate) fn message(count: u64) -> Result<CheckWord, BenchFault> {
    let layout = Layout::operate(7, 32, 32)?;
    let mut message = MasterMsg {
        mc: Mc {
            read: false,
            channel: Channel::Isdu,
            address: 0x10,
        },
        out: zeros(32),
        od: zeros(32),
    };
    let mut reply = Reply {
        od: zeros(32),
        input: zeros(32),
        event: false,
        invalid: false,
    };
    let mut word = CheckWord::new();
    for _ in 0..count {
        message = read_back(&mut word, &layout, &message)?;
        reply = read_reply_back(&mut word, &layout, &reply)?;
    }
    Ok(word)
}

/// A master message is written, and what is written is read.
fn read_back(
    word: &mut CheckWord,
    layout: &Layout,
    message: &MasterMsg,
) -> Result<MasterMsg, BenchFault>
    requires { HasMasterParts layout.now message.now }
    ensures { IfOk result (λ m. HasMasterParts layout.now m) }
{
    let octets = encode_master(layout, message);
    add_end(word, &octets);
    Ok(read_master(layout, octets.as_slice())?)
}

/// The same of the reply to a read.
fn read_reply_back(
    word: &mut CheckWord,
    layout: &Layout,
    reply: &Reply,
) -> Result<Reply, BenchFault>
    requires { HasReplyParts layout.now true reply.now }
    ensures { IfOk result (λ r. HasReplyParts layout.now true r) }
{
    let octets = encode_reply(layout, reply);
    add_end(word, &octets);
    Ok(read_reply(layout, true, octets.as_slice())?)
}

/// The checksum of 66 octets, of which one is the checksum before.
#[inline(never)]
pub(crate) fn checksum(count: u64) -> CheckWord {
    let mut octets = [0x5A; 66];
    let mut word = CheckWord::new();
    for number in 0..count {
        let sum = checksum6(&octets);
        octets[(number % 64) as usize] = sum;
        word.add(u64::from(sum));
    }
    word
}
