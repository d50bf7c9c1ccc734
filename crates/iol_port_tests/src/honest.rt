//! A port whose line is claimed to be honest, with a real device at its far end: the premise
//! can be met, and is at every turn.
ghost use Rattle.std.specs.Prelude.{◌≡◌, ℕ, IfOk, true};
ghost use Rattle.iol_far.specs.Octets.{octets_in};
ghost use Rattle.iol_link.specs.Honest.{HonestExchange, HonestWake, silence_after};
ghost use Rattle.iol_port.specs.declared.awaited.AwaitedAnswer.{AwaitedAnswer};
ghost use Rattle.iol_port.specs.CorePort.{awaited_answer};
ghost use Rattle.iol_port.specs.Honestly.{Exchanges};

use crate::device::{PLACE, Parameter, octets_of, open_device};
use iol_app::{Mode, Transmission};
use iol_book::{Limits, Outcome, Ticket};
use iol_device::{App, Device};
use iol_isdu::{Answer, Request};
use iol_link::Rate;
use iol_mseq::Message;
use iol_peers::PLAIN;
use iol_port::{HonestPort, PortFault};
use std::alloc::Global;
use std::test::Fail;

/// What becomes of an exchange.
#[derive(Clone, Copy)]
enum Fate {
    /// The message and the reply come through.
    Clean,
    /// The message is lost.
    OutLost,
    /// The reply is lost.
    BackLost,
}

/// A port whose line stands at this device.
fn port_to(alloc: Global, device: &Device<Parameter>) -> Result<HonestPort, PortFault>
    ensures { IfOk result (λ p. p.at.far ≡ device.now.far) }
{
    HonestPort::open(alloc, &Limits::default(), device)
}

/// The device works, and a wake-up request comes to it.
fn wake<P: App>(device: &mut Device<P>)
    ensures { HonestWake device.old.far true device.new.far }
{
    device.parts_are_regular();
    device.work();
    device.wake();
}

/// The device works, and these octets come to it and its reply comes back.
fn pass<P: App>(device: &mut Device<P>, sent: &[u8]) -> Option<Message>
    ensures { (silence : ℕ) → HonestExchange device.old.far silence sent.now
        (octets_in result) device.new.far (silence_after silence (octets_in result)) }
{
    device.parts_are_regular();
    device.work();
    device.hear(sent)
}

/// The same, and the octets are lost.
fn lose<P: App>(device: &mut Device<P>, sent: &[u8]) -> Option<Message>
    ensures { (silence : ℕ) → HonestExchange device.old.far silence sent.now
        (octets_in result) device.new.far (silence_after silence (octets_in result)) }
{
    let _ = sent;
    device.parts_are_regular();
    device.work();
    None
}

/// The same, and the reply is lost.
fn lose_reply<P: App>(device: &mut Device<P>, sent: &[u8]) -> Option<Message>
    ensures { (silence : ℕ) → HonestExchange device.old.far silence sent.now
        (octets_in result) device.new.far (silence_after silence (octets_in result)) }
{
    device.parts_are_regular();
    device.work();
    let _ = device.hear(sent);
    None
}

/// What comes back, as the fate of the exchange is.
fn exchange<P: App>(device: &mut Device<P>, sent: &[u8], fate: Fate) -> Option<Message>
    ensures { (silence : ℕ) → HonestExchange device.old.far silence sent.now
        (octets_in result) device.new.far (silence_after silence (octets_in result)) }
{
    match fate {
        Fate::Clean => pass(device, sent),
        Fate::OutLost => lose(device, sent),
        Fate::BackLost => lose_reply(device, sent),
    }
}

/// One turn of a port with this device at the far end of its line.
fn meet(port: &mut HonestPort, device: &mut Device<Parameter>, fate: Fate)
    requires far { port.old.at.far ≡ device.old.far }
    ensures far { port.new.at.far ≡ device.new.far }
{
    match port.send() {
        Transmission::Wake => {
            wake(device);
            woken_by(port, device);
        }
        Transmission::Exchange(sent) => {
            let received = exchange(device, sent.octets.as_slice(), fate);
            answered_by(port, &received, device);
        }
    }
}

/// The device answered a wake-up request.
fn woken_by(port: &mut HonestPort, device: &Device<Parameter>)
    requires awaited { awaited_answer port.old.parts ≡ AwaitedAnswer.Wake }
    requires premise { HonestWake port.old.at.far true device.now.far }
    ensures { port.new.at.far ≡ device.now.far }
{
    port.receive_wake(Some(Rate::Com2), device);
}

/// This came back from the device.
fn answered_by(port: &mut HonestPort, received: &Option<Message>, device: &Device<Parameter>)
    requires awaited { awaited_answer port.old.parts ≡ AwaitedAnswer.Reply }
    requires premise { Exchanges port.old (octets_in received.now) (record {
      far = device.now.far;
      silence = silence_after port.old.at.silence (octets_in received.now);
    }) }
    ensures { port.new.at.far ≡ device.now.far }
{
    port.receive(received, device);
}

/// Nothing else calls an [`HonestPort`]: the proof of this test alone refuses a premise of its
/// calls that no line can meet.
#[test]
fn a_claimed_line_meets_its_premise(rt: HostRuntime) -> Result<(), Fail> {
    let Some(mut device) = open_device(rt.alloc(), Parameter(0x0A), &PLAIN) else {
        return Err("no device")?;
    };
    let mut port = port_to(rt.alloc(), &device)?;
    assert!(rt; port.submit(Request::read(PLACE)) == Ok(Ticket(1)));
    for turn in 0..60 {
        let fate = match turn % 4 {
            0 => Fate::OutLost,
            1 => Fate::BackLost,
            _ => Fate::Clean,
        };
        meet(&mut port, &mut device, fate);
    }
    assert!(rt; port.core().status().mode == Mode::Operate);
    let done = Outcome::Done(Answer::Read(octets_of(0x0A)));
    assert!(rt; port.collect(Ticket(1)) == Ok(done));
    assert!(rt; device.carried().len() == 1);
    port.keeps_record();
    Ok(())
}
