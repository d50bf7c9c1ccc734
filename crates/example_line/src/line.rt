//! The line: what is sent is printed, and a line of the input is what came back.
use anyhow::{Context, Result, bail};
use iol_link::Rate;
use iol_mseq::Message;

/// The next line of the input. There has to be one: at the end of the input the line is closed.
fn next_line(rt: &(impl Input + AllocGlobal)) -> Result<String> {
    let mut line = String::new(rt.alloc());
    if rt.read_line(&mut line)? == 0 {
        bail!("the line is closed");
    }
    Ok(line)
}

/// Sends a wake-up request: the rate of the device that answers, none of an empty line.
pub fn wake(rt: &(impl Input + Print + AllocGlobal)) -> Result<Option<Rate>> {
    println!(rt; "wake")?;
    let rate = match next_line(rt)?.trim() {
        "" => None,
        "COM1" => Some(Rate::Com1),
        "COM2" => Some(Rate::Com2),
        "COM3" => Some(Rate::Com3),
        _ => bail!("the answer to a wake-up request is no rate"),
    };
    Ok(rate)
}

/// Sends these octets: those that came back, none of an empty line. Of more than 66
/// the first 66 are given.
pub fn exchange(rt: &(impl Input + Print + AllocGlobal), sent: &[u8]) -> Result<Option<Message>> {
    print!(rt; "send")?;
    for octet in sent {
        print!(rt; " {octet:02X}")?;
    }
    println!(rt;)?;
    let mut received = Message::new();
    for word in next_line(rt)?.split_whitespace() {
        let octet = u8::from_str_radix(word, 16).context("a reply has a word that is no octet")?;
        if !received.is_full() {
            received.push(octet);
        }
    }
    Ok((!received.is_empty()).then_some(received))
}
