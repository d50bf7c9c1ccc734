//! A device for the far end, in a process of its own: so it outlives the gateway's.
use crate::lines::{next_line, octets_of};
use crate::text::RequestText;
use anyhow::{Result, bail};
use iol_device::{Apart, Device, NoRecord};
use iol_isdu::{Answer, Octets, Request};
use iol_page::Page;
use std::alloc::Global;
use std::rt::Runtime;

/// V1.1, with ISDU, 8 octets of on-request data, no process data.
const PAGE: [u8; 10] = [0x17, 0x2D, 0x11, 0x00, 0x00, 0x12, 0x34, 0x00, 0x01, 0x07];

/// A read answers how many requests were carried out, with this one.
fn answer_to(request: &Request, count: u16) -> Answer {
    match request {
        Request::Read(_) => {
            let mut octets = Octets::new();
            let _ = octets.try_extend_from_slice(&count.to_be_bytes());
            Answer::Read(octets)
        }
        Request::Write(..) => Answer::Written,
    }
}

/// The device and what it did.
#[derive(Drop)]
struct FarDevice {
    device: Device<Apart, NoRecord>,
    count: u16,
}

impl FarDevice {
    /// Carries out the request that was handed over, if any, and prints it: else an empty line.
    fn work<R: Runtime<A = Global>>(&mut self, rt: &R) -> Result<()> {
        let (Some(number), Some(request)) = (self.device.handed_number(), self.device.handed())
        else {
            println!(rt;)?;
            return Ok(());
        };
        println!(rt; "carried {}", RequestText(request))?;
        self.count = self.count.wrapping_add(1);
        let answer = answer_to(request, self.count);
        if self.device.answer(number, answer).is_err() {
            bail!("the answer wasn't taken");
        }
        Ok(())
    }

    /// Hears octets, and prints its reply: an empty line where it has none.
    fn hear<R: Runtime<A = Global>>(&mut self, rt: &R, words: &str) -> Result<()> {
        if let Some(octets) = octets_of(words)? {
            if let Some(reply) = self.device.hear(octets.as_slice()) {
                for octet in reply.as_slice() {
                    print!(rt; " {octet:02X}")?;
                }
            }
        }
        println!(rt;)?;
        Ok(())
    }

    fn answer<R: Runtime<A = Global>>(&mut self, rt: &R, line: &str) -> Result<()> {
        match line {
            "wake" => {
                self.device.wake();
                println!(rt; "COM2")?;
                Ok(())
            }
            "work" => self.work(rt),
            _ => match line.strip_prefix("send") {
                Some(words) => self.hear(rt, words),
                None => bail!("that is no line"),
            },
        }
    }
}

/// Answers each line by one: `wake`, `send A2 00`, and `work`.
pub fn serve_device<R: Runtime<A = Global>>(rt: &R) -> Result<()> {
    let mut far = FarDevice {
        device: Device::new(Apart, Page::from_octets(&PAGE)),
        count: 0,
    };
    for _ in 0..u64::MAX {
        let Some(line) = next_line(rt)? else {
            break;
        };
        far.answer(rt, line.as_str().trim())?;
    }
    Ok(())
}
