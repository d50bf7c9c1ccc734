//! Random calls of ports, while anything comes back: the watch never blames one.

use crate::honest::Random;
use iol_app::{Outgoing, Transmission};
use iol_book::{Limits, Ticket};
use iol_image::Image;
use iol_isdu::{Place, Request};
use iol_judge::{MasterVerdict, Wake, Watch};
use iol_link::Rate;
use iol_mode::Devices;
use iol_mseq::Message;
use iol_octets::checksum6;
use iol_peers::{ONE_OCTET, PLAIN, PROCESS_DATA};
use iol_port::{AwaitedAnswer, PortCore, PortFault};
use std::alloc::Allocator;
use std::test::Fail;

/// A device of V1.0.
const OLD: [u8; 10] = [0x17, 0x2D, 0x10, 0x00, 0x00, 0x12, 0x34, 0x00, 0x01, 0x07];

/// Two octets of on-request data, no process data.
const TWO_OCTETS: [u8; 10] = [0x17, 0x03, 0x11, 0x00, 0x00, 0x12, 0x34, 0x00, 0x01, 0x07];

const PAGES: [[u8; 10]; 5] = [PLAIN, PROCESS_DATA, ONE_OCTET, TWO_OCTETS, OLD];

/// Answers to reads and to writes. Most end in zeros, some are none.
const ANSWERS: [&[u8]; 8] = [
    &[0xD3, 0xD3, 0x00],
    &[0xD5, 0xD5, 0x00, 0x00, 0x00],
    &[0xDA, 0xDA, 0, 0, 0, 0, 0, 0, 0, 0],
    &[0xD2, 0xD2],
    &[0x52, 0x52],
    &[0xC4, 0x80, 0x11, 0x55],
    &[0xD3, 0x41, 0x00],
    &[0xD1, 0x00],
];

/// StatusCodes: of one event, of two, of none, and one without details.
const STATUS_CODES: [u8; 4] = [0x81, 0x83, 0x80, 0x01];

/// The control octets of reads: of the first and the last octet of the page, of the StatusCode, of
/// the ISDU channel.
const FIRST_OF_PAGE: u8 = 0xA2;

const LAST_OF_PAGE: u8 = 0xAB;

const STATUS_CODE: u8 = 0xC0;

const COUNT: u8 = 0xE0;

const LAST_COUNT: u8 = 0xEF;

/// The bits of a COUNT.
const COUNTS: u8 = 0x0F;

const START: u8 = 0xF0;

/// That of the first read of all.
const FIRST_READ: u8 = 0x80;

/// The first octet of "busy".
const BUSY: u8 = 1;

/// The Event flag, and PD status.
const STATUS: u8 = 0xC0;

const PLACE: Place = Place { index: 16, sub: 0 };

const HALF_TURNS: u32 = 800;

const SEEDS: u64 = 50;

/// Whatever a device may say, and more.
#[derive(Drop)]
struct Anything {
    page: [u8; 10],
    answer: &'static [u8],
    random: Random,
}

impl Anything {
    /// What a wake-up request brings. Another device may be plugged in.
    fn wake(&mut self) -> Option<Rate> {
        self.page = PAGES[self.random.below(5) as usize];
        if self.random.below(8) == 0 {
            return None;
        }
        Some(Rate::Com2)
    }

    /// What comes back to a message: nothing, a damaged reply, or a good one.
    fn reply(&mut self, sent: &Outgoing) -> Option<Message> {
        if self.random.below(4) == 0 {
            return None;
        }
        let control = sent.octets.first().copied().unwrap_or(0);
        let mut reply = Message::new();
        if control >= FIRST_READ {
            self.put_data(control, sent.layout.od().get(), &mut reply);
        }
        for _ in 0..sent.layout.pd_in() {
            put(&mut reply, self.random.octet());
        }
        put(
            &mut reply,
            self.random.octet() & self.random.octet() & STATUS,
        );
        let sum = checksum6(&reply);
        let is_damaged = self.random.below(16) == 0;
        if let Some(last) = reply.last_mut() {
            *last |= if is_damaged { sum ^ 1 } else { sum };
        }
        Some(reply)
    }

    /// On-request data that come back to a read.
    fn put_data(&mut self, control: u8, size: u8, reply: &mut Message) {
        let first = match control {
            FIRST_OF_PAGE..=LAST_OF_PAGE => self.page_octet(control),
            STATUS_CODE => STATUS_CODES[self.random.below(4) as usize],
            START if self.random.below(3) == 0 => BUSY,
            COUNT..=START if self.random.below(4) > 0 => {
                self.put_segment(control & COUNTS, size, reply);
                return;
            }
            COUNT..=LAST_COUNT => 0,
            _ => self.random.octet() & self.random.octet() & self.random.octet(),
        };
        put(reply, first);
        for _ in 1..size {
            put(reply, 0);
        }
    }

    /// The octet of the page that is read.
    fn page_octet(&self, control: u8) -> u8 {
        let place = control.saturating_sub(FIRST_OF_PAGE) as usize;
        self.page.get(place).copied().unwrap_or(0)
    }

    /// A segment of an answer, which is chosen with the first one.
    fn put_segment(&mut self, number: u8, size: u8, reply: &mut Message) {
        if number == 0 {
            self.answer = ANSWERS[self.random.below(8) as usize];
        }
        let from = (number as usize).saturating_mul(size as usize);
        for place in 0..size {
            let at = from.saturating_add(place as usize);
            put(reply, self.answer.get(at).copied().unwrap_or(0));
        }
    }
}

/// One more octet, where there is room.
fn put(reply: &mut Message, octet: u8) {
    if !reply.is_full() {
        reply.push(octet);
    }
}

/// The octets that came, if any did.
fn octets_of(received: &Option<Message>) -> Option<&[u8]> {
    match received {
        Some(octets) => Some(octets.as_slice()),
        None => None,
    }
}

/// A port, the watch of its line, and what comes back there.
#[derive(Drop)]
struct WatchedPort<A: Allocator + Copy> {
    port: PortCore<A>,
    watch: Watch,
    device: Anything,
    /// The last ticket.
    ticket: u64,
}

impl<A: Allocator + Copy> WatchedPort<A> {
    /// A call that may come at any time.
    fn call(&mut self) {
        let random = &mut self.device.random;
        let ticket = Ticket(self.ticket.saturating_sub(random.below(3)));
        match random.below(12) {
            0 => self.submit(Request::read(PLACE)),
            1 => {
                if let Ok(request) = Request::write(PLACE, &[random.octet(), 0, 0]) {
                    self.submit(request);
                }
            }
            2 | 3 => {
                let _ = self.port.cancel(ticket);
            }
            4 => {
                if let Ok(image) = Image::new(&[random.octet()]) {
                    let _ = self.port.set_output(&image);
                }
            }
            5 => self.port.clear_output(),
            6 => {
                let _ = self.port.take_event();
            }
            7 | 8 => {
                let _ = self.port.collect(ticket);
            }
            9 => {
                let _ = self.port.archive();
            }
            _ => {}
        }
    }

    /// An urgent request, or another one.
    fn submit(&mut self, request: Request) {
        let submitted = match self.device.random.below(2) {
            0 => self.port.submit_urgent(request),
            _ => self.port.submit(request),
        };
        if let Ok(Ticket(number)) = submitted {
            self.ticket = number;
        }
    }

    /// Half a turn, behind a call: something goes out, or what comes back is told.
    fn step(&mut self) {
        self.call();
        match self.port.awaits() {
            AwaitedAnswer::Nothing => self.send(),
            AwaitedAnswer::Wake => {
                let rate = self.device.wake();
                self.watch.wake(if rate.is_some() {
                    Wake::Answered
                } else {
                    Wake::Unanswered
                });
                self.port.receive_wake(rate);
            }
            AwaitedAnswer::Reply => {
                let Transmission::Exchange(sent) = self.port.asks() else {
                    return;
                };
                let received = self.device.reply(&sent);
                self.watch.exchange(&sent.octets, octets_of(&received));
                self.port.receive(&received);
            }
        }
    }

    /// Something goes out, now and then behind a restart. Nothing was out.
    fn send(&mut self) {
        if self.device.random.below(60) == 0 && self.port.awaits() == AwaitedAnswer::Nothing {
            self.port.restart();
        }
        let _ = self.port.send();
    }
}

/// Whether a port for these devices is by the rules in so many turns.
fn is_by_the_rules<A: Allocator + Copy>(
    alloc: A,
    devices: Devices,
    seed: u64,
) -> Result<bool, PortFault> {
    let mut line = WatchedPort {
        port: PortCore::open_for(alloc, &Limits::default(), devices)?,
        watch: Watch::new(),
        device: Anything {
            page: PLAIN,
            answer: &[],
            random: Random(seed),
        },
        ticket: 0,
    };
    for _ in 0..HALF_TURNS {
        line.step();
    }
    Ok(line.watch.verdict() == MasterVerdict::ByTheRules)
}

/// No message of many random runs of ports is blamed, though devices say anything.
#[test]
fn ports_are_never_blamed(rt: HostRuntime) -> Result<(), Fail> {
    for seed in 0..SEEDS {
        assert!(rt; is_by_the_rules(rt.alloc(), Devices::Own, seed)?);
        assert!(rt; is_by_the_rules(rt.alloc(), Devices::Any, seed)?);
    }
    Ok(())
}
