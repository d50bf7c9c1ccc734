//! The cases, by their names, and the work of each.
use crate::check_word::CheckWord;
use crate::fault::BenchFault;
use crate::{messages, requests, scripts, seats, served, turns};
use std::alloc::Global;
use std::rt::Runtime;
use std::str::FromStr;
use std::sync::Wait;
use std::thread::Threads;

/// A kind of work. Each is done a number of times.
#[derive(Clone, Copy)]
pub(crate) enum Case {
    /// A turn of a port that has nothing to do, without process data.
    Idle,
    /// The same with 32 octets of process data each way.
    IdleData,
    /// A request that reads 14 octets, from `submit` to `collect`, with all its turns.
    Read,
    /// The same of one that writes 232.
    Write,
    /// A restart, and the 15 turns of a start-up.
    Startup,
    /// A turn of a port to which no device answers.
    Down,
    /// A device hears one message, an idle read of 8 octets, and answers.
    Hear,
    /// A message of 66 octets is written and read, and so is a reply of 65.
    Message,
    /// The checksum of 66 octets.
    Checksum,
    /// A script of 20 lines is read.
    Script,
    /// A turn of one port, served by a worker of a master.
    Ports1,
    /// A turn of each of two ports.
    Ports2,
    /// A turn of each of four ports.
    Ports4,
    /// A turn of each of eight ports.
    Ports8,
    /// A turn of each of 32 ports.
    Ports32,
    /// An image is read at a seat.
    Seat,
}

/// All cases, with their names.
const CASES: [(&str, Case); 16] = [
    ("idle", Case::Idle),
    ("idle_data", Case::IdleData),
    ("read", Case::Read),
    ("write", Case::Write),
    ("startup", Case::Startup),
    ("down", Case::Down),
    ("hear", Case::Hear),
    ("message", Case::Message),
    ("checksum", Case::Checksum),
    ("script", Case::Script),
    ("ports1", Case::Ports1),
    ("ports2", Case::Ports2),
    ("ports4", Case::Ports4),
    ("ports8", Case::Ports8),
    ("ports32", Case::Ports32),
    ("seat", Case::Seat),
];

impl FromStr for Case {
    type Err = BenchFault;

    fn from_str(name: &str) -> Result<Case, BenchFault> {
        for (text, case) in CASES {
            if text == name {
                return Ok(case);
            }
        }
        Err(BenchFault::UnknownCase)
    }
}

impl Case {
    /// Does its work so many times.
    pub(crate) fn run<R: Runtime<A = Global> + Threads + Wait + Sync>(
        self,
        rt: &R,
        count: u64,
    ) -> Result<CheckWord, BenchFault> {
        let alloc = rt.alloc();
        match self {
            Case::Idle => turns::idle(alloc, count),
            Case::IdleData => turns::idle_data(alloc, count),
            Case::Read => requests::read(alloc, count),
            Case::Write => requests::write(alloc, count),
            Case::Startup => turns::startup(alloc, count),
            Case::Down => turns::down(alloc, count),
            Case::Hear => messages::hear(alloc, count),
            Case::Message => messages::message(count),
            Case::Checksum => Ok(messages::checksum(count)),
            Case::Script => scripts::script(alloc, count),
            Case::Ports1 => served::ports(rt, alloc, 1, count),
            Case::Ports2 => served::ports(rt, alloc, 2, count),
            Case::Ports4 => served::ports(rt, alloc, 4, count),
            Case::Ports8 => served::ports(rt, alloc, 8, count),
            Case::Ports32 => served::ports(rt, alloc, 32, count),
            Case::Seat => seats::seat(rt, alloc, count),
        }
    }
}
