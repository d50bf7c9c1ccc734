//! The program `iol_probe`: lines that call one thing of the lower crates each, for tests as data.
//!
//! It reads standard input whole, and prints one line for each line that asks. A line that fits no
//! form, or has no place where it stands, is told by `line N: bad line` on standard error, and the
//! status is 1; nothing is printed then. Blank lines and those that begin with `#` are skipped.
//!
//! OCTETS are words of two hexadecimal digits, WORD is octets in one word, `-` for none. REQUEST is
//! `read INDEX SUB` or `write INDEX SUB WORD`; ANSWER is `read WORD`, `written` or `refused OO AA`;
//! FLOW is `start`, `idle1`, `idle2`, `abort` or the number of a COUNT; T is a ticket, OUTCOME is
//! `done ANSWER` or `unknown CAUSE`. A refusal is printed as `refused NUMBER NAME`.
//!
//! ```text
//! checksum OCTETS            sealed PLACE OCTETS     mc OO   ckt OO   cks OO   flow FLOW
//! layout startup             layout preoperate C     layout operate C IN OUT
//! master OCTETS              reply read|write OCTETS view master ..           view reply ..
//! spell read|write CHANNEL AA OUT OD                 spell reply OD IN 0|1 valid|invalid
//! buffer new|append OCTETS|zeros N|first N OO|close 0|1 valid|invalid
//! part of OCTETS|zeros N|first N OO                  first OCTETS
//! page OCTETS                octet AA (of the page)  capability OO   length OO   command OO
//! identity    expected VENDOR DEVICE (of the page)     cycle OO   micros N
//! total OCTETS               request OCTETS          answer read|write OCTETS
//! encode REQUEST             encode answer read|write ANSWER
//! cut request N REQUEST      cut answer N read|write ANSWER          cut next|again|source
//! join requests|answers      join take FLOW OCTETS   join whole|request|answer read|write
//! memory new|raise QQ CCCC|octet AA|confirm|other|clear|flag
//! reader new|address|take OO                         image OCTETS
//! book open JOURNAL BUSY GIVEN [QUEUE]
//! book submit|urgent REQUEST|take|deny|next|post T OUTCOME|collect T|withdraw T|flight T
//! book abandon T|reset|archive|drain|journal|restated
//! device param INDEX SUB ro|rw WORD
//! device open|apart ROOM OCTETS                      device bare OCTETS
//! device hear OCTETS|raise QQ CCCC|input OCTETS|clear|wake|work|power|silence|miss
//! device handed|answer N ANSWER (where apart)|output|record|page|mode|cycle|pulses
//! ```
//!
//! Those of a port, `port ..`, stand at its module.
#![tactic(auto)]

mod books;
mod buffers;
mod devices;
mod events;
mod fault;
mod identities;
mod images;
mod isdus;
mod messages;
mod octets;
mod pages;
mod ports;
mod printing;
mod probe;
mod reading;
mod segments;
mod tickets;

use crate::fault::ProbeFault;
use crate::probe::Probe;
use std::alloc::Global;
use std::io;
use std::io::{Read, Write};
use std::process::ExitCode;
use std::rt::Runtime;

/// Reads the lines, and answers them.
fn work<R: Runtime<A = Global>>(rt: &R) -> Result<(), ProbeFault> {
    let mut input = Vec::new(rt.alloc());
    if rt.reader().read_to_end(&mut input).is_err() {
        return Err(ProbeFault::ReadFailed);
    }
    let mut output = String::new(rt.alloc());
    Probe::new(rt.alloc()).answer_all(&mut output, input.as_slice())?;
    let mut writer = io::writer(rt);
    if writer.write_all(output.as_bytes()).is_err() || writer.flush().is_err() {
        return Err(ProbeFault::WriteFailed);
    }
    Ok(())
}

fn main(rt: HostRuntime) -> ExitCode {
    match work(&rt) {
        Ok(()) => ExitCode::from(0),
        Err(fault) => {
            // Nobody is left to tell where the text can't be written.
            let _ = eprintln!(rt; "{fault}");
            ExitCode::from(1)
        }
    }
}
