//! Lines of input, and the octets and requests that they say.
use anyhow::{Context, Result, bail};
use iol_isdu::{Octets, Place, Request};
use iol_mseq::Message;
use std::str::SplitWhitespace;

/// The next line of the input, none at its end. A line that was cut off is no line.
pub fn next_line(rt: &(impl Input + AllocGlobal)) -> Result<Option<String>> {
    let mut line = String::new(rt.alloc());
    rt.read_line(&mut line)?;
    Ok(line.as_str().ends_with("\n").then_some(line))
}

/// The octets of these words, none where there is no word. Of more than 66 the first 66 are given.
pub fn octets_of(words: &str) -> Result<Option<Message>> {
    let mut octets = Message::new();
    for word in words.split_whitespace() {
        let octet = octet_of(word)?;
        if !octets.is_full() {
            octets.push(octet);
        }
    }
    Ok((!octets.is_empty()).then_some(octets))
}

fn octet_of(word: &str) -> Result<u8> {
    u8::from_str_radix(word, 16).context("a word is no octet")
}

/// A request, as `read 40 0` or `write 40 0 00 01`.
pub fn request_of(line: &str) -> Result<Request> {
    let mut words = line.split_whitespace();
    let kind = words.next().context("there is no request")?;
    let index = words.next().context("there is no index")?;
    let sub = words.next().context("there is no subindex")?;
    let place = Place {
        index: index.parse::<u16>().context("that is no index")?,
        sub: sub.parse::<u8>().context("that is no subindex")?,
    };
    match kind {
        "read" => Ok(Request::read(place)),
        "write" => Ok(Request::write(place, data_of(words)?.as_slice())?),
        _ => bail!("that is no request"),
    }
}

fn data_of(words: SplitWhitespace<'_>) -> Result<Octets> {
    let mut octets = Octets::new();
    for word in words {
        if octets.try_push(octet_of(word)?).is_err() {
            bail!("there are too many octets");
        }
    }
    Ok(octets)
}
