//! A test of a tap over a wire that answers what no program's wire does.

use iol_link::{Rate, Wire};
use iol_mseq::Message;
use iol_peers::{AnyWire, Peer};
use iol_sim::{Tap, TapNote};

/// A peer that answers each message by its octets but the first, as far as they are a message.
#[derive(Drop)]
struct Echo;

impl Peer for Echo {
    fn wake(&mut self) -> Option<Rate> {
        Some(Rate::Com3)
    }

    fn exchange(&mut self, sent: &[u8]) -> Option<Message> {
        let (_, rest) = sent.split_first()?;
        Message::try_from(rest).ok()
    }
}

/// Whether what is sent is answered so, and noted with its first 66 octets.
fn is_noted<W: Wire>(tap: &mut Tap<W>, sent: &[u8], answer: Option<Message>) -> bool {
    let is_answered = tap.exchange(sent) == answer;
    let noted = Message::from([0x5A; 66]);
    is_answered && tap.last() == Some(&TapNote::Exchange(noted, answer))
}

/// The rate of each wake, and of longer octets than a message has the first 66.
#[test]
fn notes_rates_and_66_octets(rt: HostRuntime) {
    let mut tap = Tap::new(AnyWire(Echo));
    assert!(rt; tap.last().is_none());
    assert!(rt; tap.wake() == Some(Rate::Com3));
    assert!(rt; tap.last() == Some(&TapNote::Wake(Some(Rate::Com3))));
    let long = [0x5A; 68];
    assert!(rt; is_noted(&mut tap, &long[..67], Some(Message::from([0x5A; 66]))));
    // An answer of 67 octets is no message, so this wire has none.
    assert!(rt; is_noted(&mut tap, &long, None));
}
