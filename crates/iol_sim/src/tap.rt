//! A wire that notes the last call that passed over the wire within.
ghost use Rattle.std.specs.Prelude.{◌≡◌, None, take};
ghost use Rattle.std.specs.Option.{option_copied};

use iol_link::{Rate, Wire};
use iol_mseq::Message;
use std::marker::Model;

/// The most octets of a message that are noted: no master sends more.
const LONGEST: usize = 66;

/// One call of a wire, as it was made and answered.
#[derive(Clone, Debug, PartialEq, Eq, Drop)]
pub enum TapNote {
    /// A wake-up request, and the rate that was answered, if any.
    Wake(Option<Rate>),
    /// The octets of a message, and those that came back in the time of a reply, if any.
    ///
    /// Of a message of more than 66 octets they are the first 66.
    Exchange(Message, Option<Message>),
}

/// A wire round another one, which notes the last call that passed, and changes nothing.
///
/// A clause sees the wire within, and the note.
#[derive(Drop)]
pub struct Tap<W: Wire> {
    wire: W,
    last: Option<TapNote>,
}

impl<W: Wire> Model for Tap<W> {
    ghost use Rattle.iol_sim.specs.Tapped.{TappedWire};

    ghost Value = { TappedWire W };

    ghost view = { λ tap. record { wire = tap.wire; last = tap.last } };
}

impl<W: Wire> Tap<W> {
    /// A tap round this wire, with nothing noted yet.
    pub fn new(wire: W) -> Tap<W>
        ensures { result ≡ record { wire = wire; last = None } }
    {
        Tap { wire, last: None }
    }

    /// The last call that passed, none where none did yet.
    pub fn last(&self) -> Option<&TapNote>
        ensures { option_copied result ≡ self.now.last }
    {
        self.last.as_ref()
    }

    /// The wire within.
    pub fn wire(&self) -> &W
        ensures { result.now ≡ self.now.wire }
    {
        &self.wire
    }

    /// The wire within, given back.
    pub fn into_wire(self) -> W
        ensures { result ≡ self.wire }
    {
        self.wire
    }
}

impl<W: Wire> Wire for Tap<W> {
    ghost use Rattle.iol_sim.specs.Tapped.{tap_facts};

    ghost facts = { tap_facts W.facts };

    ghost clean_exchanges = { λ old sent answer new clean gives.
        W.clean_exchanges old.wire sent answer new.wire clean gives.0 };

    ghost clean_wakes = { λ old answer new clean gives.
        W.clean_wakes old.wire answer new.wire clean gives.0 };

    fn wake(&mut self) -> Option<Rate> {
        let answer = self.wire.wake();
        self.last = Some(TapNote::Wake(answer));
        answer
    }

    fn exchange(&mut self, sent: &[u8]) -> Option<Message> {
        let answer = self.wire.exchange(sent);
        self.last = Some(TapNote::Exchange(first_of(sent), copy_of(&answer)));
        answer
    }
}

/// The first octets, as many as are noted.
#[tactic(auto, using(std::proofs::lemmas::List::take_min))]
fn first_of(octets: &[u8]) -> Message
    ensures { result.items ≡ take LONGEST octets.now }
{
    let count = LONGEST.min(octets.len());
    Message::try_from(&octets[..count]).unwrap()
}

/// A copy, which takes no memory.
fn copy_of(answer: &Option<Message>) -> Option<Message>
    ensures { result ≡ answer.now }
{
    answer.as_ref().map(|octets| octets.clone().unwrap())
}
