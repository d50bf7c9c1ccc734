//! What went over a line.

use iol_far::DeviceMode;
use iol_judge::{Judge, Wake};
use iol_mseq::Message;
use std::marker::Model;

/// A message, and what came back.
#[derive(Debug, Drop)]
pub struct Exchange {
    pub sent: Message,
    /// None where no octet came in the time of a reply.
    pub answer: Option<Message>,
}

impl Model for Exchange {
    ghost use Rattle.iol_far.specs.Octets.{octets_in};
    ghost use Rattle.iol_capture.specs.Exchanged.{ExchangeOctets};

    ghost Value = { ExchangeOctets };

    ghost view = { λ e. record { sent = e.sent.items; answer = octets_in e.answer } };
}

/// What went over a line.
#[derive(Debug, Drop)]
pub enum SplitItem {
    Exchange(Exchange),
    /// A wake-up request, with its test read. One that isn't answered may have been none.
    Wake(Wake),
    /// Octets were passed over, and with them whatever they were. The next message is in the layout
    /// of this mode, or a wake-up request is next.
    Resumed(DeviceMode),
}

impl SplitItem {
    ghost use Rattle.std.specs.Prelude.{◌≡◌};
    ghost use Rattle.iol_capture.specs.FairSplits.{judge_after_item};

    /// Tells it to a judge.
    pub fn submit(&self, judge: &mut Judge)
        ensures { judge.new ≡ judge_after_item judge.old self.now }
    {
        match self {
            SplitItem::Exchange(exchange) => {
                let answer = exchange.answer.as_ref().map(|octets| octets.as_slice());
                judge.exchange(exchange.sent.as_slice(), answer);
            }
            SplitItem::Wake(answer) => judge.wake(*answer),
            SplitItem::Resumed(mode) => judge.resume(*mode),
        }
    }
}
