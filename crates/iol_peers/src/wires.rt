//! Wires of which nothing is promised.
ghost use Rattle.std.proofs.Common.{rules};
ghost use Rattle.iol_link.specs.WireFacts.{unknown};

use crate::tables::Exchange;
use iol_link::{Rate, Wire};
use iol_mseq::Message;

/// What answers on such a wire.
pub trait Peer {
    fn wake(&mut self) -> Option<Rate>;

    fn exchange(&mut self, sent: &[u8]) -> Option<Message>;
}

/// A wire to a peer that answers whatever it likes. It isn't honest.
#[derive(Debug, PartialEq, Eq, Drop)]
pub struct AnyWire<P: Peer>(pub P);

impl<P: Peer> Wire for AnyWire<P> {
    ghost facts = { unknown };

    ghost clean_exchanges = { λ old sent answer new never. Prim.search rules };

    ghost clean_wakes = { λ old answer new never. Prim.search rules };

    fn wake(&mut self) -> Option<Rate> {
        self.0.wake()
    }

    fn exchange(&mut self, sent: &[u8]) -> Option<Message> {
        self.0.exchange(sent)
    }
}

/// A peer that answers each wake, and messages by the table of a start-up and then by another
/// one, as long as what is sent is what is wanted there.
#[derive(Drop)]
pub struct Table<'a> {
    /// How many exchanges went by the tables.
    pub followed: usize,
    startup: &'a [Exchange],
    onwards: &'a [Exchange],
}

impl<'a> Table<'a> {
    /// A peer of which nothing was asked yet.
    pub fn new(startup: &'a [Exchange], onwards: &'a [Exchange]) -> Self {
        Table {
            followed: 0,
            startup,
            onwards,
        }
    }

    /// What is wanted next.
    fn next(&self) -> Option<Exchange> {
        match self.followed.checked_sub(self.startup.len()) {
            None => self.startup.get(self.followed).copied(),
            Some(place) => self.onwards.get(place).copied(),
        }
    }
}

impl<'a> Peer for Table<'a> {
    fn wake(&mut self) -> Option<Rate> {
        Some(Rate::Com2)
    }

    fn exchange(&mut self, sent: &[u8]) -> Option<Message> {
        let (wanted, reply) = self.next()?;
        if sent != wanted {
            return None;
        }
        self.followed = self.followed.saturating_add(1);
        if reply.is_empty() {
            return None;
        }
        Message::try_from(reply).ok()
    }
}
