//! Why a judge can't say.
ghost use Rattle.std.specs.Prelude.{◌≡◌};

use thiserror::Error;

// The numbers: their one table, which the definitions cite.
const PAGE_UNREAD: u8 = 1;

const PAGE_REFUSED: u8 = 2;

const TOO_MANY_STATES: u8 = 3;

/// Why nothing can be said of a capture from some exchange on.
#[derive(Clone, Copy, Debug, PartialEq, Eq, Error)]
pub enum Open {
    /// 1: a mode was asked for before the page's octets 0x03 to 0x06 were known.
    #[error("PageUnread")]
    PageUnread,
    /// 2: the page's octets 0x03 to 0x06 ask for no layouts.
    #[error("PageRefused")]
    PageRefused,
    /// 3: more states of a device are possible than are kept.
    #[error("TooManyStates")]
    TooManyStates,
}

impl Open {
    ghost use Rattle.iol_judge.specs.Numbers.{open_number};

    /// The number of the reason.
    pub fn code(&self) -> u8
        ensures { result ≡ open_number self.now }
    {
        match self {
            Open::PageUnread => PAGE_UNREAD,
            Open::PageRefused => PAGE_REFUSED,
            Open::TooManyStates => TOO_MANY_STATES,
        }
    }
}
