//! What C opens a port with, by numbers.
ghost use Rattle.std.specs.Prelude.{◌≡◌, ◌↔◌, IfSome, IsSome};
ghost use Rattle.iolink_port_forms.specs.Arguments.{AreInRange, devices_of, limits_of};

use iol_book::{BusyLimit, JournalLimit, Limits, QueueLimit};
use iol_mode::Devices;

/// For devices of our own kind.
const OWN: u8 = 0;

/// For any device by the standard.
const ANY: u8 = 1;

/// The limits of these numbers, where each is in its range.
pub fn limits_of(journal: u32, busy: u16, queue: u8, given: u64) -> Option<Limits>
    ensures some { IsSome result ↔ AreInRange (limits_of journal busy queue given) }
    ensures value { IfSome result (λ limits. limits ≡ limits_of journal busy queue given) }
{
    Some(Limits {
        journal: JournalLimit::new(journal)?,
        busy: BusyLimit::new(busy)?,
        queue: QueueLimit::new(queue)?,
        given,
    })
}

/// For which devices, by its number.
pub fn devices_of(number: u8) -> Option<Devices>
    ensures { result ≡ devices_of number }
{
    match number {
        OWN => Some(Devices::Own),
        ANY => Some(Devices::Any),
        _ => None,
    }
}
