//! What a port has counted, as C sees it.
ghost use Rattle.std.specs.Prelude.{◌≡◌};
ghost use Rattle.iolink_port_forms.specs.Shown.{counters_shown};

use iol_port::Counters;

/// What a port has counted since it was opened. Each count stays at 2^64 - 1.
///
/// An exchange has a good reply or a bad one of one kind.
#[derive(Clone, Copy)]
#[repr(C)]
pub struct IolCounters {
    /// Messages that went out, repeats as well.
    pub exchanges: u64,
    /// Good replies.
    pub good_replies: u64,
    /// Messages that went out a second or third time in a row.
    pub repeats: u64,
    /// Exchanges to which no reply came in time.
    pub no_reply: u64,
    /// Replies with more or fewer octets than a good one has.
    pub wrong_length: u64,
    /// Replies of the right length with a wrong checksum.
    pub wrong_checksum: u64,
    /// Links lost: three attempts in a row brought no good reply.
    pub links_lost: u64,
    /// Start-ups: wake-up requests that a device answered.
    pub start_ups: u64,
    /// Requests that have their device's answer.
    pub done: u64,
    /// Requests cut off: the device no longer replied.
    pub unknown_link_lost: u64,
    /// Requests cut off: the port was restarted.
    pub unknown_restarted: u64,
    /// Requests cut off: the device was busy for as many replies as the port allows.
    pub unknown_busy_too_long: u64,
    /// Requests cut off: the device sent no text of an answer.
    pub unknown_protocol: u64,
    /// Requests cut off: a client asked for it.
    pub unknown_cancelled: u64,
}

/// Shows C what was counted.
pub fn counters_of(counters: &Counters) -> IolCounters
    ensures { result ≡ counters_shown counters.now }
{
    IolCounters {
        exchanges: counters.exchanges,
        good_replies: counters.good_replies,
        repeats: counters.repeats,
        no_reply: counters.no_reply,
        wrong_length: counters.wrong_length,
        wrong_checksum: counters.wrong_checksum,
        links_lost: counters.links_lost,
        start_ups: counters.start_ups,
        done: counters.done,
        unknown_link_lost: counters.unknown.link_lost,
        unknown_restarted: counters.unknown.restarted,
        unknown_busy_too_long: counters.unknown.busy_too_long,
        unknown_protocol: counters.unknown.protocol,
        unknown_cancelled: counters.unknown.cancelled,
    }
}
