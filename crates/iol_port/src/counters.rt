//! What a port counts.
ghost use Rattle.std.specs.Prelude.{◌≡◌};
ghost use Rattle.iol_port.specs.Counters.{next_counter, none_counted, call_counted, report_counted};
ghost use Rattle.iol_port.specs.Counters.{verdict_counted, repeat_counted, loss_counted};
ghost use Rattle.iol_port.specs.Counters.{cause_counted};

use iol_app::{ReplyVerdict, Said, WireResult};
use iol_isdu::Cause;
use iol_link::MAX_RETRY;

/// What a port has counted since it was opened, for diagnosis. Each count stays at 2^64 - 1.
///
/// An exchange has a good reply or a bad one of one kind.
#[derive(Clone, Copy, Debug, PartialEq, Eq)]
pub struct Counters {
    /// Messages that went out, repeats as well.
    pub exchanges: u64,
    /// Good replies.
    pub good_replies: u64,
    /// Messages that went out a second or third time in a row.
    pub repeats: u64,
    /// Exchanges to which no reply came in time.
    pub no_reply: u64,
    /// Replies with more or fewer octets than a good one has.
    pub wrong_length: u64,
    /// Replies of the right length with a wrong checksum.
    pub wrong_checksum: u64,
    /// Links lost: three attempts in a row brought no good reply.
    pub links_lost: u64,
    /// Start-ups: wake-up requests that a device answered.
    pub start_ups: u64,
    /// Requests that have their device's answer.
    pub done: u64,
    /// Requests that were cut off.
    pub unknown: Unknown,
}

/// How many requests were cut off, by the cause.
#[derive(Clone, Copy, Debug, PartialEq, Eq)]
pub struct Unknown {
    /// The device no longer replied.
    pub link_lost: u64,
    /// The port was restarted.
    pub restarted: u64,
    /// The device was busy for as many replies as the port allows.
    pub busy_too_long: u64,
    /// The device sent no text of an answer.
    pub protocol: u64,
    /// A client asked for it.
    pub cancelled: u64,
}

impl Counters {
    /// Nothing was counted yet.
    pub(crate) fn zero() -> Counters
        ensures { result ≡ none_counted }
    {
        Counters {
            exchanges: 0,
            good_replies: 0,
            repeats: 0,
            no_reply: 0,
            wrong_length: 0,
            wrong_checksum: 0,
            links_lost: 0,
            start_ups: 0,
            done: 0,
            unknown: Unknown {
                link_lost: 0,
                restarted: 0,
                busy_too_long: 0,
                protocol: 0,
                cancelled: 0,
            },
        }
    }

    /// Counts the one call of the wire in a turn, and the request that the turn ended, if any.
    ///
    /// Rule PORT-12.
    pub(crate) fn turned(&mut self, wire_result: WireResult, report: &Said)
        ensures { self.new ≡ report_counted report.now (call_counted wire_result self.old) }
    {
        self.call(wire_result);
        self.report(report);
    }

    fn call(&mut self, wire_result: WireResult)
        ensures { self.new ≡ call_counted wire_result self.old }
    {
        match wire_result {
            WireResult::NoDevice => {}
            WireResult::Woken => count(&mut self.start_ups),
            WireResult::Exchanged(tries, verdict) => {
                count(&mut self.exchanges);
                self.repeat(tries);
                self.verdict(verdict);
                self.loss(tries, verdict);
            }
        }
    }

    fn repeat(&mut self, tries: u8)
        ensures { self.new ≡ repeat_counted tries self.old }
    {
        if tries > 0 {
            count(&mut self.repeats);
        }
    }

    fn verdict(&mut self, verdict: ReplyVerdict)
        ensures { self.new ≡ verdict_counted verdict self.old }
    {
        match verdict {
            ReplyVerdict::Good => count(&mut self.good_replies),
            ReplyVerdict::NoReply => count(&mut self.no_reply),
            ReplyVerdict::WrongLength => count(&mut self.wrong_length),
            ReplyVerdict::WrongChecksum => count(&mut self.wrong_checksum),
        }
    }

    fn loss(&mut self, tries: u8, verdict: ReplyVerdict)
        ensures { self.new ≡ loss_counted tries verdict self.old }
    {
        if tries == MAX_RETRY && !matches!(verdict, ReplyVerdict::Good) {
            count(&mut self.links_lost);
        }
    }

    /// Counts the request that ended, if any.
    pub(crate) fn report(&mut self, report: &Said)
        ensures { self.new ≡ report_counted report.now self.old }
    {
        match report {
            Said::Idle | Said::Busy | Said::Reported(_) => {}
            Said::Answered(_) => count(&mut self.done),
            Said::Cut(cause) => self.unknown.cut(*cause),
        }
    }
}

impl Unknown {
    pub(crate) fn cut(&mut self, cause: Cause)
        ensures { self.new ≡ cause_counted cause self.old }
    {
        match cause {
            Cause::LinkLost => count(&mut self.link_lost),
            Cause::Restarted => count(&mut self.restarted),
            Cause::BusyTooLong => count(&mut self.busy_too_long),
            Cause::Protocol => count(&mut self.protocol),
            Cause::Cancelled => count(&mut self.cancelled),
        }
    }
}

/// One more.
fn count(counter: &mut u64)
    ensures { counter.new ≡ next_counter counter.old }
{
    *counter = counter.saturating_add(1);
}
