//! What is printed for a port's counters, and for the causes that it counts by.
ghost use Rattle.std.specs.Prelude.{◌≡◌, map};
ghost use Rattle.iol_script.specs.Printing.{Prints};
ghost use Rattle.iol_commands.specs.CountersPrinted.{cause_name, named_counters};
ghost use Rattle.iol_commands.specs.CountersPrinted.{counter_text, counters_text};

use iol_isdu::Cause;
use iol_port::Counters;
use std::alloc::{AllocError, Allocator};

/// Why a request was cut off.
pub fn cause_name(cause: Cause) -> &'static str
    ensures { result.now ≡ cause_name cause }
{
    match cause {
        Cause::LinkLost => "LinkLost",
        Cause::Restarted => "Restarted",
        Cause::BusyTooLong => "BusyTooLong",
        Cause::Protocol => "Protocol",
        Cause::Cancelled => "Cancelled",
    }
}

/// The counters, each behind its name: requests that were cut off by the name of the cause.
fn named_counters(counters: &Counters) -> [(&'static str, u64); 14]
    ensures { map (λ counter. (counter.0.now, counter.1)) result ≡ named_counters counters.now }
{
    let unknown = &counters.unknown;
    [
        ("exchanges", counters.exchanges),
        ("good", counters.good_replies),
        ("repeats", counters.repeats),
        ("none", counters.no_reply),
        ("length", counters.wrong_length),
        ("checksum", counters.wrong_checksum),
        ("lost", counters.links_lost),
        ("startups", counters.start_ups),
        ("done", counters.done),
        (cause_name(Cause::LinkLost), unknown.link_lost),
        (cause_name(Cause::Restarted), unknown.restarted),
        (cause_name(Cause::BusyTooLong), unknown.busy_too_long),
        (cause_name(Cause::Protocol), unknown.protocol),
        (cause_name(Cause::Cancelled), unknown.cancelled),
    ]
}

/// A counter behind its name.
fn print_counter<A: Allocator>(
    output: &mut String<A>,
    name: &str,
    count: u64,
) -> Result<(), AllocError>
    ensures { Prints result output.old output.new (counter_text (name.now, count)) }
{
    write!(output, " {name} {count}")
}

/// The line of all counters.
pub(crate) fn print_counters<A: Allocator>(
    output: &mut String<A>,
    counters: &Counters,
) -> Result<(), AllocError>
    ensures { Prints result output.old output.new (counters_text counters.now) }
{
    output.push_str("counters")?;
    for (name, count) in &named_counters(counters) {
        print_counter(output, name, *count)?;
    }
    output.push_str("\n")
}
