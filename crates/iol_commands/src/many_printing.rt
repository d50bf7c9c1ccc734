//! What `many` prints for the counts of its ports.
ghost use Rattle.iol_script.specs.Printing.{Prints};
ghost use Rattle.iol_commands.specs.ManyPrinted.{counters_line, counts_text, port_text, ports_text};
ghost use Rattle.iol_commands.specs.ManyPrinted.{tickets_line};

use crate::counters_printing::print_counters;
use iol_clients::{MasterCounts, PortCounts, RequestCounts};
use iol_port::Counters;
use iol_script::ShownCounts;
use std::alloc::{AllocError, Allocator};

/// A port's number, and what became of its tickets.
fn print_tickets<A: Allocator>(
    output: &mut String<A>,
    port: usize,
    counted: &RequestCounts,
) -> Result<(), AllocError>
    ensures { Prints result output.old output.new (tickets_line port counted.now) }
{
    let RequestCounts {
        tickets,
        done,
        unknown,
        waiting,
    } = *counted;
    writeln!(
        output,
        "port {port} tickets {tickets} done {done} unknown {unknown} waiting {waiting}"
    )
}

/// A port's number, and what it counted, where that is shown.
fn print_counted<A: Allocator>(
    output: &mut String<A>,
    shown: ShownCounts,
    port: usize,
    counters: &Counters,
) -> Result<(), AllocError>
    ensures { Prints result output.old output.new (counters_line shown port counters.now) }
{
    match shown {
        ShownCounts::Tickets => Ok(()),
        ShownCounts::Counters => {
            write!(output, "port {port} ")?;
            print_counters(output, counters)
        }
    }
}

/// The lines of a port.
fn print_port<A: Allocator>(
    output: &mut String<A>,
    shown: ShownCounts,
    port: usize,
    counts: &PortCounts,
) -> Result<(), AllocError>
    ensures { Prints result output.old output.new (port_text shown port counts.now) }
{
    print_tickets(output, port, &counts.requests)?;
    print_counted(output, shown, port, &counts.counters)
}

/// The lines of each port, from port 1.
fn print_ports<A: Allocator>(
    output: &mut String<A>,
    shown: ShownCounts,
    ports: &[PortCounts],
) -> Result<(), AllocError>
    ensures { Prints result output.old output.new (ports_text shown ports.now) }
{
    for (place, counts) in ports.iter().enumerate() {
        print_port(output, shown, place + 1, counts)?;
    }
    Ok(())
}

/// The lines of each port, and how many tickets there are in all.
pub(crate) fn print_counts<A: Allocator>(
    output: &mut String<A>,
    counts: &MasterCounts,
    shown: ShownCounts,
) -> Result<(), AllocError>
    ensures { Prints result output.old output.new (counts_text shown counts.now) }
{
    print_ports(output, shown, counts.ports.as_slice())?;
    let total = counts.total;
    writeln!(output, "total {total}")
}
