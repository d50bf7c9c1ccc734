//! What is printed for one call of the wire.
ghost use Rattle.iol_commands.specs.Printed.{PrintsSome};
ghost use Rattle.iol_commands.specs.Passing.{PrintsPassed};

use iol_mseq::Layout;
use iol_print::{print_exchange, print_wake};
use iol_sim::TapNote;
use std::alloc::{AllocError, Allocator};

/// What passed over the wire in the call of this number, the octets as messages of this layout.
pub fn print_passed<A: Allocator>(
    output: &mut String<A>,
    number: u64,
    layout: &Layout,
    passed: &TapNote,
) -> Result<(), AllocError>
    ensures { PrintsSome result output.old output.new (PrintsPassed number layout.now passed.now) }
{
    match passed {
        TapNote::Wake(rate) => print_wake(output, number, *rate),
        TapNote::Exchange(sent, answer) => {
            print_exchange(output, number, layout, sent.as_slice(), answer)
        }
    }
}
