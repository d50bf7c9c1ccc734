//! What is printed for a layout.
ghost use Rattle.std.specs.Prelude.{◌≡◌};
ghost use Rattle.iol_script.specs.Printing.{Prints};
ghost use Rattle.iol_commands.specs.Printed.{number_text, type_text, process_text, layout_text};

use iol_mseq::Layout;
use std::alloc::{AllocError, Allocator};

/// A name and a decimal number.
fn print_number<A: Allocator>(
    output: &mut String<A>,
    name: &str,
    number: u8,
) -> Result<(), AllocError>
    ensures { Prints result output.old output.new (number_text name.now number) }
{
    write!(output, "{name}{number}")
}

/// The M-sequence type, and how many octets on-request data has.
fn print_type<A: Allocator>(output: &mut String<A>, layout: &Layout) -> Result<(), AllocError>
    ensures { Prints result output.old output.new (type_text layout.now) }
{
    print_number(output, "layout type ", layout.kind().bits())?;
    print_number(output, " od ", layout.od().get())
}

/// How many octets of process data go in and out.
fn print_process<A: Allocator>(output: &mut String<A>, layout: &Layout) -> Result<(), AllocError>
    ensures { Prints result output.old output.new (process_text layout.now) }
{
    print_number(output, " in ", layout.pd_in())?;
    print_number(output, " out ", layout.pd_out())
}

/// A layout that is taken.
pub(crate) fn print_layout<A: Allocator>(
    output: &mut String<A>,
    layout: &Layout,
) -> Result<(), AllocError>
    ensures { Prints result output.old output.new (layout_text layout.now) }
{
    print_type(output, layout)?;
    print_process(output, layout)?;
    output.push_str("\n")
}
