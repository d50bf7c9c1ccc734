//! The lines of direct parameter page 1, and of the octets on it.
use crate::identities::answer_identities;
use crate::messages::print_layout;
use crate::printing::print_refused;
use crate::reading::{Line, is};
use iol_page::{Capability, Layouts, MasterCommand, Page, PageFault, PdLength};
use std::alloc::AllocError;

/// Answers a line of pages. Whether it is one.
pub(crate) fn answer_pages(
    output: &mut String,
    page: &mut Page,
    name: &[u8],
    line: &mut Line<'_>,
) -> Result<bool, AllocError> {
    if is(name, b"page") {
        *page = page_of(line);
        print_page(output, page)?;
    } else if is(name, b"octet") {
        let octet = page.octet(line.octet());
        writeln!(output, "octet {octet:02X}")?;
    } else if is(name, b"capability") {
        print_capability(output, Capability::from_octet(line.octet()))?;
    } else if is(name, b"length") {
        print_length(output, line.octet())?;
    } else if is(name, b"command") {
        print_command(output, line.octet())?;
    } else {
        return answer_identities(output, page, name, line);
    }
    Ok(true)
}

/// Ten octets.
pub(crate) fn page_of(line: &mut Line<'_>) -> Page {
    match line.octets().as_slice().as_array() {
        Some(octets) => Page::from_octets(octets),
        None => {
            line.refuse();
            Page::from_octets(&[0; 10])
        }
    }
}

/// The refusal of a page; behind that of a RevisionID the octet.
pub(crate) fn print_page_fault(output: &mut String, fault: &PageFault) -> Result<(), AllocError> {
    match fault {
        PageFault::Revision(octet) => writeln!(output, "refused 8 {fault} {octet:02X}"),
        PageFault::BadPdLength | PageFault::UnsupportedCode => {
            print_refused(output, fault.code(), fault)
        }
    }
}

fn print_page(output: &mut String, page: &Page) -> Result<(), AllocError> {
    match page.layouts() {
        Ok(layouts) => print_layouts(output, &layouts),
        Err(fault) => print_page_fault(output, &fault),
    }
}

fn print_layouts(output: &mut String, layouts: &Layouts) -> Result<(), AllocError> {
    output.push_str("preoperate")?;
    match &layouts.pre {
        Some(layout) => print_layout(output, layout)?,
        None => output.push_str(" none")?,
    }
    output.push_str(" operate")?;
    print_layout(output, &layouts.run)?;
    output.push_str(if layouts.isdu { " isdu\n" } else { " noisdu\n" })
}

fn print_capability(output: &mut String, capability: Capability) -> Result<(), AllocError> {
    let run = capability.run;
    let pre = capability.pre;
    let isdu = if capability.isdu { "isdu" } else { "noisdu" };
    writeln!(output, "capability preoperate {pre} operate {run} {isdu}")
}

fn print_length(output: &mut String, octet: u8) -> Result<(), AllocError> {
    match PdLength::from_octet(octet) {
        Ok(PdLength(length)) => writeln!(output, "length {length}"),
        Err(fault) => print_page_fault(output, &fault),
    }
}

/// The command of an octet, and the octet that it is written as.
fn print_command(output: &mut String, octet: u8) -> Result<(), AllocError> {
    match MasterCommand::from_octet(octet) {
        Some(command) => {
            let octet = command.octet();
            writeln!(output, "command {command:?} octet {octet:02X}")
        }
        None => output.push_str("command none\n"),
    }
}
