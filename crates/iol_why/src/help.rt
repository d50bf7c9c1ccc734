//! The forms of lines as help shows them.
use crate::form::LineForm;
use crate::tables;
use std::alloc::{AllocError, Allocator};

/// Forms that help shows one below the other.
#[derive(Clone, Copy, Debug, PartialEq, Eq)]
pub enum Section {
    /// The lines of `check`.
    Check,
    /// The settings of a script.
    Settings,
    /// The lines of the wire.
    Wire,
    /// The calls of the port.
    Calls,
    /// The lines of a port with Data Storage.
    Storage,
    /// The lines of a plan.
    Plan,
    /// The lines of a trace.
    Trace,
    /// The lines of a decoder's export.
    Octets,
}

impl Section {
    /// The forms, in the order of the help.
    fn forms(self) -> &'static [LineForm] {
        match self {
            Section::Check => &tables::CHECK,
            Section::Settings => &tables::SETTINGS,
            Section::Wire => &tables::WIRE,
            Section::Calls => &tables::CALLS,
            Section::Storage => &tables::STORAGE,
            Section::Plan => &tables::PLAN,
            Section::Trace => &tables::TRACE,
            Section::Octets => &tables::OCTETS,
        }
    }

    /// Prints each form in a line, and behind so many columns what it is for; where the form is
    /// longer, that has a line of its own.
    pub fn print<A: Allocator>(
        self,
        output: &mut String<A>,
        columns: usize,
    ) -> Result<(), AllocError> {
        for form in self.forms() {
            let mut begun = output.len();
            write!(output, "  {form}")?;
            if output.len() >= begun.saturating_add(columns) {
                output.push('\n')?;
                begun = output.len();
            }
            for _ in output.len()..begun.saturating_add(columns) {
                output.push(' ')?;
            }
            writeln!(output, "{}", form.about)?;
        }
        Ok(())
    }
}
