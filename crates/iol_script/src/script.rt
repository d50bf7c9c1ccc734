//! The script of `run`.
ghost use Rattle.std.specs.Prelude.{◌≡◌, ◌≤◌, ℕ, Some, None, Err, IfOk, OnOk, IsSome, All, length};
ghost use Rattle.iol_script.specs.declared.fault.ScriptFault.TheVariants.{Line};
ghost use Rattle.iol_script.specs.RunLines.{run_form};
ghost use Rattle.iol_script.specs.Script.{IsScript, calls_in, first_bad_run, script_in, value_of};
ghost use Rattle.iol_script.specs.Tables.{AreMembers};
ghost use Rattle.iol_script.specs.Text.{numbered_lines};

use crate::draft::Draft;
use crate::fault::ScriptFault;
use crate::parts::TextLines;
use crate::table_lines::TableLines;
use iol_book::Limits;
use iol_far::Kind;
use iol_mode::Devices;
use iol_page::Page;
use iol_params::Member;
use iol_sim::{ParameterEntry, Step};
use std::alloc::{AllocError, Allocator, Global};

/// What the lines of `run` set up: the device, the port and the wire between them.
///
/// The calls are not kept, so that they take no memory. Of a line with a call it is
/// only seen that it fits a form; it is parsed when it is carried out.
#[derive(Drop)]
pub struct Script<A: Allocator = Global> {
    /// Direct parameter page 1 of the device.
    pub page: Page,
    /// That of a second device, where there is one.
    pub other: Option<Page>,
    /// The kind of the device; the second one is of our own.
    pub kind: Kind,
    /// Whether it may miss the pulse of a wake-up request; the second one doesn't.
    pub misses_pulses: bool,
    /// The parameters that each device has, at most 32, each at a place of its own.
    pub params: Vec<ParameterEntry, A>,
    /// What is said of their table. Where nothing is, the devices have none.
    pub table: TableLines,
    /// For which devices the port is opened.
    pub devices: Devices,
    /// With what limits it is.
    pub limits: Limits,
    /// What happens on the wire.
    pub steps: Vec<Step, A>,
}

impl<A: Allocator + Copy> Script<A> {
    /// Reads the lines of a whole input, from first to last.
    ///
    /// The settings stand before the first line of the wire and the first call, each but a
    /// parameter at most once. Devices are exchanged only where there
    /// is a second one. There are at most 1,000,000 steps and
    /// 1,000,000 calls. Answered is the first fault that is met: the first bad
    /// line, or a growth that is refused. A bad line is found without memory.
    pub fn read(alloc: A, input: &[u8]) -> Result<Script<A>, ScriptFault>
        ensures good { OnOk result (first_bad_run (numbered_lines input.now) ≡ None) }
        ensures script { IfOk result (λ s. script_in (numbered_lines input.now)
            ≡ Some (value_of s)) }
        ensures bad_line { (n : ℕ) → result ≡ Err (Line n)
            → first_bad_run (numbered_lines input.now) ≡ Some n }
        ensures sound { IfOk result IsScript }
        ensures calls { OnOk result (length (calls_in (numbered_lines input.now)) ≤ 1000000) }
        ensures forms { OnOk result (All (λ line. IsSome (run_form line.1))
            (numbered_lines input.now)) }
    {
        let mut draft = Draft::new(alloc);
        for (number, line) in TextLines::of(input) {
            draft.take(number, line)?;
        }
        Ok(draft.finish())
    }

    /// The members of the table, as far as lines say: one for each parameter, in their order.
    ///
    /// Nothing says that a table can have them: they may have a flaw.
    pub fn members(&self, alloc: A) -> Result<Vec<Member<'_>, A>, AllocError>
        ensures { IfOk result (λ members. AreMembers self.now.table self.now.params.items
            members.items) }
    {
        self.table.members(alloc, &self.params)
    }
}
