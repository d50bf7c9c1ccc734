//! The plan of `many`.
ghost use Rattle.std.specs.Prelude.{◌≡◌, ◌<◌, ℕ, Ok, Err, IfOk, IfErr, length};
ghost use Rattle.iol_script.specs.declared.fault.ScriptFault.TheVariants.{Line};
ghost use Rattle.iol_script.specs.PlanRanges.{ArePlanned};
ghost use Rattle.iol_script.specs.Text.{numbered_lines};

use crate::fault::ScriptFault;
use crate::parts::TextLines;
use crate::plan_draft::PlanDraft;

/// What `many` prints of each port.
#[derive(Clone, Copy, Debug, PartialEq, Eq)]
pub enum ShownCounts {
    /// What became of its tickets.
    Tickets,
    /// That, and what the port counted.
    Counters,
}

/// What `many` is to do.
#[derive(Clone, Copy, Debug, PartialEq, Eq)]
pub struct Plan {
    /// How many ports there are: 1 to 32.
    pub ports: u32,
    /// How many clients each port has: 1 to 16.
    pub clients: u32,
    /// How many requests each client submits: 1 to 64. Those of all clients of a
    /// port are 64 at most.
    pub each: u32,
    /// How many turns each port makes while its clients submit, and how many
    /// afterwards: 1 to 100,000.
    pub turns: u32,
    /// What is printed of each port.
    pub shown: ShownCounts,
    pub ghost ranges: { ArePlanned ports clients each turns },
}

impl Plan {
    ghost use Rattle.iol_script.specs.Plan.{numbers_of, plan_of};

    /// Reads the lines of a whole input, from first to last, without memory.
    ///
    /// Four lines say something, in this order: `ports`, `clients`, `each` and `turns`, each
    /// with its number. A fifth one may follow: `counters`. Refused is the first line that is
    /// bad: one that fits no form, that stands in another's place, or that makes the clients of
    /// a port submit more than 64 requests. Where the input ends before its `turns`, the line
    /// behind its last is bad.
    pub fn read(input: &[u8]) -> Result<Plan, ScriptFault>
        requires { length input.now < usize.MAX }
        ensures plan { IfOk result (λ plan. plan_of (numbered_lines input.now)
            ≡ Ok (numbers_of plan)) }
        ensures bad_line { IfErr result (λ fault. (n : ℕ) × (fault ≡ Line n)
            × (plan_of (numbered_lines input.now) ≡ Err n)) }
    {
        let mut draft = PlanDraft::Empty;
        for (number, line) in TextLines::of(input) {
            let Some(next) = draft.after(line) else {
                return Err(ScriptFault::Line(number));
            };
            draft = next;
        }
        match draft {
            PlanDraft::Turns(ports, clients, each, turns, shown) => Ok(Plan {
                ports,
                clients,
                each,
                turns,
                shown,
            }),
            _ => Err(ScriptFault::Line(TextLines::of(input).count() as u64 + 1)),
        }
    }
}
