//! What `run` prints for a script of a port with Data Storage.
ghost use Rattle.std.specs.Prelude.{◌≡◌, ◌⊎◌, ◌++◌, ℕ, IfErr, IfOk, None, OnOk, Some, Err};
ghost use Rattle.std.specs.String.{string_bytes};
ghost use Rattle.iol_params.specs.declared.table.TableFault.{TableFault};
ghost use Rattle.iol_param_sim.specs.Parameters.{parameters_facts};
ghost use Rattle.iol_script.specs.Script.{IsScript, calls_in, first_bad_run, value_of};
ghost use Rattle.iol_script.specs.Text.{numbered_lines};
ghost use Rattle.iol_commands.specs.declared.fault.ProgramFault.TheVariants.{Line, OutOfMemory};
ghost use Rattle.iol_commands.specs.declared.fault.ProgramFault.TheVariants as fault;
ghost use Rattle.iol_commands.specs.RunPlayed.{HasFlaw, IsBadTable, OverTable, ending_text, first_table_wire};
ghost use Rattle.iol_stored_script.specs.PlainText.{plain_lines};
ghost use Rattle.iol_stored_script.specs.declared.as_plain.StoreLine.TheVariants.{Awaited};
ghost use Rattle.iol_stored_commands.specs.StoredPlayed.{PlaysOn, PrintsByMode, StoredPlaysOut, stored_calls_in};
ghost use Rattle.iol_stored_commands.specs.StoredPrinted.{stored_refusal_text};
ghost use Rattle.iol_storage.specs.declared.stored.fault.StoredFault.TheVariants.{SmallQueue};

use crate::stored_playing::{StoredScript, play_stored};
use crate::stored_printing::print_refusal;
use crate::wired_port::WiredPort;
use iol_cell::Handle;
use iol_commands::{ProgramFault, print_ending, table_wire_of, wire_of};
use iol_device::App;
use iol_params::Table;
use iol_script::Script;
use iol_sim::{Beside, Sim};
use iol_storage::{StorageMode, StoredFault};
use iol_stored_script::plain_text;
use std::alloc::AllocError;
use std::mem::replace;

/// What is printed for the whole input, where the port has this mode of Data Storage.
pub(crate) fn played_stored<A: Handle>(
    alloc: A,
    mode: StorageMode,
    input: &[u8],
) -> Result<String<A>, ProgramFault>
    ensures good { OnOk result
        (first_bad_run (plain_lines Awaited (numbered_lines input.now)) ≡ None) }
    ensures printed { IfOk result (λ output. PrintsByMode (Some mode) (numbered_lines input.now)
        (string_bytes output)) }
    ensures line { (n : ℕ) → result ≡ Err (Line n)
        → first_bad_run (plain_lines Awaited (numbered_lines input.now)) ≡ Some n }
    ensures table { (why : TableFault) → result ≡ Err (fault.Table why)
        → IsBadTable (plain_lines Awaited (numbered_lines input.now)) why }
    ensures faults { IfErr result (λ e. (e ≡ OutOfMemory)
        ⊎ (((n : ℕ) × (e ≡ Line n)) ⊎ ((why : TableFault) × (e ≡ fault.Table why)))) }
{
    let plain = plain_text(alloc, input)?;
    let script = Script::read(alloc, plain.as_slice())?;
    let play = StoredScript {
        mode,
        devices: script.devices,
        limits: script.limits,
        input,
        plain: plain.as_slice(),
    };
    if script.table.is_empty() {
        Ok(played_over(alloc, wire_of(alloc, script)?, &play)?)
    } else {
        played_by_table(alloc, script, &play)
    }
}

/// What is printed for the calls, where the device has a table.
fn played_by_table<A: Handle>(
    alloc: A,
    script: Script<A>,
    play: &StoredScript,
) -> Result<String<A>, ProgramFault>
    requires sound { IsScript script }
    ensures printed { IfOk result (λ output. OverTable (value_of script) (λ table.
        StoredPlaysOut parameters_facts play.now.mode play.now.devices play.now.limits
        (first_table_wire (value_of script) table)
        (stored_calls_in (numbered_lines play.now.input.now))
        (calls_in (numbered_lines play.now.plain.now)) (string_bytes output))) }
    ensures flaw { (why : TableFault) → result ≡ Err (fault.Table why)
        → HasFlaw (value_of script) why }
    ensures faults { IfErr result (λ e. (e ≡ OutOfMemory)
        ⊎ ((why : TableFault) × (e ≡ fault.Table why))) }
{
    let mut script = script;
    let steps = replace(&mut script.steps, Vec::new(alloc));
    let members = script.members(alloc)?;
    let rules = script.table.rules(alloc)?;
    let table = match Table::new(&members, &rules) {
        Ok(table) => table,
        Err(why) => return Err(ProgramFault::Table(why)),
    };
    let wire = table_wire_of(alloc, &script, &table, steps)?;
    Ok(played_over(alloc, wire, play)?)
}

/// What is printed for the calls, made on a new port over this wire.
fn played_over<P: App, A: Handle, B: Beside<P>>(
    alloc: A,
    wire: Sim<P, A, B>,
    play: &StoredScript,
) -> Result<String<A>, AllocError>
    ensures { IfOk result (λ output. StoredPlaysOut B.facts play.now.mode play.now.devices
        play.now.limits wire (stored_calls_in (numbered_lines play.now.input.now))
        (calls_in (numbered_lines play.now.plain.now)) (string_bytes output)) }
{
    match WiredPort::open(alloc, wire, &play.limits, play.devices, play.mode) {
        Ok(port) => played_on(alloc, port, play),
        Err((StoredFault::SmallQueue, wire)) => opened_none(alloc, &wire, play),
        Err(_) => Err(AllocError),
    }
}

/// What is printed for the calls, made on this port.
fn played_on<P: App, A: Handle, B: Beside<P>>(
    alloc: A,
    port: WiredPort<Sim<P, A, B>, A>,
    play: &StoredScript,
) -> Result<String<A>, AllocError>
    ensures { IfOk result (λ output. PlaysOn B.facts port
        (stored_calls_in (numbered_lines play.now.input.now))
        (calls_in (numbered_lines play.now.plain.now)) (string_bytes output)) }
{
    let mut port = port;
    let mut output = String::new(alloc);
    play_stored(&mut output, &mut port, play.input)?;
    print_ending(&mut output, port.wire(), play.plain)?;
    Ok(output)
}

/// What is printed where the limits leave no ticket to clients: no call is made.
pub(crate) fn opened_none<P: App, A: Handle, B: Beside<P>>(
    alloc: A,
    wire: &Sim<P, A, B>,
    play: &StoredScript,
) -> Result<String<A>, AllocError>
    ensures { IfOk result (λ output. string_bytes output ≡ stored_refusal_text SmallQueue
        ++ ending_text (calls_in (numbered_lines play.now.plain.now)) wire.now) }
{
    let mut output = String::new(alloc);
    print_refusal(&mut output, StoredFault::SmallQueue)?;
    print_ending(&mut output, wire, play.plain)?;
    Ok(output)
}
