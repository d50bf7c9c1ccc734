//! `run`: a port over a simulated wire, as a script says.
ghost use Rattle.std.specs.Prelude.{◌≡◌, ◌≢◌, ◌⊎◌, ℕ, Err, OnErr, OnOk, IfOk, IfErr, IsOk, None, Some, false};
ghost use Rattle.std.specs.Io.KnownBytes.{Keeps};
ghost use Rattle.std.specs.String.{string_bytes};
ghost use Rattle.iol_page.specs.Page.{layouts_of};
ghost use Rattle.iol_params.specs.declared.table.TableFault.{TableFault};
ghost use Rattle.iol_param_sim.specs.Parameters.{parameters_facts};
ghost use Rattle.iol_script.specs.Script.{IsScript, calls_in, first_bad_run, value_of};
ghost use Rattle.iol_script.specs.Text.{numbered_lines};
ghost use Rattle.iol_commands.specs.declared.fault.ProgramFault.TheVariants.{Line, NoThread, OutOfMemory, WriteFailed};
ghost use Rattle.iol_commands.specs.declared.fault.ProgramFault.TheVariants as fault;
ghost use Rattle.iol_commands.specs.RunPlayed.{first_far, first_table_wire, first_wire, HasFlaw, IsBadTable, new_device, OverTable, PlaysOut, PrintsRun, run_reading};
ghost use Rattle.iol_commands.specs.Input.{AnswersInput};

use crate::ending::print_ending;
use crate::fault::ProgramFault;
use crate::playing::{PortScript, play_lines};
use crate::streams::{read_input, write_output};
use iol_cell::Handle;
use iol_device::{Apart, App, Device, FullRecord};
use iol_far::Kind;
use iol_page::Page;
use iol_param_sim::Parameters;
use iol_params::Table;
use iol_port::Port;
use iol_script::Script;
use iol_sim::{Beside, Params, Sim, Step};
use std::alloc::{AllocError, Allocator};
use std::io::{Read, Write};
use std::mem::replace;

/// How many requests the device's record has room for.
const ROOM: u32 = 1000;

/// Reads a script, and makes its calls on a port over a simulated wire, which the
/// script describes too.
///
/// The input is read whole, up to 1,048,576 bytes. Its lines are then read from first to last. The
/// calls are made from first to last, and a line is printed for each but a turn; then the record of
/// the device is printed, and how many events were refused. The output is written at the end. The
/// first fault that is met ends the call: nothing is written then, but where it is a write that
/// fails part of the output may be.
pub fn run<A: Handle, R: Read, W: Write>(
    alloc: A,
    reader: &mut R,
    writer: &mut W,
) -> Result<(), ProgramFault>
    ensures answers { AnswersInput run_reading (record {
      input = R.remaining reader.old;
      input_left = R.remaining reader.new;
      output = W.contents writer.old;
      output_new = W.contents writer.new;
    }) result }
    ensures nothing { OnErr result (result ≢ Err WriteFailed
        → Keeps (W.contents writer.old) (W.contents writer.new)) }
    ensures threads { result ≢ Err NoThread }
{
    let input = read_input(alloc, reader)?;
    let output = played(alloc, input.as_slice())?;
    write_output(writer, output.as_str())
}

/// What is printed for the whole input.
pub fn played<A: Handle>(alloc: A, input: &[u8]) -> Result<String<A>, ProgramFault>
    ensures good { OnOk result (first_bad_run (numbered_lines input.now) ≡ None) }
    ensures printed { IfOk result (λ output. PrintsRun (numbered_lines input.now)
        (string_bytes output)) }
    ensures line { (n : ℕ) → result ≡ Err (Line n) → first_bad_run (numbered_lines input.now)
        ≡ Some n }
    ensures table { (why : TableFault) → result ≡ Err (fault.Table why)
        → IsBadTable (numbered_lines input.now) why }
    ensures faults { IfErr result (λ e. (e ≡ OutOfMemory)
        ⊎ (((n : ℕ) × (e ≡ Line n)) ⊎ ((why : TableFault) × (e ≡ fault.Table why)))) }
{
    let script = Script::read(alloc, input)?;
    let play = PortScript {
        devices: script.devices,
        limits: script.limits,
        input,
    };
    if script.table.is_empty() {
        Ok(played_over(alloc, wire_of(alloc, script)?, &play)?)
    } else {
        played_by_table(alloc, script, &play)
    }
}

/// What is printed for the calls, where the device has a table.
fn played_by_table<A: Handle>(
    alloc: A,
    script: Script<A>,
    play: &PortScript,
) -> Result<String<A>, ProgramFault>
    requires sound { IsScript script }
    ensures printed { IfOk result (λ output. OverTable (value_of script) (λ table.
        PlaysOut parameters_facts play.now.devices play.now.limits
        (first_table_wire (value_of script) table)
        (calls_in (numbered_lines play.now.input.now)) (string_bytes output))) }
    ensures flaw { (why : TableFault) → result ≡ Err (fault.Table why)
        → HasFlaw (value_of script) why }
    ensures faults { IfErr result (λ e. (e ≡ OutOfMemory)
        ⊎ ((why : TableFault) × (e ≡ fault.Table why))) }
{
    let mut script = script;
    let steps = replace(&mut script.steps, Vec::new(alloc));
    let members = script.members(alloc)?;
    let rules = script.table.rules(alloc)?;
    let table = match Table::new(&members, &rules) {
        Ok(table) => table,
        Err(why) => return Err(ProgramFault::Table(why)),
    };
    let wire = table_wire_of(alloc, &script, &table, steps)?;
    Ok(played_over(alloc, wire, play)?)
}

/// What is printed for the calls, made on a new port over this wire.
fn played_over<P: App, A: Handle, B: Beside<P>>(
    alloc: A,
    wire: Sim<P, A, B>,
    play: &PortScript,
) -> Result<String<A>, AllocError>
    ensures { IfOk result (λ output. PlaysOut B.facts play.now.devices play.now.limits wire
        (calls_in (numbered_lines play.now.input.now)) (string_bytes output)) }
{
    let Ok(mut port) = Port::open_for(alloc, wire, &play.limits, play.devices) else {
        return Err(AllocError);
    };
    let mut output = String::new(alloc);
    play_lines(alloc, &mut output, &mut port, play.input)?;
    print_ending(&mut output, port.wire(), play.input)?;
    Ok(output)
}

/// The wire of a script, with its device, or both.
pub fn wire_of<A: Handle>(alloc: A, script: Script<A>) -> Result<Sim<Params, A>, AllocError>
    requires { IsScript script }
    ensures far { IfOk result (λ sim. sim.device.far
        ≡ first_far script.kind script.misses_pulses script.page) }
    ensures app { IfOk result (λ sim. sim.device.app ≡ script.params.items) }
    ensures steps { IfOk result (λ sim. sim.steps ≡ script.steps.items) }
    ensures silence { IfOk result (λ sim. sim.silence ≡ 0) }
    ensures whole { IfOk result (λ sim. sim ≡ first_wire (value_of script)) }
{
    let device = first_device(alloc, &script, Params::of(script.params.as_slice()))?;
    match script.other {
        Some(page) => {
            let params = Params::of(script.params.as_slice());
            let away = device_of(alloc, Kind::own(), params, page)?;
            Sim::with_other(alloc, device, away, script.steps).map_err(|_| AllocError)
        }
        None => Sim::new(alloc, device, script.steps).map_err(|_| AllocError),
    }
}

/// The wire of a script whose devices have this table, with these steps.
pub fn table_wire_of<'t, A: Handle>(
    alloc: A,
    script: &Script<A>,
    table: &'t Table<'t>,
    steps: Vec<Step, A>,
) -> Result<Sim<Apart, A, Parameters<'t, A>>, AllocError>
    requires { IsScript script.now }
    ensures { IfOk result (λ sim. sim
        ≡ first_table_wire (record (value_of script.now) { steps = steps.items }) table.now) }
{
    let device = first_device(alloc, script, Apart)?;
    let beside = Parameters::open(alloc, table, ROOM)?;
    let mut wire = Sim::beside(alloc, device, beside, steps).map_err(|_| AllocError)?;
    if let Some(page) = script.other {
        let away = device_of(alloc, Kind::own(), Apart, page)?;
        let beside = Parameters::open(alloc, table, ROOM)?;
        wire.add_other(alloc, away, beside).map_err(|_| AllocError)?;
    }
    Ok(wire)
}

/// The first device of a script, with this application.
fn first_device<P: App, A: Handle>(
    alloc: A,
    script: &Script<A>,
    app: P,
) -> Result<Device<P, FullRecord<A>>, AllocError>
    requires { IsScript script.now }
    ensures { IfOk result (λ device. device
        ≡ new_device script.now.kind script.now.misses_pulses script.now.page app) }
{
    let mut device = device_of(alloc, script.kind, app, script.page)?;
    if script.misses_pulses {
        device.may_miss_pulses();
    }
    Ok(device)
}

/// A new device, which misses no pulse.
fn device_of<P: App, A: Handle>(
    alloc: A,
    kind: Kind,
    app: P,
    page: Page,
) -> Result<Device<P, FullRecord<A>>, AllocError>
    requires { IsOk (layouts_of page) }
    ensures { IfOk result (λ device. device ≡ new_device kind false page app) }
{
    Device::open_as(alloc, kind, app, page, ROOM).map_err(|_| AllocError)
}
