//! The calls of a script, made on a port over a wire with a tap, with what each of
//! them answers and what passes meanwhile.
ghost use Rattle.std.specs.Prelude.{◌≡◌, ◌+◌, ◌<◌, ◌≤◌, ◌^◌, ◌⊎◌, [], ◌∷◌, OnOk, IfErr, length, replicate};
ghost use Rattle.std.specs.String.{string_bytes};
ghost use Rattle.iol_port.specs.declared.call.Call.TheVariants.{Turn};
ghost use Rattle.iol_port.specs.View.{over};
ghost use Rattle.iol_script.specs.Script.{calls_in, line_calls};
ghost use Rattle.iol_script.specs.Text.{numbered_lines};
ghost use Rattle.iol_commands.specs.declared.fault.ProgramFault.TheVariants.{OutOfMemory, WriteFailed};
ghost use Rattle.iol_commands.specs.Printed.{PrintsSome};
ghost use Rattle.iol_commands.specs.TracePrinted.{layout_of_mode, layout_now, place, Flows, PortTraces, TracesFrom, PrintsNoteOf};

use crate::fault::ProgramFault;
use crate::passing::print_passed;
use crate::playing::lacks_memory;
use crate::run_printing::print_answer;
use crate::streams::write_output;
use iol_app::Mode;
use iol_cell::Handle;
use iol_link::Wire;
use iol_mseq::Layout;
use iol_page::{Layouts, Page};
use iol_port::{Call, Port, runs_join};
use iol_script::{CallLine, RunLine, TextLines};
use iol_sim::Tap;
use std::alloc::{AllocError, Allocator};
use std::io::Write;

/// As many bytes as this are not kept, but written.
const PIECE: usize = 65_536;

/// A trace, as far as it was made.
#[derive(Drop)]
pub(crate) struct Tracer<A: Allocator> {
    /// What was printed, and waits to be written.
    pub(crate) output: String<A>,
    /// The number of the next call of the wire.
    number: u64,
}

impl<A: Handle> Tracer<A> {
    /// A trace of no call.
    pub(crate) fn new(alloc: A) -> Tracer<A>
        ensures output { string_bytes result.output ≡ [] }
        ensures number { result.number ≡ 1 }
    {
        Tracer {
            output: String::new(alloc),
            number: 1,
        }
    }

    /// Makes the calls of a script's lines.
    pub(crate) fn follow<W: Wire, O: Write>(
        &mut self,
        port: &mut Port<Tap<W>, A>,
        writer: &mut O,
        input: &[u8],
    ) -> Result<(), ProgramFault>
        requires { self.old.number + length (calls_in (numbered_lines input.now)) < 2 ^ 64 }
        ensures traced { OnOk result
            (TracesFrom W.facts
            (place self.old.number (string_bytes self.old.output)
            (O.contents writer.old) (over port.old))
            (calls_in (numbered_lines input.now))
            (place self.new.number (string_bytes self.new.output)
            (O.contents writer.new) (over port.new))) }
        ensures faults { IfErr result (λ e. (e ≡ OutOfMemory) ⊎ (e ≡ WriteFailed)) }
    {
        runs_join();
        for (_, line) in TextLines::of(input) {
            if let Some(RunLine::Call(call)) = RunLine::parse(line) {
                self.follow_line(port, writer, &call)?;
            }
        }
        Ok(())
    }

    /// Makes the calls of one line.
    #[tactic(auto, using(crate::proofs::TraceLemmas::turns_length))]
    fn follow_line<W: Wire, O: Write>(
        &mut self,
        port: &mut Port<Tap<W>, A>,
        writer: &mut O,
        line: &CallLine,
    ) -> Result<(), ProgramFault>
        requires { self.old.number + length (line_calls line.now) < 2 ^ 64 }
        ensures traced { OnOk result
            (TracesFrom W.facts
            (place self.old.number (string_bytes self.old.output)
            (O.contents writer.old) (over port.old))
            (line_calls line.now)
            (place self.new.number (string_bytes self.new.output)
            (O.contents writer.new) (over port.new))) }
        ensures number { OnOk result (self.new.number ≤ self.old.number + length
            (line_calls line.now)) }
        ensures faults { IfErr result (λ e. (e ≡ OutOfMemory) ⊎ (e ≡ WriteFailed)) }
    {
        match line {
            CallLine::Once(call) => self.follow_call(port, writer, call),
            CallLine::Turns(count) => { self.follow_turns(port, writer, *count as usize) }
        }
    }

    /// Makes so many turns.
    fn follow_turns<W: Wire, O: Write>(
        &mut self,
        port: &mut Port<Tap<W>, A>,
        writer: &mut O,
        count: usize,
    ) -> Result<(), ProgramFault>
        requires { self.old.number + count < 2 ^ 64 }
        ensures traced { OnOk result
            (TracesFrom W.facts
            (place self.old.number (string_bytes self.old.output)
            (O.contents writer.old) (over port.old))
            (replicate count Turn)
            (place self.new.number (string_bytes self.new.output)
            (O.contents writer.new) (over port.new))) }
        ensures number { OnOk result (self.new.number ≤ self.old.number + count) }
        ensures faults { IfErr result (λ e. (e ≡ OutOfMemory) ⊎ (e ≡ WriteFailed)) }
    {
        runs_join();
        for _ in 0..count {
            self.follow_call(port, writer, &Call::Turn)?;
        }
        Ok(())
    }

    /// Makes one call, and writes what is printed, once there is enough of it.
    fn follow_call<W: Wire, O: Write>(
        &mut self,
        port: &mut Port<Tap<W>, A>,
        writer: &mut O,
        call: &Call,
    ) -> Result<(), ProgramFault>
        requires { self.old.number + 1 < 2 ^ 64 }
        ensures traced { OnOk result
            (TracesFrom W.facts
            (place self.old.number (string_bytes self.old.output)
            (O.contents writer.old) (over port.old))
            (call.now ∷ [])
            (place self.new.number (string_bytes self.new.output)
            (O.contents writer.new) (over port.new))) }
        ensures number { OnOk result (self.new.number ≤ self.old.number + 1) }
        ensures faults { IfErr result (λ e. (e ≡ OutOfMemory) ⊎ (e ≡ WriteFailed)) }
    {
        self.make(port, call)?;
        pass_on(&mut self.output, writer)
    }

    /// Makes one call, and prints what passes meanwhile and what it answers.
    fn make<W: Wire>(&mut self, port: &mut Port<Tap<W>, A>, call: &Call) -> Result<(), AllocError>
        requires { self.old.number + 1 < 2 ^ 64 }
        ensures traced { PrintsSome result self.old.output self.new.output (PortTraces W.facts
            self.old.number (over port.old) (call.now ∷ []) self.new.number (over port.new)) }
        ensures number { OnOk result (self.new.number ≤ self.old.number + 1) }
    {
        let layout = layout_now(port.status().mode, port.page());
        let answer = port.call(call);
        if lacks_memory(&answer) {
            return Err(AllocError);
        }
        self.note(call, &layout, port.wire())?;
        print_answer(&mut self.output, call, &answer)
    }

    /// Prints the call of the wire that a call made, if it made one: a turn alone
    /// does, and then it was the last to pass.
    fn note<W: Wire>(
        &mut self,
        call: &Call,
        layout: &Layout,
        wire: &Tap<W>,
    ) -> Result<(), AllocError>
        requires { self.old.number + 1 < 2 ^ 64 }
        ensures printed { PrintsSome result self.old.output self.new.output
            (PrintsNoteOf call.now self.old.number layout.now wire.now.last self.new.number) }
        ensures number { OnOk result (self.new.number ≤ self.old.number + 1) }
    {
        match (call, wire.last()) {
            (Call::Turn, Some(passed)) => {
                print_passed(&mut self.output, self.number, layout, passed)?;
                self.number += 1;
                Ok(())
            }
            _ => Ok(()),
        }
    }
}

/// The layout of a mode in a session with this page: before it was read, that of STARTUP.
pub fn layout_now(mode: Mode, page: Option<Page>) -> Layout
    ensures { result ≡ layout_now mode page }
{
    let Some(page) = page else {
        return Layout::startup();
    };
    match page.layouts() {
        Ok(layouts) => layout_in(mode, &layouts),
        Err(_) => Layout::startup(),
    }
}

/// The layout of a mode. In down no message is sent.
fn layout_in(mode: Mode, layouts: &Layouts) -> Layout
    ensures { result ≡ layout_of_mode mode layouts.now }
{
    match mode {
        Mode::Down | Mode::Startup => Layout::startup(),
        Mode::Preoperate => layouts.pre.unwrap_or(Layout::startup()),
        Mode::Operate => layouts.run,
    }
}

/// Writes what waits, where it is enough.
pub fn pass_on<A: Allocator, W: Write>(
    output: &mut String<A>,
    writer: &mut W,
) -> Result<(), ProgramFault>
    ensures written { OnOk result (Flows (W.contents writer.old) (W.contents writer.new)
        (string_bytes output.old) (string_bytes output.new) []) }
    ensures fault { IfErr result (λ e. e ≡ WriteFailed) }
{
    if output.len() >= PIECE {
        write_output(writer, output.as_str())?;
        output.clear();
    }
    Ok(())
}
