//! The calls of a script, made on a stored port over a wire with a tap, with what each of them
//! answers and what passes meanwhile.
ghost use Rattle.std.specs.Prelude.{◌≡◌, ◌+◌, ◌<◌, ◌≤◌, ◌^◌, ◌⊎◌, [], ◌∷◌, IfErr, OnOk, length, map, replicate};
ghost use Rattle.std.specs.String.{string_bytes};
ghost use Rattle.iol_port.specs.declared.call.Call.TheVariants.{Turn};
ghost use Rattle.iol_script.specs.RunLines.{run_form};
ghost use Rattle.iol_script.specs.Script.{line_calls};
ghost use Rattle.iol_script.specs.Text.{numbered_lines};
ghost use Rattle.iol_commands.specs.declared.fault.ProgramFault.TheVariants.{OutOfMemory, WriteFailed};
ghost use Rattle.iol_commands.specs.Printed.{PrintsSome};
ghost use Rattle.iol_commands.specs.TracePrinted.{PrintsNoteOf};
ghost use Rattle.iol_stored_script.specs.StorageLines.{storage_form};
ghost use Rattle.iol_stored_commands.specs.StoredPlayed.{Plain, Storing, line_stored_calls, stored_calls_in};
ghost use Rattle.iol_stored_commands.specs.StoredTraced.{StoredTraces, StoredTracesFrom, stored_layout, stored_place, stored_stage};

use crate::stored_playing::plain_call_of;
use crate::stored_printing::{print_port_answer, print_storage_answer};
use crate::wired_port::{WiredPort, lacks_room};
use iol_cell::Handle;
use iol_commands::{ProgramFault, layout_now, pass_on, print_passed};
use iol_link::Wire;
use iol_mseq::Layout;
use iol_port::Call;
use iol_script::{CallLine, TextLines};
use iol_sim::Tap;
use iol_storage::StoredPort;
use iol_stored_script::{StorageCall, StorageLine};
use std::alloc::{AllocError, Allocator};
use std::io::Write;

/// A trace, as far as it was made.
#[derive(Drop)]
pub(crate) struct StoredTracer<A: Allocator> {
    /// What was printed, and waits to be written.
    pub(crate) output: String<A>,
    /// The number of the next call of the wire.
    number: u64,
}

impl<A: Handle> StoredTracer<A> {
    /// A trace of no call.
    pub(crate) fn new(alloc: A) -> StoredTracer<A>
        ensures output { string_bytes result.output ≡ [] }
        ensures number { result.number ≡ 1 }
    {
        StoredTracer {
            output: String::new(alloc),
            number: 1,
        }
    }

    /// Makes the calls of a script's lines.
    pub(crate) fn follow<W: Wire, O: Write>(
        &mut self,
        port: &mut WiredPort<Tap<W>, A>,
        writer: &mut O,
        input: &[u8],
    ) -> Result<(), ProgramFault>
        requires { self.old.number + length (stored_calls_in (numbered_lines input.now)) < 2 ^ 64 }
        ensures traced { OnOk result (StoredTracesFrom W.facts
            (stored_place self.old.number (string_bytes self.old.output)
            (O.contents writer.old) port.old)
            (stored_calls_in (numbered_lines input.now))
            (stored_place self.new.number (string_bytes self.new.output)
            (O.contents writer.new) port.new)) }
        ensures faults { IfErr result (λ e. (e ≡ OutOfMemory) ⊎ (e ≡ WriteFailed)) }
    {
        for (_, line) in TextLines::of(input) {
            self.follow_line(port, writer, line)?;
        }
        Ok(())
    }

    /// Makes the calls of one line.
    fn follow_line<W: Wire, O: Write>(
        &mut self,
        port: &mut WiredPort<Tap<W>, A>,
        writer: &mut O,
        line: &[u8],
    ) -> Result<(), ProgramFault>
        requires { self.old.number
            + length (line_stored_calls (storage_form line.now) (run_form line.now)) < 2 ^ 64 }
        ensures traced { OnOk result (StoredTracesFrom W.facts
            (stored_place self.old.number (string_bytes self.old.output)
            (O.contents writer.old) port.old)
            (line_stored_calls (storage_form line.now) (run_form line.now))
            (stored_place self.new.number (string_bytes self.new.output)
            (O.contents writer.new) port.new)) }
        ensures number { OnOk result (self.new.number ≤ self.old.number
            + length (line_stored_calls (storage_form line.now) (run_form line.now))) }
        ensures faults { IfErr result (λ e. (e ≡ OutOfMemory) ⊎ (e ≡ WriteFailed)) }
    {
        match StorageLine::parse(line) {
            Some(StorageLine::Call(call)) => self.follow_storage(port, writer, call),
            Some(StorageLine::Store(_)) => Ok(()),
            None => match plain_call_of(line) {
                Some(call) => self.follow_calls(port, writer, &call),
                None => Ok(()),
            },
        }
    }

    /// Makes the calls of a line that a plain port has, too.
    fn follow_calls<W: Wire, O: Write>(
        &mut self,
        port: &mut WiredPort<Tap<W>, A>,
        writer: &mut O,
        line: &CallLine,
    ) -> Result<(), ProgramFault>
        requires { self.old.number + length (line_calls line.now) < 2 ^ 64 }
        ensures traced { OnOk result (StoredTracesFrom W.facts
            (stored_place self.old.number (string_bytes self.old.output)
            (O.contents writer.old) port.old)
            (map Plain (line_calls line.now))
            (stored_place self.new.number (string_bytes self.new.output)
            (O.contents writer.new) port.new)) }
        ensures number { OnOk result
            (self.new.number ≤ self.old.number + length (line_calls line.now)) }
        ensures faults { IfErr result (λ e. (e ≡ OutOfMemory) ⊎ (e ≡ WriteFailed)) }
    {
        match line {
            CallLine::Once(call) => self.follow_call(port, writer, call),
            CallLine::Turns(count) => self.follow_turns(port, writer, *count as usize),
        }
    }

    /// Makes so many turns.
    fn follow_turns<W: Wire, O: Write>(
        &mut self,
        port: &mut WiredPort<Tap<W>, A>,
        writer: &mut O,
        count: usize,
    ) -> Result<(), ProgramFault>
        requires { self.old.number + count < 2 ^ 64 }
        ensures traced { OnOk result (StoredTracesFrom W.facts
            (stored_place self.old.number (string_bytes self.old.output)
            (O.contents writer.old) port.old)
            (map Plain (replicate count Turn))
            (stored_place self.new.number (string_bytes self.new.output)
            (O.contents writer.new) port.new)) }
        ensures number { OnOk result (self.new.number ≤ self.old.number + count) }
        ensures faults { IfErr result (λ e. (e ≡ OutOfMemory) ⊎ (e ≡ WriteFailed)) }
    {
        for _ in 0..count {
            self.follow_call(port, writer, &Call::Turn)?;
        }
        Ok(())
    }

    /// Makes one call that a plain port has, too, and writes what is printed, once there is enough
    /// of it.
    fn follow_call<W: Wire, O: Write>(
        &mut self,
        port: &mut WiredPort<Tap<W>, A>,
        writer: &mut O,
        call: &Call,
    ) -> Result<(), ProgramFault>
        requires { self.old.number + 1 < 2 ^ 64 }
        ensures traced { OnOk result (StoredTracesFrom W.facts
            (stored_place self.old.number (string_bytes self.old.output)
            (O.contents writer.old) port.old)
            (Plain call.now ∷ [])
            (stored_place self.new.number (string_bytes self.new.output)
            (O.contents writer.new) port.new)) }
        ensures number { OnOk result (self.new.number ≤ self.old.number + 1) }
        ensures faults { IfErr result (λ e. (e ≡ OutOfMemory) ⊎ (e ≡ WriteFailed)) }
    {
        self.make(port, call)?;
        pass_on(&mut self.output, writer)
    }

    /// The same of a call that a plain port hasn't. It leaves the wire alone.
    fn follow_storage<W: Wire, O: Write>(
        &mut self,
        port: &mut WiredPort<Tap<W>, A>,
        writer: &mut O,
        call: StorageCall,
    ) -> Result<(), ProgramFault>
        ensures traced { OnOk result (StoredTracesFrom W.facts
            (stored_place self.old.number (string_bytes self.old.output)
            (O.contents writer.old) port.old)
            (Storing call ∷ [])
            (stored_place self.new.number (string_bytes self.new.output)
            (O.contents writer.new) port.new)) }
        ensures number { self.new.number ≡ self.old.number }
        ensures faults { IfErr result (λ e. (e ≡ OutOfMemory) ⊎ (e ≡ WriteFailed)) }
    {
        let answer = port.store(call);
        print_storage_answer(&mut self.output, &answer)?;
        pass_on(&mut self.output, writer)
    }

    /// Makes one call, and prints what passes meanwhile and what it answers.
    fn make<W: Wire>(
        &mut self,
        port: &mut WiredPort<Tap<W>, A>,
        call: &Call,
    ) -> Result<(), AllocError>
        requires { self.old.number + 1 < 2 ^ 64 }
        ensures traced { PrintsSome result self.old.output self.new.output (StoredTraces W.facts
            (stored_stage self.old.number port.old) (Plain call.now ∷ [])
            (stored_stage self.new.number port.new)) }
        ensures number { OnOk result (self.new.number ≤ self.old.number + 1) }
    {
        let layout = layout_of(port.port());
        let answer = port.call(call);
        if lacks_room(&answer) {
            return Err(AllocError);
        }
        self.note(call, &layout, port.wire())?;
        print_port_answer(&mut self.output, call, &answer)
    }

    /// Prints the call of the wire that a call made, if it made one: a turn alone does, and then it
    /// was the last to pass.
    fn note<W: Wire>(
        &mut self,
        call: &Call,
        layout: &Layout,
        wire: &Tap<W>,
    ) -> Result<(), AllocError>
        requires { self.old.number + 1 < 2 ^ 64 }
        ensures printed { PrintsSome result self.old.output self.new.output
            (PrintsNoteOf call.now self.old.number layout.now wire.now.last self.new.number) }
        ensures number { OnOk result (self.new.number ≤ self.old.number + 1) }
    {
        match (call, wire.last()) {
            (Call::Turn, Some(passed)) => {
                print_passed(&mut self.output, self.number, layout, passed)?;
                self.number += 1;
                Ok(())
            }
            _ => Ok(()),
        }
    }
}

/// The layout of the messages that a port sends.
fn layout_of<A: Handle>(port: &StoredPort<A>) -> Layout
    ensures { result ≡ stored_layout port.now.port }
{
    let within = port.port();
    layout_now(within.status().mode, within.page())
}
