//! The lines of a device's event memory, and of a master's reader of events.
use crate::printing::{print_ok, print_refused, yes_or_no};
use crate::reading::{Line, is};
use iol_event::{Event, EventForm, EventList, EventMemory, EventReader};
use std::alloc::AllocError;

/// A line of an event memory, behind `memory`.
pub(crate) fn answer_memory(
    output: &mut String,
    memory: &mut EventMemory,
    line: &mut Line<'_>,
) -> Result<(), AllocError> {
    let name = line.word();
    if is(name, b"raise") {
        raise(output, memory, event(line))
    } else if is(name, b"octet") {
        let octet = memory.octet(line.octet());
        writeln!(output, "octet {octet:02X}")
    } else if is(name, b"flag") {
        let flag = yes_or_no(memory.flag());
        writeln!(output, "flag {flag}")
    } else {
        change_memory(memory, name, line);
        print_ok(output)
    }
}

/// The lines of one word that change something.
fn change_memory(memory: &mut EventMemory, name: &[u8], line: &mut Line<'_>) {
    if is(name, b"new") {
        *memory = EventMemory::new();
    } else if is(name, b"confirm") {
        memory.confirm();
    } else if is(name, b"other") {
        memory.other_heard();
    } else if is(name, b"clear") {
        memory.clear();
    } else {
        line.refuse();
    }
}

/// A qualifier of two hexadecimal digits, and a code of four.
pub(crate) fn event(line: &mut Line<'_>) -> Event {
    let qualifier = line.octet();
    let code = line.code();
    Event { qualifier, code }
}

fn raise(output: &mut String, memory: &mut EventMemory, event: Event) -> Result<(), AllocError> {
    match memory.raise(event) {
        Ok(()) => print_ok(output),
        Err(fault) => print_refused(output, fault.code(), &fault),
    }
}

/// A line of a reader of events, behind `reader`.
pub(crate) fn answer_reader(
    output: &mut String,
    reader: &mut EventReader,
    line: &mut Line<'_>,
) -> Result<(), AllocError> {
    let name = line.word();
    if is(name, b"take") {
        print_taken(output, reader.take(line.octet()))
    } else if is(name, b"address") {
        let address = reader.address();
        writeln!(output, "address {address}")
    } else if is(name, b"new") {
        *reader = EventReader::new();
        print_ok(output)
    } else {
        line.refuse();
        Ok(())
    }
}

/// That more octets are to be read, the events, or the refusal.
fn print_taken(
    output: &mut String,
    taken: Result<Option<EventList>, EventForm>,
) -> Result<(), AllocError> {
    match taken {
        Ok(None) => output.push_str("more\n"),
        Ok(Some(events)) => print_events(output, events.as_slice()),
        Err(fault) => print_refused(output, fault.code(), &fault),
    }
}

fn print_events(output: &mut String, events: &[Event]) -> Result<(), AllocError> {
    output.push_str("events")?;
    for event in events {
        print_event(output, *event)?;
    }
    output.push_str("\n")
}

/// The qualifier and the code, behind a space.
pub(crate) fn print_event(output: &mut String, event: Event) -> Result<(), AllocError> {
    let qualifier = event.qualifier;
    let code = event.code;
    write!(output, " {qualifier:02X} {code:04X}")
}
