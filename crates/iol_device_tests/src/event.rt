//! A test of lists and memories of events, which a Rust caller clones and goes over.
use iol_event::{Event, EventForm, EventList, EventMemory, EventReader};
use std::test::Fail;

const ALARM: Event = Event {
    qualifier: 0xF4,
    code: 0x4210,
};

/// The list of one event, read octet by octet.
fn one_event() -> Result<Option<EventList>, EventForm> {
    let mut reader = EventReader::new();
    reader.take(0x81)?;
    reader.take(ALARM.qualifier)?;
    reader.take(0x42)?;
    reader.take(0x10)
}

/// No line of a program clones them, or goes over a list.
#[test]
fn a_list_and_a_memory_are_cloned(rt: HostRuntime) -> Result<(), Fail> {
    let events = one_event()?.ok_or("no list")?;
    assert!(rt; events.len() == 1);
    assert!(rt; events.clone()? == events);
    assert!(rt; events.iter().copied().last() == Some(ALARM));
    let mut memory = EventMemory::new();
    memory.raise(ALARM)?;
    memory.confirm();
    let confirmed = memory.clone()?;
    memory.confirm();
    assert!(rt; memory == confirmed);
    Ok(())
}
