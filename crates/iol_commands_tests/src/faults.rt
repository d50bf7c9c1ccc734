//! The number and the text of each fault that a library answers: no clause says a text. Those of
//! the programs `iolink` and `iol_probe` stand in rows of `tests/rows`.
use iol_app::OutputFault;
use iol_book::BookFault;
use iol_cell::CellFault;
use iol_clients::ClientsFault;
use iol_commands::ProgramFault;
use iol_device::DeviceFault;
use iol_event::{EventForm, MemoryFull};
use iol_image::ImageFault;
use iol_isdu::IsduFault;
use iol_master::MasterFault;
use iol_mode::Why;
use iol_mseq::MseqFault;
use iol_octets::OctetFault;
use iol_page::{CycleFault, Identity, PageFault};
use iol_port::PortFault;
use iol_script::ScriptFault;
use iol_segment::JoinFault;
use iol_sim::SimFault;
use std::fmt::Display;

/// Each fault by its number and its text, in the order of the functions below. The names and
/// numbers are those of docs/guide.md.
const TABLE: &str = "\
1 ReservedType
2 UnsupportedCode
3 BadLength
4 WrongLength
5 WrongType
6 BadChecksum
8 Revision
7 BadPdLength
2 UnsupportedCode
16 MemoryFull
17 EventForm
29 WrongImageLength
9 DataTooLong
10 Truncated
11 BadIsduLength
12 BadService
13 BadChkpdu
14 WrongAnswerKind
11 BadIsduLength
15 WrongCount
21 Full
22 JournalFull
23 TicketsSpent
24 OutOfMemory
25 UnknownTicket
26 NotYet
27 TakenAlready
28 Outstanding
36 NotInFlight
63 NoJournal
14 WrongAnswerKind
16 MemoryFull
24 OutOfMemory
29 WrongImageLength
37 OtherRequest
24 OutOfMemory
35 BadParam
24 OutOfMemory
18 NoWake
19 Lost
8 Revision
7 BadPdLength
2 UnsupportedCode
38 WrongDevice
40 Interleaved
39 BadCycleTime
29 WrongImageLength
34 NoLayout
21 Full
29 WrongImageLength
30 NoEvent
28 Outstanding
24 OutOfMemory
31 NoSuchPort
32 NoThread
33 DesksFull
24 OutOfMemory
32 NoThread
33 DesksFull
line 7: bad line
out of memory
line 7: bad line
input too long
read failed
write failed
out of memory
no thread
no desk
";

/// The rows so far, and whether memory was there for each of them.
#[derive(Drop)]
struct Table {
    rows: String,
    is_whole: bool,
}

impl Table {
    /// A row.
    fn add<F: Display>(&mut self, number: u8, fault: &F) {
        self.is_whole &= writeln!(&mut self.rows, "{number} {fault}").is_ok();
    }

    /// A row of a fault without a number.
    fn add_text<F: Display>(&mut self, fault: &F) {
        self.is_whole &= writeln!(&mut self.rows, "{fault}").is_ok();
    }
}

/// Faults of octets, messages, pages, events and images.
fn add_parts(table: &mut Table) {
    table.add(OctetFault::ReservedType.code(), &OctetFault::ReservedType);
    for fault in &[
        MseqFault::UnsupportedCode,
        MseqFault::BadLength,
        MseqFault::WrongLength,
        MseqFault::WrongType,
        MseqFault::BadChecksum,
    ] {
        table.add(fault.code(), fault);
    }
    for fault in &[
        PageFault::Revision(0x12),
        PageFault::BadPdLength,
        PageFault::UnsupportedCode,
    ] {
        table.add(fault.code(), fault);
    }
    table.add(MemoryFull.code(), &MemoryFull);
    table.add(EventForm.code(), &EventForm);
    table.add(
        ImageFault::WrongImageLength.code(),
        &ImageFault::WrongImageLength,
    );
}

/// Faults of requests and their segments, and of a book.
fn add_requests(table: &mut Table) {
    for fault in &[
        IsduFault::DataTooLong,
        IsduFault::Truncated,
        IsduFault::BadIsduLength,
        IsduFault::BadService,
        IsduFault::BadChkpdu,
        IsduFault::WrongAnswerKind,
    ] {
        table.add(fault.code(), fault);
    }
    for fault in &[JoinFault::BadIsduLength, JoinFault::WrongCount] {
        table.add(fault.code(), fault);
    }
    for fault in &[
        BookFault::Full,
        BookFault::JournalFull,
        BookFault::TicketsSpent,
        BookFault::OutOfMemory,
        BookFault::UnknownTicket,
        BookFault::NotYet,
        BookFault::TakenAlready,
        BookFault::Outstanding,
        BookFault::NotInFlight,
        BookFault::NoJournal,
    ] {
        table.add(fault.code(), fault);
    }
}

/// Faults of a device, its line, a cell, a link and an output.
fn add_ends(table: &mut Table) {
    for fault in &[
        DeviceFault::WrongAnswerKind,
        DeviceFault::MemoryFull,
        DeviceFault::OutOfMemory,
        DeviceFault::WrongImageLength,
        DeviceFault::OtherRequest,
    ] {
        table.add(fault.code(), fault);
    }
    for fault in &[SimFault::OutOfMemory, SimFault::BadParam] {
        table.add(fault.code(), fault);
    }
    table.add(CellFault::OutOfMemory.code(), &CellFault::OutOfMemory);
    for fault in &[
        Why::NoWake,
        Why::Lost,
        Why::Revision(0x12),
        Why::BadPdLength,
        Why::UnsupportedCode,
        Why::WrongDevice(Identity {
            vendor: 1,
            device: 2,
        }),
        Why::Interleaved,
    ] {
        table.add(fault.code(), fault);
    }
    table.add(CycleFault::BadCycleTime.code(), &CycleFault::BadCycleTime);
    for fault in &[OutputFault::WrongImageLength, OutputFault::NoLayout] {
        table.add(fault.code(), fault);
    }
}

/// Faults of ports, masters, clients and the program, and those that they hand on.
fn add_ports(table: &mut Table) {
    for fault in &[
        PortFault::Book(BookFault::Full),
        PortFault::Output(OutputFault::WrongImageLength),
        PortFault::NoEvent,
    ] {
        table.add(fault.code(), fault);
    }
    for fault in &[
        MasterFault::Port(PortFault::Book(BookFault::Outstanding)),
        MasterFault::OutOfMemory,
        MasterFault::NoSuchPort,
        MasterFault::NoThread,
        MasterFault::DesksFull,
    ] {
        table.add(fault.code(), fault);
    }
    for fault in &[
        ClientsFault::OutOfMemory,
        ClientsFault::NoThread,
        ClientsFault::DesksFull,
    ] {
        table.add(fault.code(), fault);
    }
    for fault in &[ScriptFault::Line(7), ScriptFault::OutOfMemory] {
        table.add_text(fault);
    }
    for fault in &[
        ProgramFault::Line(7),
        ProgramFault::TooLong,
        ProgramFault::ReadFailed,
        ProgramFault::WriteFailed,
        ProgramFault::OutOfMemory,
        ProgramFault::NoThread,
        ProgramFault::NoDesk,
    ] {
        table.add_text(fault);
    }
}

/// Refuses a name that is another's or is misspelt, and a fault that doesn't tell the one within.
#[test]
fn each_fault_has_its_number_and_text(rt: HostRuntime) {
    let mut table = Table {
        rows: String::new(rt.alloc()),
        is_whole: true,
    };
    add_parts(&mut table);
    add_requests(&mut table);
    add_ends(&mut table);
    add_ports(&mut table);
    assert!(rt; table.is_whole);
    assert!(rt; table.rows.as_str() == TABLE);
}
