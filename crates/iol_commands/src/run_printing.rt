//! What `run` prints for the answers to its calls, and for the device's record.
ghost use Rattle.std.specs.Prelude.{◌≡◌, Some};
ghost use Rattle.std.specs.Option.{option_copied};
ghost use Rattle.iol_script.specs.Printing.{Prints};
ghost use Rattle.iol_commands.specs.RunPrinted.{listed_text, place_text, printed_request, device_text};
ghost use Rattle.iol_commands.specs.RunPrinted.{outcome_text, ticket_text, collected_text};
ghost use Rattle.iol_commands.specs.RunPrinted.{image_text, code_text, event_text};
ghost use Rattle.iol_commands.specs.RunPrinted.{mode_name, why_name, why_text};
ghost use Rattle.iol_commands.specs.RunPrinted.{device_id_text, found_text, loss_text};
ghost use Rattle.iol_commands.specs.RunPrinted.{link_text, state_text};
ghost use Rattle.iol_commands.specs.RunPrinted.{book_fault_name, output_fault_name};
ghost use Rattle.iol_commands.specs.RunPrinted.{port_fault_name, refused_text};
ghost use Rattle.iol_commands.specs.RunPrinted.{counting_text, page_text};
ghost use Rattle.iol_commands.specs.RunPrinted.{drained_text, nothing_text, printed_answer};
ghost use Rattle.iol_commands.specs.RunPrinted.{carried_text, entries_text, record_text, away_text};
ghost use Rattle.iol_commands.specs.RunPlayed.{records_text};

use crate::counters_printing::{cause_name, print_counters};
use iol_app::{Mode, OutputFault, Status};
use iol_book::{BookFault, Outcome, Ticket};
use iol_device::{App, Carried};
use iol_event::Event;
use iol_image::Image;
use iol_isdu::{Answer, Place, Request};
use iol_mode::Why;
use iol_page::Page;
use iol_port::{Answered, Call, Counting, DrainCounts, PortFault};
use iol_print::{print_hexadecimal, print_octets};
use iol_sim::{Beside, Sim};
use std::alloc::{AllocError, Allocator};

/// The octets, each behind a space, or a dash where there is none.
fn print_listed<A: Allocator>(output: &mut String<A>, octets: &[u8]) -> Result<(), AllocError>
    ensures { Prints result output.old output.new (listed_text octets.now) }
{
    if octets.is_empty() {
        return output.push_str(" -");
    }
    print_octets(output, octets)
}

/// An index and a subindex.
pub fn print_place<A: Allocator>(output: &mut String<A>, place: Place) -> Result<(), AllocError>
    ensures { Prints result output.old output.new (place_text place) }
{
    let Place { index, sub } = place;
    write!(output, "{index} {sub}")
}

/// A request, with the octets of a write.
fn print_request<A: Allocator>(output: &mut String<A>, request: &Request) -> Result<(), AllocError>
    ensures { Prints result output.old output.new (printed_request request.now) }
{
    match request {
        Request::Read(place) => {
            output.push_str("read ")?;
            print_place(output, *place)
        }
        Request::Write(place, octets) => {
            output.push_str("write ")?;
            print_place(output, *place)?;
            print_listed(output, octets.as_slice())
        }
    }
}

/// What the device answered to a request.
fn print_device_answer<A: Allocator>(
    output: &mut String<A>,
    answer: &Answer,
) -> Result<(), AllocError>
    ensures { Prints result output.old output.new (device_text answer.now) }
{
    match answer {
        Answer::Read(octets) => {
            output.push_str("read")?;
            print_listed(output, octets.as_slice())
        }
        Answer::Written => output.push_str("written"),
        Answer::Refused(error, additional) => {
            output.push_str("refused")?;
            print_octets(output, &[*error, *additional])
        }
    }
}

/// How a request ended.
fn print_outcome<A: Allocator>(output: &mut String<A>, outcome: &Outcome) -> Result<(), AllocError>
    ensures { Prints result output.old output.new (outcome_text outcome.now) }
{
    match outcome {
        Outcome::Done(answer) => {
            output.push_str(" done ")?;
            print_device_answer(output, answer)
        }
        Outcome::Unknown(cause) => {
            output.push_str(" unknown ")?;
            output.push_str(cause_name(*cause))
        }
        Outcome::Withdrawn => output.push_str(" withdrawn"),
        Outcome::NoIsdu => output.push_str(" noisdu"),
    }
}

/// A ticket.
fn print_ticket<A: Allocator>(output: &mut String<A>, ticket: Ticket) -> Result<(), AllocError>
    ensures { Prints result output.old output.new (ticket_text ticket) }
{
    let number = ticket.0;
    write!(output, "ticket {number}")
}

/// The ticket that was collected, and its outcome. No other call hands one out.
fn print_collected<A: Allocator>(
    output: &mut String<A>,
    call: &Call,
    outcome: &Outcome,
) -> Result<(), AllocError>
    ensures { Prints result output.old output.new (collected_text call.now outcome.now) }
{
    if let Call::Collect(ticket) = call {
        print_ticket(output, *ticket)?;
        print_outcome(output, outcome)?;
        output.push_str("\n")?;
    }
    Ok(())
}

/// The octets of an image, or that there is none.
fn print_image<A: Allocator>(
    output: &mut String<A>,
    image: Option<&Image>,
) -> Result<(), AllocError>
    ensures { Prints result output.old output.new (image_text (option_copied image.entry)) }
{
    let Some(image) = image else {
        return output.push_str("image none\n");
    };
    output.push_str("image")?;
    print_octets(output, image.octets())?;
    output.push_str("\n")
}

/// A code in four hexadecimal digits.
fn print_code<A: Allocator>(output: &mut String<A>, code: u16) -> Result<(), AllocError>
    ensures { Prints result output.old output.new (code_text code) }
{
    let [high, low] = code.to_be_bytes();
    print_hexadecimal(output, high)?;
    print_hexadecimal(output, low)
}

/// An event's qualifier and its code.
fn print_event<A: Allocator>(output: &mut String<A>, event: Event) -> Result<(), AllocError>
    ensures { Prints result output.old output.new (event_text event) }
{
    output.push_str("event ")?;
    print_hexadecimal(output, event.qualifier)?;
    output.push_str(" ")?;
    print_code(output, event.code)
}

fn mode_name(mode: Mode) -> &'static str
    ensures { result.now ≡ mode_name mode }
{
    match mode {
        Mode::Down => "down",
        Mode::Startup => "startup",
        Mode::Preoperate => "preoperate",
        Mode::Operate => "operate",
    }
}

/// The name of the fault for which a link is down.
fn why_name(why: Why) -> &'static str
    ensures { result.now ≡ why_name why }
{
    match why {
        Why::NoWake => "NoWake",
        Why::Lost => "Lost",
        Why::Revision(_) => "Revision",
        Why::BadPdLength => "BadPdLength",
        Why::UnsupportedCode => "UnsupportedCode",
        Why::WrongDevice(_) => "WrongDevice",
        Why::Interleaved => "Interleaved",
    }
}

fn print_why<A: Allocator>(output: &mut String<A>, why: Option<Why>) -> Result<(), AllocError>
    ensures { Prints result output.old output.new (why_text why) }
{
    if let Some(why) = why {
        output.push_str(" ")?;
        output.push_str(why_name(why))?;
    }
    Ok(())
}

/// A DeviceID in six hexadecimal digits.
#[tactic(auto, using(crate::proofs::PrintedLemmas::joined))]
fn print_device_id<A: Allocator>(output: &mut String<A>, device: u32) -> Result<(), AllocError>
    ensures { Prints result output.old output.new (device_id_text device) }
{
    let [_, high, middle, low] = device.to_be_bytes();
    print_hexadecimal(output, high)?;
    print_hexadecimal(output, middle)?;
    print_hexadecimal(output, low)
}

/// The device that was found in the place of the expected one, if this is why.
#[tactic(auto, using(crate::proofs::PrintedLemmas::joined))]
fn print_found<A: Allocator>(output: &mut String<A>, why: Why) -> Result<(), AllocError>
    ensures { Prints result output.old output.new (found_text why) }
{
    let Why::WrongDevice(found) = why else {
        return Ok(());
    };
    output.push_str(" ")?;
    print_code(output, found.vendor)?;
    output.push_str(" ")?;
    print_device_id(output, found.device)
}

/// Why the last session ended.
#[tactic(auto, using(crate::proofs::PrintedLemmas::joined))]
fn print_loss<A: Allocator>(output: &mut String<A>, loss: Option<Why>) -> Result<(), AllocError>
    ensures { Prints result output.old output.new (loss_text loss) }
{
    let Some(why) = loss else {
        return output.push_str("last none\n");
    };
    output.push_str("last ")?;
    output.push_str(why_name(why))?;
    print_found(output, why)?;
    output.push_str("\n")
}

/// The mode of a link, and the fault for which it is down.
fn print_link<A: Allocator>(
    output: &mut String<A>,
    mode: Mode,
    why: Option<Why>,
) -> Result<(), AllocError>
    ensures { Prints result output.old output.new (link_text mode why) }
{
    output.push_str("status ")?;
    output.push_str(mode_name(mode))?;
    print_why(output, why)
}

/// A status.
fn print_state<A: Allocator>(output: &mut String<A>, status: Status) -> Result<(), AllocError>
    ensures { Prints result output.old output.new (state_text status) }
{
    print_link(output, status.mode, status.why)?;
    output.push_str(if status.event_form { " eventform" } else { "" })?;
    output.push_str("\n")
}

fn book_fault_name(fault: BookFault) -> &'static str
    ensures { result.now ≡ book_fault_name fault }
{
    match fault {
        BookFault::Full => "Full",
        BookFault::JournalFull => "JournalFull",
        BookFault::TicketsSpent => "TicketsSpent",
        BookFault::OutOfMemory => "OutOfMemory",
        BookFault::UnknownTicket => "UnknownTicket",
        BookFault::NotYet => "NotYet",
        BookFault::TakenAlready => "TakenAlready",
        BookFault::Outstanding => "Outstanding",
        BookFault::NotInFlight => "NotInFlight",
        BookFault::NoJournal => "NoJournal",
    }
}

fn output_fault_name(fault: OutputFault) -> &'static str
    ensures { result.now ≡ output_fault_name fault }
{
    match fault {
        OutputFault::WrongImageLength => "WrongImageLength",
        OutputFault::NoLayout => "NoLayout",
    }
}

/// The name of a refusal.
pub fn port_fault_name(fault: PortFault) -> &'static str
    ensures { result.now ≡ port_fault_name fault }
{
    match fault {
        PortFault::Book(fault) => book_fault_name(fault),
        PortFault::Output(fault) => output_fault_name(fault),
        PortFault::NoEvent => "NoEvent",
    }
}

/// The number and the name of a refusal.
fn print_refused<A: Allocator>(output: &mut String<A>, fault: PortFault) -> Result<(), AllocError>
    ensures { Prints result output.old output.new (refused_text fault) }
{
    let number = fault.code();
    let name = port_fault_name(fault);
    writeln!(output, "refused {number} {name}")
}

/// A call without an answer: a turn prints nothing.
fn print_nothing<A: Allocator>(output: &mut String<A>, call: &Call) -> Result<(), AllocError>
    ensures { Prints result output.old output.new (nothing_text call.now) }
{
    match call {
        Call::Turn => Ok(()),
        _ => output.push_str("ok\n"),
    }
}

/// Whether what a device is asked for counts now or later.
fn counting_line(counting: Counting) -> &'static str
    ensures { result.now ≡ counting_text counting }
{
    match counting {
        Counting::Now => "ok\n",
        Counting::Later => "ok later\n",
    }
}

/// The octets of a page, or that there is none.
fn print_page<A: Allocator>(output: &mut String<A>, page: Option<&Page>) -> Result<(), AllocError>
    ensures { Prints result output.old output.new (page_text (option_copied page.entry)) }
{
    let Some(page) = page else {
        return output.push_str("page none\n");
    };
    output.push_str("page")?;
    print_octets(output, page.octets())?;
    output.push_str("\n")
}

/// How many entries a drain handed out.
fn print_drained<A: Allocator>(
    output: &mut String<A>,
    drained: DrainCounts,
) -> Result<(), AllocError>
    ensures { Prints result output.old output.new (drained_text drained) }
{
    let DrainCounts { entries, restated } = drained;
    writeln!(output, "drained {entries} restated {restated}")
}

/// What a call answered.
pub fn print_answer<A: Allocator>(
    output: &mut String<A>,
    call: &Call,
    answered: &Answered,
) -> Result<(), AllocError>
    ensures { Prints result output.old output.new (printed_answer call.now answered.now) }
{
    match answered {
        Answered::Ticket(ticket) => {
            print_ticket(output, *ticket)?;
            output.push_str("\n")
        }
        Answered::Refused(fault) => print_refused(output, *fault),
        Answered::Outcome(outcome) => print_collected(output, call, outcome),
        Answered::Image(image) => print_image(output, image.as_ref()),
        Answered::Event(event) => {
            print_event(output, *event)?;
            output.push_str("\n")
        }
        Answered::Status(status) => print_state(output, *status),
        Answered::Archived(count) => writeln!(output, "archived {count}"),
        Answered::Drained(drained) => print_drained(output, *drained),
        Answered::Counts(counting) => output.push_str(counting_line(*counting)),
        Answered::Page(page) => print_page(output, page.as_ref()),
        Answered::Counters(counters) => print_counters(output, counters),
        Answered::LastLoss(loss) => print_loss(output, *loss),
        Answered::Nothing => print_nothing(output, call),
    }
}

/// A request that the device carried out, and its answer.
fn print_carried<A: Allocator>(output: &mut String<A>, entry: &Carried) -> Result<(), AllocError>
    ensures { Prints result output.old output.new (carried_text entry.now) }
{
    output.push_str("carried ")?;
    print_request(output, &entry.request)?;
    output.push_str(": ")?;
    print_device_answer(output, &entry.answer)?;
    output.push_str("\n")
}

fn print_entries<A: Allocator>(
    output: &mut String<A>,
    entries: &[Carried],
) -> Result<(), AllocError>
    ensures { Prints result output.old output.new (entries_text entries.now) }
{
    for entry in entries {
        print_carried(output, entry)?;
    }
    Ok(())
}

/// The records at the end: that of the device that is plugged in, and that of the other one.
pub(crate) fn print_records<P: App, C: Allocator + Copy, B: Beside<P>, A: Allocator>(
    output: &mut String<A>,
    sim: &Sim<P, C, B>,
) -> Result<(), AllocError>
    ensures { Prints result output.old output.new (records_text sim.now) }
{
    print_record(output, sim.device().carried())?;
    let Some(away) = sim.away() else {
        return Ok(());
    };
    print_away(output, away.carried())
}

/// The record of the device that isn't plugged in.
fn print_away<A: Allocator>(output: &mut String<A>, entries: &[Carried]) -> Result<(), AllocError>
    ensures { Prints result output.old output.new (away_text (Some entries.now)) }
{
    let count = entries.len();
    writeln!(output, "away {count}")?;
    print_entries(output, entries)
}

/// The device's record: how many requests it carried out, and each of them.
fn print_record<A: Allocator>(output: &mut String<A>, entries: &[Carried]) -> Result<(), AllocError>
    ensures { Prints result output.old output.new (record_text entries.now) }
{
    let count = entries.len();
    writeln!(output, "record {count}")?;
    print_entries(output, entries)
}
