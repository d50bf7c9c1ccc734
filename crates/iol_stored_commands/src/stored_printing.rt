//! What is printed for the answers to the calls of a stored port.
ghost use Rattle.std.specs.Prelude.{◌≡◌};
ghost use Rattle.std.specs.Option.{option_copied};
ghost use Rattle.iol_script.specs.Printing.{Prints};
ghost use Rattle.iol_stored_commands.specs.StoredPrinted.{stored_fault_name, stored_refusal_text, device_refusal_text, block_text, block_end_text, served_name, trouble_text, standing_text, set_text, saved_text, storage_answer_text, storage_text, plain_answer_text};

use crate::storage_answer::StorageAnswer;
use iol_commands::{cause_name, port_fault_name, print_answer, print_place};
use iol_port::{Answered, Call};
use iol_print::print_octets;
use iol_storage::{
    Agreement, BlockTicket, DownloadResult, Refusal, SetImage, SetNumber, StorageStanding,
    StoredFault, Trouble,
};
use std::alloc::{AllocError, Allocator};

/// The name of a refusal.
fn stored_fault_name(fault: StoredFault) -> &'static str
    ensures { result.now ≡ stored_fault_name fault }
{
    match fault {
        StoredFault::Port(fault) => port_fault_name(fault),
        StoredFault::OwnedIndex => "OwnedIndex",
        StoredFault::Storing => "Storing",
        StoredFault::UnknownBlock => "UnknownBlock",
        StoredFault::BlockNotOver => "BlockNotOver",
        StoredFault::SmallQueue => "SmallQueue",
        StoredFault::NoStanding => "NoStanding",
        StoredFault::Uncollected => "Uncollected",
        StoredFault::OtherSet => "OtherSet",
    }
}

/// The number and the name of a refusal.
pub(crate) fn print_refusal<A: Allocator>(
    output: &mut String<A>,
    fault: StoredFault,
) -> Result<(), AllocError>
    ensures { Prints result output.old output.new (stored_refusal_text fault) }
{
    let number = fault.code();
    let name = stored_fault_name(fault);
    writeln!(output, "refused {number} {name}")
}

/// What the device refused, and how.
fn print_device_refusal<A: Allocator>(
    output: &mut String<A>,
    refusal: Refusal,
) -> Result<(), AllocError>
    ensures { Prints result output.old output.new (device_refusal_text refusal) }
{
    output.push_str(" refused ")?;
    print_place(output, refusal.place)?;
    print_octets(output, &[refusal.error, refusal.additional])
}

/// How a block ended.
fn print_end<A: Allocator>(output: &mut String<A>, end: DownloadResult) -> Result<(), AllocError>
    ensures { Prints result output.old output.new (block_end_text end) }
{
    match end {
        DownloadResult::Applied => output.push_str(" applied"),
        DownloadResult::Refused(refusal) => print_device_refusal(output, refusal),
        DownloadResult::FlagSet => output.push_str(" flagset"),
        DownloadResult::NotApplied => output.push_str(" notapplied"),
        DownloadResult::Unknown(cause) => {
            output.push_str(" unknown ")?;
            output.push_str(cause_name(cause))
        }
        DownloadResult::NoIsdu => output.push_str(" noisdu"),
    }
}

/// A block.
fn print_block<A: Allocator>(output: &mut String<A>, block: BlockTicket) -> Result<(), AllocError>
    ensures { Prints result output.old output.new (block_text block) }
{
    let number = block.0;
    write!(output, "block {number}")
}

fn served_name(served: Agreement) -> &'static str
    ensures { result.now ≡ served_name served }
{
    match served {
        Agreement::Off => " off",
        Agreement::Unsupported => " unsupported",
        Agreement::Empty => " empty",
        Agreement::Same => " same",
        Agreement::Restored => " restored",
        Agreement::Fetched => " fetched",
    }
}

fn print_trouble<A: Allocator>(output: &mut String<A>, trouble: Trouble) -> Result<(), AllocError>
    ensures { Prints result output.old output.new (trouble_text trouble) }
{
    match trouble {
        Trouble::WrongIdentity => output.push_str(" wrongidentity"),
        Trouble::NoStorage => output.push_str(" nostorage"),
        Trouble::Locked => output.push_str(" locked"),
        Trouble::TooLarge => output.push_str(" toolarge"),
        Trouble::BadList => output.push_str(" badlist"),
        Trouble::Refused(refusal) => print_device_refusal(output, refusal),
        Trouble::Attempts => output.push_str(" attempts"),
    }
}

/// What came of Data Storage in a session.
fn print_standing<A: Allocator>(
    output: &mut String<A>,
    standing: StorageStanding,
) -> Result<(), AllocError>
    ensures { Prints result output.old output.new (standing_text standing) }
{
    match standing {
        StorageStanding::Awaited => output.push_str("standing awaited"),
        StorageStanding::Served(served) => {
            output.push_str("standing")?;
            output.push_str(served_name(served))
        }
        StorageStanding::Trouble(trouble) => {
            output.push_str("standing trouble")?;
            print_trouble(output, trouble)
        }
        StorageStanding::Released(trouble) => {
            output.push_str("standing released")?;
            print_trouble(output, trouble)
        }
    }
}

/// The octets of a set, or that there is none.
fn print_set<A: Allocator>(
    output: &mut String<A>,
    image: Option<&SetImage>,
) -> Result<(), AllocError>
    ensures { Prints result output.old output.new (set_text (option_copied image.entry)) }
{
    let Some(image) = image else {
        return output.push_str("set none");
    };
    output.push_str("set")?;
    print_octets(output, image.as_slice())
}

/// The number of the set that was saved, or that none waited.
fn print_saved<A: Allocator>(
    output: &mut String<A>,
    saved: Option<SetNumber>,
) -> Result<(), AllocError>
    ensures { Prints result output.old output.new (saved_text saved) }
{
    let Some(SetNumber(number)) = saved else {
        return output.push_str("saved none");
    };
    write!(output, "saved {number}")
}

/// What a call answered that a plain port hasn't, without the line's end.
fn print_stored<A: Allocator>(
    output: &mut String<A>,
    answer: &StorageAnswer,
) -> Result<(), AllocError>
    ensures { Prints result output.old output.new (storage_answer_text answer.now) }
{
    match answer {
        StorageAnswer::Block(block) => print_block(output, *block),
        StorageAnswer::Outcome(block, end) => {
            print_block(output, *block)?;
            print_end(output, *end)
        }
        StorageAnswer::Standing(standing) => print_standing(output, *standing),
        StorageAnswer::Backup(image) => print_set(output, image.as_ref()),
        StorageAnswer::Saved(saved) => print_saved(output, *saved),
        StorageAnswer::NoSet => output.push_str("refused 44 NoSet"),
        StorageAnswer::Nothing => output.push_str("ok"),
    }
}

/// What a call answered that a plain port hasn't.
pub(crate) fn print_storage_answer<A: Allocator>(
    output: &mut String<A>,
    answer: &Result<StorageAnswer, StoredFault>,
) -> Result<(), AllocError>
    ensures { Prints result output.old output.new (storage_text answer.now) }
{
    match answer {
        Ok(answer) => {
            print_stored(output, answer)?;
            output.push_str("\n")
        }
        Err(fault) => print_refusal(output, *fault),
    }
}

/// What a call answered that a plain port has, too.
pub(crate) fn print_port_answer<A: Allocator>(
    output: &mut String<A>,
    call: &Call,
    answer: &Result<Answered, StoredFault>,
) -> Result<(), AllocError>
    ensures { Prints result output.old output.new (plain_answer_text call.now answer.now) }
{
    match answer {
        Ok(answered) => print_answer(output, call, answered),
        Err(fault) => print_refusal(output, *fault),
    }
}
