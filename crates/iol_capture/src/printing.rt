//! What is printed of a judged capture.
ghost use Rattle.std.specs.Prelude.{◌≡◌, IfOk, codes};
ghost use Rattle.std.specs.String.{string_bytes};
ghost use Rattle.iol_script.specs.Printing.{Prints};
ghost use Rattle.iol_capture.specs.Findings.{are_named, at_rate_text, because_text, blamed_text, count_text, doubt_text, fault_text, finding_of, finding_text, from_text, honest_text, kind_text, kinds_text, master_verdict_text, odd_texts, open_text, rate_word, reason_text, unsure_text, verdict_text};

use crate::judgement::{ExchangeCounts, Judgement, OddExchange};
use crate::spacing::RateDoubt;
use crate::watching::CallWatch;
use iol_judge::{Blame, Kinds, MasterVerdict, Open, Reason, Verdict};
use iol_link::Rate;
use std::alloc::{AllocError, Allocator};

/// Why the master's mode isn't known.
const UNSEEN_WAKE: &str = "the read there may be behind a wake-up request that isn't shown";

/// The same, behind damage.
const UNHEARD: &str = "octets before it were passed over";

/// What a judge found in a capture.
#[derive(Clone, Copy, Debug, PartialEq, Eq)]
pub enum Finding {
    /// Nothing speaks against a device by the rules.
    Honest,
    /// The same, but the master isn't by the rules.
    MasterAtFault,
    /// No device by the rules could have brought it.
    NotHonest,
    /// From some call on nothing can be said, or nothing was judged.
    CantSay,
}

impl Judgement {
    /// What was found.
    pub fn finding(&self) -> Finding
        ensures { result ≡ finding_of self.now }
    {
        match self.judge.verdict() {
            Verdict::Honest if self.watching.is_surely_blamed() => Finding::MasterAtFault,
            Verdict::Honest => Finding::Honest,
            Verdict::NotHonest(..) => Finding::NotHonest,
            Verdict::Unjudged | Verdict::CantSay(..) => Finding::CantSay,
        }
    }

    /// What was found, in a line of text. Before it the first 100 odd exchanges; how many exchanges
    /// aren't judged, lines were skipped and octets passed over, where some are; why the rate can't
    /// be the one that was given, where the octets' times say so; of the master the
    /// first fault in the whole capture, whatever was found of the device; and of which kinds the
    /// device may be, where it may be of some, and not of all four. Behind it how many are odd,
    /// where some are.
    pub fn text<A: Allocator>(&self, alloc: A) -> Result<String<A>, AllocError>
        ensures { IfOk result (λ text. string_bytes text ≡ finding_text self.now) }
    {
        let mut output = String::new(alloc);
        print_odd(&mut output, &self.odd)?;
        print_count(&mut output, "unjudged ", self.counts.unjudged)?;
        print_count(&mut output, "lines skipped ", self.skipped)?;
        print_count(&mut output, "octets passed over ", self.passed_over)?;
        print_doubt(&mut output, self.rate_doubt)?;
        print_master(&mut output, &self.watching)?;
        print_kinds(&mut output, &self.judge.kinds())?;
        print_verdict(
            &mut output,
            self.judge.verdict(),
            self.decided,
            &self.counts,
        )?;
        print_count(&mut output, "odd ", self.judge.oddities())?;
        Ok(output)
    }
}

/// Odd exchanges, a line each.
fn print_odd<A: Allocator>(
    output: &mut String<A>,
    exchanges: &[OddExchange],
) -> Result<(), AllocError>
    ensures { Prints result output.old output.new (odd_texts exchanges.now) }
{
    for odd in exchanges {
        print_because(
            output,
            odd.call,
            " odd: ",
            odd.reason.code(),
            reason_text(odd.reason),
        )?;
    }
    Ok(())
}

/// A count behind its name, where it isn't 0.
fn print_count<A: Allocator>(
    output: &mut String<A>,
    name: &str,
    count: u64,
) -> Result<(), AllocError>
    ensures { Prints result output.old output.new (count_text name.now count) }
{
    if count == 0 {
        return Ok(());
    }
    writeln!(output, "{name}{count}")
}

/// Why the rate can't be the one that was given, where that is known.
fn print_doubt<A: Allocator>(
    output: &mut String<A>,
    doubt: Option<RateDoubt>,
) -> Result<(), AllocError>
    ensures { Prints result output.old output.new (doubt_text doubt) }
{
    match doubt {
        None => Ok(()),
        Some(RateDoubt::Overlap(rate, likely)) => {
            print_at_rate(output, rate, " the octets overlap", likely)
        }
        Some(RateDoubt::Apart(rate, likely)) => {
            print_at_rate(output, rate, " the octets are far apart", likely)
        }
    }
}

/// A rate, why it can't be that of the line, and the one that is likely.
fn print_at_rate<A: Allocator>(
    output: &mut String<A>,
    rate: Rate,
    why: &str,
    likely: Rate,
) -> Result<(), AllocError>
    ensures { Prints result output.old output.new (at_rate_text rate why.now likely) }
{
    let (given, other) = (rate_word(rate), rate_word(likely));
    writeln!(output, "at {given}{why}; is it {other}?")
}

/// The name of a rate.
fn rate_word(rate: Rate) -> &'static str
    ensures { result.now ≡ rate_word rate }
{
    match rate {
        Rate::Com1 => "COM1",
        Rate::Com2 => "COM2",
        Rate::Com3 => "COM3",
    }
}

/// What is said of the master.
fn print_master<A: Allocator>(
    output: &mut String<A>,
    watching: &CallWatch,
) -> Result<(), AllocError>
    ensures { Prints result output.old output.new (master_verdict_text watching.now) }
{
    match watching.verdict() {
        MasterVerdict::Unjudged => {
            output.push_str("master can't be judged: no wake-up request was made\n")
        }
        MasterVerdict::ByTheRules => output.push_str("master by the rules\n"),
        MasterVerdict::NotByTheRules(_, fault) => {
            print_blamed(output, fault, watching.call, watching)
        }
    }
}

/// The master's first fault, in this call, where its mode is known.
fn print_blamed<A: Allocator>(
    output: &mut String<A>,
    fault: Blame,
    call: u64,
    watching: &CallWatch,
) -> Result<(), AllocError>
    ensures { Prints result output.old output.new
        (blamed_text fault call watching.now.unsure watching.now.unheard) }
{
    if let Some(from) = watching.unsure {
        return print_unsure(output, from, UNSEEN_WAKE);
    }
    if let Some(from) = watching.unheard {
        return print_unsure(output, from, UNHEARD);
    }
    output.push_str("master not by the rules at ")?;
    print_because(output, call, ": ", fault.code(), fault_text(fault))
}

/// The call from which on nothing is said of the master, and why.
fn print_unsure<A: Allocator>(
    output: &mut String<A>,
    from: u64,
    why: &str,
) -> Result<(), AllocError>
    ensures { Prints result output.old output.new (unsure_text from why.now) }
{
    output.push_str("master can't be judged from ")?;
    print_from(output, from, why)
}

/// A call, and why nothing is said from it on.
fn print_from<A: Allocator>(output: &mut String<A>, from: u64, why: &str) -> Result<(), AllocError>
    ensures { Prints result output.old output.new (from_text from why.now) }
{
    writeln!(output, "{from} on: {why}")
}

/// Of which kinds the device may be, where it may be of some, and not of all four.
fn print_kinds<A: Allocator>(output: &mut String<A>, kinds: &Kinds) -> Result<(), AllocError>
    ensures { Prints result output.old output.new (kinds_text kinds.now) }
{
    if !are_named(kinds) {
        return Ok(());
    }
    let Kinds {
        first_left,
        first_sent,
        last_left,
        last_sent,
    } = *kinds;
    print_kind(output, first_left, false, "first keeps")?;
    print_kind(output, first_sent, first_left, "first forgets")?;
    print_kind(output, last_left, first_left || first_sent, "last keeps")?;
    print_kind(
        output,
        last_sent,
        first_left || first_sent || last_left,
        "last forgets",
    )?;
    output.push_str("\n")
}

/// Whether these are some kinds, and not all four.
fn are_named(kinds: &Kinds) -> bool
    ensures { result ≡ are_named kinds.now }
{
    let some = kinds.first_left || kinds.first_sent || kinds.last_left || kinds.last_sent;
    let all = kinds.first_left && kinds.first_sent && kinds.last_left && kinds.last_sent;
    some && !all
}

/// The name of a kind, if the device may be of it, behind that of another one or not.
fn print_kind<A: Allocator>(
    output: &mut String<A>,
    may_be: bool,
    named: bool,
    name: &str,
) -> Result<(), AllocError>
    ensures { Prints result output.old output.new (kind_text may_be named name.now) }
{
    if !may_be {
        return Ok(());
    }
    let joint = if named { " or " } else { "kind " };
    write!(output, "{joint}{name}")
}

/// The verdict, with the call on which it rests.
fn print_verdict<A: Allocator>(
    output: &mut String<A>,
    verdict: Verdict,
    call: u64,
    counts: &ExchangeCounts,
) -> Result<(), AllocError>
    ensures { Prints result output.old output.new (verdict_text verdict call counts.now) }
{
    match verdict {
        Verdict::Unjudged => output.push_str("can't say: no wake-up request was answered\n"),
        Verdict::Honest => print_honest(output, counts.judged, counts.lost),
        Verdict::NotHonest(_, reason) => {
            output.push_str("not honest at ")?;
            print_because(output, call, ": ", reason.code(), reason_text(reason))
        }
        Verdict::CantSay(_, why) => {
            output.push_str("can't say from ")?;
            print_because(output, call, " on: ", why.code(), open_text(why))
        }
    }
}

/// How many exchanges were judged, and in how many of them nothing came back.
fn print_honest<A: Allocator>(
    output: &mut String<A>,
    judged: u64,
    lost: u64,
) -> Result<(), AllocError>
    ensures { Prints result output.old output.new (honest_text judged lost) }
{
    write!(output, "honest {judged} exchanges")?;
    writeln!(output, ", {lost} lost")
}

/// A call of the wire, and the number of a reason, with its text.
fn print_because<A: Allocator>(
    output: &mut String<A>,
    call: u64,
    joint: &str,
    number: u8,
    text: &str,
) -> Result<(), AllocError>
    ensures { Prints result output.old output.new (because_text call joint.now number text.now) }
{
    writeln!(output, "{call}{joint}{number} {text}")
}

// What each reason means, with its rule.
const NOT_TAKEN: &str =
    "NotTaken: a reply to a message that the device doesn't take in its mode (DEV-2)";

const REPLY_LENGTH: &str =
    "ReplyLength: a reply of another length than the layout of its mode gives (MSG-4)";

const STATUS_WITHOUT_DATA: &str =
    "StatusWithoutData: PD status 1 in a layout without process data in (DEV-8)";

const INVALID_NOT_ZERO: &str =
    "InvalidNotZero: PD status 1 with process data in that isn't zeros (DEV-8)";

const FLAG_AT_CONFIRM: &str =
    "FlagAtConfirm: Event flag 1 in the reply to the confirm of events (EVT-2)";

const FLAG_GONE: &str = "FlagGone: Event flag 0 before the events were confirmed (EVT-2)";

const STATUS_CODE: &str =
    "StatusCode: another StatusCode than that of the events that the device shows (EVT-4)";

const EVENT_OCTET: &str =
    "EventOctet: an octet of an event that is another than before, or of none and not 0 (EVT-4)";

const PAGE_CHANGED: &str = "PageChanged: an octet of the page that was another before (PAGE-1)";

const PAGE_ZERO: &str = "PageZero: a page address outside 01 to 0B that isn't 0 (PAGE-1)";

const CYCLE_TIME: &str = "CycleTime: page address 01 isn't what was written or read there (DEV-9)";

const PROCESS_NOT_ZERO: &str =
    "ProcessNotZero: a read of the process channel that isn't zeros (DEV-7)";

const REST_NOT_ZERO: &str = "RestNotZero: octets behind the first that aren't zeros (MSG-6)";

const NO_ANSWER_DUE: &str = "NoAnswerDue: an answer where no request was begun (DEV-14)";

const NOT_BUSY: &str = "NotBusy: a first reply behind a whole request that isn't busy (DEV-12)";

const BUSY_AGAIN: &str = "BusyAgain: busy, though the answer's first segment was read (DEV-13)";

const ANSWER_KIND: &str = "AnswerKind: an answer that is none to such a request (ISDU-4, ISDU-8)";

const ANSWER_LENGTH: &str = "AnswerLength: an answer of a total length that no text has (ISDU-2)";

const ANSWER_SUM: &str = "AnswerSum: an answer of which the XOR of all octets isn't 0 (ISDU-1)";

const ANSWER_PADDING: &str = "AnswerPadding: octets behind an answer that aren't zeros (SEG-1)";

const SEGMENT_CHANGED: &str =
    "SegmentChanged: a segment of an answer that was another before (DEV-13)";

/// The name of a reason, what a device by the rules doesn't send, and the rule.
fn reason_text(reason: Reason) -> &'static str
    ensures { result.now ≡ reason_text reason }
{
    match reason {
        Reason::NotTaken => NOT_TAKEN,
        Reason::ReplyLength => REPLY_LENGTH,
        Reason::StatusWithoutData => STATUS_WITHOUT_DATA,
        Reason::InvalidNotZero => INVALID_NOT_ZERO,
        Reason::FlagAtConfirm => FLAG_AT_CONFIRM,
        Reason::FlagGone => FLAG_GONE,
        Reason::StatusCode => STATUS_CODE,
        Reason::EventOctet => EVENT_OCTET,
        Reason::PageChanged => PAGE_CHANGED,
        Reason::PageZero => PAGE_ZERO,
        Reason::CycleTime => CYCLE_TIME,
        Reason::ProcessNotZero => PROCESS_NOT_ZERO,
        Reason::RestNotZero => REST_NOT_ZERO,
        Reason::NoAnswerDue => NO_ANSWER_DUE,
        Reason::NotBusy => NOT_BUSY,
        Reason::BusyAgain => BUSY_AGAIN,
        Reason::AnswerKind => ANSWER_KIND,
        Reason::AnswerLength => ANSWER_LENGTH,
        Reason::AnswerSum => ANSWER_SUM,
        Reason::AnswerPadding => ANSWER_PADDING,
        Reason::SegmentChanged => SEGMENT_CHANGED,
    }
}

/// Why nothing can be said.
fn open_text(why: Open) -> &'static str
    ensures { result.now ≡ open_text why }
{
    match why {
        Open::PageUnread => {
            "PageUnread: a mode was asked for before the page's octets 03 to 06 were read (PAGE-5)"
        }
        Open::PageRefused => "PageRefused: the page's octets 03 to 06 ask for no layouts (PAGE-5)",
        Open::TooManyStates => "TooManyStates: too many states of a device are possible",
    }
}

/// The name of a fault of the master, what none by the rules sends, and the rules.
fn fault_text(fault: Blame) -> &'static str
    ensures { result.now ≡ fault_text fault }
{
    match fault {
        Blame::WakeDue => { "WakeDue: a message where a wake-up request was due (LINK-1, LINK-3)" }
        Blame::NotRepeated => {
            "NotRepeated: another message than the one that had no good reply (LINK-2)"
        }
        Blame::NotStartUp => {
            "NotStartUp: a channel, command or cycle time that the mode doesn't allow there (LINK-6, LINK-7, LINK-8, LINK-10, LINK-12)"
        }
        Blame::NotWellFormed => {
            "NotWellFormed: octets that are no message in the layout of the mode (MSG-3, LINK-9)"
        }
        Blame::OutputOctets => {
            "OutputOctets: other process data out, though the device's output isn't valid (PD-4, PD-5, PD-6)"
        }
        Blame::NotDue => {
            "NotDue: an ISDU or event message that nothing asks for (REQ-3, REQ-4, REQ-5, REQ-7, EVT-5, EVT-6, EVT-8)"
        }
        Blame::RequestText => {
            "RequestText: segments that are the beginning of no request, or go on behind one (ISDU-1, ISDU-2, ISDU-3, SEG-1)"
        }
        Blame::NotInLine => { "NotInLine: a COUNT that isn't the one behind the last (SEG-2)" }
    }
}
