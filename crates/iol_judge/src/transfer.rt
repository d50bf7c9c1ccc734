//! What is known of an ISDU transfer.
ghost use Rattle.std.specs.Prelude.{◌≡◌, ◌≤◌, ◌++◌, None, Some};
ghost use Rattle.iol_isdu.specs.Parse.{request_of};
ghost use Rattle.iol_judge.specs.declared.transfer.Transfer.TheVariants.{Quiet};
ghost use Rattle.iol_segment.specs.Join.{next_count};
ghost use Rattle.iol_far.specs.Codec.{flow_of};
ghost use Rattle.iol_judge.specs.Transfers.{answered_read, asked_repeated, transfer_of_request, count_read, count_written, covers_transfer, first_resent, goes_further, is_apart_at, is_quiet, transfer_fault, or_ended, perhaps_updated, transfer_of_octets, transfer_receiving, resent, start_read, transfer_updated_by, transfer_after, transfer_on, transfer_unknown, whole_read};

use crate::answer::MOST_OBSERVED;
use crate::partial::{Further, PartialAnswer, is_busy};
use crate::reason::Reason;
use arrayvec::ArrayVec;
use iol_far::{HandsOver, Kind, Recalls};
use iol_isdu::{IsduFault, Request, Text, read_request, total_of};
use iol_mseq::{MasterView, ReplyView};
use iol_octets::{Channel, Mc, are_zeros, segment_number};
use std::mem::replace;

/// The address of START on the ISDU channel. Below it are those of COUNT.
const START: u8 = 0x10;

/// How many octets the longest text has.
const LONGEST: usize = 238;

/// What is known of the ISDU transfer of a device. A request is a read, or a write.
#[derive(Debug, Drop)]
pub(crate) enum Transfer {
    /// None is under way.
    Quiet,
    /// The text of a request comes: its octets so far, and the last COUNT.
    Receiving(Text, Option<u8>),
    /// The text is whole: whether it is a read, and the last COUNT. Where a device hands it over
    /// at the last segment the application has it, and may have answered.
    Whole(bool, Option<u8>),
    /// The application has the request, and may have answered; with the last COUNT.
    Handed(bool, Option<u8>),
    /// So it is, or the answer's first segment was sent.
    Asked(bool, Option<u8>),
    /// A segment of the answer was sent.
    Answered(PartialAnswer),
    /// So it was, or the answer had no more segments, and none is under way.
    Perhaps(PartialAnswer),
    /// Any of these.
    Free,
}

impl Transfer {
    /// Whether it allows all that the other does.
    pub fn covers(&self, other: &Transfer) -> bool
        ensures { result ≡ covers_transfer self.now other.now }
    {
        match (self, other) {
            (Transfer::Free, _) | (Transfer::Quiet, Transfer::Quiet) => true,
            (Transfer::Receiving(text, last), Transfer::Receiving(others, other)) => {
                text.as_slice() == others.as_slice() && last == other
            }
            (Transfer::Whole(read, last), Transfer::Whole(reads, other))
            | (Transfer::Handed(read, last), Transfer::Handed(reads, other))
            | (
                Transfer::Asked(read, last),
                Transfer::Handed(reads, other) | Transfer::Asked(reads, other),
            ) => { read == reads && last == other }
            (Transfer::Asked(read, _), Transfer::Answered(partial)) => PartialAnswer::none(
                *read,
            ).is(partial),
            (Transfer::Answered(partial), Transfer::Answered(other))
            | (Transfer::Perhaps(partial), Transfer::Answered(other) | Transfer::Perhaps(other)) =>
                { partial.is(other) }
            (Transfer::Perhaps(_), Transfer::Quiet) => true,
            _ => false,
        }
    }

    pub fn copy(&self) -> Transfer
        ensures { result ≡ self.now }
    {
        match self {
            Transfer::Quiet => Transfer::Quiet,
            Transfer::Receiving(text, last) => { Transfer::Receiving(text.clone().unwrap(), *last) }
            Transfer::Whole(read, last) => Transfer::Whole(*read, *last),
            Transfer::Handed(read, last) => Transfer::Handed(*read, *last),
            Transfer::Asked(read, last) => Transfer::Asked(*read, *last),
            Transfer::Answered(partial) => Transfer::Answered(*partial),
            Transfer::Perhaps(partial) => Transfer::Perhaps(*partial),
            Transfer::Free => Transfer::Free,
        }
    }

    /// Whether devices with this transfer may do different things on a read or a write of the ISDU
    /// channel, by their kind.
    #[tactic(auto, unfolding(iol_far::specs::Codec::flow_of))]
    pub fn is_apart(&self, mc: Mc) -> bool
        ensures { result ≡ is_apart_at self.now mc.read (flow_of mc.address) }
    {
        match self {
            Transfer::Whole(..) => mc.read && mc.address == START,
            Transfer::Handed(_, last) => !mc.read
                && *last == Some(mc.address)
                && mc.address < START,
            Transfer::Asked(_, last) if !mc.read => {
                *last == Some(mc.address) && mc.address < START
            }
            Transfer::Asked(..) => mc.address == START,
            Transfer::Answered(partial) | Transfer::Perhaps(partial) if mc.read => {
                mc.address == START || (mc.address < START && partial.was_sent(mc.address))
            }
            _ => false,
        }
    }

    /// Once a message was worked by a device of this kind, by whether it has ISDU, where that is
    /// known, and the size of a segment.
    #[tactic(auto, unfolding(iol_far::specs::Codec::flow_of))]
    pub fn pass(&mut self, kind: Kind, isdu: Option<bool>, size: u8, message: &MasterView<'_>)
        ensures { self.new ≡ transfer_after kind isdu size self.old message.now.mc.channel
            message.now.mc.read (flow_of message.now.mc.address) message.now.od.items }
    {
        let mc = message.mc();
        if mc.channel != Channel::Isdu {
            return;
        }
        if mc.address > START {
            self.quieten();
            return;
        }
        let old = replace(self, Transfer::Quiet);
        *self = match isdu {
            Some(true) => old.moved(kind, size, message),
            Some(false) => Transfer::Quiet,
            None => old.perhaps(mc),
        };
    }

    /// None is under way any more.
    fn quieten(&mut self)
        ensures { self.new ≡ Quiet }
    {
        if !self.is_quiet() {
            *self = Transfer::Quiet;
        }
    }

    /// Once a device without known layouts worked a message of a transfer.
    #[tactic(auto, unfolding(iol_far::specs::Codec::flow_of))]
    fn perhaps(self, mc: Mc) -> Transfer
        requires { mc.address ≤ START }
        ensures { result ≡ transfer_unknown self mc.read (flow_of mc.address) }
    {
        if self.is_quiet() && (mc.read || mc.address < START) {
            Transfer::Quiet
        } else {
            Transfer::Free
        }
    }

    /// Once a device with ISDU worked a message of a transfer.
    #[tactic(auto, unfolding(iol_far::specs::Codec::flow_of))]
    fn moved(self, kind: Kind, size: u8, message: &MasterView<'_>) -> Transfer
        requires { message.now.mc.address ≤ START }
        ensures { result ≡ transfer_on kind size self message.now.mc.read
            (flow_of message.now.mc.address) message.now.od.items }
    {
        let mc = message.mc();
        match (mc.read, mc.address == START) {
            (true, true) => self.start_read(kind, size),
            (true, false) => self.count_read(kind.recalls, size, mc.address),
            (false, true) => received(message.od(), None),
            (false, false) => self.count_written(kind.hands_over, mc.address, message),
        }
    }

    fn count_written(self, hands_over: HandsOver, count: u8, message: &MasterView<'_>) -> Transfer
        ensures { result ≡ count_written hands_over self count message.now.od.items }
    {
        let by_segment = hands_over == HandsOver::LastSegment;
        match self {
            Transfer::Receiving(text, last) => {
                if last == Some(count) {
                    Transfer::Receiving(text, last)
                } else if count == next_count(last) {
                    received_more(&text, message, count)
                } else {
                    Transfer::Quiet
                }
            }
            Transfer::Whole(read, last) if last == Some(count) => Transfer::Whole(read, last),
            Transfer::Handed(read, last) if by_segment && last == Some(count) => {
                Transfer::Handed(read, last)
            }
            Transfer::Asked(_, last) if by_segment && last == Some(count) => Transfer::Free,
            Transfer::Free => Transfer::Free,
            _ => Transfer::Quiet,
        }
    }

    fn start_read(self, kind: Kind, size: u8) -> Transfer
        ensures { result ≡ start_read kind size self }
    {
        match self {
            Transfer::Whole(read, last) => whole_read(kind.hands_over, read, last),
            Transfer::Handed(read, last) => Transfer::Asked(read, last),
            Transfer::Asked(read, last) => asked_repeated(kind.recalls, read, last),
            Transfer::Answered(partial) => first_resent(kind.recalls, size, partial),
            Transfer::Perhaps(partial) => first_resent(kind.recalls, size, partial).or_ended(),
            Transfer::Free => Transfer::Free,
            _ => Transfer::Quiet,
        }
    }

    fn count_read(self, recalls: Recalls, size: u8, count: u8) -> Transfer
        ensures { result ≡ count_read recalls size self count }
    {
        match self {
            Transfer::Answered(partial) => answered_read(recalls, size, partial, count),
            Transfer::Perhaps(partial) => answered_read(recalls, size, partial, count).or_ended(),
            Transfer::Asked(read, _) => {
                answered_read(recalls, size, PartialAnswer::none(read), count).or_ended()
            }
            Transfer::Free => Transfer::Free,
            _ => Transfer::Quiet,
        }
    }

    /// So it is, or the answer had ended before.
    fn or_ended(self) -> Transfer
        ensures { result ≡ or_ended self }
    {
        match self {
            Transfer::Answered(partial) => Transfer::Perhaps(partial),
            other => other,
        }
    }

    fn is_quiet(&self) -> bool
        ensures { result ≡ is_quiet self.now }
    {
        matches!(self, Transfer::Quiet)
    }

    /// Why a read of the ISDU channel can't bring this reply, none where it can.
    pub fn fault(&self, reply: &ReplyView<'_>) -> Option<Reason>
        ensures { result ≡ transfer_fault self.now reply.now.od.items }
    {
        let od = reply.od();
        match self {
            Transfer::Handed(..) if is_busy(od) => None,
            Transfer::Handed(..) => Some(Reason::NotBusy),
            Transfer::Asked(..) if is_busy(od) => None,
            Transfer::Asked(read, _) => PartialAnswer::none(*read).fault(reply),
            // A read leaves no text whole.
            Transfer::Free | Transfer::Whole(..) => None,
            Transfer::Answered(partial) => partial.fault(reply),
            Transfer::Perhaps(_) if are_zeros(od) => None,
            Transfer::Perhaps(partial) => partial.fault(reply),
            _ if are_zeros(od) => None,
            _ => Some(Reason::NoAnswerDue),
        }
    }

    /// A read of the ISDU channel brought this reply.
    pub fn hear(&mut self, reply: &ReplyView<'_>)
        ensures { self.new ≡ transfer_updated_by self.old reply.now.od.items }
    {
        if matches!(
            self,
            Transfer::Asked(..) | Transfer::Answered(_) | Transfer::Perhaps(_)
        ) {
            let old = replace(self, Transfer::Quiet);
            *self = old.updated(reply);
        }
    }

    /// Once it did.
    fn updated(self, reply: &ReplyView<'_>) -> Transfer
        ensures { result ≡ transfer_updated_by self reply.now.od.items }
    {
        match self {
            Transfer::Asked(read, last) if is_busy(reply.od()) => Transfer::Handed(read, last),
            Transfer::Asked(read, _) => Transfer::Answered(PartialAnswer::none(read).with(reply)),
            Transfer::Answered(partial) => Transfer::Answered(partial.with(reply)),
            Transfer::Perhaps(partial) => perhaps_updated(partial, reply),
            other => other,
        }
    }
}

/// A START read behind a whole text: a device that handed the request over before may have
/// answered.
fn whole_read(hands_over: HandsOver, read: bool, last: Option<u8>) -> Transfer
    ensures { result ≡ whole_read hands_over read last }
{
    match hands_over {
        HandsOver::FirstRead => Transfer::Handed(read, last),
        HandsOver::LastSegment => Transfer::Asked(read, last),
    }
}

/// A START read behind another, where the answer's first segment may have been sent.
fn asked_repeated(recalls: Recalls, read: bool, last: Option<u8>) -> Transfer
    ensures { result ≡ asked_repeated recalls read last }
{
    match recalls {
        Recalls::UntilLeft => Transfer::Asked(read, last),
        Recalls::UntilSent => Transfer::Free,
    }
}

/// A read under COUNT, of an answer of which a segment was sent.
fn answered_read(recalls: Recalls, size: u8, partial: PartialAnswer, count: u8) -> Transfer
    ensures { result ≡ answered_read recalls size partial count }
{
    if partial.was_sent(count) {
        resent(recalls, size, partial, partial.at, partial.count)
    } else if partial.is_next(count) {
        let next = partial.at as usize + size as usize;
        goes_further(next, partial, next, count)
    } else {
        Transfer::Quiet
    }
}

/// This segment of an answer is sent again. A device that recalls its answer until it was sent has
/// it only while there is a segment behind the one sent last.
fn resent(recalls: Recalls, size: u8, partial: PartialAnswer, at: u16, count: u8) -> Transfer
    requires { at ≤ partial.at }
    ensures { result ≡ resent recalls size partial (record partial { at = at; count = count }) }
{
    match recalls {
        Recalls::UntilLeft => Transfer::Answered(partial.going_on(at, count)),
        Recalls::UntilSent => {
            let next = partial.at as usize + size as usize;
            goes_further(next, partial, at as usize, count)
        }
    }
}

/// This segment of an answer was sent, where it goes on at the next place; else none is under way.
fn goes_further(end: usize, part: PartialAnswer, at: usize, count: u8) -> Transfer
    requires { at ≤ end }
    ensures { result ≡ goes_further end part (record part { at = at; count = count }) }
{
    match part.further(end) {
        Further::GoesOn => Transfer::Answered(part.reaching(end as u16).going_on(at as u16, count)),
        Further::MayEnd => Transfer::Perhaps(part.reaching(end as u16).going_on(at as u16, count)),
        Further::Ends => Transfer::Quiet,
    }
}

/// A read under START, of an answer of which a segment was sent.
fn first_resent(recalls: Recalls, size: u8, partial: PartialAnswer) -> Transfer
    ensures { result ≡ first_resent recalls size partial }
{
    resent(recalls, size, partial, 0, 0)
}

/// A reply had octets of an answer's segment, or zeros, since there are no more.
fn perhaps_updated(partial: PartialAnswer, reply: &ReplyView<'_>) -> Transfer
    ensures { result ≡ perhaps_updated partial reply.now.od.items }
{
    if !are_zeros(reply.od()) {
        return Transfer::Answered(partial.with(reply));
    }
    match partial.fault(reply) {
        None => Transfer::Perhaps(partial.with(reply)),
        Some(_) => Transfer::Quiet,
    }
}

/// The COUNT behind the last.
pub(crate) fn next_count(last: Option<u8>) -> u8
    ensures { result ≡ next_count last }
{
    match last {
        Some(count) => segment_number(count as usize + 1),
        None => segment_number(1),
    }
}

/// The octets of a message behind those of a text.
fn received_more(text: &Text, message: &MasterView<'_>, count: u8) -> Transfer
    ensures { result ≡ transfer_of_octets (text.now.items ++ message.now.od.items) (Some count) }
{
    let mut joined: ArrayVec<u8, MOST_OBSERVED> = ArrayVec::new();
    joined.try_extend_from_slice(text).unwrap();
    joined.try_extend_from_slice(message.od()).unwrap();
    received(&joined, Some(count))
}

/// A request of which these octets came, the last of them under this COUNT.
fn received(octets: &[u8], last: Option<u8>) -> Transfer
    ensures { result ≡ transfer_of_octets octets.now last }
{
    match total_of(octets) {
        Ok(total) if total <= octets.len() => completed(&octets[..total], last),
        Ok(_) | Err(IsduFault::Truncated) => receiving(octets, last),
        Err(_) => Transfer::Quiet,
    }
}

/// Not all octets of a text came.
fn receiving(octets: &[u8], last: Option<u8>) -> Transfer
    ensures { result ≡ transfer_receiving octets.now last }
{
    if octets.len() <= LONGEST {
        Transfer::Receiving(Text::try_from(octets).unwrap(), last)
    } else {
        Transfer::Free
    }
}

/// A text came.
fn completed(text: &[u8], last: Option<u8>) -> Transfer
    ensures { result ≡ transfer_of_request (request_of text.now) last }
{
    match read_request(text) {
        Ok(Request::Read(_)) => Transfer::Whole(true, last),
        Ok(Request::Write(..)) => Transfer::Whole(false, last),
        Err(_) => Transfer::Quiet,
    }
}
