//! The ISDU transfer of a master.
ghost use Rattle.std.specs.Prelude.{◌≡◌, ◌≤◌, ◌↔◌, ◌++◌, IsTrue, length};
ghost use Rattle.iol_isdu.specs.Parse.{request_of};
ghost use Rattle.iol_far.specs.Codec.{flow_of};
ghost use Rattle.iol_judge.specs.BlameResults.{result_or_blame};
ghost use Rattle.iol_judge.specs.declared.master_transfer.MasterTransfer.TheVariants.{Quiet};
ghost use Rattle.iol_judge.specs.MasterTransfers.{abort_sent, answer_begun, answer_joined, transfer_in_answer, transfer_after_repeat, asked_after_reply, asks_instead, request_begun, count_asked, count_sent, transfer_in_doubt, doubted_updated, ended_by_zeros, idle_sent, repeat_updated, transfer_after_message, start_asked, start_sent, transfer_after_reply, request_joined, transfer_in_request};

use crate::answer::request_of;
use crate::blame::Blame;
use crate::transfer::next_count;
use arrayvec::ArrayVec;
use iol_far::flow_of;
use iol_isdu::{IsduFault, Request, Text, read_answer, read_request, total_of};
use iol_mseq::{MasterView, ReplyView, first};
use iol_octets::{Flow, are_zeros};
use std::mem::replace;

/// How many octets the longest text has.
const LONGEST: usize = 238;

/// The first octet of "no service", in the reply to a START read.
const NO_SERVICE: u8 = 0;

/// That of "busy".
const BUSY: u8 = 1;

/// The control octet of a START write, and of a START read.
const START_WRITE: u8 = 0x70;

const START_READ: u8 = 0xF0;

/// With one segment more.
const MOST_JOINED: usize = 270;

/// Octets of a text, and one segment more.
type Joined = ArrayVec<u8, MOST_JOINED>;

/// The ISDU transfer of a master. A request is a read, or a write.
#[derive(Debug, Drop)]
pub(crate) enum MasterTransfer {
    /// None is under way.
    Quiet,
    /// Segments of a request were written: their octets, and the last COUNT.
    Written(Text, Option<u8>),
    /// The request is whole: whether it is a read. Its answer is asked for.
    Asked(bool),
    /// The same, while nobody knows whether the device has the request: a START read went out once,
    /// in place of the START write that holds it.
    Doubted(bool),
    /// Segments of the answer came, or the next one is asked for: whether it answers a read, their
    /// octets, and the last COUNT that was asked for.
    Answered(bool, Text, Option<u8>),
    /// The same, while the message that is out, or the last one, went out again: a device may have
    /// forgotten the answer that it began.
    Repeated(bool, Text, Option<u8>),
    /// None is under way, or one that is given up: the device has heard nothing of it, or may have
    /// forgotten its answer. The master knows which.
    Undecided,
    /// "No service" came, or what is no answer.
    Refused,
}

impl MasterTransfer {
    /// A new message is sent on the ISDU channel, to a device that has ISDU or not.
    ///
    /// Refusals: 6 NotDue, 7 RequestText, 8 NotInLine.
    pub fn send(&mut self, isdu: bool, message: &MasterView<'_>) -> Result<(), Blame>
        ensures { result_or_blame result self.new
            ≡ transfer_after_message isdu self.old message.now.mc.read
            (flow_of message.now.mc.address) message.now.od.items }
    {
        let flow = flow_of(message.mc());
        if self.is_quiet() && matches!(flow, Flow::Idle1 | Flow::Idle2) {
            return Ok(());
        }
        let old = replace(self, MasterTransfer::Quiet);
        *self = old.moved(isdu, flow, message)?;
        Ok(())
    }

    fn is_quiet(&self) -> bool
        ensures { IsTrue result ↔ (self.now ≡ Quiet) }
    {
        matches!(self, MasterTransfer::Quiet)
    }

    fn moved(
        self,
        isdu: bool,
        flow: Flow,
        message: &MasterView<'_>,
    ) -> Result<MasterTransfer, Blame>
        ensures { result ≡ transfer_after_message isdu self message.now.mc.read flow
            message.now.od.items }
    {
        let mc = message.mc();
        match flow {
            Flow::Start if mc.read => self.start_asked(),
            Flow::Start => self.start_sent(isdu, message.od()),
            Flow::Count(count) if mc.read => self.count_asked(count),
            Flow::Count(count) => self.count_sent(count, message),
            Flow::Idle1 | Flow::Idle2 => self.unchanged_if_quiet(),
            Flow::Abort => self.aborted(),
            Flow::Reserved(_) => Err(Blame::NotDue),
        }
    }

    fn start_sent(self, isdu: bool, octets: &[u8]) -> Result<MasterTransfer, Blame>
        ensures { result ≡ start_sent isdu self octets.now }
    {
        match self {
            MasterTransfer::Quiet | MasterTransfer::Undecided if isdu => written(octets, None),
            _ => Err(Blame::NotDue),
        }
    }

    fn count_sent(self, count: u8, message: &MasterView<'_>) -> Result<MasterTransfer, Blame>
        ensures { result ≡ count_sent self count message.now.od.items }
    {
        match self {
            MasterTransfer::Written(text, last) if count == next_count(last) => {
                written(&joined(&text, message.od()), Some(count))
            }
            MasterTransfer::Written(..) => Err(Blame::NotInLine),
            MasterTransfer::Asked(_) => Err(Blame::RequestText),
            _ => Err(Blame::NotDue),
        }
    }

    fn start_asked(self) -> Result<MasterTransfer, Blame>
        ensures { result ≡ start_asked self }
    {
        match self {
            MasterTransfer::Asked(read) => Ok(MasterTransfer::Asked(read)),
            _ => Err(Blame::NotDue),
        }
    }

    fn count_asked(self, count: u8) -> Result<MasterTransfer, Blame>
        ensures { result ≡ count_asked self count }
    {
        match self {
            MasterTransfer::Answered(read, text, last) | MasterTransfer::Repeated(read, text, last)
                if count == next_count(last) => {
                Ok(MasterTransfer::Answered(read, text, Some(count)))
            }
            MasterTransfer::Answered(..) | MasterTransfer::Repeated(..) => Err(Blame::NotInLine),
            _ => Err(Blame::NotDue),
        }
    }

    fn unchanged_if_quiet(self) -> Result<MasterTransfer, Blame>
        ensures { result ≡ idle_sent self }
    {
        match self {
            MasterTransfer::Quiet | MasterTransfer::Undecided => Ok(MasterTransfer::Quiet),
            _ => Err(Blame::NotDue),
        }
    }

    fn aborted(self) -> Result<MasterTransfer, Blame>
        ensures { result ≡ abort_sent self }
    {
        match self {
            MasterTransfer::Quiet => Err(Blame::NotDue),
            _ => Ok(MasterTransfer::Quiet),
        }
    }

    /// Whether these octets may be a START read in place of the message that is out: a START write
    /// that holds a whole request.
    pub fn asks_instead(&self, out: &[u8], octets: &[u8]) -> bool
        ensures { result ≡ asks_instead self.now out.now octets.now }
    {
        matches!(self, MasterTransfer::Asked(_))
            && first(out) == START_WRITE
            && first(octets) == START_READ
    }

    /// Once that START read goes out.
    pub fn doubt(&mut self)
        ensures { self.new ≡ transfer_in_doubt self.old }
    {
        if let MasterTransfer::Asked(read) = *self {
            *self = MasterTransfer::Doubted(read);
        }
    }

    /// Once the message that is out goes out again: a reply that got lost may have been the
    /// answer, or its last segment.
    pub fn repeat(self) -> MasterTransfer
        ensures { result ≡ transfer_after_repeat self }
    {
        match self {
            MasterTransfer::Doubted(read) => MasterTransfer::Asked(read),
            MasterTransfer::Answered(read, text, last) => {
                MasterTransfer::Repeated(read, text, last)
            }
            other => other,
        }
    }

    /// Once zeros came to a COUNT read that went out again: where they end the answer, a device
    /// that forgot it would send them too.
    fn ended_by_zeros(self) -> MasterTransfer
        ensures { result ≡ ended_by_zeros self }
    {
        match self {
            MasterTransfer::Quiet => MasterTransfer::Undecided,
            other => other,
        }
    }

    /// This good reply to a read on the ISDU channel came.
    pub fn hear(&mut self, reply: &ReplyView<'_>)
        ensures { self.new ≡ transfer_after_reply self.old reply.now.od.items }
    {
        if !self.is_quiet() {
            let old = replace(self, MasterTransfer::Quiet);
            *self = old.updated(reply);
        }
    }

    /// Once it did.
    fn updated(self, reply: &ReplyView<'_>) -> MasterTransfer
        ensures { result ≡ transfer_after_reply self reply.now.od.items }
    {
        let octets = reply.od();
        match self {
            MasterTransfer::Asked(read) => asked_updated(read, octets),
            MasterTransfer::Doubted(read) => doubted_updated(read, octets),
            MasterTransfer::Answered(read, text, last) => answered(
                read,
                &joined(&text, octets),
                last,
            ),
            MasterTransfer::Repeated(read, text, last) => repeat_updated(read, &text, last, octets),
            other => other,
        }
    }
}

/// Octets behind those of a text.
fn joined(text: &Text, octets: &[u8]) -> Joined
    requires { length octets.now ≤ 32 }
    ensures { result.items ≡ text.now.items ++ octets.now }
{
    let mut joined = Joined::new();
    joined.try_extend_from_slice(text).unwrap();
    joined.try_extend_from_slice(octets).unwrap();
    joined
}

/// Of a request these octets were written, the last of them under this COUNT.
fn written(octets: &[u8], last: Option<u8>) -> Result<MasterTransfer, Blame>
    ensures { result ≡ transfer_in_request octets.now last }
{
    match total_of(octets) {
        Ok(total) if total <= octets.len() => whole(&octets[..total], &octets[total..]),
        Ok(_) | Err(IsduFault::Truncated) => begun(octets, last),
        Err(_) => Err(Blame::RequestText),
    }
}

/// Not all octets of a request were written.
fn begun(octets: &[u8], last: Option<u8>) -> Result<MasterTransfer, Blame>
    ensures { result ≡ request_begun octets.now last }
{
    if octets.len() <= LONGEST {
        Ok(MasterTransfer::Written(Text::try_from(octets).unwrap(), last))
    } else {
        Err(Blame::RequestText)
    }
}

/// A text was written, and these octets behind it.
fn whole(text: &[u8], rest: &[u8]) -> Result<MasterTransfer, Blame>
    ensures { result ≡ request_joined (request_of text.now) rest.now }
{
    match read_request(text) {
        Ok(Request::Read(_)) if are_zeros(rest) => Ok(MasterTransfer::Asked(true)),
        Ok(Request::Write(..)) if are_zeros(rest) => Ok(MasterTransfer::Asked(false)),
        _ => Err(Blame::RequestText),
    }
}

/// The reply to a START read: busy, no service, or the answer's first segment.
fn asked_updated(read: bool, octets: &[u8]) -> MasterTransfer
    ensures { result ≡ asked_after_reply read octets.now }
{
    match octets.first() {
        Some(&BUSY) => MasterTransfer::Asked(read),
        Some(&NO_SERVICE) | None => MasterTransfer::Refused,
        Some(_) => answered(read, octets, None),
    }
}

/// The reply to a START read that went out in place of a START write: where the device has heard
/// nothing of that, the request goes out anew, or is given up.
fn doubted_updated(read: bool, octets: &[u8]) -> MasterTransfer
    ensures { result ≡ doubted_updated read octets.now }
{
    if first(octets) == NO_SERVICE {
        return MasterTransfer::Undecided;
    }
    asked_updated(read, octets)
}

/// The reply to a COUNT read that went out again.
fn repeat_updated(read: bool, text: &Text, last: Option<u8>, octets: &[u8]) -> MasterTransfer
    requires { length octets.now ≤ 32 }
    ensures { result ≡ repeat_updated read text.now last octets.now }
{
    let updated = answered(read, &joined(text, octets), last);
    if are_zeros(octets) {
        updated.ended_by_zeros()
    } else {
        updated
    }
}

/// Of an answer these octets came, the last of them under this COUNT.
fn answered(read: bool, octets: &[u8], last: Option<u8>) -> MasterTransfer
    ensures { result ≡ transfer_in_answer read octets.now last }
{
    match total_of(octets) {
        Ok(total) if total <= octets.len() => answer_joined(read, &octets[..total]),
        Ok(_) | Err(IsduFault::Truncated) => answer_begun(read, octets, last),
        Err(_) => MasterTransfer::Refused,
    }
}

/// Not all octets of an answer came.
fn answer_begun(read: bool, octets: &[u8], last: Option<u8>) -> MasterTransfer
    ensures { result ≡ answer_begun read octets.now last }
{
    if octets.len() <= LONGEST {
        MasterTransfer::Answered(read, Text::try_from(octets).unwrap(), last)
    } else {
        MasterTransfer::Refused
    }
}

/// A text came.
fn answer_joined(read: bool, text: &[u8]) -> MasterTransfer
    ensures { result ≡ answer_joined read text.now }
{
    match read_answer(&request_of(read), text) {
        Ok(_) => MasterTransfer::Quiet,
        Err(_) => MasterTransfer::Refused,
    }
}
