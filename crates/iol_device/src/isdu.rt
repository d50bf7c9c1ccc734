//! The request under way, and the answer to it (IEC 61131-9, 7.3.6).
ghost use Rattle.std.specs.Prelude.{◌≡◌, ◌<◌, ◌≤◌, ◌+◌, ◌++◌, true, false, is_some, None, Some, ℕ, IsTrue, IfSome, IsSome, option_copied, length};
ghost use Rattle.iol_segment.specs.Join.{is_whole};
ghost use Rattle.iol_octets.specs.declared.flow_control.Flow.{Flow};
ghost use Rattle.iol_isdu.specs.Parse.{request_of};
ghost use Rattle.iol_far.specs.Isdu.{Empty, Receiving, Answered, isdu_written, isdu_read, isdu_data, whole_or_empty, answer_text_to, isdu_after_answer, handed_request, fits, remaining_isdu, handed_over, written_over, written_by, counted_by};
ghost use Rattle.iol_far.specs.Record.{takes_more};
ghost use Rattle.iol_device.specs.App.{Reacts};
ghost use Rattle.iol_device.specs.Pulses.{is_isdu_empty};
ghost use Rattle.iol_device.specs.Inside.{IsduValue, IsIsduConsistent, IsStageConsistent, GoesOn, LastSentIsWithin, state_of, last_sent, count_in, sent_flow, is_sent, is_next, is_all_sent, waits_for_read};

use crate::app::App;
use crate::record::Record;
use iol_far::{HandsOver, Kind, Recalls};
use iol_isdu::{Answer, Place, Request};
use iol_mseq::{Message, append_first, append_zeros};
use iol_octets::{Flow, OdLength, segment_number};
use iol_segment::{Cutter, Joiner, Reaction, Took, cut_is_whole};
use std::marker::Model;

/// What stands in the place of a request and its answer while there are none.
const NOTHING: Reaction = Reaction {
    request: Request::Read(Place { index: 0, sub: 0 }),
    answer: Answer::Written,
};

/// How far a request has come.
#[derive(Clone, Copy, Debug, PartialEq, Eq)]
enum IsduStage {
    Empty,
    /// Its text comes in segments.
    Receiving,
    /// Its text is complete, the last segment under this COUNT.
    Whole(Option<u8>),
    /// The application has it, or will have it.
    Handed,
    /// Its answer goes out in segments.
    Answered,
}

/// The ISDU of a device, in messages of one size of on-request data. Text, request and answer
/// have a place each, and stay there.
#[derive(Drop)]
pub(crate) struct IsduSide {
    size: OdLength,
    kind: Kind,
    stage: IsduStage,
    /// The COUNT of the last write, where a text is handed over with its last segment.
    counted: Option<u8>,
    /// The text of a request, while that comes.
    joiner: Joiner,
    /// The request, from when its text is complete, and then the answer.
    cutter: Cutter<Reaction>,
}

impl Model for IsduSide {
    ghost use Rattle.std.specs.Prelude.{◌≤◌};
    ghost use Rattle.iol_device.specs.Inside.{IsduValue, IsIsduConsistent, state_of};

    ghost Value = { IsduValue };

    ghost view = { λ s. record {
      size = s.size;
      state = state_of s.stage s.joiner s.cutter;
      kind = s.kind;
      counted = s.counted;
    } };

    ghost invariant = { λ s. IsIsduConsistent s.size s.stage s.joiner s.cutter };
}

impl IsduSide {
    /// No request, in messages of this size, at a device of this kind.
    pub fn new(kind: Kind, size: OdLength) -> IsduSide
        ensures { result ≡ record { size = size; state = Empty; kind = kind; counted = None } }
    {
        IsduSide {
            size,
            kind,
            counted: None,
            stage: IsduStage::Empty,
            joiner: Joiner::new(),
            cutter: Cutter::new(NOTHING, size),
        }
    }

    /// The request is dropped, and messages have this size from now on.
    pub fn resize(&mut self, size: OdLength)
        ensures { self.new ≡ record self.old { size = size; state = Empty } }
    {
        self.size = size;
        self.stage = IsduStage::Empty;
        self.cutter.resize(size);
    }

    /// The request is dropped.
    pub fn clear(&mut self)
        ensures { self.new ≡ record self.old { state = Empty } }
    {
        self.stage = IsduStage::Empty;
    }

    /// What is left of an answer when the next message comes.
    ///
    /// Rule DEV-20.
    fn recall(&mut self)
        ensures { self.new ≡ record self.old {
          state = remaining_isdu self.old.kind.recalls self.old.size self.old.state;
        } }
    {
        if self.kind.recalls == Recalls::UntilSent && self.is_sent() {
            self.stage = IsduStage::Empty;
        }
    }

    /// Whether the last segment of an answer was sent.
    fn is_sent(&self) -> bool
        ensures { result ≡ is_all_sent self.now.size self.now.state }
    {
        self.stage == IsduStage::Answered && self.cutter.flow().is_some() && !self.cutter.has_next()
    }

    /// A write under this flow.
    ///
    /// Rule DEV-20.
    pub fn write(&mut self, flow: Flow, octets: &[u8])
        ensures { self.new ≡ record self.old {
          state = written_by self.old.kind.hands_over self.old.counted
              (remaining_isdu self.old.kind.recalls self.old.size self.old.state) flow octets.now;
          counted = counted_by self.old.kind.hands_over self.old.counted flow;
        } }
    {
        self.recall();
        match self.kind.hands_over {
            HandsOver::FirstRead => self.write_text(flow, octets),
            HandsOver::LastSegment => self.write_over(flow, octets),
        }
    }

    /// A write where a text is handed over with its last segment.
    fn write_over(&mut self, flow: Flow, octets: &[u8])
        ensures { self.new ≡ record self.old {
          state = written_over self.old.counted self.old.state flow octets.now;
          counted = counted_by HandsOver.LastSegment self.old.counted flow;
        } }
    {
        match flow {
            Flow::Count(count) if self.waits_for_read() => {
                if self.counted != Some(count) {
                    self.stage = IsduStage::Empty;
                }
            }
            _ => {
                self.write_text(flow, octets);
                self.hand_over();
            }
        }
        match flow {
            Flow::Start => self.counted = None,
            Flow::Count(count) => self.counted = Some(count),
            _ => {}
        }
    }

    /// Whether the application has the request, and no read came since that brought the answer.
    fn waits_for_read(&self) -> bool
        ensures { result ≡ waits_for_read self.now.state }
    {
        match self.stage {
            IsduStage::Handed => true,
            IsduStage::Answered => self.cutter.flow().is_none(),
            _ => false,
        }
    }

    /// A text that is whole is handed over.
    fn hand_over(&mut self)
        ensures { self.new ≡ record self.old { state = handed_over self.old.state } }
    {
        if let IsduStage::Whole(_) = self.stage {
            self.stage = IsduStage::Handed;
        }
    }

    /// A write under this flow, at a device that hands nothing over by it.
    ///
    /// Rules DEV-11, DEV-14.
    fn write_text(&mut self, flow: Flow, octets: &[u8])
        ensures { self.new
            ≡ record self.old { state = isdu_written self.old.state flow octets.now } }
    {
        match flow {
            Flow::Start => self.stage = take(&mut self.joiner, &mut self.cutter, flow, octets),
            Flow::Count(count) => self.write_count(count, octets),
            _ => self.clear(),
        }
    }

    /// A write under COUNT.
    fn write_count(&mut self, count: u8, octets: &[u8])
        ensures { self.new
            ≡ record self.old {
              state = isdu_written self.old.state (Flow.Count count) octets.now;
            } }
    {
        match self.stage {
            IsduStage::Receiving => {
                let flow = Flow::Count(count);
                self.stage = take(&mut self.joiner, &mut self.cutter, flow, octets);
            }
            IsduStage::Whole(last) => {
                if last != Some(count) {
                    self.stage = IsduStage::Empty;
                }
            }
            _ => self.stage = IsduStage::Empty,
        }
    }

    /// A read under this flow.
    ///
    /// Rule DEV-14.
    #[inline]
    pub fn read(&mut self, flow: Flow)
        ensures { self.new ≡ record self.old {
          state = isdu_read self.old.size
              (remaining_isdu self.old.kind.recalls self.old.size self.old.state) flow;
        } }
    {
        self.recall();
        match flow {
            Flow::Start => self.read_start(),
            Flow::Count(count) => self.read_count(count),
            _ => self.clear(),
        }
    }

    /// A read under START.
    ///
    /// Rules DEV-12, DEV-13.
    #[inline(never)]
    fn read_start(&mut self)
        ensures { self.new
            ≡ record self.old { state = isdu_read self.old.size self.old.state Flow.Start } }
    {
        match self.stage {
            IsduStage::Whole(_) => self.stage = IsduStage::Handed,
            IsduStage::Handed => {}
            IsduStage::Answered => {
                self.cutter.restart();
                self.cutter.advance();
            }
            _ => self.stage = IsduStage::Empty,
        }
    }

    /// A read under COUNT.
    ///
    /// Rule DEV-13.
    #[inline(never)]
    fn read_count(&mut self, count: u8)
        ensures { self.new
            ≡ record self.old {
              state = isdu_read self.old.size self.old.state (Flow.Count count);
            } }
    {
        if self.stage != IsduStage::Answered {
            self.stage = IsduStage::Empty;
            return;
        }
        let sent = sent_flow(&self.cutter);
        if is_sent(sent, count) || (is_next(sent, count) && self.cutter.advance()) {
            return;
        }
        self.stage = IsduStage::Empty;
    }

    /// Puts the on-request data of the reply to a read at the end.
    ///
    /// Rules ISDU-11, DEV-12.
    pub fn append_data(&self, octets: &mut Message)
        requires { length octets.old.items ≤ 32 }
        ensures value { octets.new.items
            ≡ octets.old.items ++ isdu_data self.now.size self.now.state }
        ensures size { length (isdu_data self.now.size self.now.state) ≡ self.now.size }
    {
        cut_is_whole();
        match self.stage {
            IsduStage::Handed => append_first(octets, self.size, 1),
            IsduStage::Answered => append_segment(&self.cutter, self.size, octets),
            _ => append_zeros(octets, self.size.get()),
        }
    }

    /// The request that the application has, or will have.
    pub fn handed(&self) -> Option<&Request>
        ensures { option_copied result ≡ handed_request self.now.state }
    {
        match self.stage {
            IsduStage::Handed => Some(&self.cutter.source().request),
            _ => None,
        }
    }

    /// Whether nothing is held, neither a text nor an answer.
    pub fn is_empty(&self) -> bool
        ensures { result ≡ is_isdu_empty self.now.state }
    {
        self.stage == IsduStage::Empty
    }

    /// Whether the application has a request, or will have it.
    pub fn is_handed(&self) -> bool
        ensures { result ≡ is_some (handed_request self.now.state) }
    {
        self.stage == IsduStage::Handed
    }

    /// The request that is handed over is carried out by the application, and the record keeps it
    /// with the answer.
    ///
    /// Rule DEV-15.
    pub fn react<P: App, R: Record>(&mut self, app: &mut P, carried: &mut R)
        requires handed { IsSome (handed_request self.old.state) }
        requires room { IsTrue (takes_more (R.room carried.old) (R.carried carried.old)) }
        ensures rest { self.new ≡ record self.old { state = self.new.state } }
        ensures room { R.room carried.new ≡ R.room carried.old }
        ensures reacts { IfSome (handed_request self.old.state) (Reacts P.carry_out_gives app.old
            (R.carried carried.old) self.new.state (R.carried carried.new) app.new) }
    {
        let reaction = self.cutter.source_mut();
        answer_into(app, reaction);
        carried.push(&reaction.request, &reaction.answer);
        self.stage = IsduStage::Answered;
    }

    /// The request that is handed over has this answer.
    pub fn answer(&mut self, answer: Answer)
        requires { IfSome (handed_request self.old.state)
            (λ request. IsTrue (fits request answer)) }
        ensures { self.new ≡ record self.old { state = isdu_after_answer self.old.state answer } }
    {
        if self.stage == IsduStage::Handed {
            self.cutter.source_mut().answer = answer;
            self.stage = IsduStage::Answered;
        }
    }
}

/// Whether an answer fits a request: Read answers a read, Written a write, Refused both.
///
/// Rule ISDU-8.
pub(crate) fn is_kind_of(request: &Request, answer: &Answer) -> bool
    ensures { result ≡ fits request.now answer.now }
{
    // To the proof this says that the octets fit into one ISDU.
    if let Answer::Read(octets) = answer {
        let _ = octets.len();
    }
    match answer {
        Answer::Read(_) => matches!(request, Request::Read(_)),
        Answer::Written => !matches!(request, Request::Read(_)),
        Answer::Refused(_, _) => true,
    }
}

/// The application's answer, which fits the request, is put in place.
fn answer_into<P: App>(app: &mut P, reaction: &mut Reaction)
    ensures request { reaction.new.request ≡ reaction.old.request }
    ensures fits { IsTrue (fits reaction.old.request reaction.new.answer) }
    ensures gives { P.carry_out_gives app.old reaction.old.request reaction.new.answer app.new }
{
    app.carry_out_into(&reaction.request, &mut reaction.answer);
    // To the proof this says that the octets fit into one ISDU.
    if let Answer::Read(octets) = &reaction.answer {
        let _ = octets.len();
    }
}

/// One more segment of the request, and the stage then.
///
/// Rule DEV-11.
fn take(joiner: &mut Joiner, cutter: &mut Cutter<Reaction>, flow: Flow, octets: &[u8]) -> IsduStage
    requires goes_on { GoesOn flow joiner.old }
    ensures state { state_of result joiner.new cutter.new
        ≡ isdu_written (Receiving joiner.old.text joiner.old.count) flow octets.now }
    ensures size { cutter.new.size ≡ cutter.old.size }
    ensures consistent { IsStageConsistent result joiner.new cutter.new }
{
    match joiner.take(flow, octets) {
        Err(_) => IsduStage::Empty,
        Ok(Took::Whole) => complete(joiner, cutter, flow),
        Ok(Took::More) => IsduStage::Receiving,
        // The last segment again.
        Ok(Took::Repeat) => IsduStage::Receiving,
    }
}

/// The text is whole: the request is put in place, the last of whose segments came under this
/// flow.
#[inline(never)]
fn complete(joiner: &Joiner, cutter: &mut Cutter<Reaction>, flow: Flow) -> IsduStage
    requires whole { is_whole joiner.now.text ≡ true }
    ensures state { state_of result joiner.now cutter.new
        ≡ whole_or_empty (request_of joiner.now.text) (count_in flow) }
    ensures size { cutter.new.size ≡ cutter.old.size }
    ensures consistent { IsStageConsistent result joiner.now cutter.new }
{
    let reaction = cutter.source_mut();
    if joiner.request_into(&mut reaction.request).is_err() {
        return IsduStage::Empty;
    }
    IsduStage::Whole(match flow {
        Flow::Count(count) => Some(count),
        _ => None,
    })
}

/// Puts the segment of the answer that goes out at the end, zeros before the first.
#[inline(never)]
fn append_segment(cutter: &Cutter<Reaction>, size: OdLength, octets: &mut Message)
    requires size { size ≡ cutter.now.size }
    requires sent { LastSentIsWithin cutter.now.size
        (answer_text_to cutter.now.source.request cutter.now.source.answer) cutter.now.issued }
    requires room { length octets.old.items ≤ 32 }
    ensures { octets.new.items ≡ octets.old.items ++ isdu_data size
        (Answered cutter.now.source.request cutter.now.source.answer
        (last_sent cutter.now.issued)) }
{
    if !cutter.append_again(octets) {
        append_zeros(octets, size.get());
    }
}

/// The flow of the last segment given.
fn sent_flow(cutter: &Cutter<Reaction>) -> Option<Flow>
    requires { LastSentIsWithin cutter.now.size
        (answer_text_to cutter.now.source.request cutter.now.source.answer) cutter.now.issued }
    ensures { result ≡ sent_flow cutter.now.issued }
{
    cutter.flow()
}

/// Whether the last segment given went under this COUNT.
fn is_sent(sent: Option<Flow>, count: u8) -> bool
    ensures { (issued : ℕ) → sent ≡ sent_flow issued → result ≡ is_sent issued count }
{
    sent == Some(Flow::Count(count))
}

/// Whether the next one does.
fn is_next(sent: Option<Flow>, count: u8) -> bool
    ensures { (issued : ℕ) → sent ≡ sent_flow issued → result ≡ is_next issued count }
{
    match sent {
        Some(Flow::Count(last)) => count == segment_number(last as usize + 1),
        Some(_) => count == segment_number(1),
        None => false,
    }
}
