//! Segments, joined into a text (IEC 61131-9, 7.3.6).
ghost use Rattle.std.specs.Prelude.{◌≡◌, ◌<◌, ◌+◌, ◌++◌, true, false, None, Some, Ok, Err, IfOk, IsOk, OnOk, IsTrue};
ghost use Rattle.std.specs.Result.{result_err, result_ok};
ghost use Rattle.iol_isdu.specs.declared.values.Request.{Request};
ghost use Rattle.iol_isdu.specs.declared.values.Answer.{Answer};
ghost use Rattle.iol_isdu.specs.Frame.{isdu_fault};
ghost use Rattle.iol_isdu.specs.Requests.{BeginsWithRequest, request_accepts};
ghost use Rattle.iol_isdu.specs.Answers.{BeginsWithAnswer, answer_fault, is_read};
ghost use Rattle.iol_isdu.specs.Parse.{request_of};
ghost use Rattle.iol_segment.specs.Join.{Joining, Grown, empty, join_step, count_step, stage_step, stage, is_whole, next_count};
ghost use Rattle.iol_segment.specs.declared.took.Took.TheVariants.{More, Whole};
ghost use Rattle.iol_segment.specs.declared.took.JoinFault.TheVariants.{WrongCount};

use crate::append::append;
use crate::took::{JoinFault, Took};
use iol_isdu::{
    Answer, IsduFault, Request, Text, answer_into, read_answer, read_request, request_into,
    total_of,
};
use iol_octets::{Flow, segment_number};
use std::marker::Model;

/// How many octets the longest text has.
const LONGEST: usize = 238;

/// The text of a request or of an answer, joined from its segments (IEC 61131-9, 7.3.6).
///
/// Contracts see what it joins, whether START was taken, the last COUNT taken
/// behind it, and the text so far.
#[derive(Drop)]
pub struct Joiner {
    started: bool,
    /// The last COUNT taken, none right behind START.
    count: Option<u8>,
    text: Text,
}

impl Model for Joiner {
    ghost use Rattle.iol_segment.specs.Join.{Joining};

    ghost Value = { Joining };

    ghost view = { λ j. record {
      started = j.started;
      count = j.count;
      text = j.text.items;
    } };
}

impl Joiner {
    /// A joiner that has taken nothing.
    pub fn new() -> Joiner
        ensures { result ≡ empty }
    {
        Joiner {
            started: false,
            count: None,
            text: Text::new(),
        }
    }

    /// Takes a segment under its flow (IEC 61131-9, 7.3.6).
    ///
    /// START empties the joiner and takes the segment. The COUNT taken last is a repeat,
    /// and is not taken again; right behind START there is none. The next COUNT, 1
    /// behind START and 0 behind 15, is taken while the text is not whole. The segment
    /// may have any number of octets; those behind the text are ignored (profile).
    ///
    /// Either refusal leaves the joiner empty, so that only START is taken then (profile):
    /// - 15 `WrongCount`: any other flow;
    /// - 11 `BadIsduLength`: the octets so far hold a total length that no text has.
    ///
    /// Rule SEG-3.
    pub fn take(&mut self, flow: Flow, octets: &[u8]) -> Result<Took, JoinFault>
        ensures took { result ≡ (join_step self.old flow octets.now).took }
        ensures joining { self.new ≡ (join_step self.old flow octets.now).joining }
        ensures whole { result ≡ Ok Whole → IsTrue (is_whole self.new.text) }
        ensures more { result ≡ Ok More → is_whole self.new.text ≡ false }
    {
        match flow {
            Flow::Start => {
                self.clear();
                self.add(None, octets)
            }
            Flow::Count(count) if self.started => self.take_count(count, octets),
            _ => self.refuse(),
        }
    }

    /// Whether the text is whole: it has as many octets as it says.
    pub fn is_whole(&self) -> bool
        ensures { result ≡ is_whole self.now.text }
    {
        is_whole(&self.text)
    }

    /// The request whose text was taken, as `iol_isdu::read_request` reads it.
    ///
    /// The text is whole, as [`take`](Joiner::take) has answered. The first of
    /// these that holds refuses:
    /// - 12 `BadService`: the service is no request's, or its texts don't have this total length;
    /// - 13 `BadChkpdu`: the XOR of all octets of the text is not 0.
    pub fn request(&self) -> Result<Request, IsduFault>
        requires whole { is_whole self.now.text ≡ true }
        ensures refused { result_err result ≡ isdu_fault request_accepts self.now.text }
        ensures found { IfOk result (BeginsWithRequest self.now.text) }
        ensures only { (r : Request) → BeginsWithRequest self.now.text r → result ≡ Ok r }
        ensures value { result_ok result ≡ request_of self.now.text }
    {
        read_request(&self.text)
    }

    /// The request whose text was taken, for which the joiner is given up.
    ///
    /// It reads and refuses as [`request`](Joiner::request) does, with 12 and 13. A refusal gives
    /// the joiner up all the same.
    pub fn into_request(self) -> Result<Request, IsduFault>
        requires whole { is_whole self.text ≡ true }
        ensures refused { result_err result ≡ isdu_fault request_accepts self.text }
        ensures found { IfOk result (BeginsWithRequest self.text) }
        ensures only { (r : Request) → BeginsWithRequest self.text r → result ≡ Ok r }
        ensures value { result_ok result ≡ request_of self.text }
    {
        self.request()
    }

    /// Puts in place the request whose text was taken.
    ///
    /// It reads and refuses as [`request`](Joiner::request) does, with 12 and 13. A refusal may
    /// leave another request there.
    pub fn request_into(&self, into: &mut Request) -> Result<(), IsduFault>
        requires whole { is_whole self.now.text ≡ true }
        ensures refused { result_err result ≡ isdu_fault request_accepts self.now.text }
        ensures found { OnOk result (BeginsWithRequest self.now.text into.new) }
        ensures only { (r : Request) → BeginsWithRequest self.now.text r
            → IsOk result × (into.new ≡ r) }
        ensures value { OnOk result (request_of self.now.text ≡ Some into.new) }
    {
        request_into(&self.text, into)
    }

    /// The answer to this request whose text was taken, as `iol_isdu::read_answer`
    /// reads it. A refusal gives the joiner up all the same.
    ///
    /// The text is whole, as [`take`](Joiner::take) has answered. The first of
    /// these that holds refuses:
    /// - 12 `BadService`: the service is no answer's, or its texts don't have this total length;
    /// - 13 `BadChkpdu`: the XOR of all octets of the text is not 0;
    /// - 14 `WrongAnswerKind`: it answers a write and the request is a read, or the
    ///   other way round.
    pub fn into_answer(self, request: &Request) -> Result<Answer, IsduFault>
        requires whole { is_whole self.text ≡ true }
        ensures refused { result_err result ≡ answer_fault (is_read request.now) self.text }
        ensures found { IfOk result (BeginsWithAnswer (is_read request.now) self.text) }
        ensures only { (a : Answer) → BeginsWithAnswer (is_read request.now) self.text a → result
            ≡ Ok a }
    {
        read_answer(request, &self.text)
    }

    /// Puts in place the answer to this request whose text was taken.
    ///
    /// It reads and refuses as [`into_answer`](Joiner::into_answer) does, with 12 to 14. A
    /// refusal may leave another answer there.
    pub fn answer_into(&self, request: &Request, into: &mut Answer) -> Result<(), IsduFault>
        requires whole { is_whole self.now.text ≡ true }
        ensures refused { result_err result ≡ answer_fault (is_read request.now) self.now.text }
        ensures found { OnOk result
            (BeginsWithAnswer (is_read request.now) self.now.text into.new) }
        ensures only { (a : Answer) → BeginsWithAnswer (is_read request.now) self.now.text a
            → IsOk result × (into.new ≡ a) }
    {
        answer_into(request, &self.text, into)
    }

    /// Empties it, where it lies.
    fn clear(&mut self)
        ensures { self.new ≡ empty }
    {
        self.started = false;
        self.count = None;
        self.text.clear();
    }

    fn refuse(&mut self) -> Result<Took, JoinFault>
        ensures took { result ≡ Err WrongCount }
        ensures joining { self.new ≡ empty }
    {
        self.clear();
        Err(JoinFault::WrongCount)
    }

    /// Takes a segment under COUNT.
    ///
    /// Rules SEG-3, SEG-4.
    fn take_count(&mut self, count: u8, octets: &[u8]) -> Result<Took, JoinFault>
        ensures took { result ≡ (count_step self.old count octets.now).took }
        ensures joining { self.new ≡ (count_step self.old count octets.now).joining }
        ensures whole { result ≡ Ok Whole → IsTrue (is_whole self.new.text) }
        ensures more { result ≡ Ok More → is_whole self.new.text ≡ false }
    {
        if self.count == Some(count) {
            return Ok(Took::Repeat);
        }
        if count == self.next_count() && !self.is_whole() {
            self.add(Some(count), octets)
        } else {
            self.refuse()
        }
    }

    /// Rule SEG-2.
    fn next_count(&self) -> u8
        ensures { result ≡ next_count self.now.count }
    {
        match self.count {
            None => segment_number(1),
            Some(count) => segment_number(count as usize + 1),
        }
    }

    /// Takes the next segment, the COUNT of which is kept.
    ///
    /// Rule SEG-5.
    fn add(&mut self, count: Option<u8>, octets: &[u8]) -> Result<Took, JoinFault>
        ensures took { result
            ≡ (stage_step count (self.old.text ++ octets.now)
            (stage (self.old.text ++ octets.now))).took }
        ensures joining { self.new
            ≡ (stage_step count (self.old.text ++ octets.now)
            (stage (self.old.text ++ octets.now))).joining }
        ensures whole { result ≡ Ok Whole → IsTrue (is_whole self.new.text) }
        ensures more { result ≡ Ok More → is_whole self.new.text ≡ false }
    {
        self.started = true;
        self.count = count;
        let took = grow(&mut self.text, octets);
        if took.is_err() {
            self.clear();
        }
        took
    }
}

/// Whether there are as many octets as the total length that they begin with.
fn is_whole(octets: &[u8]) -> bool
    ensures { result ≡ is_whole octets.now }
{
    match total_of(octets) {
        Ok(total) => total <= octets.len(),
        Err(_) => false,
    }
}

/// Takes the octets of a segment, as far as they belong to the text.
///
/// Rules SEG-1, SEG-5.
fn grow(text: &mut Text, octets: &[u8]) -> Result<Took, JoinFault>
    ensures grown { Grown (stage (text.old.items ++ octets.now)) (text.old.items ++ octets.now)
        result text.new.items }
    ensures whole { result ≡ Ok Whole → IsTrue (is_whole text.new.items) }
    ensures more { result ≡ Ok More → is_whole text.new.items ≡ false }
{
    // To the proof this says that the text has no more than its longest.
    let _ = text.len();
    append(text, LONGEST, octets);
    match total_of(text) {
        Err(IsduFault::Truncated) => Ok(Took::More),
        Err(_) => Err(JoinFault::BadIsduLength),
        Ok(total) if total <= text.len() => {
            text.truncate(total);
            Ok(Took::Whole)
        }
        Ok(_) => Ok(Took::More),
    }
}
