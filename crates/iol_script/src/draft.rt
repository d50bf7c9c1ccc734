//! A script, as far as its lines are read.
ghost use Rattle.std.specs.Prelude.{◌≡◌, ◌++◌, ◌+◌, ◌≤◌, ℕ, Some, None, Ok, Err, OnOk, option_map, option_and_then, true, length, replicate, vec_len, vec_capacity};
ghost use Rattle.iol_script.specs.declared.fault.ScriptFault.TheVariants.{Line};
ghost use Rattle.iol_script.specs.RunLines.{at_most_form, call_form, devices_form, stored_form, kind_form, limits_form, one_call, order_form, page_line, page_octets, param_form, pulses_form, range_form, run_words, turns_form, wire_form};
ghost use Rattle.iol_script.specs.Text.{words_left};
ghost use Rattle.iol_script.specs.Script.{steps_of};
ghost use Rattle.iol_sim.specs.Params.{number_at_place};
ghost use Rattle.iol_sim.specs.declared.script.Fate.TheVariants.{Clean};

use crate::call_check::fits_call;
use crate::call_line::turns_of;
use crate::fault::ScriptFault;
use crate::fields::{end_of, is};
use crate::parts::Words;
use crate::script::Script;
use crate::setting::{
    at_most_of, devices_of, kind_of, limits_of, order_of, page_of, param_of, pulses_of, range_of,
    stored_of,
};
use crate::table_lines::TableLines;
use crate::wire_line::{WireLine, parse_wire};
use iol_book::Limits;
use iol_far::Kind;
use iol_isdu::Place;
use iol_mode::Devices;
use iol_page::Page;
use iol_sim::{Fate, ParameterEntry, Step};
use std::alloc::Allocator;
use std::marker::Model;

/// The most parameters of a script.
const PARAMS: usize = 32;

/// The most steps of a script.
const STEPS: usize = 1_000_000;

/// The most calls of a script.
const CALLS: usize = 1_000_000;

/// The page of a device where no line gives one: no process data, and 8 octets of on-request data.
const PAGE: [u8; 10] = [0x17, 0x2D, 0x11, 0x00, 0x00, 0x12, 0x34, 0x00, 0x01, 0x07];

/// A script, as far as its lines are read.
#[derive(Drop)]
pub(crate) struct Draft<A: Allocator> {
    page: Option<Page>,
    /// The page of a second device.
    other: Option<Page>,
    kind: Option<Kind>,
    misses_pulses: bool,
    /// Whether each line of the wire acts behind the turns above it.
    in_order: bool,
    devices: Option<Devices>,
    limits: Option<Limits>,
    params: Vec<ParameterEntry, A>,
    table: TableLines,
    steps: Vec<Step, A>,
    /// How many of the steps are fates.
    fates: usize,
    calls: usize,
    /// How many of the calls are turns.
    turns: usize,
    /// Whether a line of the wire or a call came.
    begun: bool,
}

impl<A: Allocator> Model for Draft<A> {
    ghost use Rattle.iol_script.specs.Script.{DraftValue};

    ghost Value = { DraftValue };

    ghost use Rattle.iol_script.specs.DraftInside.{draft_view, DraftIsSound};

    ghost view = { draft_view };

    ghost invariant = { DraftIsSound };
}

impl<A: Allocator> Draft<A> {
    ghost use Rattle.iol_script.specs.DraftInside.{after_form, LineIsTaken};
    ghost use Rattle.iol_script.specs.declared.run_line.RunLine.{RunLine};
    ghost use Rattle.iol_script.specs.declared.setting.Setting.{Setting};
    ghost use Rattle.iol_script.specs.Script.{IsScript, draft_after, empty_draft, has_writable, in_bounds, lacking_fates, lacks, script_after, script_of, takes_param, value_of, with_calls};

    /// No line is read.
    pub(crate) fn new(alloc: A) -> Draft<A>
    where
        A: Copy,
        ensures { result ≡ empty_draft }
    {
        Draft {
            page: None,
            other: None,
            kind: None,
            misses_pulses: false,
            in_order: false,
            devices: None,
            limits: None,
            params: Vec::new(alloc),
            table: TableLines::none(),
            steps: Vec::new(alloc),
            fates: 0,
            calls: 0,
            turns: 0,
            begun: false,
        }
    }

    /// One more line is read.
    pub(crate) fn take(&mut self, number: u64, line: &[u8]) -> Result<(), ScriptFault>
        ensures good { OnOk result (draft_after (Ok self.old) (number, line.now) ≡ Ok self.new) }
        ensures bad { (n : ℕ) → result ≡ Err (Line n) → draft_after (Ok self.old) (number, line.now)
            ≡ Err n }
    {
        let words = Words::of(line).ok_or(ScriptFault::Line(number))?;
        self.take_words(number, words)
    }

    /// One more line is read, by its words. Each kind has a function of its own, and
    /// no line is built as a value: of a call it is only asked whether the words fit.
    fn take_words(&mut self, number: u64, mut words: Words) -> Result<(), ScriptFault>
        ensures { LineIsTaken (option_and_then (script_after self.old)
            (run_words (words_left words.entry))) number result self.new }
    {
        let bad = ScriptFault::Line(number);
        let Some(name) = words.next() else {
            return Ok(());
        };
        if is(name, b"page") {
            self.take_page_line(words).ok_or(bad)
        } else if is(name, b"other") {
            self.take_other(words).ok_or(bad)
        } else if is(name, b"kind") {
            self.take_kind(words).ok_or(bad)
        } else if is(name, b"pulses") {
            self.take_pulses(words).ok_or(bad)
        } else if is(name, b"in") {
            self.take_order(words).ok_or(bad)
        } else if is(name, b"devices") {
            self.take_devices(words).ok_or(bad)
        } else if is(name, b"limits") {
            self.take_limits(words).ok_or(bad)
        } else if is(name, b"param") {
            self.take_param(number, words)
        } else if is(name, b"kept") {
            self.take_stored(words).ok_or(bad)
        } else if is(name, b"range") {
            self.take_range(words).ok_or(bad)
        } else if is(name, b"atmost") {
            self.take_at_most(words).ok_or(bad)
        } else if is(name, b"wire") {
            self.take_wire(number, words)
        } else if is(name, b"turn") {
            self.take_turns(words).ok_or(bad)
        } else {
            self.take_call(name, words).ok_or(bad)
        }
    }

    /// The words behind `page`: with none it is the call.
    fn take_page_line(&mut self, words: Words) -> Option<()>
        ensures { option_map (λ _. self.new) result
            ≡ option_and_then (script_after self.old) (page_line (words_left words.entry)) }
    {
        if end_of(words).is_some() {
            self.add_calls(1, 0)
        } else {
            self.take_page(words)
        }
    }

    /// The words behind `page`, where there are some.
    fn take_page(&mut self, words: Words) -> Option<()>
        ensures { option_map (λ _. self.new) result
            ≡ after_form (λ octets. RunLine.Setting (Setting.Page octets)) self.old
            (page_octets (words_left words.entry)) }
    {
        let page = page_of(words)?;
        if self.begun || self.page.is_some() {
            return None;
        }
        self.page = Some(page);
        Some(())
    }

    /// The words behind `other`.
    fn take_other(&mut self, words: Words) -> Option<()>
        ensures { option_map (λ _. self.new) result
            ≡ after_form (λ octets. RunLine.Setting (Setting.Other octets)) self.old
            (page_octets (words_left words.entry)) }
    {
        let page = page_of(words)?;
        if self.begun || self.other.is_some() {
            return None;
        }
        self.other = Some(page);
        Some(())
    }

    /// The words behind `kind`.
    fn take_kind(&mut self, words: Words) -> Option<()>
        ensures { option_map (λ _. self.new) result
            ≡ after_form RunLine.Setting self.old (kind_form (words_left words.entry)) }
    {
        let kind = kind_of(words)?;
        if self.begun || self.kind.is_some() {
            return None;
        }
        self.kind = Some(kind);
        Some(())
    }

    /// The words behind `pulses`.
    fn take_pulses(&mut self, words: Words) -> Option<()>
        ensures { option_map (λ _. self.new) result
            ≡ after_form RunLine.Setting self.old (pulses_form (words_left words.entry)) }
    {
        pulses_of(words)?;
        if self.begun || self.misses_pulses {
            return None;
        }
        self.misses_pulses = true;
        Some(())
    }

    /// The words behind `in`.
    fn take_order(&mut self, words: Words) -> Option<()>
        ensures { option_map (λ _. self.new) result
            ≡ after_form RunLine.Setting self.old (order_form (words_left words.entry)) }
    {
        order_of(words)?;
        if self.begun || self.in_order {
            return None;
        }
        self.in_order = true;
        Some(())
    }

    /// The words behind `devices`.
    fn take_devices(&mut self, words: Words) -> Option<()>
        ensures { option_map (λ _. self.new) result
            ≡ after_form RunLine.Setting self.old (devices_form (words_left words.entry)) }
    {
        let devices = devices_of(words)?;
        if self.begun || self.devices.is_some() {
            return None;
        }
        self.devices = Some(devices);
        Some(())
    }

    /// The words behind `limits`.
    fn take_limits(&mut self, words: Words) -> Option<()>
        ensures { option_map (λ _. self.new) result
            ≡ after_form RunLine.Setting self.old (limits_form (words_left words.entry)) }
    {
        let limits = limits_of(words)?;
        if self.begun || self.limits.is_some() {
            return None;
        }
        self.limits = Some(limits);
        Some(())
    }

    /// The words behind `param`.
    fn take_param(&mut self, number: u64, words: Words) -> Result<(), ScriptFault>
        ensures { LineIsTaken (after_form RunLine.Setting self.old
            (param_form (words_left words.entry))) number result self.new }
    {
        let param = param_of(words).ok_or(ScriptFault::Line(number))?;
        if self.begun || !self.takes_param(param.place) {
            return Err(ScriptFault::Line(number));
        }
        self.params.push(param)?;
        Ok(())
    }

    /// Parameters are taken up to 32, each at a place of its own.
    fn takes_param(&self, place: Place) -> bool
        ensures { result ≡ takes_param self.now.params place }
    {
        self.params.len() < PARAMS && self.number_of(place).is_none()
    }

    /// Where the parameter at a place stands among the others.
    fn number_of(&self, place: Place) -> Option<usize>
        ensures { result ≡ number_at_place self.now.params place }
    {
        self.params.iter().position(|param| param.place == place)
    }

    /// The words behind `kept`: Data Storage keeps what can be written.
    fn take_stored(&mut self, words: Words) -> Option<()>
        ensures { option_map (λ _. self.new) result
            ≡ after_form RunLine.Setting self.old (stored_form (words_left words.entry)) }
    {
        let index = stored_of(words)?;
        if self.begun || !self.has_writable(index) {
            return None;
        }
        self.table.keep(index)
    }

    /// Whether a parameter of an Index can be written.
    fn has_writable(&self, index: u16) -> bool
        ensures { result ≡ has_writable self.now.params index }
    {
        self.params
            .iter()
            .any(|param| param.place.index == index && param.writable)
    }

    /// The words behind `range`: there is such a parameter.
    fn take_range(&mut self, words: Words) -> Option<()>
        ensures { option_map (λ _. self.new) result
            ≡ after_form RunLine.Setting self.old (range_form (words_left words.entry)) }
    {
        let range = range_of(words)?;
        if self.begun || self.number_of(range.place).is_none() {
            return None;
        }
        self.table.limit(range)
    }

    /// The words behind `atmost`.
    fn take_at_most(&mut self, words: Words) -> Option<()>
        ensures { option_map (λ _. self.new) result
            ≡ after_form RunLine.Setting self.old (at_most_form (words_left words.entry)) }
    {
        let rule = at_most_of(words)?;
        if self.begun {
            return None;
        }
        self.table.order(rule)
    }

    /// The words behind `wire`.
    fn take_wire(&mut self, number: u64, words: Words) -> Result<(), ScriptFault>
        ensures { LineIsTaken
            (after_form RunLine.Wire self.old (wire_form (words_left words.entry)))
            number result self.new }
    {
        let line = parse_wire(words).ok_or(ScriptFault::Line(number))?;
        self.add_steps(number, line)
    }

    /// The words behind `turn`.
    fn take_turns(&mut self, words: Words) -> Option<()>
        ensures { option_map (λ _. self.new) result
            ≡ after_form RunLine.Call self.old (turns_form (words_left words.entry)) }
    {
        let count = turns_of(words)?;
        self.add_calls(count, count)
    }

    /// The words of one call.
    fn take_call(&mut self, name: &[u8], words: Words) -> Option<()>
        ensures { option_map (λ _. self.new) result
            ≡ after_form one_call self.old (call_form name.now (words_left words.entry)) }
    {
        if !fits_call(name, words) {
            return None;
        }
        self.add_calls(1, 0)
    }

    /// Steps are taken up to 1,000,000, a swap only with a second device, and a change at the
    /// device itself only with a table. In order, as many clean fates as turns above lack come
    /// before them. The memory for all of them is taken before the first.
    fn add_steps(&mut self, number: u64, line: WireLine) -> Result<(), ScriptFault>
        ensures { LineIsTaken (script_after self.old (RunLine.Wire line)) number result self.new }
    {
        if self.lacks(&line) {
            return Err(ScriptFault::Line(number));
        }
        let lacking = self.lacking_fates();
        let count = lacking + line.count() as usize;
        if self.steps.len() + count > STEPS {
            return Err(ScriptFault::Line(number));
        }
        let fates = lacking + line.fates() as usize;
        self.steps.reserve(count)?;
        push_steps(&mut self.steps, lacking, line);
        self.fates += fates;
        self.begun = true;
        Ok(())
    }

    /// Whether a line of the wire lacks a second device, or a table.
    fn lacks(&self, line: &WireLine) -> bool
        ensures { result ≡ lacks self.now line.now }
    {
        (line.is_swap() && self.other.is_none()) || (line.is_change() && self.table.is_empty())
    }

    /// How many of the turns above have no fate, where lines of the wire are in order.
    fn lacking_fates(&self) -> usize
        ensures { result ≡ lacking_fates self.now }
    {
        if self.in_order {
            self.turns.saturating_sub(self.fates)
        } else {
            0
        }
    }

    /// Calls are counted up to 1,000,000, and how many of them are turns.
    fn add_calls(&mut self, count: u32, turns: u32) -> Option<()>
        requires { turns ≤ count }
        ensures { option_map (λ _. self.new) result
            ≡ in_bounds (with_calls self.old count turns) }
    {
        let calls = self.calls + count as usize;
        if calls > CALLS {
            return None;
        }
        self.calls = calls;
        self.turns += turns as usize;
        self.begun = true;
        Some(())
    }

    /// What the lines set up.
    pub(crate) fn finish(self) -> Script<A>
        ensures value { script_of self ≡ value_of result }
        ensures sound { IsScript result }
        ensures calls { self.calls ≤ 1000000 }
    {
        Script {
            page: self.page.unwrap_or(Page::from_octets(&PAGE)),
            other: self.other,
            kind: self.kind.unwrap_or(Kind::own()),
            misses_pulses: self.misses_pulses,
            params: self.params,
            table: self.table,
            devices: self.devices.unwrap_or(Devices::Own),
            limits: self.limits.unwrap_or(Limits::default()),
            steps: self.steps,
        }
    }
}

/// So many clean fates, and the steps of a line, for which there is room.
fn push_steps<A: Allocator>(steps: &mut Vec<Step, A>, lacking: usize, line: WireLine)
    requires { vec_len steps.old + (lacking + length (steps_of line)) ≤ vec_capacity steps.old }
    ensures { steps.new.items
        ≡ steps.old.items ++ replicate lacking (Step.Fate Clean) ++ steps_of line }
{
    push_fates(steps, Fate::Clean, lacking);
    match line {
        WireLine::Fates(fate, count) => push_fates(steps, fate, count as usize),
        WireLine::One(step) => steps.push_reserved(step),
    }
}

/// So many steps of this fate, for which there is room.
fn push_fates<A: Allocator>(steps: &mut Vec<Step, A>, fate: Fate, count: usize)
    requires { vec_len steps.old + count ≤ vec_capacity steps.old }
    ensures pushed { steps.new.items ≡ steps.old.items ++ replicate count (Step.Fate fate) }
    ensures len { vec_len steps.new ≡ vec_len steps.old + count }
    ensures room { vec_capacity steps.new ≡ vec_capacity steps.old }
{
    for _ in 0..count {
        steps.push_reserved(Step::Fate(fate));
    }
}
