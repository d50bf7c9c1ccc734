//! How tools write the octets of a line.
ghost use Rattle.std.specs.Prelude.{◌≡◌, ◌≤◌, ◌==◌, true, length, option_and_then, Some};
ghost use Rattle.std.specs.List.{position};
ghost use Rattle.iol_capture.specs.declared.export.ExportForm.TheVariants.{Sampled};
ghost use Rattle.iol_script.specs.Text.{words_left};
ghost use Rattle.iol_capture.specs.Cells.{cells_left, cells_of};
ghost use Rattle.iol_capture.specs.Exports.{annotation_form, annotation_shows, bare_line, begins_as, cut_time, ending_octet, ends_as, error_in, headed_form, header_form, is_cell, is_named, logic1_form, logic2_form, octet_row, page_words_form, sample_rate_form, sample_time, shown_form, table_time, unsampled_form, untabled_form, untimed_form, written_form};

use crate::cells::{Cells, unquoted, without_end};
use crate::octet_line::{
    OctetLine, PLACES, digits_behind, octet_of, parse_octet, parse_parts, parse_time, place_of,
};
use crate::trace_event::{EVENTS, parse_event};
use crate::trace_line::ten_of;
use iol_script::{LineOctets, Words, decimal_number, parted_octets};

/// A second, in nanoseconds.
const SECOND: u64 = 1_000_000_000;

/// What stands before the samples a second of a capture, as `sigrok-cli --show` prints them.
const SAMPLE_RATE: [u8; 12] = *b"Samplerate: ";

/// What stands before the octets of a page.
const PAGE: [u8; 5] = *b"page ";

/// How the lines of an export are written that show octets.
#[derive(Clone, Copy, Debug, PartialEq, Eq)]
pub enum ExportForm {
    /// Each begins with its time in seconds.
    Timed,
    /// Annotations of sigrok-cli and PulseView, each with the numbers of its samples, of which so
    /// many are taken in a second.
    Sampled(u32),
    /// Trace events of sigrok-cli, in JSON.
    Events,
    /// Rows of Logic 1: time, value, parity error, framing error.
    Logic1,
    /// Rows of Logic 2: name, type, start, duration, octet, and the error, where there is one.
    Logic2,
}

impl OctetLine {
    ghost use Rattle.iol_capture.specs.Exports.{export_form};

    /// What a line says in an export of this form, where it fits one. A byte order mark in front,
    /// and a carriage return behind, aren't read.
    pub fn parse_in(form: ExportForm, line: &[u8]) -> Option<OctetLine>
        ensures { result ≡ export_form form line.now }
    {
        let line = bare_line(line);
        match line {
            [] => Some(OctetLine::Other),
            [b'#', ..] => Some(OctetLine::Other),
            _ => parse_shown(form, line),
        }
    }
}

/// A page in front, or a line of its form.
fn parse_shown(form: ExportForm, line: &[u8]) -> Option<OctetLine>
    ensures { result ≡ shown_form form line.now }
{
    if begins_as(line, &PAGE) {
        parse_page(Words::of(&line[PAGE.len()..])?)
    } else {
        parse_written(form, line)
    }
}

/// The words behind `page`: ten octets, or `none`.
fn parse_page(words: Words) -> Option<OctetLine>
    ensures { result ≡ page_words_form (words_left words.entry) }
{
    if are_none(words) {
        Some(OctetLine::Other)
    } else {
        let octets: LineOctets = parted_octets(words)?;
        Some(OctetLine::Page(ten_of(octets.as_slice())?))
    }
}

/// Whether they are the one word `none`.
fn are_none(mut words: Words) -> bool
    ensures { result ≡ are_none (words_left words.entry) }
{
    matches!((words.next(), words.next()), (Some(b"none"), None))
}

ghost use Rattle.iol_capture.specs.TraceLines.{are_none};

/// A line without a byte order mark and a carriage return.
fn bare_line(line: &[u8]) -> &[u8]
    ensures { result.now ≡ bare_line line.now }
{
    match line {
        [0xEF, 0xBB, 0xBF, text @ ..] => without_end(text, b'\r'),
        _ => without_end(line, b'\r'),
    }
}

fn parse_written(form: ExportForm, line: &[u8]) -> Option<OctetLine>
    ensures { result ≡ written_form form line.now }
{
    match form {
        ExportForm::Timed => parse_untabled(line),
        ExportForm::Sampled(rate) => parse_sampled(rate, line),
        ExportForm::Events => parse_event(line),
        ExportForm::Logic1 => parse_logic1(Cells::of(line)),
        ExportForm::Logic2 => parse_logic2(Cells::of(line)),
    }
}

/// Samples a second, the begin of events, or a line that begins otherwise.
fn parse_untabled(line: &[u8]) -> Option<OctetLine>
    ensures { result ≡ untabled_form line.now }
{
    if begins_as(line, &SAMPLE_RATE) {
        parse_rate(&line[SAMPLE_RATE.len()..])
    } else if line == EVENTS.as_slice() {
        Some(OctetLine::Form(ExportForm::Events))
    } else {
        parse_headed(line)
    }
}

/// A header, or a line with its time in seconds.
fn parse_headed(line: &[u8]) -> Option<OctetLine>
    ensures { result ≡ headed_form line.now (header_form (cells_of line.now)) }
{
    match parse_header(Cells::of(line)) {
        Some(form) => Some(OctetLine::Form(form)),
        None => match parse_parts(line) {
            None => parse_unsampled(line),
            found => found,
        },
    }
}

/// An annotation with the numbers of its samples, or without a time.
fn parse_sampled(rate: u32, line: &[u8]) -> Option<OctetLine>
    ensures { result ≡ written_form (Sampled rate) line.now }
{
    match numbered(rate, line) {
        None => parse_untimed(line),
        found => found,
    }
}

/// An annotation with the numbers of its samples.
fn numbered(rate: u32, line: &[u8]) -> Option<OctetLine>
    ensures { result
        ≡ option_and_then (annotation_form rate line.now) (position (λ b. b == 45) line.now) }
{
    parse_annotation(rate, line, place_of(line, b'-')?)
}

/// An annotation that lacks the samples a second, or its time.
fn parse_unsampled(line: &[u8]) -> Option<OctetLine>
    ensures { result ≡ unsampled_form line.now }
{
    if numbered(1, line).is_some() {
        Some(OctetLine::Unsampled)
    } else {
        parse_untimed(line)
    }
}

/// An annotation without a time.
fn parse_untimed(line: &[u8]) -> Option<OctetLine>
    ensures { result ≡ untimed_form line.now }
{
    if is_named(line) {
        Some(OctetLine::Untimed)
    } else {
        None
    }
}

/// Whether the first word, the decoder's name, ends with a colon.
fn is_named(line: &[u8]) -> bool
    ensures { result ≡ is_named line.now }
{
    match place_of(line, b' ') {
        Some(place) => ends_as(&line[..place], b":"),
        None => false,
    }
}

/// Whether a line begins with this text.
#[tactic(auto, unfolding(crate::specs::Exports::begins_as))]
pub(crate) fn begins_as(line: &[u8], text: &[u8]) -> bool
    ensures value { result ≡ begins_as line.now text.now }
    ensures room { result ≡ true → length text.now ≤ length line.now }
{
    text.len() <= line.len() && &line[..text.len()] == text
}

/// Samples a second, from 1 on.
fn parse_rate(number: &[u8]) -> Option<OctetLine>
    ensures { result ≡ sample_rate_form number.now }
{
    let rate = decimal_number(number, 1, u32::MAX as u64)?;
    Some(OctetLine::Form(ExportForm::Sampled(rate as u32)))
}

/// Whether a cell has this text.
fn is_cell(cell: &[u8], text: &[u8]) -> bool
    ensures { result ≡ is_cell cell.now text.now }
{
    unquoted(cell) == text
}

/// The form of the rows below a header.
#[tactic(auto, unfolding(crate::specs::Exports::header_form))]
fn parse_header(mut cells: Cells<'_>) -> Option<ExportForm>
    ensures { result ≡ header_form (cells_left cells.entry) }
{
    let (first, second) = (cells.next()?, cells.next()?);
    if is_cell(first, b"Time [s]") && is_cell(second, b"Value") {
        return Some(ExportForm::Logic1);
    }
    let (start, duration) = (cells.next()?, cells.next()?);
    let octet = cells.next()?;
    if is_cell(first, b"name")
        && is_cell(second, b"type")
        && is_cell(start, b"start_time")
        && is_cell(duration, b"duration")
        && is_cell(octet, b"data")
        && is_cell(cells.next().unwrap_or(b"error"), b"error")
    {
        return Some(ExportForm::Logic2);
    }
    None
}

/// A row of Logic 1.
fn parse_logic1(mut cells: Cells<'_>) -> Option<OctetLine>
    ensures { result ≡ logic1_form (cells_left cells.entry) }
{
    let (time, octet) = (cells.next()?, cells.next()?);
    parse_row(time, octet, error_in(cells))
}

/// A parity error, or else a framing error.
fn error_in<'a>(mut cells: Cells<'a>) -> &'a [u8]
    ensures { result.now ≡ error_in (cells_left cells.entry) }
{
    match cells.next() {
        None => &[],
        Some(parity) if parity.is_empty() => cells.next().unwrap_or(&[]),
        Some(parity) => parity,
    }
}

/// A row of Logic 2. One without an octet is of something else.
fn parse_logic2(mut cells: Cells<'_>) -> Option<OctetLine>
    ensures { result ≡ logic2_form (cells_left cells.entry) }
{
    let (_name, _kind) = (cells.next()?, cells.next()?);
    let (start, _duration) = (cells.next()?, cells.next()?);
    let octet = cells.next()?;
    if unquoted(octet).is_empty() {
        return Some(OctetLine::Skipped);
    }
    parse_row(start, octet, cells.next().unwrap_or(&[]))
}

/// An octet with its time, which is damaged where an error is named.
fn parse_row(time: &[u8], octet: &[u8], error: &[u8]) -> Option<OctetLine>
    ensures { result ≡ octet_row time.now octet.now error.now }
{
    let time = table_time(unquoted(time))?;
    if !unquoted(error).is_empty() {
        return Some(OctetLine::Damaged(time));
    }
    Some(OctetLine::Octet(time, parse_octet(unquoted(octet))?))
}

/// Seconds as nanoseconds. Digits behind the ninth place aren't read.
fn table_time(word: &[u8]) -> Option<u64>
    ensures { result ≡ table_time word.now }
{
    parse_time(cut_time(word))
}

/// Seconds with nine places at most.
fn cut_time(word: &[u8]) -> &[u8]
    ensures { result.now ≡ cut_time word.now (position (λ b. b == 46) word.now) }
{
    match place_of(word, b'.') {
        Some(place) if place + 1 + PLACES < word.len() => &word[..place + 1 + PLACES],
        _ => word,
    }
}

/// An annotation, with a hyphen at this place between the numbers of its first and last sample.
fn parse_annotation(rate: u32, line: &[u8], place: usize) -> Option<OctetLine>
    requires { position (λ b. b == 45) line.now ≡ Some place }
    ensures { result ≡ annotation_form rate line.now place }
{
    if place == 0 {
        return None;
    }
    let time = sample_time(rate, digits_behind(0, &line[..place])?)?;
    Some(annotation_shows(time, line))
}

/// When a sample was taken, in nanoseconds.
fn sample_time(rate: u32, sample: u64) -> Option<u64>
    ensures { result ≡ sample_time rate sample }
{
    let rate = u64::from(rate);
    if rate == 0 {
        return None;
    }
    let whole = (sample / rate).checked_mul(SECOND)?;
    whole.checked_add(sample % rate * SECOND / rate)
}

/// What an annotation shows that begins at this time.
fn annotation_shows(time: u64, line: &[u8]) -> OctetLine
    ensures { result ≡ annotation_shows time line.now }
{
    if ends_as(line, b": Frame error") || ends_as(line, b": Parity error") {
        return OctetLine::DamagedBefore;
    }
    match ending_octet(line) {
        Some(octet) => OctetLine::Octet(time, octet),
        None => OctetLine::Skipped,
    }
}

/// Whether this text is the end of a line.
pub(crate) fn ends_as(line: &[u8], text: &[u8]) -> bool
    ensures { result ≡ ends_as line.now text.now }
{
    match line.len().checked_sub(text.len()) {
        Some(begin) => &line[begin..] == text,
        None => false,
    }
}

/// The octet with which a line ends behind a colon.
fn ending_octet(line: &[u8]) -> Option<u8>
    ensures { result ≡ ending_octet line.now }
{
    let begin = line.len().checked_sub(4)?;
    match &line[begin..] {
        [b':', b' ', high, low] => octet_of(*high, *low),
        _ => None,
    }
}
