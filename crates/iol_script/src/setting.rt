//! The lines of `run` that set something up.
ghost use Rattle.std.specs.Prelude.{◌≡◌, IfSome, IsOk, option_map};
ghost use Rattle.iol_page.specs.Page.{layouts_of};
ghost use Rattle.iol_script.specs.Numerals.{number_in};
ghost use Rattle.iol_script.specs.RunLines.{access_of, devices_form, devices_named, at_most_form, hands_over_of, stored_form, kind_form, limits_form, order_form, page_octets, param_form, pulses_form, journal_form, queue_form, range_form, recalls_of};
ghost use Rattle.iol_script.specs.declared.setting.Setting.{Setting};
ghost use Rattle.iol_script.specs.Text.{words_left};

use crate::fields::{end_of, is, place_of, value_of};
use crate::numerals::{decimal_number, parted_octets};
use crate::parts::Words;
use crate::table_lines::{NumberOrder, NumberRange};
use arrayvec::ArrayVec;
use iol_book::{BusyLimit, JournalLimit, Limits, QueueLimit};
use iol_far::{HandsOver, Kind, Recalls};
use iol_isdu::{Octets, Place};
use iol_mode::Devices;
use iol_page::Page;
use iol_sim::ParameterEntry;

/// A line that sets something up before the first step and the first call.
#[derive(Clone, Debug, PartialEq, Eq, Drop)]
pub enum Setting {
    /// The device's direct parameter page 1, whose layouts are not refused.
    Page(Page),
    /// The page of a second device, whose layouts are not refused.
    Other(Page),
    /// The kind of the device.
    Kind(Kind),
    /// The device may miss the pulse of a wake-up request.
    MissesPulses,
    /// Each line of the wire acts behind the turns that stand above it.
    InOrder,
    /// For which devices the port is opened.
    Devices(Devices),
    /// What the port is opened with.
    Limits {
        /// How many busy replies a request may have before it is cut off.
        busy: BusyLimit,
        /// The most entries that the journal may have.
        journal: JournalLimit,
        /// How many tickets may be outstanding.
        queue: QueueLimit,
    },
    /// Data Storage keeps the parameter of an Index.
    Stored(u16),
    /// A parameter is a number in a range.
    Range(NumberRange),
    /// One number is at most another.
    AtMost(NumberOrder),
    /// One more parameter of the device.
    Param {
        /// Where it lies.
        place: Place,
        /// Whether the master may write it.
        writable: bool,
        /// Its octets at first.
        value: Octets,
    },
}

/// The words behind `page` and `other`: ten octets whose layouts are not refused.
pub(crate) fn page_of(words: Words) -> Option<Page>
    ensures form { result ≡ page_octets (words_left words.entry) }
    ensures range { IfSome result (λ page. IsOk (layouts_of page)) }
{
    let octets: ArrayVec<u8, 10> = parted_octets(words)?;
    let page = Page::from_octets(&octets.into_inner().ok()?);
    match page.layouts() {
        Ok(_) => Some(page),
        Err(_) => None,
    }
}

/// The words behind `kind`: when the device hands a request over, and how long it knows its answer.
pub(crate) fn kind_of(mut words: Words) -> Option<Kind>
    ensures { option_map Setting.Kind result ≡ kind_form (words_left words.entry) }
{
    let hands_over = hands_over_of(words.next()?)?;
    let recalls = recalls_of(words.next()?)?;
    end_of(words)?;
    Some(Kind {
        hands_over,
        recalls,
    })
}

/// At the first START read, or with the last segment.
fn hands_over_of(word: &[u8]) -> Option<HandsOver>
    ensures { result ≡ hands_over_of word.now }
{
    if is(word, b"first") {
        Some(HandsOver::FirstRead)
    } else if is(word, b"last") {
        Some(HandsOver::LastSegment)
    } else {
        None
    }
}

/// Until it is left, or until its last segment was sent.
fn recalls_of(word: &[u8]) -> Option<Recalls>
    ensures { result ≡ recalls_of word.now }
{
    if is(word, b"keeps") {
        Some(Recalls::UntilLeft)
    } else if is(word, b"forgets") {
        Some(Recalls::UntilSent)
    } else {
        None
    }
}

/// The word behind `pulses`: the device may miss those of wake-up requests.
pub(crate) fn pulses_of(mut words: Words) -> Option<()>
    ensures { option_map (λ _. Setting.MissesPulses) result ≡ pulses_form (words_left words.entry) }
{
    let word = words.next()?;
    end_of(words)?;
    is(word, b"missed").then_some(())
}

/// The word behind `in`: lines of the wire act where they stand.
pub(crate) fn order_of(mut words: Words) -> Option<()>
    ensures { option_map (λ _. Setting.InOrder) result ≡ order_form (words_left words.entry) }
{
    let word = words.next()?;
    end_of(words)?;
    is(word, b"order").then_some(())
}

/// The word behind `devices`: for which the port is opened.
pub(crate) fn devices_of(mut words: Words) -> Option<Devices>
    ensures { option_map Setting.Devices result ≡ devices_form (words_left words.entry) }
{
    let devices = devices_named(words.next()?)?;
    end_of(words)?;
    Some(devices)
}

/// For those of our own kind, or for any.
fn devices_named(word: &[u8]) -> Option<Devices>
    ensures { result ≡ devices_named word.now }
{
    if is(word, b"own") {
        Some(Devices::Own)
    } else if is(word, b"any") {
        Some(Devices::Any)
    } else {
        None
    }
}

/// The words behind `limits`: that of busy replies, that of the journal, and that of outstanding
/// tickets, which may be missing.
pub(crate) fn limits_of(mut words: Words) -> Option<Limits>
    ensures form { option_map (λ limits. Setting.Limits limits.busy limits.journal limits.queue)
        result ≡ limits_form (words_left words.entry) }
    ensures given { IfSome result (λ limits. limits.given ≡ 0) }
{
    let busy = BusyLimit::new(decimal_number(words.next()?, 2, 65_535)? as u16)?;
    let journal = journal_of(words.next()?)?;
    let queue = queue_of(words)?;
    Some(Limits {
        journal,
        busy,
        queue,
        given: 0,
    })
}

/// The word of the journal: 4 to 1,000,000 entries, or 0 where none is kept.
fn journal_of(word: &[u8]) -> Option<JournalLimit>
    ensures { result ≡ journal_form word.now }
{
    if is(word, b"0") {
        return Some(JournalLimit::NONE);
    }
    JournalLimit::new(decimal_number(word, 4, 1_000_000)? as u32)
}

/// The word of outstanding tickets, 1 to 64, or none for 64.
fn queue_of(mut words: Words) -> Option<QueueLimit>
    ensures { result ≡ queue_form (words_left words.entry) }
{
    let Some(word) = words.next() else {
        return Some(QueueLimit::MOST);
    };
    end_of(words)?;
    QueueLimit::new(decimal_number(word, 1, 64)? as u8)
}

/// The words behind `param`: a place, whether it may be written, its octets.
pub(crate) fn param_of(mut words: Words) -> Option<ParameterEntry>
    ensures { option_map (λ param. Setting.Param param.place param.writable param.value) result
        ≡ param_form (words_left words.entry) }
{
    let place = place_of(words.next()?, words.next()?)?;
    let writable = access_of(words.next()?)?;
    let value = value_of(words.next()?)?;
    end_of(words)?;
    Some(ParameterEntry {
        place,
        writable,
        value,
    })
}

/// Whether it may be written.
fn access_of(word: &[u8]) -> Option<bool>
    ensures { result ≡ access_of word.now }
{
    match word {
        b"ro" => Some(false),
        b"rw" => Some(true),
        _ => None,
    }
}

/// The word behind `kept`: an Index whose parameter Data Storage keeps.
pub(crate) fn stored_of(mut words: Words) -> Option<u16>
    ensures { option_map Setting.Stored result ≡ stored_form (words_left words.entry) }
{
    let index = decimal_number(words.next()?, 0, 65_535)? as u16;
    end_of(words)?;
    Some(index)
}

/// The words behind `range`: a place, the least and the most that the number there may be.
pub(crate) fn range_of(mut words: Words) -> Option<NumberRange>
    ensures { option_map Setting.Range result ≡ range_form (words_left words.entry) }
{
    let place = place_of(words.next()?, words.next()?)?;
    let least = number_of(words.next()?)?;
    let most = number_of(words.next()?)?;
    end_of(words)?;
    Some(NumberRange { place, least, most })
}

/// A number of up to four octets.
fn number_of(word: &[u8]) -> Option<u32>
    ensures { result ≡ number_in 0 4294967295 word.now }
{
    Some(decimal_number(word, 0, u64::from(u32::MAX))? as u32)
}

/// The words behind `atmost`: the places of two numbers, of which the first is at most the second.
pub(crate) fn at_most_of(mut words: Words) -> Option<NumberOrder>
    ensures { option_map Setting.AtMost result ≡ at_most_form (words_left words.entry) }
{
    let low = place_of(words.next()?, words.next()?)?;
    let high = place_of(words.next()?, words.next()?)?;
    end_of(words)?;
    Some(NumberOrder { low, high })
}
