//! Why a line of a script that fits a form is refused in its place.
use iol_isdu::Place;
use iol_script::{RunLine, Setting, TextLines, WireLine};
use iol_sim::Step;
use iol_stored_script::{StorageLine, mode_of};
use std::fmt;

/// Why a line of a script is refused in its place.
#[derive(Clone, Copy, Debug, PartialEq, Eq)]
pub enum PlaceFault {
    /// A setting stands behind this line, which is of the wire or a call.
    Late(u64),
    /// The setting was given in this line.
    Twice(u64),
    /// A parameter of this place was given in this line.
    SamePlace(u64),
    /// There are 32 parameters.
    TooManyParams,
    /// There are 32 lines of this setting.
    TooManyOfIt,
    /// No line gave a parameter of this Index that may be written.
    NoWritable,
    /// No line gave a parameter of this place.
    NoParam,
    /// Devices are exchanged, and there is no second one.
    NoOther,
    /// The device changes a parameter, and has no table of them.
    NoTable,
    /// A call of Data Storage, and the port has none.
    NoStorage,
    /// There would be more than 1,000,000 steps.
    TooManySteps,
    /// There would be more than 1,000,000 calls.
    TooManyCalls,
}

impl fmt::Display for PlaceFault {
    fn fmt<W: fmt::Write>(&self, f: &mut fmt::Formatter<W>) -> fmt::Result {
        match self {
            PlaceFault::Late(line) => write!(
                f,
                "a setting; settings stand before the first call and the first line of the wire, line {line}"
            ),
            PlaceFault::Twice(line) => {
                write!(f, "a setting that line {line} gave; it may be given once")
            }
            PlaceFault::SamePlace(line) => {
                write!(
                    f,
                    "a parameter with the index and subindex of that in line {line}"
                )
            }
            PlaceFault::TooManyParams => f.write_str("a 33rd parameter; a device has at most 32"),
            PlaceFault::TooManyOfIt => f.write_str("a 33rd line of this setting; there may be 32"),
            PlaceFault::NoWritable => f.write_str(
                "no such parameter that may be written; wanted above: param INDEX SUB rw H",
            ),
            PlaceFault::NoParam => {
                f.write_str("no parameter there; wanted above: param INDEX SUB ro|rw H")
            }
            PlaceFault::NoTable => f.write_str(
                "no table of parameters; wanted among the settings: kept, range or atmost",
            ),
            PlaceFault::NoOther => {
                f.write_str(
                    "no second device to plug in; wanted among the settings: other OCTET ..",
                )
            }
            PlaceFault::NoStorage => f.write_str(
                "a call of a port with Data Storage; wanted among the settings: store off|restore|both|own",
            ),
            PlaceFault::TooManySteps => {
                f.write_str("with this line more than 1,000,000 steps of the wire")
            }
            PlaceFault::TooManyCalls => f.write_str("with this line more than 1,000,000 calls"),
        }
    }
}

/// Why the line of this number is refused in its place. The lines above it are good.
pub(crate) fn place_fault_of(text: &[u8], number: u64, line: &RunLine) -> Option<PlaceFault> {
    match line {
        RunLine::Skip => None,
        RunLine::Setting(setting) => setting_fault_of(text, number, setting),
        RunLine::Wire(WireLine::One(Step::Swap)) if !has_other(text, number) => {
            Some(PlaceFault::NoOther)
        }
        RunLine::Wire(WireLine::One(Step::Change(..))) if !has_table(text, number) => {
            Some(PlaceFault::NoTable)
        }
        RunLine::Wire(_) => Some(PlaceFault::TooManySteps),
        RunLine::Call(_) => Some(PlaceFault::TooManyCalls),
    }
}

/// Why the line of this number, which is one of Data Storage, is refused in its place.
pub(crate) fn storage_fault_of(text: &[u8], bad: u64, line: &StorageLine) -> Option<PlaceFault> {
    match line {
        StorageLine::Store(_) => store_fault_of(text, bad),
        StorageLine::Call(_) if mode_of(text).is_none() => Some(PlaceFault::NoStorage),
        StorageLine::Call(_) => Some(PlaceFault::TooManyCalls),
    }
}

/// Why the setting of Data Storage is refused in the line of this number.
fn store_fault_of(text: &[u8], bad: u64) -> Option<PlaceFault> {
    for (number, line) in TextLines::of(text) {
        if number >= bad {
            return None;
        }
        if let Some(StorageLine::Store(_)) = StorageLine::parse(line) {
            return Some(PlaceFault::Twice(number));
        }
        if is_late_behind(line) {
            return Some(PlaceFault::Late(number));
        }
    }
    None
}

/// Whether a setting is refused behind this line: it is of the wire, or a call.
fn is_late_behind(line: &[u8]) -> bool {
    match RunLine::parse(line) {
        Some(RunLine::Wire(_) | RunLine::Call(_)) => true,
        Some(RunLine::Skip | RunLine::Setting(_)) => false,
        None => matches!(StorageLine::parse(line), Some(StorageLine::Call(_))),
    }
}

/// Why a setting is refused in the line of this number.
fn setting_fault_of(text: &[u8], bad: u64, setting: &Setting) -> Option<PlaceFault> {
    for (number, line) in TextLines::of(text) {
        if number >= bad {
            break;
        }
        if is_late_behind(line) {
            return Some(PlaceFault::Late(number));
        }
        if let Some(RunLine::Setting(before)) = RunLine::parse(line)
            && let Some(fault) = repeat_fault(setting, &before, number)
        {
            return Some(fault);
        }
    }
    Some(lacking_for(text, bad, setting))
}

/// Why a setting is refused that stands among the settings, and was not given before.
fn lacking_for(text: &[u8], bad: u64, setting: &Setting) -> PlaceFault {
    match setting {
        Setting::Stored(index) if !any_above(text, bad, |it| is_writable_at(it, *index)) => {
            PlaceFault::NoWritable
        }
        Setting::Range(range) if !any_above(text, bad, |it| is_param_at(it, range.place)) => {
            PlaceFault::NoParam
        }
        Setting::Stored(_) | Setting::Range(_) | Setting::AtMost(_) => PlaceFault::TooManyOfIt,
        _ => PlaceFault::TooManyParams,
    }
}

/// Whether a setting is a parameter of this Index that may be written.
fn is_writable_at(setting: &Setting, index: u16) -> bool {
    matches!(setting, Setting::Param { place, writable: true, .. } if place.index == index)
}

/// Whether it is a parameter of this place.
fn is_param_at(setting: &Setting, at: Place) -> bool {
    matches!(setting, Setting::Param { place, .. } if *place == at)
}

/// Whether a second device was given above the line of this number.
fn has_other(text: &[u8], bad: u64) -> bool {
    any_above(text, bad, |it| matches!(it, Setting::Other(_)))
}

/// Whether a line above it made the parameters a table.
fn has_table(text: &[u8], bad: u64) -> bool {
    any_above(text, bad, |it| {
        matches!(
            it,
            Setting::Stored(_) | Setting::Range(_) | Setting::AtMost(_)
        )
    })
}

/// Whether a setting above the line of this number is such a one.
fn any_above<F: Fn(&Setting) -> bool>(text: &[u8], bad: u64, is_it: F) -> bool
    requires { F.IsAlwaysCallable is_it }
{
    for (number, line) in TextLines::of(text) {
        if number >= bad {
            return false;
        }
        if let Some(RunLine::Setting(setting)) = RunLine::parse(line)
            && is_it(&setting)
        {
            return true;
        }
    }
    false
}

/// Why a setting can't follow another one, which this line gave.
fn repeat_fault(setting: &Setting, before: &Setting, line: u64) -> Option<PlaceFault> {
    match (setting, before) {
        (Setting::Param { place, .. }, Setting::Param { place: taken, .. }) => {
            (place == taken).then_some(PlaceFault::SamePlace(line))
        }
        (Setting::Stored(index), Setting::Stored(taken)) => {
            (index == taken).then_some(PlaceFault::Twice(line))
        }
        (Setting::Range(range), Setting::Range(taken)) => {
            (range.place == taken.place).then_some(PlaceFault::Twice(line))
        }
        (Setting::Page(_), Setting::Page(_))
        | (Setting::Other(_), Setting::Other(_))
        | (Setting::Kind(_), Setting::Kind(_))
        | (Setting::MissesPulses, Setting::MissesPulses)
        | (Setting::InOrder, Setting::InOrder)
        | (Setting::Devices(_), Setting::Devices(_))
        | (Setting::Limits { .. }, Setting::Limits { .. }) => Some(PlaceFault::Twice(line)),
        _ => None,
    }
}
