//! The words of the command line.
ghost use Rattle.std.specs.Prelude.{◌≡◌};

use crate::help::{self, Help};
use clap::{Arg, ArgAction, ArgMatches, Command, Error};
use iol_capture::CaptureForm;
use iol_judge::Odd;
use iol_link::Rate;
use std::alloc::{AllocError, Global};
use std::convert::AsStr;

/// A command that ends well where all is printed.
#[derive(Clone, Copy, Debug, PartialEq, Eq)]
pub(crate) enum PrintingCommand {
    /// Prints what each line of its input says.
    Check,
    /// Makes the calls of a script, and prints what each of them answers.
    Run,
    /// Does what `run` does, and prints what goes over the wire too.
    Trace,
    /// Lets the clients of many ports submit requests, and prints what became of them.
    Many,
}

impl PrintingCommand {
    ghost use Rattle.iolink.specs.Command.{mode_named};

    /// The command of this name.
    fn named(name: &str) -> Option<PrintingCommand>
        ensures { result ≡ mode_named name.now }
    {
        match name.as_bytes() {
            b"check" => Some(PrintingCommand::Check),
            b"run" => Some(PrintingCommand::Run),
            b"trace" => Some(PrintingCommand::Trace),
            b"many" => Some(PrintingCommand::Many),
            _ => None,
        }
    }
}

/// What the command line asks for.
#[derive(Clone, Copy, Debug, PartialEq, Eq)]
pub(crate) enum AskedCommand {
    /// A command that ends well where all is printed.
    Mode(PrintingCommand),
    /// Says whether a device by the rules could have brought a capture in this form, and does this
    /// with odd replies.
    Judge(CaptureForm, Odd),
    /// The same of the octets of a line with this rate, and prints the calls that they are split
    /// into.
    JudgeTraced(Rate, Odd),
}

/// What is shown of a capture that is judged.
#[derive(Clone, Copy, Debug, PartialEq, Eq)]
pub(crate) enum Shown {
    /// What was found.
    Finding,
    /// That, and the calls that octets are split into.
    Calls,
}

impl AskedCommand {
    ghost use Rattle.iolink.specs.Command.{asked_judging, asked_named};

    /// What this name asks for, with the form of a capture, what is to be done with odd replies,
    /// and what is to be shown.
    fn named(name: &str, form: CaptureForm, odd: Odd, shown: Shown) -> Option<AskedCommand>
        ensures { result ≡ asked_named name.now form odd shown }
    {
        match name.as_bytes() {
            b"judge" => Some(AskedCommand::judging(form, odd, shown)),
            _ => Some(AskedCommand::Mode(PrintingCommand::named(name)?)),
        }
    }

    /// What `judge` asks for. A trace shows its calls itself.
    fn judging(form: CaptureForm, odd: Odd, shown: Shown) -> AskedCommand
        ensures { result ≡ asked_judging form odd shown }
    {
        match (form, shown) {
            (CaptureForm::Octets(rate), Shown::Calls) => AskedCommand::JudgeTraced(rate, odd),
            _ => AskedCommand::Judge(form, odd),
        }
    }
}

/// Whether a bad line is explained.
#[derive(Clone, Copy, Debug, PartialEq, Eq)]
pub(crate) enum BadLines {
    /// Its number is said.
    Numbered,
    /// That, and what is wrong with it.
    Explained,
}

/// What the words ask for, the program's own name first.
pub(crate) fn asked_by<'a, S: AsStr>(
    alloc: Global,
    texts: &'a Help,
    words: &'a [S],
) -> Result<(AskedCommand, BadLines), Error> {
    let matches = command(alloc, texts)?.try_get_matches_from(words)?;
    // One of the five is named, since clap refuses all other words.
    let Some((name, words)) = matches.subcommand() else {
        return Ok((
            AskedCommand::Mode(PrintingCommand::Check),
            BadLines::Numbered,
        ));
    };
    let form = form_of(octets_rate(words));
    let asked = AskedCommand::named(name, form, odd_of(words), shown_of(words)).unwrap_or(
        AskedCommand::Mode(PrintingCommand::Check),
    );
    Ok((asked, bad_lines_of(words)))
}

/// The flag of each command.
const WHY: &str = "why";

/// Whether a bad line is to be explained, by the words behind the command.
fn bad_lines_of(words: &ArgMatches<'_>) -> BadLines {
    if words.get_flag(WHY) {
        BadLines::Explained
    } else {
        BadLines::Numbered
    }
}

/// The flag that has a bad line explained.
fn why_flag<'a>(alloc: Global) -> Arg<'a> {
    Arg::new(alloc, WHY)
        .long(WHY)
        .action(ArgAction::SetTrue)
        .help("Says of a bad line what is wrong with it, in which column, and what is wanted there")
}

/// The option of `judge` that has octets read.
const OCTETS: &str = "octets";

/// The flag of `judge` that has odd replies passed over.
const ODD: &str = "odd";

/// The flag of `judge` that has the calls shown.
const TRACE: &str = "trace";

/// The rate of the octets that are to be read, by the words behind the command.
fn octets_rate(words: &ArgMatches<'_>) -> Option<Rate> {
    rate_named(words.get_str(OCTETS)?)
}

ghost use Rattle.iolink.specs.Command.{form_of, rate_named, rate_of_digit};

/// The rate of a word, in upper or lower case.
fn rate_named(word: &str) -> Option<Rate>
    ensures { result ≡ rate_named word.now }
{
    match word.as_bytes() {
        [b'c' | b'C', b'o' | b'O', b'm' | b'M', digit] => rate_of_digit(*digit),
        _ => None,
    }
}

/// The rate by the digit of its name.
fn rate_of_digit(digit: u8) -> Option<Rate>
    ensures { result ≡ rate_of_digit digit }
{
    match digit {
        b'1' => Some(Rate::Com1),
        b'2' => Some(Rate::Com2),
        b'3' => Some(Rate::Com3),
        _ => None,
    }
}

/// The form of a capture, by the rate of its octets.
fn form_of(rate: Option<Rate>) -> CaptureForm
    ensures { result ≡ form_of rate }
{
    match rate {
        Some(rate) => CaptureForm::Octets(rate),
        None => CaptureForm::Trace,
    }
}

/// The option that has octets read.
fn octets_option<'a>(alloc: Global) -> Arg<'a> {
    Arg::new(alloc, OCTETS)
        .long(OCTETS)
        .value_name("RATE")
        .value_parser(["com1", "com2", "com3"].as_slice())
        .ignore_case(true)
        .help("Reads what a decoder shows of a line with this rate")
}

/// What is to be done with odd replies, by the words behind the command.
fn odd_of(words: &ArgMatches<'_>) -> Odd {
    if words.get_flag(ODD) {
        Odd::PassedOver
    } else {
        Odd::Blamed
    }
}

/// The flag that has odd replies passed over.
fn odd_flag<'a>(alloc: Global) -> Arg<'a> {
    Arg::new(alloc, ODD)
        .long(ODD)
        .action(ArgAction::SetTrue)
        .help("Counts replies that are odd, but harmless, and passes them over")
}

/// What is to be shown, by the words behind the command.
fn shown_of(words: &ArgMatches<'_>) -> Shown {
    if words.get_flag(TRACE) {
        Shown::Calls
    } else {
        Shown::Finding
    }
}

/// The flag that has the calls shown which octets are split into.
fn trace_flag<'a>(alloc: Global) -> Result<Arg<'a>, AllocError> {
    Arg::new(alloc, TRACE)
        .long(TRACE)
        .action(ArgAction::SetTrue)
        .help("Prints the calls that octets are split into, each with its time")
        .requires_arg(OCTETS)
}

fn judge<'a>(alloc: Global, texts: &'a Help) -> Result<Command<'a>, AllocError> {
    Command::new(alloc, "judge")
        .about(
            "Reads what trace prints, and says whether a device by the rules could have brought it",
        )
        .after_help(texts.judge.as_str())
        .arg(octets_option(alloc))?
        .arg(trace_flag(alloc)?)?
        .arg(odd_flag(alloc))?
        .arg(why_flag(alloc))
}

/// The command line of the program.
fn command<'a>(alloc: Global, texts: &'a Help) -> Result<Command<'a>, AllocError> {
    let check = Command::new(alloc, "check")
        .about("Reads layouts, master messages and replies, one a line, and prints what each says")
        .after_help(texts.check.as_str())
        .arg(why_flag(alloc))?;
    let run = Command::new(alloc, "run")
        .about(
            "Reads a script, makes its calls on a port over a simulated wire, and prints what each answers",
        )
        .after_help(texts.run.as_str())
        .arg(why_flag(alloc))?;
    let trace = Command::new(alloc, "trace")
        .about("Does what run does, and prints what goes over the wire too")
        .after_help(help::TRACE)
        .arg(why_flag(alloc))?;
    let many = Command::new(alloc, "many")
        .about(
            "Reads a plan, lets the clients of its ports submit reads, and prints what became of them",
        )
        .after_help(texts.many.as_str())
        .arg(why_flag(alloc))?;
    Command::new(alloc, "iolink")
        .about("IO-Link master and device")
        .version(help::VERSION)
        .after_help(help::PROGRAM)
        .subcommand_required(true)
        .subcommand(check)?
        .subcommand(run)?
        .subcommand(trace)?
        .subcommand(many)?
        .subcommand(judge(alloc, texts)?)
}
