//! The program `iolink`: it reads standard input to its end, and prints what its command makes of
//! it.
//!
//! It ends with status 0; with status 1 and one line on standard error where the command fails, and
//! with `--why` a second one where that is for a bad line; or with status 2 and the text of `clap`
//! on standard error where the command line is refused, or asks for help or the version. `judge`
//! ends with status 1 where the capture isn't honest, or it can't say, and with status 2 where it
//! fails.
//!
//! Definitions: `specs/Command`, `specs/Performed` and `specs/Ending`.
#![tactic(auto)]

mod command;
mod ending;
mod explaining;
mod help;
mod performing;

use crate::command::{AskedCommand, asked_by};
use crate::ending::{Ending, exit_of};
use crate::explaining::{keeping_for, mistake_at};
use crate::help::Help;
use crate::performing::{perform, perform_judge, perform_judge_traced};
use iol_commands::ProgramFault;
use iol_why::RetainedInput;
use std::alloc::Global;
use std::process::ExitCode;
use std::rt::Runtime;
use std::sync::Wait;
use std::thread::Threads;
use std::{env, io};

/// Reads the command line, and carries out its command. Where that ends at a bad line which is to
/// be explained, the text is put into `why`.
fn work<R: Runtime<A = Global> + Threads + Wait + Sync>(
    rt: &R,
    why: &mut String,
) -> Result<(), Ending> {
    let words = match env::args(rt) {
        Ok(words) => words,
        Err(error) if error.kind() == io::ErrorKind::OutOfMemory => {
            return Err(ProgramFault::OutOfMemory.into());
        }
        Err(_) => return Err(Ending::NoText),
    };
    let words: Vec<String> = words
        .collect(rt.alloc())
        .map_err(|_| ProgramFault::OutOfMemory)?;
    let help = Help::new(rt.alloc()).map_err(|_| ProgramFault::OutOfMemory)?;
    let (asked, lines) = asked_by(rt.alloc(), &help, words.as_slice())?;
    let mut reader = RetainedInput::new(rt.alloc(), rt.reader(), keeping_for(asked, lines));
    let mut writer = io::writer(rt);
    let outcome = match asked {
        AskedCommand::Mode(mode) => {
            perform(rt, rt.alloc(), mode, &mut reader, &mut writer).map_err(Ending::Failed)
        }
        AskedCommand::Judge(form, odd) => {
            perform_judge(rt.alloc(), form, odd, &mut reader, &mut writer)
        }
        AskedCommand::JudgeTraced(rate, odd) => {
            perform_judge_traced(rt.alloc(), rate, odd, &mut reader, &mut writer)
        }
    };
    if let Err(ending) = &outcome
        && let Some(mistake) = reader
            .text()
            .and_then(|text| mistake_at(asked, text, ending))
    {
        // Without memory the number of the line is all that is said.
        let _ = writeln!(why, "  {mistake}");
    }
    outcome
}

fn main(rt: HostRuntime) -> ExitCode {
    let mut why = String::new(rt.alloc());
    let outcome = work(&rt, &mut why);
    if let Err(ending) = &outcome {
        // Nobody is left to tell where the text can't be written.
        let _ = eprint!(rt; "{ending}{why}");
    }
    exit_of(&outcome)
}
