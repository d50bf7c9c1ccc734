//! Why the line is bad at which a command has ended.
use crate::command::{AskedCommand, BadLines, PrintingCommand};
use crate::ending::Ending;
use iol_capture::{CaptureFault, CaptureForm};
use iol_commands::{JudgeFault, ProgramFault};
use iol_why::{
    Keeping, Mistake, RetainedText, explain_capture, explain_check, explain_plan, explain_script,
};

/// How much of the input has to be kept, so that a bad line can be explained.
pub(crate) fn keeping_for(asked: AskedCommand, lines: BadLines) -> Keeping {
    match (lines, asked) {
        (BadLines::Numbered, _) => Keeping::Nothing,
        (BadLines::Explained, AskedCommand::Mode(_)) => Keeping::All,
        (BadLines::Explained, AskedCommand::Judge(..) | AskedCommand::JudgeTraced(..)) => {
            Keeping::LastLines
        }
    }
}

/// What is wrong with the line at which a command has ended, if it ended at one.
pub(crate) fn mistake_at<'a>(
    asked: AskedCommand,
    text: RetainedText<'a>,
    ending: &Ending,
) -> Option<Mistake<'a>> {
    match (asked, ending) {
        (AskedCommand::Mode(mode), Ending::Failed(ProgramFault::Line(number))) => {
            mistake_in(mode, text, *number)
        }
        (
            AskedCommand::Judge(form, _),
            Ending::NotJudged(JudgeFault::Capture(CaptureFault::Line(number, fault))),
        ) => explain_capture(form, text, *number, *fault),
        (
            AskedCommand::JudgeTraced(rate, _),
            Ending::NotJudged(JudgeFault::Capture(CaptureFault::Line(number, fault))),
        ) => explain_capture(CaptureForm::Octets(rate), text, *number, *fault),
        _ => None,
    }
}

/// What is wrong with the line of this number, the first bad one of a command.
fn mistake_in<'a>(
    mode: PrintingCommand,
    text: RetainedText<'a>,
    number: u64,
) -> Option<Mistake<'a>> {
    match mode {
        PrintingCommand::Check => explain_check(text, number),
        PrintingCommand::Run | PrintingCommand::Trace => explain_script(text, number),
        PrintingCommand::Many => explain_plan(text, number),
    }
}
