//! How requests, answers, outcomes and standings are printed.
use iol_book::Outcome;
use iol_isdu::{Answer, Place, Request};
use iol_storage::{Agreement, DownloadResult, StorageStanding, Trouble};
use std::fmt;

/// Octets in one word, `-` for none.
#[derive(Drop)]
pub struct Hex<'a>(pub &'a [u8]);

#[derive(Drop)]
pub struct RequestText<'a>(pub &'a Request);

#[derive(Drop)]
pub struct AnswerText<'a>(pub &'a Answer);

#[derive(Drop)]
pub struct OutcomeText<'a>(pub &'a Outcome);

#[derive(Drop)]
pub struct StandingText(pub StorageStanding);

#[derive(Drop)]
pub struct BlockText(pub DownloadResult);

impl fmt::Display for Hex<'_> {
    fn fmt<W: fmt::Write>(&self, f: &mut fmt::Formatter<W>) -> fmt::Result {
        if self.0.is_empty() {
            write!(f, "-")?;
        }
        for octet in self.0 {
            write!(f, "{octet:02X}")?;
        }
        Ok(())
    }
}

impl fmt::Display for RequestText<'_> {
    fn fmt<W: fmt::Write>(&self, f: &mut fmt::Formatter<W>) -> fmt::Result {
        match self.0 {
            Request::Read(Place { index, sub }) => write!(f, "read {index} {sub}"),
            Request::Write(Place { index, sub }, octets) => {
                write!(f, "write {index} {sub} {}", Hex(octets.as_slice()))
            }
        }
    }
}

impl fmt::Display for AnswerText<'_> {
    fn fmt<W: fmt::Write>(&self, f: &mut fmt::Formatter<W>) -> fmt::Result {
        match self.0 {
            Answer::Read(octets) => write!(f, "={}", Hex(octets.as_slice())),
            Answer::Written => write!(f, "written"),
            Answer::Refused(error, additional) => write!(f, "!{error:02X}{additional:02X}"),
        }
    }
}

impl fmt::Display for OutcomeText<'_> {
    fn fmt<W: fmt::Write>(&self, f: &mut fmt::Formatter<W>) -> fmt::Result {
        match self.0 {
            Outcome::Done(answer) => write!(f, "{}", AnswerText(answer)),
            Outcome::Unknown(_) => write!(f, "unknown"),
            Outcome::Withdrawn => write!(f, "withdrawn"),
            Outcome::NoIsdu => write!(f, "noisdu"),
        }
    }
}

impl fmt::Display for StandingText {
    fn fmt<W: fmt::Write>(&self, f: &mut fmt::Formatter<W>) -> fmt::Result {
        match self.0 {
            StorageStanding::Awaited => write!(f, "awaited"),
            StorageStanding::Served(served) => write!(f, "served {}", served_word(served)),
            StorageStanding::Trouble(trouble) => write!(f, "trouble {}", trouble_word(trouble)),
            StorageStanding::Released(trouble) => write!(f, "released {}", trouble_word(trouble)),
        }
    }
}

impl fmt::Display for BlockText {
    fn fmt<W: fmt::Write>(&self, f: &mut fmt::Formatter<W>) -> fmt::Result {
        match self.0 {
            DownloadResult::Applied => write!(f, "applied"),
            DownloadResult::Refused(refusal) => {
                let Place { index, sub } = refusal.place;
                let (error, additional) = (refusal.error, refusal.additional);
                write!(f, "refused {index} {sub} {error:02X}{additional:02X}")
            }
            DownloadResult::FlagSet => write!(f, "flagset"),
            DownloadResult::NotApplied => write!(f, "notapplied"),
            DownloadResult::Unknown(_) => write!(f, "unknown"),
            DownloadResult::NoIsdu => write!(f, "noisdu"),
        }
    }
}

fn served_word(served: Agreement) -> &'static str {
    match served {
        Agreement::Off => "off",
        Agreement::Unsupported => "unsupported",
        Agreement::Empty => "empty",
        Agreement::Same => "same",
        Agreement::Restored => "restored",
        Agreement::Fetched => "fetched",
    }
}

fn trouble_word(trouble: Trouble) -> &'static str {
    match trouble {
        Trouble::WrongIdentity => "identity",
        Trouble::NoStorage => "nostorage",
        Trouble::Locked => "locked",
        Trouble::TooLarge => "toolarge",
        Trouble::BadList => "badlist",
        Trouble::Refused(_) => "refused",
        Trouble::Attempts => "attempts",
    }
}
