//! Why a text is no capture.
use crate::split_fault::SplitFault;
use thiserror::Error;

/// What is wrong with a line of a capture.
#[derive(Clone, Copy, Debug, PartialEq, Eq, Error)]
pub enum LineFault {
    /// It fits no form, or has more than 1,024 bytes.
    #[error("bad line")]
    BadForm,
    /// Its number isn't that of the next call, or of the message that waits for a reply.
    #[error("wrong number")]
    WrongNumber,
    /// No line says what came back to the message before.
    #[error("no reply line")]
    ReplyMissing,
    /// It says what came back, and no line before it what was sent.
    #[error("no message line")]
    MessageMissing,
    /// It is an annotation without a time.
    #[error("no time: sigrok-cli prints it with --protocol-decoder-samplenum")]
    NoTime,
    /// It has the numbers of samples, and no line above says how many are taken in a second.
    #[error("no samples a second: wanted above is 'Samplerate: HZ'")]
    NoSampleRate,
    /// What it shows can't be split into messages and replies.
    #[error("{0}")]
    Split(SplitFault),
}

/// Why a capture isn't judged.
#[derive(Clone, Copy, Debug, PartialEq, Eq, Error)]
pub enum CaptureFault {
    /// The line of this number, counted from 1. Lines past 2^64 - 1 have that number.
    #[error("line {0}: {1}")]
    Line(u64, LineFault),
    /// A trace of so many lines has no call of the wire.
    #[error("no wake-up request, message or reply in {0} lines: is this what trace prints?")]
    NoCall(u64),
    /// A read failed.
    #[error("read failed")]
    ReadFailed,
}
