//! The time between the octets of a line (IEC 61131-9, A.3).
ghost use Rattle.std.specs.Prelude.{◌≡◌, ◌≤◌};
ghost use Rattle.iol_capture.specs.Times.{bit_time, gap_of, halves};

use iol_link::Rate;

/// A UART frame, in halves of T_BIT: 11 bits (IEC 61131-9, 5.3.3).
const FRAME: u64 = 22;

/// How far a measured time may be off, in halves of T_BIT.
const TOLERANCE: u64 = 1;

/// The longest time between the frames of a message: 1 T_BIT (IEC 61131-9, A.3.3).
const IN_MESSAGE: u64 = 2;

/// The longest time between the frames of a reply: 3 T_BIT (IEC 61131-9, A.3.4).
const IN_REPLY: u64 = 6;

/// The shortest time between a message and its reply: 1 T_BIT (IEC 61131-9, A.3.5).
const BEFORE_REPLY: u64 = 2;

/// The longest time between a message and its reply: 10 T_BIT (IEC 61131-9, A.3.5).
const RESPONSE: u64 = 20;

/// T_BIT, in nanoseconds, to the nearest one (IEC 61131-9, A.3.2).
pub fn bit_time(rate: Rate) -> u64
    ensures { result ≡ bit_time rate }
{
    match rate {
        Rate::Com1 => 208_333,
        Rate::Com2 => 26_042,
        Rate::Com3 => 4_340,
    }
}

/// How long behind one octet the next one begins. Each limit has a tolerance of half a T_BIT.
#[derive(Clone, Copy, Debug, PartialEq, Eq)]
pub(crate) enum Gap {
    /// Before the frame has ended.
    Overlap,
    /// Sooner behind it than a reply behind a message.
    Close,
    /// Up to the longest time within a message.
    Message,
    /// Up to the longest time within a reply.
    Reply,
    /// Up to the longest time between a message and its reply.
    Response,
    /// Later.
    Pause,
}

impl Gap {
    /// The gap where the next octet begins so many nanoseconds behind the begin of one.
    pub fn of(rate: Rate, elapsed: u64) -> Gap
        ensures { result ≡ gap_of rate elapsed }
    {
        if elapsed < halves(rate, FRAME - TOLERANCE) {
            Gap::Overlap
        } else if elapsed < halves(rate, FRAME + BEFORE_REPLY - TOLERANCE) {
            Gap::Close
        } else if elapsed <= halves(rate, FRAME + IN_MESSAGE + TOLERANCE) {
            Gap::Message
        } else if elapsed <= halves(rate, FRAME + IN_REPLY + TOLERANCE) {
            Gap::Reply
        } else if elapsed <= halves(rate, FRAME + RESPONSE + TOLERANCE) {
            Gap::Response
        } else {
            Gap::Pause
        }
    }
}

/// So many halves of T_BIT, in nanoseconds.
fn halves(rate: Rate, count: u64) -> u64
    requires { count ≤ 64 }
    ensures { result ≡ halves rate count }
{
    count * bit_time(rate) / 2
}
