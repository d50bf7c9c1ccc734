//! Why no master by the rules would have sent a message.
ghost use Rattle.std.specs.Prelude.{◌≡◌};

use thiserror::Error;

// The numbers: their one table, which the definitions cite.
const WAKE_DUE: u8 = 1;

const NOT_REPEATED: u8 = 2;

const NOT_START_UP: u8 = 3;

const NOT_WELL_FORMED: u8 = 4;

const OUTPUT_OCTETS: u8 = 5;

const NOT_DUE: u8 = 6;

const REQUEST_TEXT: u8 = 7;

const NOT_IN_LINE: u8 = 8;

/// Why no master by the rules would have sent a message.
///
/// A new message is one behind a good reply, or behind an answered wake-up request. Of a new
/// message the first that holds is named.
#[derive(Clone, Copy, Debug, PartialEq, Eq, Error)]
pub enum Blame {
    /// 1: a wake-up request was due: the last one wasn't answered, or three attempts in a row had
    /// no good reply since.
    #[error("WakeDue")]
    WakeDue,
    /// 2: the message before had no good reply, and these aren't its octets. A START read
    /// may go out in place of a START write that holds a whole request, and a StatusCode read in
    /// that of a confirm.
    #[error("NotRepeated")]
    NotRepeated,
    /// 3: in STARTUP a message of another channel than the page's; a master command that isn't
    /// allowed in the mode; or a MasterCycleTime that MinCycleTime doesn't allow, or before that
    /// was read.
    ///
    /// Allowed are, in STARTUP, MasterIdent, DeviceIdent and DeviceStartup; DevicePreoperate
    /// behind MasterIdent to a device of V1.1, and DeviceOperate behind MasterCycleTime to one of
    /// V1.0, both only where the page's octets 0x03 to 0x06 are known and ask for layouts;
    /// in PREOPERATE DeviceOperate behind MasterCycleTime; in OPERATE ProcessDataOutputOperate and
    /// DeviceOperate.
    #[error("NotStartUp")]
    NotStartUp,
    /// 4: the octets are no message in the layout of the mode.
    #[error("NotWellFormed")]
    NotWellFormed,
    /// 5: other process data out than the message before had, while the device's output isn't
    /// valid, and the message doesn't make it valid. The first of a session may have
    /// zeros. Of the first in a capture nothing is said, since what went before isn't
    /// known.
    #[error("OutputOctets")]
    OutputOctets,
    /// 6: an ISDU or event message that nothing asks for.
    ///
    /// - START write while a request is under way, or to a device without ISDU;
    /// - COUNT write without a request that was begun; START read without one that was written
    ///   whole, or once its answer has begun; COUNT read before that;
    /// - IDLE while a request is under way, ABORT while none is; behind "no service" or a refused
    ///   answer all but ABORT. Behind zeros that end an answer at a repeated COUNT read, and "no
    ///   service" to a START read in place of a START write, none is, but ABORT is allowed;
    /// - a flow that is reserved;
    /// - a read of events without the Event flag in the last good reply, or behind a StatusCode
    ///   that was refused; one at another address than the reading's next;
    /// - a confirm before the list was read whole; any other diagnosis write.
    #[error("NotDue")]
    NotDue,
    /// 7: the segments written are the beginning of no request; they go on behind it; or the
    /// octets behind it in its last segment aren't zeros.
    #[error("RequestText")]
    RequestText,
    /// 8: a COUNT, written or read, isn't the one behind the last.
    #[error("NotInLine")]
    NotInLine,
}

impl Blame {
    ghost use Rattle.iol_judge.specs.BlameNumbers.{blame_number};

    /// The number of the fault.
    pub fn code(&self) -> u8
        ensures { result ≡ blame_number self.now }
    {
        match self {
            Blame::WakeDue => WAKE_DUE,
            Blame::NotRepeated => NOT_REPEATED,
            Blame::NotStartUp => NOT_START_UP,
            Blame::NotWellFormed => NOT_WELL_FORMED,
            Blame::OutputOctets => OUTPUT_OCTETS,
            Blame::NotDue => NOT_DUE,
            Blame::RequestText => REQUEST_TEXT,
            Blame::NotInLine => NOT_IN_LINE,
        }
    }
}
