//! What a turn says.
ghost use Rattle.std.specs.Prelude.{◌≡◌};
ghost use Rattle.iol_app.specs.declared.report.Said.{Said};

use iol_event::EventList;
use iol_isdu::{Answer, Cause};

/// What one turn tells the program: the first of these that the turn has.
#[derive(Clone, Debug, PartialEq, Eq, Drop)]
pub enum Said {
    /// No request is under way.
    Idle,
    /// A request is under way.
    Busy,
    /// The request that was under way has this answer.
    Answered(Answer),
    /// The request that was under way is cut off.
    Cut(Cause),
    /// The events that the device had frozen were read.
    Reported(EventList),
}

impl Said {
    /// Says that no request is under way, and fills nothing where that is said already: most
    /// turns say so.
    pub(crate) fn set_idle(&mut self)
        ensures { self.new ≡ Said.Idle }
    {
        if !matches!(self, Said::Idle) {
            *self = Said::Idle;
        }
    }
}
