//! The link and its events, as C sees them.
ghost use Rattle.std.specs.Prelude.{◌≡◌};
ghost use Rattle.iolink_port_forms.specs.Shown.{IsEvent, StatusIsShown};

use iol_app::{Mode, Status};
use iol_event::Event;

/// An event that was kept.
#[repr(C)]
pub struct IolEvent {
    pub qualifier: u8,
    pub code: u16,
}

/// Shows C an event.
pub fn show_event(event: Event, out: &mut IolEvent)
    ensures { IsEvent event out.new }
{
    out.qualifier = event.qualifier;
    out.code = event.code;
}

/// How the link of a port is.
#[repr(C)]
pub struct IolStatus {
    /// 1 down, 2 startup, 3 preoperate, 4 operate.
    pub mode: u8,
    /// Of a link that is down the number of the fault that led there, 0 where there was none.
    pub why: u8,
    /// Whether a reading of events met a form that the master doesn't know.
    pub event_form: bool,
}

/// Shows C how the link is.
pub fn show_status(status: &Status, out: &mut IolStatus)
    ensures { StatusIsShown status.now out.new }
{
    out.mode = match status.mode {
        Mode::Down => 1,
        Mode::Startup => 2,
        Mode::Preoperate => 3,
        Mode::Operate => 4,
    };
    out.why = match &status.why {
        Some(why) => why.code(),
        None => 0,
    };
    out.event_form = status.event_form;
}
