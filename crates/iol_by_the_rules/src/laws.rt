//! The law of a port and its watch, carried by a function that does nothing when it runs.
ghost use Rattle.iol_by_the_rules.specs.Line.{PortsAreByTheRules};

use iol_far::texts_are_heard;
use iol_page::pages_ask_for_layouts;
use iol_segment::texts_join;

/// No message of a port is ever blamed: in each run of a port as it is opened, for our own devices
/// or for any, whatever comes back, and whatever calls come between.
///
/// Needed by the promises of assurance.md.
pub fn ports_are_by_the_rules()
    ensures { PortsAreByTheRules }
{
    texts_are_heard();
    pages_ask_for_layouts();
    texts_join();
}
