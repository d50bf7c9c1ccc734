//! The laws of the layouts that a page asks for, and of cycle times, without code.
ghost use Rattle.iol_page.specs.Cycle.{CyclesAreOrdered};
ghost use Rattle.iol_page.specs.Page.{PagesAskForLayouts};

/// A law of the definitions, without code: what a page asks for are layouts, that of
/// PREOPERATE without process data and only in V1.1, and ISDU where the capability says so.
///
/// Needed by `iol_app::laws::rise_gives`, `iol_by_the_rules::laws::ports_are_by_the_rules`,
/// `iol_device::far_end::open` and 7 more.
#[tactic(auto, using(crate::proofs::Asked::pages_ask_for_layouts))]
pub fn pages_ask_for_layouts()
    ensures { PagesAskForLayouts }
{}

/// A law of the definitions, without code: of two cycle times the longer one has the larger octet.
///
/// For who compares two cycle times by their octets.
pub fn cycles_are_ordered()
    ensures { CyclesAreOrdered }
{}
