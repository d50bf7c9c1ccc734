//! What a reader may conclude of a saved manager: a law, without code of its own.
ghost use Rattle.iol_param_device.specs.Laws.{CutChangesAreWhole};

use iol_slots::each_save_is_whole_or_nothing;

/// A law of the definitions: a change whose save the power cuts off, behind whatever octet, is
/// whole or it isn't there. A manager that is opened anew has the values, locks and flag from
/// before the change. Only with the last octet it has those behind it.
///
/// Needed by the promises of assurance.md.
pub fn cut_changes_are_whole()
    ensures { CutChangesAreWhole }
{
    each_save_is_whole_or_nothing();
}
