//! What a reader may conclude of slots: laws, without code.
ghost use Rattle.iol_slots.specs.Laws.{EachSaveIsWholeOrNothing, SavesOutlivePowerCuts};

/// A law of the definitions: wherever the power fails while a content is saved, what is loaded is
/// what was loaded before. Only with the last octet it is the new content.
///
/// Needed by `iol_param_device::laws::cut_changes_are_whole` and the promises of assurance.md.
pub fn each_save_is_whole_or_nothing()
    ensures { EachSaveIsWholeOrNothing }
{}

/// A law of the definitions: after any saves, each of them cut off behind any octet or done, what
/// is loaded is the content of the last one that was done.
///
/// Needed by the promises of assurance.md.
pub fn saves_outlive_power_cuts()
    ensures { SavesOutlivePowerCuts }
{}
