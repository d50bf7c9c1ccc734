//! Laws of the definitions that the contracts cite.
ghost use Rattle.iol_event.specs.Laws.{MemoryStaysValid, GivesMarkedPlaces, AsksInOrder, WaitsForAll, GivesFrozen, ReadsWhole};

/// A law of the definitions: what is raised and heard keeps an event memory within its bounds.
///
/// Needed by `iol_app::laws::receive_gives` and `iol_far::laws::parts_stay_regular`.
pub fn memory_stays_valid()
    ensures { MemoryStaysValid }
{}

/// A law of the definitions: a new reader that is given the octets of any device,
/// at the addresses that it asks for, answers with the last of them the events of
/// the marked places in rising order, and with none before.
///
/// For who reads the events of a device of another maker.
pub fn reading_gives_the_marked_places()
    ensures { GivesMarkedPlaces }
{}

/// A law of the definitions: a new reader that is given the octets of one frozen
/// memory, at the addresses that it asks for, asks for 0 and then for the three
/// addresses of each filled place, and answers the frozen events with the last.
///
/// Needed by `iol_app::laws::receive_gives` and the promises of assurance.md.
pub fn reading_gives_the_frozen_list()
    ensures addresses { AsksInOrder }
    ensures waits { WaitsForAll }
    ensures gives { GivesFrozen }
    ensures whole { ReadsWhole }
{}
