//! What a turn may be: a law, without code.
ghost use Rattle.iol_turns.specs.Admitted.{WakesAreMissed, FrozenAreReported, PowerIsLost, InputsAreShown, RightPagesAreRead, PagesLeadOn};

/// A law of the definitions: what a turn of the abstract port may be, by examples.
///
/// A wake that isn't answered brings nothing, whatever the device does by itself. A good reply in
/// OPERATE reports events that were frozen, and shows the device's input. Where
/// none comes, a power cycle may have taken the events, the input and the output. A start-up reads
/// the page of the right device, and goes on by it.
///
/// Needed by the promises of assurance.md.
pub fn turns_admit()
    ensures wakes { WakesAreMissed }
    ensures reports { FrozenAreReported }
    ensures loses { PowerIsLost }
    ensures shows { InputsAreShown }
    ensures reads { RightPagesAreRead }
    ensures leads { PagesLeadOn }
{}
