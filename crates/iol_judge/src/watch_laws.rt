//! Laws of the watch, each carried by a function that does nothing when it runs.
ghost use Rattle.iol_judge.specs.WatchLaws.{FaultsStay, RepeatsAreFair, WakesAreFair};

/// What the watch never blames, and that it stays with its verdict: a message without a good reply
/// that is sent again, a wake-up request; the first fault, whatever comes behind it.
///
/// For who has a master judged that repeats messages and wakes devices.
#[tactic(auto, using(crate::proofs::WatchFair::repeats_are_fair))]
pub fn repeats_and_wakes_are_fair()
    ensures repeats { RepeatsAreFair }
    ensures wakes { WakesAreFair }
    ensures faults { FaultsStay }
{}
