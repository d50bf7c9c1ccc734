//! What holds of every port over a simulated wire, beside what its own contracts say.
ghost use Rattle.std.specs.Prelude.{◌≡◌, None, IfSome};
ghost use Rattle.iol_device.specs.App.{Follows};
ghost use Rattle.iol_sim.specs.Params.{AnsweredBy};
ghost use Rattle.iol_sim.specs.Script.{AreThose};
ghost use Rattle.iol_sim.specs.Sim.{sim_devices};
ghost use Rattle.iol_port.specs.View.{OpensWell};
ghost use Rattle.iol_port_tests.specs.MissedPulse.{PulsesAreMissed};
ghost use Rattle.iol_port_tests.specs.ShowsHistory.{ShowsHistory};

use iol_cell::Handle;
use iol_device::App;
use iol_far::texts_are_heard;
use iol_link::Wire;
use iol_port::Port;
use iol_sim::{Params, Sim};
use std::alloc::Allocator;

/// A law of each port over a simulated wire of one device, without code of its own: whatever
/// calls were made of it, the application at the far end is what the one that was there at
/// the opening becomes by carrying out the requests of the device's record, in their
/// order, each once and with the answer that stands beside it, and by nothing else.
#[tactic(auto, using(crate::proofs::FirstApp::follows_first))]
pub fn first_app_follows_record<P: App, B: Allocator + Copy, A: Handle>(port: &Port<Sim<P, B>, A>)
    ensures { port.now.opening.wire.away ≡ None
        → Follows P.carry_out_gives port.now.opening.wire.device.first
        port.now.wire.device.far.carried
        port.now.wire.device.app }
{
    port.keeps_record();
    port.wire().app_follows_record();
}

/// The same of one device and of two: each device is one of the opening, with the application
/// with which it was opened, and what its application is follows from its own record.
pub fn each_app_follows_record<P: App, B: Allocator + Copy, A: Handle>(port: &Port<Sim<P, B>, A>)
    ensures those { AreThose (sim_devices port.now.opening.wire)
        (sim_devices port.now.wire) }
    ensures device { let device = port.now.wire.device in
        Follows P.carry_out_gives device.first device.far.carried device.app }
    ensures away { IfSome port.now.wire.away (λ away.
        Follows P.carry_out_gives away.device.first away.device.far.carried away.device.app) }
{
    port.keeps_record();
    port.wire().app_follows_record();
    port.wire().away_follows_record();
}

/// The same over parameters: each request of the record was answered by those of
/// the opening, as the requests before it had left them.
#[tactic(auto, using(crate::proofs::FirstApp::answered_first))]
pub fn record_is_answered_by_the_first_params<B: Allocator + Copy, A: Handle>(
    port: &Port<Sim<Params, B>, A>,
)
    ensures { port.now.opening.wire.away ≡ None
        → AnsweredBy port.now.opening.wire.device.first
        port.now.wire.device.far.carried
        port.now.wire.device.app }
{
    port.keeps_record();
    port.wire().record_is_answered_by_params();
}

/// A law of each port, by its claim alone: the image that it shows was its device's input at a
/// moment since the opening, and each event that it keeps was raised since, or was in the device's
/// memory then.
#[tactic(auto, using(crate::proofs::ShowsHistory::shows_history))]
pub fn ports_show_what_devices_had<W: Wire, A: Handle>(port: &Port<W, A>)
    ensures { OpensWell port.now.opening → ShowsHistory W.facts port.now }
{
    port.keeps_record();
}

/// A law of the definitions, without code: a lossy line may have a device that answers a wake whose
/// pulse it missed, and then has the request still that it was handed before.
///
/// Needed by the promises of assurance.md.
#[tactic(auto, using(crate::proofs::MissedPulse::pulses_are_missed))]
pub fn pulses_are_missed()
    ensures { PulsesAreMissed }
{
    texts_are_heard();
}
