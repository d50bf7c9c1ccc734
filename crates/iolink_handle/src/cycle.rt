//! A cycle time, as C sees it.
ghost use Rattle.std.specs.Prelude.{◌≡◌, IfNone, IfSome};
ghost use Rattle.iol_page.specs.Cycle.{cycle_fault, cycle_fault_number, micros_of};

use iol_page::CycleTime;

/// Shows C the microseconds that this octet of MinCycleTime or MasterCycleTime means: 0, or 39
/// where its time base is reserved, with `out` as it was.
pub fn show_micros(octet: u8, out: &mut u32) -> u8
    ensures shown { IfNone (cycle_fault octet) ((result ≡ 0) × (out.new ≡ micros_of octet)) }
    ensures refused { IfSome (cycle_fault octet) (λ fault.
        (result ≡ cycle_fault_number fault) × (out.new ≡ out.old)) }
{
    match CycleTime::from_octet(octet) {
        Ok(cycle) => {
            *out = cycle.micros();
            0
        }
        Err(fault) => fault.code(),
    }
}
