//! Which device is expected, its page, and its cycle time, by numbers.
ghost use Rattle.std.specs.Prelude.{◌≡◌, ◌≤◌, ◌<◌, ◌↔◌, unwrap_or, [], IsErr, IsSome, IfOk, IfSome, IfNone};
ghost use Rattle.iol_page.specs.Cycle.{longest_cycle};
ghost use Rattle.iolink_handle.specs.Shown.{AreShown};
ghost use Rattle.iolink_port_forms.specs.Arguments.{identity_at, largest_device, IsCycleOf};
ghost use Rattle.iolink_port_forms.specs.Answers.{counting_number};

use iol_page::{CycleFault, CycleTime, Identity, Page};
use iol_port::Counting;
use iolink_handle::{CLOSED, put};

/// The largest DeviceID, which has 24 bits (IEC 61131-9, B.1.9).
const LARGEST_DEVICE: u32 = 0xFF_FFFF;

/// What was asked for counts for the session that is there or comes next.
const NOW: u8 = 1;
/// It counts from the next start-up on.
const LATER: u8 = 2;

/// The device of these numbers; none where its DeviceID has more than 24 bits.
pub fn identity_of(vendor: u16, device: u32) -> Option<Identity>
    ensures some { IsSome result ↔ (device ≤ largest_device) }
    ensures value { IfSome result (λ identity. identity ≡ identity_at vendor device) }
{
    if device > LARGEST_DEVICE {
        None
    } else {
        Some(Identity { vendor, device })
    }
}

/// The cycle time of so many microseconds; none for 0. Refusal 39: above 132,800.
pub fn cycle_of(micros: u32) -> Result<Option<CycleTime>, CycleFault>
    ensures refused { IsErr result ↔ (longest_cycle < micros) }
    ensures cycle { IfOk result (λ cycle. IsCycleOf micros cycle) }
{
    if micros == 0 {
        return Ok(None);
    }
    let cycle = CycleTime::from_micros(micros)?;
    Ok(Some(cycle))
}

/// Shows C what a call counts for: 0, or 252 where the handle is closed.
pub fn show_counting(answer: Option<Counting>, counts: &mut u8) -> u8
    ensures closed { IfNone answer ((result ≡ 252) × (counts.new ≡ counts.old)) }
    ensures shown { IfSome answer (λ answer.
        (result ≡ 0) × (counts.new ≡ counting_number answer)) }
{
    *counts = match answer {
        Some(Counting::Now) => NOW,
        Some(Counting::Later) => LATER,
        None => return CLOSED,
    };
    0
}

/// Direct parameter page 1: ten octets, that of address 0x02 first; none where `length` is 0.
#[repr(C)]
pub struct IolPage {
    pub length: u8,
    pub octets: [u8; 10],
}

/// Shows C the page, no octet where there is none.
pub fn show_page(page: Option<Page>, out: &mut IolPage)
    ensures { AreShown (unwrap_or page []) out.new.length out.new.octets }
{
    match page {
        Some(page) => {
            let octets = page.octets();
            out.length = octets.len() as u8;
            put(octets, &mut out.octets);
        }
        None => out.length = 0,
    }
}
