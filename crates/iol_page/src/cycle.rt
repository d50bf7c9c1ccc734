//! Cycle times (IEC 61131-9, B.1.3).
ghost use Rattle.std.specs.Prelude.{◌≡◌, ◌≤◌, ◌<◌, ◌↔◌, IfOk, IsOk};
ghost use Rattle.std.specs.Result.{result_err};

use thiserror::Error;

// The numbers of the refusals: their one table, which the definitions cite.
const BAD_CYCLE_TIME: u8 = 39;

/// Why an octet or a time is no cycle time.
#[derive(Clone, Copy, Debug, PartialEq, Eq, Error)]
pub enum CycleFault {
    /// 39: the time base is reserved, or the time is longer than 132.8 ms.
    #[error("BadCycleTime")]
    BadCycleTime,
}

impl CycleFault {
    ghost use Rattle.iol_page.specs.Cycle.{cycle_fault_number};

    /// The number of the refusal.
    pub fn code(&self) -> u8
        ensures { result ≡ cycle_fault_number self.now }
    {
        match self {
            CycleFault::BadCycleTime => BAD_CYCLE_TIME,
        }
    }
}

/// The first octet of the time base that is reserved.
const RESERVED: u8 = 192;

/// The time from one message of OPERATE to the next, as MinCycleTime and MasterCycleTime have it
/// (IEC 61131-9, B.1.3). An octet of 0 asks for no time.
#[derive(Clone, Copy, Debug, PartialEq, Eq)]
pub struct CycleTime {
    octet: u8,
    ghost base_in_range: { octet < 192 },
}

impl CycleTime {
    ghost use Rattle.iol_page.specs.Cycle.{micros_of, cycle_fault, longest_cycle, IsShortest};
    ghost use Rattle.iol_page.specs.declared.cycle.CycleFault.{CycleFault};

    /// Reads the octet. Refusal 39 BadCycleTime: its time base is reserved.
    ///
    /// Rule PAGE-8.
    pub fn from_octet(octet: u8) -> Result<CycleTime, CycleFault>
        ensures value { IfOk result (λ cycle. cycle.octet ≡ octet) }
        ensures refused { result_err result ≡ cycle_fault octet }
    {
        if octet < RESERVED {
            Ok(CycleTime { octet })
        } else {
            Err(CycleFault::BadCycleTime)
        }
    }

    /// The octet.
    pub fn octet(self) -> u8
        ensures value { result ≡ self.octet }
        ensures known { result < 192 }
    {
        self.octet
    }

    /// The time in microseconds: 0 to 132,800.
    ///
    /// Rule PAGE-8.
    pub fn micros(self) -> u32
        ensures value { result ≡ micros_of self.octet }
        ensures most { result ≤ longest_cycle }
    {
        let octet = u32::from(self.octet);
        match octet {
            0..64 => 100 * octet,
            64..128 => 6_400 + 400 * (octet - 64),
            _ => 32_000 + 1_600 * (octet - 128),
        }
    }

    /// The shortest cycle time that takes at least so many microseconds. Refusal 39 BadCycleTime:
    /// above 132,800.
    pub fn from_micros(micros: u32) -> Result<CycleTime, CycleFault>
        ensures taken { IsOk result ↔ (micros ≤ longest_cycle) }
        ensures long { IfOk result (λ cycle. micros ≤ micros_of cycle.octet) }
        ensures shortest { IfOk result (λ cycle. IsShortest micros cycle) }
    {
        let octet = if micros <= 6_300 {
            micros.div_ceil(100)
        } else if micros <= 31_600 {
            64 + micros.saturating_sub(6_400).div_ceil(400)
        } else if micros <= 132_800 {
            128 + micros.saturating_sub(32_000).div_ceil(1_600)
        } else {
            return Err(CycleFault::BadCycleTime);
        };
        Ok(CycleTime { octet: octet as u8 })
    }
}
