//! FlowCTRL, the place of a segment on the ISDU channel (IEC 61131-9, 7.3.6).
ghost use Rattle.std.specs.Prelude.{◌≡◌, ◌≤◌};

/// FlowCTRL: what the address of a control octet means on the ISDU channel (IEC 61131-9, 7.3.6).
#[derive(Clone, Copy, Debug, PartialEq, Eq)]
pub enum Flow {
    /// 0x10: the first segment of a request or of an answer.
    Start,
    /// 0x00 to 0x0F: the segment with this number ([`segment_number`](crate::segment_number)).
    Count(u8),
    /// 0x11: no service is wanted.
    Idle1,
    /// 0x12: as [`Flow::Idle1`], reserved by the standard for later use.
    Idle2,
    /// 0x1F: the service is given up.
    Abort,
    /// 0x13 to 0x1E: reserved by the standard.
    Reserved(u8),
}

impl Flow {
    ghost use Rattle.iol_octets.specs.Flow.{IsFlow, flow_address};
    ghost use Rattle.iol_octets.specs.declared.flow_control.Flow.{Flow};

    /// Reads the address, 0 to 31, of a control octet.
    ///
    /// Rule OCT-2.
    pub fn from_address(address: u8) -> Flow
        requires { address ≤ 31 }
        ensures valid { IsFlow result }
        ensures address { flow_address result ≡ address }
        ensures only { (flow : Flow) → IsFlow flow → flow_address flow ≡ address → result ≡ flow }
    {
        match address {
            0x00..=0x0F => Flow::Count(address),
            0x10 => Flow::Start,
            0x11 => Flow::Idle1,
            0x12 => Flow::Idle2,
            0x1F => Flow::Abort,
            _ => Flow::Reserved(address),
        }
    }

    /// Writes the address, 0 to 31. A COUNT has a number of at most 15, a reserved
    /// flow one of 0x13 to 0x1E.
    ///
    /// Rule OCT-2.
    pub fn address(self) -> u8
        requires { IsFlow self }
        ensures value { result ≡ flow_address self }
        ensures small { result ≤ 31 }
    {
        match self {
            Flow::Start => 0x10,
            Flow::Count(count) => count,
            Flow::Idle1 => 0x11,
            Flow::Idle2 => 0x12,
            Flow::Abort => 0x1F,
            Flow::Reserved(address) => address,
        }
    }
}
