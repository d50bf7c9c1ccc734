//! Who a device is (IEC 61131-9, B.1.8 and B.1.9).
ghost use Rattle.std.specs.Prelude.{◌≡◌};

/// The maker of a device and its kind, as its page says them.
#[derive(Clone, Copy, Debug, PartialEq, Eq)]
pub struct Identity {
    /// VendorID, at 0x07 and 0x08 (IEC 61131-9, B.1.8).
    pub vendor: u16,
    /// DeviceID, at 0x09 to 0x0B (IEC 61131-9, B.1.9): 24 bits. No device has a larger one.
    pub device: u32,
}

impl Identity {
    ghost use Rattle.iol_page.specs.Identity.{same_identity};

    /// Whether both are the same.
    pub fn is(&self, other: &Identity) -> bool
        ensures { result ≡ same_identity self.now other.now }
    {
        self.vendor == other.vendor && self.device == other.device
    }
}
