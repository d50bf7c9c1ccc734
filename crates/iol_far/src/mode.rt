//! Modes (IEC 61131-9, A.2).

/// The mode of a device that is awake. Each has a layout of its own (IEC 61131-9, A.2).
#[derive(Clone, Copy, Debug, PartialEq, Eq)]
pub enum DeviceMode {
    /// Right after a wake: one octet of on-request data, no process data.
    Startup,
    /// The page's layout without process data. A device of V1.0 hasn't this mode.
    Preoperate,
    /// The page's layout with its process data.
    Operate,
}
