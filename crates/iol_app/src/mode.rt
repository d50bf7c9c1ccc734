//! The mode of a link.

/// The mode of the link between a port and its device (IEC 61131-9, 7.3.2).
#[derive(Clone, Copy, Debug, PartialEq, Eq)]
pub enum Mode {
    /// There is no link: the next turn makes a wake-up request.
    Down,
    /// STARTUP: the device's page is read.
    Startup,
    /// PREOPERATE: on-request data alone.
    Preoperate,
    /// OPERATE: on-request data and process data.
    Operate,
}
