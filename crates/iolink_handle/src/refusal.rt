//! The refusals that calls from C have beside those of the library, and the
//! library's that they answer themselves.

/// There is no memory, as the library says it.
pub const OUT_OF_MEMORY: u8 = 24;

/// The handle is closed.
pub const CLOSED: u8 = 252;

/// The handle is open already.
pub const IS_OPEN: u8 = 253;

/// A number is out of its range.
pub const OUT_OF_RANGE: u8 = 254;

/// What was brought isn't what is asked for.
pub const NOT_ASKED: u8 = 255;
