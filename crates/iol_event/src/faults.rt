//! Refusals.
ghost use Rattle.std.specs.Prelude.{◌≡◌};

use thiserror::Error;

/// The number of MemoryFull.
const MEMORY_FULL: u8 = 16;

/// The number of EventForm.
const EVENT_FORM: u8 = 17;

/// Refusal 16: 32 events wait in the event memory, so it takes no further one.
#[derive(Clone, Copy, Debug, PartialEq, Eq, Error)]
#[error("MemoryFull")]
pub struct MemoryFull;

impl MemoryFull {
    /// The number of the refusal.
    pub fn code(&self) -> u8
        ensures { result ≡ MEMORY_FULL }
    {
        MEMORY_FULL
    }
}

/// Refusal 17: a StatusCode that is not one with details (bit 7 is 0), or that marks no place.
#[derive(Clone, Copy, Debug, PartialEq, Eq, Error)]
#[error("EventForm")]
pub struct EventForm;

impl EventForm {
    /// The number of the refusal.
    pub fn code(&self) -> u8
        ensures { result ≡ EVENT_FORM }
    {
        EVENT_FORM
    }
}
