//! What the libraries for C have in common: the box behind a handle, what C is shown of
//! octets, a request, process data, a cycle time and a call of the line, and the refusals of their
//! own.
//!
//! A handle of C is a `#[repr(C)]` struct of the library that it belongs to, with one pointer. Such
//! a struct can have no type parameter, so each library has its own, and makes it of a [`Loose`].
//!
//! Definitions stand in `specs/Heap`, `specs/Shown` and `specs/TraceLines`. A box comes back from
//! its pointer as it was.
#![tactic(auto)]

mod cycle;
mod image;
mod loose;
mod octets;
mod refusal;
mod request;
mod trace_line;

pub use cycle::show_micros;
pub use image::{IolImage, show_image};
pub use loose::Loose;
pub use octets::put;
pub use refusal::{CLOSED, IS_OPEN, NOT_ASKED, OUT_OF_MEMORY, OUT_OF_RANGE};
pub use request::{IolRequest, show_request};
pub use trace_line::{IolTraceLine, copy_of, line_of, show_line};
