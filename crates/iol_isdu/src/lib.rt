//! Requests and answers of the ISDU channel of IO-Link, and their texts (IEC
//! 61131-9, A.5.1 to A.5.6 and 7.3.6).
//!
//! An ISDU is the text that carries one request of the master to a parameter of the device, or
//! the device's answer to it. Both are read and written here as whole texts; how a text is cut
//! into messages is no concern of this crate. Nothing allocates.
//!
//! Definitions begin in `specs/Texts`; then `Requests`, `Answers` and `Frame`. A text is read
//! exactly where octets begin with one, as the one that it is, else refused by the first reason; no
//! text is the beginning of another.
#![tactic(auto)]

mod answers;
mod fault;
mod frame;
mod front;
mod laws;
mod requests;
mod service;
mod values;

pub use answers::{answer_into, encode_answer, read_answer};
pub use fault::IsduFault;
pub use frame::total_of;
pub use front::{Front, answer_front, chkpdu_of, request_front};
pub use laws::{one_text_each, one_text_in_front};
pub use requests::{encode_request, read_request, request_into};
pub use values::{Answer, Cause, Octets, Place, Request, Text};
