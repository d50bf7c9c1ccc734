//! M-sequences: master messages and replies, in the layout of each mode (IEC 61131-9, A.1 and A.2).
//!
//! A [`Layout`] says of which M-sequence type the messages of a mode are, and how many octets
//! each part of them has. A master message is the control octet, the checksum / M-sequence
//! type octet, the process data out and, in a write, the on-request data. A reply is, to a
//! read, the on-request data, then the process data in and the checksum / status octet.
//!
//! Definitions begin in `specs/Shape`, the layouts; then `Master` and `Replies`. A message is read
//! exactly where it is good, as the one that it spells; what is written is read back; one flipped
//! bit makes a message bad in every layout.
#![tactic(auto)]

mod fault;
mod laws;
mod layouts;
mod master;
mod parts;
mod reply;

pub use fault::MseqFault;
pub use laws::{one_flip_is_refused, what_is_written_is_read};
pub use layouts::Layout;
pub use master::{MasterMsg, MasterView, encode_master, read_master, view_master, write_master};
pub use parts::{
    Message, Part, append, append_first, append_zeros, first, first_of_zeros, part_of, zeros,
};
pub use reply::{Reply, ReplyView, close_reply, encode_reply, read_reply, view_reply};
