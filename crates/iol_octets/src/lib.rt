//! The single octets of IO-Link messages, and the six-bit checksum that guards them.
//!
//! A master message begins with the M-sequence control octet ([`Mc`]) and the
//! checksum / M-sequence type octet ([`Ckt`]); a reply ends with the checksum /
//! status octet ([`Cks`]). On the ISDU channel the address of the control octet is
//! the flow control ([`Flow`]), and [`OdLength`] how long a segment is. IEC 61131-9, A.1 and 7.3.6.
//!
//! Definitions begin in `specs/Checksum`; then `Control`, `CheckOctets` and `Flow`. Each octet is
//! read as it was written, the checksum is exactly the standard's, and one flipped bit is always
//! seen.
#![tactic(auto)]

mod check_octets;
mod checksum;
mod control;
mod fault;
mod flow_control;
mod laws;
mod numbering;
mod od_length;
mod zeros;

pub use check_octets::{Cks, Ckt, SequenceType};
pub use checksum::{checksum6, has_checksum6};
pub use control::{Channel, Mc};
pub use fault::OctetFault;
pub use flow_control::Flow;
pub use laws::{checksums_fit, control_octets_are_read_back, one_flip_is_seen};
pub use numbering::segment_number;
pub use od_length::OdLength;
pub use zeros::are_zeros;
