//! One port of an IO-Link master: its queue of requests, its events and its process data.
//!
//! A port has its device carry out the requests that were submitted, the urgent
//! ones first, each kind in order, and each at most once, over whatever the wire
//! loses; one exception is told by [`each_done_has_its_pair`]. Each gets one outcome: the
//! device's answer to that very request; or that it was cut off, also where a client cancels
//! it, so that nobody knows whether it was carried out; or that it was withdrawn; or that the
//! device has no ISDU.
//!
//! A [`PortCore`] owns no wire and never calls out: it gives the octets to send, and takes
//! what came. A [`Port`] is such a core and the wire that its turns call. An [`HonestPort`] is such
//! a core beside where its line stands, for a line of one's own that is claimed to lose and never
//! to lie: what came is what an honest exchange could bring, and that is required of whoever says
//! it.
//!
//! What a port does is said by an abstract port, which knows no octets, segments or
//! repeats (`specs/Run`). Over an honest wire each call of a [`Port`] is one call of the
//! abstract port that it stands for, and a list of calls is a run of it; a sending and a
//! receiving are two pieces of one, with calls between them. It has the owners of the record's
//! pairs: each request that was taken, how it ended and what the device answered it. Of all such
//! runs [`record_fits_journal`] says that the record is theirs, and that they fit the journal.
//! IEC 61131-9 leaves it to the master how requests are queued: that part is this project's
//! profile.
//!
//! Definitions begin in `specs/Run`, the abstract port; then `Owners`, `Sound`, `View`,
//! `EveryWire`, `CorePort` and `Honestly`.
#![tactic(auto)]

mod awaited;
mod call;
mod copies;
mod counters;
mod fault;
mod honest_port;
mod laws;
mod loss;
mod place;
mod port;
mod port_core;
mod settle;

pub use awaited::AwaitedAnswer;
pub use call::{Answered, Call, Counting, DrainCounts};
pub use counters::{Counters, Unknown};
pub use fault::PortFault;
pub use honest_port::HonestPort;
pub use laws::{
    cancelled_requests_were_asked, denied_requests_stay_out, each_done_has_its_pair,
    late_requests_end, pieces_are_turns, record_fits_journal, runs_fit_history, runs_join,
    turns_rule_out,
};
pub use port::Port;
pub use port_core::PortCore;
