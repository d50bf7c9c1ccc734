//! A pair of the record.

use iol_isdu::{Answer, Request};

/// A request that a device carried out, and the answer to it.
#[derive(Clone, Debug, PartialEq, Eq, Drop)]
pub struct Carried {
    pub request: Request,
    pub answer: Answer,
}
