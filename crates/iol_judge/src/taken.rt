//! What comes of a message, and of a reply.

use crate::possible::PossibleState;
use crate::reason::Reason;
use arrayvec::ArrayVec;
use iol_mseq::{Layout, MasterView};

/// The most states that are kept.
pub(crate) const MAX_STATES: usize = 128;

/// The states of a device that the exchanges so far admit.
pub(crate) type States = ArrayVec<PossibleState, MAX_STATES>;

/// A message that a state took, and in which layout.
#[derive(Drop)]
pub(crate) struct TakenMessage<'a> {
    pub layout: Layout,
    pub message: MasterView<'a>,
}

/// Whether a state explains a reply.
#[derive(Clone, Copy, Debug, PartialEq, Eq)]
pub(crate) enum Heard {
    /// It does, with what is odd in the reply, and passed over.
    Explained(Option<Reason>),
    /// It doesn't.
    Refused(Reason),
}

/// The states after a reply, and why the others can't have sent it.
#[derive(Drop)]
pub(crate) struct NextStates {
    pub states: States,
    /// That of the state that explains most of the reply.
    pub reason: Reason,
    /// What is odd in the reply for each of the states that explain it: of the first of them.
    pub oddity: Option<Reason>,
}
