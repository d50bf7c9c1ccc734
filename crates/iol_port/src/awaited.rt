//! What a port without a wire waits for.

/// What waits for its answer.
#[derive(Clone, Copy, Debug, PartialEq, Eq)]
pub enum AwaitedAnswer {
    /// Nothing is out.
    Nothing,
    /// A wake-up request.
    Wake,
    /// The octets of a message.
    Reply,
}
