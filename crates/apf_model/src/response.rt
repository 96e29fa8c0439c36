//! What a level does with an arrival that does not fit.

/// What a level does with an arrival that does not fit, fixed for its life. These are the two limit
/// responses of the API's priority level configuration.
#[derive(Clone, Copy, Debug, PartialEq, Eq)]
pub enum Response {
    /// The request waits in a queue.
    Queue,
    /// The request is rejected: the level has no queues.
    Reject,
}
