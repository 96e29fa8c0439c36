//! The pair of queues that came furthest apart.

/// In some stretch in which a queue was never empty, the requests that were dispatched from another one took so much more
/// seat-time than those that were dispatched from it.
#[derive(Clone, Copy, Debug, PartialEq, Eq)]
pub struct Furthest {
    /// The queue that was never empty.
    pub busy: u32,
    /// The other one.
    pub other: u32,
    /// By how much more, in the unit of costs.
    pub ahead: u64,
}
