//! The numbers of a log.

/// The numbers of a log, of requests: each request is counted once in `entered` or `full`, if it
/// arrived, and `entered` is `dispatched` plus `struck` plus `waiting`.
#[derive(Clone, Copy, Debug, PartialEq, Eq)]
pub struct Stats {
    /// How many entered a queue.
    pub entered: u32,
    /// How many were dispatched.
    pub dispatched: u32,
    /// How many were struck out of their queue.
    pub struck: u32,
    /// How many were rejected, as their queue was full.
    pub full: u32,
    /// How many wait, in all queues together.
    pub waiting: u32,
}
