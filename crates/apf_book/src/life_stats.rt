//! The numbers of a history that goes on for a server's whole life.

ghost use Rattle.std.specs.Prelude.{◌≡◌, ◌+◌, ◌≤◌};

/// How many events there ever were of each kind. Each request is counted once in `entered` or `full`, if it
/// arrived; who entered and was neither dispatched nor struck waits.
#[derive(Clone, Copy, Debug, PartialEq, Eq)]
pub struct LifeStats {
    /// How many entered a queue.
    pub entered: u64,
    /// How many were dispatched.
    pub dispatched: u64,
    /// How many were struck out of their queue.
    pub struck: u64,
    /// How many were rejected, as their queue was full.
    pub full: u64,
}
