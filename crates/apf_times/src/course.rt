//! When a request arrives, and how long it runs.

/// When a request arrives, and how long it runs, in microseconds.
#[derive(Clone, Copy, Debug, PartialEq, Eq)]
pub struct Times {
    /// At most [`MOST_ARRIVES_AT`](crate::MOST_ARRIVES_AT).
    pub arrives_at: u64,
    /// At most [`MOST_RUNS_FOR`](crate::MOST_RUNS_FOR).
    pub runs_for: u64,
}
