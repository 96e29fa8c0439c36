//! What the calls of a request answer.

use apf_words::Decision;

/// What became of a request by a call.
#[must_use]
#[derive(Clone, Copy, Debug, PartialEq, Eq)]
pub enum Answer {
    /// It executes.
    Run,
    /// It is decided so, and was not executed.
    Over(Decision),
    /// As `Over`, by `try_admit`: where the bool is true, requests waited when its seats were given back, and the
    /// caller owes a dispatch.
    Tried(Decision, bool),
    /// It could not be admitted now, and did not arrive.
    Busy,
    /// It waits.
    Waits,
    /// It gave its seats back. Where the bool is true, requests waited then, and the caller owes a dispatch.
    Released(bool),
    /// The call is not for a request that is where this one is. Nothing was done.
    Wrong,
}

/// Where a request is on its way.
#[derive(Clone, Copy, Debug, PartialEq, Eq)]
pub enum Place {
    /// It did not arrive.
    Away,
    /// It waits in a queue.
    Waits,
    /// It executes.
    Runs,
    /// It is decided, and holds no seats.
    Over,
}
