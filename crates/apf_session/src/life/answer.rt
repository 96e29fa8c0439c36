//! What the calls of a slot answer.

use apf_words::Decision;

/// What became of a slot's request by a call.
#[must_use]
#[derive(Clone, Copy, Debug, PartialEq, Eq)]
pub enum Answer {
    /// It executes.
    Run,
    /// It is decided so, and was not executed.
    Over(Decision),
    /// As `Over`, by `try_arrive`: where the bool is true, requests waited when its seats were given back.
    Tried(Decision, bool),
    /// It could not be admitted now. It did not arrive, and its slot is free.
    Busy,
    /// It waits.
    Waits,
    /// It gave its seats back. Where the bool is true, requests waited then.
    Released(bool),
    /// The slot's numbers are used up: a slot is given 2^46 times. Nothing was done.
    Spent,
    /// The call is not for a slot whose request is where this one is. Nothing was done.
    Wrong,
}

/// Where a slot's request is.
#[derive(Clone, Copy, Debug, PartialEq, Eq)]
pub enum Place {
    /// The slot is free: its request is over, or none came yet.
    Free,
    /// It waits in a queue.
    Waits,
    /// It executes.
    Runs,
}
