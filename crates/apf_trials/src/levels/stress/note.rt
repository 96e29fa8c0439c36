//! What the callers of a level were told.

use apf_gate::Close;
use apf_words::Decision;

/// What the caller of a request was told.
#[derive(Clone, Copy, Default)]
pub struct Note {
    /// Its decision.
    pub told: Option<Decision>,
    /// It took its seats outside the lock, by `try_admit`.
    pub tried: bool,
    /// It was told to wait.
    pub waited: bool,
    /// It arrived after a close of the level had returned.
    pub late: bool,
}

/// A call by a Station, and what it was told.
#[derive(Clone, Copy)]
pub enum Act {
    /// A cancel of the request was told this decision.
    Cancel(u32, Decision),
    /// The request was struck by a call of its own.
    Strike(u32),
    /// The limit was the first number, and is the second one from then on.
    Limit(u32, u32),
    /// The level was closed.
    Close(Close),
}
