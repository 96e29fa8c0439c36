//! What calls answer.

use apf_book::Stats;
use apf_gate::Close;
use apf_model::Event;
use apf_session::Answer as Called;
use apf_words::{Decision, LevelWord};

/// What one call answers. It is copied, so that it can be told after all calls.
#[derive(Clone, Copy, Debug)]
pub enum Answer {
    /// The request executes.
    Run,
    /// The request is decided so.
    Over(Decision),
    /// The request is decided so, and its caller owes a dispatch or not.
    Tried(Decision, bool),
    /// The request could not be admitted now.
    Busy,
    /// The request waits.
    Waits,
    /// The request gave its seats back, and others waited or not.
    Released(bool),
    /// The request's token is not for this call.
    Wrong,
    /// This many were dispatched.
    Dispatched(u32),
    /// The request was struck, or not.
    Struck(bool),
    /// The level word.
    Word(LevelWord),
    /// The numbers of the log.
    Numbers(Stats),
    /// This many events of the log were copied into this room.
    Copied(u32, [Event; 4]),
    /// What the close found.
    Closed(Close),
}

impl From<Called> for Answer {
    fn from(called: Called) -> Self {
        match called {
            Called::Run => Self::Run,
            Called::Over(decision) => Self::Over(decision),
            Called::Tried(decision, waiting) => Self::Tried(decision, waiting),
            Called::Busy => Self::Busy,
            Called::Waits => Self::Waits,
            Called::Released(waiting) => Self::Released(waiting),
            Called::Wrong => Self::Wrong,
        }
    }
}
