//! How far a token is, so that a call can be asked of it or not.

use apf_words::Decision;

/// How far a request is.
#[derive(Clone, Copy)]
pub enum Stage {
    /// It did not arrive.
    Fresh,
    /// It did not arrive, and saw the level closed.
    Closed,
    /// It did not arrive, and found no room by its last step.
    NoRoom,
    /// It took its seats, and wrote no decision.
    Took,
    /// It asked for what others decide.
    InLine,
    /// It was handed to the Desk.
    Entered,
    /// It took its seats, and was told this decision.
    Told(Decision),
    /// The Desk took its seats, and it was told that it executes.
    Granted,
    /// It gave its seats back, and was told this decision.
    Back(Decision),
    /// It makes no call any more that depends on how far it is.
    Over,
}

/// How far the Desk is with the one request that it serves.
#[derive(Clone, Copy)]
pub enum Serving {
    /// It served nobody.
    Idle,
    /// The request waits.
    Waits(u128),
    /// The request waits, and was seen cancelled.
    Seen(u128),
    /// It holds the request's seats.
    Holds(u128),
    /// It holds the request's seats, and was told that it is cancelled.
    Lost(u128),
    /// It serves nobody any more.
    Over,
}
