//! What calls answer.

use apf_words::Decision;

/// What became of an attempt to take seats.
#[derive(Clone, Copy, Debug, PartialEq, Eq)]
pub enum TryTake {
    /// The seats were taken.
    Taken,
    /// Requests wait, and none may pass them.
    Waiters,
    /// The request does not fit.
    NoRoom,
    /// The level is closed.
    Closed,
    /// The level word changed before the exchange.
    Raced,
}

/// What became of an attempt to use a slot again.
#[derive(Clone, Copy, Debug, PartialEq, Eq)]
pub enum Renew {
    /// The next request of the slot began. Tells how the old one was decided.
    Began(Option<Decision>),
    /// The slot's numbers are used up. Nothing changed.
    Spent,
}

/// What a read of a request's decision found.
#[derive(Clone, Copy, Debug, PartialEq, Eq)]
pub enum Read {
    /// This decision, or none.
    Is(Option<Decision>),
    /// Another request holds the slot, so that this one is over.
    Other,
}

/// What became of a cancel.
#[derive(Clone, Copy, Debug, PartialEq, Eq)]
pub enum Cancel {
    /// The request is decided so.
    Is(Decision),
    /// Another request holds the slot, so that this one is over. Nothing was written of anyone.
    Other,
}

/// What a close found.
#[derive(Clone, Copy, Debug, PartialEq, Eq)]
pub enum Close {
    /// The level was open.
    First,
    /// The level was closed already.
    Already,
}

/// What became of an attempt to set the limit.
#[derive(Clone, Copy, Debug, PartialEq, Eq)]
pub enum TrySetLimit {
    /// The limit was set. Tells the old one, in seats, and whether requests waited then.
    Set(u32, bool),
    /// The level word changed before the exchange.
    Raced,
}

/// What became of an attempt to grant.
#[derive(Clone, Copy, Debug, PartialEq, Eq)]
pub enum TryGrant {
    /// The Desk holds the request's seats.
    Granted,
    /// The request does not fit.
    NoRoom,
    /// The level word changed before the exchange.
    Raced,
}

/// What became of an attempt to enter.
#[derive(Clone, Copy, Debug, PartialEq, Eq)]
pub enum TryEnter {
    /// The request waits.
    Entered,
    /// The level is closed.
    Closed,
    /// The level word changed before the exchange.
    Raced,
}
