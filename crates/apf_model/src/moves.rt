//! The steps of a level.

use apf_words::Decision;

/// A step that changes the state of a level. A request is named by its number, from 0.
#[derive(Clone, Copy, Debug, PartialEq, Eq)]
pub enum Move {
    /// An arrival takes its seats.
    Take(u32),
    /// An arrival enters a queue.
    Enter(u32),
    /// A waiting request is granted its seats.
    Grant(u32),
    /// A cancelled request leaves its queue.
    Leave(u32),
    /// A request is decided.
    Decide(u32, Decision),
    /// A decided request gives its seats back.
    Release(u32),
    /// The level is closed.
    Close,
    /// The limit is changed to this many seats.
    SetLimit(u32),
    /// An arrival sees that its width does not fit: a load of the level word.
    See(u32),
}

/// Where a request is on its way through a level.
#[derive(Clone, Copy, Debug, PartialEq, Eq)]
pub enum Stage {
    /// It has not come.
    Away,
    /// It waits in a queue.
    Waits,
    /// Its grant stands: it holds its seats.
    Stands,
    /// It came, and neither waits nor holds seats any more.
    Gone,
}
