//! What the end of a level tells.

use apf_book::{LifeEvent, LifeStats};
use apf_gate::{Desk, LifeWords};
use std::alloc::Global;

/// The newest events of a level's queues.
#[derive(Drop)]
pub struct Newest {
    /// The place of the first of them, of all events that there ever were, from 0.
    pub from: u64,
    /// The events, the oldest first: two for each slot, or all that there ever were.
    pub events: Vec<LifeEvent>,
    /// How many events there ever were of each kind.
    pub stats: LifeStats,
}

/// What a level's words and its history said when it ended.
#[derive(Drop)]
pub struct Report {
    /// The level word, in which no seat is taken and nobody waits; the decision of the request that holds each slot;
    /// and how many of all requests that ever held one were decided so.
    pub words: LifeWords<Global>,
    /// The newest events. There are none on a level without queues.
    pub newest: Newest,
}

// The Desk of a level whose lock nobody will take any more, with its newest events.
pub struct Closing {
    pub desk: Desk,
    pub newest: Newest,
}
