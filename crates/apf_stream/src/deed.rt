//! What is done with a request.

use crate::asked::Asked;
use apf_calendar::Carried;

/// One thing that is done. Contracts speak of lists of deeds. A stream keeps none.
#[derive(Clone, Copy, Debug, PartialEq, Eq)]
pub enum Deed {
    /// A request arrives, in this slot.
    Arrive(u32, Asked),
    /// A request finishes.
    Finish(Carried),
    /// The patience of a request that waits ends.
    GiveUp(Carried),
    /// The request of this slot, which waited, reads its decision.
    Read(u32),
    /// The limit is set.
    SetLimit(NewLimit),
}

/// A limit that is set.
#[derive(Clone, Copy, Debug, PartialEq, Eq)]
pub struct NewLimit {
    /// When, in microseconds.
    pub at: u64,
    /// In seats, 1 to 10,000.
    pub limit: u32,
}
