//! What becomes of an arrival.

ghost use Rattle.std.specs.Prelude.{◌≡◌};
ghost use Rattle.apf_book.specs.Arrivals.{is_logged};

/// What became of a request that arrived.
#[derive(Clone, Copy, Debug, PartialEq, Eq)]
pub enum Arrived {
    /// It entered this queue, and waits there.
    Queued(u32),
    /// It is rejected: this queue, the shortest of its hand, was full.
    Full(u32),
    /// It is rejected: the level was closed.
    Closed,
    /// It is cancelled.
    Cancelled,
    /// It entered, or was rejected as its queue was full, when it arrived before.
    Again,
}

impl Arrived {
    // Whether an event is logged of it.
    pub(crate) fn is_logged(self) -> bool
        ensures { result ≡ is_logged self }
    {
        match self {
            Arrived::Queued(_queue) | Arrived::Full(_queue) => true,
            Arrived::Closed | Arrived::Cancelled | Arrived::Again => false,
        }
    }
}
