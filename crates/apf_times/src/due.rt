//! One thing that is due.

/// What is due of a request. At one time the first kind comes first.
#[derive(Clone, Copy, Debug, PartialEq, Eq)]
pub enum Kind {
    /// It finishes.
    Finish,
    /// It gives up, if it still waits.
    GiveUp,
    /// It arrives.
    Arrive,
}

/// One thing that is due. Its order is that of the time, then of the kind, then of the request.
#[derive(Clone, Copy, Debug, PartialEq, Eq)]
pub struct Due {
    /// When it is due, in microseconds.
    pub at: u64,
    pub kind: Kind,
    /// The number of the request.
    pub request: u32,
}
