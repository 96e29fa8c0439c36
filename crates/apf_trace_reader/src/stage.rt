//! What a reader does next.

use apf_traces::TraceFault;

/// What comes next.
#[derive(Clone, Copy, Debug, PartialEq, Eq)]
pub enum Stage {
    /// The next line is cut off, or more is read.
    Reading,
    /// A line was cut off, and is taken.
    Holding,
    /// The input is at its end: what is held is handed out.
    Ended,
    /// This fault is told.
    Failed(TraceFault),
}
