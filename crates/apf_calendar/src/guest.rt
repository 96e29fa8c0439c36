//! A request that is there.

ghost use Rattle.std.specs.Prelude.{◌≡◌};

use apf_times::Times;

/// Where a request is that is there.
#[derive(Clone, Copy, Debug, PartialEq, Eq)]
pub enum Stay {
    /// It waits.
    Waits,
    /// The end of its patience has come, and it waits still.
    Impatient,
    /// It has had its seats since this time, in microseconds.
    Holds(u64),
}

/// A request that is there.
#[derive(Clone, Copy, Debug, PartialEq, Eq)]
pub struct Guest {
    /// The number of its line.
    pub line: u64,
    /// When it arrived, and how long it runs.
    pub times: Times,
    pub stay: Stay,
}
