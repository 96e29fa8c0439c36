//! What a request asks for, and what is noted of it while it is there.

use apf_times::Times;

/// What a request asks for.
#[derive(Clone, Copy, Debug, PartialEq, Eq)]
pub struct Asked {
    /// The number of its line.
    pub line: u64,
    /// When it arrives, and how long it runs.
    pub times: Times,
    /// The seats that it takes while it executes, 1 to 20,000.
    pub width: u32,
    /// The hash of its flow.
    pub hash: u64,
    /// What its dispatch is charged, 1 to 4,294,967,295, where it says that.
    pub cost: Option<u32>,
}

/// What is noted of a request that is there.
#[derive(Clone, Copy, Debug, PartialEq, Eq)]
pub struct Hold {
    pub asked: Asked,
    /// What its dispatch is charged: microseconds of a seat, or seats.
    pub cost: u32,
    /// The queue that it entered, if it entered one.
    pub queue: Option<u32>,
}
