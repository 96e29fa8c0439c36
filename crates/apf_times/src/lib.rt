//! The time side of requests: what is due, the percentiles of waits, and the first of what comes late.
//!
//! Times are whole microseconds.
//!
//! - `due`: one thing that is due. `course`: when a request arrives, and how long it runs.
//! - `percentiles`: a percentile of waits.
//! - `waits`: waits, kept as they are while they are few. `tally`: how many there are of each length.
//! - `window`: the first of what came, where what comes may be late.
//! - `laws`: what is true of each of them.
#![tactic(auto)]

mod course;
mod due;
mod laws;
mod percentiles;
mod tally;
mod waits;
mod window;

pub use course::Times;
pub use due::{Due, Kind};
pub use laws::{every_percentile_is_one, every_wait_is_kept, every_window_is_in_order};
pub use percentiles::percentile;
pub use waits::Waits;
pub use window::{Arrival, Place, Window, WindowError};

/// The latest arrival, in microseconds.
pub const MOST_ARRIVES_AT: u64 = 1_000_000_000_000;

/// The longest run, in microseconds.
pub const MOST_RUNS_FOR: u64 = 10_000_000_000;

/// The longest wait, in microseconds. It is more than the latest arrival and 10,000 of the longest runs.
pub const MOST_WAIT: u64 = 200_000_000_000_000;
