//! Amounts over the time of a log of any length, in memory that does not grow.
//!
//! Times are whole microseconds. An amount that was in force from a time until another one is a span. A series has 400 bins of one
//! length, and in each of them the sum of amount times time of what was in force there. Where a span ends behind the last bin, each
//! two bins become one. So a bin divided by its length is the mean of that time, whatever came in which order.
//!
//! - `bins`: adds a span to bins, and makes one bin of each two.
//! - `fault`: why a span is not added.
//! - `laws`: what is true of the bins of some spans.
//! - `series`: the bins of one amount.
//! - `strip`: the four series of a priority level.
#![tactic(auto)]

mod bins;
mod fault;
mod laws;
mod series;
mod strip;

pub use fault::StripFault;
pub use laws::every_order_has_the_same_bins;
pub use series::Series;
pub use strip::Strip;

/// How many bins a series has.
pub const BINS: usize = 400;

/// How long a bin is at first, in microseconds.
pub const FIRST_WIDTH: u64 = 1_000;

/// How many times a bin becomes twice as long at most.
pub const MOST_DOUBLINGS: u32 = 42;

/// The latest end of a span, in microseconds.
pub const MOST_TIME: u64 = 1 << 60;
