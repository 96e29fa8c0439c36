//! What is carried out when, of requests that hold slots: each is there from its arrival until it is over, and then its slot
//! is free for another one.
//!
//! - `guest`: a request that is there.
//! - `calendar`: the slots, and what is due first.
#![tactic(auto)]

mod calendar;
mod guest;

pub use calendar::{Carried, SlotCalendar, TooFar};
pub use guest::{Guest, Stay};

/// The latest time at which anything is carried out, in microseconds: six years.
pub const MOST_TIME: u64 = apf_times::MOST_WAIT;
