//! What every level whose slots are used again has beside its gate: which histories are its own, what its tokens say, how a
//! request takes its seats, where its book stands while nobody is at it, and how it ends.
//!
//! - `attempts`: how a request takes its seats outside the lock.
//! - `report`: what the end of a level tells.
//! - `ending`: how a level ends, of all its tokens.
//! - `laws`: what is true of every history of a level.
//! - `taken`: what a request took, by how long it ran.
#![tactic(auto)]

pub mod attempts;
mod ending;
mod laws;
mod report;
mod taken;

pub use ending::{close_book, close_desk, end_level};
pub use laws::{
    every_ended_level_shares_seat_time, every_level_has_histories, every_life_history_isolates,
    every_life_log_isolates, every_life_wait_is_bounded, every_life_wait_is_bounded_in_seat_time,
    every_queue_was_dealt, every_report_keeps_the_promises, every_seated_log_has_its_seats,
    no_life_request_is_forgotten,
};
pub use report::{Closing, Newest, Report};
pub use taken::seat_time;
