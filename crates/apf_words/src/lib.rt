//! The words that the threads of a priority level share, and what they mean.
//!
//! A level has one level word, which packs its seats in use, its waiters, its limit and whether it
//! is closed, and one decision word for each request. In the order of the data's way:
//!
//! - `level_word`: the level word, packed and unpacked.
//! - `changes`: the word that a step leaves, and what an atomic step takes off or sets to make it.
//! - `seats`: when a request's width fits the seats that are left.
//! - `decision`: the decision on a request, and its code in a decision word.
//! - `limits`: the largest limit, width and numbers of a level.
#![tactic(auto)]

mod changes;
mod decision;
mod level_word;
mod limits;
mod marks;
mod seats;

pub use decision::{Decision, UNDECIDED};
pub use level_word::LevelWord;
pub use limits::{
    MAX_COST, MAX_LIMIT, MAX_QUEUE_LENGTH, MAX_QUEUES, MAX_REQUESTS, MAX_STATIONS, MAX_WIDTH,
};
pub use marks::{decided, decision_in, mark_in, undecided};
pub use seats::fits;
