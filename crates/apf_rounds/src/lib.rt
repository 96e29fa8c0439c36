//! What tests of several crates make their threads meet by: delays that differ, and a start together.
#![tactic(auto)]

mod rounds;

pub use rounds::{ENOUGH, MOST_LEVELS, MOST_ROUNDS, MOST_TURNS, Start, pass_time, turns};
