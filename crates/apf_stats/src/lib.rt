//! The statistics of a level, published by one writer and read without its lock.
#![tactic(auto)]

mod board;

pub use apf_book::Stats;
pub use board::{Board, StatsPass, Window, open};
