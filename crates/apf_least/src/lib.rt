//! Numbers in places, and which is the least of them.
//!
//! - `tree`: a tree over the numbers.
#![tactic(auto)]

mod tree;

pub use tree::{LeastTree, NO_NUMBER};
