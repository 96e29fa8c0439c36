//! How far the seat-times of two queues come apart while one of them is never empty, and how far they may.
//!
//! - `furthest`: the pair of queues that came furthest apart.
//! - `pairs`: a number for each ordered pair of queues.
//! - `stretches`: how far each pair came apart.
//! - `judged`: by how much the requests that execute are misjudged.
//! - `bound`: both sides of the bound. `laws`: they meet it.
#![tactic(auto)]

mod bound;
mod furthest;
mod judged;
mod laws;
mod pairs;
mod stretches;

pub use bound::{Bound, Sides};
pub use furthest::Furthest;
pub use laws::every_bound_is_met;
