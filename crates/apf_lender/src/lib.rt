//! What the requests of a level of a server ask for from period to period, and what the level claims by that when the seats are
//! divided anew (KEP-1040).
//!
//! - `bounds`: between which limits a level is lent seats.
//! - `asking`: for how many seats the requests of a level ask, and asked lately.
#![tactic(auto)]

mod asking;
mod bounds;

pub use asking::{Asking, Untimely};
pub use bounds::Bounds;
