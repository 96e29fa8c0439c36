//! How the seats of a server are divided among its levels for the next period, by what they asked for in the last one (KEP-1040).
//!
//! - `claim`: what a level claims. `demand`: what its requests asked for in a period, and what follows from it.
//! - `fraction`: a fraction. `breaks`: where what levels have ceases to be linear. `root`: the square root of a whole number.
//! - `shares`: what a level has where each has one number times its target. `factor`: the number with which that are all seats.
//! - `division`: divides the seats.
//! - `laws`: what holds of every division.
#![tactic(auto)]

mod breaks;
mod claim;
mod demand;
mod division;
mod factor;
mod fraction;
mod laws;
mod root;
mod shares;

pub use claim::Claim;
pub use demand::{Demand, MOST_ASKED, MOST_PERIOD, Observed, smoothed_with};
pub use division::divide;
pub use fraction::Fraction;
pub use laws::{
    every_division_has_one_answer, every_division_is_of_all_seats, every_division_is_within_bounds,
};
