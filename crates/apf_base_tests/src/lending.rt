//! The tests of `apf_lending`, by its public calls alone.
//!
//! - `divisions`: seats that are divided, beside what a program of its own made of the same claims, in fractions; and allocations
//!   refused.
//! - `demands`: what requests asked for in a period, worked by hand.

mod demands;
mod divisions;
