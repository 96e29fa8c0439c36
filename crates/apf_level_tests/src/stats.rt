//! The tests of `apf_stats`, by its public calls alone.
//!
//! - `readings`: readings of what was published, in one thread and in two.

mod readings;
