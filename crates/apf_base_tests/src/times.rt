//! The tests of `apf_times`, by its public calls alone.
//!
//! - `percentiles`: worked percentiles, and random ones beside a plain count.
//! - `waits`: worked waits, random ones beside a sorted list, and allocations refused.
//! - `window`: windows by hand, random ones beside a plain list, and allocations refused.
//! - `calls`: calls that test what is asked of callers. `draws`: random numbers.

mod calls;
mod draws;
mod percentiles;
mod waits;
mod window;
