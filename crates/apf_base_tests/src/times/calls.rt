//! Calls that test what `apf_times` asks of its callers.

use apf_times::{MOST_WAIT, Waits};
use std::alloc::{AllocError, Allocator};
use std::process::Abort;

// Adds a wait that is not too long.
pub fn add_wait<A: Allocator + Copy>(
    rt: &impl Abort,
    waits: &mut Waits<A>,
    wait: u64,
) -> Result<(), AllocError> {
    assert!(rt; wait <= MOST_WAIT);
    assert!(rt; waits.len() < u64::MAX);
    waits.add(wait)
}

// A percentile from 1 to 100.
pub fn percentile_of<A: Allocator>(waits: &mut Waits<A>, percent: u32) -> u64 {
    waits.percentile(percent.clamp(1, 100))
}
