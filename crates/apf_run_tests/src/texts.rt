//! What the faults print. Of these the program prints those of memory and of workers alone.

use crate::asserts::is;
use apf_run::{GateFault, ReplayFault, RunFault};
use std::test::Fail;

#[test]
fn texts_of_faults(rt: HostRuntime) -> Result<(), Fail> {
    for (fault, text) in [
        (RunFault::NoMemory, "out of memory"),
        (RunFault::Worker(0), "worker 0 could not start"),
        (RunFault::Gate(GateFault::BadLimit), "bad limit"),
        (
            RunFault::Gate(GateFault::BadWidth(7)),
            "bad width of request 7",
        ),
        (
            RunFault::Gate(GateFault::TooMany),
            "too many requests or stations",
        ),
    ] {
        is(&rt, fault.to_string(rt.alloc())?.as_str(), text);
    }
    let text = ReplayFault::Gate(GateFault::BadLimit).to_string(rt.alloc())?;
    is(&rt, text.as_str(), "bad limit");
    Ok(())
}
