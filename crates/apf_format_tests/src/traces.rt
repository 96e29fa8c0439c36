//! The texts of the faults of `apf_traces`: each command says more of a fault than its text.

use crate::asserts::is;
use apf_traces::TraceFault;
use std::test::Fail;

const TEXTS: [(TraceFault, &str); 12] = [
    (TraceFault::TooMany(1), "too many lines"),
    (TraceFault::TooLong(1), "line too long"),
    (TraceFault::NotUtf8Json(1), "not JSON"),
    (TraceFault::NotObject(1), "not an object"),
    (TraceFault::UnknownKey(1), "unknown key"),
    (TraceFault::BadArrival(1), "bad arrivesAt"),
    (TraceFault::BadRun(1), "bad runsFor"),
    (TraceFault::BadFlow(1), "bad flow"),
    (TraceFault::BadWidth(1), "bad width"),
    (TraceFault::BadCost(1), "bad cost"),
    (TraceFault::Truncated(1), "truncated"),
    (TraceFault::NoMemory, "out of memory"),
];

#[test]
fn texts(rt: HostRuntime) -> Result<(), Fail> {
    for (fault, said) in TEXTS {
        is(&rt, fault.to_string(rt.alloc())?.as_str(), said);
    }
    Ok(())
}
