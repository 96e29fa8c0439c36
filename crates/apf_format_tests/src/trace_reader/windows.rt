//! Requests in the order of their arrivals, through windows of few requests.

use crate::trace_reader::calls::{Told, reads};
use apf_traces::TraceFault;
use std::test::Fail;

// Line 1 comes three places late.
const LATE: &[u8] = b"{\"hash\":7,\"runsFor\":1,\"arrivesAt\":50}
{\"hash\":7,\"runsFor\":1,\"arrivesAt\":30}
{\"hash\":7,\"runsFor\":1,\"arrivesAt\":40}
{\"hash\":7,\"runsFor\":1,\"arrivesAt\":30}
{\"hash\":7,\"runsFor\":1,\"arrivesAt\":60}
";

const IN_ORDER: [Told; 6] = [
    Told::Request(30, 2),
    Told::Request(30, 4),
    Told::Request(40, 3),
    Told::Request(50, 1),
    Told::Request(60, 5),
    Told::End,
];

// Line 4 is before what is handed out of a window of two.
const TOO_LATE: &[u8] = b"{\"hash\":7,\"runsFor\":1,\"arrivesAt\":50}
{\"hash\":7,\"runsFor\":1,\"arrivesAt\":30}
{\"hash\":7,\"runsFor\":1,\"arrivesAt\":40}
{\"hash\":7,\"runsFor\":1,\"arrivesAt\":29}
{\"hash\":7,\"runsFor\":1,\"arrivesAt\":60}
";

const LATE_AT_4: Told = Told::Fault(TraceFault::TooLate(4));

const OF_TWO: [Told; 2] = [Told::Request(30, 2), LATE_AT_4];

const OF_THREE: [Told; 6] = [
    Told::Request(29, 4),
    Told::Request(30, 2),
    Told::Request(40, 3),
    Told::Request(50, 1),
    Told::Request(60, 5),
    Told::End,
];

const ORDERED: &[u8] = b"{\"hash\":7,\"runsFor\":1,\"arrivesAt\":1}
{\"hash\":7,\"runsFor\":1,\"arrivesAt\":2}
{\"hash\":7,\"runsFor\":1,\"arrivesAt\":2}
{\"hash\":7,\"runsFor\":1,\"arrivesAt\":1}
";

// A window of none takes lines in order, and no others.
const OF_NONE: [Told; 4] = [
    Told::Request(1, 1),
    Told::Request(2, 2),
    Told::Request(2, 3),
    LATE_AT_4,
];

#[test]
fn windows(rt: HostRuntime) -> Result<(), Fail> {
    for (size, trace, answers) in [
        (2, LATE, IN_ORDER.as_slice()),
        (2, TOO_LATE, OF_TWO.as_slice()),
        (3, TOO_LATE, OF_THREE.as_slice()),
        (0, ORDERED, OF_NONE.as_slice()),
    ] {
        let mut input = trace;
        let _ = reads(&rt, rt.alloc(), size, &mut input, answers, false)?;
    }
    Ok(())
}
