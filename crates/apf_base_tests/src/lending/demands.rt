//! What requests asked for in a period.

use crate::asserts::is;
use apf_lending::{Demand, Observed, smoothed_with};
use std::test::Fail;

// By hand: 4 seats for 2 s, 10 for 1 s, none for 7 s. The mean is 18 / 10 seats, and the mean of the squares 132 / 10; the root of
// 13.2 - 3.24 is 3.155.
#[test]
fn worked(rt: HostRuntime) -> Result<(), Fail> {
    let mut demand = Demand::new(5_000_000, 4);
    demand.change(7_000_000, 10);
    demand.change(8_000_000, 0);
    demand.change(15_000_000, 0);
    let observed = demand.observed();
    let want = Observed {
        high: 10,
        mean: 1_800,
        deviation: 3_155,
    };
    is(&rt, observed, want);
    Ok(())
}

// By hand: what was asked for once falls by 23 thousandths of its distance in a period without requests.
#[test]
fn falls(rt: HostRuntime) -> Result<(), Fail> {
    let nothing = Observed {
        high: 0,
        mean: 0,
        deviation: 0,
    };
    is(&rt, smoothed_with(4_955, nothing), 4_841);
    is(&rt, smoothed_with(1, nothing), 0);
    let much = Observed {
        high: 9,
        mean: 5_000,
        deviation: 1_000,
    };
    is(&rt, smoothed_with(4_955, much), 6_000);
    Ok(())
}
