//! A picture of `apf_picture` whose times no trace has: those at the end of their range, and seats beyond the limit.

use crate::asserts::is;
use apf_flows::flows_of;
use apf_model::{Config, Response};
use apf_picture::{Outcome, Picture, Scene};
use apf_traces::TraceRequest;
use apf_words::Decision;
use std::alloc::Global;
use std::process::Abort;
use std::test::Fail;

/// A level of two seats.
const CONFIG: Config = Config {
    limit: 2,
    queues: 2,
    hand_size: 1,
    queue_length_limit: 2,
    limit_response: Response::Queue,
};

// A request that runs for as long as a number says.
fn request(arrives_at: u64, width: u32) -> TraceRequest {
    TraceRequest {
        arrives_at,
        runs_for: u64::MAX,
        hash: 1,
        names: None,
        width,
        cost: None,
    }
}

// It executed after so long a wait.
fn executed(queue: u32) -> Outcome {
    Outcome {
        decision: Decision::Execute,
        wait: u64::MAX,
        queue: Some(queue),
    }
}

// The picture of a run on a level of two seats.
fn picture_of<R: Abort>(
    rt: &R,
    alloc: Global,
    trace: &[TraceRequest],
    outcomes: &[Outcome],
) -> Result<Picture, Fail> {
    assert!(rt; trace.len() <= 10_000);
    assert!(rt; outcomes.len() == trace.len());
    let flows = flows_of(alloc, trace)?;
    let scene = Scene {
        config: CONFIG,
        patience: 90,
        from: 0,
        end: u64::MAX,
        is_whole: true,
        trace,
        flows: &flows,
        outcomes,
    };
    Ok(Picture::of(alloc, &scene)?)
}

// How many times a part stands in a text.
fn times(text: &[u8], part: &str) -> usize {
    let mut count = 0usize;
    for window in text.windows(part.len().max(1)) {
        if window == part.as_bytes() {
            count = count.saturating_add(1);
        }
    }
    count
}

#[test]
fn late_times(rt: HostRuntime) -> Result<(), Fail> {
    let trace = [request(0, 1), request(u64::MAX, u32::MAX)];
    let outcomes = [executed(u32::MAX), executed(0)];
    let mut text = Vec::new(rt.alloc());
    picture_of(&rt, rt.alloc(), trace.as_slice(), outcomes.as_slice())?.write(&mut text)?;
    is(&rt, times(text.as_slice(), "213503982 d 8 h in all"), 2);
    is(&rt, times(text.as_slice(), "d=\"M0 1h880M880 3h1\"/>"), 1);
    Ok(())
}
