//! Worked rows of calls, and the shapes that are refused.

use crate::asserts::is;
use apf_checked::Checked;
use apf_queue::{Chosen, Full, QueueFault, Queues};
use std::process::Abort;
use std::test::Fail;

// What is dispatched in turn, until nothing waits.
fn dispatched(rt: &impl Abort, checked: &mut Checked, expected: &[Chosen]) {
    for chosen in expected {
        is(rt, checked.dispatch(), Some(*chosen));
    }
    is(rt, checked.dispatch(), None);
}

fn chosen(queue: u32, request: u32, cost: u32) -> Chosen {
    Chosen {
        queue,
        request,
        cost,
    }
}

#[test]
fn requests_are_taken_out_of_any_place(rt: HostRuntime) -> Result<(), Fail> {
    let mut queues = Checked::new(rt.alloc(), 2, 3, 5)?;
    for request in 0..3 {
        is(&rt, queues.push(1, request, 1), Some(Ok(())));
    }
    is(&rt, queues.push(1, 3, 1), Some(Err(Full)));
    is(&rt, queues.remove(1), Some(Some(1)));
    is(&rt, queues.remove(1), Some(None));
    is(&rt, queues.push(1, 3, 1), Some(Ok(())));
    is(&rt, queues.len(1), Some(3));
    is(&rt, queues.remove(3), Some(Some(1)));
    is(&rt, queues.remove(0), Some(Some(1)));
    is(&rt, queues.len(1), Some(1));
    dispatched(&rt, &mut queues, &[chosen(1, 2, 1)]);
    Ok(())
}

#[test]
fn a_request_that_left_is_not_dispatched(rt: HostRuntime) -> Result<(), Fail> {
    let mut queues = Checked::new(rt.alloc(), 2, 3, 5)?;
    for request in 0..3 {
        is(&rt, queues.push(1, request, 1), Some(Ok(())));
    }
    is(&rt, queues.remove(1), Some(Some(1)));
    is(&rt, queues.push(1, 3, 1), Some(Ok(())));
    dispatched(
        &rt,
        &mut queues,
        &[chosen(1, 0, 1), chosen(1, 2, 1), chosen(1, 3, 1)],
    );
    Ok(())
}

#[test]
fn a_queue_that_was_empty_starts_at_the_level_s_time(rt: HostRuntime) -> Result<(), Fail> {
    let mut queues = Checked::new(rt.alloc(), 2, 10, 6)?;
    for request in 1..3 {
        is(&rt, queues.push(0, request, 1), Some(Ok(())));
    }
    dispatched(&rt, &mut queues, &[chosen(0, 1, 1), chosen(0, 2, 1)]);
    for (queue, request) in [(1, 3), (0, 4), (1, 5)] {
        is(&rt, queues.push(queue, request, 1), Some(Ok(())));
    }
    dispatched(
        &rt,
        &mut queues,
        &[chosen(1, 3, 1), chosen(0, 4, 1), chosen(1, 5, 1)],
    );
    Ok(())
}

#[test]
fn the_shortest_of_a_hand_was_dealt_first(rt: HostRuntime) -> Result<(), Fail> {
    let mut queues = Checked::new(rt.alloc(), 3, 10, 4)?;
    is(&rt, queues.shortest(&[2, 0, 1]), Some(2));
    is(&rt, queues.push(2, 0, 1), Some(Ok(())));
    is(&rt, queues.shortest(&[2, 1, 0]), Some(1));
    is(&rt, queues.shortest(&[2]), Some(2));
    is(&rt, queues.shortest(&[]), None);
    Ok(())
}

#[test]
fn shapes(rt: HostRuntime) {
    for (queues, length_limit, requests) in [
        (1, 1, 0),
        (1_024, 1_025, 10_000),
        (1_024, 1_024, 10_000),
        (1_024, 10_000, 10_000),
    ] {
        assert!(rt; Queues::new(rt.alloc(), queues, length_limit, requests).is_ok());
    }
    for (queues, length_limit, requests) in [
        (0, 1, 1),
        (1_025, 1, 1),
        (1, 0, 1),
        (1, 10_001, 1),
        (1, 1, 10_001),
    ] {
        let made = Queues::new(rt.alloc(), queues, length_limit, requests);
        assert!(rt;
            matches!(made, Err(QueueFault::BadShape)),
            "at {queues}, {length_limit}, {requests}"
        );
    }
    is(&rt, QueueFault::BadShape.number(), 1);
    is(&rt, QueueFault::NoMemory.number(), 3);
}
