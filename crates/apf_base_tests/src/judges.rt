//! Histories, which the plain program judges.

use crate::asserts::{is, is_at};
use apf_model::Event::{self, Dispatch, Enter, Full, Strike};
use apf_model::Status;
use apf_plain::{
    Stats, agrees, decided, executes_arrivals, is_fair, is_legal, names_queues, names_requests,
    stats_of, status,
};
use apf_words::Decision;
use std::alloc::{AllocError, Global};
use std::process::Abort;
use std::test::Fail;

// Requests 0 to 2 are dealt queue 0, and 3 and 4 are dealt queue 1. Two requests may wait in a queue.
const HANDS: [u32; 5] = [0, 0, 0, 1, 1];

const WIDTHS: [u32; 5] = [3, 3, 3, 1, 1];

// Whether the events, in the order of time, are legal, and whether they are fair.
fn judge(rt: &impl Abort, alloc: Global, events: &[Event]) -> Result<(bool, bool), AllocError> {
    let mut history = Vec::from_slice(alloc, events)?;
    history.reverse();
    assert!(rt; names_queues(2, history.as_slice()));
    assert!(rt; names_requests(5, history.as_slice()));
    assert!(rt; history.len() < 1 << 20);
    let legal = is_legal(alloc, &HANDS, 1, 2, history.as_slice())?;
    let fair = is_fair(alloc, 2, &WIDTHS, &HANDS, 1, 2, history.as_slice())?;
    Ok((legal, fair))
}

// Asserts that events, in the order of time, are judged so.
fn is_judged(
    rt: &impl Abort,
    alloc: Global,
    events: &[Event],
    want: (bool, bool),
) -> Result<(), AllocError> {
    let found = judge(rt, alloc, events)?;
    is_at(rt, found, want, events);
    Ok(())
}

#[test]
fn legal_and_fair(rt: HostRuntime) -> Result<(), Fail> {
    let cases: [(&[Event], (bool, bool)); 14] = [
        (&[], (true, true)),
        (
            &[
                Enter(1, 0),
                Enter(2, 0),
                Enter(3, 1),
                Dispatch(3, 1),
                Dispatch(1, 0),
            ],
            (true, true),
        ),
        // the choice is the queue of least finish
        (&[Enter(1, 0), Enter(3, 1), Dispatch(1, 0)], (true, false)),
        (&[Enter(1, 0), Enter(2, 0), Strike(2, 0)], (true, true)),
        (&[Enter(1, 0), Enter(2, 0), Full(0, 0)], (true, true)),
        // above the limit, and refused below it
        (&[Enter(1, 0), Enter(2, 0), Enter(0, 0)], (false, false)),
        (&[Full(1, 0)], (false, false)),
        // twice, and into a queue that was not dealt
        (&[Enter(1, 0), Enter(1, 0)], (false, false)),
        (&[Enter(1, 1)], (false, false)),
        // out of order, twice, and of nobody
        (&[Enter(1, 0), Enter(2, 0), Dispatch(2, 0)], (false, false)),
        (
            &[Enter(1, 0), Dispatch(1, 0), Dispatch(1, 0)],
            (false, false),
        ),
        (&[Strike(1, 0)], (false, false)),
        // an older event
        (&[Full(1, 0), Enter(3, 1)], (false, false)),
        (
            &[Enter(1, 0), Enter(3, 1), Dispatch(1, 0), Dispatch(3, 1)],
            (true, false),
        ),
    ];
    for (events, want) in cases {
        is_judged(&rt, rt.alloc(), events, want)?;
    }
    Ok(())
}

// Request 0 took its seats; 3 was cancelled while it waited, 4 was refused, and 2 still waits.
const HISTORY: [Event; 6] = [
    Full(4, 0),
    Strike(3, 0),
    Dispatch(1, 0),
    Enter(2, 0),
    Enter(3, 0),
    Enter(1, 0),
];

const EXECUTE: Option<Decision> = Some(Decision::Execute);

const CANCELLED: Option<Decision> = Some(Decision::Cancelled);

const FULL: Option<Decision> = Some(Decision::QueueFull);

#[test]
fn numbers_of_a_history(rt: HostRuntime) -> Result<(), Fail> {
    let stats = stats_of(rt.alloc(), 1, &HISTORY)?;
    let want = Stats {
        entered: 3,
        dispatched: 1,
        struck: 1,
        full: 1,
        waiting: 1,
    };
    is(&rt, stats, want);
    Ok(())
}

#[test]
fn statuses(rt: HostRuntime) {
    for (request, want) in [
        (0, Status::Away),
        (1, Status::Dispatched),
        (2, Status::Waits),
        (3, Status::Struck),
        (4, Status::Full),
    ] {
        is_at(&rt, status(&HISTORY, request), want, request);
    }
}

// Asserts whether these decisions agree with the history.
fn agree(rt: &impl Abort, decisions: &[Option<Decision>; 5], want: bool) {
    is_at(rt, agrees(&HISTORY, decisions), want, decisions);
}

#[test]
fn agreement(rt: HostRuntime) {
    agree(&rt, &[EXECUTE, EXECUTE, None, CANCELLED, FULL], true);
    agree(&rt, &[EXECUTE, EXECUTE, CANCELLED, CANCELLED, FULL], true);
    agree(&rt, &[EXECUTE, None, None, CANCELLED, FULL], false);
    agree(&rt, &[EXECUTE, EXECUTE, None, EXECUTE, FULL], false);
    agree(&rt, &[EXECUTE, EXECUTE, None, CANCELLED, None], false);
    agree(&rt, &[FULL, EXECUTE, None, CANCELLED, FULL], false);
}

#[test]
fn arrivals_that_execute(rt: HostRuntime) {
    let decisions = [EXECUTE, EXECUTE, None, CANCELLED, FULL];
    let took = [true, false, false, false, false];
    assert!(rt; executes_arrivals(&HISTORY, &decisions, &took));
    assert!(rt; !executes_arrivals(&HISTORY, &decisions, &[false; 5]));
}

#[test]
fn decisions_of_a_kind(rt: HostRuntime) {
    let decisions = [EXECUTE, EXECUTE, None, CANCELLED, FULL];
    for (decision, want) in [
        (Decision::Execute, 2),
        (Decision::QueueFull, 1),
        (Decision::Closed, 0),
    ] {
        is(&rt, decided(decision, &decisions), want);
    }
}
