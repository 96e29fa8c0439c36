//! Histories, whose choices, numbers and services the plain program computes.

use crate::asserts::{is, is_at};
use apf_model::Event;
use apf_model::Event::{Dispatch, Enter, Full, Strike};
use apf_plain::{choice, is_never_empty, names_queues, numbers_of, service, shortest, waiting};
use std::alloc::{AllocError, Global};
use std::process::Abort;
use std::test::Fail;

// A history in the order of time, with what its requests were dealt and how wide they are.
#[derive(Clone, Copy)]
struct Row<'a> {
    queues: u32,
    hands: &'a [&'a [u32]],
    widths: &'a [u32],
    events: &'a [Event],
}

const VIRTUAL_TIME: [Event; 8] = [
    Enter(1, 0),
    Enter(2, 0),
    Enter(3, 1),
    Enter(4, 1),
    Dispatch(3, 1),
    Dispatch(4, 1),
    Dispatch(1, 0),
    Dispatch(2, 0),
];

fn newest_first(alloc: Global, events: &[Event]) -> Result<Vec<Event>, AllocError> {
    let mut history = Vec::from_slice(alloc, events)?;
    history.reverse();
    Ok(history)
}

fn choice_of(
    rt: &impl Abort,
    alloc: Global,
    row: &Row<'_>,
    history: &[Event],
) -> Result<Option<u32>, AllocError> {
    assert!(rt; names_queues(row.queues, history));
    assert!(rt; history.len() < 1 << 20);
    choice(alloc, row.queues, row.widths, history)
}

// The queue is the shortest of the request's hand.
fn is_entered(
    rt: &impl Abort,
    alloc: Global,
    row: &Row<'_>,
    before: &[Event],
    request: u32,
    queue: u32,
) -> Result<(), AllocError> {
    let hand = row.hands.get(request as usize).copied().unwrap_or(&[]);
    let found = shortest(alloc, before, hand)?;
    is_at(rt, found, Some(queue), before.len());
    Ok(())
}

// The queue is the choice, and the request its first one.
fn is_dispatched(
    rt: &impl Abort,
    alloc: Global,
    row: &Row<'_>,
    before: &[Event],
    request: u32,
    queue: u32,
) -> Result<(), AllocError> {
    let found = choice_of(rt, alloc, row, before)?;
    is_at(rt, found, Some(queue), before.len());
    let waiting = waiting(alloc, before, queue)?;
    is_at(rt, waiting.first(), Some(&request), before.len());
    Ok(())
}

// Each Enter names the shortest queue of its hand, and each Dispatch the first request of the choice.
fn check(rt: &impl Abort, alloc: Global, row: &Row<'_>) -> Result<(), AllocError> {
    let history = newest_first(alloc, row.events)?;
    for (place, event) in row.events.iter().enumerate() {
        assert!(rt; place <= history.len());
        let before = &history[history.len() - place..];
        match *event {
            Enter(request, queue) => is_entered(rt, alloc, row, before, request, queue)?,
            Dispatch(request, queue) => is_dispatched(rt, alloc, row, before, request, queue)?,
            Strike(..) | Full(..) => panic!(rt; "no row has one"),
        }
    }
    Ok(())
}

#[test]
fn tie_after_the_robin(rt: HostRuntime) -> Result<(), Fail> {
    let row = Row {
        queues: 2,
        hands: &[&[0], &[0], &[0], &[1]],
        widths: &[2, 1, 1, 2],
        events: &[
            Enter(1, 0),
            Enter(2, 0),
            Enter(3, 1),
            Dispatch(1, 0),
            Dispatch(3, 1),
            Dispatch(2, 0),
        ],
    };
    check(&rt, rt.alloc(), &row)?;
    Ok(())
}

#[test]
fn a_queue_that_was_empty(rt: HostRuntime) -> Result<(), Fail> {
    let row = Row {
        queues: 2,
        hands: &[&[0], &[0], &[0], &[1], &[0], &[1]],
        widths: &[1, 1, 1, 1, 1, 1],
        events: &[
            Enter(1, 0),
            Enter(2, 0),
            Dispatch(1, 0),
            Dispatch(2, 0),
            Enter(3, 1),
            Enter(4, 0),
            Enter(5, 1),
            Dispatch(3, 1),
            Dispatch(4, 0),
            Dispatch(5, 1),
        ],
    };
    check(&rt, rt.alloc(), &row)?;
    Ok(())
}

#[test]
fn shortest_of_the_hand(rt: HostRuntime) -> Result<(), Fail> {
    let row = Row {
        queues: 2,
        hands: &[&[0, 1], &[1, 0], &[1, 0], &[0, 1]],
        widths: &[1, 1, 1, 1],
        events: &[Enter(1, 1), Enter(2, 0), Enter(3, 0)],
    };
    check(&rt, rt.alloc(), &row)?;
    is(&rt, shortest(rt.alloc(), &[], &[])?, None);
    Ok(())
}

// Asserts that these are the two numbers `next`, R and the robin now.
fn numbers_are(
    rt: &impl Abort,
    alloc: Global,
    row: &Row<'_>,
    now: &[Event],
    next: &[u64],
    virtual_time: u64,
    robin: u32,
) -> Result<(), AllocError> {
    assert!(rt; names_queues(row.queues, now));
    assert!(rt; now.len() < 1 << 20);
    let numbers = numbers_of(alloc, row.queues, row.widths, now)?;
    is(rt, numbers.next.as_slice(), next);
    is(rt, numbers.virtual_time, virtual_time);
    is(rt, numbers.robin, robin);
    Ok(())
}

#[test]
fn virtual_time(rt: HostRuntime) -> Result<(), Fail> {
    let row = Row {
        queues: 2,
        hands: &[&[0], &[0], &[0], &[1], &[1]],
        widths: &[3, 3, 3, 1, 1],
        events: &VIRTUAL_TIME,
    };
    check(&rt, rt.alloc(), &row)?;
    let history = newest_first(rt.alloc(), row.events)?;
    let chosen = choice_of(&rt, rt.alloc(), &row, history.as_slice())?;
    is(&rt, chosen, None);

    // After each dispatch: the two numbers `next`, R and the robin.
    for (place, next_0, next_1, virtual_time, robin) in [
        (4, 0, 0, 0, 1),
        (5, 0, 1, 0, 1),
        (6, 0, 2, 1, 1),
        (7, 3, 2, 1, 0),
        (8, 6, 2, 3, 0),
    ] {
        assert!(rt; place <= history.len());
        let now = &history[history.len() - place..];
        let next = [next_0, next_1];
        numbers_are(&rt, rt.alloc(), &row, now, &next, virtual_time, robin)?;
    }
    Ok(())
}

// What the two queues were served in this many last events, if neither was empty in them.
fn services(
    rt: &impl Abort,
    alloc: Global,
    now: &[Event],
    events: usize,
) -> Result<Option<(u64, u64)>, AllocError> {
    assert!(rt; events <= now.len() && now.len() < 1 << 20);
    for queue in 0..2 {
        if !is_never_empty(alloc, now, events, queue)? {
            return Ok(None);
        }
    }
    let stretch = &now[..events];
    let widths = [3, 3, 3, 1, 1];
    Ok(Some((service(&widths, stretch, 0), service(&widths, stretch, 1))))
}

#[test]
fn balance(rt: HostRuntime) -> Result<(), Fail> {
    let history = newest_first(rt.alloc(), &VIRTUAL_TIME)?;
    for (from, to, want) in [
        (4, 5, Some((0, 1))),
        (3, 5, Some((0, 1))),
        (2, 5, None),
        (4, 6, None),
    ] {
        assert!(rt; from <= to && to <= history.len());
        let now = &history[history.len() - to..];
        is_at(
            &rt,
            services(&rt, rt.alloc(), now, to - from)?,
            want,
            (from, to),
        );
    }
    Ok(())
}
