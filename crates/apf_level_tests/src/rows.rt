//! Worked scripts on a level with queues: who runs, who waits, who is turned away.

use crate::opening::{ask, settings};
use crate::scripts::Step::{
    Admit, Begin, BeginWithEvent, Close, Dispatch, Look, Poll, Read, Release, TryAdmit, TryLimit,
};
use crate::scripts::{Row, numbers, run_row};
use apf_book::{Ask, Config};
use apf_gate::Close::{Already, First};
use apf_gate::TrySetLimit;
use apf_level::Counts;
use apf_model::Event;
use apf_session::Answer::{Busy, Over, Released, Run, Tried, Waits, Wrong};
use apf_session::OpenFault;
use apf_words::Decision;

// The second request waits until the first gave its seat back.
#[test]
fn two_requests(rt: HostRuntime) -> Result<(), OpenFault> {
    let row = Row {
        config: settings(1),
        asks: &[ask(1), ask(1)],
        steps: &[
            Read(numbers(0, 0, 0, 0, 0)),
            Begin(0, Run),
            Look(false, [1, 0, 1]),
            Begin(1, Waits),
            Look(false, [1, 1, 1]),
            Read(numbers(1, 0, 0, 0, 1)),
            Poll(1, Waits),
            Dispatch(0),
            Release(0, Released(true)),
            Poll(1, Waits),
            Dispatch(1),
            Read(numbers(1, 1, 0, 0, 0)),
            Look(false, [1, 0, 1]),
            Poll(1, Run),
            Release(1, Released(false)),
            Dispatch(0),
            Release(1, Wrong),
            Look(false, [0, 0, 1]),
        ],
        closed: false,
        decisions: &[Decision::Execute, Decision::Execute],
        log: &[Event::Enter(1, 0), Event::Dispatch(1, 0)],
        stats: numbers(1, 1, 0, 0, 0),
        counts: Counts {
            executed: 2,
            ..Counts::default()
        },
    };
    run_row(&rt, rt.alloc(), &row)
}

// The third request would fit, but may not pass the second, which does not.
#[test]
fn nobody_passes_who_waits(rt: HostRuntime) -> Result<(), OpenFault> {
    let row = Row {
        config: settings(2),
        asks: &[ask(1), ask(2), ask(1), ask(1)],
        steps: &[
            TryAdmit(0, Run),
            TryAdmit(1, Busy),
            Begin(1, Waits),
            TryAdmit(2, Busy),
            Begin(2, Waits),
            Dispatch(0),
            Release(0, Released(true)),
            Dispatch(1),
            Look(false, [2, 1, 2]),
            Poll(2, Waits),
            Poll(1, Run),
            Release(1, Released(true)),
            Dispatch(1),
            Poll(2, Run),
            Admit(3, Run),
            Look(false, [2, 0, 2]),
            Release(2, Released(false)),
            Release(3, Released(false)),
        ],
        closed: false,
        decisions: &[Decision::Execute; 4],
        log: &[
            Event::Enter(1, 0),
            Event::Enter(2, 0),
            Event::Dispatch(1, 0),
            Event::Dispatch(2, 0),
        ],
        stats: numbers(2, 2, 0, 0, 0),
        counts: Counts {
            executed: 4,
            ..Counts::default()
        },
    };
    run_row(&rt, rt.alloc(), &row)
}

// The queue has room for one request.
#[test]
fn a_full_queue(rt: HostRuntime) -> Result<(), OpenFault> {
    let row = Row {
        config: Config {
            queue_length_limit: 1,
            ..settings(1)
        },
        asks: &[ask(1), ask(1), ask(1)],
        steps: &[
            Begin(0, Run),
            Begin(1, Waits),
            Begin(2, Over(Decision::QueueFull)),
            Look(false, [1, 1, 1]),
            Read(numbers(1, 0, 0, 1, 1)),
            Release(0, Released(true)),
            Dispatch(1),
            Poll(1, Run),
            Release(1, Released(false)),
        ],
        closed: false,
        decisions: &[Decision::Execute, Decision::Execute, Decision::QueueFull],
        log: &[Event::Enter(1, 0), Event::Full(2, 0), Event::Dispatch(1, 0)],
        stats: numbers(1, 1, 0, 1, 0),
        counts: Counts {
            executed: 2,
            queue_full: 1,
            ..Counts::default()
        },
    };
    run_row(&rt, rt.alloc(), &row)
}

// The event of an arrival names the queue, also where the request is dispatched at once. There is none of a request
// that takes its seats, and none of one that arrived before.
#[test]
fn an_arrival_tells_its_event(rt: HostRuntime) -> Result<(), OpenFault> {
    let row = Row {
        config: Config {
            queues: 2,
            queue_length_limit: 1,
            ..settings(1)
        },
        asks: &[
            Ask { width: 1, hash: 0 },
            Ask { width: 1, hash: 1 },
            Ask { width: 1, hash: 1 },
            Ask { width: 2, hash: 0 },
        ],
        steps: &[
            BeginWithEvent(0, Run, None),
            BeginWithEvent(1, Waits, Some(Event::Enter(1, 1))),
            BeginWithEvent(2, Over(Decision::QueueFull), Some(Event::Full(2, 1))),
            BeginWithEvent(1, Wrong, None),
            TryLimit(4, TrySetLimit::Set(1, true)),
            BeginWithEvent(3, Run, Some(Event::Enter(3, 0))),
            Poll(1, Run),
            Look(false, [4, 0, 4]),
            Release(0, Released(false)),
            Release(1, Released(false)),
            Release(3, Released(false)),
        ],
        closed: false,
        decisions: &[
            Decision::Execute,
            Decision::Execute,
            Decision::QueueFull,
            Decision::Execute,
        ],
        log: &[
            Event::Enter(1, 1),
            Event::Full(2, 1),
            Event::Enter(3, 0),
            Event::Dispatch(1, 1),
            Event::Dispatch(3, 0),
        ],
        stats: numbers(2, 2, 0, 1, 0),
        counts: Counts {
            executed: 3,
            queue_full: 1,
            ..Counts::default()
        },
    };
    run_row(&rt, rt.alloc(), &row)
}

// Who waited before the close is still served. Who arrives later is not, even where seats are free.
#[test]
fn a_closed_level(rt: HostRuntime) -> Result<(), OpenFault> {
    let row = Row {
        config: settings(1),
        asks: &[ask(1); 6],
        steps: &[
            Begin(0, Run),
            Begin(1, Waits),
            Close(First),
            Look(true, [1, 1, 1]),
            Close(Already),
            Begin(2, Over(Decision::Closed)),
            TryAdmit(3, Tried(Decision::Closed, false)),
            Release(0, Released(true)),
            Dispatch(1),
            Poll(1, Run),
            Release(1, Released(false)),
            Look(true, [0, 0, 1]),
            Begin(4, Over(Decision::Closed)),
            Admit(5, Over(Decision::Closed)),
        ],
        closed: true,
        decisions: &[
            Decision::Execute,
            Decision::Execute,
            Decision::Closed,
            Decision::Closed,
            Decision::Closed,
            Decision::Closed,
        ],
        log: &[Event::Enter(1, 0), Event::Dispatch(1, 0)],
        stats: numbers(1, 1, 0, 0, 0),
        counts: Counts {
            executed: 2,
            closed: 4,
            ..Counts::default()
        },
    };
    run_row(&rt, rt.alloc(), &row)
}

// Two queues of one flow each. The narrow request is dispatched before the wide one that came before it: its
// finish is 1 beside 3.
#[test]
fn the_least_virtual_finish_is_first(rt: HostRuntime) -> Result<(), OpenFault> {
    let row = Row {
        config: Config {
            queues: 2,
            ..settings(3)
        },
        asks: &[
            Ask { width: 3, hash: 0 },
            Ask { width: 3, hash: 0 },
            Ask { width: 1, hash: 1 },
        ],
        steps: &[
            Begin(0, Run),
            Begin(1, Waits),
            Begin(2, Waits),
            Release(0, Released(true)),
            Dispatch(1),
            Poll(1, Waits),
            Poll(2, Run),
            Release(2, Released(true)),
            Dispatch(1),
            Poll(1, Run),
            Release(1, Released(false)),
        ],
        closed: false,
        decisions: &[Decision::Execute; 3],
        log: &[
            Event::Enter(1, 0),
            Event::Enter(2, 1),
            Event::Dispatch(2, 1),
            Event::Dispatch(1, 0),
        ],
        stats: numbers(2, 2, 0, 0, 0),
        counts: Counts {
            executed: 3,
            ..Counts::default()
        },
    };
    run_row(&rt, rt.alloc(), &row)
}

// The first seat is given back, and later the limit is larger; each time nobody but the next arrival dispatches.
#[test]
fn an_arrival_dispatches(rt: HostRuntime) -> Result<(), OpenFault> {
    let row = Row {
        config: settings(1),
        asks: &[ask(1); 4],
        steps: &[
            Begin(0, Run),
            Begin(1, Waits),
            Release(0, Released(true)),
            Poll(1, Waits),
            Begin(2, Waits),
            Poll(1, Run),
            TryLimit(3, TrySetLimit::Set(1, true)),
            Poll(2, Waits),
            Begin(3, Run),
            Poll(2, Run),
            Look(false, [3, 0, 3]),
            Release(1, Released(false)),
            Release(2, Released(false)),
            Release(3, Released(false)),
        ],
        closed: false,
        decisions: &[Decision::Execute; 4],
        log: &[
            Event::Enter(1, 0),
            Event::Enter(2, 0),
            Event::Dispatch(1, 0),
            Event::Enter(3, 0),
            Event::Dispatch(2, 0),
            Event::Dispatch(3, 0),
        ],
        stats: numbers(3, 3, 0, 0, 0),
        counts: Counts {
            executed: 4,
            ..Counts::default()
        },
    };
    run_row(&rt, rt.alloc(), &row)
}
