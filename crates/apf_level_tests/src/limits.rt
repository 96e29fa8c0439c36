//! Limits that change, requests that are wider than the limit, and levels without queues.

use crate::opening::{ask, settings};
use crate::scripts::Step::{
    Admit, Begin, Cancel, Close, Copy, Dispatch, Limit, Look, Poll, Read, Release, Strike,
    TryAdmit, TryLimit,
};
use crate::scripts::{Row, numbers, run_row};
use apf_book::Config;
use apf_gate::Close::First;
use apf_gate::TrySetLimit::Set;
use apf_level::Counts;
use apf_model::{Event, Response};
use apf_session::Answer::{Busy, Over, Released, Run, Tried, Waits};
use apf_session::OpenFault;
use apf_words::Decision;

// The caller of `try_set_limit` owes a dispatch where requests wait, `set_limit` makes it itself.
#[test]
fn limits(rt: HostRuntime) -> Result<(), OpenFault> {
    let row = Row {
        config: settings(1),
        asks: &[ask(1); 4],
        steps: &[
            Begin(0, Run),
            Begin(1, Waits),
            Begin(2, Waits),
            TryLimit(2, Set(1, true)),
            Look(false, [1, 2, 2]),
            Poll(1, Waits),
            Dispatch(1),
            Poll(1, Run),
            Poll(2, Waits),
            Limit(3, 2),
            Look(false, [3, 0, 3]),
            Poll(2, Run),
            Limit(1, 3),
            Look(false, [3, 0, 1]),
            Begin(3, Waits),
            Release(0, Released(true)),
            Dispatch(0),
            Release(1, Released(true)),
            Dispatch(0),
            Release(2, Released(true)),
            Dispatch(1),
            Poll(3, Run),
            TryLimit(10_000, Set(1, false)),
            Look(false, [1, 0, 10_000]),
            Release(3, Released(false)),
        ],
        closed: false,
        decisions: &[Decision::Execute; 4],
        log: &[
            Event::Enter(1, 0),
            Event::Enter(2, 0),
            Event::Dispatch(1, 0),
            Event::Dispatch(2, 0),
            Event::Enter(3, 0),
            Event::Dispatch(3, 0),
        ],
        stats: numbers(3, 3, 0, 0, 0),
        counts: Counts {
            executed: 4,
            ..Counts::default()
        },
    };
    run_row(&rt, rt.alloc(), &row)
}

// Five seats under a limit of two: such a request executes alone, on arrival and from a queue.
#[test]
fn over_wide(rt: HostRuntime) -> Result<(), OpenFault> {
    let row = Row {
        config: settings(2),
        asks: &[ask(5), ask(1), ask(1), ask(5), ask(1)],
        steps: &[
            Begin(0, Run),
            Look(false, [5, 0, 2]),
            TryAdmit(1, Busy),
            Begin(1, Waits),
            Begin(2, Waits),
            Dispatch(0),
            Release(0, Released(true)),
            Dispatch(2),
            Poll(1, Run),
            Poll(2, Run),
            TryAdmit(3, Busy),
            Begin(3, Waits),
            Release(1, Released(true)),
            Dispatch(0),
            Begin(4, Waits),
            Release(2, Released(true)),
            Dispatch(1),
            Look(false, [5, 1, 2]),
            Poll(3, Run),
            Poll(4, Waits),
            Release(3, Released(true)),
            Dispatch(1),
            Poll(4, Run),
            Release(4, Released(false)),
        ],
        closed: false,
        decisions: &[Decision::Execute; 5],
        log: &[
            Event::Enter(1, 0),
            Event::Enter(2, 0),
            Event::Dispatch(1, 0),
            Event::Dispatch(2, 0),
            Event::Enter(3, 0),
            Event::Enter(4, 0),
            Event::Dispatch(3, 0),
            Event::Dispatch(4, 0),
        ],
        stats: numbers(4, 4, 0, 0, 0),
        counts: Counts {
            executed: 5,
            ..Counts::default()
        },
    };
    run_row(&rt, rt.alloc(), &row)
}

// On a level without queues nobody waits, nothing is dispatched or struck, and the log stays empty.
#[test]
fn no_queues(rt: HostRuntime) -> Result<(), OpenFault> {
    let row = Row {
        config: Config {
            limit_response: Response::Reject,
            ..settings(1)
        },
        asks: &[ask(1); 7],
        steps: &[
            TryAdmit(0, Run),
            TryAdmit(1, Tried(Decision::ConcurrencyLimit, false)),
            Begin(2, Over(Decision::ConcurrencyLimit)),
            Admit(3, Over(Decision::ConcurrencyLimit)),
            Cancel(4, Decision::Cancelled),
            Strike(4, false),
            Dispatch(0),
            Copy(0, 4, 0),
            Read(numbers(0, 0, 0, 0, 0)),
            Look(false, [1, 0, 1]),
            Begin(4, Over(Decision::Cancelled)),
            Release(0, Released(false)),
            Begin(5, Run),
            Limit(2, 1),
            Release(5, Released(false)),
            Close(First),
            Begin(6, Over(Decision::Closed)),
            Dispatch(0),
            Read(numbers(0, 0, 0, 0, 0)),
        ],
        closed: true,
        decisions: &[
            Decision::Execute,
            Decision::ConcurrencyLimit,
            Decision::ConcurrencyLimit,
            Decision::ConcurrencyLimit,
            Decision::Cancelled,
            Decision::Execute,
            Decision::Closed,
        ],
        log: &[],
        stats: numbers(0, 0, 0, 0, 0),
        counts: Counts {
            executed: 2,
            queue_full: 0,
            closed: 1,
            concurrency_limit: 3,
            cancelled: 1,
        },
    };
    run_row(&rt, rt.alloc(), &row)
}
