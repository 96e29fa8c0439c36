//! Cancelled requests, struck by a Station, by whoever polls, and by a dispatch.

use crate::opening::{ask, settings};
use crate::scripts::Step::{
    Admit, Begin, Cancel, Copy, Dispatch, Look, Poll, Read, Release, Strike, TryAdmit,
};
use crate::scripts::{Row, numbers, run_row};
use apf_level::Counts;
use apf_model::Event;
use apf_session::Answer::{Over, Released, Run, Tried, Waits};
use apf_session::OpenFault;
use apf_words::Decision::{Cancelled, Execute};

// Three requests of one seat each. The second is cancelled and struck while it waits.
#[test]
fn strike(rt: HostRuntime) -> Result<(), OpenFault> {
    let row = Row {
        config: settings(1),
        asks: &[ask(1); 3],
        steps: &[
            Begin(0, Run),
            Begin(1, Waits),
            Begin(2, Waits),
            Strike(1, false),
            Cancel(1, Cancelled),
            Look(false, [1, 2, 1]),
            Strike(1, true),
            Look(false, [1, 1, 1]),
            Strike(1, false),
            Strike(0, false),
            Read(numbers(2, 0, 1, 0, 1)),
            Copy(0, 4, 3),
            Copy(0, 2, 2),
            Copy(1, 1, 1),
            Copy(3, 4, 0),
            Copy(0, 0, 0),
            Release(0, Released(true)),
            Dispatch(1),
            Read(numbers(2, 1, 1, 0, 0)),
            Copy(0, 4, 4),
            Copy(1, 4, 3),
            Copy(1, 2, 2),
            Copy(4, 4, 0),
            Copy(5, 4, 0),
            Poll(1, Over(Cancelled)),
            Poll(2, Run),
            Cancel(2, Execute),
            Strike(2, false),
            Release(2, Released(false)),
        ],
        closed: false,
        decisions: &[Execute, Cancelled, Execute],
        log: &[
            Event::Enter(1, 0),
            Event::Enter(2, 0),
            Event::Strike(1, 0),
            Event::Dispatch(2, 0),
        ],
        stats: numbers(2, 1, 1, 0, 0),
        counts: Counts {
            executed: 2,
            cancelled: 1,
            ..Counts::default()
        },
    };
    run_row(&rt, rt.alloc(), &row)
}

// The second request does not fit, and is cancelled. Once it is struck the third one fits, with no further call.
#[test]
fn a_strike_dispatches(rt: HostRuntime) -> Result<(), OpenFault> {
    let row = Row {
        config: settings(2),
        asks: &[ask(1), ask(2), ask(1)],
        steps: &[
            Begin(0, Run),
            Begin(1, Waits),
            Begin(2, Waits),
            Cancel(1, Cancelled),
            Poll(2, Waits),
            Strike(1, true),
            Poll(2, Run),
            Look(false, [2, 0, 2]),
            Poll(1, Over(Cancelled)),
            Release(0, Released(false)),
            Release(2, Released(false)),
        ],
        closed: false,
        decisions: &[Execute, Cancelled, Execute],
        log: &[
            Event::Enter(1, 0),
            Event::Enter(2, 0),
            Event::Strike(1, 0),
            Event::Dispatch(2, 0),
        ],
        stats: numbers(2, 1, 1, 0, 0),
        counts: Counts {
            executed: 2,
            cancelled: 1,
            ..Counts::default()
        },
    };
    run_row(&rt, rt.alloc(), &row)
}

// The same, where the cancelled request reads its decision.
#[test]
fn a_poll_strikes_and_dispatches(rt: HostRuntime) -> Result<(), OpenFault> {
    let row = Row {
        config: settings(2),
        asks: &[ask(1), ask(2), ask(1)],
        steps: &[
            Begin(0, Run),
            Begin(1, Waits),
            Begin(2, Waits),
            Cancel(1, Cancelled),
            Poll(1, Over(Cancelled)),
            Poll(2, Run),
            Look(false, [2, 0, 2]),
            Strike(1, false),
            Release(0, Released(false)),
            Release(2, Released(false)),
        ],
        closed: false,
        decisions: &[Execute, Cancelled, Execute],
        log: &[
            Event::Enter(1, 0),
            Event::Enter(2, 0),
            Event::Strike(1, 0),
            Event::Dispatch(2, 0),
        ],
        stats: numbers(2, 1, 1, 0, 0),
        counts: Counts {
            executed: 2,
            cancelled: 1,
            ..Counts::default()
        },
    };
    run_row(&rt, rt.alloc(), &row)
}

// A dispatch finds a cancelled head, strikes it, and goes on to the next one.
#[test]
fn a_dispatch_strikes(rt: HostRuntime) -> Result<(), OpenFault> {
    let row = Row {
        config: settings(1),
        asks: &[ask(1); 3],
        steps: &[
            Begin(0, Run),
            Begin(1, Waits),
            Begin(2, Waits),
            Cancel(1, Cancelled),
            Release(0, Released(true)),
            Dispatch(1),
            Look(false, [1, 0, 1]),
            Strike(1, false),
            Poll(2, Run),
            Poll(1, Over(Cancelled)),
            Release(2, Released(false)),
        ],
        closed: false,
        decisions: &[Execute, Cancelled, Execute],
        log: &[
            Event::Enter(1, 0),
            Event::Enter(2, 0),
            Event::Strike(1, 0),
            Event::Dispatch(2, 0),
        ],
        stats: numbers(2, 1, 1, 0, 0),
        counts: Counts {
            executed: 2,
            cancelled: 1,
            ..Counts::default()
        },
    };
    run_row(&rt, rt.alloc(), &row)
}

// Requests that are cancelled before they arrive take no seats, and enter no queue.
#[test]
fn cancelled_before_they_arrive(rt: HostRuntime) -> Result<(), OpenFault> {
    let row = Row {
        config: settings(1),
        asks: &[ask(1); 4],
        steps: &[
            Cancel(0, Cancelled),
            Cancel(1, Cancelled),
            Cancel(2, Cancelled),
            Strike(0, false),
            Begin(0, Over(Cancelled)),
            TryAdmit(1, Tried(Cancelled, false)),
            Admit(3, Run),
            Begin(2, Over(Cancelled)),
            Cancel(3, Execute),
            Cancel(0, Cancelled),
            Look(false, [1, 0, 1]),
            Release(3, Released(false)),
        ],
        closed: false,
        decisions: &[Cancelled, Cancelled, Cancelled, Execute],
        log: &[],
        stats: numbers(0, 0, 0, 0, 0),
        counts: Counts {
            executed: 1,
            cancelled: 3,
            ..Counts::default()
        },
    };
    run_row(&rt, rt.alloc(), &row)
}
