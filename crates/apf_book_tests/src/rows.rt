//! Worked scripts: what each command answers, and what the log gains by it.

use crate::level::Answer::{self, Cancel, Decided, Finished, Full, Queued};
use crate::level::Command::{self, Arrive, Finish};
use crate::level::Totals;
use crate::opening::{Fault, ask};
use crate::scripts::{Row, expect, run, run_watched, settings};
use apf_book::Config;
use apf_gate::Close;
use apf_model::Event;
use apf_model::Event::{Dispatch, Enter, Strike};
use apf_short::Refusing;
use apf_words::Decision;
use std::alloc::{Allocator, Global};
use std::process::Abort;
use std::sync::Wait;

const EXECUTED: Answer = Decided(Decision::Execute);

// Of two that wait for one seat the first is struck.
#[test]
fn strike(rt: HostRuntime) -> Result<(), Fault> {
    strike_on(&rt, rt.alloc(), None)
}

/// The script with a strike, on a level whose memory is from this allocator, and the watched one refuses nothing
/// after the opening.
pub fn strike_on<A: Allocator + Copy, R: Wait + Abort>(
    rt: &R,
    alloc: A,
    watched: Option<&Refusing<Global>>,
) -> Result<(), Fault> {
    let row = Row {
        config: settings(1, 1),
        asks: &[ask(1, 0), ask(1, 0), ask(1, 0)],
        steps: &[
            expect(Arrive(0), EXECUTED, &[]),
            expect(Arrive(1), Queued(0), &[Enter(1, 0)]),
            expect(Arrive(2), Queued(0), &[Enter(2, 0)]),
            expect(
                Command::Cancel(1),
                Cancel(Decision::Cancelled),
                &[Strike(1, 0)],
            ),
            expect(Finish(0), Finished, &[Dispatch(2, 0)]),
        ],
        totals: Totals {
            open: true,
            level: [1, 0],
            decided: [2, 0, 1, 0],
            rejected: [0, 0, 0],
            logged: [2, 1, 1],
        },
    };
    run_watched(rt, alloc, watched, &row)
}

// The queue is full: a request is rejected as full on an open level, and as closed on a closed one, when it
// got in line before and comes to the book after.
#[test]
fn closed_before_full(rt: HostRuntime) -> Result<(), Fault> {
    let row = Row {
        config: Config {
            queue_length_limit: 1,
            ..settings(1, 1)
        },
        asks: &[ask(1, 0), ask(1, 0), ask(1, 0), ask(1, 0)],
        steps: &[
            expect(Arrive(0), EXECUTED, &[]),
            expect(Arrive(1), Queued(0), &[Enter(1, 0)]),
            expect(Command::Ask(2), Answer::InLine, &[]),
            expect(Command::Ask(3), Answer::InLine, &[]),
            expect(Command::Hand(2), Full(0), &[Event::Full(2, 0)]),
            expect(Command::Close, Answer::Close(Close::First), &[]),
            expect(Command::Hand(3), Decided(Decision::Closed), &[]),
        ],
        totals: Totals {
            open: false,
            level: [1, 1],
            decided: [1, 2, 0, 1],
            rejected: [1, 1, 0],
            logged: [1, 0, 0],
        },
    };
    run(&rt, rt.alloc(), &row)
}

// A closed level with room in the queue rejects too. Who entered, or was rejected as full, came before.
#[test]
fn closed_and_again(rt: HostRuntime) -> Result<(), Fault> {
    let row = Row {
        config: Config {
            queue_length_limit: 1,
            ..settings(1, 1)
        },
        asks: &[ask(1, 0), ask(1, 0), ask(1, 0), ask(1, 0), ask(1, 0)],
        steps: &[
            expect(Arrive(0), EXECUTED, &[]),
            expect(Command::Ask(1), Answer::InLine, &[]),
            expect(Command::Ask(2), Answer::InLine, &[]),
            expect(Command::Ask(3), Answer::InLine, &[]),
            expect(Command::Ask(4), Answer::InLine, &[]),
            expect(Command::Hand(1), Queued(0), &[Enter(1, 0)]),
            expect(Command::Hand(1), Answer::Again, &[]),
            expect(Command::Cancel(2), Cancel(Decision::Cancelled), &[]),
            expect(Command::Hand(2), Decided(Decision::Cancelled), &[]),
            expect(Finish(0), Finished, &[Dispatch(1, 0)]),
            expect(Command::Close, Answer::Close(Close::First), &[]),
            expect(Command::Close, Answer::Close(Close::Already), &[]),
            expect(Command::Hand(3), Decided(Decision::Closed), &[]),
            expect(Arrive(4), Answer::Again, &[]),
        ],
        totals: Totals {
            open: false,
            level: [1, 0],
            decided: [2, 1, 1, 1],
            rejected: [0, 1, 0],
            logged: [1, 1, 0],
        },
    };
    run(&rt, rt.alloc(), &row)
}

// A request that was cancelled before it came to the book does not enter, though its queue has room.
#[test]
fn cancelled_before_it_arrived(rt: HostRuntime) -> Result<(), Fault> {
    let row = Row {
        config: settings(1, 1),
        asks: &[ask(1, 0), ask(1, 0), ask(1, 0)],
        steps: &[
            expect(Arrive(0), EXECUTED, &[]),
            expect(Command::Ask(1), Answer::InLine, &[]),
            expect(Command::CancelAlone(1), Cancel(Decision::Cancelled), &[]),
            expect(Command::Hand(1), Decided(Decision::Cancelled), &[]),
            expect(Arrive(2), Queued(0), &[Enter(2, 0)]),
            expect(Finish(0), Finished, &[Dispatch(2, 0)]),
        ],
        totals: Totals {
            open: true,
            level: [1, 0],
            decided: [2, 0, 1, 0],
            rejected: [0, 0, 0],
            logged: [1, 1, 0],
        },
    };
    run(&rt, rt.alloc(), &row)
}

// A head that is cancelled and too wide for the level holds nobody up, though nobody strikes it.
#[test]
fn cancelled_wide_head(rt: HostRuntime) -> Result<(), Fault> {
    let row = Row {
        config: settings(2, 1),
        asks: &[ask(1, 0), ask(5, 0), ask(1, 0), ask(1, 0)],
        steps: &[
            expect(Arrive(0), EXECUTED, &[]),
            expect(Arrive(1), Queued(0), &[Enter(1, 0)]),
            expect(Arrive(2), Queued(0), &[Enter(2, 0)]),
            expect(Command::CancelAlone(1), Cancel(Decision::Cancelled), &[]),
            expect(
                Arrive(3),
                Queued(0),
                &[Enter(3, 0), Strike(1, 0), Dispatch(2, 0)],
            ),
            expect(Finish(0), Finished, &[Dispatch(3, 0)]),
        ],
        totals: Totals {
            open: true,
            level: [2, 0],
            decided: [3, 0, 1, 0],
            rejected: [0, 0, 0],
            logged: [3, 2, 1],
        },
    };
    run(&rt, rt.alloc(), &row)
}
