//! A script with the answers and events that it is to have.

ghost use Rattle.std.specs.Prelude.{◌≡◌, length, map, All};
ghost use Rattle.apf_model.specs.declared.response.Response.TheVariants.{Queue};
ghost use Rattle.apf_gate.specs.declared.record.State.TheVariants.{Fresh};
ghost use Rattle.apf_gate.specs.Gauges.{IsShape};
ghost use Rattle.apf_gate.specs.Records.{new_desk};
ghost use Rattle.apf_gate.specs.Tokens.{pass_gate, desk_gate, station_gate};

use crate::asserts::{is, is_at};
use crate::level::{Answer, Command, Level, Totals};
use crate::marks::Mark;
use crate::opening::{Fault, open_gate};
use apf_book::{Ask, Config};
use apf_gate::Opened;
use apf_model::{Event, Response};
use apf_short::Refusing;
use std::alloc::{Allocator, Global};
use std::marker::Brand;
use std::process::Abort;
use std::sync::Wait;

/// A command with what it answers, and the events that the log gains by it.
#[derive(Clone, Copy)]
pub struct Step<'a> {
    pub command: Command,
    pub answer: Answer,
    pub events: &'a [Event],
}

/// A level with what is done with it, and its numbers at the end.
#[derive(Clone, Copy)]
pub struct Row<'a> {
    pub config: Config,
    pub asks: &'a [Ask],
    pub steps: &'a [Step<'a>],
    pub totals: Totals,
}

/// The settings of a level whose queues have room for 10 requests, and whose hands are one queue.
pub fn settings(limit: u32, queues: u32) -> Config {
    Config {
        limit,
        queues,
        hand_size: 1,
        queue_length_limit: 10,
        limit_response: Response::Queue,
    }
}

/// A command that answers so, and by which the log gains these events.
pub fn expect(command: Command, answer: Answer, events: &[Event]) -> Step<'_> {
    Step {
        command,
        answer,
        events,
    }
}

/// Opens the level, does what the script says, and asserts that answers, events and numbers are the row's.
pub fn run<A: Allocator + Copy, R: Wait + Abort>(
    rt: &R,
    alloc: A,
    row: &Row<'_>,
) -> Result<(), Fault> {
    run_watched(rt, alloc, None, row)
}

/// As `run`, and asserts that the watched allocator refuses nothing after the opening.
pub fn run_watched<A: Allocator + Copy, R: Wait + Abort>(
    rt: &R,
    alloc: A,
    watched: Option<&Refusing<Global>>,
    row: &Row<'_>,
) -> Result<(), Fault> {
    let opened = open_gate(alloc, &row.config, row.asks, 1)?;
    play::<A, Brand, R>(rt, alloc, watched, row, opened)
}

// Whether the watched allocator refused its request.
fn has_refused(watched: Option<&Refusing<Global>>) -> bool {
    match watched {
        None => false,
        Some(alloc) => alloc.has_refused(),
    }
}

fn play<A: Allocator + Copy, K: Mark, R: Wait + Abort>(
    rt: &R,
    alloc: A,
    watched: Option<&Refusing<Global>>,
    row: &Row<'_>,
    opened: Opened<A>,
) -> Result<(), Fault>
    requires gate { opened.0 ≡ K.gate }
    requires desk { (desk_gate opened.1 ≡ opened.0) × (opened.1.desk ≡ new_desk opened.1.desk.knows.shape) }
    requires shape { IsShape opened.0.shape × (length opened.0.shape.widths ≡ opened.0.shape.slots) × (opened.0.shape.response ≡ Queue) }
    requires widths { map (λ a. a.width) row.now.asks.now ≡ opened.0.shape.widths }
    requires passes { All (λ t. (pass_gate t ≡ opened.0) × (t.pass.state ≡ Fresh)) opened.2.items }
    requires stations { All (λ t. station_gate t ≡ opened.0) opened.3.items }
    requires count { length opened.2.items ≡ length row.now.asks.now }
    requires one { length opened.3.items ≡ 1 }
{
    let mut level = Level::<A, K>::new(alloc, &row.config, row.asks, opened)?;
    let refused = has_refused(watched);
    for step in row.steps {
        follow(rt, &mut level, step);
    }
    is(rt, level.totals(), row.totals);
    is(rt, has_refused(watched), refused);
    Ok(())
}

// Does what the step says, and asserts that answer and events are the step's.
fn follow<A: Allocator, K: Mark, R: Wait + Abort>(
    rt: &R,
    level: &mut Level<A, K>,
    step: &Step<'_>,
) {
    let before = level.log().len();
    let answer = level.act(rt, step.command);
    is_at(rt, answer, step.answer, step.command);
    let log = level.log();
    assert!(rt; before <= log.len());
    is_at(rt, &log[before..], step.events, step.command);
}
