//! Worlds after steps, which the plain program makes.

use crate::asserts::{is, is_at};
use apf_model::Move::{Close, Decide, Enter, Grant, Leave, Release, See, SetLimit, Take};
use apf_model::{Move, Response, Stage};
use apf_plain::{World, are_widths};
use apf_words::Decision;
use std::alloc::{AllocError, Global};
use std::process::Abort;
use std::test::Fail;

// The step is allowed or not as said.
fn make(rt: &impl Abort, world: &mut World, step: Move, allowed: bool) {
    if let SetLimit(limit) = step {
        assert!(rt; limit <= 10_000);
    }
    is_at(rt, world.step(step), allowed, step);
}

// The world after steps, each of which is allowed or not as said.
fn steps(
    rt: &impl Abort,
    alloc: Global,
    limit: u32,
    response: Response,
    widths: &[u32],
    steps: &[(Move, bool)],
) -> Result<World, AllocError> {
    assert!(rt; limit <= 10_000 && widths.len() <= 10_000 && are_widths(widths));
    let mut world = World::new(alloc, limit, response, widths)?;
    for (step, allowed) in steps {
        make(rt, &mut world, *step, *allowed);
    }
    Ok(world)
}

#[test]
fn over_wide(rt: HostRuntime) -> Result<(), Fail> {
    let first = [
        (Take(0), true),
        (Decide(0, Decision::Execute), true),
        (Take(1), false),
        (See(1), true),
        (Enter(1), true),
        (Grant(1), false),
        (Release(0), true),
        (Grant(1), true),
        (Decide(1, Decision::Execute), true),
        (Decide(1, Decision::Cancelled), false),
    ];
    let world = steps(&rt, rt.alloc(), 2, Response::Queue, &[5, 1], &first)?;
    is(&rt, [world.seats(), world.waiters()], [1, 0]);
    Ok(())
}

#[test]
fn over_wide_on_an_empty_level(rt: HostRuntime) -> Result<(), Fail> {
    let second = [
        (Take(0), true),
        (Take(1), false),
        (Enter(1), true),
        (Release(0), false),
        (Decide(0, Decision::Execute), true),
        (Release(0), true),
        (Grant(1), true),
        (Decide(1, Decision::Cancelled), true),
        (Decide(1, Decision::Execute), false),
    ];
    let world = steps(&rt, rt.alloc(), 2, Response::Queue, &[1, 5], &second)?;
    is(&rt, [world.seats(), world.largest()], [5, 2]);
    Ok(())
}

#[test]
fn closing_and_cancelling(rt: HostRuntime) -> Result<(), Fail> {
    let closing = [
        (Enter(0), true),
        (Take(1), false),
        (Decide(1, Decision::Closed), false),
        (Close, true),
        (Decide(1, Decision::Closed), true),
        (Enter(2), false),
        (See(2), false),
        (Leave(0), false),
        (Decide(0, Decision::Cancelled), true),
        (Leave(0), true),
        (Grant(0), false),
        (Release(0), false),
    ];
    let world = steps(&rt, rt.alloc(), 1, Response::Queue, &[1, 1, 1], &closing)?;
    is(&rt, (world.is_open(), world.waiters()), (false, 0));
    is(&rt, world.stage(0), Stage::Gone);
    let decisions = [world.decision(1), world.decision(2)];
    is(&rt, decisions, [Some(Decision::Closed), None]);
    Ok(())
}

#[test]
fn changing_the_limit(rt: HostRuntime) -> Result<(), Fail> {
    let changing = [
        (Take(0), true),
        (Take(1), false),
        (SetLimit(4), true),
        (See(1), false),
        (Take(1), true),
        (SetLimit(1), true),
        (Take(2), false),
    ];
    let world = steps(&rt, rt.alloc(), 2, Response::Queue, &[2, 2, 1], &changing)?;
    let numbers = [world.limit(), world.largest(), world.seats()];
    is(&rt, numbers, [1, 4, 4]);
    Ok(())
}

#[test]
fn rejecting(rt: HostRuntime) -> Result<(), Fail> {
    let rejecting = [
        (Take(0), true),
        (Enter(1), false),
        (Decide(1, Decision::ConcurrencyLimit), false),
        (See(1), true),
        (Decide(1, Decision::ConcurrencyLimit), true),
        (See(2), false),
        (Decide(2, Decision::QueueFull), true),
    ];
    let world = steps(&rt, rt.alloc(), 2, Response::Reject, &[1, 2, 1], &rejecting)?;
    is(&rt, world.decision(1), Some(Decision::ConcurrencyLimit));
    is(&rt, world.stage(1), Stage::Away);
    Ok(())
}
