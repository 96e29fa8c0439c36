//! Many random calls, whose answers are those of plain lists. Some choices are compared with those of the plain
//! program, which computes them of the history so far.
//!
//! The calls are made on one level after another, so that the histories stay short enough for the plain
//! program. On every second level the costs are small, so that finishes are often equal.

use crate::draws::Xorshift;
use crate::levels::{Level, Place, Seen};
use std::alloc::Global;
use std::process::Abort;
use std::test::Fail;

// How many calls are made for one number of queues, and how many on one level.
const CALLS: u32 = 100_000;

const CALLS_OF_LEVEL: u32 = 40;

// A queue: any, or one of the three from this one on.
fn queue_of(random: &mut Xorshift, queues: u32, from: u32) -> u32 {
    if random.below(2) == 0 {
        return random.below(queues);
    }
    from.saturating_add(random.below(3)) % queues.max(1)
}

// One random call.
fn call(
    rt: &impl Abort,
    random: &mut Xorshift,
    level: &mut Level,
    queue: u32,
    plainly: bool,
    seen: &mut Seen,
) -> Result<(), Fail> {
    match random.below(8) {
        0 | 1 | 2 => level.push(rt, queue, seen),
        3 => level.strike(rt, Place::Head, random, seen),
        4 => level.strike(rt, Place::Middle, random, seen),
        5 => level.strike(rt, Place::End, random, seen),
        _ => level.dispatch(rt, plainly, seen),
    }
}

// As many calls as are made, on levels of this many queues.
fn agree(rt: &impl Abort, alloc: Global, queues: u32) -> Result<Seen, Fail> {
    let mut random = Xorshift::new(88_172_645_463_325_252);
    let mut seen = Seen::default();
    for number in 0..CALLS / CALLS_OF_LEVEL {
        let greatest = if number % 2 == 0 { 3 } else { 20_000 };
        let mut level = Level::new(alloc, queues, greatest, &mut random)?;
        let from = random.below(queues);
        for _ in 0..CALLS_OF_LEVEL {
            let queue = queue_of(&mut random, queues, from);
            let plainly = random.below(queues.saturating_add(8) / 4) == 0;
            call(rt, &mut random, &mut level, queue, plainly, &mut seen)?;
        }
    }
    Ok(seen)
}

// The calls agree, and each kind of answer came often.
fn agree_often(rt: &impl Abort, alloc: Global, queues: u32) -> Result<(), Fail> {
    let seen = agree(rt, alloc, queues)?;
    assert!(rt; seen.pushed > 15_000 && seen.dispatched > 5_000 && seen.plainly > 50);
    assert!(rt; seen.heads > 1_500 && seen.middles > 50 && seen.ends > 250);
    Ok(())
}

#[test]
fn one_queue_agrees(rt: HostRuntime) -> Result<(), Fail> {
    agree_often(&rt, rt.alloc(), 1)
}

#[test]
fn two_queues_agree(rt: HostRuntime) -> Result<(), Fail> {
    agree_often(&rt, rt.alloc(), 2)
}

#[test]
fn three_queues_agree(rt: HostRuntime) -> Result<(), Fail> {
    agree_often(&rt, rt.alloc(), 3)
}

#[test]
fn five_queues_agree(rt: HostRuntime) -> Result<(), Fail> {
    agree_often(&rt, rt.alloc(), 5)
}

#[test]
fn sixty_four_queues_agree(rt: HostRuntime) -> Result<(), Fail> {
    agree_often(&rt, rt.alloc(), 64)
}

#[test]
fn a_thousand_queues_agree(rt: HostRuntime) -> Result<(), Fail> {
    agree_often(&rt, rt.alloc(), 1_000)
}

#[test]
fn as_many_queues_as_may_be_agree(rt: HostRuntime) -> Result<(), Fail> {
    agree_often(&rt, rt.alloc(), 1_024)
}
