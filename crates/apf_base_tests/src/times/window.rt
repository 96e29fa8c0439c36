//! Windows by hand, and random ones beside a plain list of all that came.

use crate::asserts::{is, is_at};
use crate::times::draws::Xorshift;
use apf_short::Refusing;
use apf_times::{Arrival, Place, Window, WindowError};
use std::alloc::{Allocator, Global};
use std::process::Abort;
use std::test::Fail;

// What was handed out, as its time, its line and its item.
fn told(arrival: Option<Arrival<u64>>) -> Option<(u64, u64, u64)> {
    let it = arrival?;
    Some((it.place.arrives_at, it.place.line, it.item))
}

// Something at this time and line. Its item is a hundred times its line.
fn push<A: Allocator>(
    window: &mut Window<u64, A>,
    arrives_at: u64,
    line: u64,
) -> Result<Option<(u64, u64, u64)>, WindowError> {
    let out = window.push(Place { arrives_at, line }, line.saturating_mul(100))?;
    Ok(told(out))
}

// A window of two. Line 3 comes two places late, line 4 is too late, and is not held.
#[test]
fn two_places_late(rt: HostRuntime) {
    let mut window = Window::new(rt.alloc(), 2);
    is(&rt, push(&mut window, 50, 0), Ok(None));
    is(&rt, push(&mut window, 30, 1), Ok(None));
    is(&rt, push(&mut window, 40, 2), Ok(Some((30, 1, 100))));
    is(&rt, push(&mut window, 30, 3), Ok(Some((30, 3, 300))));
    is(&rt, push(&mut window, 29, 4), Err(WindowError::TooLate));
    is(&rt, push(&mut window, 60, 5), Ok(Some((40, 2, 200))));
    is(&rt, push(&mut window, 39, 6), Err(WindowError::TooLate));
    is(&rt, told(window.pop()), Some((50, 0, 0)));
    is(&rt, told(window.pop()), Some((60, 5, 500)));
    is(&rt, told(window.pop()), None);
    is(&rt, push(&mut window, 59, 7), Err(WindowError::TooLate));
    is(&rt, push(&mut window, 60, 8), Ok(None));
}

// Of one time the lower line comes first, and a lower line than the last is too late.
#[test]
fn by_the_line(rt: HostRuntime) {
    let mut window = Window::new(rt.alloc(), 1);
    is(&rt, push(&mut window, 7, 9), Ok(None));
    is(&rt, push(&mut window, 7, 8), Ok(Some((7, 8, 800))));
    is(&rt, push(&mut window, 7, 7), Err(WindowError::TooLate));
    is(&rt, push(&mut window, 7, 8), Ok(Some((7, 8, 800))));
    is(&rt, told(window.pop()), Some((7, 9, 900)));
}

// A window of none hands out what comes at once.
#[test]
fn of_none(rt: HostRuntime) {
    let mut window = Window::new(rt.alloc(), 0);
    is(&rt, push(&mut window, 5, 0), Ok(Some((5, 0, 0))));
    is(&rt, push(&mut window, 4, 1), Err(WindowError::TooLate));
    is(
        &rt,
        push(&mut window, u64::MAX, 2),
        Ok(Some((u64::MAX, 2, 200))),
    );
    is(&rt, told(window.pop()), None);
}

// How many of these are behind a place.
fn behind(came: &[(u64, u64)], arrives_at: u64, line: u64) -> u64 {
    let mut count = 0u64;
    for (other, its_line) in came {
        if arrives_at < *other || arrives_at == *other && line < *its_line {
            count = count.saturating_add(1);
        }
    }
    count
}

// Random lines, each up to some time late. What was taken comes out sorted. How many were too late.
fn agree(
    rt: &impl Abort,
    alloc: Global,
    size: u32,
    spread: u32,
    random: &mut Xorshift,
) -> Result<u32, Fail> {
    let mut window = Window::new(alloc, size as usize);
    let mut came: Vec<(u64, u64)> = Vec::new(alloc);
    let mut out: Vec<(u64, u64)> = Vec::new(alloc);
    let mut late = 0u32;
    for line in 0..300u64 {
        let arrives_at = line.saturating_add(u64::from(random.below(spread)));
        let is_late = behind(came.as_slice(), arrives_at, line) > u64::from(size);
        match push(&mut window, arrives_at, line) {
            Err(fault) => {
                is_at(rt, fault, WindowError::TooLate, line);
                is_at(rt, is_late, true, line);
                late = late.saturating_add(1);
                continue;
            }
            Ok(first) => {
                is_at(rt, is_late, false, line);
                came.push((arrives_at, line))?;
                is_at(rt, first.is_some(), came.len() > size as usize, line);
                if let Some((at, its_line, item)) = first {
                    is_at(rt, item, its_line.saturating_mul(100), line);
                    out.push((at, its_line))?;
                }
            }
        }
    }
    for _ in 0..size {
        if let Some((at, its_line, _)) = told(window.pop()) {
            out.push((at, its_line))?;
        }
    }
    is(rt, told(window.pop()), None);
    came.sort_unstable();
    is(rt, out, came);
    Ok(late)
}

#[test]
fn random(rt: HostRuntime) -> Result<(), Fail> {
    let mut random = Xorshift::new(88_172_645_463_325_252);
    let (mut late, mut in_time) = (0u32, 0u32);
    for size in [0, 1, 2, 5, 20, 300] {
        for spread in [1, 2, 4, 8, 30] {
            let count = agree(&rt, rt.alloc(), size, spread, &mut random)?;
            late = late.saturating_add(count);
            in_time = in_time.saturating_add((count == 0) as u32);
        }
    }
    assert!(rt; late > 100 && in_time > 10);
    Ok(())
}

// Fills a window of a hundred from the back. What is refused changes nothing, and comes again.
fn fill<A: Allocator>(rt: &impl Abort, alloc: &Refusing<A>) -> bool {
    let mut window = Window::new(alloc, 100);
    let mut refusals = 0u32;
    for line in 0..100u64 {
        let at = 1_000u64.saturating_sub(line);
        let found = push(&mut window, at, line);
        if found == Err(WindowError::NoMemory) {
            refusals = refusals.saturating_add(1);
            is_at(rt, push(&mut window, at, line), Ok(None), line);
        } else {
            is_at(rt, found, Ok(None), line);
        }
    }
    for at in 901..1_001u64 {
        let line = 1_000u64.saturating_sub(at);
        is_at(
            rt,
            told(window.pop()),
            Some((at, line, line.saturating_mul(100))),
            at,
        );
    }
    is(rt, refusals, alloc.has_refused() as u32);
    refusals == 0
}

#[test]
fn each_refusal_is_returned(rt: HostRuntime) {
    let mut refusals = 0u32;
    for refused in 1..100 {
        if fill(&rt, &Refusing::new(rt.alloc(), refused)) {
            break;
        }
        refusals = refusals.saturating_add(1);
    }
    assert!(rt; refusals > 3 && refusals < 99);
}

// Fills a window of a hundred, and goes on, each second time with what is late. Says whether all memory that it
// took was taken until it was full.
fn fills_once<A: Allocator>(rt: &impl Abort, alloc: &Refusing<A>) -> bool {
    let mut window = Window::new(alloc, 100);
    for line in 0..101u64 {
        if push(&mut window, 1_000u64.saturating_add(line), line).is_err() {
            return false;
        }
    }
    for line in 101..400u64 {
        let late = if line % 2 == 0 { 0 } else { 90 };
        let at = 1_000u64.saturating_add(line).saturating_sub(late);
        is_at(rt, push(&mut window, at, line).is_ok(), true, line);
    }
    !alloc.has_refused()
}

#[test]
fn a_full_window_takes_no_memory(rt: HostRuntime) {
    let mut requests = 0u32;
    for refused in 1..100 {
        if fills_once(&rt, &Refusing::new(rt.alloc(), refused)) {
            break;
        }
        requests = requests.saturating_add(1);
    }
    assert!(rt; requests > 3 && requests < 99);
}

// One comes far ahead of the others, which are handed out before it, in their order.
#[test]
fn one_far_ahead(rt: HostRuntime) {
    let mut window = Window::new(rt.alloc(), 3);
    is(&rt, push(&mut window, 900, 0), Ok(None));
    is(&rt, push(&mut window, 10, 1), Ok(None));
    is(&rt, push(&mut window, 30, 2), Ok(None));
    is(&rt, push(&mut window, 20, 3), Ok(Some((10, 1, 100))));
    is(&rt, push(&mut window, 25, 4), Ok(Some((20, 3, 300))));
    is(&rt, push(&mut window, 900, 5), Ok(Some((25, 4, 400))));
    is(&rt, push(&mut window, 901, 6), Ok(Some((30, 2, 200))));
    is(&rt, told(window.pop()), Some((900, 0, 0)));
    is(&rt, told(window.pop()), Some((900, 5, 500)));
    is(&rt, told(window.pop()), Some((901, 6, 600)));
    is(&rt, told(window.pop()), None);
}
